//! Servers that open the connection: what `answer` prints of them, and the words of `--reverse`.

use crate::answering::{HELLO, NOTHING};
use crate::runs::expect;
use crate::words::{expect_reason, expect_refusal};
use std::fs;
use std::net::Net;
use std::process::Abort;
use std::rt::{Clock, Files};
use std::test::Fail;
use ua_test_runs::settings::{NO_ENDPOINT, long_settings};

const GREETED: &str =
    "524845462d0000000500000075726e3a61180000006f70632e7463703a2f2f6c6f63616c686f73743a34383430\nend input-ended\n";

pub const GREETED_AND_ACKNOWLEDGED: &str =
    "524845462d0000000500000075726e3a61180000006f70632e7463703a2f2f6c6f63616c686f73743a3438343041434b461c00000000000000ffff0000ffff00000000100040000000\nend input-ended\n";

const GREETED_AND_CUT: &str =
    "524845462d0000000500000075726e3a61180000006f70632e7463703a2f2f6c6f63616c686f73743a34383430\nend truncated\n";

const GREETED_AND_REFUSED: &str =
    "524845462d0000000500000075726e3a61180000006f70632e7463703a2f2f6c6f63616c686f73743a34383430455252461000000000007e80ffffffff\nend refused 807E0000\n";

#[test]
fn answers_behind_a_reverse_hello(rt: HostRuntime) {
    for (input, status, output, errors) in [
        ("", 0, GREETED, ""),
        ("# a comment\n@5\n", 0, GREETED, ""),
        (HELLO, 0, GREETED_AND_ACKNOWLEDGED, ""),
        ("48454C46", 1, GREETED_AND_CUT, ""),
        ("47455420 2F204854", 1, GREETED_AND_REFUSED, ""),
        ("47\n4g", 1, "", "line 2\n"),
    ] {
        for words in [
            ["answer", "default", "--reverse"],
            ["answer", "--reverse", "default"],
        ] {
            expect(&rt, &words, input, status, output, errors);
        }
    }
}

/// It is told behind the lines of the input: a bad line is told first.
#[test]
fn tells_that_there_is_no_endpoint(rt: HostRuntime) {
    fs::write(&rt, "no_endpoint.toml", NO_ENDPOINT).expect(&rt, "a file is written");
    let words = ["answer", "no_endpoint.toml", "--reverse"];
    for input in ["", HELLO, "48454C46", "47455420 2F204854"] {
        expect(&rt, &words, input, 1, "", "reverse 1\n");
    }
    expect(&rt, &words, "\n4g", 1, "", "line 2\n");
    expect(&rt, &words[..2], "", 0, NOTHING, "");
}

/// Runs `answer` by settings whose ReverseHello would be too large.
fn expect_too_large<R: Files + Net + Clock + AllocGlobal + Abort>(rt: &R, text: &[u8]) {
    fs::write(rt, "long.toml", text).expect(rt, "a file is written");
    let words = ["answer", "long.toml", "--reverse"];
    expect(rt, &words, "", 1, "", "reverse 2\n");
    expect(rt, &words, "4g", 1, "", "line 1\n");
    expect(rt, &words[..2], "", 0, NOTHING, "");
}

#[test]
fn tells_that_a_reverse_hello_is_too_large(rt: HostRuntime) -> Result<(), Fail> {
    let text = long_settings(rt.alloc())?;
    expect_too_large(&rt, text.as_bytes());
    Ok(())
}

/// A url stands exactly where there is no `--reverse`; the words are judged before the address.
#[test]
fn refuses_words_of_reverse(rt: HostRuntime) {
    expect(&rt, &["ask", "find", "nowhere"], "", 2, "", "words\n");
    for url in ["opc.tcp://localhost:4840", ""] {
        let words = ["ask", "find", "nowhere", url, "--reverse"];
        expect(&rt, &words, "", 2, "", "words\n");
        let words = ["ask", "--reverse", "endpoints", "nowhere", url];
        expect(&rt, &words, "", 2, "", "words\n");
    }
    expect_refusal(&rt, &["ask", "find", "--reverse"]);
    expect_refusal(&rt, &["answer", "--reverse"]);
    expect_refusal(&rt, &["answer", "default", "--reverse", "--reverse"]);
    expect_refusal(&rt, &["answer", "default", "--reverse=true"]);
    expect_refusal(&rt, &["serve", "default", "127.0.0.1:0", "--reverse"]);
    expect_refusal(&rt, &["show", "-", "--reverse"]);
    expect_refusal(&rt, &["value", "Boolean", "00", "--reverse"]);
    expect_reason(&rt, &["answer", "default", "--revers"], "'--reverse'");
}

/// Nothing can listen there, and nothing can be reached; the settings are judged first.
#[test]
fn opens_nothing_where_it_cannot(rt: HostRuntime) {
    for address in ["nowhere", "127.0.0.1:65536", ""] {
        let words = ["ask", "find", address, "--reverse"];
        expect(&rt, &words, "", 3, "", "link\n");
        for (settings, errors) in [("default", "link\n"), ("absent.toml", "file\n")] {
            let words = [
                "serve",
                settings,
                address,
                "--connections",
                "1",
                "--reverse",
            ];
            expect(&rt, &words, "", 3, "", errors);
        }
    }
}
