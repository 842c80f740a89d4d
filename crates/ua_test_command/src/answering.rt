//! The command `answer`: the forms of its lines, settings and what is wrong with them, and lines that are bad.

use crate::runs::{Signs, expect};
use std::alloc::{AllocError, Global};
use std::fs;
use std::net::Net;
use std::process::Abort;
use std::rt::{Clock, Files};
use std::test::Fail;
use ua_disco::DEFAULT;
use ua_test_runs::pages::ends_so;

pub const HELLO: &str =
    "48454C46 38000000 00000000 FFFF0000 FFFF0000 00000000 00000000 18000000 6F70632E7463703A2F2F6C6F63616C686F73743A34383430";

pub const ACKNOWLEDGED: &str =
    "41434b461c00000000000000ffff0000ffff00000000100040000000\nend input-ended\n";

const HELLO_IN_TWO: &str =
    "48454C463800\n@7\n0000 00000000 FFFF0000 FFFF0000 00000000 00000000 18000000 6F70632E7463703A2F2F6C6F63616C686F73743A34383430";

const TWO_HELLOS: &str =
    "48454C46 38000000 00000000 FFFF0000 FFFF0000 00000000 00000000 18000000 6F70632E7463703A2F2F6C6F63616C686F73743A34383430\n48454C46 38000000 00000000 FFFF0000 FFFF0000 00000000 00000000 18000000 6F70632E7463703A2F2F6C6F63616C686F73743A34383430";

const SECOND_REFUSED: &str =
    "41434b461c00000000000000ffff0000ffff00000000100040000000455252461000000000007e80ffffffff\nend refused 807E0000\n";

pub const NOTHING: &str = "\nend input-ended\n";

const NOT_A_TYPE: &str = "455252461000000000007e80ffffffff\nend refused 807E0000\n";

#[test]
fn answers_each_form_of_line(rt: HostRuntime) {
    for (input, status, output) in [
        (HELLO, 0, ACKNOWLEDGED),
        ("", 0, NOTHING),
        ("# a comment\n\r\n   \n#4g", 0, NOTHING),
        ("@5\n@ 0 07 \r\n@9223372036854775807", 0, NOTHING),
        ("@0\n 47 45\r\n@12\n54 20\n2f2048 54", 1, NOT_A_TYPE),
        ("48454C46", 1, "\nend truncated\n"),
        (HELLO_IN_TWO, 0, ACKNOWLEDGED),
        (TWO_HELLOS, 1, SECOND_REFUSED),
    ] {
        expect(&rt, &["answer", "default"], input, status, output, "");
    }
}

/// Settings of a server that takes 8192 bytes, sends 16384, and takes messages of 65536 bytes and 9 chunks.
const SMALL: &str = "version = 1
[application]
uri = \"urn:small\"
names = [{ text = \"Small\" }]
[limits]
receive = 8192
send = 16384
max_message = 65536
max_chunks = 9
";

const SMALL_ACKNOWLEDGED: &str =
    "41434b461c0000000000000000200000004000000000010009000000\nend input-ended\n";

#[test]
fn answers_by_a_file(rt: HostRuntime) {
    fs::write(&rt, "small.toml", SMALL).expect(&rt, "a file is written");
    expect(
        &rt,
        &["answer", "small.toml"],
        HELLO,
        0,
        SMALL_ACKNOWLEDGED,
        "",
    );
    expect(&rt, &["answer", "small.toml"], "#\n4g", 1, "", "line 2\n");
}

/// The settings `default` with a second endpoint, whose mode is out of range.
fn with_second_endpoint(alloc: Global) -> Result<String, AllocError> {
    let mut text = String::from_str(alloc, DEFAULT)?;
    text.push_str("[[endpoint]]\nurl = \"opc.tcp://localhost:4841\"\nmode = 4\n")?;
    Ok(text)
}

/// The text of a settings file is refused, before the input is judged.
fn refuses<R: Files + Net + Clock + AllocGlobal + Abort>(rt: &R, text: &[u8], errors: &str) {
    fs::write(rt, "refused.toml", text).expect(rt, "a file is written");
    for input in [HELLO, "4g"] {
        expect(rt, &["answer", "refused.toml"], input, 1, "", errors);
    }
}

#[test]
fn refuses_settings(rt: HostRuntime) {
    for (text, errors) in [
        ("version =", "settings 1\n"),
        ("", "settings 2 version\n"),
        ("version = \"1\"", "settings 3 version\n"),
        ("version = 3", "settings 4 version\n"),
        ("version = 2", "settings 2 application\n"),
        ("x = 1", "settings 5 x\n"),
        (
            "version = 1\n[application]\nuri = \"urn:a\"\nnames = [{ text = \"A\" }, { text = 7 }]\n",
            "settings 3 application.names.1.text\n",
        ),
    ] {
        refuses(&rt, text.as_bytes(), errors);
    }
    refuses(&rt, b"# \xE4\nversion = 1\n".as_slice(), "settings 1\n");
}

#[test]
fn refuses_a_second_endpoint(rt: HostRuntime) -> Result<(), Fail> {
    let text = with_second_endpoint(rt.alloc())?;
    refuses(&rt, text.as_bytes(), "settings 4 endpoint.1.mode\n");
    Ok(())
}

/// Settings are refused where the input can't be read either.
#[test]
fn refuses_settings_before_a_failed_read(rt: HostRuntime) {
    fs::write(&rt, "empty.toml", "").expect(&rt, "a file is written");
    let mut input = Signs {
        left: 0,
        fails: true,
    };
    let words = ["answer", "empty.toml"];
    assert!(rt; ends_so(&rt, &words, &mut input, 1, "", "settings 2 version\n"));
}

/// A file that is absent, a folder, or none that can have a name.
#[test]
fn tells_files_that_cannot_be_read(rt: HostRuntime) {
    for path in ["absent.toml", "Default", "", ".", "a\0b"] {
        expect(&rt, &["answer", path], "4g", 3, "", "file\n");
    }
}

#[test]
fn stops_at_a_bad_line(rt: HostRuntime) {
    for (input, errors) in [
        ("4g", "line 1\n"),
        ("47455420\n4", "line 2\n"),
        ("\n\n@", "line 3\n"),
        ("@+5", "line 1\n"),
        ("@-5", "line 1\n"),
        ("@5x", "line 1\n"),
        ("@@5", "line 1\n"),
        ("#\n@9223372036854775808", "line 2\n"),
        ("@99999999999999999999999", "line 1\n"),
        ("47 # no comment", "line 1\n"),
        ("4\t7", "line 1\n"),
        ("0x47", "line 1\n"),
        ("47\n4\n@", "line 2\n"),
    ] {
        expect(&rt, &["answer", "default"], input, 1, "", errors);
    }
}
