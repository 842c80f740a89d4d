//! The words of `serve` with several connections at one time.

use crate::runs::expect;
use crate::words::{expect_reason, expect_refusal};

#[test]
fn takes_numbers_of_many(rt: HostRuntime) {
    for (connections, at_once, patience) in [
        ("1", "1", "1"),
        ("65535", "200", "30"),
        ("65536", "1", "1"),
        ("4294967295", "65535", "86400"),
    ] {
        let words = ["serve", "default", "nowhere", "--connections", connections];
        let [serve, settings, address, name, count] = words;
        let with_both = [
            serve,
            settings,
            address,
            name,
            count,
            "--at-once",
            at_once,
            "--patience",
            patience,
        ];
        expect(&rt, &with_both, "", 3, "", "link\n");
        let turned = [
            serve,
            "--patience",
            patience,
            settings,
            "--at-once",
            at_once,
            address,
            name,
            count,
        ];
        expect(&rt, &turned, "", 3, "", "link\n");
        let at_once = [serve, settings, address, name, count, "--at-once", at_once];
        expect(&rt, &at_once, "", 3, "", "link\n");
        let patient = [
            serve,
            settings,
            address,
            name,
            count,
            "--patience",
            patience,
        ];
        expect(&rt, &patient, "", 3, "", "link\n");
    }
}

#[test]
fn refuses_numbers_of_many(rt: HostRuntime) {
    for (name, number) in [
        ("--at-once", "0"),
        ("--at-once", "65536"),
        ("--at-once", "x"),
        ("--at-once", ""),
        ("--at-once", "-1"),
        ("--at-once", "1.0"),
        ("--patience", "0"),
        ("--patience", "86401"),
        ("--patience", "1s"),
        ("--patience", ""),
        ("--patience", "-1"),
        ("--patience", "0.5"),
    ] {
        let words = [
            "serve",
            "default",
            "nowhere",
            "--connections",
            "1",
            name,
            number,
        ];
        expect_refusal(&rt, &words);
    }
    let twice = [
        "serve",
        "default",
        "nowhere",
        "--connections",
        "1",
        "--at-once",
        "1",
        "--at-once",
        "1",
    ];
    expect_refusal(&rt, &twice);
    for number in ["0", "4294967296", "x"] {
        let words = [
            "serve",
            "default",
            "nowhere",
            "--connections",
            number,
            "--at-once",
            "1",
        ];
        expect_refusal(&rt, &words);
    }
    expect_refusal(&rt, &["serve", "default", "nowhere", "--at-once", "1"]);
    let words = [
        "serve",
        "default",
        "nowhere",
        "--connections",
        "1",
        "--at-once",
        "0",
    ];
    expect_reason(&rt, &words, "0 is not in 1..=65535");
    let words = [
        "serve",
        "default",
        "nowhere",
        "--connections",
        "1",
        "--patience",
        "0",
    ];
    expect_reason(&rt, &words, "0 is not in 1..=86400");
}

/// A server that opens connections has one at a time, and without the words of many there are at most 65535.
#[test]
fn refuses_many_that_are_none(rt: HostRuntime) {
    for (name, number) in [("--at-once", "2"), ("--patience", "30")] {
        let words = [
            "serve",
            "default",
            "nowhere",
            "--connections",
            "1",
            name,
            number,
            "--reverse",
        ];
        expect(&rt, &words, "", 2, "", "words\n");
    }
    for number in ["65536", "4294967295"] {
        let words = ["serve", "default", "nowhere", "--connections", number];
        expect(&rt, &words, "", 2, "", "words\n");
    }
    let words = ["serve", "default", "nowhere", "--connections", "65535"];
    expect(&rt, &words, "", 3, "", "link\n");
    let words = [
        "serve",
        "absent.toml",
        "nowhere",
        "--connections",
        "1",
        "--at-once",
        "1",
    ];
    expect(&rt, &words, "", 3, "", "file\n");
}
