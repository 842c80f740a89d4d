//! Words that are refused, with the reason, and words that ask for help or the version.

use crate::runs::expect;
use std::net::Net;
use std::process::Abort;
use std::rt::{Clock, Files};
use ua_command::run::run;
use ua_test_runs::pages::{Page, has};

/// Whether clap refuses the words: it tells its text, and nothing is read or printed.
fn are_refused<R: Files + Net + Clock + AllocGlobal>(rt: &R, words: &[&str]) -> bool {
    let mut input = b"4g".as_slice();
    let mut printed = Page::new(4096);
    let mut told = Page::new(4096);
    let status = run(rt, words, &mut input, &mut printed, &mut told);
    let alone = status == 2 && printed.len == 0 && input == b"4g".as_slice();
    alone && told.len > 20 && told.text().last() == Some(&b'\n')
}

/// Runs words that clap refuses, and looks for its text and for nothing else.
pub fn expect_refusal<R: Files + Net + Clock + AllocGlobal + Abort>(rt: &R, words: &[&str]) {
    assert!(rt; are_refused(rt, words));
}

/// Whether the words are refused with a text that has this part.
fn are_refused_with<R: Files + Net + Clock + AllocGlobal>(
    rt: &R,
    words: &[&str],
    part: &str,
) -> bool {
    let mut input = b"4g".as_slice();
    let mut printed = Page::new(4096);
    let mut told = Page::new(4096);
    let status = run(rt, words, &mut input, &mut printed, &mut told);
    status == 2 && printed.len == 0 && has(told.text(), part)
}

/// Runs words that are refused, and looks for a part of the text.
pub fn expect_reason<R: Files + Net + Clock + AllocGlobal + Abort>(
    rt: &R,
    words: &[&str],
    part: &str,
) {
    assert!(rt; are_refused_with(rt, words, part), "{part}");
}

/// Whether the words are answered with a text that has this part, and nothing is read or told.
fn are_told<R: Files + Net + Clock + AllocGlobal>(rt: &R, words: &[&str], part: &str) -> bool {
    let mut input = b"4g".as_slice();
    let mut printed = Page::new(4096);
    let mut told = Page::new(4096);
    let status = run(rt, words, &mut input, &mut printed, &mut told);
    let alone = status == 0 && told.len == 0 && input == b"4g".as_slice();
    alone && has(printed.text(), part)
}

/// Runs words that ask for a text, and looks for a part of it.
fn expect_text<R: Files + Net + Clock + AllocGlobal + Abort>(rt: &R, words: &[&str], part: &str) {
    assert!(rt; are_told(rt, words, part), "{part}");
}

#[test]
fn refuses_words(rt: HostRuntime) {
    for (kind, digits) in [("Boolean", "0"), ("Boolean", "0g"), ("Boolean", "0 0")] {
        expect(&rt, &["value", kind, digits], "4g", 2, "", "words\n");
    }
    for word in ["answer", "default", "value", ""] {
        expect_refusal(&rt, &[word]);
    }
    expect_refusal(&rt, &[]);
    expect_refusal(&rt, &["answer", "--other"]);
    expect_refusal(&rt, &["answer", "default", "default"]);
    expect_refusal(&rt, &["value", "Boolean"]);
    expect_refusal(&rt, &["value", "Boolean", "00", "00"]);
    expect_refusal(&rt, &["value", "Decimal", "00"]);
    expect_refusal(&rt, &["value", "boolean", "00"]);
    expect_refusal(&rt, &["value", "", "00"]);
    expect_refusal(&rt, &["help", "other"]);
}

#[test]
fn says_which_name_is_near(rt: HostRuntime) {
    expect_reason(&rt, &["value", "nodeid", "00"], "'NodeId'");
    expect_reason(&rt, &["value", "Decimal", "00"], "DiagnosticInfo");
    expect_reason(&rt, &["answe", "default"], "'answer'");
    expect_reason(&rt, &["value", "Boolean"], "uadisc value <TYPE> <HEX>");
}

#[test]
fn shows_help_and_the_version(rt: HostRuntime) {
    for word in ["--help", "-h", "help"] {
        expect_text(&rt, &[word], "Usage: uadisc <COMMAND>");
        expect_text(&rt, &[word], "  answer  ");
    }
    for word in ["--version", "-V"] {
        expect_text(&rt, &[word], "uadisc 0.1.0 (logic ");
    }
    expect_text(
        &rt,
        &["answer", "--help"],
        "Usage: uadisc answer [OPTIONS] <SETTINGS>",
    );
    expect_text(
        &rt,
        &["help", "value"],
        "Usage: uadisc value [OPTIONS] <TYPE> <HEX>",
    );
    expect_text(&rt, &["value", "-h"], "NodeId");
    expect_text(
        &rt,
        &["show", "--help"],
        "Usage: uadisc show [OPTIONS] <FILE>",
    );
    expect_text(
        &rt,
        &["check", "--help"],
        "Usage: uadisc check [OPTIONS] <SETTINGS> <ADDR> [URL]",
    );
    expect_text(
        &rt,
        &["serve", "--help"],
        "Usage: uadisc serve [OPTIONS] --connections <N> <SETTINGS> <ADDR>",
    );
    expect_text(
        &rt,
        &["help", "ask"],
        "Usage: uadisc ask [OPTIONS] <WHAT> <ADDR> [URL]",
    );
    expect_text(&rt, &["ask", "-h"], "find, endpoints");
    for command in ["answer", "serve", "ask"] {
        expect_text(&rt, &[command, "--help"], "      --reverse");
    }
    for command in ["value", "show", "ask"] {
        expect_text(&rt, &[command, "--help"], "      --json");
    }
}
