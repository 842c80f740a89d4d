//! `show --all`: all that servers answered, under the lines of their answers.

use crate::forms::{WHOLE_APPLICATION, WHOLE_ENDPOINT};
use crate::runs::expect;
use std::alloc::{AllocError, Global};
use std::fs;
use std::net::Net;
use std::rt::{Clock, Files};
use std::test::Fail;
use ua_command::run::run;
use ua_command::{Command, Form, command_of};
use ua_test_runs::pages::{Page, are_written, ends_so};
use ua_test_runs::vectors::{ABORT_TOO_LARGE, ENDPOINTS_RESPONSE, FAULT_RESPONSE, FIND_RESPONSE};
use ua_value::plumbing::let_go;

/// Answers of both kinds, and what comes in their place.
fn answers(alloc: Global) -> Result<Vec<u8>, AllocError> {
    let mut bytes = FIND_RESPONSE.to_vec(alloc)?;
    bytes.extend_from_slice(ENDPOINTS_RESPONSE)?;
    bytes.extend_from_slice(FAULT_RESPONSE)?;
    bytes.extend_from_slice(ABORT_TOO_LARGE)?;
    Ok(bytes)
}

/// The lines of each message, and of what a server said in it those of `ask --all`; behind the answers what comes in their
/// place.
const LINES: [(&str, &str); 3] = [
    (
        "0 MSG F 134 channel=1 token=1 sequence=2 request=2 body=110
  message request=2 type=i=425 size=110
",
        WHOLE_APPLICATION,
    ),
    (
        "134 MSG F 316 channel=1 token=1 sequence=2 request=2 body=292
  message request=2 type=i=431 size=292
",
        WHOLE_ENDPOINT,
    ),
    (
        "450 MSG F 52 channel=1 token=1 sequence=2 request=2 body=28
  message request=2 type=i=397 size=28
502 MSG A 32 channel=1 token=1 sequence=2 request=2 body=8
",
        "",
    ),
];

/// Adds the lines of a text, each behind four blanks.
fn add_under(text: &mut String, lines: &str) -> Result<(), AllocError> {
    for line in lines.lines() {
        text.push_str("    ")?;
        text.push_str(line)?;
        text.push_str("\n")?;
    }
    Ok(())
}

/// The lines of so many of these, `whole` with what the servers said.
fn lines(alloc: Global, count: usize, whole: bool) -> Result<String, AllocError> {
    let mut text = String::new(alloc);
    for (usual, under) in &LINES[..count.min(LINES.len())] {
        text.push_str(usual)?;
        if whole {
            add_under(&mut text, under)?;
        }
    }
    Ok(text)
}

/// Whether the bytes are shown so with these words, from standard input and from a file.
fn shows<R: Files + Net + Clock + AllocGlobal>(
    rt: &R,
    flags: &[&str],
    bytes: &[u8],
    output: &str,
) -> Result<bool, AllocError> {
    if fs::write(rt, "whole.bin", bytes).is_err() {
        return Ok(false);
    }
    let mut all = true;
    for file in ["-", "whole.bin"] {
        let mut words = Vec::new(rt.alloc());
        words.push("show")?;
        words.extend_from_slice(flags)?;
        words.push(file)?;
        let mut input = bytes;
        all = all && ends_so(rt, words.as_slice(), &mut input, 0, output, "");
    }
    Ok(all)
}

fn are_shown(rt: &HostRuntime) -> Result<bool, AllocError> {
    let bytes = answers(rt.alloc())?;
    let whole = lines(rt.alloc(), 3, true)?;
    let usual = lines(rt.alloc(), 3, false)?;
    Ok(
        shows(rt, &["--all"], bytes.as_slice(), whole.as_str())?
            && shows(rt, &[], bytes.as_slice(), usual.as_str())?,
    )
}

#[test]
fn answers_are_shown_whole(rt: HostRuntime) -> Result<(), Fail> {
    assert!(rt; are_shown(&rt)?);
    Ok(())
}

const OBJECTS: &str =
    "{\"Offset\":0,\"MessageType\":\"MSG\",\"MessageSize\":134,\"IsFinal\":\"F\",\"SecureChannelId\":1,\"TokenId\":1,\"SequenceNumber\":2,\"RequestId\":2,\"BodySize\":110}\n{\"RequestId\":2,\"TypeId\":\"i=425\",\"BodySize\":110}\n";

#[test]
fn json_goes_before_all(rt: HostRuntime) -> Result<(), Fail> {
    assert!(rt; shows(&rt, &["--all", "--json"], FIND_RESPONSE, OBJECTS)?);
    assert!(rt; shows(&rt, &["--json", "--all"], FIND_RESPONSE, OBJECTS)?);
    Ok(())
}

/// Whether the words show a capture in this form.
fn show_in(alloc: Global, words: &[&str], wanted: Form) -> bool {
    match command_of(alloc, words) {
        Ok(
            Command::Show {
                capture,
                form,
                stream: _,
                port: _,
            },
        ) => {
            let_go(capture);
            form == wanted
        }
        _ => false,
    }
}

#[test]
fn the_words_say_the_form(rt: HostRuntime) {
    let alloc = rt.alloc();
    assert!(rt; show_in(alloc, &["show", "a"], Form::Lines));
    assert!(rt; show_in(alloc, &["show", "a", "--all"], Form::Whole));
    assert!(rt; show_in(alloc, &["show", "--all", "a", "--port", "1"], Form::Whole));
    assert!(rt; show_in(alloc, &["show", "--all", "--json", "a"], Form::Json));
}

#[test]
fn what_is_no_frame_ends_the_lines(rt: HostRuntime) {
    expect(
        &rt,
        &["show", "-", "--all"],
        "GET / HTTP/1.1",
        1,
        "0 bad 807E0000\n",
        "",
    );
    expect(&rt, &["show", "-", "--all"], "HELF", 1, "0 rest 4\n", "");
    expect(&rt, &["show", "absent.bin", "--all"], "", 3, "", "file\n");
}

/// Whether the answers are shown, or memory refused with nothing printed.
fn shown_or_not(rt: &HostRuntime) -> bool {
    let Ok(wanted) = lines(rt.alloc(), 1, true) else {
        return true;
    };
    let mut input = FIND_RESPONSE;
    let (mut printed, mut told) = (Page::new(4096), Page::new(4096));
    match run(
        rt,
        &["show", "-", "--all"],
        &mut input,
        &mut printed,
        &mut told,
    ) {
        0 => printed.text() == wanted.as_bytes(),
        status => status == 4 && are_written(&printed, &told, "", "memory\n"),
    }
}

#[test]
fn answers_are_shown_or_no_memory(rt: HostRuntime) {
    assert!(rt; shown_or_not(&rt));
}
