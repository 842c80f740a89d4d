//! Reads and writes that fail.

use crate::answering::{HELLO, NOTHING};
use crate::runs::{Signs, expect_failed_write};
use std::io;
use std::io::Write;
use std::net::Net;
use std::rt::{Clock, Files};
use ua_command::run::run;
use ua_test_runs::pages::{Page, ends_so};

#[test]
fn tells_failed_reads_and_writes(rt: HostRuntime) {
    let answer = ["answer", "default"];
    for (left, fails, status) in [
        (0, true, 3),
        (5000, true, 3),
        (1_048_575, false, 0),
        (1_048_576, false, 3),
        (u32::MAX, false, 3),
    ] {
        let mut input = Signs { left, fails };
        let (output, errors) = if status == 0 {
            (NOTHING, "")
        } else {
            ("", "file\n")
        };
        assert!(rt;
            ends_so(&rt, &answer, &mut input, status, output, errors),
            "{left}"
        );
    }
    for room in [0, 1, 16] {
        expect_failed_write(&rt, &answer, room);
        expect_failed_write(&rt, &["value", "Boolean", "FF"], room);
        expect_failed_write(&rt, &["value", "Boolean", "FF", "--show"], room);
        expect_failed_write(&rt, &["value", "Boolean", "FF", "--json"], room);
        expect_failed_write(&rt, &["--version"], room);
    }
    assert!(rt; is_untold(&rt, &["answer", "default"], 1));
    assert!(rt; is_untold(&rt, &["value", "Boolean", "0"], 2));
    assert!(rt; is_untold(&rt, &["answer", "absent.toml"], 3));
}

/// Whether a command ends with the status where its fault can't be told whole.
fn is_untold<R: Files + Net + Clock + AllocGlobal>(rt: &R, words: &[&str], status: u8) -> bool {
    let mut input = b"4g".as_slice();
    let mut printed = Page::new(0);
    let mut told = Page::new(3);
    let came = run(rt, words, &mut input, &mut printed, &mut told);
    came == status && told.len == 3
}

/// A writer that takes all, of which no flush is done.
#[derive(Drop)]
struct Unflushed {
    written: usize,
}

impl Write for Unflushed {
    fn write(&mut self, buf: &[u8]) -> io::Result<usize> {
        self.written = self.written.saturating_add(buf.len());
        Ok(buf.len())
    }

    fn flush(&mut self) -> io::Result<()> {
        Err(io::Error::from(io::ErrorKind::Other))
    }
}

/// Whether a command whose text is written, and whose flush fails, ends as it does where a write fails.
fn is_stopped_unflushed<R: Files + Net + Clock + AllocGlobal>(rt: &R, words: &[&str]) -> bool {
    let mut input = HELLO.as_bytes();
    let mut printed = Unflushed { written: 0 };
    let mut told = Page::new(4096);
    let status = run(rt, words, &mut input, &mut printed, &mut told);
    status == 3 && printed.written > 0 && told.text() == b"file\n".as_slice()
}

#[test]
fn tells_failed_flushes(rt: HostRuntime) {
    assert!(rt; is_stopped_unflushed(&rt, &["answer", "default"]));
    assert!(rt; is_stopped_unflushed(&rt, &["value", "Boolean", "FF"]));
    assert!(rt; is_stopped_unflushed(&rt, &["value", "Boolean", ""]));
    assert!(rt; is_stopped_unflushed(&rt, &["value", "Boolean", "FF", "--show"]));
    assert!(rt; is_stopped_unflushed(&rt, &["value", "Boolean", "", "--json"]));
    assert!(rt; is_stopped_unflushed(&rt, &["show", "-"]));
    assert!(rt; is_stopped_unflushed(&rt, &["show", "-", "--json"]));
    assert!(rt; is_stopped_unflushed(&rt, &["--help"]));
    assert!(rt; is_stopped_unflushed(&rt, &["--version"]));
}
