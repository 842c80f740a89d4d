//! Runs of the command over readers of memory, and what is expected of them.

use crate::answering::HELLO;
use std::io;
use std::io::Read;
use std::net::Net;
use std::process::Abort;
use std::rt::{Clock, Files};
use ua_command::run::{run, run_and_say};
use ua_command::{Why, say_why};
use ua_test_runs::pages::{Page, ends_so};

/// A reader that gives number signs one at a time, so many, and then ends or fails.
#[derive(Drop)]
pub struct Signs {
    pub left: u32,
    pub fails: bool,
}

impl Read for Signs {
    fn read(&mut self, buf: &mut [u8]) -> io::Result<usize> {
        if self.left == 0 {
            return if self.fails {
                Err(io::Error::from(io::ErrorKind::Other))
            } else {
                Ok(0)
            };
        }
        let Some(first) = buf.first_mut() else {
            return Ok(0);
        };
        *first = b'#';
        self.left -= 1;
        Ok(1)
    }
}

/// Runs the words on an input, and compares what is printed and the exit status.
pub fn expect<R: Files + Net + Clock + AllocGlobal + Abort>(
    rt: &R,
    words: &[&str],
    input: &str,
    status: u8,
    output: &str,
    errors: &str,
) {
    let mut input = input.as_bytes();
    assert!(rt;
        ends_so(rt, words, &mut input, status, output, errors),
        "{output}{errors}"
    );
}

/// Whether words whose output has not enough room fill it, and end as the file does.
fn fills<R: Files + Net + Clock + AllocGlobal>(rt: &R, words: &[&str], room: usize) -> bool {
    let mut input = HELLO.as_bytes();
    let mut printed = Page::new(room);
    let mut told = Page::new(4096);
    let came = run(rt, words, &mut input, &mut printed, &mut told);
    came == 3 && printed.len == room && told.text() == b"file\n".as_slice()
}

/// Whether words whose output finds so much room end as a failed file or link does, and tell this, with the second line
/// for people.
pub fn fails_with<I: Read>(
    rt: &HostRuntime,
    words: &[&str],
    input: &mut I,
    room: usize,
    said: &str,
) -> bool {
    let (mut printed, mut told) = (Page::new(room), Page::new(4096));
    let mut why = Why::Unknown;
    let came = run_and_say(rt, words, input, &mut printed, &mut told, &mut why);
    say_why(rt, words, &why, &mut told);
    came == 3 && told.text() == said.as_bytes()
}

/// Runs words whose output has not enough room.
pub fn expect_failed_write<R: Files + Net + Clock + AllocGlobal + Abort>(
    rt: &R,
    words: &[&str],
    room: usize,
) {
    assert!(rt; fills(rt, words, room), "{room}");
}
