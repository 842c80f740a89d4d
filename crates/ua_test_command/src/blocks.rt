//! Replies of many bytes: their digits, byte for byte, in one write with a flush behind it, and what fails there.

use std::alloc::{AllocError, Global};
use std::io::Write;
use std::net::Net;
use std::rt::{Clock, Files};
use std::{fs, io};
use ua_command::run::run;
use ua_conn::answer_all;
use ua_disco::Settings;
use ua_test_runs::pages::Page;
use ua_test_runs::vectors::CALLS;

/// What stands behind the digits.
const LAST: &[u8] = b"\nend closed\n";

/// Settings of so many URLs of 4000 bytes and one of another length, which are in the answer to a request for servers.
fn wide_settings(alloc: Global, urls: u32, last: u32) -> Result<Vec<u8>, AllocError> {
    let mut text = Vec::new(alloc);
    text.extend_from_slice(
        b"version = 1\n[application]\nuri = \"urn:w\"\nnames = [{ text = \"W\" }]\ndiscovery_urls = [",
    )?;
    for _ in 0..urls {
        text.extend_from_slice(b"\"")?;
        text.extend_from_slice(&[b'w'; 4000])?;
        text.extend_from_slice(b"\",")?;
    }
    text.extend_from_slice(b"\"")?;
    for _ in 0..last {
        text.extend_from_slice(b"w")?;
    }
    text.extend_from_slice(b"\"]\n")?;
    Ok(text)
}

/// The lower four bits as a digit.
fn digit(n: u8) -> u8 {
    let n = n % 16;
    if n < 10 { b'0' + n } else { b'a' + (n - 10) }
}

/// A line of digits.
pub fn in_hex(alloc: Global, bytes: &[u8]) -> Result<Vec<u8>, AllocError> {
    let mut text = Vec::new(alloc);
    for byte in bytes {
        text.extend_from_slice(&[digit(*byte >> 4), digit(*byte)])?;
    }
    Ok(text)
}

/// What fails of a writer.
#[derive(Clone, Copy, PartialEq, Eq)]
pub enum Fails {
    Nothing,
    Write,
    Flush,
}

/// A writer that compares what comes with the digits of a reply and the last line, and counts what is asked of it.
#[derive(Drop)]
pub struct Compared<'a> {
    reply: &'a [u8],
    place: usize,
    differs: bool,
    writes: u32,
    flushes: u32,
    flushed: usize,
    fails: Fails,
}

impl<'a> Compared<'a> {
    /// What stands at the place.
    fn next(&self) -> Option<u8> {
        match self.reply.get(self.place / 2) {
            Some(byte) if self.place % 2 == 0 => Some(digit(*byte >> 4)),
            Some(byte) => Some(digit(*byte)),
            None => {
                let behind = self
                    .place
                    .saturating_sub(self.reply.len().saturating_mul(2));
                LAST.get(behind).copied()
            }
        }
    }
}

impl<'a> Write for Compared<'a> {
    fn write(&mut self, buf: &[u8]) -> io::Result<usize> {
        self.writes = self.writes.saturating_add(1);
        if self.fails == Fails::Write {
            return Err(io::Error::from(io::ErrorKind::Other));
        }
        for byte in buf {
            self.differs = self.differs || self.next() != Some(*byte);
            self.place = self.place.saturating_add(1);
        }
        Ok(buf.len())
    }

    fn flush(&mut self) -> io::Result<()> {
        self.flushes = self.flushes.saturating_add(1);
        if self.fails == Fails::Flush {
            return Err(io::Error::from(io::ErrorKind::Other));
        }
        self.flushed = self.place;
        Ok(())
    }
}

/// Whether a run ended so: a reply of so many bytes is printed in one write, and then flushed, up to what fails.
fn is_printed_at_once(printed: &Compared, told: &Page, status: u8) -> bool {
    let whole = printed
        .reply
        .len()
        .saturating_mul(2)
        .saturating_add(LAST.len());
    let ends = match printed.fails {
        Fails::Nothing => {
            status == 0 && told.text().is_empty() && printed.flushed == whole && whole > 0
        }
        _ => status == 3 && told.text() == b"file\n".as_slice() && printed.flushed == 0,
    };
    let comes = match printed.fails {
        Fails::Write => printed.place == 0 && printed.flushes == 0,
        _ => printed.place == whole && printed.flushes == 1,
    };
    ends && comes && !printed.differs && printed.writes == 1
}

/// Whether the command prints the digits of this reply so.
pub fn is_printed<R: Files + Net + Clock + AllocGlobal>(
    rt: &R,
    words: &[&str],
    input: &[u8],
    reply: &[u8],
    fails: Fails,
) -> bool {
    let mut input = input;
    let mut printed = Compared {
        reply,
        place: 0,
        differs: false,
        writes: 0,
        flushes: 0,
        flushed: 0,
        fails,
    };
    let mut told = Page::new(4096);
    let status = run(rt, words, &mut input, &mut printed, &mut told);
    is_printed_at_once(&printed, &told, status)
}

/// What the calls of a client are answered by the settings of a text.
pub fn reply_by(alloc: Global, text: &[u8]) -> Option<Vec<u8>> {
    let Ok(settings) = Settings::from_toml(alloc, text) else {
        return None;
    };
    match answer_all(alloc, &settings, 1, &[(0, CALLS)]) {
        Ok(outcome) => Some(outcome.reply),
        Err(_) => None,
    }
}

/// Whether the calls are answered by the settings of a text with so many bytes, and printed as is said above.
fn is_answered<R: Files + Net + Clock + AllocGlobal>(
    rt: &R,
    text: &[u8],
    len: usize,
    fails: Fails,
) -> bool {
    match (reply_by(rt.alloc(), text), in_hex(rt.alloc(), CALLS)) {
        (Some(reply), Ok(input)) => {
            reply.len() == len
                && fs::write(rt, "wide.toml", text).is_ok()
                && is_printed(
                    rt,
                    &["answer", "wide.toml"],
                    input.as_slice(),
                    reply.as_slice(),
                    fails,
                )
        }
        _ => false,
    }
}

/// The same by settings of so many URLs of 4000 bytes and one of another length.
fn answers<R: Files + Net + Clock + AllocGlobal>(
    rt: &R,
    urls: u32,
    last: u32,
    len: usize,
    fails: Fails,
) -> bool {
    match wide_settings(rt.alloc(), urls, last) {
        Ok(text) => is_answered(rt, text.as_slice(), len, fails),
        Err(_) => false,
    }
}

#[test]
fn long_replies_are_printed_by_one_write(rt: HostRuntime) {
    assert!(rt; answers(&rt, 8, 477, 32_767, Fails::Nothing));
    assert!(rt; answers(&rt, 8, 478, 32_768, Fails::Nothing));
    assert!(rt; answers(&rt, 8, 479, 32_769, Fails::Nothing));
    assert!(rt; answers(&rt, 24, 1927, 98_305, Fails::Nothing));
    assert!(rt; answers(&rt, 24, 1927, 98_305, Fails::Write));
    assert!(rt; answers(&rt, 24, 1927, 98_305, Fails::Flush));
}

/// The reply of 98305 bytes and the last line, as they are to stand in memory.
fn whole_answer(alloc: Global, text: &[u8]) -> Option<Vec<u8>> {
    let Some(reply) = reply_by(alloc, text) else {
        return None;
    };
    let Ok(mut whole) = in_hex(alloc, reply.as_slice()) else {
        return None;
    };
    match whole.extend_from_slice(LAST) {
        Ok(()) => Some(whole),
        Err(_) => None,
    }
}

/// Whether the answer stands in memory whole, or nothing of it does.
fn stands_whole_or_not_at_all(rt: &HostRuntime, input: &[u8], whole: &[u8]) -> bool {
    let mut input = input;
    let mut printed = Vec::new(rt.alloc());
    let mut told = Page::new(4096);
    let words = ["answer", "memory.toml"];
    let status = run(rt, &words, &mut input, &mut printed, &mut told);
    let printed = printed.as_slice();
    match status {
        0 => printed == whole,
        3 => printed.is_empty() && told.text() == b"file\n".as_slice(),
        _ => status == 4 && printed.is_empty() && told.text() == b"memory\n".as_slice(),
    }
}

/// The same by settings of many URLs; where memory runs out for what the test makes itself, there is nothing to compare.
fn long_answer_stands_whole_or_not_at_all(rt: &HostRuntime) -> bool {
    let Ok(text) = wide_settings(rt.alloc(), 24, 1927) else {
        return true;
    };
    let Ok(input) = in_hex(rt.alloc(), CALLS) else {
        return true;
    };
    let _ = fs::write(rt, "memory.toml", text.as_slice());
    match whole_answer(rt.alloc(), text.as_slice()) {
        Some(whole) => stands_whole_or_not_at_all(rt, input.as_slice(), whole.as_slice()),
        None => true,
    }
}

#[test]
fn prints_a_long_reply_into_memory_or_no_memory(rt: HostRuntime) {
    assert!(rt; long_answer_stands_whole_or_not_at_all(&rt));
}

/// Whether digits are appended to a text that has no room for them.
fn appends_digits(alloc: Global) -> bool {
    let mut text = Vec::new(alloc);
    ua_hex::encode_onto(&mut text, &[0x00, 0x7f, 0xa5]).is_ok()
        && ua_hex::encode_onto(&mut text, &[0xff]).is_ok()
        && text.as_slice() == b"007fa5ff".as_slice()
}

#[test]
fn digits_are_appended_where_there_is_no_room_yet(rt: HostRuntime) {
    assert!(rt; appends_digits(rt.alloc()));
}
