//! `show` of files of packets.

use crate::runs::fails_with;
use std::io;
use std::io::Read;
use std::net::Net;
use std::process::Abort;
use std::rt::{Clock, Files};
use ua_command::run::run;
use ua_test_runs::pages::Page;

/// A file of pcap with one packet: an error frame that an OPC UA client sends to port 4840, seven microseconds behind the
/// beginning of 1970 (draft-ietf-opsawg-pcap, 4 and 5; LINKTYPE_RAW; RFC 791, RFC 9293).
const FILE: &[u8] =
    b"\xD4\xC3\xB2\xA1\x02\0\x04\0\0\0\0\0\0\0\0\0\xFF\xFF\0\0\x65\0\0\0\0\0\0\0\x07\0\0\0\x38\0\0\0\x38\0\0\0\x45\0\0\x38\0\0\0\0\x40\x06\0\0\xC0\0\x02\x02\xC0\0\x02\x01\xC3\x50\x12\xE8\0\0\0\x01\0\0\0\x01\x50\x18\xFF\xFF\0\0\0\0ERRF\x10\0\0\0\0\0\x7E\x80\xFF\xFF\xFF\xFF";

const LINES: &str =
    "stream 0 1970-01-01T00:00:00.000007000Z 192.0.2.2:50000 > 192.0.2.1:4840\n0> 1970-01-01T00:00:00.000007000Z 0 ERR 16 status=807E0000 reason=null\n";

/// The same of that connection alone.
const ALONE: &str =
    "stream 0 1970-01-01T00:00:00.000007000Z 192.0.2.2:50000 > 192.0.2.1:4840\n> 0 ERR 16 status=807E0000 reason=null\n";

const OBJECTS: &str =
    "{\"Stream\":0,\"Moment\":\"1970-01-01T00:00:00.000007000Z\",\"Client\":\"192.0.2.2:50000\",\"Server\":\"192.0.2.1:4840\"}\n{\"Stream\":0,\"From\":\"Client\",\"Moment\":\"1970-01-01T00:00:00.000007000Z\",\"Offset\":0,\"MessageType\":\"ERR\",\"MessageSize\":16,\"Error\":{\"Code\":2155741184,\"Symbol\":\"BadTcpMessageTypeInvalid\"},\"Reason\":null}\n";

/// A reader of some bytes, a few at a time, which then ends or fails.
#[derive(Drop)]
struct Pieces<'a> {
    left: &'a [u8],
    most: usize,
    fails: bool,
}

impl Read for Pieces<'_> {
    fn read(&mut self, buf: &mut [u8]) -> io::Result<usize> {
        let n = self.left.len().min(self.most).min(buf.len());
        if n == 0 && self.fails {
            return Err(io::Error::from(io::ErrorKind::Other));
        }
        buf[..n].copy_from_slice(&self.left[..n]);
        let left = &self.left[n..];
        self.left = left;
        Ok(n)
    }
}

/// Whether the words show this of the bytes that come by so many at a time, with this status, and tell this.
fn shows<R: Files + Net + Clock + AllocGlobal>(
    rt: &R,
    words: &[&str],
    input: &mut Pieces,
    status: u8,
    output: &str,
    errors: &str,
) -> bool {
    let (mut printed, mut told) = (Page::new(4096), Page::new(4096));
    let came = run(rt, words, input, &mut printed, &mut told);
    came == status && printed.text() == output.as_bytes() && told.text() == errors.as_bytes()
}

fn expect_shown<R: Files + Net + Clock + AllocGlobal + Abort>(
    rt: &R,
    words: &[&str],
    file: &[u8],
    most: usize,
    status: u8,
    output: &str,
) {
    let mut input = Pieces {
        left: file,
        most,
        fails: false,
    };
    assert!(rt;
        shows(rt, words, &mut input, status, output, ""),
        "{output}"
    );
}

#[test]
fn a_file_of_packets_is_shown(rt: HostRuntime) {
    expect_shown(&rt, &["show", "-"], FILE, 4096, 0, LINES);
    expect_shown(&rt, &["show", "-"], FILE, 1, 0, LINES);
    expect_shown(&rt, &["show", "-", "--json"], FILE, 7, 0, OBJECTS);
    expect_shown(&rt, &["show", "-", "--port", "4841"], FILE, 4096, 0, "");
    expect_shown(&rt, &["show", "-", "--port", "50000"], FILE, 4096, 0, LINES);
    expect_shown(&rt, &["show", "-", "--stream", "1"], FILE, 4096, 0, "");
    expect_shown(&rt, &["show", "-", "--stream", "0"], FILE, 4096, 0, ALONE);
    expect_shown(&rt, &["show", "-", "--all"], FILE, 4096, 0, LINES);
    expect_shown(&rt, &["show", "--all", "-", "--json"], FILE, 7, 0, OBJECTS);
}

#[test]
fn a_file_of_packets_may_be_cut(rt: HostRuntime) {
    expect_shown(&rt, &["show", "-"], &FILE[..4], 4096, 1, "file 0 cut 4\n");
    expect_shown(
        &rt,
        &["show", "-"],
        &FILE[..60],
        4096,
        1,
        "file 24 cut 36\n",
    );
    expect_shown(&rt, &["show", "-"], &FILE[..3], 4096, 1, "0 rest 3\n");
}

#[test]
fn a_file_of_packets_may_fail(rt: HostRuntime) {
    let mut input = Pieces {
        left: FILE,
        most: 4096,
        fails: true,
    };
    assert!(rt; shows(&rt, &["show", "-"], &mut input, 3, LINES, "file\n"));
}

/// What stops it in its midst, with the second line for people: a read that fails, or a write.
fn is_said(rt: &HostRuntime, fails: bool, room: usize) -> bool {
    let mut input = Pieces {
        left: FILE,
        most: 4096,
        fails,
    };
    fails_with(rt, &["show", "-"], &mut input, room, SAID)
}

const SAID: &str =
    "file\n  standard input could not be read, or standard output could not be written\n";

#[test]
fn what_stops_it_in_its_midst_is_said_to_people(rt: HostRuntime) {
    assert!(rt; is_said(&rt, true, 4096));
    assert!(rt; is_said(&rt, false, 80));
}

/// Whether the lines that find so much room are a beginning of all, and that they found no more is told.
fn is_unprinted<R: Files + Net + Clock + AllocGlobal>(rt: &R, room: usize) -> bool {
    let mut input = FILE;
    let (mut printed, mut told) = (Page::new(room), Page::new(4096));
    let came = run(rt, &["show", "-"], &mut input, &mut printed, &mut told);
    came == 3 && printed.len == room && told.text() == b"file\n".as_slice()
}

#[test]
fn lines_of_packets_cannot_be_printed(rt: HostRuntime) {
    assert!(rt; is_unprinted(&rt, 0));
    assert!(rt; is_unprinted(&rt, 80));
}

/// Whether all lines are printed, or a beginning of them, and that memory is wanting is told.
fn shows_or_not<R: Files + Net + Clock + AllocGlobal>(rt: &R) -> bool {
    let mut input = FILE;
    let (mut printed, mut told) = (Page::new(4096), Page::new(4096));
    match run(rt, &["show", "-"], &mut input, &mut printed, &mut told) {
        0 => printed.text() == LINES.as_bytes() && told.text().is_empty(),
        4 => LINES.as_bytes().starts_with(printed.text()) && told.text() == b"memory\n".as_slice(),
        _ => false,
    }
}

#[test]
fn packets_are_shown_or_no_memory(rt: HostRuntime) {
    assert!(rt; shows_or_not(&rt));
}
