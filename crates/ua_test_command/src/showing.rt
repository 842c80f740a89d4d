//! The lines of `show`.

use crate::runs::{expect, expect_failed_write};
use std::alloc::{AllocError, Global};
use std::fs;
use std::net::Net;
use std::process::Abort;
use std::rt::{Clock, Files};
use std::test::Fail;
use ua_command::run::run;
use ua_test_runs::pages::{Page, are_written, ends_so};

/// What a client sends that asks for servers: a Hello, an open request, FindServers and a close.
const CAPTURE: &[u8] =
    b"HELF8\0\0\0\0\0\0\0\xFF\xFF\0\0\xFF\xFF\0\0\0\0\0\0\0\0\0\0\x18\0\0\0opc.tcp://localhost:4840OPNF\x84\0\0\0\0\0\0\0/\0\0\0http://opcfoundation.org/UA/SecurityPolicy#None\xFF\xFF\xFF\xFF\xFF\xFF\xFF\xFF\x01\0\0\0\x01\0\0\0\x01\0\xBE\x01\0\0\0\0\0\0\0\0\0\0\x01\0\0\0\0\0\0\0\xFF\xFF\xFF\xFF\0\0\0\0\0\0\0\0\0\0\0\0\0\0\0\x01\0\0\0\xFF\xFF\xFF\xFF\0\0\0\0MSGF]\0\0\0\x01\0\0\0\x01\0\0\0\x02\0\0\0\x02\0\0\0\x01\0\xA6\x01\0\0\0\0\0\0\0\0\0\0\x02\0\0\0\0\0\0\0\xFF\xFF\xFF\xFF\0\0\0\0\0\0\0\x18\0\0\0opc.tcp://localhost:4840\xFF\xFF\xFF\xFF\xFF\xFF\xFF\xFFCLOF9\0\0\0\x01\0\0\0\x01\0\0\0\x03\0\0\0\x03\0\0\0\x01\0\xC4\x01\0\0\0\0\0\0\0\0\0\0\x03\0\0\0\0\0\0\0\xFF\xFF\xFF\xFF\0\0\0\0\0\0\0";

const HELLO_LINE: &str =
    "0 HEL 56 version=0 receive=65535 send=65535 message=0 chunks=0 url=\"opc.tcp://localhost:4840\"\n";

const OPEN_LINES: &str =
    "56 OPN 132 channel=0 policy=\"http://opcfoundation.org/UA/SecurityPolicy#None\" sequence=1 request=1 body=53\n  message request=1 type=i=446 size=53\n";

const FIND_LINES: &str =
    "188 MSG F 93 channel=1 token=1 sequence=2 request=2 body=69\n  message request=2 type=i=422 size=69\n";

const CLOSE_LINES: &str =
    "281 CLO 57 channel=1 token=1 sequence=3 request=3 body=33\n  message request=3 type=i=452 size=33\n";

const HTTP_BEHIND_HELLO: &[u8] =
    b"HELF8\0\0\0\0\0\0\0\xFF\xFF\0\0\xFF\xFF\0\0\0\0\0\0\0\0\0\0\x18\0\0\0opc.tcp://localhost:4840GET / HT";

/// A FindServers in three parts, the second under another request id, and an abort between two messages.
const PARTS: &[u8] =
    b"MSGC\x1B\0\0\0\x01\0\0\0\x01\0\0\0\x02\0\0\0\x02\0\0\0\x01\0\xA6MSGC=\0\0\0\x01\0\0\0\x01\0\0\0\x03\0\0\0\x07\0\0\0\x01\0\0\0\0\0\0\0\0\0\0\x02\0\0\0\0\0\0\0\xFF\xFF\xFF\xFF\0\0\0\0\0\0\0\x18\0\0\0opcMSGF5\0\0\0\x01\0\0\0\x01\0\0\0\x04\0\0\0\x02\0\0\0.tcp://localhost:4840\xFF\xFF\xFF\xFF\xFF\xFF\xFF\xFFMSGC\x19\0\0\0\x01\0\0\0\x01\0\0\0\x05\0\0\0\x03\0\0\0\x01MSGA \0\0\0\x01\0\0\0\x01\0\0\0\x06\0\0\0\x03\0\0\0\0\0\xB9\x80\xFF\xFF\xFF\xFFMSGF\x18\0\0\0\x01\0\0\0\x01\0\0\0\x07\0\0\0\x04\0\0\0MSGF\"\0\0\0\x01\0\0\0\x01\0\0\0\x08\0\0\0\x05\0\0\0\x03\x01\0\x02\0\0\0Hi\xAA";

const PARTS_LINES: &str =
    "0 MSG C 27 channel=1 token=1 sequence=2 request=2 body=3\n27 MSG C 61 channel=1 token=1 sequence=3 request=7 body=37\n88 MSG F 53 channel=1 token=1 sequence=4 request=2 body=29\n  message request=2 type=i=422 size=69\n141 MSG C 25 channel=1 token=1 sequence=5 request=3 body=1\n166 MSG A 32 channel=1 token=1 sequence=6 request=3 body=8\n198 MSG F 24 channel=1 token=1 sequence=7 request=4 body=0\n  message request=4 type=? size=0\n222 MSG F 34 channel=1 token=1 sequence=8 request=5 body=10\n  message request=5 type=ns=1;s=\"Hi\" size=10\n";

/// All lines of the capture.
fn capture_lines(alloc: Global, last: &str) -> Result<String, AllocError> {
    format!(in alloc; "{}{}{}{}", HELLO_LINE, OPEN_LINES, FIND_LINES, last)
}

/// Shows the bytes from standard input and from a file.
fn shows<R: Files + Net + Clock + AllocGlobal + Abort>(
    rt: &R,
    bytes: &[u8],
    status: u8,
    output: &str,
) {
    fs::write(rt, "shown.bin", bytes).expect(rt, "a file is written");
    for file in ["-", "shown.bin"] {
        let mut input = bytes;
        assert!(rt;
            ends_so(rt, &["show", file], &mut input, status, output, ""),
            "{output}"
        );
    }
}

#[test]
fn shows_a_capture(rt: HostRuntime) -> Result<(), Fail> {
    let lines = capture_lines(rt.alloc(), CLOSE_LINES)?;
    shows(&rt, CAPTURE, 0, lines.as_str());
    Ok(())
}

#[test]
fn shows_a_capture_without_its_last_byte(rt: HostRuntime) -> Result<(), Fail> {
    let lines = capture_lines(rt.alloc(), "281 rest 56\n")?;
    let all = CAPTURE;
    assert!(rt; all.len() == 338);
    shows(&rt, &all[..337], 1, lines.as_str());
    Ok(())
}

#[test]
fn shows_bytes_that_are_no_frame(rt: HostRuntime) -> Result<(), Fail> {
    let lines = format!(in rt.alloc(); "{}56 bad 807E0000\n", HELLO_LINE)?;
    shows(&rt, HTTP_BEHIND_HELLO, 1, lines.as_str());
    Ok(())
}

#[test]
fn shows_each_type(rt: HostRuntime) {
    for (bytes, status, output) in [
        (b"".as_slice(), 0, ""),
        (b"HELF8\0\0".as_slice(), 1, "0 rest 7\n"),
        (
            b"ACKF\x1C\0\0\0\0\0\0\0\xFF\xFF\0\0\xFF\xFF\0\0\0\0\x10\0@\0\0\0".as_slice(),
            0,
            "0 ACK 28 version=0 receive=65535 send=65535 message=1048576 chunks=64\n",
        ),
        (
            b"ERRF\x10\0\0\0\0\0\x7E\x80\xFF\xFF\xFF\xFF".as_slice(),
            0,
            "0 ERR 16 status=807E0000 reason=null\n",
        ),
        (
            b"ERRF\x13\0\0\0\0\0\x7E\x80\x03\0\0\0\"a\n".as_slice(),
            0,
            "0 ERR 19 status=807E0000 reason=\"\\x22a\\x0a\"\n",
        ),
        (
            b"MSGA \0\0\0\x01\0\0\0\x01\0\0\0\x02\0\0\0\x02\0\0\0\0\0\xB9\x80\xFF\xFF\xFF\xFF".as_slice(),
            0,
            "0 MSG A 32 channel=1 token=1 sequence=2 request=2 body=8\n",
        ),
        (
            b"RHEF-\0\0\0\x05\0\0\0urn:a\x18\0\0\0opc.tcp://localhost:4840".as_slice(),
            0,
            "0 RHE 45 server=\"urn:a\" url=\"opc.tcp://localhost:4840\"\n",
        ),
        (
            b"RHEF\x11\0\0\0\xFF\xFF\xFF\xFF\x01\0\0\0\"".as_slice(),
            0,
            "0 RHE 17 server=null url=\"\\x22\"\n",
        ),
        (
            b"RHEF\x11\0\0\0\x01\0\0\0a\xFF\xFF\xFF\xFFHELF".as_slice(),
            1,
            "0 RHE 17 server=\"a\" url=null\n17 rest 4\n",
        ),
        (
            b"RHEF\x0C\0\0\0\xFF\xFF\xFF\xFF".as_slice(),
            1,
            "0 bad 80070000\n",
        ),
        (
            b"RHEF\x11\0\0\0\xFF\xFF\xFF\xFF\xFF\xFF\xFF\xFF\0".as_slice(),
            1,
            "0 bad 80070000\n",
        ),
        (
            b"ERRF\x11\0\0\0\0\0\x7E\x80\xFF\xFF\xFF\xFF\0".as_slice(),
            1,
            "0 bad 80070000\n",
        ),
        (b"MSGX\x18\0\0\0".as_slice(), 1, "0 bad 807E0000\n"),
        (b"MSGF\x07\0\0\0".as_slice(), 1, "0 bad 80070000\n"),
        (b"MSGF\0\0\x10\0".as_slice(), 1, "0 rest 8\n"),
        (b"MSGF\x01\0\x10\0".as_slice(), 1, "0 bad 80800000\n"),
    ] {
        shows(&rt, bytes, status, output);
    }
}

#[test]
fn shows_messages_of_several_parts(rt: HostRuntime) {
    shows(&rt, PARTS, 0, PARTS_LINES);
}

#[test]
fn tells_captures_that_cannot_be_read(rt: HostRuntime) {
    for path in ["absent.bin", "", "."] {
        expect(&rt, &["show", path], "", 3, "", "file\n");
    }
    expect_failed_write(&rt, &["show", "-"], 3);
}

/// Whether the capture is shown, or memory runs out with nothing printed.
fn shows_or_no_memory(rt: &HostRuntime) -> bool {
    let mut input = HTTP_BEHIND_HELLO;
    let mut printed = Page::new(4096);
    let mut told = Page::new(4096);
    match run(rt, &["show", "-"], &mut input, &mut printed, &mut told) {
        1 => printed.len > 90,
        status => status == 4 && are_written(&printed, &told, "", "memory\n"),
    }
}

/// Shows the capture, or stops for want of memory with nothing printed.
#[test]
fn shows_a_capture_or_no_memory(rt: HostRuntime) {
    assert!(rt; shows_or_no_memory(&rt));
}
