//! All that servers answered, under the lines of their messages, of files of packets and of raw bytes.

use crate::making::{HELLO, back, file_of, out, put, put_32};
use crate::showing::{ALL, JSON, shown_by, shows};
use std::alloc::{AllocError, Global};
use std::process::Abort;
use std::test::Fail;
use ua_trace::{Choice, whole_lines_of};

/// The same connections as `ALL`, with all that servers answered.
pub(crate) const WHOLE: Choice = Choice { all: true, ..ALL };

/// The body of an answer to FindServers: one application.
pub(crate) const FOUND: &[u8] =
    b"\x01\0\xA9\x01\0\0\0\0\0\0\0\0\x02\0\0\0\0\0\0\0\0\xFF\xFF\xFF\xFF\0\0\0\x01\0\0\0\x05\0\0\0urn:a\x05\0\0\0urn:p\x03\x02\0\0\0en\x05\0\0\0Press\0\0\0\0\xFF\xFF\xFF\xFF\xFF\xFF\xFF\xFF\x01\0\0\0\x18\0\0\0opc.tcp://localhost:4840";

/// The same with a byte more, which is no such body.
const LONGER: &[u8] =
    b"\x01\0\xA9\x01\0\0\0\0\0\0\0\0\x02\0\0\0\0\0\0\0\0\xFF\xFF\xFF\xFF\0\0\0\x01\0\0\0\x05\0\0\0urn:a\x05\0\0\0urn:p\x03\x02\0\0\0en\x05\0\0\0Press\0\0\0\0\xFF\xFF\xFF\xFF\xFF\xFF\xFF\xFF\x01\0\0\0\x18\0\0\0opc.tcp://localhost:4840\0";

/// The body of an answer to GetEndpoints: one endpoint, with a certificate of two bytes, of which little else is said.
const ENDPOINTS: &[u8] =
    b"\x01\0\xAF\x01\0\0\0\0\0\0\0\0\x02\0\0\0\0\0\0\0\0\xFF\xFF\xFF\xFF\0\0\0\x01\0\0\0\x05\0\0\0opc:a\x05\0\0\0urn:a\xFF\xFF\xFF\xFF\0\0\0\0\0\xFF\xFF\xFF\xFF\xFF\xFF\xFF\xFF\xFF\xFF\xFF\xFF\x02\0\0\0Hi\x01\0\0\0\xFF\xFF\xFF\xFF\0\0\0\0\xFF\xFF\xFF\xFF\x07";

/// That a server offers no such service.
const FAULT: &[u8] =
    b"\x01\0\x8D\x01\0\0\0\0\0\0\0\0\x02\0\0\0\0\0\x0B\x80\0\xFF\xFF\xFF\xFF\0\0\0";

/// Puts a MSG with this flag and this body behind others.
fn put_part(frames: &mut Vec<u8>, flag: u8, body: &[u8]) -> Result<(), AllocError> {
    put(frames, b"MSG")?;
    put(frames, &[flag])?;
    put_32(frames, body.len().min(1000) as u32 + 24)?;
    put(frames, b"\x01\0\0\0\x01\0\0\0\x02\0\0\0\x02\0\0\0")?;
    put(frames, body)
}

/// A message whose first part has so many bytes, its second none, and its third the rest; of one part where the first has
/// none.
pub(crate) fn message_of(alloc: Global, body: &[u8], first: usize) -> Result<Vec<u8>, AllocError> {
    let mut frames = Vec::new(alloc);
    let cut = first.min(body.len());
    if cut > 0 {
        put_part(&mut frames, b'C', &body[..cut])?;
        put_part(&mut frames, b'C', b"")?;
    }
    put_part(&mut frames, b'F', &body[cut..])?;
    Ok(frames)
}

const FOUND_LINES: &str = "0 MSG F 134 channel=1 token=1 sequence=2 request=2 body=110
  message request=2 type=i=425 size=110
    application \"urn:a\" type=0 name=\"Press\"
      product \"urn:p\"
      locale \"en\"
      type Server
      gateway null
      profile null
      url \"opc.tcp://localhost:4840\"
";

const PARTS_LINES: &str = "0 MSG C 54 channel=1 token=1 sequence=2 request=2 body=30
54 MSG C 24 channel=1 token=1 sequence=2 request=2 body=0
78 MSG F 104 channel=1 token=1 sequence=2 request=2 body=80
  message request=2 type=i=425 size=110
    application \"urn:a\" type=0 name=\"Press\"
      product \"urn:p\"
      locale \"en\"
      type Server
      gateway null
      profile null
      url \"opc.tcp://localhost:4840\"
";

const ENDPOINTS_LINES: &str = "0 MSG F 118 channel=1 token=1 sequence=2 request=2 body=94
  message request=2 type=i=431 size=94
    endpoint \"opc:a\" mode=1 policy=null transport=null level=7
      mode None
      certificate size=2 sha1=94dd9e08c129c785f7f256e82fbe0a30e6d1ae40
      server \"urn:a\" type=0 name=null
        product null
        locale null
        type Server
        gateway null
        profile null
";

const LONGER_LINES: &str = "0 MSG F 135 channel=1 token=1 sequence=2 request=2 body=111
  message request=2 type=i=425 size=111
";

const FAULT_LINES: &str = "0 MSG F 52 channel=1 token=1 sequence=2 request=2 body=28
  message request=2 type=i=397 size=28
";

/// Adds lines of the server's way, where `whole` with those of answers, as they stand in a file of packets.
fn add_lines(text: &mut String, lines: &str, whole: bool) -> Result<(), AllocError> {
    for line in lines.lines() {
        let is_under = line.starts_with("    ");
        if !is_under {
            text.push_str("0< 2026-11-29T01:02:05.000000000Z ")?;
        }
        if whole || !is_under {
            text.push_str(line)?;
            text.push_str("\n")?;
        }
    }
    Ok(())
}

const FIRST: &str = "stream 0 2026-11-29T01:02:03.000000000Z 192.0.2.1:50000 > 192.0.2.2:4840
0> 2026-11-29T01:02:03.000000000Z 0 HEL 32 version=0 receive=65535 send=65535 message=0 chunks=0 url=null
";

/// Whether a file whose server sends these frames in two segments has these lines, wherever it is cut.
fn is_traced(
    alloc: Global,
    choice: Choice,
    frames: &[u8],
    lines: &str,
) -> Result<bool, AllocError> {
    let cut = frames.len().min(50);
    let segments = [
        out(0, 100, 24, HELLO),
        back(2, 200, 24, &frames[..cut]),
        back(2, 250, 24, &frames[cut..]),
    ];
    let file = file_of(alloc, &segments)?;
    let mut wanted = String::from_str(alloc, FIRST)?;
    add_lines(&mut wanted, lines, choice.all)?;
    Ok(shows(alloc, choice, file.as_slice(), wanted.as_str(), 0))
}

/// Whether these bytes are shown so as raw bytes, with this status.
fn is_whole(alloc: Global, bytes: &[u8], wanted: &str, status: u8) -> bool {
    match whole_lines_of(alloc, bytes) {
        Ok((text, came)) => came == status && text.as_bytes() == wanted.as_bytes(),
        Err(_) => false,
    }
}

/// Whether a message with this body has these lines, as raw bytes and in a file of packets, and there without the lines
/// of answers where these are not asked for.
fn is_shown(alloc: Global, body: &[u8], first: usize, lines: &str) -> Result<bool, AllocError> {
    let frames = message_of(alloc, body, first)?;
    Ok(
        is_whole(alloc, frames.as_slice(), lines, 0)
            && is_traced(alloc, WHOLE, frames.as_slice(), lines)?
            && is_traced(alloc, ALL, frames.as_slice(), lines)?,
    )
}

/// Asserts it.
fn expect_shown<R: AllocGlobal + Abort>(
    rt: &R,
    body: &[u8],
    first: usize,
    lines: &str,
) -> Result<(), AllocError> {
    let is = is_shown(rt.alloc(), body, first, lines)?;
    assert!(rt; is, "{lines}");
    Ok(())
}

#[test]
fn answers_are_shown_whole(rt: HostRuntime) -> Result<(), Fail> {
    expect_shown(&rt, FOUND, 0, FOUND_LINES)?;
    expect_shown(&rt, FOUND, 30, PARTS_LINES)?;
    expect_shown(&rt, ENDPOINTS, 0, ENDPOINTS_LINES)?;
    Ok(())
}

#[test]
fn what_is_no_answer_is_shown_as_ever(rt: HostRuntime) -> Result<(), Fail> {
    expect_shown(&rt, LONGER, 0, LONGER_LINES)?;
    expect_shown(&rt, FAULT, 0, FAULT_LINES)?;
    Ok(())
}

/// What is left of raw bytes is told behind the answers.
fn is_cut(alloc: Global) -> Result<bool, AllocError> {
    let mut frames = message_of(alloc, ENDPOINTS, 0)?;
    put(&mut frames, HELLO)?;
    put(&mut frames, b"HEL")?;
    let lines = format!(in alloc;
        "{ENDPOINTS_LINES}118 HEL 32 version=0 receive=65535 send=65535 message=0 chunks=0 url=null\n150 rest 3\n"
    )?;
    Ok(is_whole(alloc, frames.as_slice(), lines.as_str(), 1))
}

#[test]
fn raw_bytes_may_be_cut_behind_an_answer(rt: HostRuntime) -> Result<(), Fail> {
    assert!(rt; is_cut(rt.alloc())?);
    assert!(rt; is_whole(rt.alloc(), b"", "", 0));
    Ok(())
}

/// Whether among objects no lines of an answer stand.
fn are_objects(alloc: Global) -> Result<bool, AllocError> {
    let frames = message_of(alloc, FOUND, 0)?;
    let segments = [back(0, 200, 24, frames.as_slice())];
    let file = file_of(alloc, &segments)?;
    let (mut usual, mut whole) = (String::new(alloc), String::new(alloc));
    let came = shown_by(alloc, JSON, file.as_slice(), 97, &mut usual);
    let both = shown_by(
        alloc,
        Choice { all: true, ..JSON },
        file.as_slice(),
        97,
        &mut whole,
    );
    Ok(came == Some(0) && both == came && usual.as_str() == whole.as_str())
}

#[test]
fn no_answer_stands_among_objects(rt: HostRuntime) -> Result<(), Fail> {
    assert!(rt; are_objects(rt.alloc())?);
    Ok(())
}

/// Whether the lines of an answer are had, or memory refused.
fn whole_or_no_memory(alloc: Global) -> bool {
    let Ok(frames) = message_of(alloc, FOUND, 30) else {
        return true;
    };
    match whole_lines_of(alloc, frames.as_slice()) {
        Ok((text, status)) => status == 0 && text.as_bytes() == PARTS_LINES.as_bytes(),
        Err(_) => true,
    }
}

#[test]
fn answers_are_shown_whole_or_no_memory(rt: HostRuntime) {
    assert!(rt; whole_or_no_memory(rt.alloc()));
}

/// The same of a file of packets.
fn traced_or_no_memory(alloc: Global) -> bool {
    let Ok(frames) = message_of(alloc, ENDPOINTS, 0) else {
        return true;
    };
    let Ok(file) = file_of(alloc, &[back(0, 200, 24, frames.as_slice())]) else {
        return true;
    };
    let mut text = String::new(alloc);
    match shown_by(alloc, WHOLE, file.as_slice(), 97, &mut text) {
        Some(status) => status == 0 && text.as_str().ends_with("        profile null\n"),
        None => true,
    }
}

#[test]
fn packets_are_shown_whole_or_no_memory(rt: HostRuntime) {
    assert!(rt; traced_or_no_memory(rt.alloc()));
}
