//! Connections of other ports, which their first bytes alone tell: behind how many bytes the opener may come, which is the
//! same in each form.

use crate::answers::{FOUND, WHOLE, message_of};
use crate::limits::{feed_header, feed_sent};
use crate::making::{HELLO, MESSAGE, START, Sent, put, put_32};
use crate::showing::{ALL, JSON};
use std::alloc::{AllocError, Global};
use std::process::Abort;
use std::test::Fail;
use ua_trace::{Choice, Trace};

/// The forms in which lines are written.
const FORMS: [Choice; 3] = [ALL, WHOLE, JSON];

/// A segment from the port 50000 to 4841.
fn forth(sequence: u32, payload: &[u8]) -> Sent<'_> {
    Sent {
        at: (START, 0),
        from: 50000,
        to: 4841,
        sequence,
        flags: 24,
        payload,
    }
}

/// Feeds the bytes in so many segments from the port 50000 to 4841, then one more segment, and then a Hello the other way.
fn feed_late(
    alloc: Global,
    trace: &mut Trace,
    bytes: &[u8],
    count: u32,
    more: &[u8],
    text: &mut String,
) -> Result<(), AllocError> {
    feed_header(alloc, trace, text)?;
    let length = bytes.len().min(65536) as u32;
    for number in 0..count {
        let sequence = number.wrapping_mul(length);
        feed_sent(alloc, trace, &forth(sequence, bytes), text)?;
    }
    let last = forth(count.wrapping_mul(length), more);
    feed_sent(alloc, trace, &last, text)?;
    let hello = Sent {
        from: 4841,
        to: 50000,
        ..forth(0, HELLO)
    };
    feed_sent(alloc, trace, &hello, text)
}

/// How many lines there are without those of answers.
fn usual_lines(text: &str) -> usize {
    let mut count = 0usize;
    for line in text.lines() {
        if !line.starts_with("    ") {
            count = count.saturating_add(1);
        }
    }
    count
}

/// Whether so many lines are shown of these segments in this form, without those of answers.
fn has_lines(
    alloc: Global,
    choice: Choice,
    bytes: &[u8],
    count: u32,
    more: &[u8],
    lines: usize,
) -> Result<bool, AllocError> {
    let mut text = String::new(alloc);
    let mut trace = Trace::new(alloc, choice)?;
    feed_late(alloc, &mut trace, bytes, count, more, &mut text)?;
    trace.end(&mut text)?;
    Ok(usual_lines(text.as_str()) == lines)
}

/// Asserts it of each form.
fn expect_lines<R: AllocGlobal + Abort>(
    rt: &R,
    bytes: &[u8],
    count: u32,
    more: &[u8],
    lines: usize,
) -> Result<(), AllocError> {
    for choice in FORMS {
        let is = has_lines(rt.alloc(), choice, bytes, count, more, lines)?;
        assert!(rt; is, "{count} segments, {lines} lines");
    }
    Ok(())
}

const HELD_LINES: &str = "stream 0 2026-11-29T01:02:03.000000000Z 192.0.2.1:50000 > 192.0.2.2:4841
0> 2026-11-29T01:02:03.000000000Z 0 MSG F 26 channel=1 token=1 sequence=2 request=2 body=2
0> 2026-11-29T01:02:03.000000000Z   message request=2 type=i=72 size=2
0< 2026-11-29T01:02:03.000000000Z 0 HEL 32 version=0 receive=65535 send=65535 message=0 chunks=0 url=null
";

/// What is shown of one message before the Hello.
fn is_held(alloc: Global) -> Result<bool, AllocError> {
    let mut text = String::new(alloc);
    let mut trace = Trace::new(alloc, ALL)?;
    feed_late(alloc, &mut trace, MESSAGE, 1, b"", &mut text)?;
    let status = trace.end(&mut text)?;
    Ok(status == 0 && text.as_str() == HELD_LINES)
}

#[test]
fn lines_are_held_until_the_other_way_tells(rt: HostRuntime) -> Result<(), Fail> {
    assert!(rt; is_held(rt.alloc())?);
    Ok(())
}

/// The lines of these messages differ most in length from form to form.
#[test]
fn an_opener_behind_many_lines_is_seen_in_each_form(rt: HostRuntime) -> Result<(), Fail> {
    expect_lines(&rt, MESSAGE, 1000, b"", 2002)?;
    let found = message_of(rt.alloc(), FOUND, 0)?;
    expect_lines(&rt, found.as_slice(), 500, b"", 1002)?;
    Ok(())
}

/// A MSG of 8192 bytes that is a part of a message and not its last.
fn part_of(alloc: Global) -> Result<Vec<u8>, AllocError> {
    let mut frame = Vec::new(alloc);
    put(&mut frame, b"MSGC")?;
    put_32(&mut frame, 8192)?;
    put(&mut frame, b"\x01\0\0\0\x01\0\0\0\x02\0\0\0\x02\0\0\0")?;
    frame.resize(8192, 7)?;
    Ok(frame)
}

/// 128 frames of 8192 bytes are 1048576.
#[test]
fn an_opener_behind_1_mib_is_seen_and_behind_more_is_not(rt: HostRuntime) -> Result<(), Fail> {
    let frame = part_of(rt.alloc())?;
    expect_lines(&rt, frame.as_slice(), 128, b"", 130)?;
    expect_lines(&rt, frame.as_slice(), 128, b"M", 0)?;
    expect_lines(&rt, frame.as_slice(), 129, b"", 0)?;
    Ok(())
}

/// The Hello is seen where the bytes that come with it are the first beyond.
#[test]
fn an_opener_that_fills_1_mib_is_seen(rt: HostRuntime) -> Result<(), Fail> {
    let frame = part_of(rt.alloc())?;
    expect_lines(&rt, frame.as_slice(), 127, MESSAGE, 131)?;
    Ok(())
}
