//! What is beyond the most that is kept: of a direction behind a gap, of a message, and of connections.

use crate::making::{HELLO, START, Sent, put, put_32, put_header, put_sent};
use crate::showing::ALL;
use std::alloc::{AllocError, Global};
use std::test::Fail;
use ua_trace::{Choice, Trace};

/// Feeds the packet of a segment from the port 50000 to 4840.
fn feed_out(
    alloc: Global,
    trace: &mut Trace,
    sequence: u32,
    payload: &[u8],
    text: &mut String,
) -> Result<(), AllocError> {
    let sent = Sent {
        at: (START, 0),
        from: 50000,
        to: 4840,
        sequence,
        flags: 24,
        payload,
    };
    feed_sent(alloc, trace, &sent, text)
}

/// Feeds the packet of a segment.
pub(crate) fn feed_sent(
    alloc: Global,
    trace: &mut Trace,
    sent: &Sent,
    text: &mut String,
) -> Result<(), AllocError> {
    let mut piece = Vec::new(alloc);
    put_sent(alloc, &mut piece, sent, 0x4000)?;
    trace.feed(piece.as_slice(), text)
}

/// Feeds the header of a file.
pub(crate) fn feed_header(
    alloc: Global,
    trace: &mut Trace,
    text: &mut String,
) -> Result<(), AllocError> {
    let mut piece = Vec::new(alloc);
    put_header(&mut piece)?;
    trace.feed(piece.as_slice(), text)
}

/// So many bytes, behind some others.
fn with_bytes(alloc: Global, front: &[u8], hundreds: u32) -> Result<Vec<u8>, AllocError> {
    let mut bytes = front.to_vec(alloc)?;
    for _ in 0..hundreds {
        put(&mut bytes, &[7; 100])?;
    }
    Ok(bytes)
}

/// A MSG of 65024 bytes that is a part of a message and not its last, with a body of 65000.
fn part_of(alloc: Global) -> Result<Vec<u8>, AllocError> {
    let mut frame = Vec::new(alloc);
    put(&mut frame, b"MSGC")?;
    put_32(&mut frame, 65024)?;
    put(&mut frame, b"\x01\0\0\0\x01\0\0\0\x02\0\0\0\x02\0\0\0")?;
    with_bytes(alloc, frame.as_slice(), 650)
}

/// Feeds so many segments with the same bytes, one behind the other.
fn feed_many(
    alloc: Global,
    trace: &mut Trace,
    first: u32,
    count: u32,
    bytes: &[u8],
    text: &mut String,
) -> Result<(), AllocError> {
    let length = bytes.len().min(65536) as u32;
    for number in 0..count {
        let sequence = first.wrapping_add(number.wrapping_mul(length));
        feed_out(alloc, trace, sequence, bytes, text)?;
    }
    Ok(())
}

const LONG_LINES: &str = "
0> 2026-11-29T01:02:03.000000000Z 16711168 MSG C 65024 channel=1 token=1 sequence=2 request=2 body=65000
0> 2026-11-29T01:02:03.000000000Z 16776192 MSG C 65024 channel=1 token=1 sequence=2 request=2 body=65000
0> 2026-11-29T01:02:03.000000000Z 16776192 message-too-long
";

/// Of 261 parts of 65000 bytes, 258 are at most 16 MiB; the one behind them ends the way.
fn feed_long(alloc: Global, trace: &mut Trace, text: &mut String) -> Result<bool, AllocError> {
    let frame = part_of(alloc)?;
    feed_header(alloc, trace, text)?;
    feed_many(alloc, trace, 0, 261, frame.as_slice(), text)?;
    let status = trace.end(text)?;
    Ok(status == 1 && text.as_str().ends_with(LONG_LINES))
}

const STOPPED_LINES: &str =
    "stream 0 2026-11-29T01:02:03.000000000Z 192.0.2.1:50000 > 192.0.2.2:4840
0> 2026-11-29T01:02:03.000000000Z 0 HEL 32 version=0 receive=65535 send=65535 message=0 chunks=0 url=null
0> 2026-11-29T01:02:03.000000000Z 32 gap
";

/// Of 259 segments of 65000 bytes behind a gap, 258 are at most 16 MiB; what fills the gap behind them is not shown.
fn feed_gap(alloc: Global, trace: &mut Trace, text: &mut String) -> Result<bool, AllocError> {
    let bytes = with_bytes(alloc, b"", 650)?;
    feed_header(alloc, trace, text)?;
    feed_out(alloc, trace, 100, HELLO, text)?;
    feed_many(alloc, trace, 140, 258, bytes.as_slice(), text)?;
    let before = text.len();
    feed_many(alloc, trace, 16770140, 1, bytes.as_slice(), text)?;
    let is_told = before < text.len();
    feed_out(alloc, trace, 132, HELLO, text)?;
    let status = trace.end(text)?;
    Ok(is_told && status == 1 && text.as_str() == STOPPED_LINES)
}

/// Feeds the first packet of each of so many connections between the same ends, one behind the other: a SYN with another
/// number than the one before it begins another (RFC 9293, 3.4).
fn feed_connections(
    alloc: Global,
    trace: &mut Trace,
    count: u32,
    text: &mut String,
) -> Result<(), AllocError> {
    for number in 0..count {
        let sent = Sent {
            at: (START, 0),
            from: 50000,
            to: 80,
            sequence: number,
            flags: 2,
            payload: b"",
        };
        feed_sent(alloc, trace, &sent, text)?;
    }
    Ok(())
}

/// Of 16386 connections 16384 are followed.
fn feed_crowd(alloc: Global, trace: &mut Trace, text: &mut String) -> Result<bool, AllocError> {
    feed_header(alloc, trace, text)?;
    feed_connections(alloc, trace, 16386, text)?;
    let status = trace.end(text)?;
    Ok(status == 1 && text.as_str() == "unfollowed 2\n")
}

const OF_ANOTHER_PORT: Choice = Choice {
    port: Some(4841),
    ..ALL
};

#[test]
fn a_message_over_16_mib_ends_its_way(rt: HostRuntime) -> Result<(), Fail> {
    let mut text = String::new(rt.alloc());
    let mut trace = Trace::new(rt.alloc(), ALL)?;
    assert!(rt; feed_long(rt.alloc(), &mut trace, &mut text)?);
    Ok(())
}

#[test]
fn more_than_16_mib_behind_a_gap_end_their_way(rt: HostRuntime) -> Result<(), Fail> {
    let mut text = String::new(rt.alloc());
    let mut trace = Trace::new(rt.alloc(), ALL)?;
    assert!(rt; feed_gap(rt.alloc(), &mut trace, &mut text)?);
    Ok(())
}

#[test]
fn connections_that_are_not_followed_are_counted(rt: HostRuntime) -> Result<(), Fail> {
    let mut text = String::new(rt.alloc());
    let mut trace = Trace::new(rt.alloc(), OF_ANOTHER_PORT)?;
    assert!(rt; feed_crowd(rt.alloc(), &mut trace, &mut text)?);
    Ok(())
}
