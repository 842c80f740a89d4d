//! Streams put together from segments in any order.

use crate::making::{put, put_segment};
use std::alloc::{AllocError, Global};
use std::test::Fail;
use ua_capture::{Packet, packet_in};
use ua_stream::{Side, Streams, Way};

/// Adds segments to a direction whose first byte has the number `first`, and says whether these bytes are ready then, and
/// whether there is a gap behind them.
fn is_ready(
    alloc: Global,
    first: u32,
    segments: &[(u32, &[u8])],
    ready: &[u8],
    gap: bool,
) -> Result<bool, AllocError> {
    let mut side = Side::new(alloc);
    side.begin(first);
    for segment in segments {
        side.add(alloc, segment.0, segment.1)?;
    }
    Ok(side.ready() == ready && side.has_gap() == gap && side.next() == ready.len() as u64)
}

#[test]
fn segments_in_order_are_ready(rt: HostRuntime) -> Result<(), Fail> {
    let alloc = rt.alloc();
    assert!(rt; is_ready(alloc, 7, &[(7, b"abc"), (10, b"def")], b"abcdef", false)?);
    assert!(rt; is_ready(alloc, 7, &[(7, b""), (7, b"a"), (8, b"")], b"a", false)?);
    Ok(())
}

#[test]
fn segments_out_of_order_are_ready_once_the_gap_is_filled(rt: HostRuntime) -> Result<(), Fail> {
    let alloc = rt.alloc();
    assert!(rt; is_ready(alloc, 0, &[(3, b"def")], b"", true)?);
    assert!(rt; is_ready(alloc, 0, &[(3, b"def"), (0, b"abc")], b"abcdef", false)?);
    assert!(rt;
        is_ready(
            alloc,
            0,
            &[(6, b"gh"), (3, b"def"), (0, b"abc")],
            b"abcdefgh",
            false
        )?
    );
    assert!(rt;
        is_ready(
            alloc,
            0,
            &[(6, b"gh"), (0, b"abc"), (4, b"ef")],
            b"abc",
            true
        )?
    );
    Ok(())
}

#[test]
fn what_comes_again_is_counted_once_and_the_first_stays(rt: HostRuntime) -> Result<(), Fail> {
    let alloc = rt.alloc();
    assert!(rt;
        is_ready(
            alloc,
            0,
            &[(0, b"abc"), (0, b"abc"), (3, b"d")],
            b"abcd",
            false
        )?
    );
    assert!(rt; is_ready(alloc, 0, &[(0, b"abc"), (1, b"XXde")], b"abcde", false)?);
    assert!(rt;
        is_ready(
            alloc,
            0,
            &[(2, b"cd"), (2, b"XY"), (0, b"abZZe")],
            b"abcde",
            false
        )?
    );
    assert!(rt;
        is_ready(
            alloc,
            0,
            &[(4, b"ef"), (2, b"cdXX"), (0, b"ab")],
            b"abcdef",
            false
        )?
    );
    assert!(rt;
        is_ready(
            alloc,
            0,
            &[(2, b"c"), (0, b"abXdXf"), (4, b"e")],
            b"abcdXf",
            false
        )?
    );
    Ok(())
}

/// Whether segments of a direction from 0 on are told to differ.
fn differ(alloc: Global, segments: &[(u32, &[u8])]) -> Result<bool, AllocError> {
    let mut side = Side::new(alloc);
    side.begin(0);
    for segment in segments {
        side.add(alloc, segment.0, segment.1)?;
    }
    Ok(side.has_difference())
}

#[test]
fn that_segments_differ_is_told(rt: HostRuntime) -> Result<(), Fail> {
    let alloc = rt.alloc();
    assert!(rt; !differ(alloc, &[(2, b"cd"), (2, b"cd"), (0, b"abcde")])?);
    assert!(rt; differ(alloc, &[(2, b"cd"), (2, b"cx"), (0, b"ab")])?);
    assert!(rt; differ(alloc, &[(2, b"cd"), (0, b"abx"), (4, b"e")])?);
    assert!(rt; !differ(alloc, &[(2, b"cd"), (4, b"x"), (0, b"ab")])?);
    Ok(())
}

#[test]
fn sequence_numbers_go_round(rt: HostRuntime) -> Result<(), Fail> {
    let alloc = rt.alloc();
    let before = 0xffff_fffe;
    assert!(rt;
        is_ready(
            alloc,
            before,
            &[(before, b"ab"), (0, b"cd")],
            b"abcd",
            false
        )?
    );
    assert!(rt;
        is_ready(
            alloc,
            before,
            &[(2, b"ef"), (before, b"abcd")],
            b"abcdef",
            false
        )?
    );
    assert!(rt; is_ready(alloc, 5, &[(3, b"xyabc")], b"abc", false)?);
    Ok(())
}

/// Whether a direction is stopped by one byte more than is kept behind a gap, and keeps what was ready.
fn is_stopped_at_the_limit(alloc: Global) -> Result<bool, AllocError> {
    let bytes = vec![in alloc; 0u8; 65536]?;
    let mut side = Side::new(alloc);
    side.begin(0);
    side.add(alloc, 0, b"ab")?;
    for n in 0..256u32 {
        side.add(alloc, 3 + n * 65536, bytes.as_slice())?;
    }
    let kept = !side.is_stopped() && side.has_gap();
    side.add(alloc, 3 + 256 * 65536, b"a")?;
    Ok(kept && side.is_stopped() && !side.has_gap() && side.ready() == b"ab".as_slice())
}

#[test]
fn a_gap_is_given_up_where_too_much_is_kept_behind_it(rt: HostRuntime) -> Result<(), Fail> {
    assert!(rt; is_stopped_at_the_limit(rt.alloc())?);
    Ok(())
}

/// Takes a segment that goes from the first port to the second, each of a machine of its own, and says where it stands.
fn take(
    alloc: Global,
    streams: &mut Streams,
    ports: (u16, u16),
    sequence: u32,
    flags: u8,
    payload: &[u8],
) -> Result<Option<(usize, Way)>, AllocError> {
    let mut bytes = Vec::new(alloc);
    let (from, to) = if ports.0 == 4840 { (2, 1) } else { (1, 2) };
    put(&mut bytes, &[0x45, 0, 0, 0, 0, 0, 0, 0, 64, 6, 0, 0])?;
    put(&mut bytes, &[192, 0, 2, from, 192, 0, 2, to])?;
    put_segment(&mut bytes, ports, sequence, flags, payload)?;
    match packet_in(228, bytes.as_slice()) {
        Packet::Segment(segment) => streams.take(alloc, &segment),
        _ => Ok(None),
    }
}

/// Whether these bytes of a way of a connection are ready.
fn has(streams: &Streams, number: usize, way: Way, bytes: &[u8]) -> bool {
    match streams.get(number) {
        Some(connection) => connection.side(way).ready() == bytes,
        None => false,
    }
}

const OUT: (u16, u16) = (50000, 4840);

const IN: (u16, u16) = (4840, 50000);

const OTHER: (u16, u16) = (50001, 4840);

/// A connection with its two SYN, a byte each way, and another between other ports.
fn both_ways(alloc: Global, streams: &mut Streams) -> Result<bool, AllocError> {
    let opened = take(alloc, streams, OUT, 99, 2, b"")? == Some((0, Way::Forth));
    let answered = take(alloc, streams, IN, 499, 18, b"")? == Some((0, Way::Back));
    let other = take(alloc, streams, OTHER, 7, 16, b"z")? == Some((1, Way::Forth));
    let asked = take(alloc, streams, OUT, 100, 24, b"ab")? == Some((0, Way::Forth));
    let told = take(alloc, streams, IN, 500, 24, b"cd")? == Some((0, Way::Back));
    Ok(opened && answered && other && asked && told)
}

fn are_apart(alloc: Global) -> Result<bool, AllocError> {
    let mut streams = Streams::new(alloc);
    let placed = both_ways(alloc, &mut streams)?;
    let ready = has(&streams, 0, Way::Forth, b"ab")
        && has(&streams, 0, Way::Back, b"cd")
        && has(&streams, 1, Way::Forth, b"z")
        && has(&streams, 1, Way::Back, b"");
    streams.clear(0, Way::Forth);
    let cleared = has(&streams, 0, Way::Forth, b"") && has(&streams, 0, Way::Back, b"cd");
    Ok(placed && ready && cleared && streams.len() == 2)
}

#[test]
fn both_ways_of_a_connection_are_put_together_apart(rt: HostRuntime) -> Result<(), Fail> {
    assert!(rt; are_apart(rt.alloc())?);
    Ok(())
}

/// A SYN that comes again is that of the same connection, and another one opens the next.
fn is_opened_again(alloc: Global) -> Result<bool, AllocError> {
    let mut streams = Streams::new(alloc);
    let first = take(alloc, &mut streams, OUT, 99, 2, b"")? == Some((0, Way::Forth));
    let again = take(alloc, &mut streams, OUT, 99, 2, b"")? == Some((0, Way::Forth));
    let bytes = take(alloc, &mut streams, OUT, 100, 24, b"ab")? == Some((0, Way::Forth));
    let next = take(alloc, &mut streams, OUT, 70000, 2, b"")? == Some((1, Way::Forth));
    let behind = take(alloc, &mut streams, OUT, 70001, 24, b"cd")? == Some((1, Way::Forth));
    let back = take(alloc, &mut streams, IN, 5, 2, b"")? == Some((2, Way::Forth));
    let ready = has(&streams, 0, Way::Forth, b"ab") && has(&streams, 1, Way::Forth, b"cd");
    Ok(first && again && bytes && next && behind && back && ready)
}

#[test]
fn a_syn_tells_connections_of_the_same_ports_apart(rt: HostRuntime) -> Result<(), Fail> {
    assert!(rt; is_opened_again(rt.alloc())?);
    Ok(())
}
