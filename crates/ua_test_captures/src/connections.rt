//! Which connection a segment is of, among several.

use crate::making::{put, put_segment, put_six};
use std::alloc::{AllocError, Global};
use std::test::Fail;
use ua_capture::{Packet, packet_in};
use ua_stream::{Streams, Way};

/// One end of a connection: the last number of its address of version 4, and its port.
#[derive(Clone, Copy)]
struct End(u8, u16);

const ACK: u8 = 16;

const SYN: u8 = 2;

const SERVER: End = End(2, 4840);

/// Takes the segment of a datagram, and says where it stands.
fn take_from(
    alloc: Global,
    streams: &mut Streams,
    link: u16,
    bytes: &[u8],
) -> Result<Option<(usize, Way)>, AllocError> {
    match packet_in(link, bytes) {
        Packet::Segment(segment) => streams.take(alloc, &segment),
        _ => Ok(None),
    }
}

/// Takes a segment of one byte from the first end to the second, and says where it stands.
fn take(
    alloc: Global,
    streams: &mut Streams,
    from: End,
    to: End,
    sequence: u32,
    flags: u8,
) -> Result<Option<(usize, Way)>, AllocError> {
    let mut bytes = Vec::new(alloc);
    put(&mut bytes, &[0x45, 0, 0, 0, 0, 0, 0, 0, 64, 6, 0, 0])?;
    put(&mut bytes, &[192, 0, 2, from.0, 192, 0, 2, to.0])?;
    put_segment(&mut bytes, (from.1, to.1), sequence, flags, b"a")?;
    take_from(alloc, streams, 228, bytes.as_slice())
}

/// Whether segments between two ends begin a connection, and are of it, whichever of them sends.
fn begins(alloc: Global, streams: &mut Streams, one: End, other: End) -> Result<bool, AllocError> {
    let number = streams.len();
    let begun = take(alloc, streams, one, other, 10, ACK)? == Some((number, Way::Forth));
    let back = take(alloc, streams, other, one, 20, ACK)? == Some((number, Way::Back));
    let again = take(alloc, streams, one, other, 11, ACK)? == Some((number, Way::Forth));
    Ok(begun && back && again && streams.len() == number.saturating_add(1))
}

/// Ends of which now the one, now the other is lower, by its address or its port.
const PAIRS: [(End, End); 8] = [
    (End(1, 50000), SERVER),
    (End(1, 4840), End(2, 50000)),
    (End(2, 50000), End(3, 4840)),
    (End(4, 50000), SERVER),
    (End(1, 4840), End(1, 50000)),
    (End(1, 50001), End(1, 4841)),
    (End(3, 4840), End(4, 4840)),
    (End(6, 4840), End(5, 4840)),
];

fn all_begin(alloc: Global) -> Result<bool, AllocError> {
    let mut streams = Streams::new(alloc);
    for pair in PAIRS {
        if !begins(alloc, &mut streams, pair.0, pair.1)? {
            return Ok(false);
        }
    }
    Ok(true)
}

#[test]
fn ends_are_the_same_in_either_order(rt: HostRuntime) -> Result<(), Fail> {
    assert!(rt; all_begin(rt.alloc())?);
    Ok(())
}

/// What an end sends to itself goes forth.
fn is_of_one_end(alloc: Global) -> Result<bool, AllocError> {
    let mut streams = Streams::new(alloc);
    let begun = take(alloc, &mut streams, SERVER, SERVER, 10, SYN)? == Some((0, Way::Forth));
    let again = take(alloc, &mut streams, SERVER, SERVER, 12, ACK)? == Some((0, Way::Forth));
    let next = take(alloc, &mut streams, SERVER, SERVER, 99, SYN)? == Some((1, Way::Forth));
    Ok(begun && again && next)
}

#[test]
fn an_end_may_send_to_itself(rt: HostRuntime) -> Result<(), Fail> {
    assert!(rt; is_of_one_end(rt.alloc())?);
    Ok(())
}

/// Three connections between two ends, the second opened by the other one, and by turns another of one end of theirs.
fn are_told_apart(alloc: Global) -> Result<bool, AllocError> {
    let one = End(1, 50000);
    let other = End(1, 50001);
    let mut streams = Streams::new(alloc);
    let first = take(alloc, &mut streams, one, SERVER, 100, SYN)? == Some((0, Way::Forth));
    let apart = take(alloc, &mut streams, other, SERVER, 100, SYN)? == Some((1, Way::Forth));
    let second = take(alloc, &mut streams, SERVER, one, 200, SYN)? == Some((2, Way::Forth));
    let back = take(alloc, &mut streams, one, SERVER, 101, ACK)? == Some((2, Way::Back));
    let still = take(alloc, &mut streams, SERVER, other, 300, ACK)? == Some((1, Way::Back));
    let third = take(alloc, &mut streams, one, SERVER, 400, SYN)? == Some((3, Way::Forth));
    let last = take(alloc, &mut streams, SERVER, one, 201, ACK)? == Some((3, Way::Back));
    let stays = take(alloc, &mut streams, other, SERVER, 102, ACK)? == Some((1, Way::Forth));
    Ok(first && apart && second && back && still && third && last && stays)
}

#[test]
fn the_last_connection_of_two_ends_takes_their_segments(rt: HostRuntime) -> Result<(), Fail> {
    assert!(rt; are_told_apart(rt.alloc())?);
    Ok(())
}

/// Between the same ports, by both versions of the protocol.
fn are_of_two_versions(alloc: Global) -> Result<bool, AllocError> {
    let mut streams = Streams::new(alloc);
    let four = take(alloc, &mut streams, End(1, 50000), SERVER, 10, ACK)? == Some((0, Way::Forth));
    let mut bytes = Vec::new(alloc);
    put_six(&mut bytes, 6, 21)?;
    put_segment(&mut bytes, (50000, 4840), 10, ACK, b"a")?;
    let six = take_from(alloc, &mut streams, 229, bytes.as_slice())? == Some((1, Way::Forth));
    let again = take_from(alloc, &mut streams, 229, bytes.as_slice())? == Some((1, Way::Forth));
    let back = take(alloc, &mut streams, SERVER, End(1, 50000), 20, ACK)? == Some((0, Way::Back));
    Ok(four && six && again && back)
}

#[test]
fn versions_of_the_protocol_are_apart(rt: HostRuntime) -> Result<(), Fail> {
    assert!(rt; are_of_two_versions(rt.alloc())?);
    Ok(())
}

/// How many connections stand in a crowd.
const MANY: u16 = 4000;

/// The client of a connection of the crowd.
fn client(number: u16) -> End {
    End((number % 200) as u8, number / 2 + 30000)
}

/// Whether the answers to a crowd, in another order than that in which it came, are of its connections.
fn answers_find(alloc: Global, streams: &mut Streams) -> Result<bool, AllocError> {
    for n in 0..MANY {
        let number = (n as u32 * 1327 % MANY as u32) as u16;
        let place = take(alloc, streams, SERVER, client(number), 20, ACK)?;
        if place != Some((number as usize, Way::Back)) {
            return Ok(false);
        }
    }
    Ok(true)
}

fn are_found(alloc: Global) -> Result<bool, AllocError> {
    let mut streams = Streams::new(alloc);
    for number in 0..MANY {
        let place = take(alloc, &mut streams, client(number), SERVER, 10, ACK)?;
        if place != Some((number as usize, Way::Forth)) {
            return Ok(false);
        }
    }
    let found = answers_find(alloc, &mut streams)?;
    Ok(found && streams.len() == MANY as usize)
}

#[test]
fn each_of_many_connections_is_found(rt: HostRuntime) -> Result<(), Fail> {
    assert!(rt; are_found(rt.alloc())?);
    Ok(())
}

/// Whether a segment is of the connection with this number, or memory is refused.
fn is_at(place: Result<Option<(usize, Way)>, AllocError>, number: usize, way: Way) -> bool {
    match place {
        Ok(place) => place == Some((number, way)),
        Err(_) => true,
    }
}

/// Whether a connection begins, and does so with the next segment where memory is refused.
fn begins_in_the_end(alloc: Global, streams: &mut Streams, port: u16) -> bool {
    let number = streams.len();
    match take(alloc, streams, End(1, port), SERVER, 10, ACK) {
        Ok(place) => {
            place == Some((number, Way::Forth)) && streams.len() == number.saturating_add(1)
        }
        Err(_) => {
            let place = take(alloc, streams, End(1, port), SERVER, 10, ACK);
            is_at(place, number, Way::Forth)
        }
    }
}

/// Whether as many connections begin as the index has to grow for, and are found by the other end.
fn begin_in_the_end(alloc: Global, streams: &mut Streams) -> bool {
    for port in 0..14u16 {
        if !begins_in_the_end(alloc, streams, port) {
            return false;
        }
    }
    for port in 0..14u16 {
        let place = take(alloc, streams, SERVER, End(1, port), 20, ACK);
        if !is_at(place, port as usize, Way::Back) {
            return false;
        }
    }
    true
}

#[test]
fn connections_begin_or_no_memory(rt: HostRuntime) {
    let mut streams = Streams::new(rt.alloc());
    assert!(rt; begin_in_the_end(rt.alloc(), &mut streams));
}
