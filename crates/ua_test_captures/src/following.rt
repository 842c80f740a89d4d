//! From the bytes of a file to those of its streams.

use crate::making::{Order, pcap_of, put, put_packet, put_segment};
use std::alloc::{AllocError, Global};
use std::test::Fail;
use ua_capture::Reader;
use ua_stream::{Event, Streams, Way, next_event};

/// A segment at a moment, from one port to another.
struct Sent {
    seconds: u32,
    ports: (u16, u16),
    sequence: u32,
    flags: u8,
    payload: &'static [u8],
}

const OUT: (u16, u16) = (50000, 4840);

const IN: (u16, u16) = (4840, 50000);

const WEB: (u16, u16) = (50000, 80);

/// Puts a packet of raw version 4 into a file.
fn put_sent(alloc: Global, file: &mut Vec<u8>, sent: &Sent) -> Result<(), AllocError> {
    let mut bytes = Vec::new(alloc);
    let (from, to) = if sent.ports.0 == 50000 {
        (1, 2)
    } else {
        (2, 1)
    };
    put(&mut bytes, &[0x45, 0, 0, 0, 0, 0, 0, 0, 64, 6, 0, 0])?;
    put(&mut bytes, &[192, 0, 2, from, 192, 0, 2, to])?;
    put_segment(
        &mut bytes,
        sent.ports,
        sent.sequence,
        sent.flags,
        sent.payload,
    )?;
    put_packet(file, Order::Little, (sent.seconds, 0), bytes.as_slice())
}

/// A file of packets that are sent.
fn file_of(alloc: Global, all: &[Sent]) -> Result<Vec<u8>, AllocError> {
    let mut file = pcap_of(alloc, Order::Little, false, 228)?;
    for sent in all {
        put_sent(alloc, &mut file, sent)?;
    }
    Ok(file)
}

/// What a file is to tell: how many segments, the moment of the last in seconds, and how many packets of no stream.
#[derive(Clone, Copy, PartialEq, Eq)]
struct Told {
    segments: u32,
    last: u64,
    others: u32,
}

/// Takes what the reader has. `false` says that memory was refused, or that the file is none.
fn take_all(
    alloc: Global,
    reader: &mut Reader,
    streams: &mut Streams,
    port: Option<u16>,
    told: &mut Told,
) -> bool {
    for _ in 0..1000 {
        match next_event(reader, streams, alloc, port) {
            Ok(Event::Segment { moment, .. }) => {
                told.segments = told.segments.saturating_add(1);
                told.last = moment.unwrap_or(0) / 1000000000;
            }
            Ok(Event::Other) => told.others = told.others.saturating_add(1),
            Ok(Event::More) => return true,
            Ok(_) => {}
            Err(_) => return false,
        }
    }
    false
}

/// What the file tells in pieces of `size` bytes, unless memory is refused.
fn told_by(
    alloc: Global,
    streams: &mut Streams,
    file: &[u8],
    size: usize,
    port: Option<u16>,
) -> Option<Told> {
    let mut reader = Reader::new(alloc);
    let mut told = Told {
        segments: 0,
        last: 0,
        others: 0,
    };
    for piece in file.chunks(size.max(1)) {
        let pushed = reader.push(piece).is_ok();
        if !pushed || !take_all(alloc, &mut reader, streams, port, &mut told) {
            return None;
        }
    }
    Some(told)
}

/// Whether these bytes of a way of a connection are ready.
fn has(streams: &Streams, number: usize, way: Way, bytes: &[u8]) -> bool {
    match streams.get(number) {
        Some(connection) => connection.side(way).ready() == bytes,
        None => false,
    }
}

/// A conversation whose second segment comes late and again, beside one with another port.
const TALK: &[Sent] = &[
    Sent {
        seconds: 1,
        ports: OUT,
        sequence: 99,
        flags: 2,
        payload: b"",
    },
    Sent {
        seconds: 2,
        ports: IN,
        sequence: 199,
        flags: 18,
        payload: b"",
    },
    Sent {
        seconds: 3,
        ports: WEB,
        sequence: 5,
        flags: 24,
        payload: b"GET",
    },
    Sent {
        seconds: 4,
        ports: OUT,
        sequence: 103,
        flags: 24,
        payload: b"def",
    },
    Sent {
        seconds: 5,
        ports: OUT,
        sequence: 100,
        flags: 24,
        payload: b"abc",
    },
    Sent {
        seconds: 6,
        ports: OUT,
        sequence: 100,
        flags: 24,
        payload: b"abc",
    },
    Sent {
        seconds: 7,
        ports: IN,
        sequence: 200,
        flags: 24,
        payload: b"xyz",
    },
];

/// Whether the conversation is told so, in pieces of this size.
fn is_talk(alloc: Global, file: &[u8], size: usize) -> bool {
    let mut streams = Streams::new(alloc);
    let all = Told {
        segments: 7,
        last: 7,
        others: 0,
    };
    told_by(alloc, &mut streams, file, size, None) == Some(all)
        && has(&streams, 0, Way::Forth, b"abcdef")
        && has(&streams, 0, Way::Back, b"xyz")
        && has(&streams, 1, Way::Forth, b"GET")
        && streams.len() == 2
}

/// The same of one port alone.
fn is_talk_of_a_port(alloc: Global, file: &[u8], size: usize) -> bool {
    let mut streams = Streams::new(alloc);
    let all = Told {
        segments: 6,
        last: 7,
        others: 1,
    };
    told_by(alloc, &mut streams, file, size, Some(4840)) == Some(all)
        && has(&streams, 0, Way::Forth, b"abcdef")
        && has(&streams, 0, Way::Back, b"xyz")
        && streams.len() == 1
}

#[test]
fn a_conversation_in_a_file_is_put_together(rt: HostRuntime) -> Result<(), Fail> {
    let alloc = rt.alloc();
    let file = file_of(alloc, TALK)?;
    assert!(rt; is_talk(alloc, file.as_slice(), 1));
    assert!(rt; is_talk(alloc, file.as_slice(), 61));
    assert!(rt; is_talk(alloc, file.as_slice(), 100000));
    assert!(rt; is_talk_of_a_port(alloc, file.as_slice(), 17));
    Ok(())
}

/// Whether the conversation is told, or that memory was refused.
fn tells_or_no_memory(alloc: Global) -> bool {
    let Ok(file) = file_of(alloc, TALK) else {
        return true;
    };
    let mut streams = Streams::new(alloc);
    match told_by(alloc, &mut streams, file.as_slice(), 97, None) {
        Some(told) => told.segments == 7 && has(&streams, 0, Way::Forth, b"abcdef"),
        None => true,
    }
}

#[test]
fn a_conversation_is_put_together_or_no_memory(rt: HostRuntime) {
    assert!(rt; tells_or_no_memory(rt.alloc()));
}
