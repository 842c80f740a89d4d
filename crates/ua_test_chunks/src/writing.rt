//! Chunks that are written, and their numbers.

use std::alloc::Global;
use ua_chunk::{
    Head, Sequence, chunk_count, follows, write_abort, write_chunks, write_close, write_message,
    write_open,
};
use ua_service::{Request, request_header};
use ua_test_shared::vectors::{
    ABORT_TOO_LARGE, CLOSE_REQUEST, FIND_BODY, FIND_REQUEST, OPEN_RESPONSE,
};
use ua_value::{DateTime, NodeId};

pub(crate) const HEAD: Head = Head {
    channel: 1,
    token: 1,
    request_id: 2,
};

fn are_taken(mut sequence: Sequence, numbers: [u32; 4]) -> bool {
    sequence.take() == numbers[0]
        && sequence.take() == numbers[1]
        && sequence.take() == numbers[2]
        && sequence.take() == numbers[3]
}

#[test]
fn numbers_are_taken_in_order(rt: HostRuntime) {
    let sequence = Sequence::starting_at(4_294_966_271);
    assert!(rt; are_taken(sequence, [4_294_966_271, 4_294_966_272, 1, 2]));
}

const NUMBERS: [(u32, u32, bool); 17] = [
    (1, 2, true),
    (1, 1, false),
    (1, 3, false),
    (2, 1, false),
    (4_294_966_270, 0, false),
    (4_294_966_271, 4_294_966_272, true),
    (4_294_966_271, 1, false),
    (4_294_966_272, 4_294_966_273, true),
    (4_294_966_272, 1, true),
    (4_294_966_272, 0, true),
    (4_294_966_272, 1023, true),
    (4_294_966_272, 1024, false),
    (4_294_966_272, 4_294_966_274, false),
    (4_294_967_295, 0, true),
    (4_294_967_295, 1023, true),
    (4_294_967_295, 1024, false),
    (4_294_967_295, 4_294_967_295, false),
];

#[test]
fn numbers_follow_or_wrap(rt: HostRuntime) {
    for (a, b, want) in NUMBERS {
        assert!(rt; follows(a, b) == want, "{a} {b}");
    }
}

/// The length of a message, the part limit, and how many chunks they make.
const COUNTS: [(u64, u32, u64); 10] = [
    (69, 2, 35),
    (70, 2, 35),
    (71, 2, 36),
    (1_048_576, 65511, 17),
    (0, 5, 1),
    (1, 5, 1),
    (5, 5, 1),
    (6, 5, 2),
    (u64::MAX, 1, u64::MAX),
    (u64::MAX, u32::MAX, 4_294_967_297),
];

#[test]
fn chunks_are_counted(rt: HostRuntime) {
    for (len, part_limit, want) in COUNTS {
        assert!(rt;
            part_limit > 0 && chunk_count(len, part_limit) == want,
            "{len} {part_limit}"
        );
    }
}

/// The FindServers request in parts of 40 bytes, with numbers over the wrap.
const FIND_REQUEST_IN_TWO: &[u8] =
    b"MSGC\x40\0\0\0\x01\0\0\0\x01\0\0\0\0\xFC\xFF\xFF\x02\0\0\0\x01\0\xA6\x01\0\0\0\0\0\0\0\0\0\0\x02\0\0\0\0\0\0\0\xFF\xFF\xFF\xFF\0\0\0\0\0\0\0\x18\0\0\0opcMSGF\x35\0\0\0\x01\0\0\0\x01\0\0\0\x01\0\0\0\x02\0\0\0.tcp://localhost:4840\xFF\xFF\xFF\xFF\xFF\xFF\xFF\xFF";

/// A chunk without a body.
const NO_BODY: &[u8] = b"MSGF\x18\0\0\0\x01\0\0\0\x01\0\0\0\x02\0\0\0\x02\0\0\0";

/// A body, the part limit and the first number, the chunks that are written, and the next number.
const CUTS: [(&[u8], u32, u32, &[u8], u32); 5] = [
    // In one chunk, also where there is more room.
    (FIND_BODY, 69, 2, FIND_REQUEST, 3),
    (FIND_BODY, 70, 2, FIND_REQUEST, 3),
    (FIND_BODY, 1_048_552, 2, FIND_REQUEST, 3),
    (FIND_BODY, 40, 4_294_966_272, FIND_REQUEST_IN_TWO, 2),
    // An empty message is one chunk.
    (&[], 40, 2, NO_BODY, 3),
];

/// Whether the message is cut so, behind what was there.
fn is_cut(
    alloc: Global,
    body: &[u8],
    part_limit: u32,
    first: u32,
    chunks: &[u8],
    next: u32,
) -> bool {
    if part_limit == 0 || part_limit > 1_048_552 || first == 0 || first > 4_294_966_272 {
        return false;
    }
    let Ok(mut out) = b"front".to_vec(alloc) else {
        return false;
    };
    let mut sequence = Sequence::starting_at(first);
    write_chunks(body, &HEAD, part_limit, &mut sequence, &mut out).is_ok()
        && out.as_slice().strip_prefix(b"front".as_slice()) == Some(chunks)
        && sequence.take() == next
}

#[test]
fn messages_are_cut(rt: HostRuntime) {
    for (body, part_limit, first, chunks, next) in CUTS {
        assert!(rt;
            is_cut(rt.alloc(), body, part_limit, first, chunks, next),
            "{part_limit}"
        );
    }
}

/// Whether an open response, an abort and a close request are written as single frames, with the numbers 1, 2 and 3.
fn singles_are_written(alloc: Global) -> bool {
    let mut sequence = Sequence::starting_at(1);
    let mut open = Vec::new(alloc);
    let mut abort = Vec::new(alloc);
    let mut close = Vec::new(alloc);
    write_open(1, 1, &OPEN_RESPONSE[79..], &mut sequence, &mut open).is_ok()
        && write_abort(1, 1, 2, 0x80B9_0000, &mut sequence, &mut abort).is_ok()
        && write_close(1, 1, 3, &CLOSE_REQUEST[24..], &mut sequence, &mut close).is_ok()
        && open.as_slice() == OPEN_RESPONSE
        && abort.as_slice() == ABORT_TOO_LARGE
        && close.as_slice() == CLOSE_REQUEST
        && sequence.take() == 4
}

#[test]
fn single_frames_are_written(rt: HostRuntime) {
    assert!(rt; singles_are_written(rt.alloc()));
}

/// The body of a request of the service 72, with the handle 2 and no further fields.
const OTHER_BODY: &[u8] =
    b"\0\x48\0\0\0\0\0\0\0\0\0\0\x02\0\0\0\0\0\0\0\xFF\xFF\xFF\xFF\0\0\0\0\0\0\0";

/// Whether the chunk is the one with this flag, number and byte.
fn is_part(chunk: &[u8], flag: u8, number: u32, byte: u8) -> bool {
    let [a, b, c, d] = number.to_le_bytes();
    let want = [
        b'M', b'S', b'G', flag, 25, 0, 0, 0, 1, 0, 0, 0, 1, 0, 0, 0, a, b, c, d, 2, 0, 0, 0, byte,
    ];
    chunk == want.as_slice()
}

/// Whether the chunks have the bytes of the body, one in each, with numbers from 2 on.
fn are_parts(chunks: &[u8], body: &[u8]) -> bool {
    let mut number: u32 = 2;
    let mut rest = chunks;
    for byte in body {
        let flag = if rest.len() == 25 { b'F' } else { b'C' };
        let Some((chunk, others)) = rest.split_at_checked(25) else {
            return false;
        };
        if !is_part(chunk, flag, number, *byte) {
            return false;
        }
        number = number.wrapping_add(1);
        rest = others;
    }
    rest.is_empty()
}

/// Whether the request is written in 31 parts of one byte.
fn is_written_in_bytes(alloc: Global, request: &Request) -> bool {
    let mut out = Vec::new(alloc);
    let mut sequence = Sequence::starting_at(2);
    write_message(request, &HEAD, 1, &mut sequence, &mut out).is_ok()
        && out.len() == 775
        && are_parts(out.as_slice(), OTHER_BODY)
        && sequence.take() == 33
}

#[test]
fn requests_are_written_straight_into_chunks(rt: HostRuntime) {
    let id = NodeId::numeric(0, 72);
    let rest = Vec::new(rt.alloc());
    let written = match Request::other(id, request_header(DateTime(0), 2), rest) {
        Some(request) => is_written_in_bytes(rt.alloc(), &request),
        None => false,
    };
    assert!(rt; written);
}
