//! Messages from their parts.

ghost use Rattle.std.specs.Prelude.{◌≡◌, ◌≤◌, length, false};

use crate::reading::chunk_at;
use std::alloc::{AllocError, Global};
use ua_chunk::{Added, Assembly, Chunk};
use ua_frame::Kind;
use ua_frame::status::{
    BAD_DECODING_ERROR, BAD_TCP_MESSAGE_TOO_LARGE, BAD_TCP_MESSAGE_TYPE_INVALID,
};
use ua_test_shared::vectors::ABORT_TOO_LARGE;

/// A MSG frame with this part, of channel, token and sequence number 1.
pub(crate) fn part(alloc: Global, flag: u8, id: u8, bytes: &[u8]) -> Result<Vec<u8>, AllocError> {
    let len = u8::try_from(bytes.len()).unwrap_or(0).wrapping_add(24);
    let mut frame = [b'M', b'S', b'G', flag, len, 0, 0, 0].to_vec(alloc)?;
    frame.extend_from_slice(&[1, 0, 0, 0, 1, 0, 0, 0, 1, 0, 0, 0, id, 0, 0, 0])?;
    frame.extend_from_slice(bytes)?;
    Ok(frame)
}

/// The flag, request id and bytes of a part, then what comes of it, and what `half` and `body` give behind it.
type Row = (
    u8,
    u8,
    &'static [u8],
    Result<Added, u32>,
    Option<u32>,
    &'static [u8],
);

/// Whether this comes of the chunk; makes room behind a whole message.
fn is_added(
    assembly: &mut Assembly,
    chunk: &Chunk,
    want: Result<Added, u32>,
    half: Option<u32>,
    body: &[u8],
) -> bool
    requires { assembly.old.whole ≡ false }
    ensures { assembly.new.whole ≡ false }
{
    if chunk.kind() != Kind::Message {
        return false;
    }
    let came = assembly.add(chunk);
    let is_wanted = came == want && assembly.half() == half && assembly.body() == body;
    if let Ok(Added::Whole) = came {
        assembly.clear();
    }
    is_wanted
}

/// Whether the row holds of its part.
fn is_step(alloc: Global, assembly: &mut Assembly, row: &Row) -> bool
    requires { assembly.old.whole ≡ false }
    ensures { assembly.new.whole ≡ false }
{
    let (flag, id, bytes, want, half, body) = *row;
    let Ok(frame) = part(alloc, flag, id, bytes) else {
        return false;
    };
    match chunk_at(frame.as_slice()) {
        Ok(chunk) => is_added(assembly, &chunk, want, half, body),
        Err(_) => false,
    }
}

/// Whether the rows hold, one after another.
fn run(alloc: Global, mut assembly: Assembly, rows: &[Row]) -> bool
    requires { assembly.whole ≡ false }
{
    let mut all = true;
    for row in rows {
        if !is_step(alloc, &mut assembly, row) {
            all = false;
        }
    }
    all
}

/// Whether the rows hold of an assembly with these limits.
fn assembles(alloc: Global, max_message: u32, max_chunks: u32, rows: &[Row]) -> bool {
    match Assembly::with_capacity(alloc, max_message, max_chunks) {
        Ok(assembly) => run(alloc, assembly, rows),
        Err(_) => false,
    }
}

const ABORT: &[u8] = b"\0\0\xB9\x80\xFF\xFF\xFF\xFF";

const OTHER_ID: Result<Added, u32> = Err(BAD_TCP_MESSAGE_TYPE_INVALID);

const TOO_LARGE: Result<Added, u32> = Err(BAD_TCP_MESSAGE_TOO_LARGE);

const MALFORMED: Result<Added, u32> = Err(BAD_DECODING_ERROR);

const ABORTED: Result<Added, u32> = Ok(Added::Aborted {
    status: 0x80B9_0000,
});

const ABORTED_PARTS: [Row; 7] = [
    (b'C', 2, b"ab", Ok(Added::More), Some(2), b"ab"),
    (b'C', 2, b"cd", Ok(Added::More), Some(2), b"abcd"),
    (b'A', 2, ABORT, ABORTED, None, b""),
    (b'F', 3, b"xyz", Ok(Added::Whole), None, b"xyz"),
    // An abort may stand alone, and have a reason.
    (b'A', 4, ABORT, ABORTED, None, b""),
    (
        b'A',
        5,
        b"\x01\0\0\x80\x02\0\0\0no",
        Ok(Added::Aborted {
            status: 0x8000_0001,
        }),
        None,
        b"",
    ),
    (b'F', 6, b"", Ok(Added::Whole), None, b""),
];

#[test]
fn aborted_parts_are_dropped(rt: HostRuntime) {
    assert!(rt; assembles(rt.alloc(), 10, 3, &ABORTED_PARTS));
}

const REFUSED_PARTS: [Row; 14] = [
    // Empty parts are accepted.
    (b'C', 5, b"", Ok(Added::More), Some(5), b""),
    (b'C', 6, b"a", OTHER_ID, Some(5), b""),
    (b'A', 6, ABORT, OTHER_ID, Some(5), b""),
    (
        b'C',
        5,
        b"abcdefghij",
        Ok(Added::More),
        Some(5),
        b"abcdefghij",
    ),
    // A byte over the limit, with the own request id and with another one.
    (b'C', 5, b"k", TOO_LARGE, Some(5), b"abcdefghij"),
    (b'F', 5, b"k", TOO_LARGE, Some(5), b"abcdefghij"),
    (b'F', 6, b"k", OTHER_ID, Some(5), b"abcdefghij"),
    (
        b'A',
        5,
        b"\0\0\xB9\x80\xFF\xFF\xFF",
        MALFORMED,
        Some(5),
        b"abcdefghij",
    ),
    (b'C', 5, b"", Ok(Added::More), Some(5), b"abcdefghij"),
    // A part over the limit; an abort is none.
    (b'F', 5, b"", TOO_LARGE, Some(5), b"abcdefghij"),
    (b'A', 5, ABORT, ABORTED, None, b""),
    (
        b'A',
        5,
        b"\0\0\xB9\x80\xFF\xFF\xFF\xFF\0",
        MALFORMED,
        None,
        b"",
    ),
    (b'F', 5, b"abcdefghijk", TOO_LARGE, None, b""),
    (
        b'F',
        5,
        b"abcdefghij",
        Ok(Added::Whole),
        None,
        b"abcdefghij",
    ),
];

#[test]
fn parts_are_refused_row_by_row(rt: HostRuntime) {
    assert!(rt; assembles(rt.alloc(), 10, 3, &REFUSED_PARTS));
}

const LAST_PARTS: [Row; 3] = [
    (b'C', 1, b"ab", Ok(Added::More), Some(1), b"ab"),
    (b'F', 1, b"c", Ok(Added::Whole), None, b"abc"),
    (b'F', 2, b"d", Ok(Added::Whole), None, b"d"),
];

/// A limit of 0 is a limit.
const NO_BYTES: [Row; 2] = [
    (b'F', 1, b"a", TOO_LARGE, None, b""),
    (b'F', 1, b"", Ok(Added::Whole), None, b""),
];

const NO_PARTS: [Row; 1] = [(b'F', 1, b"", TOO_LARGE, None, b"")];

#[test]
fn the_last_part_within_the_limits_is_taken(rt: HostRuntime) {
    let alloc = rt.alloc();
    assert!(rt; assembles(alloc, 3, 2, &LAST_PARTS));
    assert!(rt; assembles(alloc, 0, 1, &NO_BYTES));
    assert!(rt; assembles(alloc, 9, 0, &NO_PARTS));
}

/// Whether the abort that a server writes is taken by a new assembly.
fn abort_is_taken(alloc: Global) -> bool {
    match (
        Assembly::with_capacity(alloc, 10, 3),
        chunk_at(ABORT_TOO_LARGE),
    ) {
        (Ok(mut assembly), Ok(chunk)) => {
            assembly.half().is_none() && is_added(&mut assembly, &chunk, ABORTED, None, b"")
        }
        _ => false,
    }
}

#[test]
fn an_abort_frame_is_read(rt: HostRuntime) {
    assert!(rt; abort_is_taken(rt.alloc()));
}
