//! Each call that grows gives its full answer, or says that memory ran out and leaves what stood before. These tests are run with each growth
//! refused in turn (tools/refuse-growths).

ghost use Rattle.std.specs.Prelude.{◌≡◌, false};

use crate::assembling::part;
use crate::reading::chunk_at;
use crate::writing::HEAD;
use std::alloc::{AllocError, Global};
use ua_chunk::{
    Added, Assembly, Chunk, Sequence, write_abort, write_chunks, write_close, write_open,
};
use ua_frame::Kind;
use ua_test_shared::vectors::{
    ABORT_TOO_LARGE, CLOSE_REQUEST, FIND_BODY, FIND_REQUEST, OPEN_RESPONSE,
};

/// Whether one frame has been written behind one byte, and has the number; or nothing where memory ran out, and the number is still to be given.
fn is_whole_or_nothing(
    wrote: Result<(), AllocError>,
    out: &[u8],
    frame: &[u8],
    next: u32,
    number: u32,
) -> bool {
    let added = out.strip_prefix([9].as_slice());
    match wrote {
        Ok(()) => added == Some(frame) && next != number,
        Err(_) => added == Some(&[]) && next == number,
    }
}

#[test]
fn chunks_or_no_memory(rt: HostRuntime) {
    let Ok(mut out) = [9u8].to_vec(rt.alloc()) else {
        return;
    };
    let mut sequence = Sequence::starting_at(2);
    let wrote = write_chunks(FIND_BODY, &HEAD, 69, &mut sequence, &mut out);
    let next = sequence.take();
    assert!(rt; is_whole_or_nothing(wrote, out.as_slice(), FIND_REQUEST, next, 2));
}

/// With growths between the chunks.
#[test]
fn many_chunks_or_no_memory(rt: HostRuntime) {
    let Ok(mut out) = [9u8].to_vec(rt.alloc()) else {
        return;
    };
    let mut sequence = Sequence::starting_at(2);
    let wrote = write_chunks(FIND_BODY, &HEAD, 1, &mut sequence, &mut out);
    let want = if wrote.is_ok() {
        (1 + 69 * 25, 71)
    } else {
        (1, 2)
    };
    let found = (out.len(), sequence.take());
    assert!(rt; found == want && out.first() == Some(&9));
}

#[test]
fn open_or_no_memory(rt: HostRuntime) {
    let Ok(mut out) = [9u8].to_vec(rt.alloc()) else {
        return;
    };
    let mut sequence = Sequence::starting_at(1);
    let wrote = write_open(1, 1, &OPEN_RESPONSE[79..], &mut sequence, &mut out);
    let next = sequence.take();
    assert!(rt; is_whole_or_nothing(wrote, out.as_slice(), OPEN_RESPONSE, next, 1));
}

#[test]
fn close_or_no_memory(rt: HostRuntime) {
    let Ok(mut out) = [9u8].to_vec(rt.alloc()) else {
        return;
    };
    let mut sequence = Sequence::starting_at(3);
    let wrote = write_close(1, 1, 3, &CLOSE_REQUEST[24..], &mut sequence, &mut out);
    let next = sequence.take();
    assert!(rt; is_whole_or_nothing(wrote, out.as_slice(), CLOSE_REQUEST, next, 3));
}

#[test]
fn abort_or_no_memory(rt: HostRuntime) {
    let Ok(mut out) = [9u8].to_vec(rt.alloc()) else {
        return;
    };
    let mut sequence = Sequence::starting_at(2);
    let wrote = write_abort(1, 1, 2, 0x80B9_0000, &mut sequence, &mut out);
    let next = sequence.take();
    assert!(rt; is_whole_or_nothing(wrote, out.as_slice(), ABORT_TOO_LARGE, next, 2));
}

fn holds(assembly: &Assembly, half: Option<u32>, len: usize) -> bool {
    assembly.half() == half && assembly.body().len() == len
}

/// Whether both parts are added, the second one to a whole message of a hundred bytes.
fn both_are_added(mut assembly: Assembly, first: &Chunk, last: &Chunk) -> bool
    requires { assembly.whole ≡ false }
{
    if first.kind() != Kind::Message || last.kind() != Kind::Message {
        return false;
    }
    if assembly.add(first) != Ok(Added::More) || !holds(&assembly, Some(2), 10) {
        return false;
    }
    assembly.add(last) == Ok(Added::Whole) && holds(&assembly, None, 100)
}

fn assembles_or_nothing(alloc: Global) -> bool {
    let (Ok(first), Ok(last)) = (
        part(alloc, b'C', 2, b"abcdefghij"),
        part(alloc, b'F', 2, &[b'z'; 90]),
    ) else {
        return true;
    };
    let Ok(assembly) = Assembly::with_capacity(alloc, 100, 2) else {
        return true;
    };
    match (chunk_at(first.as_slice()), chunk_at(last.as_slice())) {
        (Ok(first), Ok(last)) => both_are_added(assembly, &first, &last),
        _ => false,
    }
}

#[test]
fn assembly_or_no_memory(rt: HostRuntime) {
    assert!(rt; assembles_or_nothing(rt.alloc()));
}
