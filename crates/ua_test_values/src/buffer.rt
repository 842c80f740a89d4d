//! The buffer that lends its frames.

use std::alloc::Global;
use ua_frame::status::BAD_TCP_MESSAGE_TYPE_INVALID;
use ua_frame::{FrameBuf, Kind};
use ua_test_shared::vectors::HELLO;

/// Whether the buffer begins with the Hello, whole.
fn lends_hello(buffer: &FrameBuf) -> bool {
    match buffer.first(8192) {
        Ok(Some(frame)) => frame.kind() == Kind::Hello && frame.fields() == &HELLO[8..],
        _ => false,
    }
}

/// Whether the buffer begins with a header of no type.
fn has_no_type(buffer: &FrameBuf) -> bool {
    matches!(buffer.first(8192), Err(BAD_TCP_MESSAGE_TYPE_INVALID))
}

/// Whether an empty buffer takes just what it has room for.
fn is_filled(buffer: &mut FrameBuf) -> bool {
    let zeros = [0; 9000];
    buffer.is_empty()
        && buffer.push(HELLO) == 56
        && buffer.push(&zeros) == 8136
        && lends_hello(buffer)
}

/// Drops the first frame, where there is one, and says whether there was.
fn drops_a_frame(buffer: &mut FrameBuf) -> bool {
    match buffer.first(8192) {
        Ok(Some(_)) => {
            buffer.drop_first();
            true
        }
        _ => false,
    }
}

/// Whether a full buffer has room for its first frame once that is dropped, and begins with the next.
fn is_emptied(buffer: &mut FrameBuf) -> bool {
    let zeros = [0; 100];
    drops_a_frame(buffer) && buffer.push(&zeros) == 56 && !buffer.is_empty() && has_no_type(buffer)
}

fn takes_what_fits(buffer: &mut FrameBuf) -> bool {
    is_filled(buffer) && is_emptied(buffer)
}

/// Whether it is remembered that the first frame needs more bytes, under the limit alone by which it was judged.
fn is_remembered(buffer: &mut FrameBuf) -> bool {
    match buffer.first(8192) {
        Ok(None) => {
            buffer.remember(8192);
            buffer.awaits(8192) && !buffer.awaits(8193)
        }
        _ => false,
    }
}

/// Whether a Hello that comes in two pieces is awaited between them, and then no more.
fn awaits_the_rest(buffer: &mut FrameBuf) -> bool {
    let (front, rest) = HELLO.split_at(20);
    buffer.push(front) == 20
        && is_remembered(buffer)
        && buffer.push(rest) == 36
        && !buffer.awaits(8192)
        && lends_hello(buffer)
}

fn is_filled_and_emptied(alloc: Global) -> bool {
    match FrameBuf::with_capacity(alloc, 8192) {
        Ok(mut buffer) => takes_what_fits(&mut buffer),
        Err(_) => false,
    }
}

fn takes_a_frame_in_two_pieces(alloc: Global) -> bool {
    match FrameBuf::with_capacity(alloc, 8192) {
        Ok(mut buffer) => awaits_the_rest(&mut buffer),
        Err(_) => false,
    }
}

#[test]
fn buffer_takes_what_fits_and_lends_its_first_frame(rt: HostRuntime) {
    assert!(rt; is_filled_and_emptied(rt.alloc()));
}

#[test]
fn buffer_remembers_how_long_its_first_frame_is(rt: HostRuntime) {
    assert!(rt; takes_a_frame_in_two_pieces(rt.alloc()));
}
