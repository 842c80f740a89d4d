//! Messages put together and cut.

ghost use Rattle.std.specs.Prelude.{◌≡◌, ◌+◌, ◌≤◌, length, false, OnOk, IfOk, IfSome};
ghost use Rattle.ua_frame.specs.declared.kind.Kind.TheVariants.{Message};

use crate::giving::{BAD, NO_MEMORY, REFUSED, counted, give};
use std::alloc::Global;
use ua_chunk::{Added, Assembly, Head, Sequence, message_chunk, write_chunks};
use ua_frame::{Frame, Kind, frame_at};

const LONGEST_FRAME: u32 = 1_048_576;

/// Adds the part of a frame. The length of the message, which is given and dropped, where it is whole.
fn add(assembly: &mut Assembly, frame: &Frame, out: &mut [u8]) -> Result<usize, i64>
    requires { assembly.old.whole ≡ false }
    ensures { OnOk result (assembly.new.whole ≡ false) }
{
    let Ok(chunk) = message_chunk(frame) else {
        return Err(REFUSED);
    };
    if chunk.kind() != Kind::Message {
        return Err(REFUSED);
    }
    match assembly.add(&chunk) {
        Ok(Added::Whole) => {
            let len = assembly.body().len();
            let given = give(assembly.body(), 0, out);
            assembly.clear();
            if given < 0 { Err(given) } else { Ok(len) }
        }
        Ok(_) => Ok(0),
        Err(_) => Err(REFUSED),
    }
}

fn assembled_once(
    alloc: Global,
    max_message: u32,
    max_chunks: u32,
    input: &[u8],
    out: &mut [u8],
) -> Result<usize, i64> {
    let Ok(mut assembly) = Assembly::with_capacity(alloc, max_message, max_chunks) else {
        return Err(NO_MEMORY);
    };
    let mut total = 0usize;
    let mut rest = input;
    'frames: while let Some(frame) = frame_in(rest)? {
        total = total.wrapping_add(add(&mut assembly, &frame, out)?);
        rest = &rest[frame.len() as usize..];
    }
    Ok(total)
}

/// The frame at the front, where a whole one is there.
#[inline(always)]
fn frame_in(bytes: &[u8]) -> Result<Option<Frame<'_>>, i64>
    ensures { IfOk result (λ found. IfSome found (λ frame. 8 + length frame.fields ≤ length bytes.now)) }
{
    match frame_at(bytes, LONGEST_FRAME) {
        Ok(found) => Ok(found),
        Err(_) => Err(REFUSED),
    }
}

/// Joins the chunks of messages, `repeat` times.
pub(crate) fn assembled(
    alloc: Global,
    max_message: u32,
    max_chunks: u32,
    input: &[u8],
    repeat: u32,
    out: &mut [u8],
) -> i64 {
    let mut total = 0;
    for _ in 0..repeat {
        match assembled_once(alloc, max_message, max_chunks, input, out) {
            Ok(n) => total = n,
            Err(status) => return status,
        }
    }
    counted(total)
}

/// Cuts a body into chunks, `repeat` times.
pub(crate) fn cut(
    alloc: Global,
    part_limit: u32,
    input: &[u8],
    repeat: u32,
    out: &mut [u8],
) -> i64 {
    if part_limit == 0 || part_limit > 1_048_552 {
        return BAD;
    }
    let head = Head {
        channel: 1,
        token: 1,
        request_id: 2,
    };
    let mut bytes = Vec::new(alloc);
    for _ in 0..repeat {
        bytes.clear();
        let mut sequence = Sequence::starting_at(2);
        if write_chunks(input, &head, part_limit, &mut sequence, &mut bytes).is_err() {
            return NO_MEMORY;
        }
    }
    give(&bytes, counted(bytes.len()), out)
}
