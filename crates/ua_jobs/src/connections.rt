//! Connections of a client, cut into pieces, and clocks.

use crate::digest::Failed;
use crate::draw::Draw;
use crate::frames::{Caller, HANDLE, MOMENT, REQUEST, SEQUENCE, set_number};
use ua_link::Clock;

/// A clock that gains a millisecond each time that it is asked.
#[derive(Clone, Copy)]
pub struct Ticks(pub i64);

impl Clock for Ticks {
    fn now(&mut self) -> i64 {
        self.0 = self.0.wrapping_add(10_000);
        self.0
    }
}

/// Appends a frame with these numbers.
fn put_numbered(out: &mut Vec<u8>, frame: &[u8], n: u32, drawn: u32) -> Result<(), Failed> {
    let start = out.len();
    out.extend_from_slice(frame)?;
    let frame = &mut out[start..];
    set_number(frame, SEQUENCE, n);
    set_number(frame, REQUEST, n);
    set_number(frame, MOMENT, drawn);
    set_number(frame, HANDLE, n.wrapping_mul(7));
    Ok(())
}

/// The Hello and the open request.
pub fn begin(out: &mut Vec<u8>, caller: &Caller) -> Result<(), Failed> {
    out.extend_from_slice(caller.hello())?;
    out.extend_from_slice(caller.open())?;
    Ok(())
}

/// So many questions, numbered from 2 on. The number of what comes next.
pub fn ask_in_a_row(
    out: &mut Vec<u8>,
    caller: &Caller,
    draw: &mut Draw,
    questions: u32,
) -> Result<u32, Failed> {
    let first = draw.half();
    let mut n = 2u32;
    for _ in 0..questions {
        put_numbered(out, caller.question(first.wrapping_add(n)), n, draw.half())?;
        n = n.wrapping_add(1);
    }
    Ok(n)
}

/// So many questions, and the close.
pub fn ask_and_close(
    out: &mut Vec<u8>,
    caller: &Caller,
    draw: &mut Draw,
    questions: u32,
) -> Result<(), Failed> {
    let n = ask_in_a_row(out, caller, draw, questions)?;
    put_numbered(out, caller.close(), n, draw.half())
}

/// The bytes in pieces of so many.
pub fn put_pieces<'a>(
    pieces: &mut Vec<&'a [u8]>,
    bytes: &'a [u8],
    size: usize,
) -> Result<(), Failed> {
    for piece in bytes.chunks(size.max(1)) {
        pieces.push(piece)?;
    }
    Ok(())
}
