//! Bytes in pieces that tables name.

use crate::bytes::changed;
use crate::vectors::HELLO;
use std::alloc::{AllocError, Global};

/// A piece of an input or of a reply.
#[derive(Clone, Copy)]
pub enum Piece {
    /// These bytes.
    Bytes(&'static [u8]),
    /// The frame with other bytes in these places.
    Changed(&'static [u8], &'static [(usize, &'static [u8])]),
    /// A Hello to a url of so many bytes.
    HelloTo(u32),
    /// So many middle chunks of request id 2 without a body, from number 2 on.
    EmptyParts(u32),
    /// So many letters `x`.
    Letters(u32),
}

/// Puts the frame with these bytes in these places.
pub fn put_changed(
    alloc: Global,
    frame: &[u8],
    changes: &[(usize, &[u8])],
    out: &mut Vec<u8>,
) -> Result<(), AllocError> {
    let mut bytes = frame.to_vec(alloc)?;
    for (at, new) in changes {
        bytes = changed(alloc, bytes.as_slice(), *at, new)?;
    }
    out.extend_from_slice(bytes.as_slice())
}

fn put_letters(count: u32, out: &mut Vec<u8>) -> Result<(), AllocError> {
    for _ in 0..count {
        out.push(b'x')?;
    }
    Ok(())
}

fn put_hello_to(len: u32, out: &mut Vec<u8>) -> Result<(), AllocError> {
    out.extend_from_slice(b"HELF")?;
    out.extend_from_slice(&len.wrapping_add(32).to_le_bytes())?;
    out.extend_from_slice(&HELLO[8..28])?;
    out.extend_from_slice(&len.to_le_bytes())?;
    put_letters(len, out)
}

fn put_empty_parts(count: u32, out: &mut Vec<u8>) -> Result<(), AllocError> {
    for part in 0..count {
        out.extend_from_slice(b"MSGC\x18\0\0\0\x01\0\0\0\x01\0\0\0")?;
        out.extend_from_slice(&part.wrapping_add(2).to_le_bytes())?;
        out.extend_from_slice(b"\x02\0\0\0")?;
    }
    Ok(())
}

fn put_piece(alloc: Global, piece: Piece, out: &mut Vec<u8>) -> Result<(), AllocError> {
    match piece {
        Piece::Bytes(bytes) => out.extend_from_slice(bytes),
        Piece::Changed(frame, changes) => put_changed(alloc, frame, changes, out),
        Piece::HelloTo(len) => put_hello_to(len, out),
        Piece::EmptyParts(count) => put_empty_parts(count, out),
        Piece::Letters(count) => put_letters(count, out),
    }
}

/// The bytes of the pieces behind the front.
pub fn made(alloc: Global, front: &[u8], pieces: &[Piece]) -> Result<Vec<u8>, AllocError> {
    let mut all = front.to_vec(alloc)?;
    for piece in pieces {
        put_piece(alloc, *piece, &mut all)?;
    }
    Ok(all)
}
