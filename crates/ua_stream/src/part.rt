//! Bytes of a stream that came before those in front of them.

ghost use Rattle.std.specs.Prelude.{◌≡◌, ◌+◌, ◌≤◌, ◌^◌, length, IfOk};
ghost use Rattle.ua_stream.specs.Piece.{part_of, end_of, differs};

use std::alloc::{AllocError, Global};
use std::marker::Model;

/// The places of a stream: as many bytes as one direction may have.
pub(crate) const PLACES: u64 = 1 << 62;

/// Bytes of a stream from a place on.
#[derive(Drop)]
pub(crate) struct Part {
    at: u64,
    bytes: Vec<u8>,
}

impl Model for Part {
    ghost use Rattle.std.specs.Prelude.{◌+◌, ◌≤◌, ◌^◌, length};
    ghost use Rattle.ua_stream.specs.Piece.{Piece};

    ghost Value = { Piece };

    ghost view = { λ a. record { at = a.at; bytes = a.bytes.items } };

    ghost invariant = { λ a. a.at + length a.bytes.items ≤ 2 ^ 62 };
}

impl Part {
    pub(crate) fn new(alloc: Global, at: u64, bytes: &[u8]) -> Result<Part, AllocError>
        requires { at + length bytes.now ≤ 2 ^ 62 }
        ensures { IfOk result (λ part. part ≡ part_of at bytes.now) }
    {
        let bytes = Vec::from_slice(alloc, bytes)?;
        Ok(Part { at, bytes })
    }

    /// The place of the first byte.
    pub(crate) fn at(&self) -> u64
        ensures { result ≡ self.now.at }
    {
        self.at
    }

    /// The place behind the last byte.
    pub(crate) fn end(&self) -> u64
        ensures end { result ≡ end_of self.now }
        ensures within { result ≤ 2 ^ 62 }
    {
        self.at + self.bytes.len() as u64
    }

    pub(crate) fn bytes(&self) -> &[u8]
        ensures { result.now ≡ self.now.bytes }
    {
        &self.bytes
    }

    /// Whether it has another byte than these at a place that both have.
    pub(crate) fn differs(&self, at: u64, bytes: &[u8]) -> bool
        requires { at ≤ 2 ^ 63 }
        ensures { result ≡ differs self.now (part_of at bytes.now) }
    {
        let from = self.at.max(at);
        let to = (self.at + self.bytes.len() as u64).min(at + bytes.len() as u64);
        if to <= from {
            return false;
        }
        let mine = &self.bytes[(from - self.at) as usize..(to - self.at) as usize];
        let other = &bytes[(from - at) as usize..(to - at) as usize];
        mine != other
    }
}
