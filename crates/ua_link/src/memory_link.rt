//! A link over memory.

ghost use Rattle.std.specs.Prelude.{◌≡◌, ◌-◌, ◌<◌, ◌^◌, [], Some, length, min, take, IfOk, OnOk};
ghost use Rattle.std.specs.Io.{ReadsAtMost, WritesAtMost};
ghost use Rattle.std.specs.Io.KnownBytes.{ReadConsumes, WriteAppends};
ghost use Rattle.ua_link.specs.Link.{Counts};
ghost use Rattle.ua_link.specs.MemoryLink.{filled, joined, given, left_after, lent};

use crate::link::{Link, LinkFault};
use std::alloc::Global;
use std::marker::Model;

/// A link that gives the pieces that it was made with, and keeps what is sent.
#[derive(Drop)]
pub struct MemoryLink<'a> {
    piece: &'a [u8],
    pieces: &'a [&'a [u8]],
    sent: Vec<u8>,
    limit: usize,
    failures: u64,
}

impl<'a> Model for MemoryLink<'a> {
    ghost use Rattle.std.specs.Prelude.{◌∷◌, ◌<◌};
    ghost use Rattle.ua_link.specs.MemoryLink.{Shown, filled, lent};

    ghost Value = { Shown };

    ghost view = { λ l. record {
      pieces = filled (l.piece.now ∷ lent l.pieces.now);
      sent = l.sent.items;
      limit = l.limit;
      failures = l.failures;
    } };

    ghost invariant = { λ l. 0 < l.limit };
}

impl<'a> MemoryLink<'a> {
    /// A link whose `recv` gives these pieces, but for the empty ones, and whose `send` takes at most `send_limit`
    /// bytes, which is not 0.
    pub fn new(alloc: Global, pieces: &'a [&'a [u8]], send_limit: usize) -> MemoryLink<'a>
        requires { 0 < send_limit }
        ensures { result ≡ record { pieces = filled (lent pieces.entry.now); sent = []; limit = send_limit; failures = 0 } }
    {
        MemoryLink {
            piece: &[],
            pieces,
            sent: Vec::new(alloc),
            limit: send_limit,
            failures: 0,
        }
    }

    /// The bytes that were sent.
    pub fn sent(&self) -> &[u8]
        ensures { result.now ≡ self.now.sent }
    {
        &self.sent
    }
}

impl<'a> Link for MemoryLink<'a> {
    ghost input = { λ l. Some (joined l.pieces) };

    ghost output = { λ l. Some l.sent };

    ghost fault_count = { λ l. l.failures };

    /// Gives the next piece, or the part of it that fits.
    fn recv(&mut self, buf: &mut [u8]) -> Result<usize, LinkFault>
        requires room { 0 < length buf.old }
        requires countable { self.old.failures < 2 ^ 64 - 1 }
        ensures bound { ReadsAtMost result buf.new }
        ensures bytes { ReadConsumes (Some (joined self.old.pieces)) (Some (joined self.new.pieces)) result buf.new }
        ensures kept { self.new.sent ≡ self.old.sent }
        ensures counted { Counts result self.old.failures self.new.failures }
        ensures given { IfOk result (λ n. take n buf.new ≡ given (length buf.old) self.old.pieces) }
        ensures pieces { OnOk result (self.new.pieces ≡ left_after (length buf.old) self.old.pieces) }
    {
        'empty: while self.piece.is_empty() && !self.pieces.is_empty() {
            self.piece = self.pieces[0];
            self.pieces = &self.pieces[1..];
        }
        let n = buf.len().min(self.piece.len());
        let (first, rest) = self.piece.split_at(n);
        buf[..n].copy_from_slice(first);
        self.piece = rest;
        Ok(n)
    }

    /// Takes as many bytes as the limit allows.
    ///
    /// # Errors
    ///
    /// `LinkFault` where a growth was refused. It is counted, and nothing was taken.
    fn send(&mut self, bytes: &[u8]) -> Result<usize, LinkFault>
        requires countable { self.old.failures < 2 ^ 64 - 1 }
        ensures bound { WritesAtMost result bytes.now }
        ensures some { IfOk result (λ n. 0 < length bytes.now → 0 < n) }
        ensures bytes { WriteAppends (Some self.old.sent) (Some self.new.sent) result bytes.now }
        ensures kept { self.new.pieces ≡ self.old.pieces }
        ensures counted { Counts result self.old.failures self.new.failures }
        ensures taken { IfOk result (λ n. n ≡ min self.old.limit (length bytes.now)) }
    {
        let n = bytes.len().min(self.limit);
        match self.sent.extend_from_slice(&bytes[..n]) {
            Ok(()) => Ok(n),
            Err(_) => {
                self.failures += 1;
                Err(LinkFault)
            }
        }
    }

    fn failures(&self) -> u64 {
        self.failures
    }
}
