//! Streams that do not block.

ghost use Rattle.std.specs.Prelude.{◌≡◌, ◌<◌, ℕ, List, length, Option, None, IfOk, IfErr};
ghost use Rattle.std.specs.Io.{ReadsAtMost, WritesAtMost};
ghost use Rattle.std.specs.Io.KnownBytes.{ReadConsumes, WriteAppends};

use crate::reason::Reason;
use std::time::Duration;

/// What a stream is waited for.
#[derive(Clone, Copy, Debug, PartialEq, Eq)]
pub enum Wanted {
    /// That a read would not block.
    Read,
    /// That a write would not block.
    Write,
}

/// Why a call of a stream did nothing.
#[derive(Clone, Copy, Debug)]
pub enum NotDone {
    /// It would have to wait.
    NotNow,
    /// It failed.
    Failed(Reason),
}

/// Both directions of a connection, whose calls say "not now" where they would wait.
pub trait Stream {
    /// The bytes that `recv` has still to give, where they are known.
    ghost input: { Self → Option (List ℕ) } = { λ _. None };

    /// The bytes that `send` took so far, where they are known.
    ghost output: { Self → Option (List ℕ) } = { λ _. None };

    /// Reads the next bytes into the front of `buf`, and says how many came. 0 is the end of the input, where `buf` has
    /// room.
    ///
    /// # Errors
    ///
    /// `NotNow` where none are there yet and more may come, and `Failed` where the read failed. No byte came then.
    fn recv(&mut self, buf: &mut [u8]) -> Result<usize, NotDone>
        ensures bound { ReadsAtMost result buf.new }
        ensures bytes { ReadConsumes (input self.old) (input self.new) result buf.new }
        ensures same { IfErr result (λ _. input self.new ≡ input self.old) }
        ensures kept { output self.new ≡ output self.old };

    /// Writes a beginning of `bytes`, and says how many went out: one at least, where there is one.
    ///
    /// # Errors
    ///
    /// `NotNow` where there is no room for one yet, and `Failed` where the write failed. No byte went out then.
    fn send(&mut self, bytes: &[u8]) -> Result<usize, NotDone>
        ensures bound { WritesAtMost result bytes.now }
        ensures some { IfOk result (λ n. 0 < length bytes.now → 0 < n) }
        ensures bytes { WriteAppends (output self.old) (output self.new) result bytes.now }
        ensures same { IfErr result (λ _. output self.new ≡ output self.old) }
        ensures kept { input self.new ≡ input self.old };

    /// Waits until what is wanted may be there, for so long at the most; it may return before.
    ///
    /// # Errors
    ///
    /// Why there is no waiting.
    fn wait(&mut self, wanted: Wanted, at_most: Duration) -> Result<(), Reason>
        ensures input { input self.new ≡ input self.old }
        ensures output { output self.new ≡ output self.old };
}
