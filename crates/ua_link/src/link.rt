//! Both directions of a connection.

ghost use Rattle.std.specs.Prelude.{◌≡◌, ◌-◌, ◌<◌, ◌^◌, ℕ, List, length, Option, None, IfOk};
ghost use Rattle.std.specs.Io.{ReadsAtMost, WritesAtMost};
ghost use Rattle.std.specs.Io.KnownBytes.{ReadConsumes, WriteAppends};
ghost use Rattle.ua_link.specs.Link.{Counts};

/// A read or a write that failed.
#[derive(Clone, Copy, Debug, PartialEq, Eq)]
pub struct LinkFault;

/// Both directions of a connection, over which bytes come and go in pieces, and may stop doing so.
pub trait Link {
    /// The bytes that `recv` has still to give, where they are known.
    ghost input: { Self → Option (List ℕ) } = { λ _. None };

    /// The bytes that `send` took so far, where they are known.
    ghost output: { Self → Option (List ℕ) } = { λ _. None };

    /// How many calls failed so far.
    ghost fault_count: { Self → ℕ };

    /// Reads the next bytes into the front of `buf`, which has room for one at least, and says how many came. 0 is the
    /// end of the input. Fewer than 2^64 - 1 calls failed before.
    ///
    /// # Errors
    ///
    /// `LinkFault` where the read failed. It is counted, and no byte came with it.
    fn recv(&mut self, buf: &mut [u8]) -> Result<usize, LinkFault>
        requires room { 0 < length buf.old }
        requires countable { fault_count self.old < 2 ^ 64 - 1 }
        ensures bound { ReadsAtMost result buf.new }
        ensures bytes { ReadConsumes (input self.old) (input self.new) result buf.new }
        ensures kept { output self.new ≡ output self.old }
        ensures counted { Counts result (fault_count self.old) (fault_count self.new) };

    /// Writes a beginning of `bytes`, and says how many went out: one at least, where there is one. Fewer than 2^64 - 1
    /// calls failed before.
    ///
    /// # Errors
    ///
    /// `LinkFault` where the write failed. It is counted, and no byte went out with it.
    fn send(&mut self, bytes: &[u8]) -> Result<usize, LinkFault>
        requires countable { fault_count self.old < 2 ^ 64 - 1 }
        ensures bound { WritesAtMost result bytes.now }
        ensures some { IfOk result (λ n. 0 < length bytes.now → 0 < n) }
        ensures bytes { WriteAppends (output self.old) (output self.new) result bytes.now }
        ensures kept { input self.new ≡ input self.old }
        ensures counted { Counts result (fault_count self.old) (fault_count self.new) };

    /// How many calls failed so far.
    fn failures(&self) -> u64
        ensures { result ≡ fault_count self.now };
}
