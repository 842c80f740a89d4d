//! Both directions of a connection, where no call waits.

ghost use Rattle.std.specs.Prelude.{◌≡◌, ◌-◌, ◌<◌, ◌^◌, ℕ, List, [], ◌∷◌, length, Option, None};
ghost use Rattle.ua_link.specs.Link.{Counts};
ghost use Rattle.ua_link.specs.ReadyLink.{ReadsNow, SendsNow, Tries};
ghost use Rattle.ua_link.specs.declared.ready_link.Call.{Call};

use crate::link::LinkFault;

/// A call of a link that was tried, whatever came of it.
#[derive(Clone, Copy, Debug, PartialEq, Eq)]
pub enum Call {
    /// [`ReadyLink::recv_now`].
    Read,
    /// [`ReadyLink::send_now`].
    Write,
}

/// Both directions of a connection, of which no call waits: one that can do nothing now says so.
pub trait ReadyLink {
    /// The bytes that `recv_now` has still to give, where they are known.
    ghost input: { Self → Option (List ℕ) } = { λ _. None };

    /// The bytes that `send_now` took so far, where they are known.
    ghost output: { Self → Option (List ℕ) } = { λ _. None };

    /// How many calls failed so far.
    ghost fault_count: { Self → ℕ };

    /// The reads and writes that were tried so far, in their order, where they are known: a link may keep no record of
    /// them, or lose it.
    ghost tried: { Self → Option (List Call) } = { λ _. None };

    /// Reads what is there of the next bytes into the front of `buf`, which has room for one at least, and says how many
    /// came: `Some(0)` is the end of the input, and `None` says that nothing is there now. Fewer than 2^64 - 1 calls
    /// failed before.
    ///
    /// # Errors
    ///
    /// `LinkFault` where the read failed. It is counted, and no byte came with it.
    fn recv_now(&mut self, buf: &mut [u8]) -> Result<Option<usize>, LinkFault>
        requires room { 0 < length buf.old }
        requires countable { fault_count self.old < 2 ^ 64 - 1 }
        ensures bytes { ReadsNow (input self.old) (input self.new) result buf.new }
        ensures kept { output self.new ≡ output self.old }
        ensures counted { Counts result (fault_count self.old) (fault_count self.new) }
        ensures tried { Tries (tried self.old) (tried self.new) (Call.Read ∷ []) };

    /// Writes a beginning of `bytes`, which are one at least, and says how many went out: one at least. `None` says that
    /// none can go out now. Fewer than 2^64 - 1 calls failed before.
    ///
    /// # Errors
    ///
    /// `LinkFault` where the write failed. It is counted, and no byte went out with it.
    fn send_now(&mut self, bytes: &[u8]) -> Result<Option<usize>, LinkFault>
        requires some { 0 < length bytes.now }
        requires countable { fault_count self.old < 2 ^ 64 - 1 }
        ensures bytes { SendsNow (output self.old) (output self.new) result bytes.now }
        ensures kept { input self.new ≡ input self.old }
        ensures counted { Counts result (fault_count self.old) (fault_count self.new) }
        ensures tried { Tries (tried self.old) (tried self.new) (Call.Write ∷ []) };

    /// Says to the other end that no more bytes come. A failure to do so is passed over, and not counted.
    fn end_output(&mut self)
        ensures input { input self.new ≡ input self.old }
        ensures output { output self.new ≡ output self.old }
        ensures uncounted { fault_count self.new ≡ fault_count self.old }
        ensures untried { tried self.new ≡ tried self.old };

    /// How many calls failed so far.
    fn failures(&self) -> u64
        ensures { result ≡ fault_count self.now };
}
