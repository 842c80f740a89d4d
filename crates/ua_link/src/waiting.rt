//! What was read and is not used yet.

ghost use Rattle.std.specs.Prelude.{◌≡◌, ◌-◌, ◌<◌, ◌≤◌, ◌^◌, ◌∷◌, [], take, drop, length, None, IfOk, IfSome, IfErr};
ghost use Rattle.std.specs.Io.KnownBytes.{Consumes, Keeps, IsAtEnd};
ghost use Rattle.ua_link.specs.Link.{Counts};
ghost use Rattle.ua_link.specs.ReadyLink.{Tries};
ghost use Rattle.ua_link.specs.declared.ready_link.Call.{Call};

use crate::link::LinkFault;
use crate::ready_link::ReadyLink;
use crate::turn::MOST_READ;
use std::alloc::Global;
use std::marker::Model;
use ua_value::NoMemory;

/// The bytes of one read that are not used yet. A contract sees them as a list.
#[derive(Drop)]
pub(crate) struct Waiting {
    /// The room of all reads.
    room: Vec<u8>,
    /// Where in it those bytes begin and end.
    start: usize,
    end: usize,
}

impl Model for Waiting {
    ghost use Rattle.std.specs.Prelude.{◌≡◌, ◌-◌, ◌≤◌, ℕ, List, take, drop, length};

    ghost Value = { List ℕ };

    ghost view = { λ w. take (w.end - w.start) (drop w.start w.room.items) };

    ghost invariant = { λ w. (w.start ≤ w.end) × (w.end ≤ 4096) × (length w.room.items ≡ 4096) };
}

impl Waiting {
    /// None yet.
    ///
    /// # Errors
    ///
    /// `NoMemory` where a growth was refused.
    pub(crate) fn new(alloc: Global) -> Result<Waiting, NoMemory>
        ensures { IfOk result (λ w. w ≡ []) }
    {
        let room = Vec::from_elem(alloc, 0, MOST_READ)?;
        Ok(Waiting {
            room,
            start: 0,
            end: 0,
        })
    }

    /// How many they are.
    pub(crate) fn len(&self) -> usize
        ensures number { result ≡ length self.now }
        ensures bound { result ≤ 4096 }
    {
        self.end - self.start
    }

    /// The first `n` of them.
    pub(crate) fn front(&self, n: usize) -> &[u8]
        requires { n ≤ length self.now }
        ensures { result.now ≡ take n self.now }
    {
        &self.room[self.start..self.start + n]
    }

    /// Drops the first `n` of them.
    pub(crate) fn drop_front(&mut self, n: usize)
        requires { n ≤ length self.old }
        ensures { self.new ≡ drop n self.old }
    {
        self.start += n;
    }

    /// Reads once, where there are none, and says how many bytes came; they are those that wait then.
    ///
    /// # Errors
    ///
    /// `LinkFault` where the read failed.
    pub(crate) fn read<L: ReadyLink>(&mut self, link: &mut L) -> Result<Option<usize>, LinkFault>
        requires none { self.old ≡ [] }
        requires countable { L.fault_count link.old < 2 ^ 64 - 1 }
        ensures came { IfOk result (λ came. IfSome came (λ n. (length self.new ≡ n) × Consumes (L.input link.old) (L.input link.new) self.new × (n ≡ 0 → IsAtEnd (L.input link.new)))) }
        ensures within { IfOk result (λ came. IfSome came (λ n. n ≤ 4096)) }
        ensures nothing { IfOk result (λ came. came ≡ None → (self.new ≡ []) × Keeps (L.input link.old) (L.input link.new)) }
        ensures failed { IfErr result (λ _. (self.new ≡ []) × Keeps (L.input link.old) (L.input link.new)) }
        ensures kept { L.output link.new ≡ L.output link.old }
        ensures counted { Counts result (L.fault_count link.old) (L.fault_count link.new) }
        ensures tried { Tries (L.tried link.old) (L.tried link.new) (Call.Read ∷ []) }
    {
        self.start = 0;
        self.end = 0;
        let came = link.recv_now(&mut self.room)?;
        self.end = came.unwrap_or(0);
        Ok(came)
    }
}
