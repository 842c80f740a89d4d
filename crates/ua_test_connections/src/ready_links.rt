//! Links and clocks for connections that take turns: no call of them waits.

ghost use Rattle.std.specs.Prelude.{◌≡◌};

use std::alloc::Global;
use ua_link::{Clock, LinkFault, ReadyLink, ReadyTurn, ServerConnection};

/// A clock that stands at this moment.
#[derive(Clone, Copy)]
pub(crate) struct At(pub i64);

impl Clock for At {
    fn now(&mut self) -> i64 {
        self.0
    }
}

/// More calls of a link than a test makes.
pub(crate) const NO_FUSE: u32 = u32::MAX;

/// A client over memory, as its server's link sees it.
#[derive(Clone, Copy)]
pub(crate) struct Caller<'a> {
    /// What it has still to say, and how many bytes of that are there.
    pub says: &'a [u8],
    pub there: usize,
    /// The most bytes that one read gives.
    pub gives: usize,
    /// Whether it leaves once all is said, and whether it does so at the latest when it hears that no more bytes come.
    pub leaves: bool,
    pub follows: bool,
    /// What it has to hear next, where that is known: another byte is a fault.
    pub hears: Option<&'a [u8]>,
    /// How many bytes it still takes, and how many of them at one time.
    pub room: usize,
    pub takes: usize,
    /// How many calls do not fail.
    pub calls: u32,
    pub failures: u64,
}

/// A client of which nothing is there yet, and which takes nothing yet.
pub(crate) const fn waiting<'a>(says: &'a [u8], hears: Option<&'a [u8]>) -> Caller<'a> {
    Caller {
        says,
        there: 0,
        gives: usize::MAX,
        leaves: true,
        follows: false,
        hears,
        room: 0,
        takes: usize::MAX,
        calls: NO_FUSE,
        failures: 0,
    }
}

/// A client that has said all, and takes whatever comes.
pub(crate) fn ready<'a>(says: &'a [u8], hears: Option<&'a [u8]>) -> Caller<'a> {
    let mut caller = waiting(says, hears);
    caller.let_more(usize::MAX, usize::MAX);
    caller
}

impl<'a> Caller<'a> {
    /// So many more bytes are there, and so many more are taken.
    pub(crate) fn let_more(&mut self, comes: usize, room: usize)
        ensures { self.new.failures ≡ self.old.failures }
    {
        self.there = self.there.saturating_add(comes);
        self.room = self.room.saturating_add(room);
    }

    /// Whether the next call is passed on; it counts as one.
    fn passes(&mut self) -> bool
        ensures { self.new.failures ≡ self.old.failures }
    {
        if self.calls == 0 {
            return false;
        }
        self.calls -= 1;
        true
    }

    /// Whether it has to hear these bytes next; it hears those behind them then.
    fn hears_so(&mut self, bytes: &[u8]) -> bool
        ensures { self.new.failures ≡ self.old.failures }
    {
        let Some(hears) = self.hears else {
            return true;
        };
        let (first, rest) = hears.split_at(bytes.len().min(hears.len()));
        self.hears = Some(rest);
        first == bytes
    }

    /// Whether it heard all that it had to.
    pub(crate) fn heard_all(&self) -> bool {
        match self.hears {
            Some(rest) => rest.is_empty(),
            None => true,
        }
    }
}

impl<'a> ReadyLink for Caller<'a> {
    ghost fault_count = { λ l. l.failures };

    fn recv_now(&mut self, buf: &mut [u8]) -> Result<Option<usize>, LinkFault> {
        if !self.passes() {
            self.failures += 1;
            return Err(LinkFault);
        }
        if self.says.is_empty() && self.leaves {
            return Ok(Some(0));
        }
        let most = self.there.min(self.gives).min(self.says.len());
        let n = buf.len().min(most);
        if n == 0 {
            return Ok(None);
        }
        let (first, rest) = self.says.split_at(n);
        buf[..n].copy_from_slice(first);
        self.says = rest;
        self.there -= n;
        Ok(Some(n))
    }

    fn send_now(&mut self, bytes: &[u8]) -> Result<Option<usize>, LinkFault> {
        let n = bytes.len().min(self.room).min(self.takes);
        if self.passes() {
            if n == 0 {
                return Ok(None);
            }
            if self.hears_so(&bytes[..n]) {
                self.room = self.room.saturating_sub(n);
                return Ok(Some(n));
            }
        }
        self.failures += 1;
        Err(LinkFault)
    }

    fn end_output(&mut self) {
        self.leaves |= self.follows;
    }

    fn failures(&self) -> u64 {
        self.failures
    }
}

/// A client that keeps what it hears.
#[derive(Drop)]
pub(crate) struct Noting<'a> {
    pub caller: Caller<'a>,
    pub heard: Vec<u8>,
    /// Whether there was no room for some of it.
    pub lost: bool,
}

impl<'a> Noting<'a> {
    pub(crate) fn new(alloc: Global, caller: Caller<'a>) -> Noting<'a> {
        Noting {
            caller,
            heard: Vec::new(alloc),
            lost: false,
        }
    }
}

impl<'a> ReadyLink for Noting<'a> {
    ghost fault_count = { λ l. l.caller.failures };

    fn recv_now(&mut self, buf: &mut [u8]) -> Result<Option<usize>, LinkFault> {
        self.caller.recv_now(buf)
    }

    fn send_now(&mut self, bytes: &[u8]) -> Result<Option<usize>, LinkFault> {
        match self.caller.send_now(bytes) {
            Ok(Some(n)) => {
                if self.heard.extend_from_slice(&bytes[..n]).is_err() {
                    self.lost = true;
                }
                Ok(Some(n))
            }
            Ok(None) => Ok(None),
            Err(fault) => Err(fault),
        }
    }

    fn end_output(&mut self) {
        self.caller.end_output();
    }

    fn failures(&self) -> u64 {
        self.caller.failures
    }
}

/// A turn of the connection, where both clocks say this moment; none where its link failed too often to count that.
pub(crate) fn turned<L: ReadyLink>(
    connection: &mut ServerConnection,
    link: &mut L,
    now: i64,
    patience: u64,
) -> Option<ReadyTurn> {
    turned_at(connection, link, now, now, patience)
}

/// The same, where the clock of the day and the steady one say these.
pub(crate) fn turned_at<L: ReadyLink>(
    connection: &mut ServerConnection,
    link: &mut L,
    day: i64,
    steady: i64,
    patience: u64,
) -> Option<ReadyTurn> {
    if link.failures() == u64::MAX {
        return None;
    }
    Some(connection.turn(link, &mut At(day), &mut At(steady), patience))
}
