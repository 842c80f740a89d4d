//! The link of a connection that is over, which is read a while longer. A system that closes a link with bytes unread may
//! take back what the client has not read yet, and that is the server's last word.

ghost use Rattle.std.specs.Prelude.{◌≡◌, ◌-◌, ◌<◌, ◌^◌, max};
ghost use Rattle.ua_frame.specs.Streams.{moment_of};
ghost use Rattle.ua_serve.specs.Turn.{seen_by};
ghost use Rattle.ua_serve.specs.Lingering.{lingers, from_now, second_left, Drains, Lingers};

use ua_conn::End;
use ua_frame::{later, moment_at};
use ua_link::{Over, ReadyLink};

/// The ticks of 100 ns for which a link lingers: a second.
const SECOND: u64 = 10_000_000;

/// The bytes that are dropped at the most, but for those of the last read.
const MOST_DROPPED: u64 = 65_536;

/// The most bytes of one read.
const MOST_READ: usize = 4096;

/// The link of a connection that is over, whose last word is out: nothing is written any more, and what comes is dropped.
#[derive(Drop)]
pub(crate) struct LingeringLink<L> {
    link: L,
    /// The moment at which that began.
    begun: u64,
    /// The bytes that were dropped.
    dropped: u64,
}

/// Whether the link of a connection lingers that is over so: its last word is out, and its client may still speak.
pub(crate) fn lingers(over: Over) -> bool
    ensures { result ≡ lingers over }
{
    match over {
        Over::Ended(End::Closed | End::Refused(_) | End::TurnsSpent) => true,
        Over::Ended(End::InputEnded | End::Truncated | End::LinkFailed | End::NoMemory) => false,
        Over::TimedOut => false,
    }
}

impl<L> LingeringLink<L> {
    /// This link from now on.
    pub(crate) fn new(link: L, now: i64) -> LingeringLink<L>
        ensures { result ≡ from_now link now }
    {
        LingeringLink {
            link,
            begun: moment_at(now),
            dropped: 0,
        }
    }

    /// The ticks for which it may still linger.
    pub(crate) fn left(&self, now: i64) -> u64
        ensures { result ≡ second_left self.now now }
    {
        SECOND.saturating_sub(later(self.begun, now) - self.begun)
    }
}

impl<L: ReadyLink> LingeringLink<L> {
    /// Reads once and drops what came. The answer says whether more may be there at once; none where the link is to be let
    /// go of, since the input ended, the read failed, or 64 KiB came.
    fn drain(&mut self) -> Option<bool>
        requires { L.fault_count self.old.link < 2 ^ 64 - 1 }
        ensures { Drains (seen_by L.input L.output L.fault_count) L.tried self.old self.new result }
    {
        let mut room = [0u8; MOST_READ];
        match self.link.recv_now(&mut room) {
            Ok(Some(n)) => {
                self.dropped = self.dropped.saturating_add(n as u64);
                if n > 0 && self.dropped < MOST_DROPPED {
                    Some(true)
                } else {
                    None
                }
            }
            Ok(None) => Some(false),
            Err(_) => None,
        }
    }

    /// A step of this link, which may do something now or not: one read at the most. The answer says whether more may be
    /// there at once; none where the link is to be let go of, since its time is over, or as `drain` says.
    pub(crate) fn step(&mut self, is_ready: bool, now: i64) -> Option<bool>
        ensures { Lingers (seen_by L.input L.output L.fault_count) L.tried now is_ready self.old self.new result }
    {
        if self.left(now) == 0 || self.link.failures() == u64::MAX {
            return None;
        }
        if !is_ready {
            return Some(false);
        }
        self.drain()
    }
}
