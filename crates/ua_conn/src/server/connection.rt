//! One connection of a server, a whole frame at a time.

ghost use Rattle.std.specs.Prelude.{◌≡◌, ◌≤◌, ◌<◌, ◌^◌, ℕ, [], None, List, length, not, IfOk, OnErr, Some};
ghost use Rattle.ua_frame.specs.Layout.{IsFrameOf};
ghost use Rattle.ua_frame.specs.HeaderRows.{header_fault};
ghost use Rattle.ua_chunk.specs.Half.{body_of};
ghost use Rattle.ua_conn.specs.server.Held.{held};
ghost use Rattle.ua_conn.specs.server.Faults.{greatest_frame, is_allowed, is_unopened};
ghost use Rattle.ua_conn.specs.server.Settled.{settled};
ghost use Rattle.ua_conn.specs.server.Taking.{Takes};

mod admission;
mod close;
mod hello;
mod message;
mod opening;

use crate::limits::GREATEST_FIRST_FRAME;
use crate::server::agreed::Agreed;
use crate::server::fault::Fault;
use std::alloc::{AllocError, Global};
use std::marker::Model;
use ua_channel::ServerChannel;
use ua_chunk::{Assembly, Sequence};
use ua_disco::Settings;
use ua_frame::status::BAD_TCP_MESSAGE_TYPE_INVALID;
use ua_frame::{Frame, Kind};
use ua_service::Request;
use ua_value::NoMemory;

/// What a whole frame did.
#[derive(Clone, Copy)]
pub(crate) enum Taken {
    /// It was taken, and more may come.
    GoesOn,
    /// It closed the connection. OPC 10000-4, 5.6.3.
    Closed,
    /// It was refused with this status.
    Refused(u32),
}

/// What a server keeps of the frames that it took.
#[derive(Drop)]
pub(crate) struct Connection<'a> {
    alloc: Global,
    settings: &'a Settings,
    id: u32,
    channel: ServerChannel,
    agreed: Option<Agreed>,
    half: Assembly,
    next: Sequence,
}

impl<'a> Model for Connection<'a> {
    ghost use Rattle.ua_conn.specs.server.Taking.{Running};
    ghost use Rattle.ua_conn.specs.server.Ranges.{IsConnection, running_of};
    ghost use Rattle.ua_conn.specs.server.Kept.{IsAll};

    ghost Value = { Running };

    ghost view = { λ c. running_of c.settings.now c.id c.agreed c.channel c.half.half c.next };

    ghost invariant = { λ c. IsConnection c.settings.now.limits c.channel.channel.id c.id c.agreed c.half c.next (IsAll c) };
}

impl<'a> Connection<'a> {
    /// A connection over which nothing came yet.
    pub(crate) fn new(
        alloc: Global,
        settings: &'a Settings,
        channel_id: u32,
    ) -> Result<Connection<'a>, NoMemory>
        ensures { IfOk result (λ c. let h = held (record { settings = settings.now; channel = channel_id }) [] in
            c ≡ record { site = record { settings = settings.now; channel = channel_id }; known = h.known; next = h.next; moment = 0 }) }
    {
        let limits = settings.limits();
        let half = Assembly::with_capacity(alloc, limits.max_message, limits.max_chunks)?;
        Ok(Connection {
            alloc,
            settings,
            id: channel_id,
            channel: ServerChannel::start(channel_id),
            agreed: None,
            half,
            next: Sequence::starting_at(1),
        })
    }

    /// Bytes of the longest frame that is taken next.
    pub(crate) fn greatest_frame(&self) -> u32
        ensures is { result ≡ greatest_frame self.now.known.limits }
        ensures within { result ≤ self.now.site.settings.limits.receive }
    {
        match self.agreed {
            None => GREATEST_FIRST_FRAME,
            Some(agreed) => agreed.ack.receive,
        }
    }

    /// What is kept of a message is within the server's limit. A call does nothing: it is for proofs.
    pub(crate) fn keeps_limits(&self)
        ensures { length (body_of self.now.known.half) ≤ self.now.site.settings.limits.max_message }
    {
        let _ = &self.half;
    }

    /// Whether a token was issued, so that messages may come. OPC 10000-4, 5.6.2.
    pub(crate) fn is_open(&self) -> bool
        ensures { result ≡ not (is_unopened self.now.known) }
    {
        self.channel.is_open()
    }

    /// Whether a frame of this type may come next: first a Hello, then an OPN, then MSG, OPN and CLO.
    fn allows(&self, kind: Kind) -> bool
        ensures { result ≡ is_allowed self.now.known (Some kind) }
    {
        if self.agreed.is_none() {
            matches!(kind, Kind::Hello)
        } else if self.is_open() {
            matches!(kind, Kind::Open | Kind::Message | Kind::Close)
        } else {
            matches!(kind, Kind::Open)
        }
    }

    /// Takes a whole frame, no greater than `greatest_frame` and of a flag that its type has. Its last byte came at
    /// `now`, in ticks of 100 ns.
    ///
    /// The requests that it makes whole are put to `asked`, and what is said is put to `out`. After a refusal nothing
    /// was said, and after `NoMemory` neither. OPC 10000-6, 6.7 and 7.1; OPC 10000-4, 5.6.
    pub(crate) fn take(
        &mut self,
        frame: &Frame,
        now: u64,
        asked: &mut Vec<Request>,
        out: &mut Vec<u8>,
    ) -> Result<Taken, NoMemory>
        requires moment { self.old.moment ≤ now }
        requires stamp { now < 2 ^ 63 }
        ensures took { IfOk result (λ taken. (bytes : List ℕ) → IsFrameOf bytes frame.now → header_fault (greatest_frame self.old.known.limits) bytes ≡ None →
            Takes self.old self.new (record { bytes = bytes; moment = now }) (record { bytes = out.old.items; asked = asked.old.items }) (record { bytes = out.new.items; asked = asked.new.items }) taken) }
        ensures part { OnErr result (out.new.items ≡ out.old.items) }
        ensures moment { self.new.moment ≤ now }
        ensures site { self.new.site ≡ self.old.site }
    {
        let kind = frame.kind();
        if !self.allows(kind) {
            return Ok(Taken::Refused(BAD_TCP_MESSAGE_TYPE_INVALID));
        }
        match kind {
            Kind::Hello => settle(self.hello(frame, out), Taken::GoesOn),
            Kind::Open => settle(self.issue(frame, now, out), Taken::GoesOn),
            Kind::Message => settle(self.message(frame, now, asked, out), Taken::GoesOn),
            Kind::Close => settle(self.close(frame, now), Taken::Closed),
            _ => Ok(Taken::Refused(BAD_TCP_MESSAGE_TYPE_INVALID)),
        }
    }
}

/// What a frame did, where `good` is what it does unless it is refused.
fn settle(done: Result<(), Fault>, good: Taken) -> Result<Taken, NoMemory>
    ensures { result ≡ settled done good }
{
    match done {
        Ok(()) => Ok(good),
        Err(Fault::Refused(status)) => Ok(Taken::Refused(status)),
        Err(Fault::NoMemory) => Err(AllocError),
    }
}
