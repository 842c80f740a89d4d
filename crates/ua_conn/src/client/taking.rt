//! A whole frame that comes to a client.

ghost use Rattle.std.specs.Prelude.{◌≡◌, ◌≤◌, ◌<◌, ◌^◌, ℕ, None, List, Some};
ghost use Rattle.ua_frame.specs.Layout.{IsFrameOf};
ghost use Rattle.ua_frame.specs.HeaderRows.{header_fault};
ghost use Rattle.ua_conn.specs.client.Faults.{greatest_answer, is_awaited};
ghost use Rattle.ua_conn.specs.client.Effects.{Takes};

mod acknowledge;
mod error;
mod message;
mod opening;
mod reverse;

use crate::client::answer::Answer;
use crate::client::connection::Connection;
use crate::client::fault::ClientFault;
use crate::client::taking::error::server_said;
use crate::limits::GREATEST_FIRST_FRAME;
use ua_frame::status::BAD_TCP_MESSAGE_TYPE_INVALID;
use ua_frame::{Frame, Kind};

impl Connection {
    /// Bytes of the longest frame that is taken next.
    pub(crate) fn greatest_frame(&self) -> u32
        ensures is { result ≡ greatest_answer self.now.waits.known.ack }
        ensures within { result ≤ self.now.config.buffer }
    {
        match self.ack {
            None => GREATEST_FIRST_FRAME,
            Some(ack) => ack.send,
        }
    }

    /// Whether a frame of this type may come next: a ReverseHello where the server opens the connection, then an
    /// Acknowledge, then an OPN, then MSG, and OPN while a renewal is pending.
    fn awaits(&self, kind: Kind) -> bool
        ensures { result ≡ is_awaited self.now.waits.reverse self.now.waits.known self.now.waits.due (Some kind) }
    {
        if self.reverse {
            matches!(kind, Kind::ReverseHello)
        } else if self.ack.is_none() {
            matches!(kind, Kind::Acknowledge)
        } else if self.channel.is_open() {
            matches!(kind, Kind::Message) || (matches!(kind, Kind::Open) && self.due.is_some())
        } else {
            matches!(kind, Kind::Open)
        }
    }

    /// Takes a whole frame, no greater than `greatest_frame` and of a flag that its type has. Its last byte came at
    /// `now`, in ticks of 100 ns.
    ///
    /// The answers that it makes whole are put to `answers`, and what is asked for then is put to `out`. After a fault
    /// nothing was put to `out`. OPC 10000-6, 6.7 and 7.1; OPC 10000-4, 5.6.
    pub(crate) fn take(
        &mut self,
        frame: &Frame,
        now: u64,
        answers: &mut Vec<Answer>,
        out: &mut Vec<u8>,
    ) -> Result<(), ClientFault>
        requires moment { self.old.moment ≤ now }
        requires stamp { now < 2 ^ 63 }
        ensures took { (bytes : List ℕ) → IsFrameOf bytes frame.now → header_fault (greatest_answer self.old.waits.known.ack) bytes ≡ None →
            Takes self.old self.new (record { bytes = bytes; moment = now }) (record { bytes = out.old.items; answers = answers.old.items }) (record { bytes = out.new.items; answers = answers.new.items }) result }
        ensures moment { self.new.moment ≤ now }
        ensures config { self.new.config ≡ self.old.config }
    {
        let kind = frame.kind();
        if let Kind::Error = kind {
            return Err(server_said(self.alloc, frame));
        }
        if !self.awaits(kind) {
            return Err(ClientFault::Broken(BAD_TCP_MESSAGE_TYPE_INVALID));
        }
        match kind {
            Kind::ReverseHello => self.reverse_hello(frame, out),
            Kind::Acknowledge => self.acknowledge(frame, now, out),
            Kind::Open => self.opening(frame, now),
            Kind::Message => self.message(frame, now, answers),
            _ => Err(ClientFault::Broken(BAD_TCP_MESSAGE_TYPE_INVALID)),
        }
    }
}
