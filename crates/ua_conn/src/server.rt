//! The server's end of a connection.

ghost use Rattle.std.specs.Prelude.{◌≡◌, ◌<◌, ◌≤◌, ◌^◌, ◌↔◌, ◌++◌, [], true, false, not, None, Some, IfOk, OnErr, IsErrOf, is_ok, if◌then◌else◌};
ghost use Rattle.ua_frame.specs.Streams.{moment_of as counted};
ghost use Rattle.ua_conn.specs.server.Site.{Site};
ghost use Rattle.ua_conn.specs.server.Faults.{is_unopened};
ghost use Rattle.ua_conn.specs.server.Greeting.{greeting, reverse_fault};
ghost use Rattle.ua_conn.specs.server.Replies.{ended};
ghost use Rattle.ua_conn.specs.server.Held.{held};
ghost use Rattle.ua_conn.specs.server.Bound.{held_bytes, most_held};
ghost use Rattle.ua_conn.specs.server.Feeding.{FeedsAll, FeedsPartAll, left_of};

mod agreed;
mod answers;
mod connection;
mod conversation;
mod fault;
mod greeting;
mod hearing;

use crate::outcome::End;
use crate::server::connection::Connection;
use crate::server::greeting::greeting_url;
use crate::server::hearing::take_frames;
pub use conversation::{answer_all, answer_all_reverse, reply_all, reply_all_reverse};
pub use greeting::{ReverseFault, can_open};
use std::alloc::{AllocError, Global};
use std::marker::Model;
use ua_disco::Settings;
use ua_frame::{FrameBuf, later, write_reverse_hello};
use ua_service::Request;
use ua_value::NoMemory;
use ua_value::plumbing::let_go;

/// Why a piece was not taken.
#[derive(Clone, Copy, Debug, PartialEq, Eq)]
pub enum FeedFault {
    /// A growth was refused. The server has failed; what the output gained is whole frames.
    NoMemory,
    /// The server had failed or ended before, and nothing changed.
    Ended,
}

impl From<AllocError> for FeedFault {
    ghost use Rattle.ua_conn.specs.declared.server.FeedFault.TheVariants.{NoMemory as OutOfMemory};

    ghost from_gives = { λ _ e. e ≡ OutOfMemory };

    fn from(_e: AllocError) -> FeedFault {
        FeedFault::NoMemory
    }
}

/// What a piece brought.
#[derive(Drop)]
pub struct Fed {
    /// The requests that it made whole, in their order. Each was answered.
    pub requests: Vec<Request>,
    /// How the connection ended with it: [`End::Closed`] or [`End::Refused`], or not at all.
    pub end: Option<End>,
}

/// The server's end of one connection.
///
/// It takes the client's bytes in any pieces, keeps those of a frame that is not whole yet, and appends what it
/// says to an output of the caller's. OPC 10000-6, 6.7 and 7.1.
#[derive(Drop)]
pub struct Server<'a> {
    alloc: Global,
    connection: Connection<'a>,
    /// What came and is not used yet.
    buffer: FrameBuf,
    moment: u64,
    failed: bool,
}

impl<'a> Model for Server<'a> {
    ghost use Rattle.ua_conn.specs.server.Feeding.{Shown};

    ghost Value = { Shown };

    ghost use Rattle.ua_conn.specs.server.Bound.{IsServer};

    ghost view = { λ s. record {
      site = s.connection.site;
      held = record { known = s.connection.known; next = s.connection.next; moment = s.moment; rest = s.buffer.bytes };
      failed = s.failed;
    } };

    ghost invariant = { IsServer };
}

impl<'a> Server<'a> {
    /// A server that has heard nothing yet, for the channel with this id, which is not 0. OPC 10000-6, 6.7 and 7.1.
    ///
    /// # Errors
    ///
    /// `NoMemory` where a growth was refused.
    pub fn new(
        alloc: Global,
        settings: &'a Settings,
        channel_id: u32,
    ) -> Result<Server<'a>, NoMemory>
        requires { 0 < channel_id }
        ensures { IfOk result (λ server. let site : Site = record { settings = settings.now; channel = channel_id } in
            server ≡ record { site = site; held = held site []; failed = false }) }
    {
        let limits = settings.limits();
        let buffer = FrameBuf::with_capacity(alloc, limits.receive as usize)?;
        let connection = Connection::new(alloc, settings, channel_id)?;
        connection.keeps_limits();
        Ok(Server {
            alloc,
            connection,
            buffer,
            moment: 0,
            failed: false,
        })
    }

    /// A server that opened the connection itself, for the channel with this id, which is not 0: `out` gains one
    /// ReverseHello with the URI of its application and the url of its first endpoint, by which the client is to say
    /// Hello. Of what comes then it takes what any server takes. OPC 10000-6, 7.1.2.6.
    ///
    /// # Errors
    ///
    /// The first of these that holds: `NoEndpoint` where the settings have none; `TooLarge` where the frame would have
    /// more than 8192 bytes; `NoMemory` where a growth was refused. `out` is then unchanged.
    pub fn new_reverse(
        alloc: Global,
        settings: &'a Settings,
        channel_id: u32,
        out: &mut Vec<u8>,
    ) -> Result<Server<'a>, ReverseFault>
        requires { 0 < channel_id }
        ensures server { IfOk result (λ server. let site : Site = record { settings = settings.now; channel = channel_id } in
            server ≡ record { site = site; held = held site []; failed = false }) }
        ensures said { out.new.items ≡ (if is_ok result then out.old.items ++ greeting true settings.now else out.old.items) }
        ensures no_endpoint { IsErrOf result ReverseFault.NoEndpoint ↔ (reverse_fault settings.now ≡ Some ReverseFault.NoEndpoint) }
        ensures too_large { IsErrOf result ReverseFault.TooLarge ↔ (reverse_fault settings.now ≡ Some ReverseFault.TooLarge) }
    {
        let url = greeting_url(settings)?;
        let server = Server::new(alloc, settings, channel_id)?;
        match write_reverse_hello(settings.first_uri(), url, out) {
            Ok(()) => Ok(server),
            Err(_) => {
                let_go(server);
                Err(ReverseFault::NoMemory)
            }
        }
    }

    /// Takes one more piece, which came at `now`: ticks of 100 ns since 1601-01-01 UTC. A moment before 0, or before
    /// that of an earlier piece, counts as that. OPC 10000-6, 6.7.2 to 6.7.4 and 7.1.2.3 to 7.1.2.5; OPC 10000-4, 5.6.2
    /// and 5.6.3.
    ///
    /// `out` gains what the server says to the piece: an Acknowledge, open responses, answers, or one error where a
    /// frame is refused. The result has the requests that the piece made whole, and the end that it brings, if any: a
    /// close, or a refusal with its status, as the table of docs/PROTOCOL.md says. The server takes no more after an
    /// end.
    ///
    /// # Errors
    ///
    /// `Ended` exactly where the server took no more already; nothing has changed then. Else `NoMemory` where a growth
    /// was refused: `out` has then gained whole frames that begin what the piece is answered, the requests of the piece
    /// are dropped, and the server takes no more. A frame that is refused is no error of this call.
    pub fn feed(&mut self, now: i64, piece: &[u8], out: &mut Vec<u8>) -> Result<Fed, FeedFault>
        ensures fed { IfOk result (λ fed. FeedsAll self.old (record { moment = counted now; bytes = piece.now }) out.old.items out.new.items fed.requests.items fed.end self.new) }

        // Want of memory and an end before this piece.
        ensures part { IsErrOf result FeedFault.NoMemory → FeedsPartAll self.old (record { moment = counted now; bytes = piece.now }) out.old.items out.new.items }
        ensures failed { OnErr result (self.new.failed ≡ true) }
        ensures ended { IsErrOf result FeedFault.Ended ↔ (self.old.failed ≡ true) }
        ensures unchanged { self.old.failed ≡ true → (self.new ≡ self.old) × (out.new.items ≡ out.old.items) }

        // Without an end, what is left of the input is what its whole frames leave, whatever came before.
        ensures rest { IfOk result (λ fed. fed.end ≡ None → self.new.held.rest ≡ left_of (self.old.held.rest ++ piece.now)) }

        // What is held of the input fits the room that was reserved once.
        ensures bound { held_bytes self.new.held ≤ most_held self.new.site.settings.limits }
    {
        if self.failed {
            return Err(FeedFault::Ended);
        }
        self.failed = true;
        let now = later(self.moment, now);
        let mut requests = Vec::new(self.alloc);
        let heard = take_frames(
            &mut self.connection,
            now,
            &mut self.buffer,
            piece,
            &mut requests,
            out,
        );
        self.connection.keeps_limits();
        let end = heard?;
        if end.is_some() {
            return Ok(Fed { requests, end });
        }
        self.moment = now;
        self.failed = false;
        Ok(Fed { requests, end })
    }

    /// Whether its channel is open: an OpenSecureChannel request was granted, so that requests may come. OPC 10000-4,
    /// 5.6.2.
    pub fn is_open(&self) -> bool
        ensures { result ≡ not (is_unopened self.now.held.known) }
    {
        self.connection.is_open()
    }

    /// How the connection ends where no more bytes come and no end came before.
    pub fn end_of_input(&self) -> End
        ensures { result ≡ ended None self.now.held.rest }
    {
        if self.buffer.is_empty() {
            End::InputEnded
        } else {
            End::Truncated
        }
    }
}
