//! What a client keeps of one connection.

ghost use Rattle.std.specs.Prelude.{◌≡◌, ◌≤◌, ◌<◌, ◌^◌, [], Some, true, max, length, is_some, slice_get, option_map, IfOk};
ghost use Rattle.ua_channel.specs.ClientChannel.{renewal_due};
ghost use Rattle.ua_channel.specs.Token.{newest_id};
ghost use Rattle.ua_chunk.specs.Half.{body_of};
ghost use Rattle.ua_chunk.specs.Numbers.{greatest_number};
ghost use Rattle.ua_conn.specs.BothEnds.{IsConfig};
ghost use Rattle.ua_conn.specs.client.Asking.{has_token_of};
ghost use Rattle.ua_conn.specs.client.Past.{client_known};

use crate::client::config::ClientConfig;
use crate::client::pending::Pending;
use std::alloc::Global;
use std::marker::Model;
use ua_channel::ClientChannel;
use ua_chunk::{Assembly, Sequence};
use ua_frame::Ack;
use ua_service::Request;
use ua_value::NoMemory;

/// The id of the first open request.
pub(crate) const FIRST_ID: u32 = 1;

/// What a client keeps of the frames that it took, what it waits for, and the numbers of the frames that it sends.
#[derive(Drop)]
pub(crate) struct Connection {
    pub(crate) alloc: Global,
    pub(crate) config: ClientConfig,
    /// The server opens the connection, and its ReverseHello has not come yet.
    pub(crate) reverse: bool,
    pub(crate) channel: ClientChannel,
    /// What the server agreed to, once it said so.
    pub(crate) ack: Option<Ack>,
    pub(crate) half: Assembly,
    pub(crate) pending: Pending,
    /// The id of the open request that is pending.
    pub(crate) due: Option<u32>,
    pub(crate) next: Sequence,
}

impl Model for Connection {
    ghost use Rattle.ua_conn.specs.client.Taking.{ClientRunning};
    ghost use Rattle.ua_conn.specs.client.Ranges.{IsRunning, client_running_of};
    ghost use Rattle.ua_conn.specs.client.Kept.{IsAll};

    ghost Value = { ClientRunning };

    ghost view = { λ c. client_running_of c.config c.reverse c.ack c.channel c.half.half c.pending.requests c.due c.next };

    ghost invariant = { λ c. IsRunning c.config c.ack c.half c.next (IsAll c) };
}

impl Connection {
    /// A connection over which nothing came yet, whose numbers begin with `first_sequence`; `reverse` says that the server
    /// opens it.
    pub(crate) fn new(
        alloc: Global,
        config: ClientConfig,
        reverse: bool,
        first_sequence: u32,
    ) -> Result<Connection, NoMemory>
        requires config { IsConfig config }
        requires first_least { 1 ≤ first_sequence }
        requires first_most { first_sequence ≤ greatest_number }
        ensures { IfOk result (λ c. c ≡ record { config = config; waits = record { reverse = reverse; known = client_known []; pending = []; due = Some 1 }; next = first_sequence; moment = 0 }) }
    {
        let half = Assembly::with_capacity(alloc, config.max_message, config.max_chunks)?;
        Ok(Connection {
            alloc,
            config,
            reverse,
            channel: ClientChannel::start(),
            ack: None,
            half,
            pending: Pending::new(alloc),
            due: Some(FIRST_ID),
            next: Sequence::starting_at(first_sequence),
        })
    }

    /// What is kept of a message is within the client's limit. A call does nothing: it is for proofs.
    pub(crate) fn keeps_limits(&self)
        ensures { length (body_of self.now.waits.known.half) ≤ self.now.config.max_message }
    {
        let _ = &self.half;
    }

    /// Whether a token was granted.
    pub(crate) fn has_token(&self) -> bool
        ensures { result ≡ has_token_of self.now.waits.known }
    {
        self.channel.is_open()
    }

    /// The token that the client sends with, of those that were granted. OPC 10000-4, 5.6.2.1.
    pub(crate) fn newest_token(&self) -> u32
        requires { has_token_of self.now.waits.known ≡ true }
        ensures { result ≡ newest_id self.now.waits.known.tokens }
    {
        self.channel.sending_token().unwrap()
    }

    /// Whether the newest token is to be renewed at the moment `now`. OPC 10000-6, 6.7.4.
    pub(crate) fn renew_due(&self, now: u64) -> bool
        requires stamp { now < 2 ^ 63 }
        requires later { self.now.moment ≤ now }
        ensures { result ≡ renewal_due self.now.waits.known.tokens now }
    {
        self.channel.renew_due(now as i64)
    }

    /// Whether an open request is pending.
    pub(crate) fn is_renewing(&self) -> bool
        ensures { result ≡ is_some self.now.waits.due }
    {
        self.due.is_some()
    }

    /// How many requests are pending.
    pub(crate) fn pending_count(&self) -> usize
        ensures { result ≡ length self.now.waits.pending }
    {
        self.pending.len()
    }

    /// The request at place `i`, from 0, of those that are pending, with its id.
    pub(crate) fn pending_at(&self, i: usize) -> Option<(u32, &Request)>
        ensures { option_map (λ p. (p.0, p.1.now)) result ≡ slice_get self.now.waits.pending i }
    {
        self.pending.at(i)
    }
}
