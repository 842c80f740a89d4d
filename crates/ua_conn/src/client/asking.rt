//! Requests that a client sends, and the reasons against a command.

ghost use Rattle.std.specs.Prelude.{◌≡◌, ◌≤◌, ◌++◌, true, not, None, Some, length, if◌then◌else◌, IfOk, OnOk, IfErr, OnErr};
ghost use Rattle.ua_frame.specs.Streams.{moment_of as counted};
ghost use Rattle.ua_chunk.specs.Cut.{part_count, fill};
ghost use Rattle.ua_chunk.specs.Half.{body_of as body_bytes};
ghost use Rattle.ua_chunk.specs.Numbers.{most_part, number_after};
ghost use Rattle.ua_chunk.specs.Written.{message_frames};
ghost use Rattle.ua_channel.specs.Token.{newest_id};
ghost use Rattle.ua_service.specs.Requests.{canon_request};
ghost use Rattle.ua_conn.specs.client.Asking.{greatest_part, has_token_of, is_too_large as passes_limits};
ghost use Rattle.ua_conn.specs.client.Commands as commands;
ghost use Rattle.ua_conn.specs.client.Held.{standing_of};
ghost use Rattle.ua_conn.specs.client.Machine.{waiting_under};
ghost use Rattle.ua_conn.specs.client.Feeding.{AcceptsAll, RefusedBy};
ghost use Rattle.ua_conn.specs.client.Telling.{against, waits_for, waiting_to};

use crate::client::Client;
use crate::client::ask_fault::AskFault;
use crate::client::connection::Connection;
use crate::limits::is_over;
use ua_chunk::{CHUNK_HEADER, Head, chunk_count, write_message};
use ua_frame::later;
use ua_service::{Body, Request};

/// How many requests may be pending.
const MOST_PENDING: usize = 64;

/// The last request id.
const LAST_ID: u64 = 4_294_967_295;

impl Connection {
    /// Bytes of the longest part of a request that the server takes in one frame; 0 before the Acknowledge.
    fn greatest_part(&self) -> u32
        ensures part { result ≡ greatest_part self.now.waits.known.ack }
        ensures most { result ≤ most_part }
    {
        match &self.ack {
            None => 0,
            Some(ack) => ack.receive - CHUNK_HEADER,
        }
    }

    /// Whether a request has more bytes, or more parts, than the server takes. OPC 10000-6, 7.1.2.4.
    fn is_too_large(&self, request: &Request, part_limit: u32) -> bool
        requires { 1 ≤ part_limit }
        ensures { result ≡ passes_limits self.now.waits.known.ack part_limit request.now }
    {
        match &self.ack {
            None => false,
            Some(ack) => {
                let len = request.body_len();
                is_over(ack.max_message, len)
                    || is_over(ack.max_chunks, chunk_count(len, part_limit))
            }
        }
    }

    /// Asks a request under a new id, in parts of `part_limit` bytes. The request comes back where memory runs out, and
    /// nothing has changed then. OPC 10000-6, 6.7.2.
    fn ask(
        &mut self,
        id: u32,
        request: Request,
        part_limit: u32,
        out: &mut Vec<u8>,
    ) -> Result<(), Request>
        requires open { has_token_of self.old.waits.known ≡ true }
        requires some { 1 ≤ part_limit }
        requires most { part_limit ≤ most_part }
        ensures said { OnOk result (out.new.items ≡ out.old.items
            ++ message_frames self.old.waits.known.channel (newest_id self.old.waits.known.tokens) self.old.next 0 (fill id (canon_request request) part_limit)) }
        ensures after { OnOk result (waiting_under id self.old.waits.pending ≡ None →
            self.new ≡ waiting_to self.old (waits_for self.old.waits id request) (number_after self.old.next (part_count (length (canon_request request)) part_limit))) }
        ensures back { IfErr result (λ back. back ≡ request) }
        ensures unchanged { OnErr result (self.new ≡ self.old) }
        ensures unsaid { OnErr result (out.new.items ≡ out.old.items) }
        ensures moment { self.new.moment ≡ self.old.moment }
        ensures config { self.new.config ≡ self.old.config }
        ensures half { length (body_bytes self.new.waits.known.half) ≤ self.new.config.max_message }
    {
        let Ok(()) = self.pending.reserve() else {
            return Err(request);
        };
        let head = Head {
            channel: self.channel.id(),
            token: self.newest_token(),
            request_id: id,
        };
        match write_message(&request, &head, part_limit, &mut self.next, out) {
            Ok(()) => {
                self.pending.add(id, request);
                Ok(())
            }
            Err(_) => Err(request),
        }
    }
}

impl Client {
    /// The first reason against any command.
    fn against_any(&self) -> Option<AskFault>
        ensures { result ≡ (if self.now.failed then Some AskFault.Ended else (if not (standing_of self.now.held).channel_open then Some AskFault.NotOpen else None)) }
    {
        if self.failed {
            Some(AskFault::Ended)
        } else if self.closed || !self.connection.has_token() {
            Some(AskFault::NotOpen)
        } else {
            None
        }
    }

    /// The first reason against asking the request, in parts of `part_limit` bytes.
    fn against_asking(&self, request: &Request, part_limit: u32) -> Option<AskFault>
        ensures reason { result ≡ against self.now (commands.Ask request.now part_limit) }
        ensures most { result ≡ None → part_limit ≤ most_part }
    {
        let reason = self.against_any();
        if reason.is_some() {
            return reason;
        }
        if part_limit == 0 || part_limit > self.connection.greatest_part() {
            return Some(AskFault::BadPartLimit);
        }
        if self.connection.pending_count() >= MOST_PENDING {
            return Some(AskFault::TooManyPending);
        }
        if self.next_id > LAST_ID {
            return Some(AskFault::IdsSpent);
        }
        if self.connection.is_too_large(request, part_limit) {
            return Some(AskFault::TooLarge);
        }
        None
    }

    /// The first reason against a renewal.
    fn against_renewing(&self) -> Option<AskFault>
        ensures { result ≡ against self.now commands.Renew }
    {
        let reason = self.against_any();
        if reason.is_some() {
            return reason;
        }
        if self.connection.is_renewing() {
            return Some(AskFault::RenewPending);
        }
        if self.next_id > LAST_ID {
            return Some(AskFault::IdsSpent);
        }
        None
    }

    /// The first reason against closing.
    fn against_closing(&self) -> Option<AskFault>
        ensures { result ≡ against self.now commands.Close }
    {
        let reason = self.against_any();
        if reason.is_some() {
            return reason;
        }
        if self.connection.is_renewing() {
            return Some(AskFault::RenewPending);
        }
        if self.connection.pending_count() > 0 {
            return Some(AskFault::StillPending);
        }
        if self.next_id > LAST_ID {
            return Some(AskFault::IdsSpent);
        }
        None
    }

    /// Asks the request, in parts of `part_limit` bytes, at the moment `now`, in ticks of 100 ns since 1601-01-01 UTC.
    /// The result is its request id, and the output gains its frames. The header is sent as it is. OPC 10000-6, 6.7.2
    /// and 7.1.2.4.
    ///
    /// # Errors
    ///
    /// The request is handed back with the first reason that holds: `Ended` where the client has failed; `NotOpen`
    /// where the channel is not open; `BadPartLimit` where `part_limit` is 0, or more than the longest frame that the
    /// server takes less 24 bytes; `TooManyPending` where 64 requests are pending; `IdsSpent` where no request id is
    /// left; `TooLarge` where the request has more bytes, or more parts, than the server takes; `NoMemory` where a
    /// growth was refused. The contract promises this order of all but `NoMemory`. The client is as it was.
    pub fn ask(
        &mut self,
        now: i64,
        request: Request,
        part_limit: u32,
    ) -> Result<u32, (AskFault, Request)>
        ensures accepted { IfOk result (λ id. AcceptsAll self.old (counted now) (commands.Ask request part_limit) self.new) }
        ensures id { IfOk result (λ id. id ≡ self.old.held.next_id) }
        ensures refused { IfErr result (λ back. RefusedBy self.old (commands.Ask request part_limit) back.0) }
        ensures back { IfErr result (λ back. back.1 ≡ request) }
        ensures unchanged { OnErr result (self.new ≡ self.old) }
    {
        if let Some(fault) = self.against_asking(&request, part_limit) {
            return Err((fault, request));
        }
        let id = self.next_id as u32;
        match self
            .connection
            .ask(id, request, part_limit, &mut self.output)
        {
            Err(request) => Err((AskFault::NoMemory, request)),
            Ok(()) => {
                self.next_id += 1;
                self.moment = later(self.moment, now);
                Ok(id)
            }
        }
    }

    /// Asks for a new token, at the moment `now`, in ticks of 100 ns since 1601-01-01 UTC. The output gains the open
    /// request. OPC 10000-4, 5.6.2.
    ///
    /// # Errors
    ///
    /// The first reason that holds: `Ended` where the client has failed; `NotOpen` where the channel is not open;
    /// `RenewPending` where an open request is pending; `IdsSpent` where no request id is left; `NoMemory` where a
    /// growth was refused. The contract promises this order of all but `NoMemory`. The client is as it was.
    pub fn renew(&mut self, now: i64) -> Result<(), AskFault>
        ensures accepted { IfOk result (λ _. AcceptsAll self.old (counted now) commands.Renew self.new) }
        ensures refused { IfErr result (λ fault. RefusedBy self.old commands.Renew fault) }
        ensures unchanged { OnErr result (self.new ≡ self.old) }
    {
        if let Some(fault) = self.against_renewing() {
            return Err(fault);
        }
        let now = later(self.moment, now);
        let id = self.next_id as u32;
        self.connection.renew(id, now, &mut self.output)?;
        self.next_id += 1;
        self.moment = now;
        Ok(())
    }

    /// Closes the channel, at the moment `now`, in ticks of 100 ns since 1601-01-01 UTC. The output gains the close
    /// request, which has no answer. OPC 10000-4, 5.6.3.
    ///
    /// # Errors
    ///
    /// The first reason that holds: `Ended` where the client has failed; `NotOpen` where the channel is not open;
    /// `RenewPending` where an open request is pending; `StillPending` where a request is pending; `IdsSpent` where no
    /// request id is left; `NoMemory` where a growth was refused. The contract promises this order of all but
    /// `NoMemory`. The client is as it was.
    pub fn close(&mut self, now: i64) -> Result<(), AskFault>
        ensures accepted { IfOk result (λ _. AcceptsAll self.old (counted now) commands.Close self.new) }
        ensures refused { IfErr result (λ fault. RefusedBy self.old commands.Close fault) }
        ensures unchanged { OnErr result (self.new ≡ self.old) }
    {
        if let Some(fault) = self.against_closing() {
            return Err(fault);
        }
        let now = later(self.moment, now);
        let id = self.next_id as u32;
        self.connection.close(id, now, &mut self.output)?;
        self.closed = true;
        self.next_id += 1;
        self.moment = now;
        Ok(())
    }
}
