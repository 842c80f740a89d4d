//! The server's channel.

ghost use Rattle.std.specs.Prelude.{◌≡◌, ◌<◌, ◌==◌, length, not, max, Ok, Err, Some, None, IfOk, IfErr, OnOk, OnErr};
ghost use Rattle.ua_frame.specs.Rows.{first_row};
ghost use Rattle.ua_frame.specs.Streams.{moment_of};
ghost use Rattle.ua_channel.specs.Token.{next_token};
ghost use Rattle.ua_channel.specs.Channel.{new_channel, numbered, renewed, heard, most};
ghost use Rattle.ua_channel.specs.Admission.{admit_open_rows, issue_rows, admit_rows};

use crate::newest::Newest;
use crate::rules::{judge, judge_open};
use crate::status::{
    BAD_REQUEST_TYPE_INVALID, BAD_SECURITY_MODE_REJECTED, BAD_TCP_NOT_ENOUGH_RESOURCES,
};
use crate::token::{Token, revised};
use std::marker::Model;
use ua_chunk::{Chunk, OpenChunk};
use ua_frame::later;
use ua_service::OpenRequest;

/// The security mode that signs and encrypts nothing.
const MODE_NONE: i32 = 1;
/// The request types that open a channel and that renew its token.
const ISSUE: i32 = 0;

const RENEW: i32 = 1;

/// What an open request is granted.
#[derive(Clone, Copy, Debug, PartialEq, Eq)]
pub struct Issued {
    /// The id of the new token.
    pub token: u32,
    /// Its lifetime in milliseconds.
    pub lifetime: u32,
}

/// The server's end of a channel, as contracts see it: its id, the two newest tokens, the last sequence number,
/// the greatest token that a message used, and the greatest moment that came.
#[derive(Debug, Drop)]
pub struct ServerChannel {
    id: u32,
    tokens: Newest,
    last: Option<u32>,
    used: Option<u32>,
    moment: u64,
}

impl Model for ServerChannel {
    ghost use Rattle.ua_channel.specs.Channel.{Shown};

    ghost Value = { Shown };

    ghost use Rattle.ua_channel.specs.Newest.{tokens_of};

    ghost view = { λ a. record {
      channel = record { id = a.id; tokens = tokens_of a.tokens; last = a.last; used = a.used };
      moment = a.moment;
    } };

    ghost use Rattle.ua_channel.specs.Held.{IsAll};

    ghost invariant = { IsAll };
}

impl ServerChannel {
    /// A channel with the id that the server gives it, before its first frame. OPC 10000-4, 5.6.2.
    pub fn start(id: u32) -> ServerChannel
        ensures { result ≡ record { channel = new_channel id; moment = 0 } }
    {
        ServerChannel {
            id,
            tokens: Newest::None,
            last: None,
            used: None,
            moment: 0,
        }
    }

    /// Admits an OPN frame, whose sequence number then counts as the last one. It takes no memory. OPC 10000-6, 6.7.2.3
    /// and 6.7.2.4.
    ///
    /// # Errors
    ///
    /// The status of the first of these that holds: `BAD_TCP_SECURE_CHANNEL_UNKNOWN` where the frame names another
    /// channel, which in the first frame is any but 0; `BAD_SECURITY_POLICY_REJECTED` where its policy is not None;
    /// `BAD_SEQUENCE_NUMBER_INVALID` where its sequence number does not follow the last one. Nothing has changed then.
    pub fn admit_open(&mut self, chunk: &OpenChunk) -> Result<(), u32>
        ensures refused { IfErr result (λ status.
            first_row (admit_open_rows self.old.channel chunk.now) ≡ Some status) }
        ensures admitted { OnOk result (
            first_row (admit_open_rows self.old.channel chunk.now) ≡ None) }
        ensures after { OnOk result (self.new ≡ record { channel = numbered self.old.channel chunk.now.sequence; moment = self.old.moment }) }
        ensures unchanged { OnErr result (self.new ≡ self.old) }
    {
        let awaited = if self.tokens.is_none() { 0 } else { self.id };
        judge_open(chunk.channel() != awaited, self.last, chunk)?;
        self.last = Some(chunk.sequence());
        Ok(())
    }

    /// Issues the next token to the open request of an admitted frame, at the moment `now`, in ticks of 100 ns since
    /// 1601-01-01 UTC. A moment before 0, or before that of an earlier call, counts as that. It takes no memory.
    /// OPC 10000-4, 5.6.2.
    ///
    /// # Errors
    ///
    /// The status of the first of these that holds: `BAD_REQUEST_TYPE_INVALID` where the request does not ask to issue
    /// the first token, or to renew a later one; `BAD_SECURITY_MODE_REJECTED` where its security mode is not None;
    /// `BAD_TCP_NOT_ENOUGH_RESOURCES` where no token id is left. Nothing has changed then, and no moment is left
    /// behind.
    pub fn issue(&mut self, request: &OpenRequest, now: i64) -> Result<Issued, u32>
        ensures refused { IfErr result (λ status.
            first_row (issue_rows self.old.channel request.now) ≡ Some status) }
        ensures admitted { OnOk result (first_row (issue_rows self.old.channel request.now) ≡ None) }
        ensures issued { IfOk result (λ issued. let token = next_token self.old.channel.tokens (max self.old.moment (moment_of now)) request.now.requested_lifetime in
            issued ≡ record { token = token.id; lifetime = token.lifetime }) }
        ensures after { OnOk result (let at = max self.old.moment (moment_of now) in
            self.new ≡ record { channel = renewed self.old.channel at request.now.requested_lifetime; moment = at }) }
        ensures unchanged { OnErr result (self.new ≡ self.old) }
    {
        let awaited = if self.tokens.is_none() { ISSUE } else { RENEW };
        if request.request_type != awaited {
            return Err(BAD_REQUEST_TYPE_INVALID);
        }
        if request.security_mode != MODE_NONE {
            return Err(BAD_SECURITY_MODE_REJECTED);
        }
        let Some(id) = self.tokens.newest_id().checked_add(1) else {
            return Err(BAD_TCP_NOT_ENOUGH_RESOURCES);
        };
        let lifetime = revised(request.requested_lifetime);
        self.moment = later(self.moment, now);
        self.tokens = self.tokens.followed_by(Token {
            id,
            issued: self.moment,
            lifetime,
        });
        Ok(Issued {
            token: id,
            lifetime,
        })
    }

    /// Admits a MSG or CLO frame whose last byte came at the moment `now`, in ticks of 100 ns since 1601-01-01 UTC. Its
    /// sequence number then counts as the last one, and its token as used. A moment before 0, or before that of an
    /// earlier call, counts as that. It takes no memory. OPC 10000-6, 6.7.2.3 and 6.7.2.4; OPC 10000-4, 5.6.2.1.
    ///
    /// # Errors
    ///
    /// The status of the first of these that holds: `BAD_TCP_SECURE_CHANNEL_UNKNOWN` where the frame names another
    /// channel; `BAD_SECURE_CHANNEL_TOKEN_UNKNOWN` where its token is not one of the two newest, or no longer alive;
    /// `BAD_SEQUENCE_NUMBER_INVALID` where its sequence number does not follow the last one. Nothing has changed then,
    /// and no moment is left behind.
    #[inline(always)]
    pub fn admit(&mut self, chunk: &Chunk, now: i64) -> Result<(), u32>
        ensures refused { IfErr result (λ status.
            first_row (admit_rows self.old.channel chunk.now.chunk (max self.old.moment (moment_of now))) ≡ Some status) }
        ensures admitted { OnOk result (
            first_row (admit_rows self.old.channel chunk.now.chunk (max self.old.moment (moment_of now))) ≡ None) }
        ensures after { OnOk result (
            self.new ≡ record { channel = heard self.old.channel chunk.now.chunk.token chunk.now.chunk.sequence; moment = max self.old.moment (moment_of now) }) }
        ensures unchanged { OnErr result (self.new ≡ self.old) }
    {
        let now = later(self.moment, now);
        judge(self.id, self.tokens, self.last, chunk, now)?;
        self.last = Some(chunk.sequence());
        note_used(&mut self.used, chunk.token());
        self.moment = now;
        Ok(())
    }

    /// Whether a token was issued, so that messages may come. OPC 10000-4, 5.6.2.
    pub fn is_open(&self) -> bool
        ensures { result ≡ not (length self.now.channel.tokens == 0) }
    {
        !self.tokens.is_none()
    }

    /// The token that the server sends with: the newest that the client has used. None before it used one.
    /// OPC 10000-4, 5.6.2.1.
    pub fn sending_token(&self) -> Option<u32>
        ensures { result ≡ self.now.channel.used }
    {
        self.used
    }
}

/// Notes that a message used the token.
fn note_used(used: &mut Option<u32>, token: u32)
    ensures { used.new ≡ Some (most used.old token) }
{
    *used = match *used {
        None => Some(token),
        Some(greatest) => Some(greatest.max(token)),
    };
}
