//! What a client says for itself.

ghost use Rattle.std.specs.Prelude.{◌≡◌, ◌≤◌, ◌<◌, ◌^◌, ◌++◌, true, is_ok, length, if◌then◌else◌};
ghost use Rattle.std.specs.Int.{w32, to_le_bytes};
ghost use Rattle.ua_value.specs.Text.{null};
ghost use Rattle.ua_chunk.specs.Half.{body_of as body_bytes};
ghost use Rattle.ua_chunk.specs.Numbers.{number_after};
ghost use Rattle.ua_chunk.specs.Written.{open_frame, close_frame};
ghost use Rattle.ua_channel.specs.Token.{newest_id};
ghost use Rattle.ua_frame.specs.Hello.{hello_frame};
ghost use Rattle.ua_conn.specs.client.Asker.{hello_to as said_to};
ghost use Rattle.ua_conn.specs.client.Asking.{has_token_of};
ghost use Rattle.ua_conn.specs.client.Questions.{open_asked_body, close_asked_body};
ghost use Rattle.ua_conn.specs.client.Telling.{request_type_of, numbered_to, waiting_to, waits_open};

use crate::client::config::ClientConfig;
use crate::client::connection::Connection;
use ua_chunk::{write_close, write_open};
use ua_frame::{Hello, VERSION};
use ua_service::encoding::{CLOSE_REQUEST, OPEN_REQUEST};
use ua_service::request_head;
use ua_value::plumbing::let_go;
use ua_value::{NoMemory, UaString};

/// The mode without security.
const NO_SECURITY: u8 = 1;

/// What a Hello of a client says, with this url. OPC 10000-6, 7.1.2.3.
pub(crate) fn hello_to(config: &ClientConfig, url: UaString) -> Hello
    ensures { result ≡ said_to config.now url }
{
    Hello {
        version: VERSION,
        receive: config.buffer,
        send: config.buffer,
        max_message: config.max_message,
        max_chunks: config.max_chunks,
        url,
    }
}

/// Writes the Hello that greets a server, with this url. After `NoMemory` nothing was written. OPC 10000-6, 7.1.2.3.
pub(crate) fn write_hello(
    config: &ClientConfig,
    url: UaString,
    out: &mut Vec<u8>,
) -> Result<(), NoMemory>
    ensures { out.new.items ≡ (if is_ok result then out.old.items ++ hello_frame (said_to config.now url) else out.old.items) }
{
    let hello = hello_to(config, url);
    let wrote = hello.write(out);
    let_go(hello);
    wrote
}

/// What an open request asks for. OPC 10000-4, 5.6.2.2, requestType.
#[derive(Clone, Copy)]
pub(crate) enum Asks {
    /// A first token.
    Issue,
    /// A further one.
    Renew,
}

/// The number of a request's type.
fn request_type(asks: Asks) -> u8
    ensures { result ≡ request_type_of asks }
{
    match asks {
        Asks::Issue => 0,
        Asks::Renew => 1,
    }
}

/// What an open request has behind its header: the version, the type, the mode without security, no nonce and the
/// lifetime.
fn open_asked_fields(asks: Asks, lifetime: u32) -> [u8; 20]
    ensures { result ≡ to_le_bytes w32 0 ++ to_le_bytes w32 (request_type_of asks) ++ to_le_bytes w32 1 ++ null ++ to_le_bytes w32 lifetime }
{
    let [v0, v1, v2, v3] = VERSION.to_le_bytes();
    let [l0, l1, l2, l3] = lifetime.to_le_bytes();
    [
        v0,
        v1,
        v2,
        v3,
        request_type(asks),
        0,
        0,
        0,
        NO_SECURITY,
        0,
        0,
        0,
        255,
        255,
        255,
        255,
        l0,
        l1,
        l2,
        l3,
    ]
}

/// The body of an open request, whose length never changes. OPC 10000-4, 5.6.2.
#[tactic(auto, unfolding(crate::specs::client::Questions::open_asked_body, ua_service::specs::Message::message, ua_service::specs::Channel::open_request, ua_value::specs::Number::unsigned, ua_value::specs::Number::signed, ua_value::specs::Text::bytes_of))]
fn open_asked_body(now: u64, id: u32, asks: Asks, lifetime: u32) -> [u8; 53]
    requires { now < 2 ^ 63 }
    ensures { result ≡ open_asked_body now id (request_type_of asks) lifetime }
{
    let mut body = [0; 53];
    let (head, fields) = body.split_at_mut(33);
    head.copy_from_slice(&request_head(OPEN_REQUEST, now as i64, id));
    fields.copy_from_slice(&open_asked_fields(asks, lifetime));
    body
}

/// The body of a close request, which is a header alone. OPC 10000-4, 5.6.3.
#[tactic(auto, unfolding(crate::specs::client::Questions::close_asked_body, ua_service::specs::Message::message, ua_service::specs::Channel::close_request))]
fn close_asked_body(now: u64, id: u32) -> [u8; 33]
    requires { now < 2 ^ 63 }
    ensures { result ≡ close_asked_body now id }
{
    request_head(CLOSE_REQUEST, now as i64, id)
}

impl Connection {
    /// Asks for a token at the moment `now`, over the channel with this id. After `NoMemory` nothing has changed.
    /// OPC 10000-4, 5.6.2.
    pub(crate) fn say_open(
        &mut self,
        channel: u32,
        id: u32,
        asks: Asks,
        now: u64,
        out: &mut Vec<u8>,
    ) -> Result<(), NoMemory>
        requires { now < 2 ^ 63 }
        ensures said { out.new.items ≡ (if is_ok result then out.old.items ++ open_frame channel self.old.next id (open_asked_body now id (request_type_of asks) self.old.config.lifetime) else out.old.items) }
        ensures after { self.new ≡ (if is_ok result then numbered_to self.old (number_after self.old.next 1) else self.old) }
    {
        let body = open_asked_body(now, id, asks, self.config.lifetime);
        write_open(channel, id, &body, &mut self.next, out)
    }

    /// Asks for a further token at the moment `now`. After `NoMemory` nothing has changed. OPC 10000-4, 5.6.2.
    pub(crate) fn renew(&mut self, id: u32, now: u64, out: &mut Vec<u8>) -> Result<(), NoMemory>
        requires { now < 2 ^ 63 }
        ensures said { out.new.items ≡ (if is_ok result then out.old.items ++ open_frame self.old.waits.known.channel self.old.next id (open_asked_body now id 1 self.old.config.lifetime) else out.old.items) }
        ensures after { self.new ≡ (if is_ok result then waiting_to self.old (waits_open self.old.waits id) (number_after self.old.next 1) else self.old) }
        ensures half { length (body_bytes self.new.waits.known.half) ≤ self.new.config.max_message }
    {
        let channel = self.channel.id();
        self.say_open(channel, id, Asks::Renew, now, out)?;
        self.due = Some(id);
        Ok(())
    }

    /// Closes the channel at the moment `now`. After `NoMemory` nothing has changed. OPC 10000-4, 5.6.3.
    pub(crate) fn close(&mut self, id: u32, now: u64, out: &mut Vec<u8>) -> Result<(), NoMemory>
        requires open { has_token_of self.old.waits.known ≡ true }
        requires stamp { now < 2 ^ 63 }
        ensures said { out.new.items ≡ (if is_ok result then out.old.items ++ close_frame self.old.waits.known.channel (newest_id self.old.waits.known.tokens) self.old.next id (close_asked_body now id) else out.old.items) }
        ensures after { self.new ≡ (if is_ok result then numbered_to self.old (number_after self.old.next 1) else self.old) }
        ensures half { length (body_bytes self.new.waits.known.half) ≤ self.new.config.max_message }
    {
        let body = close_asked_body(now, id);
        let channel = self.channel.id();
        let token = self.newest_token();
        write_close(channel, token, id, &body, &mut self.next, out)
    }
}
