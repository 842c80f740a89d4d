//! The messages that open, renew and close a secure channel.

ghost use Rattle.std.specs.Prelude.{◌≤◌, length};
ghost use Rattle.ua_value.specs.Format.{Gives, input_limit};
ghost use Rattle.ua_value.specs.Whole.{only};
ghost use Rattle.ua_service.specs.Channel.{open_request, lawful_open_request, open_response, lawful_open_response, close_request, lawful_close_request};
ghost use Rattle.ua_service.specs.ChannelMessages.{open_message, lawful_open, open_response_message, lawful_open_response_message, close_message, lawful_close};

use crate::body::{Body, id, read_fields_of};
use crate::brief::{BriefHeader, BriefResponseHeader};
use crate::encoding::{CLOSE_REQUEST, OPEN_REQUEST, OPEN_RESPONSE};
use crate::headers::{RequestHeader, ResponseHeader};
use crate::usual::four_byte_id;
use std::alloc::Global;
use ua_value::plumbing::{Fields, Parts, copy_two, read_whole};
use ua_value::{DateTime, NoMemory, ReadFault, Sink, UaBytes, Wire};

/// A request that a secure channel is opened or its token renewed (OPC 10000-4, 5.6.2).
#[derive(Debug, PartialEq, Eq, Drop)]
pub struct OpenRequest {
    pub header: RequestHeader,
    /// The version of the protocol; that of the client's Hello.
    pub client_protocol_version: u32,
    /// 0 to issue a token for a new channel, 1 to renew that of an open one; as it came.
    pub request_type: i32,
    /// 1 for none, 2 to sign, 3 to sign and encrypt; as it came.
    pub security_mode: i32,
    /// The client's part of the keys; null without security.
    pub client_nonce: UaBytes,
    /// How long the new token should live, in milliseconds.
    pub requested_lifetime: u32,
}

type OpenRequestFields = (RequestHeader, (u32, (i32, (i32, (UaBytes, u32)))));

#[tactic(auto, unfolding(crate::specs::Channel::open_request))]
impl Wire for OpenRequest {
    ghost format = { open_request };

    ghost most = { 10737418298 };

    ghost Grows = { Unit {0} };

    fn len(&self) -> u64 {
        self.header.len()
            + self.client_protocol_version.len()
            + self.request_type.len()
            + self.security_mode.len()
            + self.client_nonce.len()
            + self.requested_lifetime.len()
    }

    fn emit<S: Sink>(&self, out: &mut S) -> Result<(), NoMemory> {
        (
            &self.header,
            (
                &self.client_protocol_version,
                (
                    &self.request_type,
                    (
                        &self.security_mode,
                        (&self.client_nonce, &self.requested_lifetime),
                    ),
                ),
            ),
        )
            .emit_parts(out)
    }

    fn copy(&self) -> Result<OpenRequest, NoMemory> {
        let (header, client_nonce) = copy_two(&self.header, &self.client_nonce)?;
        Ok(OpenRequest {
            header,
            client_protocol_version: self.client_protocol_version,
            request_type: self.request_type,
            security_mode: self.security_mode,
            client_nonce,
            requested_lifetime: self.requested_lifetime,
        })
    }

    fn read_front(alloc: Global, input: &[u8]) -> Result<(OpenRequest, &[u8]), ReadFault> {
        match OpenRequestFields::read_fields(alloc, input) {
            Ok(
                (
                    (
                        header,
                        (
                            client_protocol_version,
                            (request_type, (security_mode, (client_nonce, requested_lifetime))),
                        ),
                    ),
                    rest,
                ),
            ) => Ok((
                OpenRequest {
                    header,
                    client_protocol_version,
                    request_type,
                    security_mode,
                    client_nonce,
                    requested_lifetime,
                },
                rest,
            )),
            Err(fault) => Err(fault),
        }
    }

    ghost laws = { lawful_open_request };
}

/// The token of a secure channel that was opened or renewed (OPC 10000-4, 5.6.2).
#[derive(Debug, Drop)]
pub struct OpenResponse {
    pub header: ResponseHeader,
    /// The version of the protocol; that of the server's Acknowledge.
    pub server_protocol_version: u32,
    /// The id of the channel.
    pub channel_id: u32,
    /// The id of the new token.
    pub token_id: u32,
    /// When the token was made.
    pub created_at: DateTime,
    /// How long the token lives, in milliseconds.
    pub revised_lifetime: u32,
    /// The server's part of the keys; null without security.
    pub server_nonce: UaBytes,
}

type OpenResponseFields = (
    ResponseHeader,
    (u32, (u32, (u32, (DateTime, (u32, UaBytes))))),
);

#[tactic(auto, unfolding(crate::specs::Channel::open_response))]
impl Wire for OpenResponse {
    ghost format = { open_response };

    ghost most = { 1152921725797665177 };

    ghost Grows = { Unit {0} };

    fn len(&self) -> u64 {
        self.header.len()
            + self.server_protocol_version.len()
            + self.channel_id.len()
            + self.token_id.len()
            + self.created_at.len()
            + self.revised_lifetime.len()
            + self.server_nonce.len()
    }

    fn emit<S: Sink>(&self, out: &mut S) -> Result<(), NoMemory> {
        (
            &self.header,
            (
                &self.server_protocol_version,
                (
                    &self.channel_id,
                    (
                        &self.token_id,
                        (
                            &self.created_at,
                            (&self.revised_lifetime, &self.server_nonce),
                        ),
                    ),
                ),
            ),
        )
            .emit_parts(out)
    }

    fn copy(&self) -> Result<OpenResponse, NoMemory> {
        let (header, server_nonce) = copy_two(&self.header, &self.server_nonce)?;
        Ok(OpenResponse {
            header,
            server_protocol_version: self.server_protocol_version,
            channel_id: self.channel_id,
            token_id: self.token_id,
            created_at: self.created_at,
            revised_lifetime: self.revised_lifetime,
            server_nonce,
        })
    }

    fn read_front(alloc: Global, input: &[u8]) -> Result<(OpenResponse, &[u8]), ReadFault> {
        match OpenResponseFields::read_fields(alloc, input) {
            Ok(
                (
                    (
                        header,
                        (
                            server_protocol_version,
                            (
                                channel_id,
                                (token_id, (created_at, (revised_lifetime, server_nonce))),
                            ),
                        ),
                    ),
                    rest,
                ),
            ) => Ok((
                OpenResponse {
                    header,
                    server_protocol_version,
                    channel_id,
                    token_id,
                    created_at,
                    revised_lifetime,
                    server_nonce,
                },
                rest,
            )),
            Err(fault) => Err(fault),
        }
    }

    ghost laws = { lawful_open_response };
}

/// A request that the secure channel is closed (OPC 10000-4, 5.6.3). It has no answer.
#[derive(Debug, PartialEq, Eq, Drop)]
pub struct CloseRequest {
    pub header: RequestHeader,
}

#[tactic(auto, unfolding(crate::specs::Channel::close_request))]
impl Wire for CloseRequest {
    ghost format = { close_request };

    ghost most = { 8589934631 };

    ghost Grows = { Unit {0} };

    fn len(&self) -> u64 {
        self.header.len()
    }

    fn emit<S: Sink>(&self, out: &mut S) -> Result<(), NoMemory> {
        self.header.emit(out)
    }

    fn copy(&self) -> Result<CloseRequest, NoMemory> {
        Ok(CloseRequest {
            header: self.header.copy()?,
        })
    }

    fn read_front(alloc: Global, input: &[u8]) -> Result<(CloseRequest, &[u8]), ReadFault> {
        let (header, rest) = RequestHeader::read_front(alloc, input)?;
        Ok((CloseRequest { header }, rest))
    }

    ghost laws = { lawful_close_request };
}

// The messages that the whole input has the fields of. Where the header is spelled as usual, it is made last, so that it
// is handed on once.

/// What stands behind the header of an open request.
type OpenRequestRest = (u32, (i32, (i32, (UaBytes, u32))));

/// What stands behind the header of an open response.
type OpenResponseRest = (u32, (u32, (u32, (DateTime, (u32, UaBytes)))));

#[tactic(auto, unfolding(crate::specs::Channel::open_request))]
fn whole_open_request(alloc: Global, fields: &[u8]) -> Result<OpenRequest, ReadFault>
    requires { length fields.now ≤ input_limit }
    ensures { Gives (λ v. v) result (only open_request.grammar fields.now) }
{
    let Some((brief, rest)) = BriefHeader::front(alloc, fields) else {
        return read_whole(alloc, fields);
    };
    match read_whole::<OpenRequestRest>(alloc, rest) {
        Ok(
            (
                client_protocol_version,
                (request_type, (security_mode, (client_nonce, requested_lifetime))),
            ),
        ) => Ok(OpenRequest {
            header: brief.header(),
            client_protocol_version,
            request_type,
            security_mode,
            client_nonce,
            requested_lifetime,
        }),
        Err(fault) => Err(fault),
    }
}

#[tactic(auto, unfolding(crate::specs::Channel::open_response))]
fn whole_open_response(alloc: Global, fields: &[u8]) -> Result<OpenResponse, ReadFault>
    requires { length fields.now ≤ input_limit }
    ensures { Gives (λ v. v) result (only open_response.grammar fields.now) }
{
    let Some((brief, rest)) = BriefResponseHeader::front(alloc, fields) else {
        return read_whole(alloc, fields);
    };
    match read_whole::<OpenResponseRest>(alloc, rest) {
        Ok(
            (
                server_protocol_version,
                (channel_id, (token_id, (created_at, (revised_lifetime, server_nonce)))),
            ),
        ) => Ok(OpenResponse {
            header: brief.header(),
            server_protocol_version,
            channel_id,
            token_id,
            created_at,
            revised_lifetime,
            server_nonce,
        }),
        Err(fault) => Err(fault),
    }
}

#[tactic(auto, unfolding(crate::specs::Channel::close_request))]
fn whole_close_request(alloc: Global, fields: &[u8]) -> Result<CloseRequest, ReadFault>
    requires { length fields.now ≤ input_limit }
    ensures { Gives (λ v. v) result (only close_request.grammar fields.now) }
{
    let Some((brief, rest)) = BriefHeader::front(alloc, fields) else {
        return read_whole(alloc, fields);
    };
    if rest.is_empty() {
        Ok(CloseRequest {
            header: brief.header(),
        })
    } else {
        Err(ReadFault::Refused)
    }
}

#[tactic(auto, unfolding(crate::specs::Message::message))]
impl Body for OpenRequest {
    ghost message = { open_message };

    fn body_len(&self) -> u64 {
        id(OPEN_REQUEST).len() + self.len()
    }

    fn emit_body<S: Sink>(&self, out: &mut S) -> Result<(), NoMemory> {
        (&id(OPEN_REQUEST), self).emit_parts(out)
    }

    fn parse_body(alloc: Global, input: &[u8]) -> Result<OpenRequest, ReadFault> {
        if let Some((number, fields)) = four_byte_id(input) {
            if number == OPEN_REQUEST {
                return whole_open_request(alloc, fields);
            }
        }
        read_fields_of(alloc, OPEN_REQUEST, input)
    }

    ghost laws = { lawful_open };
}

#[tactic(auto, unfolding(crate::specs::Message::message))]
impl Body for OpenResponse {
    ghost message = { open_response_message };

    fn body_len(&self) -> u64 {
        id(OPEN_RESPONSE).len() + self.len()
    }

    fn emit_body<S: Sink>(&self, out: &mut S) -> Result<(), NoMemory> {
        (&id(OPEN_RESPONSE), self).emit_parts(out)
    }

    fn parse_body(alloc: Global, input: &[u8]) -> Result<OpenResponse, ReadFault> {
        if let Some((number, fields)) = four_byte_id(input) {
            if number == OPEN_RESPONSE {
                return whole_open_response(alloc, fields);
            }
        }
        read_fields_of(alloc, OPEN_RESPONSE, input)
    }

    ghost laws = { lawful_open_response_message };
}

#[tactic(auto, unfolding(crate::specs::Message::message))]
impl Body for CloseRequest {
    ghost message = { close_message };

    fn body_len(&self) -> u64 {
        id(CLOSE_REQUEST).len() + self.len()
    }

    fn emit_body<S: Sink>(&self, out: &mut S) -> Result<(), NoMemory> {
        (&id(CLOSE_REQUEST), self).emit_parts(out)
    }

    fn parse_body(alloc: Global, input: &[u8]) -> Result<CloseRequest, ReadFault> {
        if let Some((number, fields)) = four_byte_id(input) {
            if number == CLOSE_REQUEST {
                return whole_close_request(alloc, fields);
            }
        }
        read_fields_of(alloc, CLOSE_REQUEST, input)
    }

    ghost laws = { lawful_close };
}
