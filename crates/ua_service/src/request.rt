//! Requests.

ghost use Rattle.std.specs.Prelude.{◌≡◌, ◌≤◌, ◌⊎◌, ◌↔◌, Some, None, IfSome, IfOk, length};
ghost use Rattle.ua_value.specs.Format.{Gives, input_limit};
ghost use Rattle.ua_service.specs.Brief.{header_of};
ghost use Rattle.ua_service.specs.Headers.{request_header};
ghost use Rattle.ua_service.specs.Message.{id_of};
ghost use Rattle.ua_service.specs.OtherFields.{IsOtherId};
ghost use Rattle.ua_service.specs.Requests.{request_message, request_of, find_servers_of, get_endpoints_of, other_of};
ghost use Rattle.ua_service.specs.RequestLaws.{lawful_request};

use crate::body::{Body, id, is};
use crate::brief::BriefHeader;
use crate::discovery::{FindServersRequest, GetEndpointsRequest};
use crate::encoding::{FIND_SERVERS_REQUEST, GET_ENDPOINTS_REQUEST};
use crate::headers::RequestHeader;
use crate::other::OtherRequest;
use crate::usual::four_byte_id;
use std::alloc::Global;
use ua_value::plumbing::{Parts, read_whole};
use ua_value::{Array, Emit, NoMemory, NodeId, ReadFault, Sink, UaString, Wire};

/// What a client asks for over an open channel.
#[derive(Debug, Drop)]
pub enum Request {
    /// For the servers that are known (OPC 10000-4, 5.5.2).
    FindServers(FindServersRequest),
    /// For the endpoints of a server (OPC 10000-4, 5.5.4).
    GetEndpoints(GetEndpointsRequest),
    /// For anything else.
    Other(OtherRequest),
}

impl Request {
    /// The request of another service under this id. `None` exactly for the ids of the requests
    /// that have a case of their own: the numbers 422 and 428 in namespace 0. It takes no memory.
    #[tactic(auto, using(crate::specs::MessageLaws::unlike, crate::specs::MessageLaws::known))]
    pub fn other(type_id: NodeId, header: RequestHeader, rest: Vec<u8>) -> Option<Request>
        ensures made { IfSome result (λ m. m ≡ Request.Other (record { type_id = type_id; header = header; rest = rest.items })) }
        ensures none { (result ≡ None) ↔ ((type_id ≡ id_of 422) ⊎ (type_id ≡ id_of 428)) }
    {
        if is(&type_id, FIND_SERVERS_REQUEST) || is(&type_id, GET_ENDPOINTS_REQUEST) {
            return None;
        }
        Some(Request::Other(OtherRequest::new(type_id, header, rest)))
    }

    /// An equal request, with memory of its own.
    ///
    /// # Errors
    ///
    /// `NoMemory` where a growth was refused.
    pub fn copy(&self) -> Result<Request, NoMemory>
        ensures { IfOk result (λ m. m ≡ self.now) }
    {
        match self {
            Request::FindServers(fields) => Ok(Request::FindServers(fields.copy()?)),
            Request::GetEndpoints(fields) => Ok(Request::GetEndpoints(fields.copy()?)),
            Request::Other(other) => Ok(Request::Other(other.copy()?)),
        }
    }
}

/// What stands behind the header of both requests.
type UrlAndLists = (UaString, (Array<UaString>, Array<UaString>));

// The request of each kind that the whole input has the fields of. They stand apart, and out of line, so that reading one
// does not make room for the others.

/// The request for servers under a header in any spelling.
#[inline(never)]
fn any_find_servers(alloc: Global, fields: &[u8]) -> Result<Request, ReadFault>
    requires { length fields.now ≤ input_limit }
    ensures { Gives (λ v. v) result (find_servers_of fields.now) }
{
    Ok(Request::FindServers(read_whole(alloc, fields)?))
}

/// The request for servers, of which the fields are the header and the rest.
#[tactic(auto, unfolding(crate::specs::Discovery::find_servers_request))]
#[inline(never)]
fn find_servers(
    alloc: Global,
    fields: &[u8],
    brief: BriefHeader,
    rest: &[u8],
) -> Result<Request, ReadFault>
    requires header { request_header.grammar.front fields.now ≡ Some (header_of brief, rest.now) }
    requires few { length rest.now ≤ input_limit }
    ensures { Gives (λ v. v) result (find_servers_of fields.now) }
{
    match read_whole::<UrlAndLists>(alloc, rest) {
        Ok((endpoint_url, (locale_ids, server_uris))) => Ok(Request::FindServers(
            FindServersRequest {
                header: brief.header(),
                endpoint_url,
                locale_ids,
                server_uris,
            },
        )),
        Err(fault) => Err(fault),
    }
}

/// The request for endpoints under a header in any spelling.
#[inline(never)]
fn any_get_endpoints(alloc: Global, fields: &[u8]) -> Result<Request, ReadFault>
    requires { length fields.now ≤ input_limit }
    ensures { Gives (λ v. v) result (get_endpoints_of fields.now) }
{
    Ok(Request::GetEndpoints(read_whole(alloc, fields)?))
}

/// The request for endpoints, of which the fields are the header and the rest.
#[tactic(auto, unfolding(crate::specs::Discovery::get_endpoints_request))]
#[inline(never)]
fn get_endpoints(
    alloc: Global,
    fields: &[u8],
    brief: BriefHeader,
    rest: &[u8],
) -> Result<Request, ReadFault>
    requires header { request_header.grammar.front fields.now ≡ Some (header_of brief, rest.now) }
    requires few { length rest.now ≤ input_limit }
    ensures { Gives (λ v. v) result (get_endpoints_of fields.now) }
{
    match read_whole::<UrlAndLists>(alloc, rest) {
        Ok((endpoint_url, (locale_ids, profile_uris))) => Ok(Request::GetEndpoints(
            GetEndpointsRequest {
                header: brief.header(),
                endpoint_url,
                locale_ids,
                profile_uris,
            },
        )),
        Err(fault) => Err(fault),
    }
}

/// The request of another service, under its id.
#[inline(never)]
fn other(alloc: Global, type_id: NodeId, fields: &[u8]) -> Result<Request, ReadFault>
    requires id { IsOtherId type_id }
    requires few { length fields.now ≤ input_limit }
    ensures { Gives (λ v. v) result (other_of type_id fields.now) }
{
    let (header, rest) = RequestHeader::read_front(alloc, fields)?;
    let rest = rest.to_vec(alloc)?;
    Ok(Request::Other(OtherRequest::new(type_id, header, rest)))
}

/// The request under an id in any spelling.
#[tactic(auto, using(crate::specs::MessageLaws::unlike), unfolding(crate::specs::Requests::request_of))]
#[inline(never)]
fn under_any_id(alloc: Global, input: &[u8]) -> Result<Request, ReadFault>
    requires { length input.now ≤ input_limit }
    ensures { Gives (λ v. v) result (request_of input.now) }
{
    let (type_id, rest) = NodeId::read_front(alloc, input)?;
    if is(&type_id, FIND_SERVERS_REQUEST) {
        return any_find_servers(alloc, rest);
    }
    if is(&type_id, GET_ENDPOINTS_REQUEST) {
        return any_get_endpoints(alloc, rest);
    }
    other(alloc, type_id, rest)
}

impl Body for Request {
    ghost message = { request_message };

    fn body_len(&self) -> u64 {
        match self {
            Request::FindServers(fields) => id(FIND_SERVERS_REQUEST).len() + fields.len(),
            Request::GetEndpoints(fields) => id(GET_ENDPOINTS_REQUEST).len() + fields.len(),
            Request::Other(other) => other.body_len(),
        }
    }

    fn emit_body<S: Sink>(&self, out: &mut S) -> Result<(), NoMemory> {
        match self {
            Request::FindServers(fields) => (&id(FIND_SERVERS_REQUEST), fields).emit_parts(out),
            Request::GetEndpoints(fields) => (&id(GET_ENDPOINTS_REQUEST), fields).emit_parts(out),
            Request::Other(other) => other.emit_body(out),
        }
    }

    #[tactic(auto, unfolding(crate::specs::Requests::request_of))]
    #[inline(never)]
    fn parse_body(alloc: Global, input: &[u8]) -> Result<Request, ReadFault> {
        if let Some((number, fields)) = four_byte_id(input) {
            if let Some((brief, rest)) = BriefHeader::front(alloc, fields) {
                if number == FIND_SERVERS_REQUEST {
                    return find_servers(alloc, fields, brief, rest);
                }
                if number == GET_ENDPOINTS_REQUEST {
                    return get_endpoints(alloc, fields, brief, rest);
                }
            }
        }
        under_any_id(alloc, input)
    }

    ghost laws = { lawful_request };
}

/// Its canonical body.
impl Emit for Request {
    ghost spelling = { request_message.canon };

    fn emit_len(&self) -> u64 {
        self.body_len()
    }

    fn emit<S: Sink>(&self, sink: &mut S) -> Result<(), NoMemory> {
        self.emit_body(sink)
    }
}
