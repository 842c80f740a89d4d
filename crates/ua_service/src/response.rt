//! Responses.

ghost use Rattle.std.specs.Prelude.{◌≡◌, ◌≤◌, Some, length};
ghost use Rattle.ua_value.specs.Format.{Gives, input_limit};
ghost use Rattle.ua_service.specs.Brief.{response_header_of};
ghost use Rattle.ua_service.specs.Headers.{response_header};
ghost use Rattle.ua_service.specs.Responses.{response_message, response_of, find_servers_of, get_endpoints_of, fault_of};
ghost use Rattle.ua_service.specs.ResponseLaws.{lawful_response};

use crate::application::ApplicationDescription;
use crate::body::{Body, id, is};
use crate::brief::BriefResponseHeader;
use crate::discovery::{FindServersResponse, GetEndpointsResponse};
use crate::encoding::{FIND_SERVERS_RESPONSE, GET_ENDPOINTS_RESPONSE, SERVICE_FAULT};
use crate::endpoint::EndpointDescription;
use crate::headers::ServiceFault;
use crate::usual::four_byte_id;
use std::alloc::Global;
use ua_value::plumbing::{Parts, read_whole};
use ua_value::{Array, Emit, NoMemory, NodeId, ReadFault, Sink, Wire};

/// What a server answers over an open channel.
#[derive(Debug, Drop)]
pub enum Response {
    /// The servers that were asked for (OPC 10000-4, 5.5.2).
    FindServers(FindServersResponse),
    /// The endpoints that were asked for (OPC 10000-4, 5.5.4).
    GetEndpoints(GetEndpointsResponse),
    /// That the service failed (OPC 10000-4, 7.35).
    Fault(ServiceFault),
}

// The response of each kind that the whole input has the fields of. They stand apart, and out of line, so that reading
// one does not make room for the others.

/// The response with servers under a header in any spelling.
#[inline(never)]
fn any_find_servers(alloc: Global, fields: &[u8]) -> Result<Response, ReadFault>
    requires { length fields.now ≤ input_limit }
    ensures { Gives (λ v. v) result (find_servers_of fields.now) }
{
    Ok(Response::FindServers(read_whole(alloc, fields)?))
}

/// The response with servers, of which the fields are the header and the rest.
#[tactic(auto, unfolding(crate::specs::Discovery::find_servers_response))]
#[inline(never)]
fn find_servers(
    alloc: Global,
    fields: &[u8],
    brief: BriefResponseHeader,
    rest: &[u8],
) -> Result<Response, ReadFault>
    requires header { response_header.grammar.front fields.now ≡ Some (response_header_of brief, rest.now) }
    requires few { length rest.now ≤ input_limit }
    ensures { Gives (λ v. v) result (find_servers_of fields.now) }
{
    match read_whole::<Array<ApplicationDescription>>(alloc, rest) {
        Ok(servers) => Ok(Response::FindServers(FindServersResponse {
            header: brief.header(),
            servers,
        })),
        Err(fault) => Err(fault),
    }
}

/// The response with endpoints under a header in any spelling.
#[inline(never)]
fn any_get_endpoints(alloc: Global, fields: &[u8]) -> Result<Response, ReadFault>
    requires { length fields.now ≤ input_limit }
    ensures { Gives (λ v. v) result (get_endpoints_of fields.now) }
{
    Ok(Response::GetEndpoints(read_whole(alloc, fields)?))
}

/// The response with endpoints, of which the fields are the header and the rest.
#[tactic(auto, unfolding(crate::specs::Discovery::get_endpoints_response))]
#[inline(never)]
fn get_endpoints(
    alloc: Global,
    fields: &[u8],
    brief: BriefResponseHeader,
    rest: &[u8],
) -> Result<Response, ReadFault>
    requires header { response_header.grammar.front fields.now ≡ Some (response_header_of brief, rest.now) }
    requires few { length rest.now ≤ input_limit }
    ensures { Gives (λ v. v) result (get_endpoints_of fields.now) }
{
    match read_whole::<Array<EndpointDescription>>(alloc, rest) {
        Ok(endpoints) => Ok(Response::GetEndpoints(GetEndpointsResponse {
            header: brief.header(),
            endpoints,
        })),
        Err(fault) => Err(fault),
    }
}

/// That the service failed.
#[inline(never)]
fn fault(alloc: Global, fields: &[u8]) -> Result<Response, ReadFault>
    requires { length fields.now ≤ input_limit }
    ensures { Gives (λ v. v) result (fault_of fields.now) }
{
    Ok(Response::Fault(read_whole(alloc, fields)?))
}

/// The response under an id in any spelling.
#[tactic(auto, unfolding(crate::specs::Responses::response_of))]
#[inline(never)]
fn under_any_id(alloc: Global, input: &[u8]) -> Result<Response, ReadFault>
    requires { length input.now ≤ input_limit }
    ensures { Gives (λ v. v) result (response_of input.now) }
{
    let (type_id, rest) = NodeId::read_front(alloc, input)?;
    if is(&type_id, FIND_SERVERS_RESPONSE) {
        return any_find_servers(alloc, rest);
    }
    if is(&type_id, GET_ENDPOINTS_RESPONSE) {
        return any_get_endpoints(alloc, rest);
    }
    if is(&type_id, SERVICE_FAULT) {
        return fault(alloc, rest);
    }
    Err(ReadFault::Refused)
}

impl Body for Response {
    ghost message = { response_message };

    fn body_len(&self) -> u64 {
        match self {
            Response::FindServers(fields) => id(FIND_SERVERS_RESPONSE).len() + fields.len(),
            Response::GetEndpoints(fields) => id(GET_ENDPOINTS_RESPONSE).len() + fields.len(),
            Response::Fault(fields) => id(SERVICE_FAULT).len() + fields.len(),
        }
    }

    fn emit_body<S: Sink>(&self, out: &mut S) -> Result<(), NoMemory> {
        match self {
            Response::FindServers(fields) => (&id(FIND_SERVERS_RESPONSE), fields).emit_parts(out),
            Response::GetEndpoints(fields) => (&id(GET_ENDPOINTS_RESPONSE), fields).emit_parts(out),
            Response::Fault(fields) => (&id(SERVICE_FAULT), fields).emit_parts(out),
        }
    }

    #[tactic(auto, unfolding(crate::specs::Responses::response_of))]
    #[inline(never)]
    fn parse_body(alloc: Global, input: &[u8]) -> Result<Response, ReadFault> {
        if let Some((number, fields)) = four_byte_id(input) {
            if let Some((brief, rest)) = BriefResponseHeader::front(alloc, fields) {
                if number == FIND_SERVERS_RESPONSE {
                    return find_servers(alloc, fields, brief, rest);
                }
                if number == GET_ENDPOINTS_RESPONSE {
                    return get_endpoints(alloc, fields, brief, rest);
                }
            }
        }
        under_any_id(alloc, input)
    }

    ghost laws = { lawful_response };
}

/// Its canonical body.
impl Emit for Response {
    ghost spelling = { response_message.canon };

    fn emit_len(&self) -> u64 {
        self.body_len()
    }

    fn emit<S: Sink>(&self, sink: &mut S) -> Result<(), NoMemory> {
        self.emit_body(sink)
    }
}
