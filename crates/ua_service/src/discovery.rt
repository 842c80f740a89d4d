//! The messages of discovery.

ghost use Rattle.ua_service.specs.Discovery.{find_servers_request, lawful_find_servers_request, find_servers_response, lawful_find_servers_response, get_endpoints_request, lawful_get_endpoints_request, get_endpoints_response, lawful_get_endpoints_response};

use crate::application::ApplicationDescription;
use crate::endpoint::EndpointDescription;
use crate::headers::{RequestHeader, ResponseHeader};
use std::alloc::Global;
use ua_value::plumbing::{Fields, Parts, copy_two};
use ua_value::{Array, NoMemory, ReadFault, Sink, UaString, Wire};

/// A question for the servers that the receiver knows (OPC 10000-4, 5.5.2).
#[derive(Debug, PartialEq, Eq, Drop)]
pub struct FindServersRequest {
    pub header: RequestHeader,
    /// The url by which the client reached the receiver.
    pub endpoint_url: UaString,
    /// The languages that the client wants, the dearest first.
    pub locale_ids: Array<UaString>,
    /// The applications that the client asks for; all where it is null or empty.
    pub server_uris: Array<UaString>,
}

type FindServersRequestFields = (
    RequestHeader,
    (UaString, (Array<UaString>, Array<UaString>)),
);

#[tactic(auto, unfolding(crate::specs::Discovery::find_servers_request))]
impl Wire for FindServersRequest {
    ghost format = { find_servers_request };

    ghost most = { 2305843019951112242 };

    ghost Grows = { Unit {0} };

    fn len(&self) -> u64 {
        self.header.len() + self.endpoint_url.len() + self.locale_ids.len() + self.server_uris.len()
    }

    fn emit<S: Sink>(&self, out: &mut S) -> Result<(), NoMemory> {
        (
            &self.header,
            (&self.endpoint_url, (&self.locale_ids, &self.server_uris)),
        )
            .emit_parts(out)
    }

    fn copy(&self) -> Result<FindServersRequest, NoMemory> {
        let (locale_ids, server_uris) = copy_two(&self.locale_ids, &self.server_uris)?;
        let (header, endpoint_url) = copy_two(&self.header, &self.endpoint_url)?;
        Ok(FindServersRequest {
            header,
            endpoint_url,
            locale_ids,
            server_uris,
        })
    }

    fn read_front(alloc: Global, input: &[u8]) -> Result<(FindServersRequest, &[u8]), ReadFault> {
        match FindServersRequestFields::read_fields(alloc, input) {
            Ok(((header, (endpoint_url, (locale_ids, server_uris))), rest)) => Ok((
                FindServersRequest {
                    header,
                    endpoint_url,
                    locale_ids,
                    server_uris,
                },
                rest,
            )),
            Err(fault) => Err(fault),
        }
    }

    ghost laws = { lawful_find_servers_request };
}

/// The servers that were asked for (OPC 10000-4, 5.5.2).
#[derive(Debug, Drop)]
pub struct FindServersResponse {
    pub header: ResponseHeader,
    /// The servers.
    pub servers: Array<ApplicationDescription>,
}

type FindServersResponseFields = (ResponseHeader, Array<ApplicationDescription>);

#[tactic(auto, unfolding(crate::specs::Discovery::find_servers_response))]
impl Wire for FindServersResponse {
    ghost format = { find_servers_response };

    ghost most = { 2305843228257028482 };

    ghost Grows = { Unit {0} };

    fn len(&self) -> u64 {
        self.header.len() + self.servers.len()
    }

    fn emit<S: Sink>(&self, out: &mut S) -> Result<(), NoMemory> {
        (&self.header, &self.servers).emit_parts(out)
    }

    fn copy(&self) -> Result<FindServersResponse, NoMemory> {
        let (header, servers) = copy_two(&self.header, &self.servers)?;
        Ok(FindServersResponse { header, servers })
    }

    fn read_front(alloc: Global, input: &[u8]) -> Result<(FindServersResponse, &[u8]), ReadFault> {
        match FindServersResponseFields::read_fields(alloc, input) {
            Ok(((header, servers), rest)) => Ok((FindServersResponse { header, servers }, rest)),
            Err(fault) => Err(fault),
        }
    }

    ghost laws = { lawful_find_servers_response };
}

/// A question for the endpoints of a server (OPC 10000-4, 5.5.4).
#[derive(Debug, PartialEq, Eq, Drop)]
pub struct GetEndpointsRequest {
    pub header: RequestHeader,
    /// The url by which the client reached the server.
    pub endpoint_url: UaString,
    /// The languages that the client wants, the dearest first.
    pub locale_ids: Array<UaString>,
    /// The transports that the client asks for; all where it is null or empty.
    pub profile_uris: Array<UaString>,
}

type GetEndpointsRequestFields = (
    RequestHeader,
    (UaString, (Array<UaString>, Array<UaString>)),
);

#[tactic(auto, unfolding(crate::specs::Discovery::get_endpoints_request))]
impl Wire for GetEndpointsRequest {
    ghost format = { get_endpoints_request };

    ghost most = { 2305843019951112242 };

    ghost Grows = { Unit {0} };

    fn len(&self) -> u64 {
        self.header.len()
            + self.endpoint_url.len()
            + self.locale_ids.len()
            + self.profile_uris.len()
    }

    fn emit<S: Sink>(&self, out: &mut S) -> Result<(), NoMemory> {
        (
            &self.header,
            (&self.endpoint_url, (&self.locale_ids, &self.profile_uris)),
        )
            .emit_parts(out)
    }

    fn copy(&self) -> Result<GetEndpointsRequest, NoMemory> {
        let (locale_ids, profile_uris) = copy_two(&self.locale_ids, &self.profile_uris)?;
        let (header, endpoint_url) = copy_two(&self.header, &self.endpoint_url)?;
        Ok(GetEndpointsRequest {
            header,
            endpoint_url,
            locale_ids,
            profile_uris,
        })
    }

    fn read_front(alloc: Global, input: &[u8]) -> Result<(GetEndpointsRequest, &[u8]), ReadFault> {
        match GetEndpointsRequestFields::read_fields(alloc, input) {
            Ok(((header, (endpoint_url, (locale_ids, profile_uris))), rest)) => Ok((
                GetEndpointsRequest {
                    header,
                    endpoint_url,
                    locale_ids,
                    profile_uris,
                },
                rest,
            )),
            Err(fault) => Err(fault),
        }
    }

    ghost laws = { lawful_get_endpoints_request };
}

/// The endpoints that were asked for (OPC 10000-4, 5.5.4).
#[derive(Debug, Drop)]
pub struct GetEndpointsResponse {
    pub header: ResponseHeader,
    /// The endpoints.
    pub endpoints: Array<EndpointDescription>,
}

type GetEndpointsResponseFields = (ResponseHeader, Array<EndpointDescription>);

#[tactic(auto, unfolding(crate::specs::Discovery::get_endpoints_response))]
impl Wire for GetEndpointsResponse {
    ghost format = { get_endpoints_response };

    ghost most = { 2305843228257028482 };

    ghost Grows = { Unit {0} };

    fn len(&self) -> u64 {
        self.header.len() + self.endpoints.len()
    }

    fn emit<S: Sink>(&self, out: &mut S) -> Result<(), NoMemory> {
        (&self.header, &self.endpoints).emit_parts(out)
    }

    fn copy(&self) -> Result<GetEndpointsResponse, NoMemory> {
        let (header, endpoints) = copy_two(&self.header, &self.endpoints)?;
        Ok(GetEndpointsResponse { header, endpoints })
    }

    fn read_front(alloc: Global, input: &[u8]) -> Result<(GetEndpointsResponse, &[u8]), ReadFault> {
        match GetEndpointsResponseFields::read_fields(alloc, input) {
            Ok(((header, endpoints), rest)) => Ok((
                GetEndpointsResponse { header, endpoints },
                rest,
            )),
            Err(fault) => Err(fault),
        }
    }

    ghost laws = { lawful_get_endpoints_response };
}
