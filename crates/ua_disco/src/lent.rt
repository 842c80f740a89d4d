//! An answer that is put from the settings and the request, with no response made in between.

ghost use Rattle.std.specs.Prelude.{◌≡◌, ◌≤◌, ◌<◌, ◌+◌, ◌++◌, length, OnOk, OnErr};
ghost use Rattle.ua_value.specs.Format.{AppendsPart};
ghost use Rattle.ua_value.specs.Node.{node_id};
ghost use Rattle.ua_service.specs.Message.{id_of};
ghost use Rattle.ua_service.specs.Headers.{response_header, response_header_at};
ghost use Rattle.ua_service.specs.Responses.{canon_response};
ghost use Rattle.ua_service.specs.declared.response.Response.TheVariants as responses;
ghost use Rattle.ua_disco.specs.Answers.{answer_of, find_servers_answer, get_endpoints_answer, unsupported};

use crate::answering::BAD_SERVICE_UNSUPPORTED;
use crate::found::{FoundEndpoints, FoundServers, endpoint_count, endpoints_len, locales_for};
use crate::settings::Settings;
use std::marker::Model;
use ua_choice::Filter;
use ua_service::encoding::{FIND_SERVERS_RESPONSE, GET_ENDPOINTS_RESPONSE, SERVICE_FAULT};
use ua_service::{
    FindServersRequest, GetEndpointsRequest, OtherRequest, Request, RequestHeader, response_head,
};
use ua_value::plumbing::{Parts, Raw, Then};
use ua_value::{Emit, NoMemory, Sink};

/// What a server with these settings says to a request at a moment, lent: it is put from the settings and the request,
/// with no response made and no text copied in between (OPC 10000-4, 5.5). Contracts see it as the canonical body of the
/// response that `answer` makes, which is what it is put as.
#[derive(Drop)]
pub struct LentAnswer<'a> {
    settings: &'a Settings,
    request: &'a Request,
    now: i64,
}

impl<'a> Model for LentAnswer<'a> {
    ghost use Rattle.std.specs.Prelude.{List, ℕ};
    ghost use Rattle.ua_service.specs.Responses.{canon_response};
    ghost use Rattle.ua_disco.specs.Answers.{answer_of};

    ghost Value = { List ℕ };

    ghost view = { λ a. canon_response (answer_of a.settings.now a.request.now a.now) };
}

/// What a body begins with: the id of its encoding, and a header that says when, for which request and how it went, and
/// nothing else. It is made where it is measured or put, and held nowhere else.
#[derive(Clone, Copy)]
struct Head {
    id: u32,
    moment: i64,
    handle: u32,
    status: u32,
}

impl Head {
    /// That of an answer to a request that is served.
    fn good(id: u32, moment: i64, request: &RequestHeader) -> Head
        ensures id { result.id ≡ id }
        ensures moment { result.moment ≡ moment }
        ensures handle { result.handle ≡ request.now.request_handle }
        ensures status { result.status ≡ 0 }
    {
        Head {
            id,
            moment,
            handle: request.request_handle,
            status: 0,
        }
    }

    /// Its bytes: an id of four bytes, and a header without diagnostics, texts and an additional header.
    fn bytes(self) -> [u8; 28]
        requires wide { 256 ≤ self.id }
        requires narrow { self.id < 65536 }
        ensures { result ≡ node_id.canon (id_of self.id) ++ response_header.canon (response_header_at self.moment self.handle self.status) }
    {
        response_head(self.id, self.moment, self.handle, self.status)
    }

    /// The number of its bytes.
    fn len(self) -> u64
        requires wide { 256 ≤ self.id }
        requires narrow { self.id < 65536 }
        ensures length { result ≡ length (node_id.canon (id_of self.id)) + length (response_header.canon (response_header_at self.moment self.handle self.status)) }
        ensures few { result ≡ 28 }
    {
        self.bytes().len() as u64
    }

    /// Puts it and what is behind it.
    ///
    /// # Errors
    ///
    /// `NoMemory` where a growth was refused; a beginning of it may have been put.
    fn put_before<P: Parts + Drop, S: Sink>(self, behind: P, sink: &mut S) -> Result<(), NoMemory>
        requires wide { 256 ≤ self.id }
        requires narrow { self.id < 65536 }
        ensures ok { OnOk result (S.contents sink.new ≡ S.contents sink.old ++ (node_id.canon (id_of self.id) ++ (response_header.canon (response_header_at self.moment self.handle self.status) ++ P.spelling behind))) }
        ensures err { OnErr result (AppendsPart (S.contents sink.old) (S.contents sink.new) (node_id.canon (id_of self.id) ++ (response_header.canon (response_header_at self.moment self.handle self.status) ++ P.spelling behind))) }
    {
        let bytes = self.bytes();
        let first = Raw { bytes: &bytes };
        Then { first, behind }.emit_parts(sink)
    }
}

/// The number of bytes of the answer to a request for servers.
#[tactic(auto, unfolding(crate::specs::Answers::servers_found, ua_service::specs::Discovery::find_servers_response, ua_value::specs::Array::array))]
fn servers_body_len(settings: &Settings, request: &FindServersRequest, now: i64) -> u64
    ensures { result ≡ length (canon_response (responses.FindServers (find_servers_answer settings.now request.now now))) }
{
    let head = Head::good(FIND_SERVERS_RESPONSE, now, &request.header);
    let (alloc, listed) = (settings.alloc(), settings.applications());
    let filter = Filter::new(alloc, &request.server_uris);
    let locales = locales_for(alloc, listed, &filter, &request.locale_ids);
    let found = FoundServers {
        listed,
        filter: &filter,
        locales: &locales,
    };
    head.len() + 4 + found.len()
}

/// Puts the answer to a request for servers.
#[tactic(auto, unfolding(crate::specs::Answers::servers_found, ua_service::specs::Discovery::find_servers_response, ua_value::specs::Array::array, ua_value::specs::Number::unsigned))]
fn put_servers_body<S: Sink>(
    settings: &Settings,
    request: &FindServersRequest,
    now: i64,
    sink: &mut S,
) -> Result<(), NoMemory>
    ensures ok { OnOk result (S.contents sink.new ≡ S.contents sink.old ++ canon_response (responses.FindServers (find_servers_answer settings.now request.now now))) }
    ensures err { OnErr result (AppendsPart (S.contents sink.old) (S.contents sink.new) (canon_response (responses.FindServers (find_servers_answer settings.now request.now now)))) }
{
    let head = Head::good(FIND_SERVERS_RESPONSE, now, &request.header);
    let (alloc, listed) = (settings.alloc(), settings.applications());
    let filter = Filter::new(alloc, &request.server_uris);
    let locales = locales_for(alloc, listed, &filter, &request.locale_ids);
    let found = FoundServers {
        listed,
        filter: &filter,
        locales: &locales,
    };
    let count = found.count() as u32;
    head.put_before((&count, found), sink)
}

/// The number of bytes of the answer to a request for endpoints.
#[tactic(auto, unfolding(ua_service::specs::Discovery::get_endpoints_response, ua_value::specs::Array::array))]
fn endpoints_body_len(settings: &Settings, request: &GetEndpointsRequest, now: i64) -> u64
    ensures { result ≡ length (canon_response (responses.GetEndpoints (get_endpoints_answer settings.now request.now now))) }
{
    let head = Head::good(GET_ENDPOINTS_RESPONSE, now, &request.header);
    head.len() + 4 + endpoints_len(settings, request)
}

/// Puts the answer to a request for endpoints.
#[tactic(auto, unfolding(ua_service::specs::Discovery::get_endpoints_response, ua_value::specs::Array::array, ua_value::specs::Number::unsigned))]
fn put_endpoints_body<S: Sink>(
    settings: &Settings,
    request: &GetEndpointsRequest,
    now: i64,
    sink: &mut S,
) -> Result<(), NoMemory>
    ensures ok { OnOk result (S.contents sink.new ≡ S.contents sink.old ++ canon_response (responses.GetEndpoints (get_endpoints_answer settings.now request.now now))) }
    ensures err { OnErr result (AppendsPart (S.contents sink.old) (S.contents sink.new) (canon_response (responses.GetEndpoints (get_endpoints_answer settings.now request.now now)))) }
{
    let count = endpoint_count(settings, request) as u32;
    let head = Head::good(GET_ENDPOINTS_RESPONSE, now, &request.header);
    head.put_before((&count, FoundEndpoints { settings, request }), sink)
}

/// The whole answer to a request for a service that the server does not offer.
fn fault_head(request: &OtherRequest, now: i64) -> Head
    ensures id { result.id ≡ 397 }
    ensures moment { result.moment ≡ now }
    ensures handle { result.handle ≡ request.now.header.request_handle }
    ensures status { result.status ≡ 0x800B0000 }
{
    Head {
        id: SERVICE_FAULT,
        moment: now,
        handle: request.header().request_handle,
        status: BAD_SERVICE_UNSUPPORTED,
    }
}

/// The number of bytes of the answer to a request for a service that the server does not offer.
#[tactic(auto, unfolding(ua_service::specs::Headers::service_fault))]
fn fault_body_len(request: &OtherRequest, now: i64) -> u64
    ensures { result ≡ length (canon_response (responses.Fault (unsupported request.now.header now))) }
{
    fault_head(request, now).len()
}

/// Puts the answer to a request for a service that the server does not offer.
#[tactic(auto, unfolding(ua_service::specs::Headers::service_fault))]
fn put_fault_body<S: Sink>(request: &OtherRequest, now: i64, sink: &mut S) -> Result<(), NoMemory>
    ensures ok { OnOk result (S.contents sink.new ≡ S.contents sink.old ++ canon_response (responses.Fault (unsupported request.now.header now))) }
    ensures err { OnErr result (AppendsPart (S.contents sink.old) (S.contents sink.new) (canon_response (responses.Fault (unsupported request.now.header now)))) }
{
    sink.put(&fault_head(request, now).bytes())
}

/// What a server with these settings says to a request at the moment `now`, in ticks of 100 ns since 1601-01-01 UTC: the
/// body of the response that `answer` makes, lent (OPC 10000-4, 5.5). The settings and the request are read when its length
/// or its bytes are asked for, and nothing of them is copied but into the sink, and while they are looked up, of a request
/// with over sixteen ServerUris these, and for one with over sixteen LocaleIds the locales of the names of several
/// applications; where the room for that is refused, that takes longer.
pub fn lent_answer<'a>(settings: &'a Settings, request: &'a Request, now: i64) -> LentAnswer<'a>
    ensures { result ≡ canon_response (answer_of settings.now request.now now) }
{
    LentAnswer {
        settings,
        request,
        now,
    }
}

#[tactic(auto, unfolding(crate::specs::Answers::answer_of))]
impl<'a> Emit for LentAnswer<'a> {
    ghost spelling = { λ a. a };

    fn emit_len(&self) -> u64 {
        match self.request {
            Request::FindServers(request) => servers_body_len(self.settings, request, self.now),
            Request::GetEndpoints(request) => endpoints_body_len(self.settings, request, self.now),
            Request::Other(request) => fault_body_len(request, self.now),
        }
    }

    fn emit<S: Sink>(&self, sink: &mut S) -> Result<(), NoMemory> {
        match self.request {
            Request::FindServers(request) => {
                put_servers_body(self.settings, request, self.now, sink)
            }
            Request::GetEndpoints(request) => {
                put_endpoints_body(self.settings, request, self.now, sink)
            }
            Request::Other(request) => put_fault_body(request, self.now, sink),
        }
    }
}
