//! What a server answers.

ghost use Rattle.std.specs.Prelude.{◌≡◌, IfOk};
ghost use Rattle.ua_disco.specs.Bounds.{IsConfiguration};
ghost use Rattle.ua_disco.specs.Answers.{answer_of, servers_among, servers_found, endpoints_found, find_servers_answer, get_endpoints_answer, unsupported};

use crate::arrays::array_of;
use crate::found::locales_for;
use crate::settings::Settings;
use crate::spelled::SpelledApplication;
use std::alloc::Global;
use ua_choice::{Filter, Locales, Verdicts};
use ua_service::{
    ApplicationDescription, EndpointDescription, FindServersRequest, FindServersResponse,
    GetEndpointsRequest, GetEndpointsResponse, OtherRequest, Request, Response, ResponseHeader,
    ServiceFault, response_header,
};
use ua_value::NoMemory;
use ua_value::plumbing::let_go;

/// The service is not one that the server offers (OPC 10000-4, 7.39).
pub(crate) const BAD_SERVICE_UNSUPPORTED: u32 = 0x800B_0000;

/// Of these applications those that the filter asks for, in their order, each for a reader of the locales.
fn described(
    alloc: Global,
    listed: &[SpelledApplication],
    filter: &Filter<'_>,
    locales: &Locales<'_>,
) -> Result<Vec<ApplicationDescription>, NoMemory>
    ensures { IfOk result (λ v. v.items ≡ servers_among locales.now filter.now listed.now) }
{
    let mut found = Vec::new(alloc);
    for spelled in listed {
        let application = spelled.get();
        if filter.asks_for(&application.uri) {
            let name = application.names.for_reader(locales);
            found.push(application.describe(name)?)?;
        }
    }
    Ok(found)
}

/// The applications that the request asks for, in the order of the settings.
#[tactic(auto, unfolding(crate::specs::Answers::servers_found))]
fn servers(
    alloc: Global,
    settings: &Settings,
    request: &FindServersRequest,
) -> Result<Vec<ApplicationDescription>, NoMemory>
    ensures found { IfOk result (λ v. v.items ≡ servers_found settings.now request.now) }
    ensures within { IsConfiguration settings.now }
{
    let filter = Filter::new(alloc, &request.server_uris);
    let listed = settings.applications();
    let locales = locales_for(alloc, listed, &filter, &request.locale_ids);
    let found = described(alloc, listed, &filter, &locales);
    let_go((filter, locales));
    found
}

/// The endpoints that the request asks for, in the order of the settings.
fn endpoints<'a>(
    alloc: Global,
    settings: &'a Settings,
    request: &'a GetEndpointsRequest,
) -> Result<Vec<EndpointDescription>, NoMemory>
    ensures found { IfOk result (λ v. v.items ≡ endpoints_found settings.now request.now) }
    ensures within { IsConfiguration settings.now }
{
    let mut found = Vec::new(alloc);
    let application = settings.first().get();
    let name = application.names.in_language(&request.locale_ids);
    let offered = settings.endpoints();
    let mut verdicts = Verdicts::new(&request.profile_uris);
    for endpoint in offered {
        if verdicts.asks_for(&endpoint.get().transport) {
            found.push(endpoint.get().describe(application, name)?)?;
        }
    }
    Ok(found)
}

fn find_servers(
    alloc: Global,
    settings: &Settings,
    request: &FindServersRequest,
    now: i64,
) -> Result<FindServersResponse, NoMemory>
    ensures { IfOk result (λ r. r ≡ find_servers_answer settings.now request.now now) }
{
    let found = servers(alloc, settings, request)?;
    Ok(FindServersResponse {
        header: response_header(now, request.header.request_handle, 0),
        servers: array_of(found),
    })
}

fn get_endpoints(
    alloc: Global,
    settings: &Settings,
    request: &GetEndpointsRequest,
    now: i64,
) -> Result<GetEndpointsResponse, NoMemory>
    ensures { IfOk result (λ r. r ≡ get_endpoints_answer settings.now request.now now) }
{
    let found = endpoints(alloc, settings, request)?;
    Ok(GetEndpointsResponse {
        header: response_header(now, request.header.request_handle, 0),
        endpoints: array_of(found),
    })
}

/// The header of the answer to a request for a service that the server does not offer.
fn fault_header(request: &OtherRequest, now: i64) -> ResponseHeader
    ensures { result ≡ (unsupported request.now.header now).header }
{
    let handle = request.header().request_handle;
    response_header(now, handle, BAD_SERVICE_UNSUPPORTED)
}

/// What a server with these settings answers to a request at the moment `now`, in ticks of 100 ns
/// since 1601-01-01 UTC. FindServers (OPC 10000-4, 5.5.2) gets the applications whose URI is among
/// its ServerUris, GetEndpoints (5.5.4) the endpoints whose transport profile is among its
/// ProfileUris, each all of them where that array is null or empty, in the order of the settings. The
/// server of an endpoint is the first application.
/// An application has the first of its names that is in the earliest requested locale that some
/// name has, else its first name. The url of the request changes nothing. Any other request gets a
/// ServiceFault with BadServiceUnsupported (7.35). Each text is copied once.
///
/// # Errors
///
/// `NoMemory` where a growth was refused; nothing has changed then.
#[tactic(auto, unfolding(crate::specs::Answers::answer_of))]
pub fn answer(
    alloc: Global,
    settings: &Settings,
    request: &Request,
    now: i64,
) -> Result<Response, NoMemory>
    ensures { IfOk result (λ r. r ≡ answer_of settings.now request.now now) }
{
    match request {
        Request::FindServers(request) => Ok(Response::FindServers(find_servers(
            alloc, settings, request, now,
        )?)),
        Request::GetEndpoints(request) => Ok(Response::GetEndpoints(get_endpoints(
            alloc, settings, request, now,
        )?)),
        Request::Other(request) => {
            let header = fault_header(request, now);
            Ok(Response::Fault(ServiceFault { header }))
        }
    }
}
