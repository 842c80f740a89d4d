//! Answers into sinks that refuse. What stands spelled in the settings is put at once; a sink that refuses that holds what
//! it held when each text was put by itself, as stands here.

use crate::made_settings::{Draw, made};
use crate::sinks::{OneRefused, SmallSink};
use std::alloc::Global;
use ua_disco::{LentAnswer, Settings, answer, lent_answer};
use ua_service::encoding::{FIND_SERVERS_RESPONSE, GET_ENDPOINTS_RESPONSE};
use ua_service::{
    ApplicationDescription, Body, EndpointDescription, Request, Response, response_head,
};
use ua_test_lent::by_settings;
use ua_test_shared::lending::{judged, passes};
use ua_test_shared::vectors::{ENDPOINTS_REQUEST, FIND_REQUEST};
use ua_value::plumbing::Parts;
use ua_value::{Emit, NoMemory, Sink};

/// The moment of an answer, and the handle of both requests.
const NOW: i64 = 7;

const HANDLE: u32 = 2;

/// An application, text by text.
fn put_application<S: Sink>(
    application: &ApplicationDescription,
    out: &mut S,
) -> Result<(), NoMemory> {
    (
        &application.application_uri,
        (
            &application.product_uri,
            (
                &application.application_name,
                (
                    &application.application_type,
                    (
                        &application.gateway_server_uri,
                        (
                            &application.discovery_profile_uri,
                            &application.discovery_urls,
                        ),
                    ),
                ),
            ),
        ),
    )
        .emit_parts(out)
}

/// What stands behind the application in an endpoint, text by text.
fn put_rest<S: Sink>(endpoint: &EndpointDescription, out: &mut S) -> Result<(), NoMemory> {
    (
        &endpoint.server_certificate,
        (
            &endpoint.security_mode,
            (
                &endpoint.security_policy_uri,
                (
                    &endpoint.user_identity_tokens,
                    (&endpoint.transport_profile_uri, &endpoint.security_level),
                ),
            ),
        ),
    )
        .emit_parts(out)
}

fn put_endpoint<S: Sink>(endpoint: &EndpointDescription, out: &mut S) -> Result<(), NoMemory> {
    (&endpoint.endpoint_url).emit_parts(out)?;
    put_application(&endpoint.server, out)?;
    put_rest(endpoint, out)
}

fn put_servers<S: Sink>(servers: &[ApplicationDescription], out: &mut S) -> Result<(), NoMemory> {
    out.put(&response_head(FIND_SERVERS_RESPONSE, NOW, HANDLE, 0))?;
    let count = u32::try_from(servers.len()).unwrap_or(u32::MAX);
    (&count).emit_parts(out)?;
    for server in servers {
        put_application(server, out)?;
    }
    Ok(())
}

fn put_endpoints<S: Sink>(endpoints: &[EndpointDescription], out: &mut S) -> Result<(), NoMemory> {
    out.put(&response_head(GET_ENDPOINTS_RESPONSE, NOW, HANDLE, 0))?;
    let count = u32::try_from(endpoints.len()).unwrap_or(u32::MAX);
    (&count).emit_parts(out)?;
    for endpoint in endpoints {
        put_endpoint(endpoint, out)?;
    }
    Ok(())
}

/// A response, text by text.
fn put_response<S: Sink>(response: &Response, out: &mut S) -> Result<(), NoMemory> {
    match response {
        Response::FindServers(found) => put_servers(found.servers.get().unwrap_or(&[]), out),
        Response::GetEndpoints(found) => put_endpoints(found.endpoints.get().unwrap_or(&[]), out),
        Response::Fault(_) => Ok(()),
    }
}

/// Whether a sink with so much room gets the same of the answer as of the response text by text, and the whole only where
/// there is room for it.
fn is_same(
    alloc: Global,
    answer: &LentAnswer,
    response: &Response,
    room: usize,
    len: usize,
) -> bool {
    let mut sink = SmallSink::new(alloc, room);
    let mut by_text = SmallSink::new(alloc, room);
    let is_whole = answer.emit(&mut sink).is_ok();
    let was_whole = put_response(response, &mut by_text).is_ok();
    is_whole == was_whole && is_whole == (room >= len) && sink.bytes() == by_text.bytes()
}

/// Whether that holds of each room up to the whole answer, or of each such so many bytes apart; `None` where one is other.
fn rooms(alloc: Global, answer: &LentAnswer, response: &Response, step: usize) -> Option<u32> {
    let len = usize::try_from(answer.emit_len()).unwrap_or(0);
    let mut tried = 0u32;
    for room in 0..=len {
        if room % step.max(1) == 0 || room == len {
            if !is_same(alloc, answer, response, room, len) {
                return None;
            }
            tried = tried.saturating_add(1);
        }
    }
    Some(tried)
}

fn tried_of_request(
    alloc: Global,
    settings: &Settings,
    request: &Request,
    step: usize,
) -> Option<u32> {
    let response = answer(alloc, settings, request, NOW).ok();
    judged(response, |response| {
        rooms(alloc, &lent_answer(settings, request, NOW), response, step)
    })
}

/// The request of a frame.
fn request_in(alloc: Global, frame: &[u8]) -> Option<Request> {
    let body = frame.get(24..)?;
    if body.len() > 1000 {
        return None;
    }
    Request::read_body(alloc, body).ok()
}

/// How many rooms were tried of the answers to both requests, where all of them hold the same.
fn tried(alloc: Global, settings: &Settings, step: usize) -> Option<u32> {
    let servers = judged(request_in(alloc, FIND_REQUEST), |request| {
        tried_of_request(alloc, settings, request, step)
    });
    let endpoints = judged(request_in(alloc, ENDPOINTS_REQUEST), |request| {
        tried_of_request(alloc, settings, request, step)
    });
    match (servers, endpoints) {
        (Some(servers), Some(endpoints)) => Some(servers.saturating_add(endpoints)),
        _ => None,
    }
}

/// The same of settings that follow from the seed, with texts of so many pieces at the most.
fn tried_of_seed(alloc: Global, seed: u32, most: u32, step: usize) -> Option<u32> {
    let text = made(alloc, &mut Draw::from(seed), most).ok();
    judged(text, |text| {
        let settings = Settings::from_toml(alloc, text.as_str().as_bytes()).ok();
        judged(settings, |settings| tried(alloc, settings, step))
    })
}

/// How many rooms were tried of so many seeds; 0 where a sink holds something else.
fn tried_of_seeds(alloc: Global, seeds: u32, most: u32, step: usize) -> u32 {
    let mut all = 0u32;
    for seed in 0..seeds {
        match tried_of_seed(alloc, seed, most, step) {
            Some(tried) => all = all.saturating_add(tried),
            None => return 0,
        }
    }
    all
}

#[test]
fn a_small_sink_holds_what_it_held_text_by_text(rt: HostRuntime) {
    assert!(rt; tried_of_seeds(rt.alloc(), 8, 4, 1) > 1000);
}

/// Texts of up to 1,000 bytes.
#[test]
fn a_small_sink_holds_what_it_held_of_long_texts(rt: HostRuntime) {
    assert!(rt; tried_of_seeds(rt.alloc(), 2, 500, 499) > 20);
}

/// Where one put is refused and each later one is taken, the answer comes whole after all where the refused one was of what
/// stands spelled, since its parts are put then; else it ends there. Where nothing more is taken, it ends there in any case.
/// `None` where the put is not reached.
fn comes_whole(
    alloc: Global,
    answer: &LentAnswer,
    body: &[u8],
    refused: usize,
    forever: bool,
) -> Option<bool> {
    let mut sink = OneRefused::new(alloc, refused, forever);
    let is_whole = answer.emit(&mut sink).is_ok();
    if !sink.has_refused() {
        return None;
    }
    let is_right = body.starts_with(sink.bytes()) && is_whole == (sink.bytes() == body);
    if is_right { Some(is_whole) } else { None }
}

/// How many puts are refused without that the answer fails, and how many with it.
fn counts(alloc: Global, answer: &LentAnswer, forever: bool) -> (u32, u32) {
    let mut body = Vec::new(alloc);
    if answer.emit(&mut body).is_err() {
        return (0, 0);
    }
    let mut whole = 0u32;
    let mut cut = 0u32;
    for refused in 0..1000 {
        match comes_whole(alloc, answer, body.as_slice(), refused, forever) {
            Some(true) => whole = whole.saturating_add(1),
            Some(false) => cut = cut.saturating_add(1),
            None => break,
        }
    }
    (whole, cut)
}

/// Three endpoints.
const THREE: &str =
    "version = 1\n[application]\nuri = \"u\"\nnames = [{ text = \"n\" }]\n[[endpoint]]\nurl = \"a\"\n[[endpoint]]\nurl = \"b\"\ntokens = [{ id = \"0\" }]\n[[endpoint]]\nurl = \"c\"\ncertificate = \"ab\"\n";

fn has_counts(
    alloc: Global,
    settings: &Settings,
    frame: &[u8],
    forever: bool,
    counted: (u32, u32),
) -> bool {
    let request = request_in(alloc, frame);
    passes(request, |request| {
        counts(alloc, &lent_answer(settings, request, NOW), forever) == counted
    })
}

/// The application has two such wholes, before and behind its name, and each endpoint one more. The other puts are the head,
/// the count, a url's length and its bytes, and of a name its mask, the length of its text and its bytes.
fn counts_of_three(alloc: Global, settings: &Settings) -> bool {
    has_counts(alloc, settings, FIND_REQUEST, false, (2, 5))
        && has_counts(alloc, settings, ENDPOINTS_REQUEST, false, (9, 17))
        && has_counts(alloc, settings, FIND_REQUEST, true, (0, 7))
        && has_counts(alloc, settings, ENDPOINTS_REQUEST, true, (0, 26))
}

#[test]
fn an_answer_outlives_one_refused_put_of_what_is_spelled(rt: HostRuntime) {
    assert!(rt; by_settings(rt.alloc(), THREE, counts_of_three));
}
