//! Requests that are pending: how many, and which of them an answer is to.

use crate::clients::{brings, by_client, is_answer, is_asked, is_refused, opens};
use crate::hostile::asks;
use std::alloc::Global;
use ua_conn::{Answer, AskFault, Client};
use ua_service::Request;
use ua_test_shared::bytes::changed;
use ua_test_shared::lending::passes;
use ua_test_shared::vectors::{
    ENDPOINTS_BODY, ENDPOINTS_RESPONSE, FIND_BODY, FIND_RESPONSE, OPENED,
};

/// How many requests may be pending.
const MOST: u32 = 64;

/// 64 requests are pending under the ids 2 to 65, and no further one is taken.
fn takes_64(alloc: Global, client: &mut Client) -> bool {
    let mut all = opens(client);
    for n in 0..MOST {
        all &= is_asked(alloc, client, 69, n.wrapping_add(2));
    }
    all && is_refused(alloc, client, 69, AskFault::TooManyPending)
}

#[test]
fn no_more_than_64_requests_are_pending(rt: HostRuntime) {
    assert!(rt; by_client(rt.alloc(), takes_64));
}

fn is_find(request: &Request) -> bool {
    match request {
        Request::FindServers(_) => true,
        _ => false,
    }
}

fn is_endpoints(request: &Request) -> bool {
    match request {
        Request::GetEndpoints(_) => true,
        _ => false,
    }
}

/// Whether FindServers alone is pending, under id 2.
fn finds_alone(client: &Client) -> bool {
    let first = match client.pending(0) {
        Some((id, request)) => id == 2 && is_find(request),
        None => false,
    };
    first && client.pending(1).is_none()
}

fn is_one_answer(answers: &[Answer], id: u32, find: bool) -> bool {
    let [answer] = answers else {
        return false;
    };
    let same = if find {
        is_find(&answer.request)
    } else {
        is_endpoints(&answer.request)
    };
    same && is_answer(answer, id, None)
}

/// Whether the piece brings one answer under the id, to FindServers or to GetEndpoints.
fn brings_to(client: &mut Client, piece: &[u8], id: u32, find: bool) -> bool {
    passes(client.feed(0, piece).ok(), |answers| {
        is_one_answer(answers.as_slice(), id, find)
    })
}

/// The second request is answered first.
fn keeps_apart(alloc: Global, client: &mut Client, later: &[u8], first: &[u8]) -> bool {
    brings(client, OPENED, &[], None)
        && asks(alloc, client, FIND_BODY)
        && asks(alloc, client, ENDPOINTS_BODY)
        && brings_to(client, later, 3, false)
        && finds_alone(client)
        && brings_to(client, first, 2, true)
        && client.pending(0).is_none()
}

fn a_client_keeps_apart(alloc: Global, later: &[u8], first: &[u8]) -> bool {
    by_client(
        alloc,
        |alloc, client| keeps_apart(alloc, client, later, first),
    )
}

fn answers_are_kept_apart(alloc: Global) -> bool {
    match (
        changed(alloc, ENDPOINTS_RESPONSE, 20, b"\x03"),
        changed(alloc, FIND_RESPONSE, 16, b"\x03"),
    ) {
        (Ok(later), Ok(first)) => a_client_keeps_apart(alloc, later.as_slice(), first.as_slice()),
        _ => false,
    }
}

#[test]
fn each_answer_has_its_own_request(rt: HostRuntime) {
    assert!(rt; answers_are_kept_apart(rt.alloc()));
}
