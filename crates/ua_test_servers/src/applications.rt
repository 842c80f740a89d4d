//! What a server of several applications answers.

use crate::rows::says;
use std::alloc::Global;
use ua_conn::End;
use ua_test_shared::applications::{BOTH_FOUND, OVEN, PRESS_AND_OVEN};
use ua_test_shared::bytes::{chunk, joined};
use ua_test_shared::vectors::{
    ABORT_TOO_LARGE, ACKNOWLEDGE, ENDPOINTS_REQUEST, ENDPOINTS_RESPONSE, FIND_BODY, FIND_REQUEST,
    HELLO, OPEN_REQUEST, OPEN_RESPONSE, SERVERS_FOUND,
};

/// Whether a server of both replies so to these frames, behind an opening whose Hello takes messages of so many bytes.
fn replies(alloc: Global, most: &[u8], asked: &[u8], answered: &[u8]) -> bool {
    let input = joined(
        alloc,
        &[&HELLO[..20], most, &HELLO[24..], OPEN_REQUEST, asked],
    );
    match (
        input,
        joined(alloc, &[ACKNOWLEDGE, OPEN_RESPONSE, answered]),
    ) {
        (Ok(input), Ok(reply)) => says(
            alloc,
            PRESS_AND_OVEN,
            &[(0, input.as_slice())],
            (reply.as_slice(), 1, End::InputEnded),
        ),
        _ => false,
    }
}

/// The same with the answer by the parts of its body.
fn replies_with(alloc: Global, most: &[u8], asked: &[u8], found: &[&[u8]]) -> bool {
    let Ok(body) = joined(alloc, found) else {
        return false;
    };
    match chunk(alloc, b"MSGF", [1, 2, 2], body.as_slice()) {
        Ok(answer) => replies(alloc, most, asked, answer.as_slice()),
        Err(_) => false,
    }
}

/// Any message is taken.
const ANY: &[u8] = b"\0\0\0\0";

#[test]
fn servers_are_found_in_their_order(rt: HostRuntime) {
    assert!(rt; replies_with(rt.alloc(), ANY, FIND_REQUEST, &BOTH_FOUND));
}

/// The request with `urn:b` among its ServerUris.
fn asks_for_one(alloc: Global) -> bool {
    let asked = [&FIND_BODY[..65], b"\x01\0\0\0\x05\0\0\0urn:b"];
    let Ok(body) = joined(alloc, &asked) else {
        return false;
    };
    match chunk(alloc, b"MSGF", [1, 2, 2], body.as_slice()) {
        Ok(frame) => {
            let found: [&[u8]; 3] = [SERVERS_FOUND, b"\x01\0\0\0", OVEN];
            replies_with(alloc, ANY, frame.as_slice(), &found)
        }
        Err(_) => false,
    }
}

#[test]
fn one_of_the_servers_is_found_by_its_uri(rt: HostRuntime) {
    assert!(rt; asks_for_one(rt.alloc()));
}

#[test]
fn the_first_application_is_the_server_of_the_endpoints(rt: HostRuntime) {
    assert!(rt; replies(rt.alloc(), ANY, ENDPOINTS_REQUEST, ENDPOINTS_RESPONSE));
}

#[test]
fn an_answer_of_two_servers_is_too_large_by_a_byte(rt: HostRuntime) {
    let alloc = rt.alloc();
    assert!(rt; replies(alloc, b"\x93\0\0\0", FIND_REQUEST, ABORT_TOO_LARGE));
    assert!(rt; replies_with(alloc, b"\x94\0\0\0", FIND_REQUEST, &BOTH_FOUND));
}
