//! Conversations of both ends, byte for byte.

ghost use Rattle.ua_conn.specs.BothEnds.{IsConfig};

use crate::telling::{Act, CONFIG, DOWN, Told, UP, tells, tells_pieces};
use std::alloc::{AllocError, Global};
use ua_conn::ClientConfig;
use ua_disco::DEFAULT;
use ua_test_lent::hundred_endpoints;
use ua_test_shared::parts::{SMALL, chunks_of, four_chunks};
use ua_test_shared::pieces::Piece::{Bytes, Changed};
use ua_test_shared::pieces::{Piece, made};
use ua_test_shared::vectors::{
    ABORT_TOO_LARGE, ACKNOWLEDGE, ENDPOINTS_BODY, ENDPOINTS_REQUEST, ENDPOINTS_RESPONSE,
    FAULT_RESPONSE, FIND_BODY, FIND_REQUEST, FIND_RESPONSE, HELLO, OPEN_REQUEST, OPEN_RESPONSE,
    OTHER_BODY, OTHER_REQUEST, RENEW_REQUEST, RENEW_RESPONSE,
};

/// The Hello of the client: it takes answers of 1048576 bytes in 64 chunks.
const GREETING: Piece = Changed(HELLO, &[(20, b"\0\0\x10\0\x40")]);

/// What is told of steps: they, what both ends say, and the answers.
type Row = (
    &'static [Act],
    &'static [Piece],
    &'static [Piece],
    &'static [(u32, Option<u32>)],
);

/// Each frame of the opening and of one request is delivered by its length.
const ONE_REQUEST: Row = (
    &[
        Act::Up(56),
        Act::Down(28),
        Act::Up(132),
        Act::Down(135),
        Act::Ask(FIND_BODY, 69),
        Act::Up(93),
        Act::Down(134),
    ],
    &[GREETING, Bytes(OPEN_REQUEST), Bytes(FIND_REQUEST)],
    &[
        Bytes(ACKNOWLEDGE),
        Bytes(OPEN_RESPONSE),
        Bytes(FIND_RESPONSE),
    ],
    &[(2, None)],
);

/// A request that is asked while the second token is on the way names the first, and so does its answer, though the server has granted a third by
/// then. What is asked behind that names the third.
const TWO_RENEWALS: Row = (
    &[
        UP,
        DOWN,
        UP,
        DOWN,
        Act::Renew,
        UP,
        Act::Ask(FIND_BODY, 69),
        DOWN,
        Act::Renew,
        UP,
        DOWN,
        Act::Ask(FIND_BODY, 69),
        UP,
        DOWN,
    ],
    &[
        GREETING,
        Bytes(OPEN_REQUEST),
        Bytes(RENEW_REQUEST),
        Changed(FIND_REQUEST, &[(16, b"\x03\0\0\0\x03")]),
        Changed(RENEW_REQUEST, &[(71, b"\x04\0\0\0\x04"), (93, b"\x04")]),
        Changed(FIND_REQUEST, &[(12, b"\x03\0\0\0\x05\0\0\0\x05")]),
    ],
    &[
        Bytes(ACKNOWLEDGE),
        Bytes(OPEN_RESPONSE),
        Bytes(RENEW_RESPONSE),
        Changed(FIND_RESPONSE, &[(16, b"\x03\0\0\0\x03")]),
        Changed(
            RENEW_RESPONSE,
            &[(71, b"\x04\0\0\0\x04"), (91, b"\x04"), (115, b"\x03")],
        ),
        Changed(FIND_RESPONSE, &[(12, b"\x03\0\0\0\x05\0\0\0\x05")]),
    ],
    &[(3, None), (5, None)],
);

/// Requests for the servers with these URIs.
const FIND_A: &[u8] =
    b"\x01\0\xA6\x01\0\0\0\0\0\0\0\0\0\0\x02\0\0\0\0\0\0\0\xFF\xFF\xFF\xFF\0\0\0\0\0\0\0\x18\0\0\0opc.tcp://localhost:4840\xFF\xFF\xFF\xFF\x01\0\0\0\x05\0\0\0urn:a";

const FIND_B: &[u8] =
    b"\x01\0\xA6\x01\0\0\0\0\0\0\0\0\0\0\x02\0\0\0\0\0\0\0\xFF\xFF\xFF\xFF\0\0\0\0\0\0\0\x18\0\0\0opc.tcp://localhost:4840\xFF\xFF\xFF\xFF\x01\0\0\0\x05\0\0\0urn:b";

/// An answer without servers, under id 3 and with number 3.
const NO_SERVERS: &[u8] =
    b"MSGF\x38\0\0\0\x01\0\0\0\x01\0\0\0\x03\0\0\0\x03\0\0\0\x01\0\xA9\x01\0\0\0\0\0\0\0\0\x02\0\0\0\0\0\0\0\0\xFF\xFF\xFF\xFF\0\0\0\0\0\0\0";

/// Two requests are in flight at once.
const TWO_REQUESTS: Row = (
    &[
        UP,
        DOWN,
        UP,
        DOWN,
        Act::Ask(FIND_A, 8168),
        Act::Ask(FIND_B, 8168),
        UP,
        DOWN,
    ],
    &[
        GREETING,
        Bytes(OPEN_REQUEST),
        Bytes(b"MSGF\x66\0\0\0\x01\0\0\0\x01\0\0\0\x02\0\0\0\x02\0\0\0"),
        Bytes(FIND_A),
        Bytes(b"MSGF\x66\0\0\0\x01\0\0\0\x01\0\0\0\x03\0\0\0\x03\0\0\0"),
        Bytes(FIND_B),
    ],
    &[
        Bytes(ACKNOWLEDGE),
        Bytes(OPEN_RESPONSE),
        Bytes(FIND_RESPONSE),
        Bytes(NO_SERVERS),
    ],
    &[(2, None), (3, None)],
);

/// Two requests, one after the other.
const FIND_THEN_OTHER: &[Act] = &[
    UP,
    DOWN,
    UP,
    DOWN,
    Act::Ask(FIND_BODY, 69),
    UP,
    DOWN,
    Act::Ask(OTHER_BODY, 69),
    UP,
    DOWN,
];

const OTHER_REQUEST_BEHIND: Piece = Changed(OTHER_REQUEST, &[(16, b"\x03\0\0\0\x03")]);

const FAULT_BEHIND: Piece = Changed(FAULT_RESPONSE, &[(16, b"\x03\0\0\0\x03")]);

/// An answer of 110 bytes is given up where the client takes 109, and the client goes on.
const WITHIN_109: Row = (
    FIND_THEN_OTHER,
    &[
        Changed(HELLO, &[(20, b"\x6D\0\0\0\x40")]),
        Bytes(OPEN_REQUEST),
        Bytes(FIND_REQUEST),
        OTHER_REQUEST_BEHIND,
    ],
    &[
        Bytes(ACKNOWLEDGE),
        Bytes(OPEN_RESPONSE),
        Bytes(ABORT_TOO_LARGE),
        FAULT_BEHIND,
    ],
    &[(2, Some(0x80B9_0000)), (3, None)],
);

const WITHIN_110: Row = (
    FIND_THEN_OTHER,
    &[
        Changed(HELLO, &[(20, b"\x6E\0\0\0\x40")]),
        Bytes(OPEN_REQUEST),
        Bytes(FIND_REQUEST),
        OTHER_REQUEST_BEHIND,
    ],
    &[
        Bytes(ACKNOWLEDGE),
        Bytes(OPEN_RESPONSE),
        Bytes(FIND_RESPONSE),
        FAULT_BEHIND,
    ],
    &[(2, None), (3, None)],
);

const TAKES_109: ClientConfig = ClientConfig {
    buffer: 65535,
    max_message: 109,
    max_chunks: 64,
    lifetime: 0,
};

const TAKES_110: ClientConfig = ClientConfig {
    buffer: 65535,
    max_message: 110,
    max_chunks: 64,
    lifetime: 0,
};

/// Whether the row is told; none where memory ran out.
fn holds(alloc: Global, config: ClientConfig, row: Row) -> Option<bool>
    requires { IsConfig config }
{
    let (acts, up, down, answers) = row;
    tells_pieces(alloc, DEFAULT, config, acts, (up, down), answers)
}

#[test]
fn each_frame_has_its_length(rt: HostRuntime) {
    assert!(rt; holds(rt.alloc(), CONFIG, ONE_REQUEST) == Some(true));
}

#[test]
fn one_request_or_no_memory(rt: HostRuntime) {
    assert!(rt; holds(rt.alloc(), CONFIG, ONE_REQUEST) != Some(false));
}

#[test]
fn answers_name_the_token_of_their_request(rt: HostRuntime) {
    assert!(rt; holds(rt.alloc(), CONFIG, TWO_RENEWALS) == Some(true));
}

#[test]
fn two_renewals_or_no_memory(rt: HostRuntime) {
    assert!(rt; holds(rt.alloc(), CONFIG, TWO_RENEWALS) != Some(false));
}

#[test]
fn two_requests_in_flight_are_answered_apart(rt: HostRuntime) {
    assert!(rt; holds(rt.alloc(), CONFIG, TWO_REQUESTS) == Some(true));
}

#[test]
fn an_answer_over_the_limit_is_aborted(rt: HostRuntime) {
    assert!(rt; holds(rt.alloc(), TAKES_109, WITHIN_109) == Some(true));
    assert!(rt; holds(rt.alloc(), TAKES_110, WITHIN_110) == Some(true));
}

/// Part limits that are refused, one with more parts than the server takes, and one that is taken.
const IN_PARTS: [Act; 10] = [
    UP,
    DOWN,
    UP,
    DOWN,
    Act::Ask(ENDPOINTS_BODY, 0),
    Act::Ask(ENDPOINTS_BODY, 65512),
    Act::Ask(ENDPOINTS_BODY, 1),
    Act::Ask(ENDPOINTS_BODY, 2),
    UP,
    DOWN,
];

fn opened_up(alloc: Global, hello: Piece, request: &[u8]) -> Result<Vec<u8>, AllocError> {
    let mut up = made(alloc, b"", &[hello, Bytes(OPEN_REQUEST)])?;
    up.extend_from_slice(request)?;
    Ok(up)
}

fn opened_down(alloc: Global, acknowledge: Piece, answer: &[u8]) -> Result<Vec<u8>, AllocError> {
    let mut down = made(alloc, b"", &[acknowledge, Bytes(OPEN_RESPONSE)])?;
    down.extend_from_slice(answer)?;
    Ok(down)
}

/// Whether these steps behind an opening make both ends say that, and come to one answer.
fn tells_one(
    alloc: Global,
    text: &str,
    config: ClientConfig,
    acts: &[Act],
    up: (Piece, &[u8]),
    down: (Piece, &[u8]),
    status: Option<u32>,
) -> Option<bool>
    requires { IsConfig config }
{
    match (
        opened_up(alloc, up.0, up.1),
        opened_down(alloc, down.0, down.1),
    ) {
        (Ok(up), Ok(down)) => {
            let answers = [(2, status)];
            let told = Told {
                up: up.as_slice(),
                down: down.as_slice(),
                answers: &answers,
            };
            tells(alloc, text, config, acts, told)
        }
        _ => None,
    }
}

/// 35 chunks.
fn is_asked_in_parts(alloc: Global) -> Option<bool> {
    match chunks_of(alloc, ENDPOINTS_BODY, 2) {
        Ok(parts) => tells_one(
            alloc,
            DEFAULT,
            CONFIG,
            &IN_PARTS,
            (GREETING, parts.as_slice()),
            (Bytes(ACKNOWLEDGE), ENDPOINTS_RESPONSE),
            None,
        ),
        Err(_) => None,
    }
}

#[test]
fn a_request_is_asked_in_parts(rt: HostRuntime) {
    assert!(rt; is_asked_in_parts(rt.alloc()) == Some(true));
}

/// A client of the least buffer, and one that takes three chunks as well.
const TAKES_64_CHUNKS: ClientConfig = ClientConfig {
    buffer: 8192,
    max_message: 1_048_576,
    max_chunks: 64,
    lifetime: 0,
};

const TAKES_3_CHUNKS: ClientConfig = ClientConfig {
    buffer: 8192,
    max_message: 1_048_576,
    max_chunks: 3,
    lifetime: 0,
};

const HELLO_FOR_64: Piece = Changed(HELLO, &[(12, b"\0\x20\0\0\0\x20"), (20, b"\0\0\x10\0\x40")]);

const HELLO_FOR_3: Piece = Changed(HELLO, &[(12, b"\0\x20\0\0\0\x20"), (20, b"\0\0\x10\0\x03")]);

const FOR_ENDPOINTS: [Act; 7] = [UP, DOWN, UP, DOWN, Act::Ask(ENDPOINTS_BODY, 69), UP, DOWN];

/// Whether a client gets the four chunks of a large answer.
fn is_cut(alloc: Global, text: &str, chunks: &[u8]) -> Option<bool> {
    tells_one(
        alloc,
        text,
        TAKES_64_CHUNKS,
        &FOR_ENDPOINTS,
        (HELLO_FOR_64, ENDPOINTS_REQUEST),
        (Changed(ACKNOWLEDGE, SMALL), chunks),
        None,
    )
}

/// Whether a client that takes three gets an abort in their place.
fn is_aborted(alloc: Global, text: &str) -> Option<bool> {
    tells_one(
        alloc,
        text,
        TAKES_3_CHUNKS,
        &FOR_ENDPOINTS,
        (HELLO_FOR_3, ENDPOINTS_REQUEST),
        (Changed(ACKNOWLEDGE, SMALL), ABORT_TOO_LARGE),
        Some(0x80B9_0000),
    )
}

fn large_is_cut(alloc: Global) -> Option<bool> {
    match (hundred_endpoints(alloc), four_chunks(alloc)) {
        (Ok(text), Ok(chunks)) => is_cut(alloc, text.as_str(), chunks.as_slice()),
        _ => None,
    }
}

fn large_is_aborted(alloc: Global) -> Option<bool> {
    match hundred_endpoints(alloc) {
        Ok(text) => is_aborted(alloc, text.as_str()),
        Err(_) => None,
    }
}

#[test]
fn a_large_answer_comes_in_chunks_or_is_aborted(rt: HostRuntime) {
    assert!(rt; large_is_cut(rt.alloc()) == Some(true));
    assert!(rt; large_is_aborted(rt.alloc()) == Some(true));
}

#[test]
fn a_large_answer_or_no_memory(rt: HostRuntime) {
    assert!(rt; large_is_cut(rt.alloc()) != Some(false));
}

#[test]
fn an_aborted_answer_or_no_memory(rt: HostRuntime) {
    assert!(rt; large_is_aborted(rt.alloc()) != Some(false));
}
