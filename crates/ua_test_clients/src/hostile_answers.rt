//! What the client refuses with the first row of its table: parts of answers, and whole ones.

use crate::clients::by_client;
use crate::hostile::{Fault, Row, Stage, asks, comes_to, fails, goes_on, other};
use std::alloc::Global;
use ua_conn::{Client, ClientConfig};
use ua_test_shared::lending::passes;
use ua_test_shared::pieces::Piece;
use ua_test_shared::pieces::Piece::{Bytes, Changed, EmptyParts};
use ua_test_shared::vectors::{
    ABORT_TOO_LARGE, ENDPOINTS_BODY, ENDPOINTS_RESPONSE, FIND_BODY, FIND_RESPONSE, OPENED,
    OTHER_BODY,
};
use ua_value::UaString;

/// The first part of an answer.
const FIRST_PART: Piece = Changed(FIND_RESPONSE, &[(3, b"C")]);

const CHUNKS: [Row; 14] = [
    (
        "layout: 20 bytes",
        Stage::Asked(FIND_BODY),
        &[Bytes(b"MSGF\x14\0\0\0\x01\0\0\0\x01\0\0\0\x02\0\0\0")],
        Fault::Broken(0x8007_0000),
    ),
    (
        "layout: a byte short",
        Stage::Asked(FIND_BODY),
        &[Bytes(b"MSGF\x17\0\0\0\x01\0\0\0\x01\0\0\0\x02\0\0\0\x02\0\0")],
        Fault::Broken(0x8007_0000),
    ),
    (
        "channel",
        Stage::Asked(FIND_BODY),
        &[Changed(FIND_RESPONSE, &[(8, b"\x02")])],
        Fault::Broken(0x807F_0000),
    ),
    (
        "channel before the token",
        Stage::Asked(FIND_BODY),
        &[Changed(FIND_RESPONSE, &[(8, b"\x02\0\0\0\x02")])],
        Fault::Broken(0x807F_0000),
    ),
    (
        "token: the next",
        Stage::Asked(FIND_BODY),
        &[Changed(FIND_RESPONSE, &[(12, b"\x02")])],
        Fault::Broken(0x8087_0000),
    ),
    (
        "token: 0, before the number",
        Stage::Asked(FIND_BODY),
        &[Changed(FIND_RESPONSE, &[(12, b"\0\0\0\0\x03")])],
        Fault::Broken(0x8087_0000),
    ),
    (
        "sequence number: one left out",
        Stage::Asked(FIND_BODY),
        &[Changed(FIND_RESPONSE, &[(16, b"\x03")])],
        Fault::Broken(0x8088_0000),
    ),
    (
        "sequence number: once more",
        Stage::Asked(FIND_BODY),
        &[Changed(FIND_RESPONSE, &[(16, b"\x01")])],
        Fault::Broken(0x8088_0000),
    ),
    (
        "other request id, which is pending as well",
        Stage::AskedTwice,
        &[
            FIRST_PART,
            Changed(FIND_RESPONSE, &[(16, b"\x03\0\0\0\x03")]),
        ],
        Fault::Broken(0x807E_0000),
    ),
    (
        "other request id before one that is not pending",
        Stage::AskedTwice,
        &[
            FIRST_PART,
            Changed(FIND_RESPONSE, &[(16, b"\x03\0\0\0\x09")]),
        ],
        Fault::Broken(0x807E_0000),
    ),
    (
        "not pending: nothing was asked",
        Stage::Opened,
        &[Bytes(FIND_RESPONSE)],
        Fault::Broken(0x8009_0000),
    ),
    (
        "not pending: the id of a renewal",
        Stage::Renewing,
        &[Bytes(FIND_RESPONSE)],
        Fault::Broken(0x8009_0000),
    ),
    (
        "not pending: answered before",
        Stage::Asked(FIND_BODY),
        &[
            Bytes(FIND_RESPONSE),
            Changed(FIND_RESPONSE, &[(16, b"\x03")]),
        ],
        Fault::Broken(0x8009_0000),
    ),
    (
        "own limits: a 65th part",
        Stage::Asked(FIND_BODY),
        &[EmptyParts(65)],
        Fault::Broken(0x8080_0000),
    ),
];

#[test]
fn chunks_of_answers_are_refused(rt: HostRuntime) {
    assert_eq!(rt; other(rt.alloc(), &CHUNKS), None);
}

const ANSWERS: [Row; 9] = [
    (
        "body: of no response",
        Stage::Asked(FIND_BODY),
        &[Changed(FIND_RESPONSE, &[(26, b"\xAA")])],
        Fault::Broken(0x8007_0000),
    ),
    (
        "body: a byte left over",
        Stage::Asked(FIND_BODY),
        &[Changed(FIND_RESPONSE, &[(4, b"\x87")]), Bytes(b"\0")],
        Fault::Broken(0x8007_0000),
    ),
    (
        "body: none",
        Stage::Asked(FIND_BODY),
        &[Bytes(b"MSGF\x18\0\0\0\x01\0\0\0\x01\0\0\0\x02\0\0\0\x02\0\0\0")],
        Fault::Broken(0x8007_0000),
    ),
    (
        "body: an abort without a reason",
        Stage::Asked(FIND_BODY),
        &[Bytes(b"MSGA\x1C\0\0\0\x01\0\0\0\x01\0\0\0\x02\0\0\0\x02\0\0\0\0\0\xB9\x80")],
        Fault::Broken(0x8007_0000),
    ),
    (
        "body: an abort with a byte left over",
        Stage::Asked(FIND_BODY),
        &[Changed(ABORT_TOO_LARGE, &[(4, b"\x21")]), Bytes(b"\0")],
        Fault::Broken(0x8007_0000),
    ),
    (
        "servers asked for, endpoints found",
        Stage::Asked(FIND_BODY),
        &[Bytes(ENDPOINTS_RESPONSE)],
        Fault::Broken(0x8009_0000),
    ),
    (
        "endpoints asked for, servers found",
        Stage::Asked(ENDPOINTS_BODY),
        &[Bytes(FIND_RESPONSE)],
        Fault::Broken(0x8009_0000),
    ),
    (
        "another service asked for, servers found",
        Stage::Asked(OTHER_BODY),
        &[Bytes(FIND_RESPONSE)],
        Fault::Broken(0x8009_0000),
    ),
    (
        "another service asked for, endpoints found",
        Stage::Asked(OTHER_BODY),
        &[Bytes(ENDPOINTS_RESPONSE)],
        Fault::Broken(0x8009_0000),
    ),
];

#[test]
fn answers_of_other_bodies_are_refused(rt: HostRuntime) {
    assert_eq!(rt; other(rt.alloc(), &ANSWERS), None);
}

/// The last moment at which a token of one hour from the moment 0 on is alive, and the one behind it.
const LAST: i64 = 44_999_999_999;

const TOO_LATE: i64 = 45_000_000_000;

fn is_in_time(alloc: Global, client: &mut Client) -> bool {
    comes_to(alloc, client, Stage::Asked(FIND_BODY)) && goes_on(client, LAST, FIND_RESPONSE)
}

fn is_too_late(alloc: Global, client: &mut Client) -> bool {
    let late = Fault::Broken(0x8087_0000);
    comes_to(alloc, client, Stage::Asked(FIND_BODY)) && fails(client, TOO_LATE, FIND_RESPONSE, late)
}

#[test]
fn answers_come_while_their_token_is_alive(rt: HostRuntime) {
    assert!(rt; by_client(rt.alloc(), is_in_time));
    assert!(rt; by_client(rt.alloc(), is_too_late));
}

/// A client that takes answers of 110 bytes, as long as the one that comes, and one that takes a byte less.
const WIDE: ClientConfig = ClientConfig {
    buffer: 65535,
    max_message: 110,
    max_chunks: 1,
    lifetime: 0,
};

const NARROW: ClientConfig = ClientConfig {
    buffer: 65535,
    max_message: 109,
    max_chunks: 1,
    lifetime: 0,
};

fn is_heard(alloc: Global, client: &mut Client) -> bool {
    goes_on(client, 0, OPENED)
        && asks(alloc, client, FIND_BODY)
        && goes_on(client, 0, FIND_RESPONSE)
}

fn is_over_limits(alloc: Global, client: &mut Client) -> bool {
    goes_on(client, 0, OPENED)
        && asks(alloc, client, FIND_BODY)
        && fails(client, 0, FIND_RESPONSE, Fault::Broken(0x8080_0000))
}

fn wide_hears(alloc: Global) -> bool {
    let client = Client::new(alloc, WIDE, &UaString::null(), 1).ok();
    passes(client, |client| is_heard(alloc, client))
}

fn narrow_refuses(alloc: Global) -> bool {
    let client = Client::new(alloc, NARROW, &UaString::null(), 1).ok();
    passes(client, |client| is_over_limits(alloc, client))
}

#[test]
fn answers_are_within_the_limits_of_the_client(rt: HostRuntime) {
    assert!(rt; wide_hears(rt.alloc()));
    assert!(rt; narrow_refuses(rt.alloc()));
}
