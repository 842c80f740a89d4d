//! What the client refuses with the first row of its table: headers, types, Acknowledges, and what a server says of its own failure.

use crate::hostile::{Fault, Row, Stage, other};
use ua_test_shared::pieces::Piece::{Bytes, Changed};
use ua_test_shared::vectors::{
    ACKNOWLEDGE, CLOSE_REQUEST, FIND_BODY, FIND_RESPONSE, HELLO, OPEN_RESPONSE, RENEW_RESPONSE,
    REVERSE_HELLO,
};

/// A header is judged as soon as its eight bytes are there.
const HEADERS: [Row; 8] = [
    (
        "unknown type",
        Stage::Greeting,
        &[Bytes(b"HTTP/1.1")],
        Fault::Broken(0x807E_0000),
    ),
    (
        "wrong flag of an Acknowledge",
        Stage::Greeting,
        &[Bytes(b"ACKC\x1C\0\0\0")],
        Fault::Broken(0x807E_0000),
    ),
    (
        "wrong flag of an OPN",
        Stage::Agreed,
        &[Bytes(b"OPNA\x87\0\0\0")],
        Fault::Broken(0x807E_0000),
    ),
    (
        "wrong flag of a message",
        Stage::Opened,
        &[Bytes(b"MSGX\x86\0\0\0")],
        Fault::Broken(0x807E_0000),
    ),
    (
        "size under a header",
        Stage::Greeting,
        &[Bytes(b"ACKF\x07\0\0\0")],
        Fault::Broken(0x8007_0000),
    ),
    (
        "size over 8192 before the Acknowledge",
        Stage::Greeting,
        &[Bytes(b"ACKF\x01\x20\0\0")],
        Fault::Broken(0x8080_0000),
    ),
    (
        "size over the greatest after the Acknowledge",
        Stage::Agreed,
        &[Bytes(b"OPNF\0\0\x01\0")],
        Fault::Broken(0x8080_0000),
    ),
    (
        "size over what the Acknowledge says",
        Stage::Greeting,
        &[
            Changed(ACKNOWLEDGE, &[(16, b"\0\x20")]),
            Bytes(b"OPNF\x01\x20\0\0"),
        ],
        Fault::Broken(0x8080_0000),
    ),
];

#[test]
fn headers_are_refused_at_their_eighth_byte(rt: HostRuntime) {
    assert_eq!(rt; other(rt.alloc(), &HEADERS), None);
}

const OUT_OF_TURN: Fault = Fault::Broken(0x807E_0000);

const TYPES: [Row; 11] = [
    (
        "a ReverseHello",
        Stage::Greeting,
        &[Bytes(REVERSE_HELLO)],
        OUT_OF_TURN,
    ),
    (
        "an OPN first",
        Stage::Greeting,
        &[Bytes(OPEN_RESPONSE)],
        OUT_OF_TURN,
    ),
    (
        "a message first",
        Stage::Greeting,
        &[Bytes(FIND_RESPONSE)],
        OUT_OF_TURN,
    ),
    (
        "two Acknowledges",
        Stage::Agreed,
        &[Bytes(ACKNOWLEDGE)],
        OUT_OF_TURN,
    ),
    (
        "a message before a channel",
        Stage::Agreed,
        &[Bytes(FIND_RESPONSE)],
        OUT_OF_TURN,
    ),
    (
        "an Acknowledge behind the opening",
        Stage::Opened,
        &[Bytes(ACKNOWLEDGE)],
        OUT_OF_TURN,
    ),
    (
        "an OPN that nothing asked for",
        Stage::Opened,
        &[Bytes(RENEW_RESPONSE)],
        OUT_OF_TURN,
    ),
    (
        "a second OPN to one renewal",
        Stage::Renewing,
        &[
            Bytes(RENEW_RESPONSE),
            Changed(RENEW_RESPONSE, &[(71, b"\x03")]),
        ],
        OUT_OF_TURN,
    ),
    (
        "an Acknowledge in the place of a renewal",
        Stage::Renewing,
        &[Bytes(ACKNOWLEDGE)],
        OUT_OF_TURN,
    ),
    (
        "a close",
        Stage::Opened,
        &[Bytes(CLOSE_REQUEST)],
        OUT_OF_TURN,
    ),
    ("a Hello", Stage::Opened, &[Bytes(HELLO)], OUT_OF_TURN),
];

#[test]
fn types_out_of_turn_are_refused(rt: HostRuntime) {
    assert_eq!(rt; other(rt.alloc(), &TYPES), None);
}

/// The client takes and sends 65535 bytes.
const ACKNOWLEDGES: [Row; 7] = [
    (
        "layout: a byte short",
        Stage::Greeting,
        &[Bytes(b"ACKF\x1B\0\0\0\0\0\0\0\xFF\xFF\0\0\xFF\xFF\0\0\0\0\x10\0\x40\0\0")],
        Fault::Broken(0x8007_0000),
    ),
    (
        "layout: a byte left over",
        Stage::Greeting,
        &[Changed(ACKNOWLEDGE, &[(4, b"\x1D")]), Bytes(b"\0")],
        Fault::Broken(0x8007_0000),
    ),
    (
        "layout before what is acceptable",
        Stage::Greeting,
        &[
            Changed(ACKNOWLEDGE, &[(4, b"\x1D"), (12, b"\0\0\x01")]),
            Bytes(b"\0"),
        ],
        Fault::Broken(0x8007_0000),
    ),
    (
        "receives more than the client sends",
        Stage::Greeting,
        &[Changed(ACKNOWLEDGE, &[(12, b"\0\0\x01")])],
        Fault::Broken(0x8081_0000),
    ),
    (
        "sends more than the client receives",
        Stage::Greeting,
        &[Changed(ACKNOWLEDGE, &[(16, b"\0\0\x01")])],
        Fault::Broken(0x8081_0000),
    ),
    (
        "receives under 8192 bytes",
        Stage::Greeting,
        &[Changed(ACKNOWLEDGE, &[(12, b"\xFF\x1F")])],
        Fault::Broken(0x8081_0000),
    ),
    (
        "sends under 8192 bytes",
        Stage::Greeting,
        &[Changed(ACKNOWLEDGE, &[(16, b"\xFF\x1F")])],
        Fault::Broken(0x8081_0000),
    ),
];

#[test]
fn acknowledges_are_laid_out_and_acceptable(rt: HostRuntime) {
    assert_eq!(rt; other(rt.alloc(), &ACKNOWLEDGES), None);
}

/// An ERR without a reason, and one with a reason.
const ERROR: &[u8] = b"ERRF\x10\0\0\0\0\0\x7E\x80\xFF\xFF\xFF\xFF";

const ERROR_WITH_REASON: &[u8] = b"ERRF\x13\0\0\0\0\0\x87\x80\x03\0\0\0why";

/// An ERR may come at any time.
const ERRORS: [Row; 9] = [
    (
        "before the Acknowledge",
        Stage::Greeting,
        &[Bytes(ERROR)],
        Fault::Said(0x807E_0000, None),
    ),
    (
        "before the channel",
        Stage::Agreed,
        &[Bytes(ERROR)],
        Fault::Said(0x807E_0000, None),
    ),
    (
        "behind the opening",
        Stage::Opened,
        &[Bytes(ERROR_WITH_REASON)],
        Fault::Said(0x8087_0000, Some("why")),
    ),
    (
        "in the place of a renewal",
        Stage::Renewing,
        &[Bytes(ERROR_WITH_REASON)],
        Fault::Said(0x8087_0000, Some("why")),
    ),
    (
        "inside an answer",
        Stage::Asked(FIND_BODY),
        &[Changed(FIND_RESPONSE, &[(3, b"C")]), Bytes(ERROR)],
        Fault::Said(0x807E_0000, None),
    ),
    (
        "behind an answer",
        Stage::Asked(FIND_BODY),
        &[Bytes(FIND_RESPONSE), Bytes(ERROR)],
        Fault::Said(0x807E_0000, None),
    ),
    (
        "layout: no reason",
        Stage::Greeting,
        &[Bytes(b"ERRF\x0C\0\0\0\0\0\x7E\x80")],
        Fault::Broken(0x8007_0000),
    ),
    (
        "layout: a byte left over",
        Stage::Opened,
        &[Bytes(b"ERRF\x11\0\0\0\0\0\x7E\x80\xFF\xFF\xFF\xFF\0")],
        Fault::Broken(0x8007_0000),
    ),
    (
        "layout: a reason that is no text",
        Stage::Opened,
        &[Bytes(b"ERRF\x11\0\0\0\0\0\x7E\x80\x01\0\0\0\xFF")],
        Fault::Broken(0x8007_0000),
    ),
];

#[test]
fn errors_are_told_at_any_time(rt: HostRuntime) {
    assert_eq!(rt; other(rt.alloc(), &ERRORS), None);
}
