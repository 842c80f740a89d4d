//! Each refusal of the server, in the order in which it judges.

use crate::rows::Phase::{Acknowledged, Begun, Opened};
use crate::rows::{Phase, is_answered, replied, said};
use std::alloc::{AllocError, Global};
use ua_conn::End;
use ua_test_shared::bytes::{joined, numbered};
use ua_test_shared::pieces::Piece::{Bytes, Changed, EmptyParts, HelloTo};
use ua_test_shared::pieces::{Piece, made};
use ua_test_shared::vectors::{
    ABORT_TOO_LARGE, ACKNOWLEDGE, CLOSE_REQUEST, FIND_REQUEST, HELLO, OPEN_REQUEST, RENEW_REQUEST,
    REVERSE_HELLO, SIGNED_REQUEST,
};

/// What is refused: a name, how far the connection has come, what is said then, and the status.
type Refusal = (&'static str, Phase, &'static [Piece], u32);

/// The FindServers request as a middle chunk.
const MIDDLE: Piece = Changed(FIND_REQUEST, &[(3, b"C")]);

const REFUSALS: [Refusal; 38] = [
    ("unknown type", Begun, &[Bytes(b"GET / HT")], 0x807E_0000),
    (
        "wrong flag",
        Begun,
        &[Changed(HELLO, &[(3, b"C")])],
        0x807E_0000,
    ),
    (
        "size under a header",
        Begun,
        &[Changed(HELLO, &[(4, b"\x07")])],
        0x8007_0000,
    ),
    (
        "size over the limit",
        Begun,
        &[Changed(HELLO, &[(4, b"\x01\x20")])],
        0x8080_0000,
    ),
    (
        "size over the limit, on the first eight bytes",
        Begun,
        &[Bytes(b"HELF\x01\x20\0\0")],
        0x8080_0000,
    ),
    (
        "size over the limit after the Acknowledge",
        Acknowledged,
        &[Bytes(b"MSGF\0\0\x01\0")],
        0x8080_0000,
    ),
    (
        "type out of turn: an OPN first",
        Begun,
        &[Bytes(OPEN_REQUEST)],
        0x807E_0000,
    ),
    (
        "type out of turn: an Acknowledge first",
        Begun,
        &[Bytes(ACKNOWLEDGE)],
        0x807E_0000,
    ),
    (
        "type out of turn: a ReverseHello first",
        Begun,
        &[Bytes(REVERSE_HELLO)],
        0x807E_0000,
    ),
    (
        "type out of turn: a ReverseHello behind the Hello",
        Acknowledged,
        &[Bytes(REVERSE_HELLO)],
        0x807E_0000,
    ),
    (
        "type out of turn: a ReverseHello behind the opening",
        Opened,
        &[Bytes(REVERSE_HELLO)],
        0x807E_0000,
    ),
    (
        "type out of turn: two Hellos",
        Acknowledged,
        &[Bytes(HELLO)],
        0x807E_0000,
    ),
    (
        "type out of turn: a message before a channel",
        Acknowledged,
        &[Bytes(b"MSGF\x08\0\0\0")],
        0x807E_0000,
    ),
    (
        "hello layout: a shorter url",
        Begun,
        &[Changed(HELLO, &[(28, b"\x17")])],
        0x8007_0000,
    ),
    (
        "hello layout: a byte left over",
        Begun,
        &[Changed(HELLO, &[(4, b"\x39")]), Bytes(b"\0")],
        0x8007_0000,
    ),
    ("url too long", Begun, &[HelloTo(4096)], 0x8083_0000),
    (
        "buffer too small",
        Begun,
        &[Changed(HELLO, &[(12, b"\xFF\x1F")])],
        0x8081_0000,
    ),
    (
        "open layout",
        Acknowledged,
        &[Changed(OPEN_REQUEST, &[(12, b"\x30")])],
        0x8007_0000,
    ),
    (
        "open channel",
        Acknowledged,
        &[Changed(OPEN_REQUEST, &[(8, b"\x01")])],
        0x807F_0000,
    ),
    (
        "open channel: a second opening",
        Opened,
        &[Bytes(OPEN_REQUEST)],
        0x807F_0000,
    ),
    (
        "policy",
        Acknowledged,
        &[Bytes(SIGNED_REQUEST)],
        0x8055_0000,
    ),
    (
        "open sequence number",
        Opened,
        &[Changed(RENEW_REQUEST, &[(71, b"\x03")])],
        0x8088_0000,
    ),
    (
        "open inside a message",
        Opened,
        &[MIDDLE, Changed(RENEW_REQUEST, &[(71, b"\x03")])],
        0x807E_0000,
    ),
    (
        "open body",
        Acknowledged,
        &[Changed(OPEN_REQUEST, &[(81, b"\xBF")])],
        0x8007_0000,
    ),
    (
        "request type: a renewal first",
        Acknowledged,
        &[Changed(OPEN_REQUEST, &[(116, b"\x01")])],
        0x8053_0000,
    ),
    (
        "request type: a second issue",
        Opened,
        &[Changed(RENEW_REQUEST, &[(116, b"\0")])],
        0x8053_0000,
    ),
    (
        "security mode",
        Acknowledged,
        &[Changed(OPEN_REQUEST, &[(120, b"\x02")])],
        0x8054_0000,
    ),
    (
        "message layout",
        Opened,
        &[Bytes(b"MSGF\x14\0\0\0\x01\0\0\0\x01\0\0\0\x02\0\0\0")],
        0x8007_0000,
    ),
    (
        "message layout: a byte short",
        Opened,
        &[Bytes(b"MSGF\x17\0\0\0\x01\0\0\0\x01\0\0\0\x02\0\0\0\x02\0\0")],
        0x8007_0000,
    ),
    (
        "message channel",
        Opened,
        &[Changed(FIND_REQUEST, &[(8, b"\x02")])],
        0x807F_0000,
    ),
    (
        "token",
        Opened,
        &[Changed(FIND_REQUEST, &[(12, b"\x02")])],
        0x8087_0000,
    ),
    (
        "message sequence number",
        Opened,
        &[Changed(FIND_REQUEST, &[(16, b"\x03")])],
        0x8088_0000,
    ),
    (
        "other request id",
        Opened,
        &[MIDDLE, Changed(FIND_REQUEST, &[(16, b"\x03\0\0\0\x03")])],
        0x807E_0000,
    ),
    (
        "message too large: a 65th part",
        Opened,
        &[EmptyParts(65)],
        0x8080_0000,
    ),
    (
        "message body: a byte short",
        Opened,
        &[Changed(FIND_REQUEST, &[(4, b"\x5C")])],
        0x8007_0000,
    ),
    (
        "message body: a byte of the next frame",
        Opened,
        &[Changed(FIND_REQUEST, &[(4, b"\x5E")]), Bytes(CLOSE_REQUEST)],
        0x8007_0000,
    ),
    (
        "message body: an abort a byte short",
        Opened,
        &[Changed(ABORT_TOO_LARGE, &[(4, b"\x1F")])],
        0x8007_0000,
    ),
    (
        "message body: a close with a byte left over",
        Opened,
        &[
            Changed(CLOSE_REQUEST, &[(4, b"\x3A"), (16, b"\x02")]),
            Bytes(b"\0"),
        ],
        0x8007_0000,
    ),
];

/// The reply so far, and the error.
fn refusal(alloc: Global, phase: Phase, status: u32) -> Result<Vec<u8>, AllocError> {
    let error = numbered(alloc, b"ERRF", &[16, status, u32::MAX])?;
    joined(alloc, &[replied(phase), error.as_slice()])
}

/// Whether the input is refused so, however it is cut.
fn is_refused(alloc: Global, phase: Phase, input: &[Piece], status: u32) -> bool {
    match (
        made(alloc, said(phase), input),
        refusal(alloc, phase, status),
    ) {
        (Ok(input), Ok(reply)) => {
            let owed = (reply.as_slice(), 0, End::Refused(status));
            is_answered(alloc, input.as_slice(), owed)
        }
        _ => false,
    }
}

/// The name of the first row that does not hold.
fn other(alloc: Global, rows: &[Refusal]) -> Option<&'static str> {
    for (name, phase, input, status) in rows {
        if !is_refused(alloc, *phase, input, *status) {
            return Some(*name);
        }
    }
    None
}

#[test]
fn each_refusal_has_its_status(rt: HostRuntime) {
    assert_eq!(rt; other(rt.alloc(), &REFUSALS), None);
}
