//! What the client refuses with the first row of its table: open responses, the first one and those of renewals.

use crate::hostile::{Fault, Row, Stage, other};
use ua_test_shared::pieces::Piece;
use ua_test_shared::pieces::Piece::{Bytes, Changed};
use ua_test_shared::vectors::{FIND_RESPONSE, OPEN_RESPONSE, RENEW_RESPONSE};

/// An OPN whose body is a fault of the service.
const FAULT_OPENING: &[u8] =
    b"OPNF\x6B\0\0\0\x01\0\0\0\x2F\0\0\0http://opcfoundation.org/UA/SecurityPolicy#None\xFF\xFF\xFF\xFF\xFF\xFF\xFF\xFF\x01\0\0\0\x01\0\0\0\x01\0\x8D\x01\0\0\0\0\0\0\0\0\x01\0\0\0\0\0\x0B\x80\0\xFF\xFF\xFF\xFF\0\0\0";

/// The first OPN; its sequence number is free.
const OPENINGS: [Row; 11] = [
    (
        "layout",
        Stage::Agreed,
        &[Changed(OPEN_RESPONSE, &[(12, b"\x30")])],
        Fault::Broken(0x8007_0000),
    ),
    (
        "channel 0",
        Stage::Agreed,
        &[Changed(OPEN_RESPONSE, &[(8, b"\0")])],
        Fault::Broken(0x807F_0000),
    ),
    (
        "channel 0 before the policy",
        Stage::Agreed,
        &[Changed(OPEN_RESPONSE, &[(8, b"\0"), (62, b"X")])],
        Fault::Broken(0x807F_0000),
    ),
    (
        "policy",
        Stage::Agreed,
        &[Changed(OPEN_RESPONSE, &[(62, b"X")])],
        Fault::Broken(0x8055_0000),
    ),
    (
        "other open request",
        Stage::Agreed,
        &[Changed(OPEN_RESPONSE, &[(71, b"\x09\0\0\0\x02")])],
        Fault::Broken(0x8009_0000),
    ),
    (
        "body: a request",
        Stage::Agreed,
        &[Changed(OPEN_RESPONSE, &[(81, b"\xBE")])],
        Fault::Broken(0x8007_0000),
    ),
    (
        "body: a byte left over",
        Stage::Agreed,
        &[Changed(OPEN_RESPONSE, &[(4, b"\x88")]), Bytes(b"\0")],
        Fault::Broken(0x8007_0000),
    ),
    (
        "body: a fault of the service",
        Stage::Agreed,
        &[Bytes(FAULT_OPENING)],
        Fault::Broken(0x8007_0000),
    ),
    (
        "service refused",
        Stage::Agreed,
        &[Changed(OPEN_RESPONSE, &[(95, b"\0\0\x0B\x80")])],
        Fault::Said(0x800B_0000, None),
    ),
    (
        "service refused, with the least bad result, before the channel in the body",
        Stage::Agreed,
        &[Changed(OPEN_RESPONSE, &[(95, b"\0\0\0\x80"), (111, b"\x02")])],
        Fault::Said(0x8000_0000, None),
    ),
    (
        "channel in the body",
        Stage::Agreed,
        &[Changed(OPEN_RESPONSE, &[(95, b"\xFF\xFF\xFF\x7F"), (111, b"\x02")])],
        Fault::Broken(0x807F_0000),
    ),
];

#[test]
fn open_responses_are_refused(rt: HostRuntime) {
    assert_eq!(rt; other(rt.alloc(), &OPENINGS), None);
}

/// The first part of an answer.
const FIRST_PART: Piece = Changed(FIND_RESPONSE, &[(3, b"C")]);

/// The OPN of a renewal, behind an OPN with number 1.
const RENEWALS: [Row; 10] = [
    (
        "layout",
        Stage::Renewing,
        &[Changed(RENEW_RESPONSE, &[(12, b"\x30")])],
        Fault::Broken(0x8007_0000),
    ),
    (
        "another channel",
        Stage::Renewing,
        &[Changed(RENEW_RESPONSE, &[(8, b"\x02"), (111, b"\x02")])],
        Fault::Broken(0x807F_0000),
    ),
    (
        "policy",
        Stage::Renewing,
        &[Changed(RENEW_RESPONSE, &[(62, b"X")])],
        Fault::Broken(0x8055_0000),
    ),
    (
        "sequence number: one left out",
        Stage::Renewing,
        &[Changed(RENEW_RESPONSE, &[(71, b"\x03")])],
        Fault::Broken(0x8088_0000),
    ),
    (
        "sequence number: begun again",
        Stage::Renewing,
        &[Changed(RENEW_RESPONSE, &[(71, b"\x01")])],
        Fault::Broken(0x8088_0000),
    ),
    (
        "inside a message",
        Stage::AskedAndRenewing,
        &[
            FIRST_PART,
            Changed(RENEW_RESPONSE, &[(71, b"\x03\0\0\0\x03")]),
        ],
        Fault::Broken(0x807E_0000),
    ),
    (
        "inside a message, before the other open request",
        Stage::AskedAndRenewing,
        &[
            FIRST_PART,
            Changed(RENEW_RESPONSE, &[(71, b"\x03\0\0\0\x02")]),
        ],
        Fault::Broken(0x807E_0000),
    ),
    (
        "other open request",
        Stage::AskedAndRenewing,
        &[Bytes(RENEW_RESPONSE)],
        Fault::Broken(0x8009_0000),
    ),
    (
        "service refused",
        Stage::Renewing,
        &[Changed(RENEW_RESPONSE, &[(95, b"\0\0\x0B\x80")])],
        Fault::Said(0x800B_0000, None),
    ),
    (
        "channel in the body",
        Stage::Renewing,
        &[Changed(RENEW_RESPONSE, &[(111, b"\x02")])],
        Fault::Broken(0x807F_0000),
    ),
];

#[test]
fn renewals_are_refused(rt: HostRuntime) {
    assert_eq!(rt; other(rt.alloc(), &RENEWALS), None);
}
