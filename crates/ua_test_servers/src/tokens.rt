//! Sequence numbers over a connection, and tokens that age and are renewed.

use crate::rows::{is_answered, says};
use std::alloc::{AllocError, Global};
use ua_conn::End;
use ua_disco::DEFAULT;
use ua_test_shared::bytes::{changed, chunk, joined};
use ua_test_shared::pieces::Piece::{Bytes, Changed};
use ua_test_shared::pieces::{Piece, made};
use ua_test_shared::vectors::{
    ACKNOWLEDGE, FAULT_RESPONSE, FIND_REQUEST, FIND_RESPONSE, HELLO, OPEN_REQUEST, OPEN_RESPONSE,
    OTHER_BODY, OTHER_REQUEST, RENEW_REQUEST, RENEW_RESPONSE,
};

/// Where an OPN has its sequence number and request id.
const NUMBERS_AT: usize = 71;

/// Where the open request has its lifetime.
const LIFETIME_AT: usize = 128;

/// The open request with another sequence number and lifetime.
fn opening(alloc: Global, sequence: u32, lifetime: u32) -> Result<Vec<u8>, AllocError> {
    let numbered = changed(alloc, OPEN_REQUEST, NUMBERS_AT, &sequence.to_le_bytes())?;
    changed(alloc, &numbered, LIFETIME_AT, &lifetime.to_le_bytes())
}

/// The first OPN's number, that of a message behind it, and whether it follows.
const NUMBERS: [(u32, u32, bool); 9] = [
    (4_294_966_271, 4_294_966_272, true),
    (4_294_966_271, 1, false),
    (4_294_966_272, 4_294_966_273, true),
    (4_294_966_272, 1023, true),
    (4_294_966_272, 1024, false),
    (4_294_967_295, 0, true),
    (1, 2, true),
    (1, 3, false),
    (1, 1, false),
];

const BAD_NUMBER: &[u8] = b"ERRF\x10\0\0\0\0\0\x88\x80\xFF\xFF\xFF\xFF";

/// Whether an opening with this number, and messages with the others, are answered by the frames.
fn is_numbered(
    alloc: Global,
    first: u32,
    messages: &[u8],
    frames: &[&[u8]],
    handed: usize,
    end: End,
) -> bool {
    let (Ok(open), Ok(reply)) = (opening(alloc, first, 0), joined(alloc, frames)) else {
        return false;
    };
    match joined(alloc, &[HELLO, open.as_slice(), messages]) {
        Ok(input) => is_answered(alloc, input.as_slice(), (reply.as_slice(), handed, end)),
        Err(_) => false,
    }
}

/// Whether a message with this number behind that of the OPN is answered, or refused.
fn is_followed(alloc: Global, first: u32, second: u32, follows: bool) -> bool {
    let Ok(message) = chunk(alloc, b"MSGF", [1, second, 2], OTHER_BODY) else {
        return false;
    };
    let message = message.as_slice();
    if follows {
        let frames = [ACKNOWLEDGE, OPEN_RESPONSE, FAULT_RESPONSE];
        is_numbered(alloc, first, message, &frames, 1, End::InputEnded)
    } else {
        let frames = [ACKNOWLEDGE, OPEN_RESPONSE, BAD_NUMBER];
        is_numbered(alloc, first, message, &frames, 0, End::Refused(0x8088_0000))
    }
}

/// Whether two messages with these numbers behind that of the OPN are both answered.
fn are_followed(alloc: Global, first: u32, second: u32, third: u32) -> bool {
    let (Ok(one), Ok(other)) = (
        chunk(alloc, b"MSGF", [1, second, 2], OTHER_BODY),
        chunk(alloc, b"MSGF", [1, third, 2], OTHER_BODY),
    ) else {
        return false;
    };
    let (Ok(messages), Ok(answer)) = (
        joined(alloc, &[one.as_slice(), other.as_slice()]),
        changed(alloc, FAULT_RESPONSE, 16, b"\x03"),
    ) else {
        return false;
    };
    let frames = [
        ACKNOWLEDGE,
        OPEN_RESPONSE,
        FAULT_RESPONSE,
        answer.as_slice(),
    ];
    is_numbered(
        alloc,
        first,
        messages.as_slice(),
        &frames,
        2,
        End::InputEnded,
    )
}

#[test]
fn sequence_numbers_follow_and_wrap(rt: HostRuntime) {
    for (first, second, follows) in NUMBERS {
        assert!(rt;
            is_followed(rt.alloc(), first, second, follows),
            "{second} after {first}"
        );
    }
    assert!(rt; are_followed(rt.alloc(), 1, 2, 3));
    assert!(rt; are_followed(rt.alloc(), 4_294_966_271, 4_294_966_272, 1));
}

/// An opening at the moment 0 that asks for ten seconds, and a request whose first and last byte come at these moments.
fn is_said_at(alloc: Global, moments: (i64, i64), reply: &[u8], handed: usize, end: End) -> bool {
    let Ok(open) = opening(alloc, 1, 10_000) else {
        return false;
    };
    let pieces: [(i64, &[u8]); 4] = [
        (0, HELLO),
        (0, open.as_slice()),
        (moments.0, &FIND_REQUEST[..1]),
        (moments.1, &FIND_REQUEST[1..]),
    ];
    says(alloc, DEFAULT, &pieces, (reply, handed, end))
}

/// The Acknowledge and the open response that grants ten seconds.
fn ten_seconds(alloc: Global) -> Result<Vec<u8>, AllocError> {
    let response = changed(alloc, OPEN_RESPONSE, 127, b"\x10\x27\0")?;
    joined(alloc, &[ACKNOWLEDGE, response.as_slice()])
}

/// Whether a request in the last tick of its token is answered.
fn is_in_time(alloc: Global, opened: &[u8]) -> bool {
    let now: i64 = 124_999_999;
    let Ok(found) = changed(alloc, FIND_RESPONSE, 28, &now.to_le_bytes()) else {
        return false;
    };
    match joined(alloc, &[opened, found.as_slice()]) {
        Ok(reply) => is_said_at(alloc, (now, now), reply.as_slice(), 1, End::InputEnded),
        Err(_) => false,
    }
}

const BAD_TOKEN: &[u8] = b"ERRF\x10\0\0\0\0\0\x87\x80\xFF\xFF\xFF\xFF";

/// Moments of the first and the last byte that are too late; no moment goes back.
const LATE: [(i64, i64); 3] = [
    (125_000_000, 125_000_000),
    (0, 125_000_000),
    (125_000_000, 0),
];

fn is_too_late(alloc: Global, opened: &[u8], moments: (i64, i64)) -> bool {
    match joined(alloc, &[opened, BAD_TOKEN]) {
        Ok(reply) => is_said_at(
            alloc,
            moments,
            reply.as_slice(),
            0,
            End::Refused(0x8087_0000),
        ),
        Err(_) => false,
    }
}

fn token_lives(alloc: Global) -> bool {
    let Ok(opened) = ten_seconds(alloc) else {
        return false;
    };
    let mut all = is_in_time(alloc, opened.as_slice());
    for moments in LATE {
        if !is_too_late(alloc, opened.as_slice(), moments) {
            all = false;
        }
    }
    all
}

/// A token of ten seconds is alive for twelve and a half, counted to the last byte of a frame.
#[test]
fn token_lives_a_quarter_longer_than_its_lifetime(rt: HostRuntime) {
    assert!(rt; token_lives(rt.alloc()));
}

/// The requests and the answers behind an opening, and how many requests are handed on.
type Renewed = (&'static [Piece], &'static [Piece], usize);

/// A renewal with a request in flight: the answer names the token that the client used last.
const ONE_RENEWAL: Renewed = (
    &[
        Bytes(HELLO),
        Bytes(OPEN_REQUEST),
        Bytes(RENEW_REQUEST),
        Changed(OTHER_REQUEST, &[(16, b"\x03")]),
        Changed(OTHER_REQUEST, &[(12, b"\x02\0\0\0\x04")]),
        Changed(OTHER_REQUEST, &[(16, b"\x05")]),
    ],
    &[
        Bytes(ACKNOWLEDGE),
        Bytes(OPEN_RESPONSE),
        Bytes(RENEW_RESPONSE),
        Changed(FAULT_RESPONSE, &[(16, b"\x03")]),
        Changed(FAULT_RESPONSE, &[(12, b"\x02\0\0\0\x04")]),
        Changed(FAULT_RESPONSE, &[(12, b"\x02\0\0\0\x05")]),
    ],
    3,
);

/// Three renewals under the request ids 2, 3 and 4, without a message between them; then messages under the tokens 3 and 4, and 3 again. Until the
/// fourth token is used the answer names the third.
const THREE_RENEWALS: Renewed = (
    &[
        Bytes(HELLO),
        Bytes(OPEN_REQUEST),
        Bytes(RENEW_REQUEST),
        Changed(RENEW_REQUEST, &[(71, b"\x03\0\0\0\x03")]),
        Changed(RENEW_REQUEST, &[(71, b"\x04\0\0\0\x04")]),
        Changed(OTHER_REQUEST, &[(12, b"\x03\0\0\0\x05\0\0\0\x05")]),
        Changed(OTHER_REQUEST, &[(12, b"\x04\0\0\0\x06\0\0\0\x06")]),
        Changed(OTHER_REQUEST, &[(12, b"\x03\0\0\0\x07\0\0\0\x07")]),
    ],
    &[
        Bytes(ACKNOWLEDGE),
        Bytes(OPEN_RESPONSE),
        Bytes(RENEW_RESPONSE),
        Changed(RENEW_RESPONSE, &[(71, b"\x03\0\0\0\x03"), (115, b"\x03")]),
        Changed(RENEW_RESPONSE, &[(71, b"\x04\0\0\0\x04"), (115, b"\x04")]),
        Changed(FAULT_RESPONSE, &[(12, b"\x03\0\0\0\x05\0\0\0\x05")]),
        Changed(FAULT_RESPONSE, &[(12, b"\x04\0\0\0\x06\0\0\0\x06")]),
        Changed(FAULT_RESPONSE, &[(12, b"\x04\0\0\0\x07\0\0\0\x07")]),
    ],
    3,
);

fn is_renewed(alloc: Global, row: Renewed) -> bool {
    let (input, reply, handed) = row;
    match (made(alloc, b"", input), made(alloc, b"", reply)) {
        (Ok(input), Ok(reply)) => {
            let owed = (reply.as_slice(), handed, End::InputEnded);
            is_answered(alloc, input.as_slice(), owed)
        }
        _ => false,
    }
}

/// A second renewal leaves the first token unknown.
const OLD_TOKEN: [Piece; 5] = [
    Bytes(HELLO),
    Bytes(OPEN_REQUEST),
    Bytes(RENEW_REQUEST),
    Changed(RENEW_REQUEST, &[(71, b"\x03\0\0\0\x03")]),
    Changed(OTHER_REQUEST, &[(16, b"\x04")]),
];

const OLD_TOKEN_REFUSED: [Piece; 5] = [
    Bytes(ACKNOWLEDGE),
    Bytes(OPEN_RESPONSE),
    Bytes(RENEW_RESPONSE),
    Changed(RENEW_RESPONSE, &[(71, b"\x03\0\0\0\x03"), (115, b"\x03")]),
    Bytes(BAD_TOKEN),
];

fn old_token_is_refused(alloc: Global) -> bool {
    match (
        made(alloc, b"", &OLD_TOKEN),
        made(alloc, b"", &OLD_TOKEN_REFUSED),
    ) {
        (Ok(input), Ok(reply)) => {
            let owed = (reply.as_slice(), 0, End::Refused(0x8087_0000));
            is_answered(alloc, input.as_slice(), owed)
        }
        _ => false,
    }
}

#[test]
fn answers_name_the_newest_token_that_was_used(rt: HostRuntime) {
    assert!(rt; is_renewed(rt.alloc(), ONE_RENEWAL));
    assert!(rt; is_renewed(rt.alloc(), THREE_RENEWALS));
    assert!(rt; old_token_is_refused(rt.alloc()));
}
