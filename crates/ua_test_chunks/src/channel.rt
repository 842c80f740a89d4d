//! The server's channel: which frames it admits, the tokens that it issues, and the one that it sends with.

use crate::reading::{chunk_at, open_at};
use std::alloc::{AllocError, Global};
use ua_channel::status::{
    BAD_REQUEST_TYPE_INVALID, BAD_SECURE_CHANNEL_TOKEN_UNKNOWN, BAD_SECURITY_MODE_REJECTED,
    BAD_SECURITY_POLICY_REJECTED, BAD_SEQUENCE_NUMBER_INVALID, BAD_TCP_SECURE_CHANNEL_UNKNOWN,
};
use ua_channel::{Issued, ServerChannel, Token};
use ua_service::{OpenRequest, RequestHeader};
use ua_test_shared::bytes::numbered;
use ua_value::{DateTime, Identifier, NodeId, UaBytes, UaString};
use ua_variant::{ExtensionBody, ExtensionObject};

/// The URIs of two policies, with their lengths before them.
pub(crate) const NONE: &[u8] = b"\x2F\0\0\0http://opcfoundation.org/UA/SecurityPolicy#None";

pub(crate) const SIGNED: &[u8] =
    b"\x39\0\0\0http://opcfoundation.org/UA/SecurityPolicy#Basic256Sha256";

const NO_POLICY: &[u8] = b"\0\0\0\0";

/// An OPN frame without a body, with this policy.
pub(crate) fn open_bytes(
    alloc: Global,
    channel: u32,
    policy: &[u8],
    sequence: u32,
) -> Result<Vec<u8>, AllocError> {
    let len = u32::try_from(policy.len()).unwrap_or(0);
    let mut bytes = numbered(alloc, b"OPNF", &[len.wrapping_add(28), channel])?;
    bytes.extend_from_slice(policy)?;
    for number in [u32::MAX, u32::MAX, sequence, 1] {
        bytes.extend_from_slice(&number.to_le_bytes())?;
    }
    Ok(bytes)
}

/// A MSG frame without a body, with this channel, token and sequence number.
pub(crate) fn message_bytes(alloc: Global, numbers: [u32; 3]) -> Result<Vec<u8>, AllocError> {
    let [channel, token, sequence] = numbers;
    numbered(alloc, b"MSGF", &[24, channel, token, sequence, 1])
}

/// Whether the OPN frame with this policy and number is admitted, or refused so.
fn is_opened(
    alloc: Global,
    channel: &mut ServerChannel,
    id: u32,
    policy: &[u8],
    sequence: u32,
    status: Option<u32>,
) -> bool {
    let Ok(bytes) = open_bytes(alloc, id, policy, sequence) else {
        return false;
    };
    match open_at(bytes.as_slice()) {
        Ok(chunk) => channel.admit_open(&chunk).err() == status,
        Err(_) => false,
    }
}

/// Whether the MSG frame with these numbers is admitted at the moment, or refused so.
fn is_heard(
    alloc: Global,
    channel: &mut ServerChannel,
    numbers: [u32; 3],
    now: i64,
    status: Option<u32>,
) -> bool {
    let Ok(bytes) = message_bytes(alloc, numbers) else {
        return false;
    };
    match chunk_at(bytes.as_slice()) {
        Ok(chunk) => channel.admit(&chunk, now).err() == status,
        Err(_) => false,
    }
}

fn null_id() -> NodeId {
    NodeId {
        namespace_index: 0,
        identifier: Identifier::Numeric(0),
    }
}

fn asking(request_type: i32, security_mode: i32, requested_lifetime: u32) -> OpenRequest {
    let header = RequestHeader {
        authentication_token: null_id(),
        timestamp: DateTime(0),
        request_handle: 1,
        return_diagnostics: 0,
        audit_entry_id: UaString::null(),
        timeout_hint: 0,
        additional_header: ExtensionObject {
            type_id: null_id(),
            body: ExtensionBody::None,
        },
    };
    OpenRequest {
        header,
        client_protocol_version: 0,
        request_type,
        security_mode,
        client_nonce: UaBytes::null(),
        requested_lifetime,
    }
}

/// What a channel issues for a request of this type, mode and lifetime.
fn issued(
    channel: &mut ServerChannel,
    request_type: i32,
    mode: i32,
    lifetime: u32,
    now: i64,
) -> Result<Issued, u32> {
    channel.issue(&asking(request_type, mode, lifetime), now)
}

fn is_issued(
    channel: &mut ServerChannel,
    request_type: i32,
    mode: i32,
    token: Result<u32, u32>,
) -> bool {
    match issued(channel, request_type, mode, 0, 5) {
        Ok(issued) => Ok(issued.token) == token,
        Err(status) => Err(status) == token,
    }
}

/// Channel 7, opened by a frame with this number, with a token of this lifetime at moment 0, if all of that goes well.
fn channel_from(alloc: Global, sequence: u32, lifetime: u32) -> Option<ServerChannel> {
    let mut channel = ServerChannel::start(7);
    let is_begun = is_opened(alloc, &mut channel, 0, NONE, sequence, None)
        && matches!(
            issued(&mut channel, 0, 1, lifetime, 0),
            Ok(Issued { token: 1, .. })
        );
    if is_begun { Some(channel) } else { None }
}

/// The channel, the policy, and why a first OPN with them is refused, if it is.
const FIRST: [(u32, &[u8], Option<u32>); 5] = [
    (0, NONE, None),
    (7, NONE, Some(BAD_TCP_SECURE_CHANNEL_UNKNOWN)),
    (7, SIGNED, Some(BAD_TCP_SECURE_CHANNEL_UNKNOWN)),
    (0, SIGNED, Some(BAD_SECURITY_POLICY_REJECTED)),
    (0, NO_POLICY, Some(BAD_SECURITY_POLICY_REJECTED)),
];

/// The same of later ones behind number 9, with their numbers.
const LATER: [(u32, &[u8], u32, Option<u32>); 4] = [
    (0, SIGNED, 10, Some(BAD_TCP_SECURE_CHANNEL_UNKNOWN)),
    (7, SIGNED, 11, Some(BAD_SECURITY_POLICY_REJECTED)),
    (7, NONE, 11, Some(BAD_SEQUENCE_NUMBER_INVALID)),
    (7, NONE, 10, None),
];

fn is_first(alloc: Global, id: u32, policy: &[u8], status: Option<u32>) -> bool {
    let mut channel = ServerChannel::start(7);
    is_opened(alloc, &mut channel, id, policy, 9, status)
}

fn later_are_judged(alloc: Global) -> bool {
    let Some(mut channel) = channel_from(alloc, 9, 0) else {
        return false;
    };
    let mut all = true;
    for (id, policy, sequence, status) in LATER {
        if !is_opened(alloc, &mut channel, id, policy, sequence, status) {
            all = false;
        }
    }
    all
}

#[test]
fn open_frames_are_judged_in_order(rt: HostRuntime) {
    for (id, policy, status) in FIRST {
        assert!(rt;
            is_first(rt.alloc(), id, policy, status),
            "{policy:?} to {id}"
        );
    }
    assert!(rt; later_are_judged(rt.alloc()));
}

/// The request type, the mode, and the token or why none is issued.
const ISSUED: [(i32, i32, Result<u32, u32>); 8] = [
    (1, 2, Err(BAD_REQUEST_TYPE_INVALID)),
    (-1, 1, Err(BAD_REQUEST_TYPE_INVALID)),
    (0, 2, Err(BAD_SECURITY_MODE_REJECTED)),
    (0, 1, Ok(1)),
    (0, 1, Err(BAD_REQUEST_TYPE_INVALID)),
    (1, 3, Err(BAD_SECURITY_MODE_REJECTED)),
    (1, 1, Ok(2)),
    (1, 1, Ok(3)),
];

fn tokens_are_issued() -> bool {
    let mut channel = ServerChannel::start(7);
    let mut all = true;
    for (request_type, mode, token) in ISSUED {
        if !is_issued(&mut channel, request_type, mode, token) {
            all = false;
        }
    }
    all
}

#[test]
fn tokens_are_issued_in_order(rt: HostRuntime) {
    assert!(rt; tokens_are_issued());
}

/// The lifetime that is asked for, and the one that is granted.
const LIFETIMES: [(u32, u32); 8] = [
    (0, 3600000),
    (1, 10000),
    (9999, 10000),
    (10000, 10000),
    (10001, 10001),
    (3600000, 3600000),
    (3600001, 3600000),
    (u32::MAX, 3600000),
];

fn is_granted(asked: u32, lifetime: u32) -> bool {
    let mut channel = ServerChannel::start(7);
    issued(&mut channel, 0, 1, asked, 0) == Ok(Issued { token: 1, lifetime })
}

#[test]
fn lifetimes_are_bounded(rt: HostRuntime) {
    for (asked, lifetime) in LIFETIMES {
        assert!(rt; is_granted(asked, lifetime), "{asked}");
    }
}

const REFUSED: Option<u32> = Some(BAD_SEQUENCE_NUMBER_INVALID);

const NUMBERS: [(u32, u32, Option<u32>); 10] = [
    (1, 2, None),
    (1, 1, REFUSED),
    (1, 3, REFUSED),
    (4294966271, 4294966272, None),
    (4294966271, 1, REFUSED),
    (4294966272, 4294966273, None),
    (4294966272, 1, None),
    (4294966272, 1023, None),
    (4294966272, 1024, REFUSED),
    (4294967295, 0, None),
];

/// The numbers of a message to a channel whose first number was 1, a moment, and why it is refused, if it is.
const HEARD: [([u32; 3], i64, Option<u32>); 7] = [
    ([6, 2, 5], 0, Some(BAD_TCP_SECURE_CHANNEL_UNKNOWN)),
    ([7, 2, 5], 0, UNKNOWN),
    ([7, 0, 2], 0, UNKNOWN),
    ([7, 1, 5], 0, REFUSED),
    // The token lives for ten seconds and a quarter of them more.
    ([7, 1, 2], 124_999_999, None),
    ([7, 1, 2], 125_000_000, UNKNOWN),
    ([7, 1, 2], -1, None),
];

/// Whether a channel with this first number and lifetime hears the message so.
fn hears(
    alloc: Global,
    first: u32,
    lifetime: u32,
    numbers: [u32; 3],
    now: i64,
    status: Option<u32>,
) -> bool {
    match channel_from(alloc, first, lifetime) {
        Some(mut channel) => is_heard(alloc, &mut channel, numbers, now, status),
        None => false,
    }
}

#[test]
fn sequence_numbers_follow_or_wrap(rt: HostRuntime) {
    for (first, second, status) in NUMBERS {
        assert!(rt;
            hears(rt.alloc(), first, 0, [7, 1, second], 0, status),
            "{second} after {first}"
        );
    }
}

/// No moment goes back: the second token is as old as the first message.
fn moments_stay(alloc: Global) -> bool {
    let Some(mut channel) = channel_from(alloc, 1, 10000) else {
        return false;
    };
    is_heard(alloc, &mut channel, [7, 1, 2], 100_000_000, None)
        && matches!(
            issued(&mut channel, 1, 1, 10000, 0),
            Ok(Issued { token: 2, .. })
        )
        && is_heard(alloc, &mut channel, [7, 2, 3], 224_999_999, None)
}

#[test]
fn messages_are_judged_in_order(rt: HostRuntime) {
    for (numbers, now, status) in HEARD {
        assert!(rt;
            hears(rt.alloc(), 1, 10000, numbers, now, status),
            "{numbers:?} {now}"
        );
    }
    assert!(rt; moments_stay(rt.alloc()));
}

const UNKNOWN: Option<u32> = Some(BAD_SECURE_CHANNEL_TOKEN_UNKNOWN);

/// Whether a token is issued first, the token and number of a message, why it is refused, if it is, and the token that the server sends with then.
const NEWEST: [(bool, u32, u32, Option<u32>, Option<u32>); 6] = [
    (true, 2, 2, None, Some(2)),
    (false, 1, 3, None, Some(2)),
    (true, 1, 4, UNKNOWN, Some(2)),
    (false, 2, 4, None, Some(2)),
    (false, 3, 5, None, Some(3)),
    (false, 2, 6, None, Some(3)),
];

fn newest_are_known(alloc: Global) -> bool {
    let Some(mut channel) = channel_from(alloc, 1, 0) else {
        return false;
    };
    let mut all = channel.sending_token().is_none();
    for (renewed, token, sequence, status, sending) in NEWEST {
        let is_issued = !renewed || issued(&mut channel, 1, 1, 0, 0).is_ok();
        let is_heard = is_heard(alloc, &mut channel, [7, token, sequence], 0, status);
        if !(is_issued && is_heard && channel.sending_token() == sending) {
            all = false;
        }
    }
    all
}

#[test]
fn the_two_newest_tokens_are_known(rt: HostRuntime) {
    assert!(rt; newest_are_known(rt.alloc()));
}

/// 100010000 ticks and a quarter of them, 25002500.
#[test]
fn a_token_lives_a_quarter_longer(rt: HostRuntime) {
    let token = Token {
        id: 1,
        issued: 100,
        lifetime: 10001,
    };
    assert!(rt; token.is_alive(0) && token.is_alive(125_012_599) && !token.is_alive(125_012_600));
}
