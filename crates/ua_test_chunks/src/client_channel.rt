//! The client's channel: which frames it admits, the tokens that it is granted, and when it asks for another.

use crate::channel::{NONE, SIGNED, message_bytes, open_bytes};
use crate::reading::{chunk_at, open_at};
use std::alloc::Global;
use ua_channel::ClientChannel;
use ua_channel::status::{
    BAD_SECURE_CHANNEL_TOKEN_UNKNOWN, BAD_SECURITY_POLICY_REJECTED, BAD_SEQUENCE_NUMBER_INVALID,
    BAD_TCP_SECURE_CHANNEL_UNKNOWN,
};
use ua_service::{OpenResponse, response_header};
use ua_value::{DateTime, UaBytes};

/// An open response for channel 7 that grants this token.
fn granting(alloc: Global, token_id: u32, revised_lifetime: u32) -> OpenResponse {
    OpenResponse {
        header: response_header(0, 1, 0),
        server_protocol_version: 0,
        channel_id: 7,
        token_id,
        created_at: DateTime(0),
        revised_lifetime,
        server_nonce: UaBytes::null(),
    }
}

/// Whether the OPN frame with this policy and number is admitted, or refused so.
fn is_answered(
    alloc: Global,
    channel: &mut ClientChannel,
    id: u32,
    policy: &[u8],
    sequence: u32,
    status: Option<u32>,
) -> bool {
    let Ok(bytes) = open_bytes(alloc, id, policy, sequence) else {
        return false;
    };
    match open_at(bytes.as_slice()) {
        Ok(chunk) => channel.admit_open(&chunk).err() == status,
        Err(_) => false,
    }
}

/// Whether the MSG frame with these numbers is admitted at the moment, or refused so.
fn is_heard(
    alloc: Global,
    channel: &mut ClientChannel,
    numbers: [u32; 3],
    now: i64,
    status: Option<u32>,
) -> bool {
    let Ok(bytes) = message_bytes(alloc, numbers) else {
        return false;
    };
    match chunk_at(bytes.as_slice()) {
        Ok(chunk) => channel.admit(&chunk, now).err() == status,
        Err(_) => false,
    }
}

/// Channel 7, opened by a frame with number 1, with token 1 of this lifetime at this moment, if all of that goes well.
fn channel_at(alloc: Global, lifetime: u32, now: i64) -> Option<ClientChannel> {
    let mut channel = ClientChannel::start();
    if !is_answered(alloc, &mut channel, 7, NONE, 1, None) {
        return None;
    }
    channel.opened(7, &granting(alloc, 1, lifetime), now);
    Some(channel)
}

/// The channel, the policy, and why a first OPN with them is refused, if it is.
const FIRST: [(u32, &[u8], Option<u32>); 3] = [
    (0, NONE, Some(BAD_TCP_SECURE_CHANNEL_UNKNOWN)),
    (7, SIGNED, Some(BAD_SECURITY_POLICY_REJECTED)),
    (7, NONE, None),
];

/// The channel and number of later ones behind number 1.
const LATER: [(u32, u32, Option<u32>); 4] = [
    (0, 2, Some(BAD_TCP_SECURE_CHANNEL_UNKNOWN)),
    (8, 2, Some(BAD_TCP_SECURE_CHANNEL_UNKNOWN)),
    (7, 3, Some(BAD_SEQUENCE_NUMBER_INVALID)),
    (7, 2, None),
];

fn is_first(alloc: Global, id: u32, policy: &[u8], status: Option<u32>) -> bool {
    let mut channel = ClientChannel::start();
    !channel.is_open() && is_answered(alloc, &mut channel, id, policy, 9, status)
}

fn later_are_judged(alloc: Global) -> bool {
    let Some(mut channel) = channel_at(alloc, 10000, 0) else {
        return false;
    };
    let mut all = channel.is_open();
    for (id, sequence, status) in LATER {
        if !is_answered(alloc, &mut channel, id, NONE, sequence, status) {
            all = false;
        }
    }
    all
}

#[test]
fn open_responses_are_judged_in_order(rt: HostRuntime) {
    for (id, policy, status) in FIRST {
        assert!(rt; is_first(rt.alloc(), id, policy, status), "{id}");
    }
    assert!(rt; later_are_judged(rt.alloc()));
}

const UNKNOWN: Option<u32> = Some(BAD_SECURE_CHANNEL_TOKEN_UNKNOWN);

const ELSEWHERE: Option<u32> = Some(BAD_TCP_SECURE_CHANNEL_UNKNOWN);

const LATE: Option<u32> = Some(BAD_SEQUENCE_NUMBER_INVALID);

/// The token that is granted first, if one is; the token that the client sends with then; a message and why it is refused, if it is.
const HEARD: [(Option<u32>, u32, [u32; 3], Option<u32>); 7] = [
    (None, 1, [7, 1, 2], None),
    (Some(2), 2, [7, 1, 3], None),
    (None, 2, [7, 2, 4], None),
    (Some(3), 3, [7, 1, 5], UNKNOWN),
    (None, 3, [8, 1, 5], ELSEWHERE),
    (None, 3, [7, 2, 6], LATE),
    (None, 3, [7, 2, 5], None),
];

fn renew(alloc: Global, channel: &mut ClientChannel, granted: Option<u32>) {
    if let Some(token) = granted {
        channel.renewed(&granting(alloc, token, 10000), 5);
    }
}

fn newest_are_known(alloc: Global) -> bool {
    let Some(mut channel) = channel_at(alloc, 10000, 0) else {
        return false;
    };
    let mut all = ClientChannel::start().sending_token().is_none();
    for (granted, sending, numbers, status) in HEARD {
        renew(alloc, &mut channel, granted);
        let is_heard = is_heard(alloc, &mut channel, numbers, 5, status);
        if !(is_heard && channel.sending_token() == Some(sending)) {
            all = false;
        }
    }
    all
}

#[test]
fn two_newest_tokens_are_known(rt: HostRuntime) {
    assert!(rt; newest_are_known(rt.alloc()));
}

/// Whether a message under the only token, of ten seconds from the moment 1000 on, is heard so at a moment.
fn is_heard_at(alloc: Global, now: i64, status: Option<u32>) -> bool {
    match channel_at(alloc, 10000, 1000) {
        Some(mut channel) => is_heard(alloc, &mut channel, [7, 1, 2], now, status),
        None => false,
    }
}

#[test]
fn tokens_age_from_the_open_response(rt: HostRuntime) {
    for (now, status) in [(125000999, None), (125001000, UNKNOWN), (i64::MAX, UNKNOWN)] {
        assert!(rt; is_heard_at(rt.alloc(), now, status), "{now}");
    }
}

/// A lifetime from the moment 1000 on, a moment, and whether a renewal is due then.
const DUE: [(u32, i64, bool); 6] = [
    (10000, 75000999, false),
    (10000, 75001000, true),
    (10000, i64::MAX, true),
    (0, 1000, true),
    (u32::MAX, 32_212_254_713_499, false),
    (u32::MAX, i64::MAX, true),
];

fn is_due(alloc: Global, lifetime: u32, now: i64, due: bool) -> bool {
    match channel_at(alloc, lifetime, 1000) {
        Some(channel) => channel.renew_due(now) == due,
        None => false,
    }
}

#[test]
fn renewals_are_due_at_three_quarters(rt: HostRuntime) {
    assert!(rt; !ClientChannel::start().renew_due(i64::MAX));
    for (lifetime, now, due) in DUE {
        assert!(rt; is_due(rt.alloc(), lifetime, now, due), "{now}");
    }
}
