//! Each call that grows gives its full answer, or says that memory ran out and leaves what stood before. These tests are run with each growth
//! refused in turn (tools/refuse-growths).

use std::alloc::Global;
use ua_conn::{End, Outcome, answer_all, reply_all};
use ua_disco::{DEFAULT, Settings};
use ua_test_shared::bytes::joined;
use ua_test_shared::lending::judged;
use ua_test_shared::vectors::{FIND_REQUEST, HELLO, OPEN_REQUEST};

/// An opening with two requests.
const TWO_REQUESTS: [(i64, &[u8]); 4] = [
    (0, HELLO),
    (0, OPEN_REQUEST),
    (0, FIND_REQUEST),
    (0, SECOND_REQUEST),
];

/// A request of another service with number 3, under request id 3.
const SECOND_REQUEST: &[u8] =
    b"MSGF\x3B\0\0\0\x01\0\0\0\x01\0\0\0\x03\0\0\0\x03\0\0\0\x01\0\xCD\x01\0\0\0\0\0\0\0\0\0\0\x02\0\0\0\0\0\0\0\xFF\xFF\xFF\xFF\0\0\0\0\0\0\0\xAA\xBB";

/// Whether this is owed to the two requests.
fn is_owed(outcome: &Outcome) -> bool {
    outcome.reply.len() == 349 && outcome.handed.len() == 2 && outcome.end == End::InputEnded
}

/// Whether the settings answer the two requests, or `None` where memory ran out.
fn are_answered(alloc: Global, settings: &Settings) -> Option<bool> {
    let outcome = answer_all(alloc, settings, 1, &TWO_REQUESTS).ok();
    judged(outcome, |outcome| Some(is_owed(outcome)))
}

fn are_two_answered(alloc: Global) -> Option<bool> {
    let settings = Settings::from_toml(alloc, DEFAULT.as_bytes()).ok();
    judged(settings, |settings| are_answered(alloc, settings))
}

/// Where memory is there, none is wanted.
#[test]
fn memory_is_ample(rt: HostRuntime) {
    assert!(rt; are_two_answered(rt.alloc()) == Some(true));
    assert!(rt; are_replied_at_once(rt.alloc()) == Some(true));
}

/// The whole answer, or none.
#[test]
fn answer_all_or_no_memory(rt: HostRuntime) {
    assert!(rt; are_two_answered(rt.alloc()) != Some(false));
}

/// Whether the settings reply to the opening and then to both requests in one piece, or `None` where memory ran out.
fn are_replied(alloc: Global, settings: &Settings, both: &[u8]) -> Option<bool> {
    match reply_all(
        alloc,
        settings,
        1,
        &[(0, HELLO), (0, OPEN_REQUEST), (0, both)],
    ) {
        Ok((reply, end)) => {
            Some(reply.len() == 349 && reply.ends_with(SECOND_REPLY) && end == End::InputEnded)
        }
        Err(_) => None,
    }
}

/// The fault that the second request is answered.
const SECOND_REPLY: &[u8] =
    b"MSGF\x34\0\0\0\x01\0\0\0\x01\0\0\0\x03\0\0\0\x03\0\0\0\x01\0\x8D\x01\0\0\0\0\0\0\0\0\x02\0\0\0\0\0\x0B\x80\0\xFF\xFF\xFF\xFF\0\0\0";

fn are_replied_at_once(alloc: Global) -> Option<bool> {
    let both = joined(alloc, &[FIND_REQUEST, SECOND_REQUEST]).ok();
    judged(both, |both| {
        let settings = Settings::from_toml(alloc, DEFAULT.as_bytes()).ok();
        judged(settings, |settings| are_replied(alloc, settings, both))
    })
}

/// The whole reply, or none, of two requests that one piece brings.
#[test]
fn reply_all_or_no_memory(rt: HostRuntime) {
    assert!(rt; are_replied_at_once(rt.alloc()) != Some(false));
}
