//! Patience with what a client does not do though bytes come: no channel is open in time, or a frame is not whole; and that it
//! goes by the steady clock alone.

use crate::connections::{BEGUN, OUT, PATIENCE, Row, TURNS, opens};
use crate::ready_links::{Caller, turned, turned_at, waiting};
use std::alloc::Global;
use ua_disco::Settings;
use ua_link::{Over, ServerConnection};
use ua_test_lent::by_default;
use ua_test_shared::bytes::joined;
use ua_test_shared::lending::passes;
use ua_test_shared::vectors::CALLS;

/// Bytes come, and no channel is open in time.
const UNOPENED: [Row; 4] = [
    (1000, 1, 0, Some(1), 0, None),
    (1050, 55, 28, Some(55), 28, None),
    (1099, 1, 0, Some(1), 0, None),
    (1100, 1, 0, Some(1), 0, OUT),
];

/// The channel is open in time, and then nobody is asked for one.
const OPENED_LATE: [Row; 4] = [
    (1000, 56, 28, Some(56), 28, None),
    (1099, 132, 135, Some(132), 135, None),
    (1198, 0, 0, None, 0, None),
    (1199, 0, 0, None, 0, OUT),
];

fn is_to_open(alloc: Global, settings: &Settings) -> bool {
    opens(alloc, settings, BEGUN, PATIENCE, &UNOPENED)
        && opens(alloc, settings, BEGUN, PATIENCE, &OPENED_LATE)
}

#[test]
fn a_channel_is_open_within_patience(rt: HostRuntime) {
    assert!(rt; by_default(rt.alloc(), is_to_open));
}

/// The turn of a connection by which its client gave no whole frame for too long, where a byte comes each time, so many
/// ticks after the one before; none where that never is.
fn ended_within(connection: &mut ServerConnection, client: &mut Caller, step: i64) -> Option<i64> {
    let mut now = BEGUN;
    client.let_more(188, usize::MAX);
    for _ in 0..200 {
        let turn = turned(connection, client, now, PATIENCE)?;
        match turn.over {
            Some(Over::TimedOut) => return Some(now),
            Some(Over::Ended(_)) => return None,
            None => {}
        }
        client.let_more(1, 0);
        now = now.saturating_add(step);
    }
    None
}

/// For steps of so many ticks, the moment at which a connection times out whose channel was open at 1000: a frame of 93
/// bytes that began a step later, and is whole 92 steps behind that, is in time where these are less than 1000 ticks.
const STEPS: [(i64, Option<i64>); 4] = [(1, None), (10, None), (11, Some(2012)), (99, Some(2188))];

fn are_slow(alloc: Global, settings: &Settings, calls: &[u8]) -> bool {
    let mut right = true;
    for (step, out) in STEPS {
        let mut client = waiting(calls, None);
        let connection = ServerConnection::new(alloc, settings, 1, BEGUN, TURNS).ok();
        right &= passes(
            connection,
            |connection| ended_within(connection, &mut client, step) == out,
        );
    }
    right
}

fn are_heard_slowly(alloc: Global, settings: &Settings) -> bool {
    match joined(alloc, &CALLS) {
        Ok(calls) => are_slow(alloc, settings, calls.as_slice()),
        Err(_) => false,
    }
}

#[test]
fn a_byte_a_round_is_enough_while_frames_come_whole(rt: HostRuntime) {
    assert!(rt; by_default(rt.alloc(), are_heard_slowly));
}

/// Whether the day's clock ends nobody, whatever it says: the answers have its moments, and patience goes by the other.
fn is_of_no_day(connection: &mut ServerConnection, calls: &[u8]) -> bool {
    let mut client = waiting(calls, None);
    let mut right = true;
    for (day, steady, over) in [
        (i64::MAX, 1000, None),
        (0, 1001, None),
        (i64::MIN, 1099, None),
        (5000, 1100, None),
        (i64::MAX, 1199, None),
        (0, 1200, OUT),
    ] {
        client.let_more(if steady == 1000 { 188 } else { 0 }, usize::MAX);
        if steady == 1100 {
            client.let_more(1, 0);
        }
        match turned_at(connection, &mut client, day, steady, PATIENCE) {
            Some(turn) => {
                right &= turn.over == over && turn.moment == steady;
                right &= match turn.cut {
                    Some((moment, _)) => moment == day,
                    None => true,
                };
            }
            None => right = false,
        }
    }
    right
}

fn are_of_no_day(alloc: Global, settings: &Settings) -> bool {
    let connection = ServerConnection::new(alloc, settings, 1, BEGUN, TURNS).ok();
    passes(connection, |connection| match joined(alloc, &CALLS) {
        Ok(calls) => is_of_no_day(connection, calls.as_slice()),
        Err(_) => false,
    })
}

#[test]
fn a_clock_that_is_set_ends_nobody(rt: HostRuntime) {
    assert!(rt; by_default(rt.alloc(), are_of_no_day));
}
