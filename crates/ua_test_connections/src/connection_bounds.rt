//! What is owed to a client that asks and takes nothing: it is read and heard no further than the bound, and gets all once it
//! takes it.

use crate::connection_ends::{INPUT_ENDED, NOTHING, add_turn};
use crate::connections::{Row, TURNS, are_rows};
use crate::ready_links::{turned, waiting};
use std::alloc::Global;
use ua_conn::reply_all;
use ua_disco::Settings;
use ua_link::ServerConnection;
use ua_test_lent::{by_default, by_settings, hundred_endpoints};
use ua_test_shared::bytes::repeated;
use ua_test_shared::lending::passes;
use ua_test_shared::vectors::{ENDPOINTS_REQUEST, FIND_REQUEST, FIND_RESPONSE, OPENED, OPENING};

/// A client asks two thousand times and takes nothing. A read of 4096 bytes is there each time; behind so many of them
/// `188 + 93 n` bytes are n requests, to which `163 + 134 n` bytes are owed: 64,751 behind eleven reads. Of the twelfth six
/// more are heard, to which 65,555 are owed, and 3,580 bytes wait.
const TWELVE: Row = (0, 0, 0, Some(4096), 0, None);

/// It takes 5,110 bytes, and 38 more requests are heard: 65,537 are owed, and the first half of a request waits. It takes
/// one more: that is heard, then the next read, and of that one request: 65,670 are owed. And it takes an answer: one more is
/// heard.
const TAKES_SOME: [Row; 9] = [
    NOTHING,
    (0, 0, 5110, None, 5110, None),
    NOTHING,
    (0, 0, 1, None, 1, None),
    NOTHING,
    TWELVE,
    NOTHING,
    (0, 0, 134, None, 134, None),
    NOTHING,
];

/// Whether it is read no further than that, and then to its end as it takes all.
fn is_bounded(connection: &mut ServerConnection, asks: &[u8], replies: &[u8]) -> bool {
    let mut client = waiting(asks, Some(replies));
    client.there = usize::MAX;
    if !are_rows(connection, &mut client, 1, &[TWELVE; 12])
        || !are_rows(connection, &mut client, 1, &TAKES_SOME)
    {
        return false;
    }
    client.room = usize::MAX;
    let mut came = (13 * 4096, 5110 + 1 + 134, None);
    for _ in 0..40 {
        came = add_turn(connection, &mut client, 0, came);
    }
    came == (186_188, 268_163, INPUT_ENDED) && client.heard_all()
}

fn are_bounded(alloc: Global, settings: &Settings, asks: &[u8], replies: &[u8]) -> bool {
    let connection = ServerConnection::new(alloc, settings, 1, 0, TURNS).ok();
    passes(
        connection,
        |connection| is_bounded(connection, asks, replies),
    )
}

fn owes_no_more(alloc: Global, settings: &Settings) -> bool {
    match (
        repeated(alloc, OPENING, FIND_REQUEST, 2000),
        repeated(alloc, OPENED, FIND_RESPONSE, 2000),
    ) {
        (Ok(asks), Ok(replies)) => {
            are_bounded(alloc, settings, asks.as_slice(), replies.as_slice())
        }
        _ => false,
    }
}

#[test]
fn a_client_that_takes_nothing_is_not_read(rt: HostRuntime) {
    assert!(rt; by_default(rt.alloc(), owes_no_more));
}

/// As many requests for endpoints as come in one read behind the opening.
const ASKS: usize = 42;

/// Whether at most the bound and one answer is owed to a client that asks so in one segment, and all comes as it takes it.
fn is_owed_little(connection: &mut ServerConnection, asks: &[u8], reply: &[u8]) -> bool {
    let answer = reply.len().saturating_sub(OPENED.len()) / ASKS;
    let mut client = waiting(asks, Some(reply));
    client.there = usize::MAX;
    client.leaves = false;
    let asked = [(0, 0, 0, Some(asks.len()), 0, None), NOTHING];
    if !are_rows(connection, &mut client, 1, &asked) {
        return false;
    }
    client.room = usize::MAX;
    let Some(turn) = turned(connection, &mut client, 0, 1) else {
        return false;
    };
    let owed = turn.written;
    let mut came = (asks.len(), owed, None);
    for _ in 0..ASKS {
        came = add_turn(connection, &mut client, 0, came);
    }
    owed > 65_536
        && owed.saturating_sub(65_536) <= answer
        && came.1 == reply.len()
        && client.heard_all()
}

fn is_owed(alloc: Global, settings: &Settings, asks: &[u8]) -> bool {
    let Ok((reply, _)) = reply_all(alloc, settings, 1, &[(0, asks)]) else {
        return false;
    };
    let connection = ServerConnection::new(alloc, settings, 1, 0, TURNS).ok();
    passes(
        connection,
        |connection| is_owed_little(connection, asks, reply.as_slice()),
    )
}

fn are_owed(alloc: Global, settings: &Settings) -> bool {
    match repeated(alloc, OPENING, ENDPOINTS_REQUEST, ASKS as u32) {
        Ok(asks) => asks.len() == 4094 && is_owed(alloc, settings, asks.as_slice()),
        Err(_) => false,
    }
}

fn are_owed_by_hundred(alloc: Global) -> bool {
    match hundred_endpoints(alloc) {
        Ok(text) => by_settings(alloc, text.as_str(), are_owed),
        Err(_) => false,
    }
}

#[test]
fn one_segment_of_requests_is_not_answered_at_once(rt: HostRuntime) {
    assert!(rt; are_owed_by_hundred(rt.alloc()));
}
