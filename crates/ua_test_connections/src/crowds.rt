//! Crowds at the places of a server that has several connections at once, over sockets of memory: each is served whole, and
//! hears what its own channel says.

use crate::many_connections::{Came, Coming, ENDED, Listener, PATIENCE, came_of, greeting};
use crate::ready_links::{At, Caller, ready};
use std::alloc::{AllocError, Global};
use ua_conn::End;
use ua_disco::{DEFAULT, Settings};
use ua_link::Over;
use ua_serve::Connections;
use ua_test_lent::by_default;
use ua_test_shared::lending::judged;
use ua_test_shared::pieces::put_changed;
use ua_test_shared::vectors::{
    ACKNOWLEDGE, CLOSE_REQUEST, FIND_REQUEST, FIND_RESPONSE, HELLO, OPEN_REQUEST, OPEN_RESPONSE,
};

/// What was told so far: how many connections parted as they should, the sum of their ids, how many ended for want of
/// memory, and how many steps came to something else.
#[derive(Clone, Copy, PartialEq, Eq)]
struct Tally {
    parted: u32,
    ids: u32,
    wanting: u32,
    wrong: u32,
}

/// So many parted as they should, and nothing else was told.
const fn all_of(parted: u32, ids: u32) -> Tally {
    Tally {
        parted,
        ids,
        wanting: 0,
        wrong: 0,
    }
}

/// How a connection has to be over, and how many bytes come and go.
type Bytes = (Over, u64, u64);

fn count(came: Came, bytes: Bytes, tally: &mut Tally) {
    match came {
        Came::Quiet => {}
        Came::Parted(id, over, read, written) if (over, read, written) == bytes => {
            tally.parted = tally.parted.saturating_add(1);
            tally.ids = tally.ids.saturating_add(id);
        }
        Came::Parted(_, Over::Ended(End::NoMemory), _, _) => {
            tally.wanting = tally.wanting.saturating_add(1);
        }
        _ => tally.wrong = tally.wrong.saturating_add(1),
    }
}

/// The steps of all places, and what they came to.
fn count_round<'a>(
    connections: &mut Connections<'_, Caller<'a>>,
    listener: &mut Listener<'a>,
    bytes: Bytes,
    tally: &mut Tally,
) {
    for place in 0..connections.places() {
        let came = came_of(connections.step(listener, &mut At(0), &mut At(0), place));
        count(came, bytes, tally);
    }
}

/// Rounds until all were served, but no more than so many.
fn count_all<'a>(
    connections: &mut Connections<'_, Caller<'a>>,
    listener: &mut Listener<'a>,
    bytes: Bytes,
    rounds: u32,
) -> Tally {
    let mut tally = all_of(0, 0);
    for _ in 0..rounds {
        if connections.is_done() {
            return tally;
        }
        if connections.wait(listener, &mut At(0)).is_err() {
            tally.wrong = tally.wrong.saturating_add(1);
        }
        count_round(connections, listener, bytes, &mut tally);
    }
    tally
}

/// Sixty come, of which fifty are wanted, at seven places: a client has three rounds.
fn fifty_are_served(alloc: Global, settings: &Settings) -> bool {
    let coming = [Coming::Client(greeting()); 60];
    are_fifty_served(alloc, settings, &coming)
}

fn are_fifty_served<'a>(alloc: Global, settings: &Settings, coming: &'a [Coming<'a>]) -> bool {
    let mut listener = Listener::new(coming);
    match Connections::new(alloc, settings, 50, 7, PATIENCE) {
        Ok(mut connections) => serves_fifty(&mut connections, &mut listener),
        Err(_) => false,
    }
}

fn serves_fifty<'a>(
    connections: &mut Connections<'_, Caller<'a>>,
    listener: &mut Listener<'a>,
) -> bool {
    let tally = count_all(connections, listener, (ENDED, 56, 28), 30);
    tally == all_of(50, 1275) && connections.is_done() && listener.looks == 50
}

#[test]
fn so_many_are_served_and_no_more(rt: HostRuntime) {
    assert!(rt; by_default(rt.alloc(), fifty_are_served));
}

/// What the client of a channel says, and what it hears.
fn put_calls(alloc: Global, id: u8, says: &mut Vec<u8>) -> Result<(), AllocError> {
    put_changed(alloc, HELLO, &[], says)?;
    put_changed(alloc, OPEN_REQUEST, &[], says)?;
    put_changed(alloc, FIND_REQUEST, &[(8, &[id])], says)?;
    put_changed(alloc, CLOSE_REQUEST, &[(8, &[id])], says)
}

fn put_replies(alloc: Global, id: u8, hears: &mut Vec<u8>) -> Result<(), AllocError> {
    put_changed(alloc, ACKNOWLEDGE, &[], hears)?;
    put_changed(alloc, OPEN_RESPONSE, &[(8, &[id]), (111, &[id])], hears)?;
    put_changed(alloc, FIND_RESPONSE, &[(8, &[id])], hears)
}

/// A client of a channel, of which 50 bytes come at one time, and which takes 40.
fn calling<'a>(says: &'a [u8], hears: &'a [u8], before: usize) -> Coming<'a> {
    let says = says.chunks(338).nth(before).unwrap_or(b"");
    let hears = hears.chunks(297).nth(before).unwrap_or(b"");
    let mut client = ready(says, Some(hears));
    client.gives = 50;
    client.takes = 40;
    Coming::Client(client)
}

fn three_are_served<'a>(
    alloc: Global,
    settings: &Settings,
    says: &'a [u8],
    hears: &'a [u8],
) -> bool {
    let coming = [
        calling(says, hears, 0),
        calling(says, hears, 1),
        calling(says, hears, 2),
    ];
    are_three_served(alloc, settings, &coming)
}

fn are_three_served<'a>(alloc: Global, settings: &Settings, coming: &'a [Coming<'a>]) -> bool {
    let mut listener = Listener::new(coming);
    match Connections::new(alloc, settings, 3, 3, PATIENCE) {
        Ok(mut connections) => serves_three(&mut connections, &mut listener),
        Err(_) => false,
    }
}

fn serves_three<'a>(
    connections: &mut Connections<'_, Caller<'a>>,
    listener: &mut Listener<'a>,
) -> bool {
    let closed = (Over::Ended(End::Closed), 338, 297);
    let tally = count_all(connections, listener, closed, 30);
    tally == all_of(3, 6) && connections.is_done()
}

/// Each hears what its own channel says, byte for byte.
fn each_has_its_channel(alloc: Global, settings: &Settings) -> bool {
    let mut says = Vec::new(alloc);
    let mut hears = Vec::new(alloc);
    let mut made = true;
    for id in 1..4 {
        made &= put_calls(alloc, id, &mut says).is_ok();
        made &= put_replies(alloc, id, &mut hears).is_ok();
    }
    made && three_are_served(alloc, settings, says.as_slice(), hears.as_slice())
}

#[test]
fn each_connection_has_its_channel(rt: HostRuntime) {
    assert!(rt; by_default(rt.alloc(), each_has_its_channel));
}

/// Whether two clients are served; none where memory ran out for one of them, which ends no other one.
fn are_two_served<'a>(
    connections: &mut Connections<'_, Caller<'a>>,
    coming: &'a [Coming<'a>],
) -> Option<bool> {
    let mut listener = Listener::new(coming);
    let tally = count_all(connections, &mut listener, (ENDED, 56, 28), 30);
    let all = tally.parted.saturating_add(tally.wanting) == 2;
    let told = all && tally.wrong == 0 && connections.is_done();
    if told && tally.wanting > 0 {
        None
    } else {
        Some(told)
    }
}

fn are_served_at_two_places(alloc: Global, settings: &Settings) -> Option<bool> {
    let coming = [Coming::Client(greeting()), Coming::Client(greeting())];
    let connections = Connections::new(alloc, settings, 2, 2, PATIENCE).ok();
    judged(
        connections,
        |connections| are_two_served(connections, &coming),
    )
}

fn are_served_by_default(alloc: Global) -> Option<bool> {
    let settings = Settings::from_toml(alloc, DEFAULT.as_bytes()).ok();
    judged(
        settings,
        |settings| are_served_at_two_places(alloc, settings),
    )
}

/// Where memory is there, none is wanted.
#[test]
fn memory_is_ample_for_connections(rt: HostRuntime) {
    assert!(rt; are_served_by_default(rt.alloc()) == Some(true));
}

/// Each is served whole, or ends for want of memory.
#[test]
fn connections_or_no_memory(rt: HostRuntime) {
    assert!(rt; are_served_by_default(rt.alloc()) != Some(false));
}
