//! Accepting that fails, or for which the system has no socket: when it is tried again, and when it is given up.

use crate::many_connections::{
    Came, Coming, ENDED, Listener, PATIENCE, QUIET, are_rounds, are_served, are_steps, came_of,
    leaving, still,
};
use crate::ready_links::{At, Caller};
use std::alloc::Global;
use ua_disco::Settings;
use ua_serve::Connections;
use ua_test_lent::by_default;
use ua_test_shared::lending::passes;

const PAUSE: i64 = 5_000_000;

/// Behind a call that fails half a second passes before the next one, unless the clock goes back.
fn accepts_again(alloc: Global, settings: &Settings) -> bool {
    let coming = [
        Coming::Fails,
        Coming::Fails,
        Coming::Client(leaving()),
        Coming::Client(leaving()),
    ];
    let rounds = [
        still(1000, Some(0), &[Came::NotAccepted(1), QUIET]),
        still(1000, Some(5_000_000), &[QUIET, QUIET]),
        still(5_000_999, Some(1), &[QUIET, QUIET]),
        still(5_001_000, Some(0), &[Came::NotAccepted(2), QUIET]),
        still(500_000, Some(0), &[QUIET, QUIET]),
        still(
            500_000,
            Some(0),
            &[Came::Parted(1, ENDED, 0, 0), Came::Parted(2, ENDED, 0, 0)],
        ),
    ];
    are_served(alloc, settings, &coming, 2, 4, &rounds)
}

#[test]
fn accepting_is_tried_again(rt: HostRuntime) {
    assert!(rt; by_default(rt.alloc(), accepts_again));
}

/// Without a socket nothing is told, and half a second passes before the next call.
fn waits_for_a_socket(alloc: Global, settings: &Settings) -> bool {
    let coming = [
        Coming::NoSocket,
        Coming::NoSocket,
        Coming::Client(leaving()),
    ];
    let rounds = [
        still(1000, Some(0), &[QUIET, QUIET]),
        still(1000, Some(5_000_000), &[QUIET, QUIET]),
        still(5_001_000, Some(0), &[QUIET, QUIET]),
        still(10_000_999, Some(1), &[QUIET, QUIET]),
        still(10_001_000, Some(0), &[QUIET, QUIET]),
        still(10_001_000, Some(0), &[Came::Parted(1, ENDED, 0, 0), QUIET]),
    ];
    are_served(alloc, settings, &coming, 1, 3, &rounds)
}

/// Want of sockets, two hundred times in a row, is no failure: the one that comes behind it is the first.
fn wants_sockets_for_long<'a>(
    connections: &mut Connections<'_, Caller<'a>>,
    listener: &mut Listener<'a>,
) -> bool {
    for n in 0..200 {
        let now = PAUSE.saturating_mul(n);
        let waited = connections.wait(listener, &mut At(now)).is_ok();
        let step = connections.step(listener, &mut At(now), &mut At(now), 0);
        if !waited || came_of(step) != QUIET {
            return false;
        }
    }
    listener.looks == 200
}

/// Behind that one failure is told as the first.
fn fails_behind<'a>(
    connections: &mut Connections<'_, Caller<'a>>,
    wants: &'a [Coming<'a>],
    failing: &'a [Coming<'a>],
) -> bool {
    let mut listener = Listener::new(wants);
    if !wants_sockets_for_long(connections, &mut listener) {
        return false;
    }
    let mut behind = Listener::new(failing);
    let fails = [still(200 * PAUSE, Some(0), &[Came::NotAccepted(1)])];
    are_rounds(connections, &mut behind, &fails)
}

fn goes_on_without_sockets(alloc: Global, settings: &Settings) -> bool {
    let wants = [Coming::NoSocket; 200];
    let failing = [Coming::Fails];
    let connections = Connections::new(alloc, settings, 1, 1, PATIENCE).ok();
    passes(
        connections,
        |connections| fails_behind(connections, &wants, &failing),
    )
}

#[test]
fn want_of_sockets_ends_nothing(rt: HostRuntime) {
    assert!(rt; by_default(rt.alloc(), waits_for_a_socket));
    assert!(rt; by_default(rt.alloc(), goes_on_without_sockets));
}

/// So many calls fail behind those before, each after the pause of the one before.
fn fails_on<'a>(
    connections: &mut Connections<'_, Caller<'a>>,
    listener: &mut Listener<'a>,
    before: u64,
    count: u64,
) -> bool {
    for n in 0..count {
        let failures = before.saturating_add(n);
        let now = i64::try_from(failures).unwrap_or(0).saturating_mul(PAUSE);
        let waited = connections.wait(listener, &mut At(now)).is_ok();
        let want = Came::NotAccepted(failures.saturating_add(1));
        if !waited || !are_steps(connections, listener, now, &[want]) {
            return false;
        }
    }
    true
}

/// Ninety-nine fail, one is accepted and leaves, and behind it a hundred fail, of which the last is too many.
fn gives_up<'a>(
    connections: &mut Connections<'_, Caller<'a>>,
    fails: &'a [Coming<'a>],
    client: &'a [Coming<'a>],
) -> bool {
    let mut failing = Listener::new(fails);
    if !fails_on(connections, &mut failing, 0, 99) {
        return false;
    }
    let mut giving = Listener::new(client);
    let between = [
        still(99 * PAUSE, Some(0), &[QUIET]),
        still(99 * PAUSE, Some(0), &[Came::Parted(1, ENDED, 0, 0)]),
    ];
    if !are_rounds(connections, &mut giving, &between) {
        return false;
    }
    let mut failing = Listener::new(fails);
    fails_on(connections, &mut failing, 99, 99)
        && are_rounds(
            connections,
            &mut failing,
            &[still(200 * PAUSE, Some(0), &[Came::Failed])],
        )
        && !connections.is_done()
}

fn gives_up_then(alloc: Global, settings: &Settings) -> bool {
    let fails = [Coming::Fails; 100];
    let client = [Coming::Client(leaving())];
    let connections = Connections::new(alloc, settings, 2, 1, PATIENCE).ok();
    passes(
        connections,
        |connections| gives_up(connections, &fails, &client),
    )
}

#[test]
fn accepting_is_given_up_after_a_hundred(rt: HostRuntime) {
    assert!(rt; by_default(rt.alloc(), gives_up_then));
}
