//! The connections of a server that has several at once, over sockets of memory: who gets a place, who has a turn, how
//! long a wait may be, and what is told of each.

use crate::connection_ends::OUT_OF_TURN;
use crate::ready_links::{At, Caller, ready};
use std::alloc::Global;
use ua_conn::End;
use ua_disco::Settings;
use ua_link::{LinkFault, Over};
use ua_serve::{Accepted, Connections, Sockets, Step};
use ua_test_lent::by_default;
use ua_test_shared::lending::passes;
use ua_test_shared::vectors::{ACKNOWLEDGE, HELLO};

/// What comes of looking for the next connection.
#[derive(Clone, Copy)]
pub(crate) enum Coming<'a> {
    Client(Caller<'a>),
    Nobody,
    NoSocket,
    Fails,
}

/// A listener of memory, and what it was asked.
#[derive(Clone, Copy)]
pub(crate) struct Listener<'a> {
    /// What comes, one after the other, and then nobody.
    coming: &'a [Coming<'a>],
    /// Whether a wait finds that all may do something, or fails.
    wakes: bool,
    breaks: bool,
    /// How long the last wait may have been, and how often the listener was looked at.
    pub(crate) at_most: Option<u64>,
    pub(crate) looks: u32,
}

impl<'a> Listener<'a> {
    pub(crate) fn new(coming: &'a [Coming<'a>]) -> Listener<'a> {
        Listener {
            coming,
            wakes: false,
            breaks: false,
            at_most: None,
            looks: 0,
        }
    }
}

impl<'a> Sockets for Listener<'a> {
    type Link = Caller<'a>;

    fn wait(&mut self, at_most: Option<u64>, ready: &mut [bool]) -> Result<(), LinkFault> {
        self.at_most = at_most;
        if self.breaks {
            return Err(LinkFault);
        }
        if self.wakes {
            ready.fill(true);
        }
        Ok(())
    }

    fn accept(&mut self, _place: usize) -> Accepted<Caller<'a>> {
        self.looks = self.looks.saturating_add(1);
        if self.coming.is_empty() {
            return Accepted::Nobody;
        }
        let first = self.coming[0];
        self.coming = &self.coming[1..];
        match first {
            Coming::Client(client) => Accepted::Link(client),
            Coming::Nobody => Accepted::Nobody,
            Coming::NoSocket => Accepted::NoSocket,
            Coming::Fails => Accepted::Failed,
        }
    }
}

/// What a step came to: nothing to be told; a connection's id, how it is over, and how many bytes came and went; how often
/// accepting failed; and that it failed too often.
#[derive(Clone, Copy, PartialEq, Eq)]
pub(crate) enum Came {
    Quiet,
    Parted(u32, Over, u64, u64),
    NotAccepted(u64),
    Failed,
}

pub(crate) fn came_of(step: Step) -> Came {
    match step {
        Step::Quiet => Came::Quiet,
        Step::Parted(parted) => Came::Parted(parted.id, parted.over, parted.read, parted.written),
        Step::NotAccepted(count) => Came::NotAccepted(count),
        Step::Failed => Came::Failed,
    }
}

/// A wait at a moment, behind which all may do something or nothing more, how long it may be, and the steps of all places.
#[derive(Clone, Copy)]
pub(crate) struct Round<'a> {
    now: i64,
    wakes: bool,
    at_most: Option<u64>,
    came: &'a [Came],
}

/// A round in which nobody new may do something.
pub(crate) const fn still<'a>(now: i64, at_most: Option<u64>, came: &'a [Came]) -> Round<'a> {
    Round {
        now,
        wakes: false,
        at_most,
        came,
    }
}

/// Whether each place has a step that comes to this.
pub(crate) fn are_steps<'a>(
    connections: &mut Connections<'_, Caller<'a>>,
    listener: &mut Listener<'a>,
    now: i64,
    came: &[Came],
) -> bool {
    for (place, &want) in came.iter().enumerate() {
        let step = connections.step(listener, &mut At(now), &mut At(now), place);
        if came_of(step) != want {
            return false;
        }
    }
    connections.places() == came.len()
}

/// Whether these are the rounds.
pub(crate) fn are_rounds<'a>(
    connections: &mut Connections<'_, Caller<'a>>,
    listener: &mut Listener<'a>,
    rounds: &[Round],
) -> bool {
    for round in rounds {
        listener.wakes = round.wakes;
        let waited = connections.wait(listener, &mut At(round.now)).is_ok();
        if !waited || listener.at_most != round.at_most {
            return false;
        }
        if !are_steps(connections, listener, round.now, round.came) {
            return false;
        }
    }
    true
}

pub(crate) const PATIENCE: u64 = 100;

/// Whether so many connections are served in these rounds to the last one, at so many places, and the listener is looked
/// at so often.
pub(crate) fn are_served<'a>(
    alloc: Global,
    settings: &Settings,
    coming: &'a [Coming<'a>],
    wanted: u32,
    looks: u32,
    rounds: &[Round],
) -> bool {
    let Some(first) = rounds.first() else {
        return false;
    };
    let at_once = u32::try_from(first.came.len()).unwrap_or(0);
    let mut listener = Listener::new(coming);
    match Connections::new(alloc, settings, wanted, at_once, PATIENCE) {
        Ok(mut connections) => serves(&mut connections, &mut listener, rounds, looks),
        Err(_) => false,
    }
}

/// Whether all connections are served in these rounds and no sooner, and the listener is looked at so often.
fn serves<'a>(
    connections: &mut Connections<'_, Caller<'a>>,
    listener: &mut Listener<'a>,
    rounds: &[Round],
    looks: u32,
) -> bool {
    !connections.is_done()
        && are_rounds(connections, listener, rounds)
        && connections.is_done()
        && listener.looks == looks
}

/// A client that says Hello and leaves, one that leaves at once, one that is no client of ours, and one that stays: all
/// that they say is there.
pub(crate) fn greeting<'a>() -> Caller<'a> {
    ready(HELLO, Some(ACKNOWLEDGE))
}

pub(crate) fn leaving<'a>() -> Caller<'a> {
    ready(b"", Some(b""))
}

fn strange<'a>() -> Caller<'a> {
    ready(b"GET / HTTP/1.1\r\n", Some(OUT_OF_TURN))
}

fn staying<'a>(mut client: Caller<'a>) -> Caller<'a> {
    client.leaves = false;
    client
}

/// A client whose link fails behind so many calls.
fn failing<'a>(mut client: Caller<'a>, calls: u32) -> Caller<'a> {
    client.calls = calls;
    client
}

pub(crate) const ENDED: Over = Over::Ended(End::InputEnded);

pub(crate) const REFUSED: Over = Over::Ended(End::Refused(0x807E_0000));

const FAILED: Over = Over::Ended(End::LinkFailed);

pub(crate) const QUIET: Came = Came::Quiet;

/// The third one waits until a place is free, and ids go on. The place of the second one is not before its link has lingered.
fn third_waits(alloc: Global, settings: &Settings) -> bool {
    let coming = [
        Coming::Client(greeting()),
        Coming::Client(strange()),
        Coming::Client(leaving()),
        Coming::Client(leaving()),
    ];
    let rounds = [
        still(1000, Some(0), &[QUIET, QUIET]),
        still(1000, Some(0), &[QUIET, Came::Parted(2, REFUSED, 16, 16)]),
        still(1000, Some(0), &[Came::Parted(1, ENDED, 56, 28), QUIET]),
        still(1000, Some(0), &[QUIET, QUIET]),
        still(1000, Some(0), &[Came::Parted(3, ENDED, 0, 0), QUIET]),
    ];
    are_served(alloc, settings, &coming, 3, 3, &rounds)
}

#[test]
fn those_beyond_the_places_wait(rt: HostRuntime) {
    assert!(rt; by_default(rt.alloc(), third_waits));
}

/// The first one's read fails, the second one's write, and the third one hears another byte than it has to.
fn others_go_on(alloc: Global, settings: &Settings) -> bool {
    let coming = [
        Coming::Client(failing(greeting(), 0)),
        Coming::Client(failing(greeting(), 1)),
        Coming::Client(ready(HELLO, Some(HELLO))),
        Coming::Client(greeting()),
    ];
    let rounds = [
        still(0, Some(0), &[QUIET, QUIET, QUIET, QUIET]),
        still(
            0,
            Some(0),
            &[
                Came::Parted(1, FAILED, 0, 0),
                Came::Parted(2, FAILED, 56, 0),
                Came::Parted(3, FAILED, 56, 0),
                QUIET,
            ],
        ),
        still(
            0,
            Some(0),
            &[QUIET, QUIET, QUIET, Came::Parted(4, ENDED, 56, 28)],
        ),
    ];
    are_served(alloc, settings, &coming, 4, 4, &rounds)
}

#[test]
fn a_link_that_fails_ends_no_other_connection(rt: HostRuntime) {
    assert!(rt; by_default(rt.alloc(), others_go_on));
}

/// The first one says nothing at all, the second one a Hello at 1020, and opens no channel. The longest wait is what one of
/// them has left, and no less than that where the clock goes back: for each by the greatest moment of its turns, 1020 and
/// 1040, so that the second one has 60 left of its 100 for a channel.
fn quiet_ones_are_ended(alloc: Global, settings: &Settings) -> bool {
    let coming = [
        Coming::Client(staying(leaving())),
        Coming::Client(staying(greeting())),
    ];
    let rounds = [
        still(1000, Some(0), &[QUIET, QUIET]),
        still(1020, Some(0), &[QUIET, QUIET]),
        still(1040, Some(0), &[QUIET, QUIET]),
        still(1050, Some(50), &[QUIET, QUIET]),
        still(1099, Some(1), &[QUIET, QUIET]),
        still(900, Some(60), &[QUIET, QUIET]),
        still(
            1100,
            Some(0),
            &[
                Came::Parted(1, Over::TimedOut, 0, 0),
                Came::Parted(2, Over::TimedOut, 56, 28),
            ],
        ),
    ];
    are_served(alloc, settings, &coming, 2, 2, &rounds)
}

#[test]
fn a_quiet_client_is_ended_beside_others(rt: HostRuntime) {
    assert!(rt; by_default(rt.alloc(), quiet_ones_are_ended));
}

/// Nobody is there, so a wait may last; then somebody is.
fn waits_for_the_first(alloc: Global, settings: &Settings) -> bool {
    let coming = [Coming::Nobody, Coming::Client(greeting())];
    let wakes = Round {
        now: 9000,
        wakes: true,
        at_most: None,
        came: &[QUIET],
    };
    let rounds = [
        still(1000, Some(0), &[QUIET]),
        still(1000, None, &[QUIET]),
        still(5000, None, &[QUIET]),
        wakes,
        still(9000, Some(0), &[QUIET]),
        still(9000, Some(0), &[Came::Parted(1, ENDED, 56, 28)]),
    ];
    are_served(alloc, settings, &coming, 1, 2, &rounds)
}

#[test]
fn without_anybody_a_wait_may_last(rt: HostRuntime) {
    assert!(rt; by_default(rt.alloc(), waits_for_the_first));
}

/// Whether a wait that fails is told.
fn breaks(alloc: Global, settings: &Settings) -> bool {
    let mut listener = Listener::new(&[]);
    listener.breaks = true;
    let connections = Connections::new(alloc, settings, 1, 1, PATIENCE).ok();
    passes(connections, |connections: &mut Connections<'_, Caller>| {
        connections.wait(&mut listener, &mut At(0)).is_err()
    })
}

#[test]
fn a_wait_may_fail(rt: HostRuntime) {
    assert!(rt; by_default(rt.alloc(), breaks));
}
