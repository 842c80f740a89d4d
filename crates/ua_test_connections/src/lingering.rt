//! Links that linger: the last word of a connection that is over is not followed by a link that is closed with bytes unread.

use crate::connection_ends::OUT_OF_TURN;
use crate::many_connections::{Came, Coming, Listener, PATIENCE, REFUSED, came_of};
use crate::ready_links::{At, Caller, ready};
use std::alloc::Global;
use ua_disco::Settings;
use ua_serve::Connections;
use ua_test_lent::by_default;
use ua_test_shared::lending::passes;

const SECOND: i64 = 10_000_000;

/// A client that is refused, and of which 16 bytes come at one time. A byte more than its refusal would be a fault.
fn strange<'a>(says: &'a [u8]) -> Caller<'a> {
    let mut client = ready(says, Some(OUT_OF_TURN));
    client.gives = 16;
    client.leaves = false;
    client
}

/// A wait at this moment that may be so long, and a step of the one place that comes to this.
fn is_round<'a>(
    connections: &mut Connections<'_, Caller<'a>>,
    listener: &mut Listener<'a>,
    round: (i64, Option<u64>, Came),
) -> bool {
    let (now, at_most, want) = round;
    let waited = connections.wait(listener, &mut At(now)).is_ok();
    let came = came_of(connections.step(listener, &mut At(now), &mut At(now), 0));
    waited && listener.at_most == at_most && came == want
}

/// Whether the one who comes is served in these rounds, and in no fewer.
fn are_all_rounds<'a>(
    connections: &mut Connections<'_, Caller<'a>>,
    coming: &'a [Coming<'a>],
    rounds: &[(i64, Option<u64>, Came)],
) -> bool {
    let mut listener = Listener::new(coming);
    let mut served = true;
    for &round in rounds {
        served &= !connections.is_done() && is_round(connections, &mut listener, round);
    }
    served && connections.is_done()
}

/// Whether one connection at one place is served in these rounds, and in no fewer.
fn is_served<'a>(
    alloc: Global,
    settings: &Settings,
    client: Caller<'a>,
    rounds: &[(i64, Option<u64>, Came)],
) -> bool {
    let coming = [Coming::Client(client)];
    let connections = Connections::new(alloc, settings, 1, 1, PATIENCE).ok();
    passes(
        connections,
        |connections| are_all_rounds(connections, &coming, rounds),
    )
}

const QUIET: Came = Came::Quiet;

const PARTED: Came = Came::Parted(1, REFUSED, 16, 16);

const SAYS: &[u8] = b"GET / HTTP/1.1\r\nHost: localhost\r\nAccept: */*";

/// What it says behind the frame that is refused is dropped, at two steps; then nothing is there, and the second of its link
/// goes by.
fn lingers_for_a_second(alloc: Global, settings: &Settings) -> bool {
    let rounds = [
        (1000, Some(0), QUIET),
        (1000, Some(0), PARTED),
        (1000, Some(0), QUIET),
        (1000, Some(0), QUIET),
        (1000, Some(0), QUIET),
        (2000, Some(9_999_000), QUIET),
        (SECOND + 999, Some(1), QUIET),
        (SECOND + 1000, Some(0), QUIET),
    ];
    is_served(alloc, settings, strange(SAYS), &rounds)
}

/// It leaves when it hears that no more bytes come.
fn leaves_with_the_output(alloc: Global, settings: &Settings) -> bool {
    let mut client = strange(&SAYS[..16]);
    client.follows = true;
    let rounds = [
        (0, Some(0), QUIET),
        (0, Some(0), PARTED),
        (0, Some(0), QUIET),
    ];
    is_served(alloc, settings, client, &rounds)
}

/// Its link fails behind the read and the write that refuse it, and one read more.
fn fails(alloc: Global, settings: &Settings) -> bool {
    let mut client = strange(SAYS);
    client.calls = 3;
    let rounds = [
        (0, Some(0), QUIET),
        (0, Some(0), PARTED),
        (0, Some(0), QUIET),
        (0, Some(0), QUIET),
    ];
    is_served(alloc, settings, client, &rounds)
}

/// It says more than is dropped: sixteen reads of 4096 bytes are.
fn says_too_much<'a>(alloc: Global, settings: &Settings, says: &'a [u8]) -> bool {
    let mut client = strange(says);
    client.gives = 4096;
    let parted = Came::Parted(1, REFUSED, 4096, 16);
    let mut rounds = [(0, Some(0), QUIET); 18];
    rounds[1] = (0, Some(0), parted);
    is_served(alloc, settings, client, &rounds)
}

fn is_heard_no_longer(alloc: Global, settings: &Settings) -> bool {
    let says = Vec::from_elem(alloc, b'G', 100_000).ok();
    passes(says, |says: &mut Vec<u8>| {
        says_too_much(alloc, settings, says.as_slice())
    })
}

#[test]
fn the_last_word_is_waited_for(rt: HostRuntime) {
    assert!(rt; by_default(rt.alloc(), lingers_for_a_second));
    assert!(rt; by_default(rt.alloc(), leaves_with_the_output));
    assert!(rt; by_default(rt.alloc(), fails));
    assert!(rt; by_default(rt.alloc(), is_heard_no_longer));
}

/// Whether the one who comes is over in one of these days, none of which moves the steady clock, and its link then lingers.
fn is_over_once<'a>(
    connections: &mut Connections<'_, Caller<'a>>,
    coming: &'a [Coming<'a>],
    days: &[i64],
) -> bool {
    let mut listener = Listener::new(coming);
    let mut parted = 0u32;
    for &day in days {
        let waited = connections.wait(&mut listener, &mut At(7)).is_ok();
        let step = connections.step(&mut listener, &mut At(day), &mut At(7), 0);
        if waited && came_of(step) == PARTED {
            parted = parted.saturating_add(1);
        }
    }
    parted == 1 && !connections.is_done()
}

/// Whether a day's clock that steps far ahead and back changes nothing of what goes by the steady one.
fn days_do_not_count(alloc: Global, settings: &Settings) -> bool {
    let coming = [Coming::Client(strange(SAYS))];
    let days = [SECOND * 1000, 0, SECOND * 2000, -SECOND];
    let connections = Connections::new(alloc, settings, 1, 1, PATIENCE).ok();
    passes(
        connections,
        |connections| is_over_once(connections, &coming, &days),
    )
}

#[test]
fn the_clock_of_the_day_ends_nothing(rt: HostRuntime) {
    assert!(rt; by_default(rt.alloc(), days_do_not_count));
}
