//! How a connection ends that takes turns: by itself, with its input or its turns, by its link, and for want of memory.

use crate::connections::{Row, TURNS, are_rows};
use crate::ready_links::{Caller, NO_FUSE, ready, turned, waiting};
use std::alloc::Global;
use ua_conn::End;
use ua_disco::{DEFAULT, Settings};
use ua_link::{Over, ServerConnection};
use ua_test_lent::by_default;
use ua_test_shared::bytes::joined;
use ua_test_shared::lending::{judged, passes};
use ua_test_shared::vectors::{ACKNOWLEDGE, CALLS, HELLO, REPLIES};

/// Whether a connection of so many reads has these turns, all at the moment 0.
fn goes_so(alloc: Global, settings: &Settings, client: Caller, turns: u32, rows: &[Row]) -> bool {
    if turns == 0 {
        return false;
    }
    let connection = ServerConnection::new(alloc, settings, 1, 0, turns).ok();
    let mut client = client;
    passes(
        connection,
        |connection| are_rows(connection, &mut client, 1, rows) && client.heard_all(),
    )
}

pub(crate) const INPUT_ENDED: Option<Over> = Some(Over::Ended(End::InputEnded));

const TRUNCATED: Option<Over> = Some(Over::Ended(End::Truncated));

const STRANGE: Option<Over> = Some(Over::Ended(End::Refused(0x807E_0000)));

const SPENT: Option<Over> = Some(Over::Ended(End::TurnsSpent));

const CLOSED: Option<Over> = Some(Over::Ended(End::Closed));

const LINK_FAILED: Option<Over> = Some(Over::Ended(End::LinkFailed));

const NO_MEMORY: Option<Over> = Some(Over::Ended(End::NoMemory));

/// Nothing comes, and nothing goes.
pub(crate) const NOTHING: Row = (0, 0, 0, None, 0, None);

const LEFT_AT_ONCE: [Row; 1] = [(0, 0, 0, Some(0), 0, INPUT_ENDED)];

/// The end is told once all is out, and the turns without a read are not counted.
const ENDS_OWING: [Row; 7] = [
    NOTHING,
    (0, 56, 0, Some(56), 0, None),
    (0, 0, 27, Some(0), 27, None),
    NOTHING,
    NOTHING,
    NOTHING,
    (0, 0, 9, None, 1, INPUT_ENDED),
];

const CUT_SHORT: [Row; 2] = [
    (0, 4, 0, Some(4), 0, None),
    (0, 0, 9, Some(0), 0, TRUNCATED),
];

const HTTP: &[u8] = b"GET / HTTP/1.1\r\n";

/// What a client hears that speaks something else: the type is out of turn.
pub(crate) const OUT_OF_TURN: &[u8] = b"ERRF\x10\0\0\0\0\0\x7E\x80\xFF\xFF\xFF\xFF";

/// Behind the end nothing more is read.
const REFUSED: [Row; 4] = [
    (0, 15, 10, Some(15), 10, None),
    (0, 1, 0, None, 0, None),
    (0, 0, 5, None, 5, None),
    (0, 0, 5, None, 1, STRANGE),
];

fn ends_with_its_input(alloc: Global, settings: &Settings) -> bool {
    goes_so(alloc, settings, waiting(b"", Some(b"")), 1, &LEFT_AT_ONCE)
        && goes_so(
            alloc,
            settings,
            waiting(HELLO, Some(ACKNOWLEDGE)),
            2,
            &ENDS_OWING,
        )
        && goes_so(alloc, settings, waiting(b"HELF", Some(b"")), 2, &CUT_SHORT)
        && goes_so(
            alloc,
            settings,
            waiting(HTTP, Some(OUT_OF_TURN)),
            2,
            &REFUSED,
        )
}

#[test]
fn a_connection_ends_once_all_is_out(rt: HostRuntime) {
    assert!(rt; by_default(rt.alloc(), ends_with_its_input));
}

/// The calls in their pieces, of which three are read, or the fourth closes.
const THREE: [Row; 5] = [
    (0, 56, 100, Some(56), 28, None),
    NOTHING,
    (0, 132, 100, Some(132), 135, None),
    NOTHING,
    (0, 93, 200, Some(93), 134, SPENT),
];

const FOUR: [Row; 4] = [
    (0, 56, 100, Some(56), 28, None),
    (0, 132, 100, Some(132), 135, None),
    (0, 93, 200, Some(93), 134, None),
    (0, 57, 0, Some(57), 0, CLOSED),
];

/// The turns are spent, and what is owed goes out first.
const ONE: [Row; 4] = [
    (0, 56, 0, Some(56), 0, None),
    (0, 132, 20, None, 20, None),
    NOTHING,
    (0, 0, 100, None, 8, SPENT),
];

fn is_spent(alloc: Global, settings: &Settings, calls: &[u8], replies: &[u8]) -> bool {
    let all = waiting(calls, Some(replies));
    goes_so(alloc, settings, all, 3, &THREE)
        && goes_so(alloc, settings, all, 4, &FOUR)
        && goes_so(alloc, settings, waiting(calls, Some(ACKNOWLEDGE)), 1, &ONE)
}

fn turns_are_spent(alloc: Global, settings: &Settings) -> bool {
    match (joined(alloc, &CALLS), joined(alloc, &REPLIES)) {
        (Ok(calls), Ok(replies)) => {
            is_spent(alloc, settings, calls.as_slice(), replies.as_slice())
        }
        _ => false,
    }
}

#[test]
fn reads_are_counted_and_turns_without_them_are_not(rt: HostRuntime) {
    assert!(rt; by_default(rt.alloc(), turns_are_spent));
}

/// What came of a connection so far: the bytes of its reads, the bytes that went out, and how it is over.
pub(crate) type Came = (usize, usize, Option<Over>);

/// One more turn, unless it is over. A piece of the calls comes before it.
pub(crate) fn add_turn(
    connection: &mut ServerConnection,
    client: &mut Caller,
    piece: usize,
    came: Came,
) -> Came {
    let (read, written, over) = came;
    if over.is_some() {
        return came;
    }
    client.let_more(piece, 0);
    let Some(turn) = turned(connection, client, 0, 1) else {
        return came;
    };
    let more = match turn.cut {
        Some((_, n)) => n,
        None => 0,
    };
    (
        read.saturating_add(more),
        written.saturating_add(turn.written),
        turn.over,
    )
}

/// For each count of calls that a link passes on: how many bytes came and went. One turn is a read, and a write where
/// something is owed, of 100 bytes at most: 56 and 28, 132 and 100, 93 and 100, 57 and 69.
const FUSES: [(u32, usize, usize); 8] = [
    (0, 0, 0),
    (1, 56, 0),
    (2, 56, 28),
    (3, 188, 28),
    (4, 188, 128),
    (5, 281, 128),
    (6, 281, 228),
    (7, 338, 228),
];

/// A client of which the calls come in four turns, and which takes at most 100 bytes at one time.
fn calling<'a>(calls: &'a [u8], replies: &'a [u8], fuse: u32) -> Caller<'a> {
    let mut client = waiting(calls, Some(replies));
    client.room = usize::MAX;
    client.takes = 100;
    client.calls = fuse;
    client
}

/// Whether the first one's link fails so, and the second one goes on to its end.
fn is_alone(
    failing: &mut ServerConnection,
    other: &mut ServerConnection,
    calls: &[u8],
    replies: &[u8],
    want: (u32, usize, usize),
) -> bool {
    let (fuse, read, written) = want;
    let mut first = calling(calls, replies, fuse);
    let mut second = calling(calls, replies, NO_FUSE);
    let mut came = (0, 0, None);
    let mut whole = (0, 0, None);
    for piece in CALLS {
        came = add_turn(failing, &mut first, piece.len(), came);
        whole = add_turn(other, &mut second, piece.len(), whole);
    }
    came == (read, written, LINK_FAILED)
        && first.failures == 1
        && whole == (338, 297, CLOSED)
        && second.heard_all()
}

fn fails_alone(
    alloc: Global,
    settings: &Settings,
    calls: &[u8],
    replies: &[u8],
    want: (u32, usize, usize),
) -> bool {
    let failing = ServerConnection::new(alloc, settings, 1, 0, TURNS).ok();
    passes(failing, |failing| {
        let other = ServerConnection::new(alloc, settings, 1, 0, TURNS).ok();
        passes(
            other,
            |other| is_alone(failing, other, calls, replies, want),
        )
    })
}

fn each_fails_alone(alloc: Global, settings: &Settings) -> bool {
    match (joined(alloc, &CALLS), joined(alloc, &REPLIES)) {
        (Ok(calls), Ok(replies)) => {
            let mut alone = true;
            for want in FUSES {
                alone &= fails_alone(alloc, settings, calls.as_slice(), replies.as_slice(), want);
            }
            alone
        }
        _ => false,
    }
}

#[test]
fn a_link_that_fails_ends_its_connection_alone(rt: HostRuntime) {
    assert!(rt; by_default(rt.alloc(), each_fails_alone));
}

/// Whether the calls are served whole; none where memory ran out.
fn is_served(connection: &mut ServerConnection, calls: &[u8], replies: &[u8]) -> Option<bool> {
    let mut client = ready(calls, Some(replies));
    client.gives = 100;
    client.takes = 50;
    let mut came = (0, 0, None);
    for _ in 0..16 {
        came = add_turn(connection, &mut client, 0, came);
    }
    if came.2 == NO_MEMORY {
        return None;
    }
    Some(came == (338, 297, CLOSED) && client.heard_all())
}

fn are_served(alloc: Global, settings: &Settings) -> Option<bool> {
    let calls = joined(alloc, &CALLS).ok();
    judged(calls, |calls| {
        let replies = joined(alloc, &REPLIES).ok();
        judged(replies, |replies| {
            let connection = ServerConnection::new(alloc, settings, 1, 0, TURNS).ok();
            judged(
                connection,
                |connection| is_served(connection, calls, replies),
            )
        })
    })
}

fn is_served_by_default(alloc: Global) -> Option<bool> {
    let settings = Settings::from_toml(alloc, DEFAULT.as_bytes()).ok();
    judged(settings, |settings| are_served(alloc, settings))
}

/// Where memory is there, none is wanted.
#[test]
fn memory_is_ample_for_a_connection(rt: HostRuntime) {
    assert!(rt; is_served_by_default(rt.alloc()) == Some(true));
}

/// The whole conversation, or a beginning of it with the end `NoMemory`.
#[test]
fn connection_or_no_memory(rt: HostRuntime) {
    assert!(rt; is_served_by_default(rt.alloc()) != Some(false));
}
