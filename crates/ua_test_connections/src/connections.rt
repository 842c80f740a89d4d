//! One connection of a server that has several, turn by turn: what comes and goes in each, and which one is its last.

use crate::ready_links::{Caller, turned, waiting};
use std::alloc::Global;
use ua_conn::End;
use ua_disco::Settings;
use ua_link::{Over, ReadyTurn, ServerConnection};
use ua_test_lent::by_default;
use ua_test_shared::bytes::joined;
use ua_test_shared::lending::passes;
use ua_test_shared::vectors::{ACKNOWLEDGE, CALLS, FIND_REQUEST, HELLO, OPENING};

/// The reads of a connection, more than a test makes.
pub(crate) const TURNS: u32 = 1000;

/// A turn: its moment, how many more bytes come and can go before it, how many bytes its read gives, if there is one, how
/// many go out, and how the connection is over then.
pub(crate) type Row = (i64, usize, usize, Option<usize>, usize, Option<Over>);

/// No byte came or went for too long.
pub(crate) const OUT: Option<Over> = Some(Over::TimedOut);

const LEFT_AT_LAST: Option<Over> = Some(Over::Ended(End::InputEnded));

/// Whether the turn was so.
fn is_row(turn: &ReadyTurn, row: Row) -> bool {
    let (now, _, _, came, written, over) = row;
    let cut = match came {
        Some(n) => Some((now, n)),
        None => None,
    };
    let moved = written > 0 || (came.is_some() && came != Some(0));
    turn.moment == now
        && turn.cut == cut
        && turn.written == written
        && turn.over == over
        && turn.has_moved() == moved
}

/// Whether the turns of a connection are these.
pub(crate) fn are_rows(
    connection: &mut ServerConnection,
    client: &mut Caller,
    patience: u64,
    rows: &[Row],
) -> bool {
    for &row in rows {
        client.let_more(row.1, row.2);
        let Some(turn) = turned(connection, client, row.0, patience) else {
            return false;
        };
        if !is_row(&turn, row) {
            return false;
        }
    }
    true
}

/// Whether a connection that begins at this moment has these turns.
fn begins(
    alloc: Global,
    settings: &Settings,
    client: Caller,
    begun: i64,
    patience: u64,
    rows: &[Row],
) -> bool {
    let connection = ServerConnection::new(alloc, settings, 1, begun, TURNS).ok();
    let mut client = client;
    passes(
        connection,
        |connection| are_rows(connection, &mut client, patience, rows),
    )
}

/// A client that says Hello, and does not leave.
fn staying(says: &[u8]) -> Caller<'_> {
    let mut client = waiting(says, Some(ACKNOWLEDGE));
    client.leaves = false;
    client
}

/// Whether a connection has these turns with a client that opens a channel and asks; it does not leave.
pub(crate) fn opens(
    alloc: Global,
    settings: &Settings,
    begun: i64,
    patience: u64,
    rows: &[Row],
) -> bool {
    match joined(alloc, &[OPENING, FIND_REQUEST]) {
        Ok(says) => {
            let mut client = waiting(says.as_slice(), None);
            client.leaves = false;
            begins(alloc, settings, client, begun, patience, rows)
        }
        Err(_) => false,
    }
}

pub(crate) const BEGUN: i64 = 1000;

pub(crate) const PATIENCE: u64 = 100;

/// Nothing comes at all.
const QUIET: [Row; 4] = [
    (1000, 0, 0, None, 0, None),
    (1050, 0, 0, None, 0, None),
    (1099, 0, 0, None, 0, None),
    (1100, 0, 0, None, 0, OUT),
];

/// Once the channel is open, a byte that comes gives the whole time again, however late it is.
const COMES: [Row; 8] = [
    (1000, 188, 163, Some(188), 163, None),
    (1099, 1, 0, Some(1), 0, None),
    (1198, 0, 0, None, 0, None),
    (1199, 1, 0, Some(1), 0, None),
    (1298, 0, 0, None, 0, None),
    (1900, 1, 0, Some(1), 0, None),
    (1999, 0, 0, None, 0, None),
    (2000, 0, 0, None, 0, OUT),
];

/// So does one that goes out.
const GOES: [Row; 6] = [
    (1000, 188, 0, Some(188), 0, None),
    (1099, 0, 1, None, 1, None),
    (1198, 0, 0, None, 0, None),
    (9000, 0, 26, None, 26, None),
    (9099, 0, 0, None, 0, None),
    (9100, 0, 0, None, 0, OUT),
];

/// The client asks, and takes nothing of what is owed to it.
const NEVER_READS: [Row; 3] = [
    (1000, 188, 0, Some(188), 0, None),
    (1099, 0, 0, None, 0, None),
    (1100, 0, 0, None, 0, OUT),
];

/// All is out, and nothing more comes.
const ANSWERED: [Row; 3] = [
    (1050, 188, 163, Some(188), 163, None),
    (1149, 0, 0, None, 0, None),
    (1150, 0, 0, None, 0, OUT),
];

fn is_patient(alloc: Global, settings: &Settings) -> bool {
    begins(alloc, settings, staying(HELLO), BEGUN, PATIENCE, &QUIET)
        && opens(alloc, settings, BEGUN, PATIENCE, &COMES)
        && opens(alloc, settings, BEGUN, PATIENCE, &GOES)
        && opens(alloc, settings, BEGUN, PATIENCE, &NEVER_READS)
        && opens(alloc, settings, BEGUN, PATIENCE, &ANSWERED)
}

#[test]
fn patience_begins_anew_with_each_byte(rt: HostRuntime) {
    assert!(rt; by_default(rt.alloc(), is_patient));
}

/// A clock that goes back stands still until it is past the greatest moment.
const BACK: [Row; 6] = [
    (500, 0, 0, None, 0, None),
    (1099, 0, 0, None, 0, None),
    (0, 0, 0, None, 0, None),
    (900, 0, 0, None, 0, None),
    (1099, 0, 0, None, 0, None),
    (1100, 0, 0, None, 0, OUT),
];

/// It goes back and forth, by more than patience lasts in all.
const BACK_AND_FORTH: [Row; 10] = [
    (1050, 0, 0, None, 0, None),
    (950, 0, 0, None, 0, None),
    (1050, 0, 0, None, 0, None),
    (950, 0, 0, None, 0, None),
    (1050, 0, 0, None, 0, None),
    (i64::MIN, 0, 0, None, 0, None),
    (1050, 0, 0, None, 0, None),
    (0, 0, 0, None, 0, None),
    (1099, 0, 0, None, 0, None),
    (1100, 0, 0, None, 0, OUT),
];

/// A byte comes as the clock went back: its moment is the greatest before it.
const COMES_BEFORE: [Row; 5] = [
    (1000, 188, 163, Some(188), 163, None),
    (1050, 0, 0, None, 0, None),
    (500, 1, 0, Some(1), 0, None),
    (1149, 0, 0, None, 0, None),
    (1150, 0, 0, None, 0, OUT),
];

/// It went back by far, behind the beginning.
const FAR_BACK: [Row; 6] = [
    (0, 0, 0, None, 0, None),
    (100, 0, 0, None, 0, None),
    (101, 0, 0, None, 0, None),
    (1000, 0, 0, None, 0, None),
    (1099, 0, 0, None, 0, None),
    (1100, 0, 0, None, 0, OUT),
];

/// Moments before 0 count as 0.
const BEFORE_0: [Row; 4] = [
    (-500, 0, 0, None, 0, None),
    (-1, 0, 0, None, 0, None),
    (99, 0, 0, None, 0, None),
    (100, 0, 0, None, 0, OUT),
];

fn is_patient_with_its_clock(alloc: Global, settings: &Settings) -> bool {
    begins(alloc, settings, staying(HELLO), BEGUN, PATIENCE, &BACK)
        && begins(
            alloc,
            settings,
            staying(HELLO),
            BEGUN,
            PATIENCE,
            &BACK_AND_FORTH,
        )
        && opens(alloc, settings, BEGUN, PATIENCE, &COMES_BEFORE)
        && begins(alloc, settings, staying(HELLO), BEGUN, PATIENCE, &FAR_BACK)
        && begins(alloc, settings, staying(HELLO), -1000, PATIENCE, &BEFORE_0)
        && begins(
            alloc,
            settings,
            staying(HELLO),
            i64::MIN,
            PATIENCE,
            &BEFORE_0,
        )
}

#[test]
fn a_clock_that_goes_back_ends_nobody_early(rt: HostRuntime) {
    assert!(rt; by_default(rt.alloc(), is_patient_with_its_clock));
}

/// The end comes before patience, once nothing is owed; while something is, patience may end before.
const LEAVES_LATE: [Row; 1] = [(5000, 0, 0, Some(0), 0, LEFT_AT_LAST)];

const LEAVES_OWING: [Row; 3] = [
    (1000, 56, 0, Some(56), 0, None),
    (1050, 0, 0, Some(0), 0, None),
    (1100, 0, 0, None, 0, OUT),
];

/// Without patience a turn in which nothing moves is the last.
const AT_ONCE: [Row; 2] = [
    (1000, 188, 163, Some(188), 163, None),
    (1000, 0, 0, None, 0, OUT),
];

const FOR_EVER: [Row; 3] = [
    (0, 0, 0, None, 0, None),
    (i64::MAX, 0, 0, None, 0, None),
    (i64::MAX, 0, 0, None, 0, None),
];

fn ends_or_is_quiet(alloc: Global, settings: &Settings) -> bool {
    begins(
        alloc,
        settings,
        waiting(b"", None),
        BEGUN,
        PATIENCE,
        &LEAVES_LATE,
    ) && begins(
        alloc,
        settings,
        waiting(HELLO, Some(ACKNOWLEDGE)),
        BEGUN,
        PATIENCE,
        &LEAVES_OWING,
    ) && opens(alloc, settings, BEGUN, 0, &AT_ONCE)
        && begins(alloc, settings, staying(HELLO), 0, u64::MAX, &FOR_EVER)
}

#[test]
fn an_end_comes_before_patience(rt: HostRuntime) {
    assert!(rt; by_default(rt.alloc(), ends_or_is_quiet));
}

/// What is left of patience, by the latest moment of the turns before: at 1000 it began, and its channel was
/// open; at 1030 a byte came.
const LEFT: [(i64, u64, u64); 9] = [
    (1030, 100, 100),
    (1031, 100, 99),
    (1129, 100, 1),
    (1130, 100, 0),
    (9999, 100, 0),
    (0, 100, 100),
    (i64::MIN, 100, 100),
    (i64::MAX, u64::MAX, 9_223_372_036_854_776_838),
    (1030, 0, 0),
];

fn has_left(connection: &mut ServerConnection, calls: &[u8]) -> bool {
    let mut client = waiting(calls, None);
    let before = connection.patience_left(1000, 100) == 100
        && connection.patience_left(1040, 100) == 60
        && connection.patience_left(1100, 100) == 0;
    let comes = [
        (1000, 188, 163, Some(188), 163, None),
        (1030, 1, 0, Some(1), 0, None),
    ];
    if !before || !are_rows(connection, &mut client, PATIENCE, &comes) {
        return false;
    }
    for (now, patience, left) in LEFT {
        if connection.patience_left(now, patience) != left {
            return false;
        }
    }
    true
}

fn have_left(alloc: Global, settings: &Settings) -> bool {
    let connection = ServerConnection::new(alloc, settings, 1, BEGUN, TURNS).ok();
    passes(connection, |connection| match joined(alloc, &CALLS) {
        Ok(calls) => has_left(connection, calls.as_slice()),
        Err(_) => false,
    })
}

#[test]
fn patience_is_left_by_the_greatest_moment(rt: HostRuntime) {
    assert!(rt; by_default(rt.alloc(), have_left));
}

/// What comes and goes moves; the end of the input, and a read that gives nothing, do not.
#[test]
fn a_byte_that_comes_or_goes_moves(rt: HostRuntime) {
    for (cut, written, moved) in [
        (None, 0, false),
        (None, 1, true),
        (Some((5, 0)), 0, false),
        (Some((5, 0)), 1, true),
        (Some((5, 1)), 0, true),
        (Some((-5, 4096)), 28, true),
    ] {
        let turn = ReadyTurn {
            moment: 5,
            cut,
            written,
            over: None,
        };
        assert_eq!(rt; turn.has_moved(), moved);
    }
}
