//! Schedules of several connections whose pieces come in any order, drawn by a fixed rule: what goes out on each is owed to
//! its own pieces.

use crate::ready_links::{Noting, turned, waiting};
use std::alloc::{AllocError, Global};
use ua_conn::{End, reply_all};
use ua_disco::Settings;
use ua_link::{Over, ServerConnection};
use ua_test_lent::{by_settings, hundred_endpoints};
use ua_test_shared::bytes::{changed, joined};
use ua_test_shared::lending::{kept, passes};
use ua_test_shared::vectors::{
    CLOSE_REQUEST, ENDPOINTS_REQUEST, FIND_REQUEST, HELLO, OPEN_REQUEST,
};

/// How many schedules are drawn for each test, and how many steps each has.
const SCHEDULES: u32 = 25;

const STEPS: u32 = 400;

/// The rounds in which all that is left comes and goes.
const LAST_ROUNDS: u32 = 24;

/// 2026-01-01 00:00 UTC in ticks of 100 ns since 1601.
const START: i64 = 134_116_992_000_000_000;

/// Patience that no schedule spends, and one that some clients do.
const AMPLE: u64 = 1_000_000_000;

const SHORT: u64 = 1500;

/// The reads of a connection.
const TURNS: u32 = 2000;

/// A connection, its client, and what came of its turns.
#[derive(Drop)]
struct Peer<'a> {
    connection: ServerConnection<'a>,
    link: Noting<'a>,
    says: &'a [u8],
    /// As many bytes come each time, where that is fixed.
    pace: Option<usize>,
    cuts: Vec<(i64, usize)>,
    written: usize,
    over: Option<Over>,
}

/// What a client says, how many bytes of it come each time where that is fixed, and whether it leaves then.
#[derive(Clone, Copy)]
struct Part<'a> {
    says: &'a [u8],
    pace: Option<usize>,
    leaves: bool,
}

impl<'a> Peer<'a> {
    /// A connection that begins at this moment.
    fn new(alloc: Global, settings: &'a Settings, part: Part<'a>, now: i64) -> Option<Peer<'a>> {
        let mut caller = waiting(part.says, None);
        caller.leaves = part.leaves;
        match ServerConnection::new(alloc, settings, 1, now, TURNS) {
            Ok(connection) => Some(Peer {
                connection,
                link: Noting::new(alloc, caller),
                says: part.says,
                pace: part.pace,
                cuts: Vec::new(alloc),
                written: 0,
                over: None,
            }),
            Err(_) => None,
        }
    }

    /// More bytes come, or more are taken.
    fn let_more(&mut self, comes: bool, amount: usize) {
        let amount = match self.pace {
            Some(pace) => pace,
            None => amount,
        };
        if comes {
            self.link.caller.let_more(amount, 0);
        } else {
            self.link.caller.let_more(0, amount);
        }
    }

    /// One more turn, unless it is over.
    fn turn(&mut self, now: i64, patience: u64) {
        if self.over.is_some() {
            return;
        }
        let Some(turn) = turned(&mut self.connection, &mut self.link, now, patience) else {
            return;
        };
        if let Some(cut) = turn.cut {
            if self.cuts.push(cut).is_err() {
                self.link.lost = true;
            }
        }
        self.written = self.written.saturating_add(turn.written);
        self.over = turn.over;
    }

    /// Whether just as much went out as is owed to pieces with this reply and this end: all, if they are at that end.
    fn is_owed(&self, reply: &[u8], end: End) -> bool {
        let heard = self.link.heard.as_slice();
        let due = match self.over {
            Some(Over::Ended(came)) => came == end && heard == reply,
            _ => reply.starts_with(heard),
        };
        due && !self.link.lost && self.written == heard.len()
    }
}

/// The pieces of what was said, by the reads of it.
fn pieces_of<'a>(
    alloc: Global,
    says: &'a [u8],
    cuts: &[(i64, usize)],
) -> Result<Vec<(i64, &'a [u8])>, AllocError> {
    let mut pieces = Vec::new(alloc);
    let mut rest = says;
    for &(now, len) in cuts {
        let (piece, more) = rest.split_at(len.min(rest.len()));
        pieces.push((now, piece))?;
        rest = more;
    }
    Ok(pieces)
}

/// Whether what went out is owed to its pieces.
fn is_right(alloc: Global, settings: &Settings, peer: &Peer) -> bool {
    let Ok(pieces) = pieces_of(alloc, peer.says, peer.cuts.as_slice()) else {
        return false;
    };
    match reply_all(alloc, settings, 1, pieces.as_slice()) {
        Ok((reply, end)) => peer.is_owed(reply.as_slice(), end),
        Err(_) => false,
    }
}

/// The state behind this one, of which the low bits are the least mixed.
fn next(state: u32) -> u32 {
    state.wrapping_mul(1_664_525).wrapping_add(1_013_904_223)
}

fn amount(n: u32) -> usize {
    match n % 4 {
        0 => 0,
        1 => (n % 7) as usize,
        2 => (n % 100) as usize,
        _ => (n % 5000) as usize,
    }
}

/// The clock goes on, and now and then back.
fn moment(now: i64, n: u32) -> i64 {
    if n % 11 == 0 {
        now.wrapping_sub(50)
    } else {
        now.wrapping_add((n % 100) as i64)
    }
}

/// One of them gets more bytes, or takes more, and has a turn.
fn step(peers: &mut [Peer], draw: u32, now: i64, patience: u64) {
    let place = (draw % 6) as usize;
    if let Some(peer) = peers.get_mut(place) {
        let rest = draw / 6;
        peer.let_more(rest % 2 == 0, amount(rest / 2));
        peer.turn(now, patience);
    }
}

/// Each gets and takes all that is left, and has a turn.
fn last_round(peers: &mut [Peer], now: i64, patience: u64) {
    for peer in peers.iter_mut() {
        peer.pace = None;
        peer.let_more(true, usize::MAX);
        peer.let_more(false, usize::MAX);
        peer.turn(now, patience);
    }
}

/// The steps of a schedule, and then rounds until nothing is left but a quiet client.
fn run(peers: &mut [Peer], seed: u32, patience: u64) {
    let mut state = next(seed);
    let mut now = START;
    for _ in 0..STEPS {
        state = next(state);
        now = moment(now, state / 512);
        step(peers, state / 256, now, patience);
    }
    for _ in 0..LAST_ROUNDS {
        last_round(peers, now, patience);
    }
    last_round(peers, now.saturating_add(AMPLE as i64), patience);
    last_round(peers, now.saturating_add(2 * AMPLE as i64), patience);
}

/// How many connections ended in which way.
#[derive(Clone, Copy)]
struct Tally {
    closed: u32,
    refused: u32,
    truncated: u32,
    timed_out: u32,
    wrong: u32,
}

fn count(alloc: Global, settings: &Settings, peer: &Peer, tally: &mut Tally) {
    let right = is_right(alloc, settings, peer);
    let place = match peer.over {
        Some(Over::Ended(End::Closed)) if right => &mut tally.closed,
        Some(Over::Ended(End::Refused(_))) if right => &mut tally.refused,
        Some(Over::Ended(End::Truncated)) if right => &mut tally.truncated,
        Some(Over::TimedOut) if right => &mut tally.timed_out,
        _ => &mut tally.wrong,
    };
    *place = place.saturating_add(1);
}

fn add<T: Drop>(item: Option<T>, all: &mut Vec<T>) -> bool {
    match item {
        Some(item) => all.push(item).is_ok(),
        None => false,
    }
}

fn peers<'a>(alloc: Global, settings: &'a Settings, parts: &[Part<'a>]) -> Option<Vec<Peer<'a>>> {
    let mut peers = Vec::new(alloc);
    let mut all = true;
    for part in parts {
        all &= add(Peer::new(alloc, settings, *part, START), &mut peers);
    }
    kept(peers, all)
}

/// Runs one schedule, and counts what came of it.
fn tell(
    alloc: Global,
    settings: &Settings,
    parts: &[Part],
    seed: u32,
    patience: u64,
    tally: &mut Tally,
) -> bool {
    passes(peers(alloc, settings, parts), |peers| {
        run(peers.as_mut_slice(), seed, patience);
        for peer in peers.as_slice() {
            count(alloc, settings, peer, tally);
        }
        true
    })
}

/// What the clients do: one asks for servers, one for a hundred endpoints, one says half a Hello, one is no client of
/// ours, one is quiet, and one asks for servers by a byte a time.
fn parts<'a>(finds: &'a [u8], asks: &'a [u8]) -> [Part<'a>; 6] {
    let (half, _) = HELLO.split_at(28);
    let part = Part {
        says: finds,
        pace: None,
        leaves: true,
    };
    [
        part,
        Part { says: asks, ..part },
        Part { says: half, ..part },
        Part {
            says: b"GET / HTTP/1.1\r\n",
            ..part
        },
        Part {
            says: b"",
            leaves: false,
            ..part
        },
        Part {
            pace: Some(1),
            ..part
        },
    ]
}

fn tell_all(alloc: Global, settings: &Settings, parts: &[Part], patience: u64) -> Option<Tally> {
    let mut tally = Tally {
        closed: 0,
        refused: 0,
        truncated: 0,
        timed_out: 0,
        wrong: 0,
    };
    let mut all = true;
    for seed in 0..SCHEDULES {
        all &= tell(alloc, settings, parts, seed, patience, &mut tally);
    }
    if all { Some(tally) } else { None }
}

/// With ample patience each ends by itself, but for the quiet one.
fn is_ample(tally: Tally) -> bool {
    tally.closed == 3 * SCHEDULES
        && tally.refused == SCHEDULES
        && tally.truncated == SCHEDULES
        && tally.timed_out == SCHEDULES
        && tally.wrong == 0
}

/// With little, more of them are ended by it, but not all.
fn is_short(tally: Tally) -> bool {
    tally.timed_out > SCHEDULES && tally.closed > 0 && tally.wrong == 0
}

fn are_told(alloc: Global, settings: &Settings, finds: &[u8], asks: &[u8]) -> bool {
    let parts = parts(finds, asks);
    let ample = tell_all(alloc, settings, &parts, AMPLE);
    let short = tell_all(alloc, settings, &parts, SHORT);
    match (ample, short) {
        (Some(ample), Some(short)) => is_ample(ample) && is_short(short),
        _ => false,
    }
}

/// What a client says that asks for servers, and one that takes frames of 8192 bytes and asks for endpoints.
fn finds(alloc: Global) -> Result<Vec<u8>, AllocError> {
    joined(alloc, &[HELLO, OPEN_REQUEST, FIND_REQUEST, CLOSE_REQUEST])
}

fn asks(alloc: Global) -> Result<Vec<u8>, AllocError> {
    let hello = changed(alloc, HELLO, 12, b"\0\x20\0\0\0\x20")?;
    joined(
        alloc,
        &[
            hello.as_slice(),
            OPEN_REQUEST,
            ENDPOINTS_REQUEST,
            CLOSE_REQUEST,
        ],
    )
}

fn are_told_by(alloc: Global, settings: &Settings) -> bool {
    match (finds(alloc), asks(alloc)) {
        (Ok(finds), Ok(asks)) => are_told(alloc, settings, finds.as_slice(), asks.as_slice()),
        _ => false,
    }
}

fn are_told_by_hundred(alloc: Global) -> bool {
    match hundred_endpoints(alloc) {
        Ok(text) => by_settings(alloc, text.as_str(), are_told_by),
        Err(_) => false,
    }
}

#[test]
fn connections_in_any_order_are_each_answered(rt: HostRuntime) {
    assert!(rt; are_told_by_hundred(rt.alloc()));
}
