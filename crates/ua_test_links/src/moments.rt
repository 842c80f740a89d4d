//! The moments of a connection are what its clock said, each behind its own read.

ghost use Rattle.std.specs.Prelude.{◌≡◌, false, cond, Some, None};

use crate::links::TURNS;
use std::alloc::{AllocError, Global};
use std::cell::Cell;
use std::io;
use std::rt::Clock as HostClock;
use std::time::{Duration, SystemTime, UNIX_EPOCH};
use ua_conn::{Client, ClientConfig, End, Server};
use ua_disco::Settings;
use ua_link::{
    ClientTurn, Clock, Link, MachineClock, MemoryLink, SteadyClock, pump, pump_client,
    serve_connection,
};
use ua_test_lent::by_default;
use ua_test_shared::bytes::{changed, joined};
use ua_test_shared::lending::passes;
use ua_test_shared::vectors::{ACKNOWLEDGE, CALLS, OPEN_REQUEST, OPEN_RESPONSE, REPLIES};
use ua_value::UaString;

/// 2026-01-01 00:00 UTC in ticks of 100 ns since 1601, from 1970, and the same in seconds since 1970.
const START: i64 = 134_116_992_000_000_000;

const START_SECONDS: u64 = 1_767_225_600;

const UNIX_TICKS: i128 = 116_444_736_000_000_000;

/// The ticks of a second, and of an hour.
const SECOND: i64 = 10_000_000;

const HOUR: i64 = 3600 * SECOND;

/// A clock that gains as much each time that it is asked, and notes what it said.
#[derive(Drop)]
struct NotingClock {
    now: i64,
    step: i64,
    noted: Vec<i64>,
    lost: bool,
}

impl NotingClock {
    fn new(alloc: Global, step: i64) -> NotingClock {
        NotingClock {
            now: START,
            step,
            noted: Vec::new(alloc),
            lost: false,
        }
    }
}

impl Clock for NotingClock {
    ghost answered = { λ c. cond c.lost None (Some c.noted.items) };

    fn now(&mut self) -> i64 {
        self.now = self.now.wrapping_add(self.step);
        if self.noted.push(self.now).is_err() {
            self.lost = true;
        }
        self.now
    }
}

/// Whether these are the moments of so many questions, one behind the other.
fn are_steps(noted: &[i64], step: i64, count: usize) -> bool {
    let mut now = START;
    for &moment in noted {
        now = now.wrapping_add(step);
        if moment != now {
            return false;
        }
    }
    noted.len() == count
}

/// Whether the reads had these moments and lengths.
fn are_cuts(cuts: &[(i64, usize)], noted: &[i64], lens: &[usize]) -> bool {
    for (i, &(now, len)) in cuts.iter().enumerate() {
        if noted.get(i) != Some(&now) || lens.get(i) != Some(&len) {
            return false;
        }
    }
    cuts.len() == lens.len() && noted.len() == lens.len()
}

/// The replies by a clock that gains a second with each read: the channel is opened at the second, servers are found at
/// the third. The open response has its moment in its header and as the `createdAt` of the token (OPC 10000-4, 5.6.2.2).
fn timed_replies(alloc: Global) -> Result<Vec<u8>, AllocError> {
    let second = START.wrapping_add(2 * SECOND).to_le_bytes();
    let third = START.wrapping_add(3 * SECOND).to_le_bytes();
    let replies = joined(alloc, &REPLIES)?;
    let opened = changed(alloc, &replies, 28 + 83, &second)?;
    let created = changed(alloc, &opened, 28 + 119, &second)?;
    changed(alloc, &created, 163 + 28, &third)
}

fn is_timed_reply(alloc: Global, sent: &[u8]) -> bool {
    match timed_replies(alloc) {
        Ok(replies) => replies.as_slice() == sent,
        Err(_) => false,
    }
}

fn moments_are_noted(alloc: Global, settings: &Settings) -> bool {
    let mut link = MemoryLink::new(alloc, &CALLS, 100);
    let mut clock = NotingClock::new(alloc, SECOND);
    let report = serve_connection(alloc, settings, 1, &mut link, &mut clock, TURNS);
    report.end == End::Closed
        && are_steps(&clock.noted, SECOND, 4)
        && are_cuts(&report.cuts, &clock.noted, &[56, 132, 93, 57])
        && is_timed_reply(alloc, link.sent())
}

#[test]
fn each_read_has_the_moment_of_its_turn(rt: HostRuntime) {
    assert!(rt; by_default(rt.alloc(), moments_are_noted));
}

/// How a connection ends whose clock gains as much with each read, and how many bytes it writes.
fn ends_at(alloc: Global, settings: &Settings, step: i64) -> (End, u128) {
    let mut link = MemoryLink::new(alloc, &CALLS, 100);
    let mut clock = NotingClock::new(alloc, step);
    let report = serve_connection(alloc, settings, 1, &mut link, &mut clock, TURNS);
    (report.end, report.written)
}

/// A token of an hour lives an hour and a quarter from the read that brought the open request: the request one read
/// later finds it dead then, and the close two reads later sooner.
fn lives_by_the_clock(alloc: Global, settings: &Settings) -> bool {
    let life = HOUR + HOUR / 4;
    let unknown = End::Refused(0x8087_0000);
    ends_at(alloc, settings, life) == (unknown, 179)
        && ends_at(alloc, settings, life - 1) == (unknown, 313)
        && ends_at(alloc, settings, life / 2) == (unknown, 313)
        && ends_at(alloc, settings, life / 2 - 1) == (End::Closed, 297)
}

#[test]
fn a_token_lives_by_the_clock_of_the_reads(rt: HostRuntime) {
    assert!(rt; by_default(rt.alloc(), lives_by_the_clock));
}

/// A turn that takes the Hello.
fn has_its_moment(alloc: Global, server: &mut Server) -> bool
    requires { server.old.failed ≡ false }
{
    let mut link = MemoryLink::new(alloc, &CALLS, 1000);
    let mut clock = NotingClock::new(alloc, SECOND);
    let first = pump(alloc, server, &mut link, &mut clock);
    first.cut == Some((START + SECOND, 56)) && are_steps(&clock.noted, SECOND, 1)
}

fn takes_the_hello(alloc: Global, settings: &Settings) -> bool {
    match Server::new(alloc, settings, 1) {
        Ok(mut server) => has_its_moment(alloc, &mut server),
        Err(_) => false,
    }
}

#[test]
fn a_turn_has_its_moment(rt: HostRuntime) {
    assert!(rt; by_default(rt.alloc(), takes_the_hello));
}

const CONFIG: ClientConfig = ClientConfig {
    buffer: 65535,
    max_message: 0x10_0000,
    max_chunks: 64,
    lifetime: 0,
};

/// The open request, which follows the Acknowledge, has the moment of the read that brought it.
fn is_timed_request(alloc: Global, sent: &[u8]) -> bool {
    match changed(
        alloc,
        OPEN_REQUEST,
        85,
        &START.wrapping_add(SECOND).to_le_bytes(),
    ) {
        Ok(request) => sent == request.as_slice(),
        Err(_) => false,
    }
}

fn is_answers(turn: ClientTurn) -> bool {
    match &turn {
        ClientTurn::Answers(_) => true,
        _ => false,
    }
}

/// The channel is opened at the second moment, and its token of an hour is due three quarters of an hour later.
fn is_opened_by_the_clock(alloc: Global, client: &mut Client) -> bool {
    let mut link = MemoryLink::new(alloc, &[ACKNOWLEDGE, OPEN_RESPONSE], 1000);
    let mut clock = NotingClock::new(alloc, SECOND);
    if !is_answers(pump_client(client, &mut link, &mut clock)) || link.failures() > 0 {
        return false;
    }
    let requested = is_timed_request(alloc, client.output());
    let due = START + 2 * SECOND + HOUR / 4 * 3;
    requested
        && is_answers(pump_client(client, &mut link, &mut clock))
        && are_steps(&clock.noted, SECOND, 2)
        && !client.renew_due(due - 1)
        && client.renew_due(due)
}

fn a_client_is_opened(alloc: Global) -> bool {
    let Ok(url) = UaString::new(alloc, "opc.tcp://localhost:4840") else {
        return false;
    };
    let client = Client::new(alloc, CONFIG, &url, 1).ok();
    passes(client, |client| is_opened_by_the_clock(alloc, client))
}

#[test]
fn a_client_has_the_moment_of_its_turn(rt: HostRuntime) {
    assert!(rt; a_client_is_opened(rt.alloc()));
}

/// A machine whose clock gives this time since 1970, or fails.
#[derive(Clone, Copy)]
struct Machine(Option<Duration>);

impl Machine {
    fn time(&self) -> io::Result<Duration> {
        match self.0 {
            Some(time) => Ok(time),
            None => Err(io::Error::from(io::ErrorKind::Other)),
        }
    }
}

impl HostClock for Machine {
    fn monotonic(&self) -> io::Result<Duration> {
        Err(io::Error::from(io::ErrorKind::Other))
    }

    fn since_1970(&self) -> io::Result<Duration> {
        self.time()
    }
}

fn moment_of(time: Option<Duration>) -> i64 {
    let machine = Machine(time);
    MachineClock::new(&machine).now()
}

/// The greatest moment is 9223372036854775807, which is less than 922337203686 seconds after 1601, and 1970 began
/// 11644473600 seconds after it.
#[test]
fn a_machine_counts_from_1970(rt: HostRuntime) {
    let last = Duration::from_secs(922_337_203_685 - 11_644_473_600);
    let behind = Duration::from_secs(922_337_203_686 - 11_644_473_600);
    for (time, moment) in [
        (Duration::ZERO, 116_444_736_000_000_000),
        (Duration::from_nanos(99), 116_444_736_000_000_000),
        (Duration::from_nanos(100), 116_444_736_000_000_001),
        (Duration::from_secs(START_SECONDS), START),
        (last, 9_223_372_036_850_000_000),
        (behind, 0),
    ] {
        assert_eq!(rt; moment_of(Some(time)), moment);
    }
    assert_eq!(rt; moment_of(Some(Duration::from_secs(u64::MAX / 2))), 0);
    assert_eq!(rt; moment_of(None), 0);
}

/// A machine whose steady clock gives these times in turn, and then the last one; or fails there.
#[derive(Drop)]
struct Ticking {
    times: [Option<u64>; 6],
    next: Cell<usize>,
}

impl HostClock for Ticking {
    fn monotonic(&self) -> io::Result<Duration> {
        let place = self.next.get().min(5);
        self.next.set(place.saturating_add(1));
        match self.times[place] {
            Some(time) => Ok(Duration::from_nanos(time)),
            None => Err(io::Error::from(io::ErrorKind::Other)),
        }
    }

    fn since_1970(&self) -> io::Result<Duration> {
        Err(io::Error::from(io::ErrorKind::Other))
    }
}

/// The ticks are counted from the first reading that did not fail; what goes back, and what fails, is the moment before.
#[test]
fn a_steady_clock_never_goes_back(rt: HostRuntime) {
    let machine = Ticking {
        times: [
            None,
            Some(5000),
            Some(5199),
            Some(4000),
            None,
            Some(9_000_000_000_005_000),
        ],
        next: Cell::new(0),
    };
    let mut clock = SteadyClock::new(&machine);
    for moment in [0, 0, 1, 1, 1, 90_000_000_000_000] {
        assert_eq!(rt; clock.now(), moment);
    }
}

/// The machine's time, in ticks of 100 ns since 1601.
fn ticks(rt: &HostRuntime) -> Option<i128> {
    match SystemTime::now(rt) {
        Ok(time) => match time.duration_since(UNIX_EPOCH) {
            Ok(past) => Some((past.as_nanos() / 100) as i128 + UNIX_TICKS),
            Err(_) => None,
        },
        Err(_) => None,
    }
}

/// How often the machine's time is read until it moves on: for far longer than any clock stands still.
const READS: u32 = 1_000_000;

/// The machine's time once it is behind this moment, where it comes to that.
fn ticks_behind(rt: &HostRuntime, moment: i128) -> Option<i128> {
    for _ in 0..READS {
        match ticks(rt) {
            Some(now) if now > moment => return Some(now),
            Some(_) => {}
            None => return None,
        }
    }
    None
}

/// Whether two readings lie between three of the machine's time, the second one on behind a tick.
fn reads_between(rt: &HostRuntime) -> bool {
    let mut clock = MachineClock::new(rt);
    let before = ticks(rt);
    let first = clock.now() as i128;
    let between = ticks_behind(rt, first);
    let second = clock.now() as i128;
    let after = ticks(rt);
    match (before, between, after) {
        (Some(before), Some(between), Some(after)) => {
            before <= first && first < between && between <= second && second <= after
        }
        _ => false,
    }
}

/// A machine may be set back meanwhile, but not each time.
fn reads_the_machine(rt: &HostRuntime) -> bool {
    for _ in 0..4 {
        if reads_between(rt) {
            return true;
        }
    }
    false
}

#[test]
fn a_machine_is_read_anew_each_time(rt: HostRuntime) {
    assert!(rt; reads_the_machine(&rt));
}
