//! The moments in what `ask` says: each is what its clock said when it was asked for it.

use std::alloc::Global;
use ua_command::{Question, Why, ask_over};
use ua_link::{Clock, MemoryLink};
use ua_test_runs::pages::Page;
use ua_test_runs::vectors::{ACKNOWLEDGE, FIND_RESPONSE, OPEN_RESPONSE};

/// 2026-01-01 00:00 UTC in ticks of 100 ns since 1601, and the ticks of a second.
const START: i64 = 134_116_992_000_000_000;

const SECOND: i64 = 10_000_000;

/// A clock that gains a second each time that it is asked.
#[derive(Clone, Copy)]
struct SteppingClock(i64);

impl Clock for SteppingClock {
    fn now(&mut self) -> i64 {
        self.0 = self.0.wrapping_add(SECOND);
        self.0
    }
}

/// Where the open request, the question and the close request have their moments, each in its request header behind a
/// null token (OPC 10000-4, 7.33), and by which reading of the clock each is said: one stands behind each read, and one
/// before each command of the client's, of which the first is refused, as the channel is not open yet.
const MOMENTS: [(usize, i64); 3] = [(56 + 85, 1), (188 + 30, 4), (281 + 30, 6)];

/// Whether the bytes have this moment there.
fn has_moment(bytes: &[u8], at: usize, moment: i64) -> bool {
    match bytes.get(at..) {
        Some(rest) => rest.starts_with(moment.to_le_bytes().as_slice()),
        None => false,
    }
}

fn says_its_moments(alloc: Global) -> bool {
    let pieces = [ACKNOWLEDGE, OPEN_RESPONSE, FIND_RESPONSE];
    let mut link = MemoryLink::new(alloc, &pieces, 100);
    let mut clock = SteppingClock(START);
    let mut printed = Page::new(4096);
    let mut told = Page::new(4096);
    let status = ask_over(
        alloc,
        &mut link,
        &mut clock,
        Question::Find,
        Some("opc.tcp://localhost:4840"),
        &mut printed,
        &mut told,
        &mut Why::Unknown,
    );
    let mut same = status == 0 && link.sent().len() == 338;
    for (at, reading) in MOMENTS {
        same &= has_moment(link.sent(), at, START.wrapping_add(reading * SECOND));
    }
    same && clock.0 == START + 6 * SECOND
}

#[test]
fn a_question_has_the_moments_of_its_clock(rt: HostRuntime) {
    assert!(rt; says_its_moments(rt.alloc()));
}
