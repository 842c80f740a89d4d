//! Schedules of both ends, drawn by a fixed rule, for which memory is ample.

ghost use Rattle.ua_conn.specs.BothEnds.{IsConfig};

use crate::telling::{Act, OPENING, aborted, put_step, put_steps, story_of};
use std::alloc::Global;
use ua_conn::{Answer, ClientConfig, End, Step, Story};
use ua_disco::Settings;
use ua_test_lent::{by_settings, hundred_endpoints};
use ua_test_shared::lending::kept;
use ua_test_shared::vectors::{ENDPOINTS_BODY, FIND_BODY, OTHER_BODY};

/// How many schedules are drawn for each test, a thousand for all four, and how many steps each has behind the opening.
const SCHEDULES: u32 = 250;

const STEPS: u32 = 60;

/// Clients of the least buffer, for which a large answer has four chunks; the second takes three.
const MANY_CHUNKS: ClientConfig = ClientConfig {
    buffer: 8192,
    max_message: 1_048_576,
    max_chunks: 64,
    lifetime: 0,
};

const FEW_CHUNKS: ClientConfig = ClientConfig {
    buffer: 8192,
    max_message: 1_048_576,
    max_chunks: 3,
    lifetime: 0,
};

/// The state behind this one, of which the low bits are the least mixed.
fn next(state: u32) -> u32 {
    state.wrapping_mul(1_664_525).wrapping_add(1_013_904_223)
}

fn body(n: u32) -> &'static [u8] {
    match n % 12 {
        0 => ENDPOINTS_BODY,
        1..7 => FIND_BODY,
        _ => OTHER_BODY,
    }
}

/// Limits that are refused, that make many parts, and that make one.
fn part_limit(n: u32) -> u32 {
    match n % 6 {
        0 => 0,
        1 => 1,
        2 => 2,
        3 => 8168,
        4 => 8169,
        _ => n % 100,
    }
}

/// A quarter of an hour, or less.
fn ticks(n: u32) -> u64 {
    match n % 4 {
        0 => 9_000_000_000,
        _ => n as u64,
    }
}

fn amount(n: u32) -> usize {
    match n % 4 {
        0 => (n % 50) as usize,
        1 => (n % 10_000) as usize,
        _ => usize::MAX,
    }
}

/// The step of this number.
fn act_of(n: u32) -> Act {
    let rest = n / 16;
    match n % 16 {
        0..4 => Act::Ask(body(rest), part_limit(rest / 12)),
        4 => Act::Renew,
        5 => Act::Tick(ticks(rest)),
        6..11 => Act::Up(amount(rest)),
        15 if rest % 8 == 0 => Act::Close,
        _ => Act::Down(amount(rest)),
    }
}

/// Puts the drawn steps to the others; not all of them where memory ran out.
fn put_drawn(alloc: Global, seed: u32, steps: &mut Vec<Step>) -> bool {
    let mut state = next(seed);
    let mut all = true;
    for _ in 0..STEPS {
        state = next(state);
        all &= put_step(alloc, act_of(state / 256), steps);
    }
    all
}

fn schedule(alloc: Global, seed: u32) -> Option<Vec<Step>> {
    let mut steps = Vec::new(alloc);
    let all = put_steps(alloc, &OPENING, &mut steps) && put_drawn(alloc, seed, &mut steps);
    kept(steps, all)
}

/// What came of the schedules: how many were told, how many answers came and how many of them were aborted, and how many channels were closed.
#[derive(Clone, Copy)]
struct Tally {
    told: u32,
    answers: u32,
    aborted: u32,
    closed: u32,
}

fn count_answers(answers: &[Answer], tally: &mut Tally) {
    for answer in answers {
        tally.answers = tally.answers.saturating_add(1);
        if aborted(answer).is_some() {
            tally.aborted = tally.aborted.saturating_add(1);
        }
    }
}

fn count(story: &Story, tally: &mut Tally) {
    tally.told = tally.told.saturating_add(1);
    if story.server_end == Some(End::Closed) {
        tally.closed = tally.closed.saturating_add(1);
    }
    count_answers(story.answers.as_slice(), tally);
}

/// Counts what is told of these steps; nothing where memory ran out.
fn tell(alloc: Global, settings: &Settings, config: ClientConfig, steps: &[Step], tally: &mut Tally)
    requires { IsConfig config }
{
    if let Some(story) = story_of(alloc, settings, config, steps) {
        count(&story, tally);
    }
}

fn tell_drawn(
    alloc: Global,
    settings: &Settings,
    config: ClientConfig,
    seed: u32,
    tally: &mut Tally,
)
    requires { IsConfig config }
{
    if let Some(steps) = schedule(alloc, seed) {
        tell(alloc, settings, config, steps.as_slice(), tally);
    }
}

/// Tells the schedules from the first one on, half of them of each client.
fn tell_all(alloc: Global, settings: &Settings, first: u32) -> Tally {
    let mut tally = Tally {
        told: 0,
        answers: 0,
        aborted: 0,
        closed: 0,
    };
    for n in 0..SCHEDULES {
        let seed = first.wrapping_add(n);
        if n % 2 == 0 {
            tell_drawn(alloc, settings, MANY_CHUNKS, seed, &mut tally);
        } else {
            tell_drawn(alloc, settings, FEW_CHUNKS, seed, &mut tally);
        }
    }
    tally
}

/// Whether each schedule was told, and among them were closes, aborts and answers that are no aborts.
fn is_ample(tally: Tally) -> bool {
    tally.told == SCHEDULES
        && tally.closed > 0
        && tally.aborted > 0
        && tally.answers > tally.aborted
}

fn are_told(alloc: Global, text: &str, first: u32) -> bool {
    by_settings(
        alloc,
        text,
        |alloc, settings| is_ample(tell_all(alloc, settings, first)),
    )
}

/// Whether memory runs out in none of the schedules from the first one on.
fn is_ample_from(alloc: Global, first: u32) -> bool {
    match hundred_endpoints(alloc) {
        Ok(text) => are_told(alloc, text.as_str(), first),
        Err(_) => false,
    }
}

#[test]
fn ample_for_the_first_quarter(rt: HostRuntime) {
    assert!(rt; is_ample_from(rt.alloc(), 0));
}

#[test]
fn ample_for_the_second_quarter(rt: HostRuntime) {
    assert!(rt; is_ample_from(rt.alloc(), SCHEDULES));
}

#[test]
fn ample_for_the_third_quarter(rt: HostRuntime) {
    assert!(rt; is_ample_from(rt.alloc(), 2 * SCHEDULES));
}

#[test]
fn ample_for_the_last_quarter(rt: HostRuntime) {
    assert!(rt; is_ample_from(rt.alloc(), 3 * SCHEDULES));
}
