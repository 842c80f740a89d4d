//! Many requests at once, and many renewals.

use crate::telling::{Act, CONFIG, DOWN, UP, aborted, are_all_answered, rounds_of, story_of};
use std::alloc::{AllocError, Global};
use ua_conn::{Answer, Step, Story};
use ua_disco::{DEFAULT, Settings};
use ua_test_shared::lending::{judged, passes};
use ua_test_shared::pieces::put_changed;
use ua_test_shared::vectors::{FIND_BODY, FIND_RESPONSE, OPENED, RENEW_RESPONSE};

/// How many requests may be pending.
const MOST: u32 = 64;

/// Whether the answers are no aborts, and have ids from the first one on in such steps.
fn are_numbered(answers: &[Answer], first: u32, step: u32) -> bool {
    let mut id = first;
    let mut all = true;
    for answer in answers {
        all &= answer.id == id && aborted(answer).is_none();
        id = id.wrapping_add(step);
    }
    all
}

/// What is told of these steps by the settings by default; none where memory ran out.
fn tale(alloc: Global, steps: &[Step]) -> Option<Story> {
    match Settings::from_toml(alloc, DEFAULT.as_bytes()) {
        Ok(settings) => story_of(alloc, &settings, CONFIG, steps),
        Err(_) => None,
    }
}

fn are_64_answered(alloc: Global, steps: &[Step]) -> bool {
    passes(tale(alloc, steps), |story| {
        are_all_answered(story, MOST as usize) && are_numbered(story.answers.as_slice(), 2, 1)
    })
}

/// One request more is asked than is taken.
fn answers_64(alloc: Global) -> bool {
    let steps = rounds_of(alloc, MOST + 1, &[Act::Ask(FIND_BODY, 69)], &[UP, DOWN]);
    passes(steps, |steps| are_64_answered(alloc, steps.as_slice()))
}

#[test]
fn requests_at_once_are_answered_in_order(rt: HostRuntime) {
    assert!(rt; answers_64(rt.alloc()));
}

const ROUND: [Act; 6] = [Act::Renew, UP, DOWN, Act::Ask(FIND_BODY, 69), UP, DOWN];

/// What the server says in the round of this number, from 1 on: the next token, and an answer under it.
fn put_round(alloc: Global, round: u32, out: &mut Vec<u8>) -> Result<(), AllocError> {
    let token = round.wrapping_add(1).to_le_bytes();
    let renewal = round.wrapping_mul(2).to_le_bytes();
    let answer = round.wrapping_mul(2).wrapping_add(1).to_le_bytes();
    let granted = [
        (71, renewal.as_slice()),
        (75, renewal.as_slice()),
        (91, renewal.as_slice()),
        (115, token.as_slice()),
    ];
    let found = [
        (12, token.as_slice()),
        (16, answer.as_slice()),
        (20, answer.as_slice()),
    ];
    put_changed(alloc, RENEW_RESPONSE, &granted, out)?;
    put_changed(alloc, FIND_RESPONSE, &found, out)
}

fn replies(alloc: Global, count: u32) -> Result<Vec<u8>, AllocError> {
    let mut all = OPENED.to_vec(alloc)?;
    for n in 0..count {
        put_round(alloc, n.wrapping_add(1), &mut all)?;
    }
    Ok(all)
}

/// The answers have the ids 3, 5 and on; none where memory ran out.
fn are_renewed(alloc: Global, count: u32, steps: &[Step], down: &[u8]) -> Option<bool> {
    judged(tale(alloc, steps), |story| {
        Some(
            are_all_answered(story, count as usize)
                && are_numbered(story.answers.as_slice(), 3, 2)
                && story.down.as_slice() == down,
        )
    })
}

/// Whether so many rounds of a renewal and a request are answered; none where memory ran out.
fn rounds_are_answered(alloc: Global, count: u32) -> Option<bool> {
    judged(rounds_of(alloc, count, &ROUND, &[]), |steps| {
        match replies(alloc, count) {
            Ok(down) => are_renewed(alloc, count, steps.as_slice(), down.as_slice()),
            Err(_) => None,
        }
    })
}

#[test]
fn three_hundred_renewals_are_granted(rt: HostRuntime) {
    assert!(rt; rounds_are_answered(rt.alloc(), 300) == Some(true));
}

#[test]
fn three_renewals_or_no_memory(rt: HostRuntime) {
    assert!(rt; rounds_are_answered(rt.alloc(), 3) != Some(false));
}
