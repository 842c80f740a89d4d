//! Schedules of both ends that tables name, and what is told of them.

ghost use Rattle.ua_conn.specs.BothEnds.{IsConfig};

use std::alloc::Global;
use ua_conn::{Answer, AnswerResult, ClientConfig, Setup, Step, Story, converse};
use ua_disco::Settings;
use ua_service::read_request;
use ua_test_shared::lending::{judged, kept};
use ua_test_shared::pieces::{Piece, made};
use ua_value::UaString;

/// Frames of 65535 bytes, messages of 1048576 bytes, 64 chunks, and any lifetime.
pub(crate) const CONFIG: ClientConfig = ClientConfig {
    buffer: 65535,
    max_message: 1_048_576,
    max_chunks: 64,
    lifetime: 0,
};

/// A step whose request is told by its body.
#[derive(Clone, Copy)]
pub(crate) enum Act {
    Ask(&'static [u8], u32),
    Renew,
    Close,
    Tick(u64),
    Up(usize),
    Down(usize),
}

/// All that is on the way comes to the server, and to the client.
pub(crate) const UP: Act = Act::Up(usize::MAX);

pub(crate) const DOWN: Act = Act::Down(usize::MAX);

/// The channel is opened.
pub(crate) const OPENING: [Act; 4] = [UP, DOWN, UP, DOWN];

fn put(step: Step, steps: &mut Vec<Step>) -> bool {
    steps.push(step).is_ok()
}

fn put_ask(alloc: Global, body: &[u8], part_limit: u32, steps: &mut Vec<Step>) -> bool {
    if body.len() > 1000 {
        return false;
    }
    match read_request(alloc, body) {
        Ok(request) => put(Step::Ask(request, part_limit), steps),
        Err(_) => false,
    }
}

pub(crate) fn put_step(alloc: Global, act: Act, steps: &mut Vec<Step>) -> bool {
    match act {
        Act::Ask(body, part_limit) => put_ask(alloc, body, part_limit, steps),
        Act::Renew => put(Step::Renew, steps),
        Act::Close => put(Step::Close, steps),
        Act::Tick(n) => put(Step::Tick(n), steps),
        Act::Up(n) => put(Step::Up(n), steps),
        Act::Down(n) => put(Step::Down(n), steps),
    }
}

/// Puts these steps to the others; not all of them where memory ran out.
pub(crate) fn put_steps(alloc: Global, acts: &[Act], steps: &mut Vec<Step>) -> bool {
    let mut all = true;
    for act in acts {
        all &= put_step(alloc, *act, steps);
    }
    all
}

/// The opening, so many rounds of these steps, and the last ones.
pub(crate) fn rounds_of(
    alloc: Global,
    count: u32,
    round: &[Act],
    last: &[Act],
) -> Option<Vec<Step>> {
    let mut steps = Vec::new(alloc);
    let mut all = put_steps(alloc, &OPENING, &mut steps);
    for _ in 0..count {
        all &= put_steps(alloc, round, &mut steps);
    }
    all &= put_steps(alloc, last, &mut steps);
    kept(steps, all)
}

pub(crate) fn steps_of(alloc: Global, acts: &[Act]) -> Option<Vec<Step>> {
    let mut steps = Vec::new(alloc);
    let all = put_steps(alloc, acts, &mut steps);
    kept(steps, all)
}

/// What is told of these steps, where channel 1 is opened at the moment 0; none where memory ran out.
pub(crate) fn story_of(
    alloc: Global,
    settings: &Settings,
    config: ClientConfig,
    steps: &[Step],
) -> Option<Story>
    requires { IsConfig config }
{
    let Ok(url) = UaString::new(alloc, "opc.tcp://localhost:4840") else {
        return None;
    };
    let setup = Setup {
        settings,
        channel_id: 1,
        config,
        url: &url,
        first_sequence: 1,
        reverse: false,
        start: 0,
    };
    converse(alloc, &setup, steps).ok()
}

/// What both ends say, and the answers: each has its id, and its status where it was aborted.
#[derive(Clone, Copy)]
pub(crate) struct Told<'a> {
    pub(crate) up: &'a [u8],
    pub(crate) down: &'a [u8],
    pub(crate) answers: &'a [(u32, Option<u32>)],
}

/// The status of an answer that was aborted.
pub(crate) fn aborted(answer: &Answer) -> Option<u32> {
    match &answer.result {
        AnswerResult::Response(_) => None,
        AnswerResult::Aborted(status) => Some(*status),
    }
}

fn are_answers(answers: &[Answer], wanted: &[(u32, Option<u32>)]) -> bool {
    let mut all = answers.len() == wanted.len();
    for (answer, (id, status)) in answers.iter().zip(wanted) {
        all &= answer.id == *id && aborted(answer) == *status;
    }
    all
}

/// Whether each of so many requests was asked, handed on and answered, and no end failed or was closed.
pub(crate) fn are_all_answered(story: &Story, count: usize) -> bool {
    story.asked.len() == count
        && story.handed.len() == count
        && story.answers.len() == count
        && story.server_end.is_none()
        && story.client_fault.is_none()
}

pub(crate) fn is_told(story: &Story, told: Told) -> bool {
    story.up.as_slice() == told.up
        && story.down.as_slice() == told.down
        && are_answers(story.answers.as_slice(), told.answers)
        && are_all_answered(story, told.answers.len())
}

fn is_told_of(
    alloc: Global,
    settings: &Settings,
    config: ClientConfig,
    steps: &[Step],
    told: Told,
) -> Option<bool>
    requires { IsConfig config }
{
    let story = story_of(alloc, settings, config, steps);
    judged(story, |story| Some(is_told(story, told)))
}

fn tell(
    alloc: Global,
    settings: &Settings,
    config: ClientConfig,
    acts: &[Act],
    told: Told,
) -> Option<bool>
    requires { IsConfig config }
{
    judged(steps_of(alloc, acts), |steps| {
        is_told_of(alloc, settings, config, steps.as_slice(), told)
    })
}

/// Whether just that is told of a server of these settings and a client of this configuration; none where memory ran out.
pub(crate) fn tells(
    alloc: Global,
    text: &str,
    config: ClientConfig,
    acts: &[Act],
    told: Told,
) -> Option<bool>
    requires { IsConfig config }
{
    let settings = Settings::from_toml(alloc, text.as_bytes()).ok();
    judged(
        settings,
        |settings| tell(alloc, settings, config, acts, told),
    )
}

/// The same with what both ends say in pieces.
pub(crate) fn tells_pieces(
    alloc: Global,
    text: &str,
    config: ClientConfig,
    acts: &[Act],
    said: (&[Piece], &[Piece]),
    answers: &[(u32, Option<u32>)],
) -> Option<bool>
    requires { IsConfig config }
{
    match (made(alloc, b"", said.0), made(alloc, b"", said.1)) {
        (Ok(up), Ok(down)) => {
            let (up, down) = (up.as_slice(), down.as_slice());
            tells(alloc, text, config, acts, Told { up, down, answers })
        }
        _ => None,
    }
}
