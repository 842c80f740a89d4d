//! Conversations in which the server opens the connection.

use crate::telling::{Act, CONFIG, DOWN, Told, UP, is_told, steps_of};
use std::alloc::Global;
use ua_conn::{ReverseFault, Setup, Step, Story, can_open, converse};
use ua_disco::{DEFAULT, Settings};
use ua_test_lent::{by_default, by_settings};
use ua_test_shared::bytes::joined;
use ua_test_shared::lending::{judged, passes};
use ua_test_shared::vectors::{
    ACKNOWLEDGE, FIND_BODY, FIND_REQUEST, FIND_RESPONSE, HELLO_TO_URL, OPEN_REQUEST, OPEN_RESPONSE,
    REVERSE_HELLO,
};
use ua_value::{UaString, ValueFault};

/// What is told of these steps, where the server opens the connection, and the client was given this url, of which
/// nothing comes; none where the server can't, or memory ran out.
fn story_with(alloc: Global, settings: &Settings, url: &UaString, steps: &[Step]) -> Option<Story> {
    let Ok(()) = can_open(settings) else {
        return None;
    };
    let setup = Setup {
        settings,
        channel_id: 1,
        config: CONFIG,
        url,
        first_sequence: 1,
        reverse: true,
        start: 0,
    };
    converse(alloc, &setup, steps).ok()
}

fn story_of(alloc: Global, settings: &Settings, steps: &[Step]) -> Option<Story> {
    story_with(alloc, settings, &UaString::null(), steps)
}

/// Whether just that is told of these steps.
fn tells(alloc: Global, settings: &Settings, acts: &[Act], told: Told) -> Option<bool> {
    judged(steps_of(alloc, acts), |steps| {
        let story = story_of(alloc, settings, steps.as_slice());
        judged(story, |story| Some(is_told(story, told)))
    })
}

/// The same, with what each end says as frames, and whether the request is answered.
fn frames_told(
    alloc: Global,
    settings: &Settings,
    acts: &[Act],
    up: &[&[u8]],
    down: &[&[u8]],
    answered: bool,
) -> Option<bool> {
    let answers: &[(u32, Option<u32>)] = if answered { &[(2, None)] } else { &[] };
    let (Ok(up), Ok(down)) = (joined(alloc, up), joined(alloc, down)) else {
        return None;
    };
    let told = Told {
        up: up.as_slice(),
        down: down.as_slice(),
        answers,
    };
    tells(alloc, settings, acts, told)
}

/// The same where memory is there.
fn tells_frames(
    alloc: Global,
    settings: &Settings,
    acts: &[Act],
    up: &[&[u8]],
    down: &[&[u8]],
    answered: bool,
) -> bool {
    frames_told(alloc, settings, acts, up, down, answered).unwrap_or(false)
}

/// The ReverseHello comes in two pieces: before the second one the client says nothing, whatever is delivered or told.
fn nothing_is_said_before(alloc: Global, settings: &Settings) -> bool {
    let early = [Act::Down(44), UP, Act::Ask(FIND_BODY, 69), Act::Renew, UP];
    let whole = [Act::Down(44), UP, Act::Down(1)];
    tells_frames(alloc, settings, &[], &[], &[REVERSE_HELLO], false)
        && tells_frames(alloc, settings, &early, &[], &[REVERSE_HELLO], false)
        && tells_frames(
            alloc,
            settings,
            &whole,
            &[HELLO_TO_URL],
            &[REVERSE_HELLO],
            false,
        )
        && tells_frames(
            alloc,
            settings,
            &[Act::Down(45)],
            &[HELLO_TO_URL],
            &[REVERSE_HELLO],
            false,
        )
}

#[test]
fn a_client_that_is_called_waits_for_the_whole_reverse_hello(rt: HostRuntime) {
    assert!(rt; by_default(rt.alloc(), nothing_is_said_before));
}

/// Each frame by its length.
const BY_FRAMES: [Act; 8] = [
    Act::Down(45),
    Act::Up(56),
    Act::Down(28),
    Act::Up(132),
    Act::Down(135),
    Act::Ask(FIND_BODY, 69),
    Act::Up(93),
    Act::Down(134),
];

/// All that there is, both ways.
const ALL_AT_ONCE: [Act; 8] = [DOWN, UP, DOWN, UP, DOWN, Act::Ask(FIND_BODY, 69), UP, DOWN];

const SENT: [&[u8]; 3] = [HELLO_TO_URL, OPEN_REQUEST, FIND_REQUEST];

const REPLIED: [&[u8]; 4] = [REVERSE_HELLO, ACKNOWLEDGE, OPEN_RESPONSE, FIND_RESPONSE];

fn a_request_is_answered(alloc: Global, settings: &Settings) -> bool {
    tells_frames(alloc, settings, &BY_FRAMES, &SENT, &REPLIED, true)
        && tells_frames(alloc, settings, &ALL_AT_ONCE, &SENT, &REPLIED, true)
}

#[test]
fn a_server_and_the_client_that_it_calls_converse(rt: HostRuntime) {
    assert!(rt; by_default(rt.alloc(), a_request_is_answered));
}

/// A url longer than a Hello may name.
fn long_url(alloc: Global) -> Result<UaString, ValueFault> {
    let mut url = String::new(alloc);
    for _ in 0..4096 {
        url.push_str("u")?;
    }
    UaString::from_string(url)
}

/// What is told of these steps, where the client was given such a url.
fn story_of_any_url(alloc: Global, settings: &Settings, steps: &[Step]) -> Option<Story> {
    judged(
        long_url(alloc).ok(),
        |url| story_with(alloc, settings, url, steps),
    )
}

fn story_by_frames(alloc: Global, settings: &Settings) -> Option<Story> {
    judged(
        steps_of(alloc, &BY_FRAMES),
        |steps| story_of_any_url(alloc, settings, steps.as_slice()),
    )
}

fn tells_of_any_url(story: &Story, up: &[u8], down: &[u8]) -> bool {
    is_told(
        story,
        Told {
            up,
            down,
            answers: &[(2, None)],
        },
    )
}

fn any_url_is_given(alloc: Global, settings: &Settings) -> bool {
    let (Ok(up), Ok(down)) = (joined(alloc, &SENT), joined(alloc, &REPLIED)) else {
        return false;
    };
    passes(
        story_by_frames(alloc, settings),
        |story| tells_of_any_url(story, up.as_slice(), down.as_slice()),
    )
}

#[test]
fn a_client_that_is_called_is_given_any_url(rt: HostRuntime) {
    assert!(rt; by_default(rt.alloc(), any_url_is_given));
}

/// Whether all is told, or `None` where memory ran out.
fn converses(alloc: Global) -> Option<bool> {
    let settings = Settings::from_toml(alloc, DEFAULT.as_bytes()).ok();
    judged(settings, |settings| {
        frames_told(alloc, settings, &BY_FRAMES, &SENT, &REPLIED, true)
    })
}

#[test]
fn a_server_and_the_client_that_it_calls_or_no_memory(rt: HostRuntime) {
    assert!(rt; converses(rt.alloc()) != Some(false));
}

const NO_ENDPOINT: &str = "version = 1\n[application]\nuri = \"u\"\nnames = [{ text = \"n\" }]\n";

fn has_no_endpoint(_alloc: Global, settings: &Settings) -> bool {
    can_open(settings) == Err(ReverseFault::NoEndpoint)
}

fn opens(_alloc: Global, settings: &Settings) -> bool {
    can_open(settings) == Ok(())
}

#[test]
fn settings_say_whether_a_server_can_open_a_connection(rt: HostRuntime) {
    assert!(rt; by_default(rt.alloc(), opens));
    assert!(rt; by_settings(rt.alloc(), NO_ENDPOINT, has_no_endpoint));
}
