//! A client, byte for byte: it opens a channel, asks, is answered, and refuses what a server must not send.

use std::alloc::Global;
use ua_conn::{
    Answer, AnswerResult, AskFault, Client, ClientConfig, ClientFault, Setup, Step, Story, converse,
};
use ua_disco::Settings;
use ua_service::{Request, read_request};
use ua_test_lent::by_default;
use ua_test_shared::bytes::{changed, joined};
use ua_test_shared::lending::passes;
use ua_test_shared::vectors::{
    ABORT_TOO_LARGE, ACKNOWLEDGE, FIND_BODY, FIND_REQUEST, FIND_RESPONSE, OPEN_REQUEST,
    OPEN_RESPONSE, RENEW_REQUEST, RENEW_RESPONSE,
};
use ua_value::UaString;

pub(crate) const CONFIG: ClientConfig = ClientConfig {
    buffer: 65535,
    max_message: 1_048_576,
    max_chunks: 64,
    lifetime: 0,
};

/// A Hello with these limits and no url.
pub(crate) const GREETING: &[u8] =
    b"HELF\x20\0\0\0\0\0\0\0\xFF\xFF\0\0\xFF\xFF\0\0\0\0\x10\0\x40\0\0\0\xFF\xFF\xFF\xFF";

/// Whether the client has just this to send, which is sent then.
pub(crate) fn says(client: &mut Client, bytes: &[u8]) -> bool {
    let same = client.output() == bytes;
    let len = client.output().len();
    client.sent(len);
    same && client.output().is_empty()
}

/// Whether the answer has the id, and was aborted with this status, if any.
pub(crate) fn is_answer(answer: &Answer, id: u32, aborted: Option<u32>) -> bool {
    let status = match &answer.result {
        AnswerResult::Response(_) => None,
        AnswerResult::Aborted(status) => Some(*status),
    };
    answer.id == id && status == aborted
}

fn are_answers(answers: &[Answer], ids: &[u32], aborted: Option<u32>) -> bool {
    let mut same = answers.len() == ids.len();
    for (answer, id) in answers.iter().zip(ids) {
        same &= is_answer(answer, *id, aborted);
    }
    same
}

/// Whether the piece brings the answers with these ids, each aborted with this status, if any.
pub(crate) fn brings(client: &mut Client, piece: &[u8], ids: &[u32], aborted: Option<u32>) -> bool {
    passes(client.feed(0, piece).ok(), |answers| {
        are_answers(answers.as_slice(), ids, aborted)
    })
}

fn is_status(fault: &ClientFault, status: u32) -> bool {
    match fault {
        ClientFault::Broken(found) => *found == status,
        _ => false,
    }
}

fn is_end(fault: &ClientFault) -> bool {
    match fault {
        ClientFault::Ended => true,
        _ => false,
    }
}

/// Whether the client takes nothing more.
pub(crate) fn has_ended(client: &mut Client) -> bool {
    passes(client.feed(0, b"").err(), |fault| is_end(fault))
}

/// Whether the piece breaks the client, with this status, and nothing more is taken.
fn breaks(client: &mut Client, piece: &[u8], status: u32) -> bool {
    let fault = client.feed(0, piece).err();
    passes(fault, |fault| is_status(fault, status)) && has_ended(client)
}

/// The id, or why nothing was asked, without the request that is given back.
fn refusal<T: Drop>(asked: Result<u32, (AskFault, T)>) -> Result<u32, AskFault> {
    match asked {
        Ok(id) => Ok(id),
        Err((fault, _)) => Err(fault),
    }
}

/// More bytes than any body has here.
const MOST_BODY: usize = 2_000_000;

/// Asks the request with this body in parts of so many bytes: its id, or why not; none where it could not be made.
pub(crate) fn asks_for(
    alloc: Global,
    client: &mut Client,
    body: &[u8],
    part_limit: u32,
) -> Option<Result<u32, AskFault>> {
    if body.len() > MOST_BODY {
        return None;
    }
    match read_request(alloc, body) {
        Ok(request) => Some(refusal(client.ask(0, request, part_limit))),
        Err(_) => None,
    }
}

/// Asks FindServers.
fn asks(alloc: Global, client: &mut Client, part_limit: u32) -> Option<Result<u32, AskFault>> {
    asks_for(alloc, client, FIND_BODY, part_limit)
}

pub(crate) fn greets(alloc: Global) -> Option<Client> {
    let url = UaString::null();
    Client::new(alloc, CONFIG, &url, 1).ok()
}

/// Whether a client that has greeted passes the test.
pub(crate) fn by_client<F: FnOnce(Global, &mut Client) -> bool + Drop>(
    alloc: Global,
    test: F,
) -> bool
    requires { F.IsAlwaysCallable test }
{
    passes(greets(alloc), |client| test(alloc, client))
}

pub(crate) fn opens(client: &mut Client) -> bool {
    says(client, GREETING)
        && brings(client, ACKNOWLEDGE, &[], None)
        && says(client, OPEN_REQUEST)
        && brings(client, OPEN_RESPONSE, &[], None)
        && says(client, b"")
}

pub(crate) fn is_asked(alloc: Global, client: &mut Client, part_limit: u32, id: u32) -> bool {
    asks(alloc, client, part_limit) == Some(Ok(id))
}

pub(crate) fn is_refused(
    alloc: Global,
    client: &mut Client,
    part_limit: u32,
    fault: AskFault,
) -> bool {
    asks(alloc, client, part_limit) == Some(Err(fault))
}

/// One request: asked, pending, answered, and then none is pending.
fn is_answered(alloc: Global, client: &mut Client) -> bool {
    opens(client)
        && is_asked(alloc, client, 69, 2)
        && says(client, FIND_REQUEST)
        && client.pending(0).is_some()
        && client.pending(1).is_none()
        && brings(client, FIND_RESPONSE, &[2], None)
        && client.pending(0).is_none()
}

#[test]
fn a_client_opens_asks_and_is_answered(rt: HostRuntime) {
    assert!(rt; by_client(rt.alloc(), is_answered));
}

/// Before the channel is open, with a part limit out of range, over the server's chunks, with a request pending.
fn is_refused_in_order(alloc: Global, client: &mut Client) -> bool {
    is_refused(alloc, client, 0, AskFault::NotOpen)
        && opens(client)
        && is_refused(alloc, client, 0, AskFault::BadPartLimit)
        && is_refused(alloc, client, 65512, AskFault::BadPartLimit)
        && is_refused(alloc, client, 1, AskFault::TooLarge)
        && says(client, b"")
        && is_asked(alloc, client, 2, 2)
        && client.close(0) == Err(AskFault::StillPending)
}

#[test]
fn commands_are_refused_by_their_first_reason(rt: HostRuntime) {
    assert!(rt; by_client(rt.alloc(), is_refused_in_order));
}

/// A frame with other bytes in a place.
type Changed = (&'static [u8], usize, &'static [u8]);

const FIRST_ANSWER: Changed = (FIND_RESPONSE, 16, b"\x03");

const LATER_ANSWER: Changed = (FIND_RESPONSE, 20, b"\x03");

const GIVEN_UP: Changed = (ABORT_TOO_LARGE, 16, b"\x04\0\0\0\x04");

/// Whether the frame brings an answer of this id, aborted with this status, if any.
fn brings_changed(
    alloc: Global,
    client: &mut Client,
    frame: Changed,
    id: u32,
    aborted: Option<u32>,
) -> bool {
    let (bytes, at, new) = frame;
    match changed(alloc, bytes, at, new) {
        Ok(piece) => brings(client, piece.as_slice(), &[id], aborted),
        Err(_) => false,
    }
}

/// Two requests at once: the second is answered first, and each under its own id; then one that is given up.
fn keeps_apart(alloc: Global, client: &mut Client) -> bool {
    opens(client)
        && is_asked(alloc, client, 69, 2)
        && is_asked(alloc, client, 69, 3)
        && is_asked(alloc, client, 69, 4)
        && brings_changed(alloc, client, LATER_ANSWER, 3, None)
        && brings_changed(alloc, client, FIRST_ANSWER, 2, None)
        && brings_changed(alloc, client, GIVEN_UP, 4, Some(0x80B9_0000))
        && client.pending(0).is_none()
}

#[test]
fn answers_come_under_their_own_ids(rt: HostRuntime) {
    assert!(rt; by_client(rt.alloc(), keeps_apart));
}

fn renews(_alloc: Global, client: &mut Client) -> bool {
    opens(client)
        && client.renew(0).is_ok()
        && client.renew(0) == Err(AskFault::RenewPending)
        && says(client, RENEW_REQUEST)
        && brings(client, RENEW_RESPONSE, &[], None)
        && client.renew_due(26_999_999_999) == false
        && client.renew_due(27_000_000_000)
        && client.close(0).is_ok()
}

#[test]
fn a_channel_is_renewed_and_closed(rt: HostRuntime) {
    assert!(rt; by_client(rt.alloc(), renews));
}

/// An Acknowledge that takes longer frames than the client has room for.
fn is_broken_at_once(alloc: Global, client: &mut Client) -> bool {
    match changed(alloc, ACKNOWLEDGE, 12, b"\0\0\x01") {
        Ok(too_wide) => breaks(client, too_wide.as_slice(), 0x8081_0000),
        Err(_) => false,
    }
}

/// An answer that nothing asked for.
fn is_broken_open(_alloc: Global, client: &mut Client) -> bool {
    opens(client) && breaks(client, FIND_RESPONSE, 0x8009_0000)
}

#[test]
fn a_server_that_breaks_the_rules_ends_the_client(rt: HostRuntime) {
    assert!(rt; by_client(rt.alloc(), is_broken_at_once));
    assert!(rt; by_client(rt.alloc(), is_broken_open));
}

/// The opening and one request, each frame delivered at once.
fn steps(request: Request) -> [Step; 7] {
    [
        Step::Up(32),
        Step::Down(28),
        Step::Up(132),
        Step::Down(135),
        Step::Ask(request, 69),
        Step::Up(93),
        Step::Down(134),
    ]
}

fn story(alloc: Global, settings: &Settings, request: Request) -> Option<Story> {
    let url = UaString::null();
    let schedule = steps(request);
    let setup = Setup {
        settings,
        channel_id: 1,
        config: CONFIG,
        url: &url,
        first_sequence: 1,
        reverse: false,
        start: 0,
    };
    converse(alloc, &setup, &schedule).ok()
}

/// Whether these are the bytes of the frames.
fn is_joined(alloc: Global, bytes: &[u8], frames: &[&[u8]]) -> bool {
    match joined(alloc, frames) {
        Ok(wanted) => bytes == wanted.as_slice(),
        Err(_) => false,
    }
}

fn is_told(alloc: Global, story: &Story) -> bool {
    let up = [GREETING, OPEN_REQUEST, FIND_REQUEST];
    let down = [ACKNOWLEDGE, OPEN_RESPONSE, FIND_RESPONSE];
    let answered = match story.answers.as_slice() {
        [one] => is_answer(one, 2, None),
        _ => false,
    };
    is_joined(alloc, story.up.as_slice(), &up)
        && is_joined(alloc, story.down.as_slice(), &down)
        && story.asked.len() == 1
        && story.handed.len() == 1
        && answered
        && story.server_end.is_none()
        && story.client_fault.is_none()
}

fn both_ends_converse(alloc: Global, settings: &Settings) -> bool {
    match read_request(alloc, FIND_BODY) {
        Ok(request) => passes(story(alloc, settings, request), |it| is_told(alloc, it)),
        Err(_) => false,
    }
}

#[test]
fn a_client_and_a_server_converse(rt: HostRuntime) {
    assert!(rt; by_default(rt.alloc(), both_ends_converse));
}
