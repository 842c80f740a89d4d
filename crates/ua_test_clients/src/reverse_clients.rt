//! Clients that wait for a server to open the connection: what they take first, when they greet, and that all else is said as by any other client.

use crate::clients::{CONFIG, GREETING, brings, has_ended, is_asked, is_refused, says};
use crate::hostile::goes_on;
use std::alloc::Global;
use ua_conn::{AskFault, Client, ClientFault};
use ua_test_shared::lending::{judged, passes};
use ua_test_shared::pieces::Piece::{Bytes, Changed, Letters};
use ua_test_shared::pieces::{Piece, made};
use ua_test_shared::vectors::{
    ACKNOWLEDGE, CLOSE_REQUEST, FIND_REQUEST, FIND_RESPONSE, HELLO_TO_URL, OPEN_REQUEST,
    OPEN_RESPONSE, RENEW_REQUEST, RENEW_RESPONSE, REVERSE_HELLO,
};
use ua_value::UaString;

fn waits(alloc: Global) -> Option<Client> {
    Client::new_reverse(alloc, CONFIG, 1).ok()
}

/// A client that opens the connection itself, and greets the same url at once.
fn greets_at_once(alloc: Global) -> Option<Client> {
    let Ok(url) = UaString::new(alloc, "opc.tcp://localhost:4840") else {
        return None;
    };
    Client::new(alloc, CONFIG, &url, 1).ok()
}

/// Whether a client that waits passes the test.
pub(crate) fn by_waiting<F: FnOnce(&mut Client) -> bool + Drop>(alloc: Global, test: F) -> bool
    requires { F.IsAlwaysCallable test }
{
    passes(waits(alloc), |client| test(client))
}

/// Whether one that greets at once does.
pub(crate) fn by_greeting<F: FnOnce(&mut Client) -> bool + Drop>(alloc: Global, test: F) -> bool
    requires { F.IsAlwaysCallable test }
{
    passes(greets_at_once(alloc), |client| test(client))
}

/// Whether nothing is said before the second piece, and the Hello then.
fn greets_behind(client: &mut Client, first: &[u8], second: &[u8]) -> bool {
    client.output().is_empty()
        && goes_on(client, 0, first)
        && client.output().is_empty()
        && goes_on(client, 0, second)
        && says(client, HELLO_TO_URL)
}

fn greets_cut_at(alloc: Global, at: usize) -> bool {
    match (REVERSE_HELLO.get(..at), REVERSE_HELLO.get(at..)) {
        (Some(first), Some(second)) => {
            by_waiting(alloc, |client| greets_behind(client, first, second))
        }
        _ => false,
    }
}

fn greets_however_cut(alloc: Global) -> bool {
    let mut all = REVERSE_HELLO.len() == 45;
    for at in 0..45 {
        all &= greets_cut_at(alloc, at);
    }
    all
}

fn any_other_says_it_at_once(alloc: Global) -> bool {
    by_greeting(alloc, |client| says(client, HELLO_TO_URL))
}

#[test]
fn a_client_that_waits_greets_behind_the_reverse_hello(rt: HostRuntime) {
    assert!(rt; greets_however_cut(rt.alloc()));
    assert!(rt; any_other_says_it_at_once(rt.alloc()));
}

/// A name, what a server says first, and the Hello to that.
type Greeting = (&'static str, &'static [Piece], &'static [Piece]);

const URL: Piece = Bytes(b"\x18\0\0\0opc.tcp://localhost:4840");

/// What stands before a url of 4095 bytes.
const LONG_NAMED: Piece = Bytes(b"RHEF\x0F\x10\0\0\xFF\xFF\xFF\xFF\xFF\x0F\0\0");

const LONG_GREETED: Piece = Bytes(
    b"HELF\x1F\x10\0\0\0\0\0\0\xFF\xFF\0\0\xFF\xFF\0\0\0\0\x10\0\x40\0\0\0\xFF\x0F\0\0",
);

/// The URI of the server is not looked at. A frame of 8192 bytes is the longest.
const GREETINGS: [Greeting; 9] = [
    (
        "a URI and a url",
        &[Bytes(REVERSE_HELLO)],
        &[Bytes(HELLO_TO_URL)],
    ),
    (
        "no URI",
        &[Bytes(b"RHEF\x28\0\0\0\xFF\xFF\xFF\xFF"), URL],
        &[Bytes(HELLO_TO_URL)],
    ),
    (
        "an empty URI",
        &[Bytes(b"RHEF\x28\0\0\0\0\0\0\0"), URL],
        &[Bytes(HELLO_TO_URL)],
    ),
    (
        "what is no URI",
        &[Bytes(b"RHEF\x2D\0\0\0\x05\0\0\0 \0\xE6\xB0\xB4"), URL],
        &[Bytes(HELLO_TO_URL)],
    ),
    (
        "a URI of 8152 bytes",
        &[Bytes(b"RHEF\0\x20\0\0\xD8\x1F\0\0"), Letters(8152), URL],
        &[Bytes(HELLO_TO_URL)],
    ),
    (
        "no url",
        &[Bytes(b"RHEF\x15\0\0\0\x05\0\0\0urn:a\xFF\xFF\xFF\xFF")],
        &[Bytes(GREETING)],
    ),
    (
        "neither",
        &[Bytes(b"RHEF\x10\0\0\0\xFF\xFF\xFF\xFF\xFF\xFF\xFF\xFF")],
        &[Bytes(GREETING)],
    ),
    (
        "an empty url",
        &[Bytes(b"RHEF\x15\0\0\0\x05\0\0\0urn:a\0\0\0\0")],
        &[Changed(GREETING, &[(28, b"\0\0\0\0")])],
    ),
    (
        "a url of 4095 bytes",
        &[LONG_NAMED, Letters(4095)],
        &[LONG_GREETED, Letters(4095)],
    ),
];

fn greets_whole(client: &mut Client, frame: &[u8], hello: &[u8]) -> bool {
    goes_on(client, 0, frame) && says(client, hello)
}

/// Whether nothing is said before the last byte, and the Hello then.
fn greets_by_bytes(client: &mut Client, frame: &[u8], hello: &[u8]) -> bool {
    let Some((last, front)) = frame.split_last() else {
        return false;
    };
    let mut silent = client.output().is_empty();
    for byte in front {
        silent &= goes_on(client, 0, &[*byte]);
        silent &= client.output().is_empty();
    }
    silent && goes_on(client, 0, &[*last]) && says(client, hello)
}

fn greets(alloc: Global, frame: &[u8], hello: &[u8]) -> bool {
    by_waiting(alloc, |client| greets_whole(client, frame, hello))
        && by_waiting(alloc, |client| greets_by_bytes(client, frame, hello))
}

fn is_greeted(alloc: Global, frame: &[Piece], hello: &[Piece]) -> bool {
    match (made(alloc, b"", frame), made(alloc, b"", hello)) {
        (Ok(frame), Ok(hello)) => greets(alloc, frame.as_slice(), hello.as_slice()),
        _ => false,
    }
}

/// The name of the first row that does not hold.
fn not_greeted(alloc: Global, rows: &[Greeting]) -> Option<&'static str> {
    for (name, frame, hello) in rows {
        if !is_greeted(alloc, frame, hello) {
            return Some(*name);
        }
    }
    None
}

#[test]
fn a_client_names_the_url_that_it_was_told(rt: HostRuntime) {
    assert_eq!(rt; not_greeted(rt.alloc(), &GREETINGS), None);
}

/// A renewal behind one request and its answer, the answer to it, and a close behind that.
const RENEWAL: Piece = Changed(RENEW_REQUEST, &[(71, b"\x03\0\0\0\x03"), (93, b"\x03")]);

const RENEWED: Piece = Changed(RENEW_RESPONSE, &[(71, b"\x03\0\0\0\x03"), (91, b"\x03")]);

const CLOSING: Piece = Changed(
    CLOSE_REQUEST,
    &[(12, b"\x02"), (16, b"\x04\0\0\0\x04"), (38, b"\x04")],
);

fn says_piece(alloc: Global, client: &mut Client, piece: Piece) -> bool {
    match made(alloc, b"", &[piece]) {
        Ok(bytes) => says(client, bytes.as_slice()),
        Err(_) => false,
    }
}

fn takes_piece(alloc: Global, client: &mut Client, piece: Piece) -> bool {
    match made(alloc, b"", &[piece]) {
        Ok(bytes) => brings(client, bytes.as_slice(), &[], None),
        Err(_) => false,
    }
}

/// A connection from its Hello on: a channel is opened, a request answered, the token renewed, and the channel closed.
fn converses(alloc: Global, client: &mut Client) -> bool {
    says(client, HELLO_TO_URL)
        && brings(client, ACKNOWLEDGE, &[], None)
        && says(client, OPEN_REQUEST)
        && brings(client, OPEN_RESPONSE, &[], None)
        && is_asked(alloc, client, 69, 2)
        && says(client, FIND_REQUEST)
        && brings(client, FIND_RESPONSE, &[2], None)
        && client.renew(0).is_ok()
        && says_piece(alloc, client, RENEWAL)
        && takes_piece(alloc, client, RENEWED)
        && client.close(0).is_ok()
        && says_piece(alloc, client, CLOSING)
}

fn converses_behind(alloc: Global, client: &mut Client) -> bool {
    brings(client, REVERSE_HELLO, &[], None) && converses(alloc, client)
}

/// Whether a client that waited and one that did not say the same bytes, each at its time.
fn both_converse(alloc: Global) -> bool {
    by_waiting(alloc, |client| converses_behind(alloc, client))
        && by_greeting(alloc, |client| converses(alloc, client))
}

#[test]
fn behind_the_reverse_hello_all_is_said_as_by_any_client(rt: HostRuntime) {
    assert!(rt; both_converse(rt.alloc()));
}

/// Whether no command is taken, since the channel is not open.
fn is_not_open(alloc: Global, client: &mut Client) -> bool {
    is_refused(alloc, client, 69, AskFault::NotOpen)
        && client.renew(0) == Err(AskFault::NotOpen)
        && client.close(0) == Err(AskFault::NotOpen)
        && client.pending(0).is_none()
        && client.renew_due(i64::MAX) == false
}

fn opens_in_the_end(alloc: Global, client: &mut Client) -> bool {
    is_not_open(alloc, client)
        && says(client, b"")
        && goes_on(client, 0, REVERSE_HELLO)
        && is_not_open(alloc, client)
        && says(client, HELLO_TO_URL)
        && goes_on(client, 0, ACKNOWLEDGE)
        && is_not_open(alloc, client)
        && says(client, OPEN_REQUEST)
        && goes_on(client, 0, OPEN_RESPONSE)
        && is_asked(alloc, client, 69, 2)
}

fn commands_wait(alloc: Global) -> bool {
    by_waiting(alloc, |client| opens_in_the_end(alloc, client))
}

#[test]
fn commands_wait_until_the_channel_is_open(rt: HostRuntime) {
    assert!(rt; commands_wait(rt.alloc()));
}

fn is_no_memory(fault: &ClientFault) -> bool {
    match fault {
        ClientFault::NoMemory => true,
        _ => false,
    }
}

/// Whether memory ran out at the frame, and nothing else was amiss; `None` where it was taken.
fn runs_out(client: &mut Client, frame: &[u8]) -> Option<bool> {
    let fault = client.feed(0, frame).err();
    judged(fault, |fault| Some(is_no_memory(fault)))
}

/// Whether the frame is taken and just this is said then; `None` where memory ran out, nothing is said and no more is taken.
fn answers_or_none(client: &mut Client, frame: &[u8], said: &[u8]) -> Option<bool> {
    match runs_out(client, frame) {
        None => Some(says(client, said)),
        Some(ran_out) => {
            if ran_out && client.output().is_empty() && has_ended(client) {
                None
            } else {
                Some(false)
            }
        }
    }
}

fn greets_and_opens(client: &mut Client) -> Option<bool> {
    match answers_or_none(client, REVERSE_HELLO, HELLO_TO_URL) {
        Some(true) => answers_or_none(client, ACKNOWLEDGE, OPEN_REQUEST),
        other => other,
    }
}

/// Whether a client that waits greets and asks for a channel; `None` where memory ran out.
fn waits_and_opens(alloc: Global) -> Option<bool> {
    judged(waits(alloc), |client| greets_and_opens(client))
}

#[test]
fn a_client_that_waits_has_ample_memory(rt: HostRuntime) {
    assert!(rt; waits_and_opens(rt.alloc()) == Some(true));
}

#[test]
fn a_client_that_waits_or_no_memory(rt: HostRuntime) {
    assert!(rt; waits_and_opens(rt.alloc()) != Some(false));
}
