//! Clients that wait for a server to open the connection, and servers that send what they must not.

use crate::clients::says;
use crate::hostile::{Fault, fails, fails_at_the_last_byte};
use crate::reverse_clients::{by_greeting, by_waiting};
use std::alloc::Global;
use ua_conn::Client;
use ua_test_shared::pieces::Piece::{Bytes, Changed, Letters};
use ua_test_shared::pieces::{Piece, made};
use ua_test_shared::vectors::{
    ACKNOWLEDGE, CLOSE_REQUEST, FIND_RESPONSE, HELLO, HELLO_TO_URL, OPEN_REQUEST, OPEN_RESPONSE,
    OPENED, REVERSE_HELLO,
};

/// A name, what the server sends, why the client fails at the last byte of that, and what it has said then.
type Refusal = (&'static str, &'static [Piece], Fault, &'static [Piece]);

const OUT_OF_TURN: Fault = Fault::Broken(0x807E_0000);

const UNREADABLE: Fault = Fault::Broken(0x8007_0000);

const TOO_LARGE: Fault = Fault::Broken(0x8080_0000);

const LONG_URL: Fault = Fault::Broken(0x8083_0000);

/// An ERR with a reason.
const ERROR: &[u8] = b"ERRF\x13\0\0\0\0\0\x87\x80\x03\0\0\0why";

const SAID: Fault = Fault::Said(0x8087_0000, Some("why"));

/// Nothing but a ReverseHello or an ERR may come first. A header is judged as soon as its eight bytes are there.
const FIRST: [Refusal; 21] = [
    ("unknown type", &[Bytes(b"HTTP/1.1")], OUT_OF_TURN, &[]),
    ("flag C", &[Bytes(b"RHEC\x2D\0\0\0")], OUT_OF_TURN, &[]),
    (
        "size under a header",
        &[Bytes(b"RHEF\x07\0\0\0")],
        UNREADABLE,
        &[],
    ),
    (
        "size over 8192",
        &[Bytes(b"RHEF\x01\x20\0\0")],
        TOO_LARGE,
        &[],
    ),
    ("an Acknowledge", &[Bytes(ACKNOWLEDGE)], OUT_OF_TURN, &[]),
    ("an OPN", &[Bytes(OPEN_RESPONSE)], OUT_OF_TURN, &[]),
    ("a message", &[Bytes(FIND_RESPONSE)], OUT_OF_TURN, &[]),
    ("a close", &[Bytes(CLOSE_REQUEST)], OUT_OF_TURN, &[]),
    ("a Hello", &[Bytes(HELLO)], OUT_OF_TURN, &[]),
    ("an ERR", &[Bytes(ERROR)], SAID, &[]),
    (
        "layout of an ERR",
        &[Bytes(b"ERRF\x0C\0\0\0\0\0\x7E\x80")],
        UNREADABLE,
        &[],
    ),
    (
        "layout: no texts",
        &[Bytes(b"RHEF\x08\0\0\0")],
        UNREADABLE,
        &[],
    ),
    (
        "layout: one text",
        &[Bytes(b"RHEF\x0C\0\0\0\xFF\xFF\xFF\xFF")],
        UNREADABLE,
        &[],
    ),
    (
        "layout: a byte short",
        &[Bytes(b"RHEF\x2C\0\0\0\x05\0\0\0urn:a\x18\0\0\0opc.tcp://localhost:484")],
        UNREADABLE,
        &[],
    ),
    (
        "layout: a byte left over",
        &[Changed(REVERSE_HELLO, &[(4, b"\x2E")]), Bytes(b"\0")],
        UNREADABLE,
        &[],
    ),
    (
        "layout: a URI of length -2",
        &[Bytes(b"RHEF\x10\0\0\0\xFE\xFF\xFF\xFF\xFF\xFF\xFF\xFF")],
        UNREADABLE,
        &[],
    ),
    (
        "layout: a url of length -2",
        &[Bytes(b"RHEF\x10\0\0\0\xFF\xFF\xFF\xFF\xFE\xFF\xFF\xFF")],
        UNREADABLE,
        &[],
    ),
    (
        "layout: a URI that is no text",
        &[Bytes(b"RHEF\x11\0\0\0\x01\0\0\0\xFF\xFF\xFF\xFF\xFF")],
        UNREADABLE,
        &[],
    ),
    (
        "layout: a url that is no text",
        &[Bytes(b"RHEF\x11\0\0\0\xFF\xFF\xFF\xFF\x01\0\0\0\xFF")],
        UNREADABLE,
        &[],
    ),
    (
        "layout before the length of the url",
        &[
            Bytes(b"RHEF\x11\x10\0\0\xFF\xFF\xFF\xFF\0\x10\0\0"),
            Letters(4097),
        ],
        UNREADABLE,
        &[],
    ),
    (
        "a url of 4096 bytes",
        &[
            Bytes(b"RHEF\x10\x10\0\0\xFF\xFF\xFF\xFF\0\x10\0\0"),
            Letters(4096),
        ],
        LONG_URL,
        &[],
    ),
];

const NAMED: Piece = Bytes(REVERSE_HELLO);

const GREETED: &[Piece] = &[Bytes(HELLO_TO_URL)];

const ASKED_TO_OPEN: &[Piece] = &[Bytes(HELLO_TO_URL), Bytes(OPEN_REQUEST)];

/// Behind the ReverseHello all is judged as by any other client.
const LATER: [Refusal; 9] = [
    (
        "a second ReverseHello",
        &[NAMED, NAMED],
        OUT_OF_TURN,
        GREETED,
    ),
    (
        "an OPN",
        &[NAMED, Bytes(OPEN_RESPONSE)],
        OUT_OF_TURN,
        GREETED,
    ),
    (
        "a message",
        &[NAMED, Bytes(FIND_RESPONSE)],
        OUT_OF_TURN,
        GREETED,
    ),
    (
        "size over 8192",
        &[NAMED, Bytes(b"ACKF\x01\x20\0\0")],
        TOO_LARGE,
        GREETED,
    ),
    (
        "layout of an Acknowledge",
        &[NAMED, Changed(ACKNOWLEDGE, &[(4, b"\x1D")]), Bytes(b"\0")],
        UNREADABLE,
        GREETED,
    ),
    (
        "an Acknowledge that is not acceptable",
        &[NAMED, Changed(ACKNOWLEDGE, &[(12, b"\0\0\x01")])],
        Fault::Broken(0x8081_0000),
        GREETED,
    ),
    ("an ERR", &[NAMED, Bytes(ERROR)], SAID, GREETED),
    (
        "a ReverseHello behind the Acknowledge",
        &[NAMED, Bytes(ACKNOWLEDGE), NAMED],
        OUT_OF_TURN,
        ASKED_TO_OPEN,
    ),
    (
        "a ReverseHello behind the opening",
        &[NAMED, Bytes(OPENED), NAMED],
        OUT_OF_TURN,
        ASKED_TO_OPEN,
    ),
];

/// Why a client fails, and what it has said then.
type Owed<'a> = (Fault, &'a [u8]);

fn fails_whole(client: &mut Client, stream: &[u8], owed: Owed) -> bool {
    fails(client, 0, stream, owed.0) && says(client, owed.1)
}

fn fails_by_bytes(client: &mut Client, stream: &[u8], owed: Owed) -> bool {
    fails_at_the_last_byte(client, stream, owed.0) && says(client, owed.1)
}

fn breaks(alloc: Global, stream: &[u8], owed: Owed) -> bool {
    by_waiting(alloc, |client| fails_whole(client, stream, owed))
        && by_waiting(alloc, |client| fails_by_bytes(client, stream, owed))
}

fn is_broken(alloc: Global, stream: &[Piece], fault: Fault, said: &[Piece]) -> bool {
    match (made(alloc, b"", stream), made(alloc, b"", said)) {
        (Ok(stream), Ok(said)) => breaks(alloc, stream.as_slice(), (fault, said.as_slice())),
        _ => false,
    }
}

/// The name of the first row that does not hold.
fn not_broken(alloc: Global, rows: &[Refusal]) -> Option<&'static str> {
    for (name, stream, fault, said) in rows {
        if !is_broken(alloc, stream, *fault, said) {
            return Some(*name);
        }
    }
    None
}

#[test]
fn what_is_no_reverse_hello_is_refused_first(rt: HostRuntime) {
    assert_eq!(rt; not_broken(rt.alloc(), &FIRST), None);
}

#[test]
fn one_reverse_hello_is_taken(rt: HostRuntime) {
    assert_eq!(rt; not_broken(rt.alloc(), &LATER), None);
}

/// A client that opened the connection itself takes no ReverseHello, and has said its Hello alone.
fn any_other_takes_none(alloc: Global) -> bool {
    let owed = (OUT_OF_TURN, HELLO_TO_URL);
    by_greeting(alloc, |client| fails_whole(client, REVERSE_HELLO, owed))
        && by_greeting(alloc, |client| fails_by_bytes(client, REVERSE_HELLO, owed))
}

#[test]
fn a_client_that_greeted_takes_no_reverse_hello(rt: HostRuntime) {
    assert!(rt; any_other_takes_none(rt.alloc()));
}
