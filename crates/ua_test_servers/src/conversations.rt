//! Whole connections of a server, byte for byte.

use crate::rows::Phase::{Acknowledged, Begun, Opened};
use crate::rows::{Phase, answers, is_answered, replied, said, says};
use std::alloc::Global;
use ua_conn::{End, FeedFault, Server};
use ua_disco::Settings;
use ua_test_lent::by_default;
use ua_test_shared::bytes::{chunk, joined};
use ua_test_shared::lending::passes;
use ua_test_shared::pieces::Piece::{Bytes, Changed, EmptyParts, HelloTo};
use ua_test_shared::pieces::{Piece, made};
use ua_test_shared::vectors::{
    ABORT_TOO_LARGE, ACKNOWLEDGE, CLOSE_REQUEST, ENDPOINTS_REQUEST, ENDPOINTS_RESPONSE,
    FAULT_RESPONSE, FIND_BODY, FIND_REQUEST, FIND_RESPONSE, HELLO, OPEN_REQUEST, OPEN_RESPONSE,
    OPENED, OTHER_REQUEST,
};

/// What is answered: a name, how far the connection has come, what is said then, the reply to that, how many requests are handed on, and the end.
type Row = (
    &'static str,
    Phase,
    &'static [Piece],
    &'static [Piece],
    usize,
    End,
);

/// The first part of a FindServers request, the second one, and an abort of them by the client.
const FIRST_PART: Piece = Bytes(b"MSGC\x1A\0\0\0\x01\0\0\0\x01\0\0\0\x02\0\0\0\x02\0\0\0\x01\0");

const SECOND_PART: Piece = Bytes(b"MSGC\x19\0\0\0\x01\0\0\0\x01\0\0\0\x03\0\0\0\x02\0\0\0\xA6");

const GIVEN_UP: Piece = Changed(ABORT_TOO_LARGE, &[(16, b"\x04"), (24, b"\0\0\x80\x80")]);

const ROWS: [Row; 18] = [
    ("hello", Acknowledged, &[], &[], 0, End::InputEnded),
    ("no bytes", Begun, &[], &[], 0, End::InputEnded),
    (
        "receive 8192",
        Begun,
        &[Changed(HELLO, &[(12, b"\0\x20")])],
        &[Changed(ACKNOWLEDGE, &[(16, b"\0\x20")])],
        0,
        End::InputEnded,
    ),
    (
        "url of 4095 bytes",
        Begun,
        &[HelloTo(4095)],
        &[Bytes(ACKNOWLEDGE)],
        0,
        End::InputEnded,
    ),
    (
        "longest frame",
        Acknowledged,
        &[Bytes(b"MSGF\xFF\xFF\0\0")],
        &[],
        0,
        End::Truncated,
    ),
    ("opening", Opened, &[], &[], 0, End::InputEnded),
    (
        "find servers",
        Opened,
        &[Bytes(FIND_REQUEST)],
        &[Bytes(FIND_RESPONSE)],
        1,
        End::InputEnded,
    ),
    (
        "get endpoints",
        Opened,
        &[Bytes(ENDPOINTS_REQUEST)],
        &[Bytes(ENDPOINTS_RESPONSE)],
        1,
        End::InputEnded,
    ),
    (
        "another service",
        Opened,
        &[Bytes(OTHER_REQUEST)],
        &[Bytes(FAULT_RESPONSE)],
        1,
        End::InputEnded,
    ),
    (
        "close",
        Opened,
        &[Bytes(OTHER_REQUEST), Bytes(CLOSE_REQUEST), Bytes(b"GET")],
        &[Bytes(FAULT_RESPONSE)],
        1,
        End::Closed,
    ),
    (
        "close inside a message",
        Opened,
        &[FIRST_PART, Bytes(CLOSE_REQUEST)],
        &[],
        0,
        End::Closed,
    ),
    (
        "aborted message",
        Opened,
        &[
            FIRST_PART,
            SECOND_PART,
            GIVEN_UP,
            Changed(FIND_REQUEST, &[(16, b"\x05\0\0\0\x03")]),
        ],
        &[Changed(FIND_RESPONSE, &[(20, b"\x03")])],
        1,
        End::InputEnded,
    ),
    (
        "64 parts",
        Opened,
        &[EmptyParts(64)],
        &[],
        0,
        End::InputEnded,
    ),
    (
        "answers of 27 bytes",
        Begun,
        &[
            Changed(HELLO, &[(20, b"\x1B")]),
            Bytes(OPEN_REQUEST),
            Bytes(OTHER_REQUEST),
        ],
        &[Bytes(OPENED), Bytes(ABORT_TOO_LARGE)],
        1,
        End::InputEnded,
    ),
    (
        "answers of 28 bytes",
        Begun,
        &[
            Changed(HELLO, &[(20, b"\x1C")]),
            Bytes(OPEN_REQUEST),
            Bytes(OTHER_REQUEST),
        ],
        &[Bytes(OPENED), Bytes(FAULT_RESPONSE)],
        1,
        End::InputEnded,
    ),
    (
        "answers of 109 bytes",
        Begun,
        &[
            Changed(HELLO, &[(20, b"\x6D")]),
            Bytes(OPEN_REQUEST),
            Bytes(FIND_REQUEST),
        ],
        &[Bytes(OPENED), Bytes(ABORT_TOO_LARGE)],
        1,
        End::InputEnded,
    ),
    (
        "answers of 110 bytes",
        Begun,
        &[
            Changed(HELLO, &[(20, b"\x6E")]),
            Bytes(OPEN_REQUEST),
            Bytes(FIND_REQUEST),
        ],
        &[Bytes(OPENED), Bytes(FIND_RESPONSE)],
        1,
        End::InputEnded,
    ),
    (
        "close first",
        Opened,
        &[Changed(CLOSE_REQUEST, &[(16, b"\x02")])],
        &[],
        0,
        End::Closed,
    ),
];

fn holds(
    alloc: Global,
    phase: Phase,
    input: &[Piece],
    reply: &[Piece],
    handed: usize,
    end: End,
) -> bool {
    match (
        made(alloc, said(phase), input),
        made(alloc, replied(phase), reply),
    ) {
        (Ok(input), Ok(reply)) => {
            is_answered(alloc, input.as_slice(), (reply.as_slice(), handed, end))
        }
        _ => false,
    }
}

/// The name of the first row that does not hold.
fn other(alloc: Global, rows: &[Row]) -> Option<&'static str> {
    for (name, phase, input, reply, handed, end) in rows {
        if !holds(alloc, *phase, input, reply, *handed, *end) {
            return Some(*name);
        }
    }
    None
}

#[test]
fn rows_are_answered_in_any_pieces(rt: HostRuntime) {
    assert_eq!(rt; other(rt.alloc(), &ROWS), None);
}

/// How an opening with a find and a close ends that is cut behind so many bytes, and how long the reply is.
fn end_behind(n: usize) -> (usize, End) {
    let len = match n {
        0..56 => 0,
        56..188 => 28,
        188..281 => 163,
        _ => 297,
    };
    let end = match n {
        0 | 56 | 188 | 281 => End::InputEnded,
        338 => End::Closed,
        _ => End::Truncated,
    };
    (len, end)
}

/// Whether what is cut behind so many bytes is answered by a beginning of the reply.
fn is_cut_short(alloc: Global, settings: &Settings, input: &[u8], reply: &[u8], n: usize) -> bool {
    let (len, end) = end_behind(n);
    let handed = if n < 281 { 0 } else { 1 };
    match (input.get(..n), reply.get(..len)) {
        (Some(input), Some(reply)) => {
            answers(alloc, settings, &[(0, input)], (reply, handed, end))
        }
        _ => false,
    }
}

fn are_cut_short(alloc: Global, settings: &Settings, input: &[u8], reply: &[u8]) -> bool {
    let mut all = input.len() == 338 && reply.len() == 297;
    for n in 0..=338 {
        if !is_cut_short(alloc, settings, input, reply, n) {
            all = false;
        }
    }
    all
}

fn cuts_end(alloc: Global, settings: &Settings) -> bool {
    match (
        joined(alloc, &[HELLO, OPEN_REQUEST, FIND_REQUEST, CLOSE_REQUEST]),
        joined(alloc, &[ACKNOWLEDGE, OPEN_RESPONSE, FIND_RESPONSE]),
    ) {
        (Ok(input), Ok(reply)) => {
            are_cut_short(alloc, settings, input.as_slice(), reply.as_slice())
        }
        _ => false,
    }
}

#[test]
fn each_beginning_of_a_connection_has_its_end(rt: HostRuntime) {
    assert!(rt; by_default(rt.alloc(), cuts_end));
}

/// Settings with a name in two languages.
const TWO_NAMES: &str = "version = 1
[application]
uri = \"urn:a\"
product_uri = \"urn:p\"
discovery_urls = [\"opc.tcp://localhost:4840\"]
names = [{ locale = \"en\", text = \"Press\" }, { locale = \"de\", text = \"Presse\" }]
";

/// The locales of a FindServers request: fr, de and en.
const LOCALES: &[u8] = b"\x03\0\0\0\x02\0\0\0fr\x02\0\0\0de\x02\0\0\0en";

const GERMAN: &[u8] = b"\x02\0\0\0de\x06\0\0\0Presse";

/// Whether those settings answer a FindServers request with this body by that one.
fn finds(alloc: Global, body: &[&[u8]], found: &[&[u8]]) -> bool {
    let (Ok(body), Ok(found)) = (joined(alloc, body), joined(alloc, found)) else {
        return false;
    };
    let (Ok(find), Ok(answer)) = (
        chunk(alloc, b"MSGF", [1, 2, 2], body.as_slice()),
        chunk(alloc, b"MSGF", [1, 2, 2], found.as_slice()),
    ) else {
        return false;
    };
    let pieces: [(i64, &[u8]); 3] = [(0, HELLO), (0, OPEN_REQUEST), (0, find.as_slice())];
    match joined(alloc, &[ACKNOWLEDGE, OPEN_RESPONSE, answer.as_slice()]) {
        Ok(reply) => says(
            alloc,
            TWO_NAMES,
            &pieces,
            (reply.as_slice(), 1, End::InputEnded),
        ),
        Err(_) => false,
    }
}

/// The name is in the earliest of the locales that some name has, and without locales it is the first. The request has its locales behind 61 bytes
/// of its body, and the answer the locale and text of the name behind 75 bytes of its frame.
#[test]
fn names_are_in_the_earliest_locale(rt: HostRuntime) {
    let alloc = rt.alloc();
    let asked = [&FIND_BODY[..61], LOCALES, &FIND_BODY[65..]];
    let found = [&FIND_RESPONSE[24..75], GERMAN, &FIND_RESPONSE[90..]];
    assert!(rt; finds(alloc, &asked, &found));
    assert!(rt; finds(alloc, &[FIND_BODY], &[&FIND_RESPONSE[24..]]));
}

/// Whether the piece brings so many requests, and this end; or is refused so.
fn is_fed(
    server: &mut Server,
    piece: &[u8],
    out: &mut Vec<u8>,
    want: Result<(usize, Option<End>), FeedFault>,
) -> bool {
    match server.feed(0, piece, out) {
        Ok(fed) => Ok((fed.requests.len(), fed.end)) == want,
        Err(fault) => Err(fault) == want,
    }
}

/// Whether a server takes an opening and a request, a close, and no more.
fn closes_once(alloc: Global, server: &mut Server, input: &[u8], reply: &[u8]) -> bool {
    let mut out = Vec::new(alloc);
    let closed = Ok((0, Some(End::Closed)));
    is_fed(server, input, &mut out, Ok((1, None)))
        && is_fed(server, CLOSE_REQUEST, &mut out, closed)
        && out.as_slice() == reply
        && is_fed(server, CLOSE_REQUEST, &mut out, Err(FeedFault::Ended))
        && out.as_slice() == reply
}

fn a_server_closes_once(alloc: Global, settings: &Settings, input: &[u8], reply: &[u8]) -> bool {
    let server = Server::new(alloc, settings, 1).ok();
    passes(server, |server| closes_once(alloc, server, input, reply))
}

fn takes_no_more(alloc: Global, settings: &Settings) -> bool {
    match (
        joined(alloc, &[HELLO, OPEN_REQUEST, OTHER_REQUEST]),
        joined(alloc, &[ACKNOWLEDGE, OPEN_RESPONSE, FAULT_RESPONSE]),
    ) {
        (Ok(input), Ok(reply)) => {
            a_server_closes_once(alloc, settings, input.as_slice(), reply.as_slice())
        }
        _ => false,
    }
}

#[test]
fn server_takes_no_more_after_an_end(rt: HostRuntime) {
    assert!(rt; by_default(rt.alloc(), takes_no_more));
}

/// Whether the channel is open from the open request on.
fn opens(alloc: Global, server: &mut Server) -> bool {
    let mut out = Vec::new(alloc);
    let quiet = Ok((0, None));
    !server.is_open()
        && is_fed(server, HELLO, &mut out, quiet)
        && !server.is_open()
        && is_fed(server, OPEN_REQUEST, &mut out, quiet)
        && server.is_open()
        && is_fed(server, OTHER_REQUEST, &mut out, Ok((1, None)))
        && server.is_open()
}

fn a_server_opens(alloc: Global, settings: &Settings) -> bool {
    let server = Server::new(alloc, settings, 1).ok();
    passes(server, |server| opens(alloc, server))
}

#[test]
fn a_channel_is_open_once_it_was_granted(rt: HostRuntime) {
    assert!(rt; by_default(rt.alloc(), a_server_opens));
}
