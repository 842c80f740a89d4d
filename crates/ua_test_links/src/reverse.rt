//! Servers that open the connection themselves: what they say first, and that all else is said as by any other server.

ghost use Rattle.std.specs.Prelude.{◌<◌};

use crate::links::{Came, FuseLink, NO_FUSE, SEND_LIMIT, StillClock, TURNS, came_of};
use std::alloc::{AllocError, Global};
use ua_conn::{End, Outcome, ReverseFault, Server, answer_all_reverse, reply_all_reverse};
use ua_disco::{DEFAULT, Settings};
use ua_link::{MemoryLink, serve_connection_reverse};
use ua_test_lent::{by_default, by_settings};
use ua_test_shared::bytes::joined;
use ua_test_shared::lending::{judged, passes};
use ua_test_shared::vectors::{
    ACKNOWLEDGE, CALLS, CLOSE_REQUEST, FIND_REQUEST, FIND_RESPONSE, HELLO, OPEN_REQUEST,
    OPEN_RESPONSE, REVERSE_HELLO,
};

/// What a client is answered that makes the calls: 342 bytes.
const REPLIES: [&[u8]; 4] = [REVERSE_HELLO, ACKNOWLEDGE, OPEN_RESPONSE, FIND_RESPONSE];

/// The error behind a frame of another type than the one that is awaited.
const OUT_OF_TURN: &[u8] = b"ERRF\x10\0\0\0\0\0\x7E\x80\xFF\xFF\xFF\xFF";

/// The calls, all at one moment.
const CALLED: [(i64, &[u8]); 4] = [
    (0, HELLO),
    (0, OPEN_REQUEST),
    (0, FIND_REQUEST),
    (0, CLOSE_REQUEST),
];

/// What a server says, how many requests it hands on, and the end.
type Owed<'a> = (&'a [u8], usize, End);

fn is_owed(outcome: &Outcome, owed: Owed) -> bool {
    let (said, handed, end) = owed;
    outcome.reply.as_slice() == said && outcome.handed.len() == handed && outcome.end == end
}

/// Whether that is said where no request is kept.
fn replies(alloc: Global, settings: &Settings, pieces: &[(i64, &[u8])], owed: Owed) -> bool {
    match reply_all_reverse(alloc, settings, 1, pieces) {
        Ok((reply, end)) => reply.as_slice() == owed.0 && end == owed.2,
        Err(_) => false,
    }
}

/// Whether that is said to the pieces, with the requests and without them.
fn answers(alloc: Global, settings: &Settings, pieces: &[(i64, &[u8])], owed: Owed) -> bool {
    let outcome = answer_all_reverse(alloc, settings, 1, pieces).ok();
    passes(outcome, |outcome| is_owed(outcome, owed)) && replies(alloc, settings, pieces, owed)
}

/// The same of frames one after another.
fn says(
    alloc: Global,
    settings: &Settings,
    pieces: &[(i64, &[u8])],
    said: &[&[u8]],
    handed: usize,
    end: End,
) -> bool {
    match joined(alloc, said) {
        Ok(said) => answers(alloc, settings, pieces, (said.as_slice(), handed, end)),
        Err(_) => false,
    }
}

/// Whether the pieces are answered as by any server, behind the ReverseHello.
fn says_it_first(alloc: Global, settings: &Settings) -> bool {
    let refused = End::Refused(0x807E_0000);
    let out_of_turn = [REVERSE_HELLO, OUT_OF_TURN];
    says(alloc, settings, &[], &[REVERSE_HELLO], 0, End::InputEnded)
        && says(
            alloc,
            settings,
            &[(0, HELLO)],
            &[REVERSE_HELLO, ACKNOWLEDGE],
            0,
            End::InputEnded,
        )
        && says(
            alloc,
            settings,
            &[(0, b"HELF")],
            &[REVERSE_HELLO],
            0,
            End::Truncated,
        )
        && says(alloc, settings, &CALLED, &REPLIES, 1, End::Closed)
        // Nor does a client say ReverseHello.
        && says(
            alloc,
            settings,
            &[(0, REVERSE_HELLO)],
            &out_of_turn,
            0,
            refused,
        )
        && says(
            alloc,
            settings,
            &[(0, b"GET / HTTP/1.1\r\n")],
            &out_of_turn,
            0,
            refused,
        )
}

#[test]
fn a_server_that_opens_the_connection_says_reverse_hello_first(rt: HostRuntime) {
    assert!(rt; by_default(rt.alloc(), says_it_first));
}

const NO_ENDPOINT: &str = "version = 1\n[application]\nuri = \"u\"\nnames = [{ text = \"n\" }]\n";

const TWO_ENDPOINTS: &str =
    "version = 1\n[application]\nuri = \"u\"\nnames = [{ text = \"n\" }]\n[[endpoint]]\nurl = \"first\"\n[[endpoint]]\nurl = \"second\"\n";

/// Whether a server by the settings begins with these bytes, behind what stood in the output.
fn begins(alloc: Global, settings: &Settings, said: &[u8]) -> bool {
    let mut out = Vec::new(alloc);
    out.extend_from_slice(b"abc").is_ok()
        && Server::new_reverse(alloc, settings, 1, &mut out).is_ok()
        && out.starts_with(b"abc")
        && out.ends_with(said)
        && out.len() == 3 + said.len()
}

/// Whether the settings are refused so, with nothing said.
fn is_refused(alloc: Global, settings: &Settings, fault: ReverseFault) -> bool {
    let mut out = Vec::new(alloc);
    out.extend_from_slice(b"abc").is_ok()
        && Server::new_reverse(alloc, settings, 1, &mut out).err() == Some(fault)
        && out.as_slice() == b"abc".as_slice()
        && answer_all_reverse(alloc, settings, 1, &[]).err() == Some(fault)
        && reply_all_reverse(alloc, settings, 1, &[(0, HELLO)]).err() == Some(fault)
}

fn has_no_endpoint(alloc: Global, settings: &Settings) -> bool {
    is_refused(alloc, settings, ReverseFault::NoEndpoint)
}

fn names_the_first(alloc: Global, settings: &Settings) -> bool {
    begins(alloc, settings, b"RHEF\x16\0\0\0\x01\0\0\0u\x05\0\0\0first")
}

#[test]
fn a_server_names_its_first_endpoint(rt: HostRuntime) {
    assert!(rt; by_settings(rt.alloc(), NO_ENDPOINT, has_no_endpoint));
    assert!(rt; by_settings(rt.alloc(), TWO_ENDPOINTS, names_the_first));
}

/// Settings whose URI and first url have so many bytes.
fn with_lengths(alloc: Global, uri: u32, url: u32) -> Result<Vec<u8>, AllocError> {
    let mut text = Vec::new(alloc);
    text.extend_from_slice(b"version = 1\n[application]\nuri = \"")?;
    for _ in 0..uri {
        text.push(b'a')?;
    }
    text.extend_from_slice(b"\"\nnames = [{ text = \"n\" }]\n[[endpoint]]\nurl = \"")?;
    for _ in 0..url {
        text.push(b'b')?;
    }
    text.extend_from_slice(b"\"\n")?;
    Ok(text)
}

fn is_long(alloc: Global, settings: &Settings, len: usize) -> bool {
    let mut out = Vec::new(alloc);
    match Server::new_reverse(alloc, settings, 1, &mut out) {
        Ok(_) => out.len() == len,
        Err(fault) => fault == ReverseFault::TooLarge && out.is_empty() && len == 0,
    }
}

/// Whether a ReverseHello by the settings has so many bytes, or is too large where that is 0.
fn has_length(alloc: Global, uri: u32, url: u32, len: usize) -> bool {
    let text = with_lengths(alloc, uri, url).ok();
    passes(text, |text| {
        let settings = Settings::from_toml(alloc, text.as_slice()).ok();
        passes(settings, |settings| is_long(alloc, settings, len))
    })
}

#[test]
fn a_reverse_hello_has_at_most_8192_bytes(rt: HostRuntime) {
    assert!(rt; has_length(rt.alloc(), 4095, 4081, 8192));
    assert!(rt; has_length(rt.alloc(), 4095, 4082, 0));
    assert!(rt; has_length(rt.alloc(), 4081, 4095, 8192));
    assert!(rt; has_length(rt.alloc(), 4082, 4095, 0));
    assert!(rt; has_length(rt.alloc(), 4095, 4095, 0));
    assert!(rt; has_length(rt.alloc(), 0, 0, 16));
}

/// Whether what was sent is a beginning of the replies, of just so many bytes.
fn is_sent(alloc: Global, sent: &[u8], written: u128) -> bool {
    match joined(alloc, &REPLIES) {
        Ok(replies) => replies.as_slice().starts_with(sent) && sent.len() as u128 == written,
        Err(_) => false,
    }
}

/// Serves the calls over a link that takes so many bytes at once and passes so many calls of its own on, and says what
/// came of it and how many it passed.
fn served(
    alloc: Global,
    settings: &Settings,
    limit: usize,
    calls: u32,
    turns: u32,
) -> Option<(Came, u32)>
    requires { 0 < limit }
{
    let mut link = FuseLink {
        inner: MemoryLink::new(alloc, &CALLS, limit),
        calls,
        failures: 0,
    };
    let report = serve_connection_reverse(alloc, settings, 1, &mut link, &mut StillClock, turns);
    let Ok(report) = report else {
        return None;
    };
    let came = came_of(&report);
    let passed = calls.saturating_sub(link.calls);
    if is_sent(alloc, link.inner.sent(), came.1) {
        Some((came, passed))
    } else {
        None
    }
}

/// For each count of calls that a link passes on: how many bytes went out, and how many reads were made.
const FUSES: [(u32, u128, usize); 10] = [
    (0, 0, 0),
    (1, 45, 0),
    (2, 45, 1),
    (3, 73, 1),
    (4, 73, 2),
    (5, 173, 2),
    (6, 208, 2),
    (7, 208, 3),
    (8, 308, 3),
    (9, 342, 3),
];

fn fails_so(alloc: Global, settings: &Settings) -> bool {
    let mut same = true;
    for (calls, written, reads) in FUSES {
        let want = Some(((End::LinkFailed, written, reads), calls));
        same &= served(alloc, settings, SEND_LIMIT, calls, TURNS) == want;
    }
    same
}

/// A ReverseHello that is taken twenty bytes at a time, and of which the last five are not.
fn fails_in_the_first_frame(alloc: Global, settings: &Settings) -> bool {
    served(alloc, settings, 20, 2, TURNS) == Some(((End::LinkFailed, 40, 0), 2))
        && served(alloc, settings, 20, 3, TURNS) == Some(((End::LinkFailed, 45, 0), 3))
}

fn is_served_whole(alloc: Global, settings: &Settings) -> bool {
    served(alloc, settings, SEND_LIMIT, NO_FUSE, TURNS) == Some(((End::Closed, 342, 4), 10))
        && served(alloc, settings, SEND_LIMIT, NO_FUSE, 0) == Some(((End::TurnsSpent, 45, 0), 1))
        && served(alloc, settings, SEND_LIMIT, NO_FUSE, 3) == Some(((End::TurnsSpent, 342, 3), 9))
}

#[test]
fn a_connection_that_the_server_opened_is_served(rt: HostRuntime) {
    assert!(rt; by_default(rt.alloc(), is_served_whole));
    assert!(rt; by_default(rt.alloc(), fails_so));
    assert!(rt; by_default(rt.alloc(), fails_in_the_first_frame));
}

/// Whether a link is left as it was where the settings have no endpoint.
fn is_untouched(alloc: Global, settings: &Settings) -> bool {
    let mut link = FuseLink {
        inner: MemoryLink::new(alloc, &CALLS, SEND_LIMIT),
        calls: NO_FUSE,
        failures: 0,
    };
    let report = serve_connection_reverse(alloc, settings, 1, &mut link, &mut StillClock, TURNS);
    let Err(fault) = report else {
        return false;
    };
    fault == ReverseFault::NoEndpoint && link.calls == NO_FUSE && link.inner.sent().is_empty()
}

#[test]
fn a_link_is_untouched_where_there_is_no_endpoint(rt: HostRuntime) {
    assert!(rt; by_settings(rt.alloc(), NO_ENDPOINT, is_untouched));
}

/// Whether the calls are answered whole, or memory runs out.
fn answers_or_no_memory(alloc: Global, settings: &Settings) -> bool {
    match answer_all_reverse(alloc, settings, 1, &CALLED) {
        Ok(outcome) => outcome.reply.len() == 342 && outcome.end == End::Closed,
        Err(fault) => fault == ReverseFault::NoMemory,
    }
}

/// Whether a new server says its ReverseHello, or memory runs out with nothing said.
fn begins_or_no_memory(alloc: Global, settings: &Settings) -> bool {
    let mut out = Vec::new(alloc);
    match Server::new_reverse(alloc, settings, 1, &mut out) {
        Ok(_) => out.as_slice() == REVERSE_HELLO,
        Err(fault) => fault == ReverseFault::NoMemory && out.is_empty(),
    }
}

/// Whether the calls are served, or memory runs out before, where the link is untouched, or at a server.
fn serves_or_no_memory(alloc: Global, settings: &Settings) -> bool {
    let mut link = MemoryLink::new(alloc, &CALLS, SEND_LIMIT);
    match serve_connection_reverse(alloc, settings, 1, &mut link, &mut StillClock, TURNS) {
        Ok(report) => match report.end {
            End::Closed => report.written == 342 && link.sent().len() == 342,
            // The link takes memory for what it is sent.
            End::NoMemory | End::LinkFailed => link.sent().len() as u128 == report.written,
            _ => false,
        },
        Err(fault) => fault == ReverseFault::NoMemory && link.sent().is_empty(),
    }
}

/// Whether the settings by default pass the test; where memory runs out for them there is nothing to see.
fn by_default_or_none<F: FnOnce(Global, &Settings) -> bool + Drop>(alloc: Global, test: F) -> bool
    requires { F.IsAlwaysCallable test }
{
    let settings = Settings::from_toml(alloc, DEFAULT.as_bytes()).ok();
    judged(settings, |settings| Some(test(alloc, settings))) != Some(false)
}

#[test]
fn a_server_that_opens_the_connection_or_no_memory(rt: HostRuntime) {
    assert!(rt; by_default_or_none(rt.alloc(), begins_or_no_memory));
    assert!(rt; by_default_or_none(rt.alloc(), answers_or_no_memory));
    assert!(rt; by_default_or_none(rt.alloc(), serves_or_no_memory));
}
