//! A server and a client over links of memory: one that takes little at once, and one that fails.

ghost use Rattle.std.specs.Prelude.{◌≡◌, false};

use std::alloc::{AllocError, Global};
use ua_conn::{Client, ClientConfig, End, Server};
use ua_disco::Settings;
use ua_link::{
    ClientTurn, Clock, Link, LinkFault, MemoryLink, Report, pump, pump_client, serve_connection,
};
use ua_test_lent::by_default;
use ua_test_shared::bytes::{changed, chunk, joined};
use ua_test_shared::lending::passes;
use ua_test_shared::vectors::{
    ACKNOWLEDGE, CALLS, CLOSE_REQUEST, FIND_REQUEST, HELLO, OPEN_REQUEST, REPLIES,
};
use ua_value::UaString;

/// The bytes that one send takes.
pub(crate) const SEND_LIMIT: usize = 100;

/// The turns of a connection, and no limit of the calls of its link.
pub(crate) const TURNS: u32 = 16;

pub(crate) const NO_FUSE: u32 = 64;

/// A clock that stands still.
#[derive(Clone, Copy)]
pub(crate) struct StillClock;

impl Clock for StillClock {
    fn now(&mut self) -> i64 {
        0
    }
}

/// A link over memory that passes so many calls on, and fails each one behind them.
#[derive(Drop)]
pub(crate) struct FuseLink<'a> {
    pub inner: MemoryLink<'a>,
    pub calls: u32,
    pub failures: u64,
}

impl<'a> FuseLink<'a> {
    /// Whether the next call is passed on; it counts as one.
    fn passes(&mut self) -> bool
        ensures { self.new.failures ≡ self.old.failures }
    {
        if self.calls == 0 {
            return false;
        }
        self.calls -= 1;
        true
    }
}

impl<'a> Link for FuseLink<'a> {
    ghost fault_count = { λ l. l.failures };

    fn recv(&mut self, buf: &mut [u8]) -> Result<usize, LinkFault> {
        if self.passes() && self.inner.failures() < u64::MAX {
            if let Ok(n) = self.inner.recv(buf) {
                return Ok(n);
            }
        }
        self.failures += 1;
        Err(LinkFault)
    }

    fn send(&mut self, bytes: &[u8]) -> Result<usize, LinkFault> {
        if self.passes() && self.inner.failures() < u64::MAX {
            if let Ok(n) = self.inner.send(bytes) {
                return Ok(n);
            }
        }
        self.failures += 1;
        Err(LinkFault)
    }

    fn failures(&self) -> u64 {
        self.failures
    }
}

/// What came of a connection: its end, how many bytes it wrote, and how many reads it made.
pub(crate) type Came = (End, u128, usize);

pub(crate) fn came_of(report: &Report) -> Came {
    (report.end, report.written, report.cuts.len())
}

/// Whether what was sent is a beginning of the replies, of just so many bytes.
fn is_sent(alloc: Global, sent: &[u8], written: u128) -> bool {
    match joined(alloc, &REPLIES) {
        Ok(replies) => replies.as_slice().starts_with(sent) && sent.len() as u128 == written,
        Err(_) => false,
    }
}

/// Serves the calls over a link that passes so many calls of its own on, and says what came of it and how many it
/// passed; nothing where what was sent is no beginning of the replies, of just as many bytes as the report says.
fn served(alloc: Global, settings: &Settings, calls: u32, turns: u32) -> Option<(Came, u32)> {
    let mut link = FuseLink {
        inner: MemoryLink::new(alloc, &CALLS, SEND_LIMIT),
        calls,
        failures: 0,
    };
    let report = serve_connection(alloc, settings, 1, &mut link, &mut StillClock, turns);
    let came = came_of(&report);
    let passed = calls.saturating_sub(link.calls);
    if is_sent(alloc, link.inner.sent(), came.1) {
        Some((came, passed))
    } else {
        None
    }
}

/// For each count of calls that a link passes on: how many bytes went out, and how many reads were made.
const FUSES: [(u32, u128, usize); 9] = [
    (0, 0, 0),
    (1, 0, 1),
    (2, 28, 1),
    (3, 28, 2),
    (4, 128, 2),
    (5, 163, 2),
    (6, 163, 3),
    (7, 263, 3),
    (8, 297, 3),
];

fn fails_so(alloc: Global, settings: &Settings) -> bool {
    let mut same = true;
    for (calls, written, reads) in FUSES {
        let want = Some(((End::LinkFailed, written, reads), calls));
        same &= served(alloc, settings, calls, TURNS) == want;
    }
    same
}

/// It takes nine calls of the link to serve them all.
fn is_served_whole(alloc: Global, settings: &Settings) -> bool {
    let whole = (End::Closed, 297, 4);
    served(alloc, settings, 9, TURNS) == Some((whole, 9))
        && served(alloc, settings, NO_FUSE, TURNS) == Some((whole, 9))
}

#[test]
fn a_link_that_fails_ends_the_connection(rt: HostRuntime) {
    assert!(rt; by_default(rt.alloc(), fails_so));
    assert!(rt; by_default(rt.alloc(), is_served_whole));
}

fn is_spent(alloc: Global, settings: &Settings) -> bool {
    served(alloc, settings, NO_FUSE, 0) == Some(((End::TurnsSpent, 0, 0), 0))
        && served(alloc, settings, NO_FUSE, 3) == Some(((End::TurnsSpent, 297, 3), 8))
        && served(alloc, settings, NO_FUSE, 4) == Some(((End::Closed, 297, 4), 9))
}

#[test]
fn turns_may_be_spent_first(rt: HostRuntime) {
    assert!(rt; by_default(rt.alloc(), is_spent));
}

/// A link over memory that looks whether the room of each read is zeros.
#[derive(Drop)]
struct LookingLink<'a> {
    inner: MemoryLink<'a>,
    zeros: bool,
}

fn are_zeros(bytes: &[u8]) -> bool {
    for byte in bytes {
        if *byte != 0 {
            return false;
        }
    }
    true
}

impl<'a> Link for LookingLink<'a> {
    ghost fault_count = { λ l. l.inner.failures };

    fn recv(&mut self, buf: &mut [u8]) -> Result<usize, LinkFault> {
        self.zeros = self.zeros && are_zeros(buf);
        self.inner.recv(buf)
    }

    fn send(&mut self, bytes: &[u8]) -> Result<usize, LinkFault> {
        self.inner.send(bytes)
    }

    fn failures(&self) -> u64 {
        self.inner.failures()
    }
}

/// Whether the pieces are served so, and each read of them found zeros.
fn reads_into_zeros(alloc: Global, settings: &Settings, pieces: &[&[u8]], came: Came) -> bool {
    let mut link = LookingLink {
        inner: MemoryLink::new(alloc, pieces, SEND_LIMIT),
        zeros: true,
    };
    let report = serve_connection(alloc, settings, 1, &mut link, &mut StillClock, TURNS);
    came_of(&report) == came && link.zeros
}

/// What a request of another service has before bytes that are no zeros: 33 bytes of its body.
const OTHER_FRONT: &[u8] =
    b"\x01\0\xCD\x01\0\0\0\0\0\0\0\0\0\0\x02\0\0\0\0\0\0\0\xFF\xFF\xFF\xFF\0\0\0\0\0\0\0";

/// The opening and a request for servers, 281 bytes, and a request of another service, which has so many bytes then.
fn with_long_request(alloc: Global, len: usize) -> Result<Vec<u8>, AllocError> {
    let mut body = OTHER_FRONT.to_vec(alloc)?;
    body.resize(len.saturating_sub(24), 0xAA)?;
    let request = chunk(alloc, b"MSGF", [1, 3, 3], body.as_slice())?;
    joined(
        alloc,
        &[HELLO, OPEN_REQUEST, FIND_REQUEST, request.as_slice()],
    )
}

/// Whether that is answered whole, and each read found zeros, where it comes at once and a close behind it: in reads of
/// 4096 bytes, the last one apart.
fn reads_long_into_zeros(alloc: Global, settings: &Settings, len: usize, reads: usize) -> bool {
    let close = changed(alloc, CLOSE_REQUEST, 16, b"\x04\0\0\0\x04").ok();
    let long = with_long_request(alloc, len).ok();
    let came = (End::Closed, 297 + 52, reads);
    passes(long, |long| {
        passes(close, |close| {
            reads_into_zeros(alloc, settings, &[&*long, &*close], came)
        })
    })
}

/// Reads of a few bytes, of all 4096 and of fewer behind them: 12,201 bytes are two whole reads and one of 4009, 8192 are two
/// whole ones, 4097 one and one of a byte.
fn each_reads_into_zeros(alloc: Global, settings: &Settings) -> bool {
    reads_into_zeros(alloc, settings, &CALLS, (End::Closed, 297, 4))
        && reads_long_into_zeros(alloc, settings, 12_201 - 281, 4)
        && reads_long_into_zeros(alloc, settings, 8192 - 281, 3)
        && reads_long_into_zeros(alloc, settings, 4097 - 281, 3)
}

#[test]
fn each_read_of_a_connection_finds_zeros(rt: HostRuntime) {
    assert!(rt; by_default(rt.alloc(), each_reads_into_zeros));
}

/// How a connection ends whose client sends these pieces and no more.
fn end_of(alloc: Global, settings: &Settings, pieces: &[&[u8]]) -> Came {
    let mut link = MemoryLink::new(alloc, pieces, SEND_LIMIT);
    let report = serve_connection(alloc, settings, 1, &mut link, &mut StillClock, TURNS);
    came_of(&report)
}

/// Empty pieces are passed over.
fn ends_with_its_input(alloc: Global, settings: &Settings) -> bool {
    end_of(alloc, settings, &[]) == (End::InputEnded, 0, 1)
        && end_of(alloc, settings, &[b"", HELLO, b""]) == (End::InputEnded, 28, 2)
        && end_of(alloc, settings, &[b"HELF"]) == (End::Truncated, 0, 2)
        && end_of(alloc, settings, &[b"GET / HTTP/1.1\r\n"]) == (End::Refused(0x807E_0000), 16, 1)
}

#[test]
fn a_connection_ends_with_its_input(rt: HostRuntime) {
    assert!(rt; by_default(rt.alloc(), ends_with_its_input));
}

fn is_one_turn(alloc: Global, server: &mut Server, calls: &[u8]) -> bool
    requires { server.old.failed ≡ false }
{
    let pieces = [calls];
    let mut link = MemoryLink::new(alloc, &pieces, SEND_LIMIT);
    let turn = pump(alloc, server, &mut link, &mut StillClock);
    turn.cut == Some((0, 338))
        && turn.written == 297
        && turn.requests.len() == 1
        && turn.end == Some(End::Closed)
}

fn are_one_turn(alloc: Global, settings: &Settings, calls: &[u8]) -> bool {
    match Server::new(alloc, settings, 1) {
        Ok(mut server) => is_one_turn(alloc, &mut server, calls),
        Err(_) => false,
    }
}

fn takes_one_turn(alloc: Global, settings: &Settings) -> bool {
    match joined(alloc, &CALLS) {
        Ok(calls) => are_one_turn(alloc, settings, calls.as_slice()),
        Err(_) => false,
    }
}

#[test]
fn one_turn_takes_all_that_came(rt: HostRuntime) {
    assert!(rt; by_default(rt.alloc(), takes_one_turn));
}

const CONFIG: ClientConfig = ClientConfig {
    buffer: 65535,
    max_message: 0x10_0000,
    max_chunks: 64,
    lifetime: 0,
};

/// What a turn of a client came to: how many answers, or the name of its end.
fn came_to(turn: ClientTurn) -> Result<usize, &'static str> {
    match &turn {
        ClientTurn::Answers(answers) => Ok(answers.len()),
        ClientTurn::InputEnded => Err("input ended"),
        ClientTurn::LinkFailed => Err("link failed"),
        ClientTurn::Fault(_) => Err("fault"),
    }
}

/// The Acknowledge, which the open request follows, and the end of the input.
fn is_pumped(alloc: Global, client: &mut Client) -> bool {
    let mut link = FuseLink {
        inner: MemoryLink::new(alloc, &[ACKNOWLEDGE], SEND_LIMIT),
        calls: 5,
        failures: 0,
    };
    let first = came_to(pump_client(client, &mut link, &mut StillClock));
    let hello = link.inner.sent().len();
    let second = if link.failures == 0 {
        came_to(pump_client(client, &mut link, &mut StillClock))
    } else {
        Err("")
    };
    let third = if link.failures == 0 {
        came_to(pump_client(client, &mut link, &mut StillClock))
    } else {
        Err("")
    };
    first == Ok(0)
        && hello == 56
        && second == Err("input ended")
        && link.inner.sent().ends_with(OPEN_REQUEST)
        && third == Err("link failed")
        && link.failures == 1
}

fn a_client_is_pumped(alloc: Global) -> bool {
    let Ok(url) = UaString::new(alloc, "opc.tcp://localhost:4840") else {
        return false;
    };
    let client = Client::new(alloc, CONFIG, &url, 1).ok();
    passes(client, |client| is_pumped(alloc, client))
}

#[test]
fn a_client_takes_turns_over_a_link(rt: HostRuntime) {
    assert!(rt; a_client_is_pumped(rt.alloc()));
}
