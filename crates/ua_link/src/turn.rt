//! One turn of a server over a link.

ghost use Rattle.std.specs.Prelude.{◌≡◌, ◌-◌, ◌<◌, ◌≤◌, ◌^◌, [], false, length, None, Some, IfSome};
ghost use Rattle.ua_conn.specs.server.Replies.{ended};
ghost use Rattle.ua_link.specs.Clock.{Answered};
ghost use Rattle.ua_link.specs.Reads.{moment_of_read};
ghost use Rattle.ua_link.specs.Turns.{Seen, HearsAll, Turns, ended_with};

use crate::clock::Clock;
use crate::link::Link;
use crate::sending::send_all;
use std::alloc::Global;
use ua_conn::{End, Fed, Server};
use ua_service::Request;

/// The most bytes of one read.
pub(crate) const MOST_READ: usize = 4096;

/// What one turn did.
#[derive(Drop)]
pub struct Turn {
    /// The moment that the clock said after the read, in ticks of 100 ns since 1601-01-01 UTC, and how many bytes
    /// came: 0 at the end of the input. `None` where the read failed.
    pub cut: Option<(i64, usize)>,
    /// The bytes that went out.
    pub written: usize,
    /// The requests that the bytes made whole, in their order.
    pub requests: Vec<Request>,
    /// How the connection ended, if it did.
    pub end: Option<End>,
}

impl Turn {
    /// A turn that brought nothing but an end.
    fn ended(alloc: Global, cut: Option<(i64, usize)>, end: End) -> Turn
        ensures cut { result.cut ≡ cut }
        ensures written { result.written ≡ 0 }
        ensures requests { result.requests.items ≡ [] }
        ensures ending { result.end ≡ Some end }
    {
        Turn {
            cut,
            written: 0,
            requests: Vec::new(alloc),
            end: Some(end),
        }
    }
}

/// How the connection ends with a read of these bytes, to which the server came so: no byte is the end of the input.
pub(crate) fn ending_after(server: &Server, bytes: &[u8], came: Option<End>) -> Option<End>
    ensures { result ≡ ended_with came bytes.now (ended None server.now.held.rest) }
{
    if came.is_none() && bytes.is_empty() {
        return Some(server.end_of_input());
    }
    came
}

/// Gives the bytes of a read to the server, and sends what it says to them.
fn answer_read<L: Link>(
    alloc: Global,
    server: &mut Server,
    link: &mut L,
    now: i64,
    bytes: &[u8],
) -> Turn
    requires going { server.old.failed ≡ false }
    requires countable { L.fault_count link.old < 2 ^ 64 - 1 }
    ensures cut { result.cut ≡ Some (now, length bytes.now) }
    ensures kept { L.input link.new ≡ L.input link.old }
    ensures heard { let before : Seen = record { input = L.input link.old; output = L.output link.old; faults = L.fault_count link.old } in
        let after : Seen = record { input = L.input link.new; output = L.output link.new; faults = L.fault_count link.new } in
        HearsAll server.old server.new now bytes.now before after result }
{
    let cut = Some((now, bytes.len()));
    let mut said = Vec::new(alloc);
    let Ok(fed) = server.feed(now, bytes, &mut said) else {
        return Turn::ended(alloc, cut, End::NoMemory);
    };
    let Fed { requests, end } = fed;
    let end = ending_after(server, bytes, end);
    match send_all(link, &said) {
        Ok(()) => Turn {
            cut,
            written: said.len(),
            requests,
            end,
        },
        Err(written) => Turn {
            cut,
            written,
            requests,
            end: Some(End::LinkFailed),
        },
    }
}

/// One turn of a server that has neither failed nor ended: one read of at most 4096 bytes, after which the clock is
/// asked, and then all that the server says to them is sent.
///
/// The end is `LinkFailed` where the read or a send failed, `NoMemory` where a growth was refused, and nothing was
/// sent then; else the one to which the server came, if any, and at the end of the input `InputEnded` or
/// `Truncated`. Fewer than 2^64 - 1 calls of the link failed before. OPC 10000-6, 6.7 and 7.1.
pub fn pump<L: Link, C: Clock>(
    alloc: Global,
    server: &mut Server,
    link: &mut L,
    clock: &mut C,
) -> Turn
    requires going { server.old.failed ≡ false }
    requires countable { L.fault_count link.old < 2 ^ 64 - 1 }
    ensures turns { let before : Seen = record { input = L.input link.old; output = L.output link.old; faults = L.fault_count link.old } in
        let after : Seen = record { input = L.input link.new; output = L.output link.new; faults = L.fault_count link.new } in
        Turns server.old server.new before after result }
    ensures asked { Answered (C.answered clock.old) (C.answered clock.new) (moment_of_read result.cut) }
{
    let mut room = [0u8; MOST_READ];
    turn_in(alloc, server, link, clock, &mut room)
}

/// The same, which reads into room that its caller lends. What came stands in front of it afterwards.
pub(crate) fn turn_in<L: Link, C: Clock>(
    alloc: Global,
    server: &mut Server,
    link: &mut L,
    clock: &mut C,
    room: &mut [u8; MOST_READ],
) -> Turn
    requires going { server.old.failed ≡ false }
    requires countable { L.fault_count link.old < 2 ^ 64 - 1 }
    ensures turns { let before : Seen = record { input = L.input link.old; output = L.output link.old; faults = L.fault_count link.old } in
        let after : Seen = record { input = L.input link.new; output = L.output link.new; faults = L.fault_count link.new } in
        Turns server.old server.new before after result }
    ensures within { IfSome result.cut (λ cut. cut.1 ≤ 4096) }
    ensures asked { Answered (C.answered clock.old) (C.answered clock.new) (moment_of_read result.cut) }
{
    let Ok(n) = link.recv(room) else {
        return Turn::ended(alloc, None, End::LinkFailed);
    };
    let now = clock.now();
    answer_read(alloc, server, link, now, &room[..n])
}
