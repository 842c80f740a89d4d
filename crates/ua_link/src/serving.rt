//! A whole connection of a server over a link.

ghost use Rattle.std.specs.Prelude.{◌≡◌, ◌-◌, ◌<◌, ◌≤◌, ◌^◌, ◌++◌, ◌↔◌, Bool, true, false, [], drop, replicate, vec_len, vec_capacity, Some, IfSome, IfOk, IsErrOf, OnErr};
ghost use Rattle.ua_conn.specs.server.Site.{Site};
ghost use Rattle.ua_conn.specs.server.Greeting.{greeting, reverse_fault};
ghost use Rattle.ua_conn.specs.server.Held.{held};
ghost use Rattle.ua_link.specs.Clock.{Answered};
ghost use Rattle.ua_link.specs.Reads.{moments};
ghost use Rattle.ua_link.specs.Turns.{Seen};
ghost use Rattle.ua_link.specs.Reports.{Served, cuts_with};

use crate::clock::Clock;
use crate::link::Link;
use crate::sending::send_all;
use crate::turn::{MOST_READ, turn_in};
use std::alloc::Global;
use ua_conn::{End, ReverseFault, Server};
use ua_disco::Settings;
use ua_value::plumbing::let_go;

/// What a connection came to.
#[derive(Drop)]
pub struct Report {
    /// How it ended.
    pub end: End,
    /// For each read the moment that the clock said after it, in ticks of 100 ns since 1601-01-01 UTC, and how many
    /// bytes came: 0 at the end of the input.
    pub cuts: Vec<(i64, usize)>,
    /// The bytes that went out.
    pub written: u128,
}

/// Adds the entry of a read, for which there is room.
fn add(cuts: &mut Vec<(i64, usize)>, cut: Option<(i64, usize)>)
    requires { vec_len cuts.old < vec_capacity cuts.old }
    ensures { cuts.new.items ≡ cuts_with cut cuts.old.items }
{
    if let Some(cut) = cut {
        let _ = cuts.push(cut);
    }
}

/// Makes zeros of what a read left in front of the room.
fn clear(room: &mut [u8; MOST_READ], cut: Option<(i64, usize)>)
    requires { IfSome cut (λ cut. cut.1 ≤ 4096) }
    ensures { IfSome cut (λ cut. room.new ≡ replicate cut.1 0 ++ drop cut.1 room.old) }
{
    if let Some((_, n)) = cut {
        room[..n].fill(0);
    }
}

/// Serves one connection by a server that heard nothing yet, in so many turns at most; what it says first is sent before
/// them.
fn serve_from<L: Link, C: Clock>(
    alloc: Global,
    server: Server,
    said: &[u8],
    link: &mut L,
    clock: &mut C,
    turns: u32,
) -> Report
    requires fresh { server ≡ record { site = server.site; held = held server.site []; failed = false } }
    requires said { (reverse : Bool) × (said.now ≡ greeting reverse server.site.settings) }
    requires countable { L.fault_count link.old < 2 ^ 64 - 1 }
    ensures asked { Answered (C.answered clock.old) (C.answered clock.new) (moments result.cuts.items) }
    ensures served { let before : Seen = record { input = L.input link.old; output = L.output link.old; faults = L.fault_count link.old } in
        let after : Seen = record { input = L.input link.new; output = L.output link.new; faults = L.fault_count link.new } in
        (reverse : Bool) → said.now ≡ greeting reverse server.entry.site.settings → Served reverse server.entry.site turns before after result.end result.cuts.items result.written }
{
    let mut server = server;
    let mut cuts = Vec::new(alloc);
    if let Err(sent) = send_all(link, said) {
        let_go(server);
        return Report {
            end: End::LinkFailed,
            cuts,
            written: sent as u128,
        };
    }
    let mut written = said.len() as u128;
    // The room of all reads. It is zeros at the start of each turn, unless the link wrote behind what it said to have read.
    let mut room = [0u8; MOST_READ];
    'turns: for _ in 0..turns {
        if cuts.reserve(1).is_err() {
            let end = End::NoMemory;
            return Report { end, cuts, written };
        }
        let turn = turn_in(alloc, &mut server, link, clock, &mut room);
        written += turn.written as u128;
        add(&mut cuts, turn.cut);
        if let Some(end) = turn.end {
            return Report { end, cuts, written };
        }
        clear(&mut room, turn.cut);
    }
    let end = End::TurnsSpent;
    Report { end, cuts, written }
}

/// Serves one connection, in so many turns at most. The id of its channel is not 0.
///
/// What is written begins the reply to what was read, each read at the moment of its entry in `cuts`. It is the whole
/// reply, unless the end is `LinkFailed` or `NoMemory`. `LinkFailed` says that a call of the link failed;
/// `NoMemory` that a growth was refused; `TurnsSpent` that the turns were spent first; `InputEnded` and `Truncated`
/// that the input ended; `Closed` and `Refused` what the server came to by itself. Fewer than 2^64 - 1 calls of the
/// link failed before. OPC 10000-6, 6.7 and 7.1.
pub fn serve_connection<L: Link, C: Clock>(
    alloc: Global,
    settings: &Settings,
    id: u32,
    link: &mut L,
    clock: &mut C,
    turns: u32,
) -> Report
    requires channel { 0 < id }
    requires countable { L.fault_count link.old < 2 ^ 64 - 1 }
    ensures asked { Answered (C.answered clock.old) (C.answered clock.new) (moments result.cuts.items) }
    ensures served { let site : Site = record { settings = settings.now; channel = id } in
        let before : Seen = record { input = L.input link.old; output = L.output link.old; faults = L.fault_count link.old } in
        let after : Seen = record { input = L.input link.new; output = L.output link.new; faults = L.fault_count link.new } in
        Served false site turns before after result.end result.cuts.items result.written }
{
    match Server::new(alloc, settings, id) {
        Ok(server) => serve_from(alloc, server, &[], link, clock, turns),
        Err(_) => Report {
            end: End::NoMemory,
            cuts: Vec::new(alloc),
            written: 0,
        },
    }
}

/// Serves one connection that the server opened itself: its ReverseHello is sent first, and then it goes on as
/// [`serve_connection`] does. A send of it that fails is `LinkFailed`. OPC 10000-6, 7.1.2.6.
///
/// # Errors
///
/// The first of these that holds: `NoEndpoint` where the settings have none; `TooLarge` where the ReverseHello would
/// have more than 8192 bytes; `NoMemory` where a growth was refused before anything was sent. The link is then untouched.
pub fn serve_connection_reverse<L: Link, C: Clock>(
    alloc: Global,
    settings: &Settings,
    id: u32,
    link: &mut L,
    clock: &mut C,
    turns: u32,
) -> Result<Report, ReverseFault>
    requires channel { 0 < id }
    requires countable { L.fault_count link.old < 2 ^ 64 - 1 }
    ensures asked { IfOk result (λ report. Answered (C.answered clock.old) (C.answered clock.new) (moments report.cuts.items)) }
    ensures served { IfOk result (λ report. let site : Site = record { settings = settings.now; channel = id } in
        let before : Seen = record { input = L.input link.old; output = L.output link.old; faults = L.fault_count link.old } in
        let after : Seen = record { input = L.input link.new; output = L.output link.new; faults = L.fault_count link.new } in
        Served true site turns before after report.end report.cuts.items report.written) }
    ensures untouched { OnErr result ((link.new ≡ link.old) × (clock.new ≡ clock.old)) }
    ensures no_endpoint { IsErrOf result ReverseFault.NoEndpoint ↔ (reverse_fault settings.now ≡ Some ReverseFault.NoEndpoint) }
    ensures too_large { IsErrOf result ReverseFault.TooLarge ↔ (reverse_fault settings.now ≡ Some ReverseFault.TooLarge) }
{
    let mut said = Vec::new(alloc);
    match Server::new_reverse(alloc, settings, id, &mut said) {
        Ok(server) => {
            let report = serve_from(alloc, server, said.as_slice(), link, clock, turns);
            let_go(said);
            Ok(report)
        }
        Err(fault) => {
            let_go(said);
            Err(fault)
        }
    }
}
