//! A client and a server.

use crate::clients::{ask, hear, new_client, refusal, request_of};
use crate::giving::{Log, NO_MEMORY, REFUSED};
use std::alloc::Global;
use ua_conn::{Client, FeedFault, Server};
use ua_disco::Settings;
use ua_service::Request;

/// What both ends are made of, and what they do.
#[derive(Clone, Copy)]
pub(crate) struct Rounds<'a> {
    pub(crate) settings: &'a Settings,
    pub(crate) buffer: u32,
    pub(crate) rounds: u32,
    pub(crate) asks: u32,
    pub(crate) renews: bool,
    pub(crate) part_limit: u32,
}

fn serve(server: &mut Server, piece: &[u8], down: &mut Vec<u8>) -> Result<(), i64> {
    match server.feed(0, piece, down) {
        Ok(_) => Ok(()),
        Err(FeedFault::NoMemory) => Err(NO_MEMORY),
        Err(FeedFault::Ended) => Err(REFUSED),
    }
}

/// Delivers all that each end says. How many answers that brings.
fn deliver(
    client: &mut Client,
    server: &mut Server,
    down: &mut Vec<u8>,
    log: &mut Log,
) -> Result<usize, i64> {
    down.clear();
    let up = client.output();
    let n = up.len();
    log.add(up)?;
    serve(server, up, down)?;
    client.sent(n);
    log.add(down)?;
    hear(client, down)
}

fn round(
    client: &mut Client,
    server: &mut Server,
    request: &Request,
    r: &Rounds,
    down: &mut Vec<u8>,
    log: &mut Log,
) -> Result<usize, i64> {
    if r.renews {
        client.renew(0).map_err(refusal)?;
        deliver(client, server, down, log)?;
    }
    ask(client, request, r.asks, r.part_limit)?;
    deliver(client, server, down, log)
}

/// Opens the channel, and makes all rounds. How many answers they bring.
fn rounds_of(
    client: &mut Client,
    server: &mut Server,
    request: &Request,
    r: &Rounds,
    down: &mut Vec<u8>,
    log: &mut Log,
) -> Result<usize, i64> {
    deliver(client, server, down, log)?;
    deliver(client, server, down, log)?;
    let mut answers = 0usize;
    for _ in 0..r.rounds {
        answers = answers.wrapping_add(round(client, server, request, r, down, log)?);
    }
    Ok(answers)
}

fn with_client(
    alloc: Global,
    client: &mut Client,
    request: &Request,
    r: &Rounds,
    down: &mut Vec<u8>,
    log: &mut Log,
) -> Result<usize, i64> {
    match Server::new(alloc, r.settings, 1) {
        Ok(mut server) => rounds_of(client, &mut server, request, r, down, log),
        Err(_) => Err(NO_MEMORY),
    }
}

fn converse_once(
    alloc: Global,
    request: &Request,
    r: &Rounds,
    down: &mut Vec<u8>,
    log: &mut Log,
) -> Result<usize, i64> {
    log.clear();
    match new_client(alloc, r.buffer) {
        Ok(mut client) => with_client(alloc, &mut client, request, r, down, log),
        Err(status) => Err(status),
    }
}

fn converse_often(
    alloc: Global,
    request: &Request,
    r: &Rounds,
    repeat: u32,
    out: &mut [u8],
) -> i64 {
    let mut log = Log::new(alloc, !out.is_empty());
    let mut down = Vec::new(alloc);
    let mut answers = 0;
    for _ in 0..repeat {
        match converse_once(alloc, request, r, &mut down, &mut log) {
            Ok(n) => answers = n,
            Err(status) => return status,
        }
    }
    log.give(answers, out)
}

/// Both ends, `repeat` times.
pub(crate) fn conversed(
    alloc: Global,
    body: &[u8],
    r: &Rounds,
    repeat: u32,
    out: &mut [u8],
) -> i64 {
    match request_of(alloc, body) {
        Ok(request) => converse_often(alloc, &request, r, repeat, out),
        Err(status) => status,
    }
}
