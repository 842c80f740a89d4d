//! Connections to a server.

use crate::giving::{NO_MEMORY, give, pair};
use std::alloc::Global;
use ua_conn::Server;
use ua_disco::Settings;
use ua_value::NoMemory;

/// What a new server says to the input in pieces, and how many requests it hands on.
fn connection(
    alloc: Global,
    settings: &Settings,
    input: &[u8],
    piece: usize,
    moment: i64,
    reply: &mut Vec<u8>,
) -> Result<usize, NoMemory> {
    let mut server = Server::new(alloc, settings, 1)?;
    let mut handed = 0usize;
    let mut rest = input;
    for _ in 0..input.len() {
        if rest.is_empty() {
            break;
        }
        let (part, more) = rest.split_at(rest.len().min(piece));
        let Ok(fed) = server.feed(moment, part, reply) else {
            break;
        };
        handed = handed.wrapping_add(fed.requests.len());
        rest = more;
    }
    Ok(handed)
}

/// One connection to a new server, `repeat` times.
pub(crate) fn answered(
    alloc: Global,
    settings: &Settings,
    input: &[u8],
    piece: usize,
    moment: i64,
    repeat: u32,
    out: &mut [u8],
) -> i64 {
    let mut reply = Vec::new(alloc);
    let mut handed = 0;
    for _ in 0..repeat {
        reply.clear();
        let Ok(n) = connection(alloc, settings, input, piece, moment, &mut reply) else {
            return NO_MEMORY;
        };
        handed = n;
    }
    give(&reply, pair(handed, reply.len()), out)
}
