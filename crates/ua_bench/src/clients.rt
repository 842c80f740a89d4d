//! A client: what both ends need of one, and one alone.

use crate::giving::{BAD, Log, NO_MEMORY, REFUSED, fault_answer};
use crate::values::LONGEST;
use std::alloc::Global;
use ua_conn::{AskFault, Client, ClientConfig, ClientFault};
use ua_service::{Request, read_request};
use ua_value::UaString;
use ua_value::plumbing::let_go;

/// The url of every Hello.
const URL: &str = "opc.tcp://localhost:4840";

/// What a client alone is told and hears.
#[derive(Clone, Copy)]
pub(crate) struct Talk<'a> {
    pub(crate) buffer: u32,
    /// The server's bytes up to the open response.
    pub(crate) opening: &'a [u8],
    /// The rest of them.
    pub(crate) answers: &'a [u8],
    pub(crate) asks: u32,
    pub(crate) part_limit: u32,
    /// Bytes of a piece.
    pub(crate) piece: usize,
}

/// A client whose frames have at most `buffer` bytes: from 8192 to 1048576.
pub(crate) fn new_client(alloc: Global, buffer: u32) -> Result<Client, i64> {
    if buffer < 8192 || buffer > 1_048_576 {
        return Err(BAD);
    }
    let config = ClientConfig {
        buffer,
        max_message: 1_048_576,
        max_chunks: 64,
        lifetime: 0,
    };
    match UaString::new(alloc, URL) {
        Ok(url) => Client::new(alloc, config, &url, 1).map_err(|_| NO_MEMORY),
        Err(_) => Err(NO_MEMORY),
    }
}

/// The request that a body holds.
pub(crate) fn request_of(alloc: Global, body: &[u8]) -> Result<Request, i64> {
    if body.len() > LONGEST {
        return Err(BAD);
    }
    read_request(alloc, body).map_err(fault_answer)
}

pub(crate) fn refusal(fault: AskFault) -> i64 {
    match fault {
        AskFault::NoMemory => NO_MEMORY,
        _ => REFUSED,
    }
}

/// Asks a copy of the request.
fn ask_once(client: &mut Client, request: &Request, part_limit: u32) -> Result<(), i64> {
    let Ok(copy) = request.copy() else {
        return Err(NO_MEMORY);
    };
    match client.ask(0, copy, part_limit) {
        Ok(_) => Ok(()),
        Err((fault, copy)) => {
            let_go(copy);
            Err(refusal(fault))
        }
    }
}

/// Asks the request so many times.
pub(crate) fn ask(
    client: &mut Client,
    request: &Request,
    asks: u32,
    part_limit: u32,
) -> Result<(), i64> {
    for _ in 0..asks {
        ask_once(client, request, part_limit)?;
    }
    Ok(())
}

/// How many answers a piece brings.
pub(crate) fn hear(client: &mut Client, piece: &[u8]) -> Result<usize, i64> {
    match client.feed(0, piece) {
        Ok(answers) => Ok(answers.len()),
        Err(ClientFault::NoMemory) => Err(NO_MEMORY),
        Err(_) => Err(REFUSED),
    }
}

/// Drops what the client has to send.
pub(crate) fn send(client: &mut Client, log: &mut Log) -> Result<(), i64> {
    let output = client.output();
    let n = output.len();
    log.add(output)?;
    client.sent(n);
    Ok(())
}

/// How many answers the bytes bring, piece by piece.
fn hear_all(client: &mut Client, bytes: &[u8], piece: usize) -> Result<usize, i64> {
    let mut answers = 0usize;
    let mut rest = bytes;
    for _ in 0..bytes.len() {
        if rest.is_empty() {
            break;
        }
        let (part, more) = rest.split_at(rest.len().min(piece));
        answers = answers.wrapping_add(hear(client, part)?);
        rest = more;
    }
    Ok(answers)
}

/// How many answers a client gets.
fn talk_of(
    client: &mut Client,
    request: &Request,
    talk: &Talk,
    log: &mut Log,
) -> Result<usize, i64> {
    hear(client, talk.opening)?;
    ask(client, request, talk.asks, talk.part_limit)?;
    send(client, log)?;
    hear_all(client, talk.answers, talk.piece)
}

fn talk_once(alloc: Global, request: &Request, talk: &Talk, log: &mut Log) -> Result<usize, i64> {
    log.clear();
    let mut client = new_client(alloc, talk.buffer)?;
    talk_of(&mut client, request, talk, log)
}

fn talk_often(alloc: Global, request: &Request, talk: &Talk, repeat: u32, out: &mut [u8]) -> i64 {
    let mut log = Log::new(alloc, !out.is_empty());
    let mut answers = 0;
    for _ in 0..repeat {
        match talk_once(alloc, request, talk, &mut log) {
            Ok(n) => answers = n,
            Err(status) => return status,
        }
    }
    log.give(answers, out)
}

/// A client alone, `repeat` times.
pub(crate) fn talked(alloc: Global, body: &[u8], talk: &Talk, repeat: u32, out: &mut [u8]) -> i64 {
    match request_of(alloc, body) {
        Ok(request) => talk_often(alloc, &request, talk, repeat, out),
        Err(status) => status,
    }
}
