//! Streams of a server that breaks the rules, and whether the client refuses them so, as one piece and one byte at a time.

use crate::clients::{by_client, has_ended};
use std::alloc::Global;
use ua_conn::{Client, ClientFault};
use ua_service::read_request;
use ua_test_shared::lending::passes;
use ua_test_shared::pieces::{Piece, made};
use ua_test_shared::vectors::{ACKNOWLEDGE, FIND_BODY, OPENED};

/// How far a client has come.
#[derive(Clone, Copy)]
pub(crate) enum Stage {
    /// It has greeted.
    Greeting,
    /// The Acknowledge came.
    Agreed,
    /// The channel is open.
    Opened,
    /// It asked for its second token, under id 2.
    Renewing,
    /// It asked the request of this body, under id 2.
    Asked(&'static [u8]),
    /// It asked FindServers under id 2, and once more under id 3.
    AskedTwice,
    /// It asked FindServers under id 2, and for its second token under id 3.
    AskedAndRenewing,
}

/// Why a client fails.
#[derive(Clone, Copy)]
pub(crate) enum Fault {
    /// The server sent what it must not.
    Broken(u32),
    /// The server said that it failed, perhaps with a reason.
    Said(u32, Option<&'static str>),
}

/// A name, how far the client has come, what is sent then, and why the client fails at the last byte of that.
pub(crate) type Row = (&'static str, Stage, &'static [Piece], Fault);

fn is_fault(fault: &ClientFault, want: Fault) -> bool {
    match (fault, want) {
        (ClientFault::Broken(status), Fault::Broken(wanted)) => *status == wanted,
        (ClientFault::ServerSaid(status, reason), Fault::Said(wanted, text)) => {
            *status == wanted && reason.get() == text
        }
        _ => false,
    }
}

/// Whether it was made.
fn is_made<T: Drop, E: Drop>(made: Result<T, E>) -> bool {
    made.is_ok()
}

pub(crate) fn goes_on(client: &mut Client, now: i64, piece: &[u8]) -> bool {
    is_made(client.feed(now, piece))
}

/// Whether the piece makes the client fail so, and it takes no more then.
pub(crate) fn fails(client: &mut Client, now: i64, piece: &[u8], want: Fault) -> bool {
    passes(client.feed(now, piece).err(), |fault| is_fault(fault, want)) && has_ended(client)
}

/// Whether each byte but the last brings no fault, and the last makes the client fail so.
pub(crate) fn fails_at_the_last_byte(client: &mut Client, stream: &[u8], want: Fault) -> bool {
    let Some((last, front)) = stream.split_last() else {
        return false;
    };
    let mut all = true;
    for byte in front {
        all &= goes_on(client, 0, &[*byte]);
    }
    all && fails(client, 0, &[*last], want)
}

/// Asks the request of this body.
pub(crate) fn asks(alloc: Global, client: &mut Client, body: &[u8]) -> bool {
    if body.len() > 1000 {
        return false;
    }
    match read_request(alloc, body) {
        Ok(request) => is_made(client.ask(0, request, 8168)),
        Err(_) => false,
    }
}

/// Brings a client that has greeted so far.
pub(crate) fn comes_to(alloc: Global, client: &mut Client, stage: Stage) -> bool {
    match stage {
        Stage::Greeting => true,
        Stage::Agreed => goes_on(client, 0, ACKNOWLEDGE),
        Stage::Opened => goes_on(client, 0, OPENED),
        Stage::Renewing => goes_on(client, 0, OPENED) && client.renew(0).is_ok(),
        Stage::Asked(body) => goes_on(client, 0, OPENED) && asks(alloc, client, body),
        Stage::AskedTwice => {
            goes_on(client, 0, OPENED)
                && asks(alloc, client, FIND_BODY)
                && asks(alloc, client, FIND_BODY)
        }
        Stage::AskedAndRenewing => {
            goes_on(client, 0, OPENED) && asks(alloc, client, FIND_BODY) && client.renew(0).is_ok()
        }
    }
}

fn fails_whole(alloc: Global, stage: Stage, stream: &[u8], want: Fault) -> bool {
    by_client(alloc, |alloc, client| {
        comes_to(alloc, client, stage) && fails(client, 0, stream, want)
    })
}

fn fails_by_bytes(alloc: Global, stage: Stage, stream: &[u8], want: Fault) -> bool {
    by_client(alloc, |alloc, client| {
        comes_to(alloc, client, stage) && fails_at_the_last_byte(client, stream, want)
    })
}

fn holds(alloc: Global, stage: Stage, stream: &[Piece], want: Fault) -> bool {
    match made(alloc, b"", stream) {
        Ok(stream) => {
            fails_whole(alloc, stage, stream.as_slice(), want)
                && fails_by_bytes(alloc, stage, stream.as_slice(), want)
        }
        Err(_) => false,
    }
}

/// The name of the first row that does not hold.
pub(crate) fn other(alloc: Global, rows: &[Row]) -> Option<&'static str> {
    for (name, stage, stream, want) in rows {
        if !holds(alloc, *stage, stream, *want) {
            return Some(*name);
        }
    }
    None
}
