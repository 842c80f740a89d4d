//! Requests of every size that a server takes: what a client writes are the chunks that are cut here.

use crate::clients::{CONFIG, asks_for, brings, greets};
use std::alloc::{AllocError, Global};
use ua_conn::{AskFault, Client, ClientConfig};
use ua_test_shared::bytes::numbered;
use ua_test_shared::lending::passes;
use ua_test_shared::vectors::{OPEN_RESPONSE, OTHER_BODY};
use ua_value::UaString;

/// The same client with the longest frames that one may take.
const WIDE: ClientConfig = ClientConfig {
    buffer: 1_048_576,
    max_message: 1_048_576,
    max_chunks: 64,
    lifetime: 0,
};

/// Bytes of the longest frame; the most parts that the server takes, any number where it is 0; the part limit, the bytes of
/// the body, and the chunks that it is cut into: none where the server takes no such request.
type Row = (u32, u32, u32, usize, Option<u32>);

/// The server takes 1,048,576 bytes. A part limit comes with bodies below it, as long as it, above it, and of both bounds.
const ROWS: [Row; 24] = [
    (65535, 0, 1, 69, Some(69)),
    (65535, 0, 1, 79, Some(79)),
    (65535, 0, 1, 4_096, Some(4_096)),
    (65535, 0, 1, 65_511, Some(65_511)),
    (65535, 0, 1, 1_048_577, None),
    (65535, 0, 8_168, 79, Some(1)),
    (65535, 0, 8_168, 4_096, Some(1)),
    (65535, 0, 8_168, 8_168, Some(1)),
    (65535, 0, 8_168, 8_169, Some(2)),
    (65535, 0, 8_168, 65_511, Some(9)),
    (65535, 0, 8_168, 1_048_576, Some(129)),
    (65535, 0, 8_168, 1_048_577, None),
    (65535, 0, 65_511, 79, Some(1)),
    (65535, 0, 65_511, 4_096, Some(1)),
    (65535, 0, 65_511, 65_511, Some(1)),
    (65535, 0, 65_511, 65_512, Some(2)),
    (65535, 17, 65_511, 1_048_576, Some(17)),
    (65535, 16, 65_511, 1_048_576, None),
    (65535, 0, 65_511, 1_048_577, None),
    (65535, 79, 1, 79, Some(79)),
    (65535, 78, 1, 79, None),
    (1_048_576, 1, 1_048_552, 1_048_552, Some(1)),
    (1_048_576, 2, 1_048_552, 1_048_576, Some(2)),
    (1_048_576, 0, 1_048_552, 1_048_577, None),
];

/// What bodies are filled with: 31 bytes, so that no part begins as the one before it.
const FILLING: &[u8; 31] = b"0123456789abcdefghijklmnopqrstu";

/// A request of another service of so many bytes.
fn body_of(alloc: Global, len: usize) -> Result<Vec<u8>, AllocError> {
    let mut body = OTHER_BODY.to_vec(alloc)?;
    for _ in 0..len / 31 + 1 {
        let left = len.saturating_sub(body.len());
        body.extend_from_slice(&FILLING[..left.min(31)])?;
    }
    Ok(body)
}

/// What stands behind the MSG with this flag, number and part: channel 1, token 1 and request id 2.
fn behind<'a>(bytes: &'a [u8], flag: u8, number: u32, part: &[u8]) -> Option<&'a [u8]> {
    let size = u32::try_from(part.len()).ok()?.checked_add(24)?;
    bytes
        .strip_prefix([b'M', b'S', b'G', flag].as_slice())?
        .strip_prefix(size.to_le_bytes().as_slice())?
        .strip_prefix([1, 0, 0, 0, 1, 0, 0, 0].as_slice())?
        .strip_prefix(number.to_le_bytes().as_slice())?
        .strip_prefix([2, 0, 0, 0].as_slice())?
        .strip_prefix(part)
}

/// Whether these are so many chunks of the body, from number 2 on, and nothing else.
fn are_chunks(written: &[u8], body: &[u8], part_limit: usize, count: u32) -> bool {
    let mut rest = written;
    let mut at = 0u32;
    for part in body.chunks(part_limit.max(1)) {
        at = at.wrapping_add(1);
        let flag = if at == count { b'F' } else { b'C' };
        match behind(rest, flag, at.wrapping_add(1), part) {
            Some(more) => rest = more,
            None => return false,
        }
    }
    rest.is_empty() && at == count
}

/// Whether the body is asked for in so many chunks, or is too large and nothing is said.
fn is_asked_in(
    alloc: Global,
    client: &mut Client,
    body: &[u8],
    part_limit: u32,
    chunks: Option<u32>,
) -> bool {
    let asked = asks_for(alloc, client, body, part_limit);
    match chunks {
        Some(count) => {
            asked == Some(Ok(2)) && are_chunks(client.output(), body, part_limit as usize, count)
        }
        None => asked == Some(Err(AskFault::TooLarge)) && client.output().is_empty(),
    }
}

fn greets_widely(alloc: Global) -> Option<Client> {
    let url = UaString::null();
    Client::new(alloc, WIDE, &url, 1).ok()
}

/// A client that takes frames of so many bytes, and has greeted.
fn greets_with(alloc: Global, buffer: u32) -> Option<Client> {
    if buffer > CONFIG.buffer {
        greets_widely(alloc)
    } else {
        greets(alloc)
    }
}

/// Whether all is sent that the client has said.
fn is_sent(client: &mut Client) -> bool {
    let len = client.output().len();
    client.sent(len);
    len > 0
}

/// Whether the channel opens behind this Acknowledge, and all is sent.
fn opens_behind(client: &mut Client, acknowledge: &[u8]) -> bool {
    is_sent(client)
        && brings(client, acknowledge, &[], None)
        && is_sent(client)
        && brings(client, OPEN_RESPONSE, &[], None)
        && client.output().is_empty()
}

fn is_row(alloc: Global, row: Row) -> bool {
    let (buffer, most, part_limit, len, chunks) = row;
    let takes = [28, 0, buffer, buffer, 1_048_576, most];
    let (Ok(acknowledge), Ok(body)) = (numbered(alloc, b"ACKF", &takes), body_of(alloc, len)) else {
        return false;
    };
    let (acknowledge, body) = (acknowledge.as_slice(), body.as_slice());
    passes(greets_with(alloc, buffer), |client| {
        opens_behind(client, acknowledge) && is_asked_in(alloc, client, body, part_limit, chunks)
    })
}

#[test]
fn requests_of_every_size_are_cut(rt: HostRuntime) {
    for row in ROWS {
        assert!(rt; is_row(rt.alloc(), row), "{row:?}");
    }
}

/// Each byte of the largest request in a chunk of its own: 26,214,400 bytes.
const BYTE_BY_BYTE: Row = (65535, 0, 1, 1_048_576, Some(1_048_576));

#[test]
fn the_largest_request_is_cut_byte_by_byte(rt: HostRuntime) {
    assert!(rt; is_row(rt.alloc(), BYTE_BY_BYTE));
}
