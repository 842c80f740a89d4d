//! Messages in many chunks.

use crate::bytes::chunk;
use crate::vectors::ENDPOINTS_RESPONSE;
use std::alloc::{AllocError, Global};

/// The message in chunks of at most so many bytes of it each, from number 2 on, under request id 2 and token 1.
pub fn chunks_of(alloc: Global, body: &[u8], part_limit: usize) -> Result<Vec<u8>, AllocError> {
    let mut all = Vec::new(alloc);
    let mut rest = body;
    for sequence in 2..100 {
        let (part, more) = rest.split_at(rest.len().min(part_limit));
        let name: &[u8] = if more.is_empty() { b"MSGF" } else { b"MSGC" };
        let frame = chunk(alloc, name, [1, sequence, 2], part)?;
        all.extend_from_slice(frame.as_slice())?;
        if more.is_empty() {
            break;
        }
        rest = more;
    }
    Ok(all)
}

/// The body of the answer with the endpoint of the settings by default a hundred times: its front of 28 bytes, the count, and endpoints of 260 bytes.
fn hundred_found(alloc: Global) -> Result<Vec<u8>, AllocError> {
    let mut body = ENDPOINTS_RESPONSE[24..52].to_vec(alloc)?;
    body.extend_from_slice(b"\x64\0\0\0")?;
    for _ in 0..100 {
        body.extend_from_slice(&ENDPOINTS_RESPONSE[56..])?;
    }
    Ok(body)
}

/// The answer with the endpoint of the settings by default a hundred times, in chunks of 8192, 8192, 8192 and 1552 bytes.
pub fn four_chunks(alloc: Global) -> Result<Vec<u8>, AllocError> {
    let body = hundred_found(alloc)?;
    chunks_of(alloc, body.as_slice(), 8168)
}

/// What makes of a Hello one with buffers of 8192 bytes, and of its Acknowledge.
pub const SMALL: &[(usize, &[u8])] = &[(12, b"\0\x20\0\0\0\x20")];
