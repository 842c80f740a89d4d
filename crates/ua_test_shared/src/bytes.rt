//! Bytes that tests make of others.

use std::alloc::{AllocError, Global};

/// The parts, one after another.
pub fn joined(alloc: Global, parts: &[&[u8]]) -> Result<Vec<u8>, AllocError> {
    let mut all = Vec::new(alloc);
    for part in parts {
        all.extend_from_slice(part)?;
    }
    Ok(all)
}

/// The bytes of the front, and those behind it.
pub fn both(alloc: Global, front: &[u8], behind: &[u8]) -> Result<Vec<u8>, AllocError> {
    let mut bytes = front.to_vec(alloc)?;
    bytes.extend_from_slice(behind)?;
    Ok(bytes)
}

/// The bytes of numbers behind those of a name.
pub fn numbered(alloc: Global, name: &[u8], numbers: &[u32]) -> Result<Vec<u8>, AllocError> {
    let mut all = name.to_vec(alloc)?;
    for number in numbers {
        all.extend_from_slice(&number.to_le_bytes())?;
    }
    Ok(all)
}

/// A MSG or CLO of channel 1: its name and flag, its token, sequence number and request id, and its body.
pub fn chunk(
    alloc: Global,
    name: &[u8],
    numbers: [u32; 3],
    body: &[u8],
) -> Result<Vec<u8>, AllocError> {
    let len = u32::try_from(body.len()).unwrap_or(u32::MAX);
    let [token, sequence, id] = numbers;
    let header = [len.wrapping_add(24), 1, token, sequence, id];
    let mut all = numbered(alloc, name, &header)?;
    all.extend_from_slice(body)?;
    Ok(all)
}

/// The bytes with these in the place of others.
pub fn changed(alloc: Global, bytes: &[u8], at: usize, new: &[u8]) -> Result<Vec<u8>, AllocError> {
    let mut all = Vec::new(alloc);
    for (i, &byte) in bytes.iter().enumerate() {
        let here = match i.checked_sub(at) {
            None => byte,
            Some(k) => new.get(k).copied().unwrap_or(byte),
        };
        all.push(here)?;
    }
    Ok(all)
}

/// The frame, so many times behind the front, with sequence numbers and request ids from 2 on.
pub fn repeated(
    alloc: Global,
    front: &[u8],
    frame: &[u8],
    count: u32,
) -> Result<Vec<u8>, AllocError> {
    let mut all = front.to_vec(alloc)?;
    let (Some(head), Some(body)) = (frame.get(..16), frame.get(24..)) else {
        return Ok(all);
    };
    for n in 0..count {
        let number = n.wrapping_add(2).to_le_bytes();
        all.extend_from_slice(head)?;
        all.extend_from_slice(&number)?;
        all.extend_from_slice(&number)?;
        all.extend_from_slice(body)?;
    }
    Ok(all)
}
