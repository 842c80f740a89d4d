//! Chunks whose headers are read, and headers that are refused.

use crate::reading::{NO_FRAME, chunk_at, open_at};
use std::alloc::{AllocError, Global};
use ua_chunk::POLICY_NONE;
use ua_frame::Kind;
use ua_frame::status::BAD_DECODING_ERROR;
use ua_test_shared::vectors::{CLOSE_REQUEST, FIND_REQUEST, OPEN_REQUEST};

/// An OPN with a null policy, a certificate and an empty thumbprint.
const OPEN_WITH_CERTIFICATE: &[u8] =
    b"OPNF\x23\0\0\0\x04\x03\x02\x01\xFF\xFF\xFF\xFF\x02\0\0\0AB\0\0\0\0\x0C\x0B\x0A\x09\x10\x0F\x0E\x0D!";

/// An OPN, its channel, policy, sequence number and request id, the length of its header, and that of its body.
type Opening = (
    &'static [u8],
    u32,
    Option<&'static str>,
    u32,
    u32,
    usize,
    usize,
);

const OPENINGS: [Opening; 2] = [
    (OPEN_REQUEST, 0, Some(POLICY_NONE), 1, 1, 79, 53),
    (
        OPEN_WITH_CERTIFICATE,
        0x0102_0304,
        None,
        0x090A_0B0C,
        0x0D0E_0F10,
        34,
        1,
    ),
];

fn is_open_chunk(row: Opening) -> bool {
    let (bytes, channel, policy, sequence, id, header, len) = row;
    match open_at(bytes) {
        Ok(chunk) => {
            chunk.channel() == channel
                && chunk.policy() == policy
                && chunk.sequence() == sequence
                && chunk.request_id() == id
                && chunk.body().len() == len
                && bytes.get(header..) == Some(chunk.body())
        }
        Err(_) => false,
    }
}

#[test]
fn open_chunks_are_read(rt: HostRuntime) {
    for row in OPENINGS {
        assert!(rt; is_open_chunk(row));
    }
}

/// A middle chunk whose numbers have four bytes each.
const MIDDLE_CHUNK: &[u8] =
    b"MSGC\x1A\0\0\0\x04\x03\x02\x01\x08\x07\x06\x05\x0C\x0B\x0A\x09\x10\x0F\x0E\x0Dno";

/// A MSG or CLO, its type and flag, its channel, token, sequence number and request id, and the length of its body.
type Message = (&'static [u8], Kind, u8, [u32; 4], usize);

const MESSAGES: [Message; 3] = [
    (FIND_REQUEST, Kind::Message, b'F', [1, 1, 2, 2], 69),
    (CLOSE_REQUEST, Kind::Close, b'F', [1, 1, 3, 3], 33),
    (
        MIDDLE_CHUNK,
        Kind::Message,
        b'C',
        [0x0102_0304, 0x0506_0708, 0x090A_0B0C, 0x0D0E_0F10],
        2,
    ),
];

fn is_message_chunk(row: Message) -> bool {
    let (bytes, kind, flag, numbers, len) = row;
    match chunk_at(bytes) {
        Ok(chunk) => {
            chunk.kind() == kind
                && chunk.flag() == flag
                && chunk.channel() == numbers[0]
                && chunk.token() == numbers[1]
                && chunk.sequence() == numbers[2]
                && chunk.request_id() == numbers[3]
                && chunk.body().len() == len
                && bytes.get(24..) == Some(chunk.body())
        }
        Err(_) => false,
    }
}

#[test]
fn message_chunks_are_read(rt: HostRuntime) {
    for row in MESSAGES {
        assert!(rt; is_message_chunk(row));
    }
}

/// A frame of the same type with the first `n` bytes of the fields, at most 200.
fn cut_frame(alloc: Global, of: &[u8], n: u8) -> Result<Vec<u8>, AllocError> {
    let mut bytes = of.get(..3).unwrap_or(&[]).to_vec(alloc)?;
    bytes.extend_from_slice(&[b'F', n.wrapping_add(8), 0, 0, 0])?;
    bytes.extend_from_slice(of.get(8..8 + n as usize).unwrap_or(&[]))?;
    Ok(bytes)
}

/// Why the header of an OPN with so many of the fields is refused, if it is.
fn cut_open_fault(alloc: Global, n: u8) -> Option<u32> {
    match cut_frame(alloc, OPEN_REQUEST, n) {
        Ok(bytes) => open_at(bytes.as_slice()).err(),
        Err(_) => Some(NO_FRAME),
    }
}

#[test]
fn cut_open_headers_are_refused(rt: HostRuntime) {
    for n in 0..71u8 {
        assert!(rt;
            cut_open_fault(rt.alloc(), n) == Some(BAD_DECODING_ERROR),
            "{n}"
        );
    }
    assert!(rt; cut_open_fault(rt.alloc(), 71).is_none());
}

/// Why the header of a MSG or CLO with so many of the fields is refused, if it is.
fn cut_message_fault(alloc: Global, of: &[u8], n: u8) -> Option<u32> {
    match cut_frame(alloc, of, n) {
        Ok(bytes) => chunk_at(bytes.as_slice()).err(),
        Err(_) => Some(NO_FRAME),
    }
}

/// Whether each cut header is refused, and the whole one is not.
fn cuts_are_refused(alloc: Global, of: &[u8]) -> bool {
    let mut are_refused = cut_message_fault(alloc, of, 16).is_none();
    for n in 0..16u8 {
        if cut_message_fault(alloc, of, n) != Some(BAD_DECODING_ERROR) {
            are_refused = false;
        }
    }
    are_refused
}

#[test]
fn cut_message_headers_are_refused(rt: HostRuntime) {
    assert!(rt; cuts_are_refused(rt.alloc(), FIND_REQUEST));
    assert!(rt; cuts_are_refused(rt.alloc(), CLOSE_REQUEST));
}

/// The open request with one byte more of policy, which takes the first of the certificate's length.
const LONGER_POLICY: &[u8] =
    b"OPNF\x84\0\0\0\0\0\0\0\x30\0\0\0http://opcfoundation.org/UA/SecurityPolicy#None\xFF\xFF\xFF\xFF\xFF\xFF\xFF\xFF\x01\0\0\0\x01\0\0\0\x01\0\xBE\x01\0\0\0\0\0\0\0\0\0\0\x01\0\0\0\0\0\0\0\xFF\xFF\xFF\xFF\0\0\0\0\0\0\0\0\0\0\0\0\0\0\0\x01\0\0\0\xFF\xFF\xFF\xFF\0\0\0\0";

/// An OPN with a policy that is no text.
const NO_TEXT: &[u8] =
    b"OPNF\x21\0\0\0\0\0\0\0\x01\0\0\0\xFF\xFF\xFF\xFF\xFF\xFF\xFF\xFF\xFF\x01\0\0\0\x01\0\0\0";

#[test]
fn other_layouts_and_types_are_refused(rt: HostRuntime) {
    for bytes in [LONGER_POLICY, NO_TEXT, FIND_REQUEST, CLOSE_REQUEST] {
        assert!(rt;
            open_at(bytes).err() == Some(BAD_DECODING_ERROR),
            "{bytes:?}"
        );
    }
    assert!(rt; chunk_at(OPEN_REQUEST).err() == Some(BAD_DECODING_ERROR));
}
