//! Files of packets, made byte by byte as the formats say, and the frames in them.

use std::alloc::{AllocError, Global};

/// Puts bytes behind others.
pub(crate) fn put(out: &mut Vec<u8>, bytes: &[u8]) -> Result<(), AllocError> {
    out.extend_from_slice(bytes)
}

/// A number of a file, least byte first.
pub(crate) fn put_32(out: &mut Vec<u8>, number: u32) -> Result<(), AllocError> {
    put(out, &number.to_le_bytes())
}

/// A number of the network, greatest byte first.
fn put_big_32(out: &mut Vec<u8>, number: u32) -> Result<(), AllocError> {
    put(out, &number.to_be_bytes())
}

/// A number of the network, greatest byte first.
fn put_big_16(out: &mut Vec<u8>, number: u16) -> Result<(), AllocError> {
    put(out, &number.to_be_bytes())
}

/// A segment in a packet: its moment in seconds and nanoseconds, its ports, and what TCP says of it. Its flags are FIN 1,
/// SYN 2, RST 4, ACK 16.
#[derive(Clone, Copy)]
pub(crate) struct Sent<'a> {
    pub(crate) at: (u32, u32),
    pub(crate) from: u16,
    pub(crate) to: u16,
    pub(crate) sequence: u32,
    pub(crate) flags: u8,
    pub(crate) payload: &'a [u8],
}

/// Seconds from 1970 to 2026-11-29T01:02:03Z.
pub(crate) const START: u32 = 1_795_914_123;

/// The port from which on ports are those of clients.
const CLIENTS: u16 = 50000;

/// The last bytes of the addresses of sender and receiver: the clients' machine is 1, the servers' 2.
fn machines(sent: &Sent) -> (u8, u8) {
    if sent.from >= CLIENTS { (1, 2) } else { (2, 1) }
}

/// A segment of 20 bytes of header and a payload (RFC 9293, 3.1).
fn put_segment(out: &mut Vec<u8>, sent: &Sent) -> Result<(), AllocError> {
    put_big_16(out, sent.from)?;
    put_big_16(out, sent.to)?;
    put_big_32(out, sent.sequence)?;
    put(out, &[0, 0, 0, 0, 0x50, sent.flags, 0xff, 0xff, 0, 0, 0, 0])?;
    put(out, sent.payload)
}

/// The datagram of version 4 of a segment (RFC 791, 3.1), whose length the network card fills in later; as a fragment
/// where that field says so.
pub(crate) fn put_four(out: &mut Vec<u8>, sent: &Sent, fragment: u16) -> Result<(), AllocError> {
    let (from, to) = machines(sent);
    put(out, &[0x45, 0, 0, 0, 0, 0])?;
    put_big_16(out, fragment)?;
    put(out, &[64, 6, 0, 0, 192, 0, 2, from, 192, 0, 2, to])?;
    put_segment(out, sent)
}

/// The datagram of version 6 of a segment (RFC 8200, 3), whose length the network card fills in later.
pub(crate) fn put_six(out: &mut Vec<u8>, sent: &Sent) -> Result<(), AllocError> {
    let (from, to) = machines(sent);
    put(out, &[0x60, 0, 0, 0, 0, 0, 6, 64])?;
    put(
        out,
        &[0x20, 1, 0xd, 0xb8, 0, 0, 0, 0, 0, 0, 0, 0, 0, 0, 0, from],
    )?;
    put(
        out,
        &[0x20, 1, 0xd, 0xb8, 0, 0, 0, 0, 0, 0, 0, 0, 0, 0, 0, to],
    )?;
    put_segment(out, sent)
}

/// The header of a pcap file with nanoseconds, of raw IP (101).
pub(crate) fn put_header(out: &mut Vec<u8>) -> Result<(), AllocError> {
    put_32(out, 0xa1b2_3c4d)?;
    put(out, &[2, 0, 4, 0, 0, 0, 0, 0, 0, 0, 0, 0, 0, 0, 4, 0])?;
    put_32(out, 101)
}

/// The bytes of a packet or a block, which are short.
pub(crate) fn length_of(bytes: &[u8]) -> u32 {
    bytes.len().min(70000) as u32
}

/// A packet of a pcap file.
pub(crate) fn put_packet(
    out: &mut Vec<u8>,
    at: (u32, u32),
    bytes: &[u8],
) -> Result<(), AllocError> {
    put_32(out, at.0)?;
    put_32(out, at.1)?;
    put_32(out, length_of(bytes))?;
    put_32(out, length_of(bytes))?;
    put(out, bytes)
}

/// The packet of a segment in a datagram of version 4.
pub(crate) fn put_sent(
    alloc: Global,
    file: &mut Vec<u8>,
    sent: &Sent,
    fragment: u16,
) -> Result<(), AllocError> {
    let mut bytes = Vec::new(alloc);
    put_four(&mut bytes, sent, fragment)?;
    put_packet(file, sent.at, bytes.as_slice())
}

/// A file of the packets of these segments.
pub(crate) fn file_of(alloc: Global, all: &[Sent]) -> Result<Vec<u8>, AllocError> {
    let mut file = Vec::new(alloc);
    put_header(&mut file)?;
    for sent in all {
        put_sent(alloc, &mut file, sent, 0x4000)?;
    }
    Ok(file)
}

// ---- frames (OPC 10000-6, 7.1.2 and 6.7.2)

/// A HEL of 32 bytes: version 0, buffers of 65535 bytes, no limits, a null url.
pub(crate) const HELLO: &[u8] =
    b"HELF\x20\0\0\0\0\0\0\0\xff\xff\0\0\xff\xff\0\0\0\0\0\0\0\0\0\0\xff\xff\xff\xff";

/// An ACK of 28 bytes, with the same numbers.
pub(crate) const ACKNOWLEDGE: &[u8] =
    b"ACKF\x1c\0\0\0\0\0\0\0\xff\xff\0\0\xff\xff\0\0\0\0\0\0\0\0\0\0";

/// A MSG of 26 bytes that is a whole message: channel 1, token 1, sequence number 2, request 2, and a body of two bytes,
/// the encoding id 72.
pub(crate) const MESSAGE: &[u8] = b"MSGF\x1a\0\0\0\x01\0\0\0\x01\0\0\0\x02\0\0\0\x02\0\0\0\0\x48";

/// The first ten bytes of it, and the rest.
pub(crate) const MESSAGE_FRONT: &[u8] = b"MSGF\x1a\0\0\0\x01\0";

pub(crate) const MESSAGE_REST: &[u8] = b"\0\0\x01\0\0\0\x02\0\0\0\x02\0\0\0\0\x48";

/// A segment from a client to the server's port 4840, so many seconds after the start.
pub(crate) fn out(seconds: u32, sequence: u32, flags: u8, payload: &[u8]) -> Sent<'_> {
    Sent {
        at: (START.saturating_add(seconds), 0),
        from: 50000,
        to: 4840,
        sequence,
        flags,
        payload,
    }
}

/// A segment from the server's port 4840 to a client.
pub(crate) fn back(seconds: u32, sequence: u32, flags: u8, payload: &[u8]) -> Sent<'_> {
    Sent {
        at: (START.saturating_add(seconds), 0),
        from: 4840,
        to: 50000,
        sequence,
        flags,
        payload,
    }
}
