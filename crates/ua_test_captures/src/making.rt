//! Files and packets, made byte by byte as the formats say.

ghost use Rattle.std.specs.Prelude.{◌≤◌};

use std::alloc::{AllocError, Global};

/// The order of bytes of a file.
#[derive(Clone, Copy, PartialEq, Eq)]
pub(crate) enum Order {
    Little,
    Big,
}

/// Puts bytes behind others.
pub(crate) fn put(out: &mut Vec<u8>, bytes: &[u8]) -> Result<(), AllocError> {
    out.extend_from_slice(bytes)
}

pub(crate) fn put_32(out: &mut Vec<u8>, order: Order, number: u32) -> Result<(), AllocError> {
    match order {
        Order::Little => put(out, &number.to_le_bytes()),
        Order::Big => put(out, &number.to_be_bytes()),
    }
}

pub(crate) fn put_16(out: &mut Vec<u8>, order: Order, number: u16) -> Result<(), AllocError> {
    match order {
        Order::Little => put(out, &number.to_le_bytes()),
        Order::Big => put(out, &number.to_be_bytes()),
    }
}

/// The length of what is made, which is short.
fn length_of(bytes: &[u8]) -> u32
    ensures { result ≤ 1000 }
{
    bytes.len().min(1000) as u32
}

// ---- segments and datagrams

/// A segment of 20 bytes of header and a payload. Its flags are FIN 1, SYN 2, RST 4, ACK 16.
pub(crate) fn put_segment(
    out: &mut Vec<u8>,
    ports: (u16, u16),
    sequence: u32,
    flags: u8,
    payload: &[u8],
) -> Result<(), AllocError> {
    put_16(out, Order::Big, ports.0)?;
    put_16(out, Order::Big, ports.1)?;
    put_32(out, Order::Big, sequence)?;
    put(out, &[0, 0, 0, 0, 0x50, flags, 0xff, 0xff, 0, 0, 0, 0])?;
    put(out, payload)
}

/// The header of a datagram of version 4 from 192.0.2.1 to 192.0.2.2, with so many bytes behind it.
pub(crate) fn put_four(
    out: &mut Vec<u8>,
    protocol: u8,
    fragment: u16,
    length: u16,
) -> Result<(), AllocError> {
    put(out, &[0x45, 0])?;
    put_16(out, Order::Big, length)?;
    put(out, &[0, 0])?;
    put_16(out, Order::Big, fragment)?;
    put(out, &[64, protocol, 0, 0, 192, 0, 2, 1, 192, 0, 2, 2])
}

/// The header of a datagram of version 6 from 2001:db8::1 to 2001:db8::2, with so many bytes behind it.
pub(crate) fn put_six(out: &mut Vec<u8>, next: u8, length: u16) -> Result<(), AllocError> {
    put(out, &[0x60, 0, 0, 0])?;
    put_16(out, Order::Big, length)?;
    put(out, &[next, 64])?;
    put(
        out,
        &[0x20, 1, 0xd, 0xb8, 0, 0, 0, 0, 0, 0, 0, 0, 0, 0, 0, 1],
    )?;
    put(
        out,
        &[0x20, 1, 0xd, 0xb8, 0, 0, 0, 0, 0, 0, 0, 0, 0, 0, 0, 2],
    )
}

/// A datagram of version 4 with a segment of four bytes.
pub(crate) fn four_of(alloc: Global, front: &[u8]) -> Result<Vec<u8>, AllocError> {
    let mut out = front.to_vec(alloc)?;
    put_four(&mut out, 6, 0x4000, 44)?;
    put_segment(&mut out, (50000, 4840), 7, 24, b"HELF")?;
    Ok(out)
}

/// A datagram of version 6 with a segment of four bytes, and headers between.
pub(crate) fn six_of(
    alloc: Global,
    front: &[u8],
    next: u8,
    headers: &[u8],
) -> Result<Vec<u8>, AllocError> {
    let mut out = front.to_vec(alloc)?;
    put_six(&mut out, next, (length_of(headers) + 24) as u16)?;
    put(&mut out, headers)?;
    put_segment(&mut out, (50000, 4840), 7, 24, b"HELF")?;
    Ok(out)
}

// ---- pcap

/// The header of a pcap file.
pub(crate) fn pcap_of(
    alloc: Global,
    order: Order,
    nanos: bool,
    link: u32,
) -> Result<Vec<u8>, AllocError> {
    let mut out = Vec::new(alloc);
    put_32(&mut out, order, if nanos { 0xa1b23c4d } else { 0xa1b2c3d4 })?;
    put_16(&mut out, order, 2)?;
    put_16(&mut out, order, 4)?;
    put_32(&mut out, order, 0)?;
    put_32(&mut out, order, 0)?;
    put_32(&mut out, order, 262144)?;
    put_32(&mut out, order, link)?;
    Ok(out)
}

/// A packet of a pcap file.
pub(crate) fn put_packet(
    out: &mut Vec<u8>,
    order: Order,
    moment: (u32, u32),
    bytes: &[u8],
) -> Result<(), AllocError> {
    put_32(out, order, moment.0)?;
    put_32(out, order, moment.1)?;
    put_32(out, order, length_of(bytes))?;
    put_32(out, order, length_of(bytes) + 9)?;
    put(out, bytes)
}

// ---- pcapng

/// A block of pcapng with a body of a multiple of four bytes.
pub(crate) fn put_block(
    out: &mut Vec<u8>,
    order: Order,
    kind: u32,
    body: &[u8],
) -> Result<(), AllocError> {
    put_32(out, order, kind)?;
    put_32(out, order, length_of(body) + 12)?;
    put(out, body)?;
    put_32(out, order, length_of(body) + 12)
}

/// The block that begins a section of this version.
pub(crate) fn put_section(out: &mut Vec<u8>, order: Order, version: u16) -> Result<(), AllocError> {
    put_32(out, order, 0x0a0d0d0a)?;
    put_32(out, order, 28)?;
    put_32(out, order, 0x1a2b3c4d)?;
    put_16(out, order, version)?;
    put_16(out, order, 0)?;
    put(out, &[0xff; 8])?;
    put_32(out, order, 28)
}

/// The block of an interface of Ethernet, with options.
pub(crate) fn put_interface(
    alloc: Global,
    out: &mut Vec<u8>,
    order: Order,
    most: u32,
    options: &[u8],
) -> Result<(), AllocError> {
    let mut body = Vec::new(alloc);
    put_16(&mut body, order, 1)?;
    put_16(&mut body, order, 0)?;
    put_32(&mut body, order, most)?;
    put(&mut body, options)?;
    put_block(out, order, 1, body.as_slice())
}

/// An Enhanced Packet Block of an interface, or with the type 2 the block that it replaced.
pub(crate) fn put_enhanced(
    alloc: Global,
    out: &mut Vec<u8>,
    order: Order,
    kind: u32,
    ticks: (u32, u32),
    bytes: &[u8],
) -> Result<(), AllocError> {
    let mut body = Vec::new(alloc);
    if kind == 2 {
        put_16(&mut body, order, 0)?;
        put_16(&mut body, order, 0xffff)?;
    } else {
        put_32(&mut body, order, 0)?;
    }
    put_32(&mut body, order, ticks.0)?;
    put_32(&mut body, order, ticks.1)?;
    put_32(&mut body, order, length_of(bytes))?;
    put_32(&mut body, order, length_of(bytes) + 9)?;
    put(&mut body, bytes)?;
    let padding = (4 - body.len() % 4) % 4;
    put(&mut body, &[0, 0, 0][..padding])?;
    put_block(out, order, kind, body.as_slice())
}
