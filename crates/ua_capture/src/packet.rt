//! What one packet is: a segment of a TCP stream, a fragment, or none of a stream.

ghost use Rattle.std.specs.Prelude.{◌≡◌, ◌+◌, ◌≤◌, length, Some};
ghost use Rattle.ua_capture.specs.Ip.{carried_of, least_of};
ghost use Rattle.ua_capture.specs.Packet.{four_address, six_address, has_flag, from_address, to_address, by_header, by_carried, packet_of};

use crate::ip::{Carried, carried_in};
use crate::link::{Datagram, Version, datagram_in};
use crate::tcp::{Header, header_in};
use std::marker::Model;

/// An address of the internet protocol, in the order of the network.
#[derive(Clone, Copy, Debug, PartialEq, Eq, PartialOrd, Ord, Hash)]
pub enum Address {
    /// RFC 791.
    Four([u8; 4]),
    /// RFC 4291.
    Six([u8; 16]),
}

/// One end of a connection.
#[derive(Clone, Copy, Debug, PartialEq, Eq, PartialOrd, Ord, Hash)]
pub struct Endpoint {
    /// The address of the machine.
    pub address: Address,
    /// The TCP port.
    pub port: u16,
}

/// A segment of a TCP stream, whose bytes are lent from its packet. RFC 9293, 3.1.
#[derive(Drop)]
pub struct Segment<'a> {
    from: Endpoint,
    to: Endpoint,
    sequence: u32,
    flags: u8,
    payload: &'a [u8],
}

impl<'a> Model for Segment<'a> {
    ghost use Rattle.ua_capture.specs.Segment.{Parts};

    ghost Value = { Parts };

    ghost view = { λ a. record { from = a.from; to = a.to; sequence = a.sequence; flags = a.flags; payload = a.payload.now } };
}

impl<'a> Segment<'a> {
    /// The end that sent it.
    pub fn from(&self) -> Endpoint
        ensures { result ≡ self.now.from }
    {
        self.from
    }

    /// The end that it goes to.
    pub fn to(&self) -> Endpoint
        ensures { result ≡ self.now.to }
    {
        self.to
    }

    /// The sequence number of its first byte, or of its SYN.
    pub fn sequence(&self) -> u32
        ensures { result ≡ self.now.sequence }
    {
        self.sequence
    }

    /// Whether it opens a direction, and so takes one sequence number in front of its bytes.
    pub fn is_syn(&self) -> bool
        ensures { result ≡ has_flag self.now.flags 2 }
    {
        self.flags / 2 % 2 == 1
    }

    /// Whether no byte of its direction comes behind it.
    pub fn is_fin(&self) -> bool
        ensures { result ≡ has_flag self.now.flags 1 }
    {
        self.flags % 2 == 1
    }

    /// Whether it ends the connection at once.
    pub fn is_reset(&self) -> bool
        ensures { result ≡ has_flag self.now.flags 4 }
    {
        self.flags / 4 % 2 == 1
    }

    /// Whether it acknowledges something: of the two SYN of a connection the second does.
    pub fn is_acknowledge(&self) -> bool
        ensures { result ≡ has_flag self.now.flags 16 }
    {
        self.flags / 16 % 2 == 1
    }

    /// Its bytes, as many as were captured.
    pub fn payload(&self) -> &'a [u8]
        ensures { result.now ≡ self.now.payload }
    {
        self.payload
    }
}

/// What a packet is.
#[derive(Drop)]
pub enum Packet<'a> {
    /// A segment of a TCP stream.
    Segment(Segment<'a>),
    /// A fragment of a datagram, which is part of a segment: it is passed over.
    Fragment,
    /// None of a stream.
    Other,
}

/// The address of version 4 at `at`.
fn four_address(bytes: &[u8], at: usize) -> [u8; 4]
    requires { at + 4 ≤ length bytes.now }
    ensures { result ≡ four_address bytes.now at }
{
    [bytes[at], bytes[at + 1], bytes[at + 2], bytes[at + 3]]
}

/// The address of version 6 at `at`.
fn six_address(bytes: &[u8], at: usize) -> [u8; 16]
    requires { at + 16 ≤ length bytes.now }
    ensures { result ≡ six_address bytes.now at }
{
    let Some(chunk) = bytes[at..].first_chunk::<16>() else {
        unreachable!()
    };
    *chunk
}

fn from_address(version: Version, bytes: &[u8], at: usize) -> Address
    requires { at + least_of version ≤ length bytes.now }
    ensures { result ≡ from_address version bytes.now at }
{
    match version {
        Version::Four => Address::Four(four_address(bytes, at + 12)),
        Version::Six => Address::Six(six_address(bytes, at + 8)),
    }
}

fn to_address(version: Version, bytes: &[u8], at: usize) -> Address
    requires { at + least_of version ≤ length bytes.now }
    ensures { result ≡ to_address version bytes.now at }
{
    match version {
        Version::Four => Address::Four(four_address(bytes, at + 16)),
        Version::Six => Address::Six(six_address(bytes, at + 24)),
    }
}

/// The segment with this header in this datagram, whose bytes end at `end`.
fn segment_between(bytes: &[u8], datagram: Datagram, header: Header, end: usize) -> Packet<'_>
    requires addressed { datagram.at + least_of datagram.version ≤ length bytes.now }
    requires there { end ≤ length bytes.now }
    requires begins { header.at ≤ end }
    ensures { result ≡ by_header bytes.now datagram end (Some header) }
{
    let version = datagram.version;
    Packet::Segment(Segment {
        from: Endpoint {
            address: from_address(version, bytes, datagram.at),
            port: header.from,
        },
        to: Endpoint {
            address: to_address(version, bytes, datagram.at),
            port: header.to,
        },
        sequence: header.sequence,
        flags: header.flags,
        payload: &bytes[header.at..end],
    })
}

/// What a datagram carries, as a packet.
fn packet_by(bytes: &[u8], datagram: Datagram) -> Packet<'_>
    requires { datagram.at ≤ length bytes.now }
    ensures { result ≡ by_carried bytes.now datagram (carried_of datagram.version bytes.now datagram.at) }
{
    match carried_in(datagram.version, bytes, datagram.at) {
        Carried::Tcp { at, end } => match header_in(bytes, at, end) {
            Some(header) => segment_between(bytes, datagram, header, end),
            None => Packet::Other,
        },
        Carried::Fragment => Packet::Fragment,
        Carried::Other => Packet::Other,
    }
}

/// What a packet is, of this link type (the list of LINKTYPE values of tcpdump.org). It takes no memory.
///
/// Link layers: Ethernet (1) and Linux cooked (113, 276) with up to eight VLAN tags, BSD loopback in either order of
/// bytes (0, 108), raw IP (12, 14, 101, 228, 229). Internet protocol: version 4 and version 6 with up to sixteen
/// extension headers (RFC 791, RFC 8200). A fragment of a segment is told as one. Of a segment the bytes are lent that
/// lie within the lengths that the headers say, as many as were captured (RFC 9293, 3.1). Checksums are not looked at:
/// a machine that captures its own packets sees them before they are computed.
pub fn packet_in(link: u16, bytes: &[u8]) -> Packet<'_>
    ensures { result ≡ packet_of link bytes.now }
{
    match datagram_in(link, bytes) {
        Some(datagram) => {
            if bytes.len() < datagram.at {
                Packet::Other
            } else {
                packet_by(bytes, datagram)
            }
        }
        None => Packet::Other,
    }
}
