//! Where the internet protocol begins in a packet, by the link layer that it was captured at.

ghost use Rattle.std.specs.Prelude.{◌≡◌, ◌+◌, ◌*◌, ◌^◌, ◌<◌, ◌≤◌, length, IfSome};
ghost use Rattle.ua_capture.specs.Link.{is_tag, tags_passed, version_by_type, version_by_family, version_by_byte, datagram_at, network_by_type, network_by_family, network_raw, network_cooked, network_of};

use crate::number::network_16;

/// A version of the internet protocol.
#[derive(Clone, Copy, Debug, PartialEq, Eq)]
pub(crate) enum Version {
    /// RFC 791.
    Four,
    /// RFC 8200.
    Six,
}

/// Where a datagram begins.
#[derive(Clone, Copy, Debug, PartialEq, Eq)]
pub(crate) struct Datagram {
    pub(crate) version: Version,
    pub(crate) at: usize,
}

/// How many VLAN tags, one behind the other, are passed over.
const MOST_TAGS: u8 = 8;

fn is_tag(kind: u16) -> bool
    ensures { result ≡ is_tag kind }
{
    matches!(kind, 0x8100 | 0x88a8 | 0x9100)
}

/// The place of the type at `at`, or behind the VLAN tags there, of which at most `most` are passed over.
#[tactic(auto, unfolding(crate::specs::Link::tags_passed))]
fn behind_tags(bytes: &[u8], at: usize, most: u8) -> Option<usize>
    requires { at + 4 * most < 2 ^ 32 }
    ensures passed { result ≡ tags_passed most bytes.now at }
    ensures there { IfSome result (λ place. place + 2 ≤ length bytes.now) }
{
    if bytes.len() < at + 2 {
        return None;
    }
    if most == 0 {
        return Some(at);
    }
    if is_tag(network_16(bytes, at)) {
        behind_tags(bytes, at + 4, most - 1)
    } else {
        Some(at)
    }
}

fn version_by_type(kind: u16) -> Option<Version>
    ensures { result ≡ version_by_type kind }
{
    match kind {
        0x0800 => Some(Version::Four),
        0x86dd => Some(Version::Six),
        _ => None,
    }
}

fn version_by_family(family: u8) -> Option<Version>
    ensures { result ≡ version_by_family family }
{
    match family {
        2 => Some(Version::Four),
        10 | 24 | 28 | 30 => Some(Version::Six),
        _ => None,
    }
}

fn version_by_byte(first: u8) -> Option<Version>
    ensures { result ≡ version_by_byte first }
{
    match first {
        0x40..=0x4f => Some(Version::Four),
        0x60..=0x6f => Some(Version::Six),
        _ => None,
    }
}

fn datagram_at(at: usize, version: Option<Version>) -> Option<Datagram>
    ensures { result ≡ datagram_at at version }
{
    match version {
        Some(version) => Some(Datagram { version, at }),
        None => None,
    }
}

/// A datagram behind its EtherType, which stands at `at` or behind the VLAN tags there.
fn by_type(bytes: &[u8], at: usize) -> Option<Datagram>
    requires { at ≤ 22 }
    ensures { result ≡ network_by_type bytes.now at }
{
    match behind_tags(bytes, at, MOST_TAGS) {
        Some(at) => datagram_at(at + 2, version_by_type(network_16(bytes, at))),
        None => None,
    }
}

/// A datagram behind the four bytes of its address family.
fn by_family(bytes: &[u8]) -> Option<Datagram>
    ensures { result ≡ network_by_family bytes.now }
{
    if bytes.len() < 4 {
        return None;
    }
    if bytes[1] == 0 && bytes[2] == 0 {
        if bytes[3] == 0 {
            datagram_at(4, version_by_family(bytes[0]))
        } else if bytes[0] == 0 {
            datagram_at(4, version_by_family(bytes[3]))
        } else {
            None
        }
    } else {
        None
    }
}

/// A datagram with no header in front of it.
fn raw(bytes: &[u8]) -> Option<Datagram>
    ensures { result ≡ network_raw bytes.now }
{
    if bytes.is_empty() {
        return None;
    }
    datagram_at(0, version_by_byte(bytes[0]))
}

/// A datagram behind the header of Linux cooked captures, version 2.
fn cooked(bytes: &[u8]) -> Option<Datagram>
    ensures { result ≡ network_cooked bytes.now }
{
    if bytes.len() < 22 {
        return None;
    }
    let kind = network_16(bytes, 0);
    if is_tag(kind) {
        by_type(bytes, 22)
    } else {
        datagram_at(20, version_by_type(kind))
    }
}

/// Where the datagram of a packet begins, at this link type (the list of LINKTYPE values of tcpdump.org): Ethernet,
/// Linux cooked of both versions, BSD loopback in either order of bytes, and raw IP. `None` where there is none.
pub(crate) fn datagram_in(link: u16, bytes: &[u8]) -> Option<Datagram>
    ensures { result ≡ network_of link bytes.now }
{
    match link {
        1 => by_type(bytes, 12),
        113 => by_type(bytes, 14),
        276 => cooked(bytes),
        0 | 108 => by_family(bytes),
        12 | 14 | 101 => raw(bytes),
        228 => datagram_at(0, Some(Version::Four)),
        229 => datagram_at(0, Some(Version::Six)),
        _ => None,
    }
}
