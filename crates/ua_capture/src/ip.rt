//! What a datagram of the internet protocol carries.

ghost use Rattle.std.specs.Prelude.{◌≡◌, ◌+◌, ◌≤◌, length};
ghost use Rattle.ua_capture.specs.Ip.{end_by, four_of, six_of, headers_passed, is_extension, extension_length, fragment_of, is_whole_six, carried_of, IsPlaced, least_of};

use crate::link::Version;
use crate::number::network_16;

/// What a datagram carries.
#[derive(Clone, Copy, Debug, PartialEq, Eq)]
pub(crate) enum Carried {
    /// A TCP segment that begins at a place, and ends before another.
    Tcp { at: usize, end: usize },
    /// A part of a TCP segment: the datagram is a fragment.
    Fragment,
    /// Something else, or nothing that can be read.
    Other,
}

/// How many extension headers of version 6, one behind the other, are passed over.
const MOST_HEADERS: u8 = 16;

/// The number of TCP among the protocols.
const TCP: u8 = 6;

/// Where something ends that begins at `at` with a header of `header` bytes, which says that `said` bytes follow it.
#[tactic(auto, unfolding(crate::specs::Ip::end_by))]
fn end_by(bytes: &[u8], at: usize, said: u16, header: usize) -> usize
    requires { at + header ≤ length bytes.now }
    ensures end { result ≡ end_by bytes.now at said header }
    ensures there { result ≤ length bytes.now }
    ensures behind { at + header ≤ result }
{
    if said == 0 {
        return bytes.len();
    }
    let room = bytes.len() - at - header;
    at + header + room.min(said as usize)
}

/// What a datagram of version 4 carries, which begins at `at`.
#[tactic(auto, unfolding(crate::specs::Ip::four_of))]
fn four_in(bytes: &[u8], at: usize) -> Carried
    requires { at ≤ length bytes.now }
    ensures carried { result ≡ four_of bytes.now at }
    ensures placed { IsPlaced bytes.now (at + 20) result }
{
    if bytes.len() - at < 20 {
        return Carried::Other;
    }
    let first = bytes[at];
    let header = 4 * (first as usize % 16);
    if first / 16 != 4 || header < 20 || bytes[at + 9] != TCP {
        return Carried::Other;
    }
    if network_16(bytes, at + 6) % 0x4000 != 0 {
        return Carried::Fragment;
    }
    let end = end_by(bytes, at, network_16(bytes, at + 2), 0);
    if end < at + header {
        return Carried::Other;
    }
    Carried::Tcp {
        at: at + header,
        end,
    }
}

fn is_extension(next: u8) -> bool
    ensures { result ≡ is_extension next }
{
    matches!(next, 0 | 43 | 51 | 60 | 135 | 139 | 140)
}

fn extension_length(next: u8, second: u8) -> usize
    ensures length { result ≡ extension_length next second }
    ensures some { 8 ≤ result }
{
    match next {
        51 => 8 + 4 * second as usize,
        _ => 8 + 8 * second as usize,
    }
}

/// What a fragment is part of, whose header says this next one.
fn fragment_of(next: u8) -> Carried
    ensures { result ≡ fragment_of next }
{
    if next == TCP || is_extension(next) {
        Carried::Fragment
    } else {
        Carried::Other
    }
}

/// Whether the fragment header at `at` says that the datagram is whole.
fn is_whole(bytes: &[u8], at: usize) -> bool
    requires { at + 8 ≤ length bytes.now }
    ensures { result ≡ is_whole_six bytes.now at }
{
    let field = network_16(bytes, at + 2);
    field / 8 == 0 && field % 2 == 0
}

/// What stands behind the extension headers from `at` on, of which the first is of type `next`.
#[tactic(auto, unfolding(crate::specs::Ip::headers_passed))]
fn behind_headers(bytes: &[u8], next: u8, at: usize, end: usize, most: u8) -> Carried
    requires there { end ≤ length bytes.now }
    requires begins { at ≤ end }
    ensures carried { result ≡ headers_passed most bytes.now next at end }
    ensures placed { IsPlaced bytes.now at result }
{
    if next == TCP {
        return Carried::Tcp { at, end };
    }
    if most == 0 {
        return Carried::Other;
    }
    if next == 44 {
        if end - at < 8 {
            return Carried::Other;
        }
        return if is_whole(bytes, at) {
            behind_headers(bytes, bytes[at], at + 8, end, most - 1)
        } else {
            fragment_of(bytes[at])
        };
    }
    if !is_extension(next) || end - at < 8 {
        return Carried::Other;
    }
    let length = extension_length(next, bytes[at + 1]);
    if end - at < length {
        return Carried::Other;
    }
    behind_headers(bytes, bytes[at], at + length, end, most - 1)
}

/// What a datagram of version 6 carries, which begins at `at`.
#[tactic(auto, unfolding(crate::specs::Ip::six_of))]
fn six_in(bytes: &[u8], at: usize) -> Carried
    requires { at ≤ length bytes.now }
    ensures carried { result ≡ six_of bytes.now at }
    ensures placed { IsPlaced bytes.now (at + 40) result }
{
    if bytes.len() - at < 40 || bytes[at] / 16 != 6 {
        return Carried::Other;
    }
    let end = end_by(bytes, at, network_16(bytes, at + 4), 40);
    behind_headers(bytes, bytes[at + 6], at + 40, end, MOST_HEADERS)
}

/// What a datagram carries. A fragment of a TCP segment is told as one, and what stands behind the end that the header
/// says is none of it. RFC 791, 3.1; RFC 8200, 3 and 4.
pub(crate) fn carried_in(version: Version, bytes: &[u8], at: usize) -> Carried
    requires { at ≤ length bytes.now }
    ensures carried { result ≡ carried_of version bytes.now at }
    ensures placed { IsPlaced bytes.now (at + least_of version) result }
{
    match version {
        Version::Four => four_in(bytes, at),
        Version::Six => six_in(bytes, at),
    }
}
