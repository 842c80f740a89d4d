//! The header of a TCP segment.

ghost use Rattle.std.specs.Prelude.{◌≡◌, ◌+◌, ◌≤◌, length, IfSome};
ghost use Rattle.ua_capture.specs.Tcp.{header_at};

use crate::number::{network_16, network_32};

/// What the header of a segment says, and where its bytes begin.
#[derive(Clone, Copy, Debug, PartialEq, Eq)]
pub(crate) struct Header {
    pub(crate) from: u16,
    pub(crate) to: u16,
    pub(crate) sequence: u32,
    pub(crate) flags: u8,
    pub(crate) at: usize,
}

/// The header of the segment that stands between two places, if a whole one is there. RFC 9293, 3.1.
pub(crate) fn header_in(bytes: &[u8], at: usize, end: usize) -> Option<Header>
    requires there { end ≤ length bytes.now }
    requires begins { at ≤ end }
    ensures header { result ≡ header_at bytes.now at end }
    ensures within { IfSome result (λ header. header.at ≤ end) }
{
    if end - at < 20 {
        return None;
    }
    let length = 4 * (bytes[at + 12] as usize / 16);
    if length < 20 || end - at < length {
        return None;
    }
    Some(Header {
        from: network_16(bytes, at),
        to: network_16(bytes, at + 2),
        sequence: network_32(bytes, at + 4),
        flags: bytes[at + 13],
        at: at + length,
    })
}
