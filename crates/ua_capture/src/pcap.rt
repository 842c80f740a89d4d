//! The format pcap: a header, and then packets (draft-ietf-opsawg-pcap).

ghost use Rattle.std.specs.Prelude.{◌≡◌, ◌≤◌, length};
ghost use Rattle.ua_capture.specs.Pcap.{magic_of, file_step, pcap_moment, packet_step, IsWithin};

use crate::file::{Fault, LONGEST, Record};
use crate::number::{Order, network_32, ordered_32};
use crate::step::Step;

/// What the header of a file says.
#[derive(Clone, Copy, Debug, PartialEq, Eq)]
pub(crate) struct FileHeader {
    pub(crate) order: Order,
    /// Whether the second part of a moment counts nanoseconds, and not microseconds.
    pub(crate) nanos: bool,
    pub(crate) link: u16,
}

/// The order and the resolution that a magic number says.
pub(crate) fn magic_of(magic: u32) -> Option<(Order, bool)>
    ensures { result ≡ magic_of magic }
{
    match magic {
        0xa1b2c3d4 => Some((Order::Big, false)),
        0xa1b23c4d => Some((Order::Big, true)),
        0xd4c3b2a1 => Some((Order::Little, false)),
        0x4d3cb2a1 => Some((Order::Little, true)),
        _ => None,
    }
}

/// What stands in front of a file that begins with none of the blocks of pcapng: the header of pcap.
pub(crate) fn file_step(bytes: &[u8]) -> Step
    requires { 4 ≤ length bytes.now }
    ensures step { result ≡ file_step bytes.now }
    ensures within { IsWithin bytes.now result }
{
    match magic_of(network_32(bytes, 0)) {
        Some((order, nanos)) => {
            if bytes.len() < 24 {
                return Step::More;
            }
            Step::File(FileHeader {
                order,
                nanos,
                link: (ordered_32(order, bytes, 20) % 0x10000) as u16,
            })
        }
        None => Step::Fault(Fault::Magic),
    }
}

/// The moment of a packet in nanoseconds since 1970.
fn pcap_moment(seconds: u32, part: u32, nanos: bool) -> u64
    ensures { result ≡ pcap_moment seconds part nanos }
{
    let part = part as u64;
    seconds as u64 * 1_000_000_000 + if nanos { part } else { part * 1000 }
}

/// What stands in front of bytes behind the header: a packet with its own header of 16 bytes.
pub(crate) fn packet_step(header: FileHeader, bytes: &[u8]) -> Step
    ensures step { result ≡ packet_step header bytes.now }
    ensures within { IsWithin bytes.now result }
{
    if bytes.len() < 16 {
        return Step::More;
    }
    let kept = ordered_32(header.order, bytes, 8);
    if kept > LONGEST {
        return Step::Fault(Fault::TooLong);
    }
    let end = 16 + kept as usize;
    if bytes.len() < end {
        return Step::More;
    }
    let seconds = ordered_32(header.order, bytes, 0);
    let part = ordered_32(header.order, bytes, 4);
    let record = Record {
        link: header.link,
        moment: Some(pcap_moment(seconds, part, header.nanos)),
        length: ordered_32(header.order, bytes, 12),
        from: 16,
        to: end,
    };
    Step::Packet(record, end)
}
