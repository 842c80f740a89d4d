//! What stands in front of the bytes of a file that were not used yet.

use crate::file::{Fault, Interface, Record};
use crate::number::Order;
use crate::pcap::FileHeader;

/// What stands there, with how many bytes it has.
#[derive(Clone, Copy, Debug, PartialEq, Eq)]
pub(crate) enum Step {
    /// The beginning of something, of which more bytes are needed.
    More,
    /// Something that is none of the format.
    Fault(Fault),
    /// The header of a pcap file, of 24 bytes.
    File(FileHeader),
    /// The block that begins a section of pcapng.
    Section(Order, usize),
    /// The block that describes an interface.
    Interface(Interface, usize),
    /// A packet.
    Packet(Record, usize),
    /// A block that is neither.
    Passed(usize),
}
