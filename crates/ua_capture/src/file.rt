//! What stands in a file of packets.

/// A packet as its file has it.
#[derive(Clone, Copy, Debug, PartialEq, Eq)]
pub struct Record {
    /// The link type that it was captured at, one of the list of LINKTYPE values of tcpdump.org.
    pub link: u16,
    /// Its moment in nanoseconds since 1970, where the file says one.
    pub moment: Option<u64>,
    /// Its bytes when it was captured, of which the file may have fewer.
    pub length: u32,
    /// Where its bytes begin in the record, and where they end.
    pub(crate) from: usize,
    pub(crate) to: usize,
}

/// What a pcapng file says of an interface that packets were captured at.
#[derive(Clone, Copy, Debug, PartialEq, Eq)]
pub(crate) struct Interface {
    pub(crate) link: u16,
    /// The most bytes of a packet that are kept; 0 says that there is no such number.
    pub(crate) most: u32,
    /// Ticks of its clock in a second.
    pub(crate) unit: u64,
    /// Seconds that are added to its moments, as a number with a sign in 64 bits.
    pub(crate) offset: u64,
}

/// Why a file is not read on.
#[derive(Clone, Copy, Debug, PartialEq, Eq)]
pub enum Fault {
    /// It begins neither as pcap nor as pcapng.
    Magic,
    /// A section of pcapng says no order of bytes.
    Order,
    /// A section of pcapng has another version than 1.
    Version,
    /// A block or a packet is longer than 16 MiB.
    TooLong,
    /// The length of a block does not fit what stands in it.
    Length,
    /// A packet names an interface that the section does not describe.
    Interface,
    /// A section describes more than 65536 interfaces.
    Interfaces,
    /// An interface's clock has more ticks in a second than a number of 64 bits can say.
    Resolution,
}

/// The most bytes of one block or one packet: 16 MiB.
pub(crate) const LONGEST: u32 = 16777216;
