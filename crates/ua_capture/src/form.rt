//! What is known of a file.

use crate::number::Order;
use crate::pcap::FileHeader;

/// What is known of a file, as far as it came.
#[derive(Clone, Copy, Debug, PartialEq, Eq)]
pub(crate) enum Form {
    /// Its first bytes are awaited.
    Unknown,
    /// It is pcap.
    Pcap(FileHeader),
    /// It is pcapng, and in a section of this order.
    Section(Order),
}
