//! Captures as tcpdump and Wireshark write them: files of packets, and the TCP segments that packets carry.
#![tactic(auto)]

mod beginning;
mod file;
mod form;
mod ip;
mod link;
mod moment;
mod number;
mod options;
mod packet;
mod pcap;
mod pcapng;
mod reader;
mod step;
mod tcp;

pub use beginning::is_capture;
pub use file::{Fault, Record};
pub use packet::{Address, Endpoint, Packet, Segment, packet_in};
pub use reader::{Found, ReadFault, Reader};
