//! Each growth of memory is had, or its refusal said. These tests are run with each growth refused in turn
//! (tools/refuse-growths).

use crate::making::{
    Order, four_of, pcap_of, put_enhanced, put_interface, put_packet, put_section,
};
use crate::reading::given_by;
use std::alloc::{AllocError, Global};
use ua_capture::Reader;
use ua_stream::Side;

/// A file of pcapng and one of pcap, with a packet each.
fn files(alloc: Global) -> Result<(Vec<u8>, Vec<u8>), AllocError> {
    let packet = four_of(alloc, &[2, 0, 0, 0, 0, 2, 2, 0, 0, 0, 0, 1, 8, 0])?;
    let mut blocks = Vec::new(alloc);
    put_section(&mut blocks, Order::Little, 1)?;
    put_interface(alloc, &mut blocks, Order::Little, 0, &[])?;
    put_enhanced(
        alloc,
        &mut blocks,
        Order::Little,
        6,
        (0, 1),
        packet.as_slice(),
    )?;
    let mut packets = pcap_of(alloc, Order::Big, true, 1)?;
    put_packet(&mut packets, Order::Big, (1, 1), packet.as_slice())?;
    Ok((blocks, packets))
}

/// Whether the file gives its one packet, or says that memory was refused.
fn gives_one(alloc: Global, file: &[u8]) -> bool {
    let mut reader = Reader::new(alloc);
    match given_by(&mut reader, file, 33) {
        Some((given, left, _)) => given.packets == 1 && given.bytes == 58 && left == 0,
        None => true,
    }
}

fn reads_or_no_memory(alloc: Global) -> bool {
    match files(alloc) {
        Ok((blocks, packets)) => {
            gives_one(alloc, blocks.as_slice()) && gives_one(alloc, packets.as_slice())
        }
        Err(_) => true,
    }
}

#[test]
fn a_packet_is_read_or_no_memory(rt: HostRuntime) {
    assert!(rt; reads_or_no_memory(rt.alloc()));
}

/// Whether three segments in any order are put together, or the direction is stopped.
fn puts_together(alloc: Global, side: &mut Side) -> bool {
    side.begin(5);
    for (sequence, bytes) in [(9, b"ghij"), (5, b"abcd"), (8, b"defg")] {
        if side.add(alloc, sequence, bytes.as_slice()).is_err() {
            return side.is_stopped();
        }
    }
    !side.is_stopped() && side.ready() == b"abcdghij".as_slice()
}

#[test]
fn segments_are_put_together_or_no_memory(rt: HostRuntime) {
    let mut side = Side::new(rt.alloc());
    assert!(rt; puts_together(rt.alloc(), &mut side));
}
