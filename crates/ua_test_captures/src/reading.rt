//! Files of packets, cut anywhere.

use crate::making::{
    Order, four_of, pcap_of, put_block, put_enhanced, put_interface, put_packet, put_section,
};
use std::alloc::{AllocError, Global};
use std::test::Fail;
use ua_capture::{Fault, Found, ReadFault, Reader};

/// What a file is to give: how many packets, the sum of their bytes, the moment of the last, its link type, and the
/// fault at the end.
#[derive(Clone, Copy, PartialEq, Eq)]
pub(crate) struct Given {
    pub(crate) packets: u32,
    pub(crate) bytes: u32,
    pub(crate) moment: Option<u64>,
    pub(crate) link: u16,
    pub(crate) fault: Option<Fault>,
}

pub(crate) const NOTHING: Given = Given {
    packets: 0,
    bytes: 0,
    moment: None,
    link: 0,
    fault: None,
};

/// Takes what the reader has, up to the place where it needs more. `false` says that memory was refused.
fn take_all(reader: &mut Reader, given: &mut Given) -> bool {
    for _ in 0..1000 {
        match reader.next() {
            Ok(Found::Packet(record)) => {
                let length = reader.packet().len().min(100000) as u32;
                given.packets = given.packets.saturating_add(1);
                given.bytes = given.bytes.saturating_add(length);
                given.moment = record.moment;
                given.link = record.link;
            }
            Ok(Found::Passed) => {}
            Ok(Found::More) => return true,
            Err(ReadFault::File(fault)) => {
                given.fault = Some(fault);
                return true;
            }
            Err(ReadFault::NoMemory) => return false,
        }
    }
    true
}

/// What a file gives in pieces of `size` bytes, with how many bytes are left and where. `None` says that memory was
/// refused.
pub(crate) fn given_by(
    reader: &mut Reader,
    file: &[u8],
    size: usize,
) -> Option<(Given, usize, u64)> {
    let mut given = NOTHING;
    for piece in file.chunks(size.max(1)) {
        if reader.push(piece).is_err() || !take_all(reader, &mut given) {
            return None;
        }
    }
    Some((given, reader.left(), reader.place()))
}

/// Whether the file gives that in pieces of several sizes, with so many bytes left at the end from a place on.
pub(crate) fn gives(alloc: Global, file: &[u8], wanted: Given, left: usize, place: u64) -> bool {
    for size in [1, 7, 64, 100000] {
        let mut reader = Reader::new(alloc);
        let found = given_by(&mut reader, file, size);
        if found != Some((wanted, left, place)) {
            return false;
        }
    }
    true
}

/// The moment of the second packet of a pcap file, with 58 bytes in each of its two packets.
fn is_pcap(alloc: Global, order: Order, nanos: bool, moment: u64) -> Result<bool, AllocError> {
    let packet = four_of(alloc, &[2, 0, 0, 0, 0, 2, 2, 0, 0, 0, 0, 1, 8, 0])?;
    let mut file = pcap_of(alloc, order, nanos, 1)?;
    put_packet(&mut file, order, (1700000000, 1), packet.as_slice())?;
    put_packet(&mut file, order, (1700000001, 123456), packet.as_slice())?;
    let wanted = Given {
        packets: 2,
        bytes: 116,
        moment: Some(moment),
        link: 1,
        fault: None,
    };
    Ok(gives(alloc, file.as_slice(), wanted, 0, 172))
}

#[test]
fn pcap_of_both_orders_and_both_resolutions_is_read(rt: HostRuntime) -> Result<(), Fail> {
    let alloc = rt.alloc();
    assert!(rt; is_pcap(alloc, Order::Little, false, 1700000001123456000)?);
    assert!(rt; is_pcap(alloc, Order::Big, false, 1700000001123456000)?);
    assert!(rt; is_pcap(alloc, Order::Little, true, 1700000001000123456)?);
    assert!(rt; is_pcap(alloc, Order::Big, true, 1700000001000123456)?);
    Ok(())
}

/// A section with a name, an interface, a packet of 58 bytes by each of the two blocks with a moment, a block of no known
/// type, and one packet without a moment of which 40 bytes are kept.
fn put_packets(
    alloc: Global,
    file: &mut Vec<u8>,
    order: Order,
    options: &[u8],
) -> Result<(), AllocError> {
    let packet = four_of(alloc, &[2, 0, 0, 0, 0, 2, 2, 0, 0, 0, 0, 1, 8, 0])?;
    put_section(file, order, 1)?;
    put_interface(alloc, file, order, 0, options)?;
    put_enhanced(alloc, file, order, 2, (0, 5), packet.as_slice())?;
    put_block(file, order, 0x0bad, &[1, 2, 3, 4])?;
    put_enhanced(
        alloc,
        file,
        order,
        6,
        (0x00060a24, 0x181e4000),
        packet.as_slice(),
    )
}

fn is_pcapng(alloc: Global, order: Order, options: &[u8], moment: u64) -> Result<bool, AllocError> {
    let mut file = Vec::new(alloc);
    put_packets(alloc, &mut file, order, options)?;
    let wanted = Given {
        packets: 2,
        bytes: 116,
        moment: Some(moment),
        link: 1,
        fault: None,
    };
    let place = file.len() as u64;
    Ok(gives(alloc, file.as_slice(), wanted, 0, place))
}

#[test]
fn pcapng_of_both_orders_is_read(rt: HostRuntime) -> Result<(), Fail> {
    let alloc = rt.alloc();
    assert!(rt; is_pcapng(alloc, Order::Little, &[], 1700000000000000000)?);
    assert!(rt; is_pcapng(alloc, Order::Big, &[], 1700000000000000000)?);
    Ok(())
}

/// Two sections of different orders, one behind the other, as programs make that append to a file.
fn is_joined(alloc: Global) -> Result<bool, AllocError> {
    let mut file = Vec::new(alloc);
    put_packets(alloc, &mut file, Order::Little, &[])?;
    put_packets(alloc, &mut file, Order::Big, &[])?;
    let wanted = Given {
        packets: 4,
        bytes: 232,
        moment: Some(1700000000000000000),
        link: 1,
        fault: None,
    };
    let place = file.len() as u64;
    Ok(gives(alloc, file.as_slice(), wanted, 0, place))
}

#[test]
fn sections_of_both_orders_stand_in_one_file(rt: HostRuntime) -> Result<(), Fail> {
    assert!(rt; is_joined(rt.alloc())?);
    Ok(())
}

/// The first bytes of a file.
fn front(file: &[u8], n: usize) -> &[u8] {
    &file[..n.min(file.len())]
}

/// Whether a file of one packet that is cut gives none, and says where.
fn is_cut(alloc: Global) -> Result<bool, AllocError> {
    let packet = four_of(alloc, &[2, 0, 0, 0, 0, 2, 2, 0, 0, 0, 0, 1, 8, 0])?;
    let mut file = pcap_of(alloc, Order::Little, false, 1)?;
    put_packet(&mut file, Order::Little, (1, 0), packet.as_slice())?;
    put_packet(&mut file, Order::Little, (2, 0), packet.as_slice())?;
    let wanted = Given {
        packets: 1,
        bytes: 58,
        moment: Some(1000000000),
        link: 1,
        fault: None,
    };
    let most = front(file.as_slice(), 171);
    let less = front(file.as_slice(), 99);
    Ok(gives(alloc, most, wanted, 73, 98) && gives(alloc, less, wanted, 1, 98))
}

#[test]
fn a_file_that_is_cut_gives_what_is_whole(rt: HostRuntime) -> Result<(), Fail> {
    assert!(rt; is_cut(rt.alloc())?);
    assert!(rt; gives(rt.alloc(), &[0xd4, 0xc3], NOTHING, 2, 0));
    assert!(rt; gives(rt.alloc(), &[], NOTHING, 0, 0));
    Ok(())
}
