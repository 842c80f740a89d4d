//! What is none of the formats.

use crate::making::{Order, pcap_of, put_32, put_block, put_interface, put_section};
use crate::reading::{Given, NOTHING, gives};
use std::alloc::{AllocError, Global};
use std::test::Fail;
use ua_capture::Fault;

/// Whether a file gives no packet, and this fault with all from a place on left.
fn is_refused(alloc: Global, file: &[u8], fault: Fault, place: usize) -> bool {
    let wanted = Given {
        fault: Some(fault),
        ..NOTHING
    };
    let left = file.len().saturating_sub(place);
    gives(alloc, file, wanted, left, place as u64)
}

/// A section with an interface, and a block behind them.
fn with_block(alloc: Global, kind: u32, said: u32, options: &[u8]) -> Result<Vec<u8>, AllocError> {
    let mut file = Vec::new(alloc);
    put_section(&mut file, Order::Little, 1)?;
    put_interface(alloc, &mut file, Order::Little, 0, options)?;
    put_32(&mut file, Order::Little, kind)?;
    put_32(&mut file, Order::Little, said)?;
    Ok(file)
}

fn is_block_refused(alloc: Global, kind: u32, said: u32, fault: Fault) -> Result<bool, AllocError> {
    let file = with_block(alloc, kind, said, &[])?;
    Ok(is_refused(alloc, file.as_slice(), fault, 48))
}

#[test]
fn a_file_of_neither_format_is_refused(rt: HostRuntime) -> Result<(), Fail> {
    let alloc = rt.alloc();
    assert!(rt; is_refused(alloc, b"HELF8\0\0\0", Fault::Magic, 0));
    assert!(rt; is_refused(alloc, &[0xa1, 0xb2, 0xc3, 0xd5], Fault::Magic, 0));
    let order = [10, 13, 13, 10, 28, 0, 0, 0, 0x4d, 0x3c, 0x2b, 0x1b];
    assert!(rt; is_refused(alloc, &order, Fault::Order, 0));
    Ok(())
}

/// A section of another version.
fn is_version_refused(alloc: Global) -> Result<bool, AllocError> {
    let mut file = Vec::new(alloc);
    put_section(&mut file, Order::Big, 2)?;
    Ok(is_refused(alloc, file.as_slice(), Fault::Version, 0))
}

/// A packet of pcap that is longer than any is.
fn is_long_packet_refused(alloc: Global) -> Result<bool, AllocError> {
    let mut file = pcap_of(alloc, Order::Big, false, 1)?;
    put_32(&mut file, Order::Big, 1)?;
    put_32(&mut file, Order::Big, 0)?;
    put_32(&mut file, Order::Big, 16777217)?;
    put_32(&mut file, Order::Big, 16777217)?;
    Ok(is_refused(alloc, file.as_slice(), Fault::TooLong, 24))
}

#[test]
fn blocks_of_no_possible_length_are_refused(rt: HostRuntime) -> Result<(), Fail> {
    let alloc = rt.alloc();
    assert!(rt; is_version_refused(alloc)?);
    assert!(rt; is_long_packet_refused(alloc)?);
    assert!(rt; is_block_refused(alloc, 5, 8, Fault::Length)?);
    assert!(rt; is_block_refused(alloc, 5, 14, Fault::Length)?);
    assert!(rt; is_block_refused(alloc, 5, 16777220, Fault::TooLong)?);
    Ok(())
}

/// A block of a type with this body, behind a section and, where wanted, an interface.
fn is_body_refused(
    alloc: Global,
    described: bool,
    kind: u32,
    body: &[u8],
    fault: Fault,
) -> Result<bool, AllocError> {
    let mut file = Vec::new(alloc);
    put_section(&mut file, Order::Little, 1)?;
    if described {
        put_interface(alloc, &mut file, Order::Little, 0, &[])?;
    }
    let place = file.len();
    put_block(&mut file, Order::Little, kind, body)?;
    Ok(is_refused(alloc, file.as_slice(), fault, place))
}

const OTHER_INTERFACE: &[u8] = &[1, 0, 0, 0, 0, 0, 0, 0, 0, 0, 0, 0, 0, 0, 0, 0, 0, 0, 0, 0];

const TOO_MANY_KEPT: &[u8] = &[0, 0, 0, 0, 0, 0, 0, 0, 0, 0, 0, 0, 1, 0, 0, 0, 1, 0, 0, 0];

const TOO_FINE: &[u8] = &[1, 0, 0, 0, 0, 0, 0, 0, 9, 0, 1, 0, 20, 0, 0, 0];

#[test]
fn blocks_that_do_not_fit_are_refused(rt: HostRuntime) -> Result<(), Fail> {
    let alloc = rt.alloc();
    assert!(rt; is_body_refused(alloc, true, 6, OTHER_INTERFACE, Fault::Interface)?);
    assert!(rt; is_body_refused(alloc, false, 3, &[0, 0, 0, 0], Fault::Interface)?);
    assert!(rt; is_body_refused(alloc, true, 6, TOO_MANY_KEPT, Fault::Length)?);
    assert!(rt; is_body_refused(alloc, true, 6, &[0, 0, 0, 0], Fault::Length)?);
    assert!(rt; is_body_refused(alloc, true, 3, &[], Fault::Length)?);
    assert!(rt; is_body_refused(alloc, false, 1, &[1, 0, 0, 0], Fault::Length)?);
    assert!(rt; is_body_refused(alloc, false, 1, TOO_FINE, Fault::Resolution)?);
    Ok(())
}

/// A packet of 100 bytes of which an interface keeps 60, in a block without a moment.
fn is_kept_in_part(alloc: Global) -> Result<bool, AllocError> {
    let mut file = Vec::new(alloc);
    put_section(&mut file, Order::Big, 1)?;
    put_interface(alloc, &mut file, Order::Big, 60, &[])?;
    let mut body = [0; 64];
    body[3] = 100;
    put_block(&mut file, Order::Big, 3, &body)?;
    let wanted = Given {
        packets: 1,
        bytes: 60,
        moment: None,
        link: 1,
        fault: None,
    };
    let place = file.len() as u64;
    Ok(gives(alloc, file.as_slice(), wanted, 0, place))
}

#[test]
fn a_packet_without_a_moment_is_kept_as_far_as_its_interface_says(
    rt: HostRuntime,
) -> Result<(), Fail> {
    assert!(rt; is_kept_in_part(rt.alloc())?);
    Ok(())
}
