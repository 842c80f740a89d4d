//! Moments by the clocks of interfaces.

use crate::making::{Order, four_of, put_enhanced, put_interface, put_section};
use crate::reading::{Given, gives};
use std::alloc::{AllocError, Global};
use std::test::Fail;

/// Whether 1700000000000000 ticks of an interface with these options make this moment.
fn is_moment(alloc: Global, options: &[u8], moment: u64) -> Result<bool, AllocError> {
    let packet = four_of(alloc, &[2, 0, 0, 0, 0, 2, 2, 0, 0, 0, 0, 1, 8, 0])?;
    let mut file = Vec::new(alloc);
    put_section(&mut file, Order::Little, 1)?;
    put_interface(alloc, &mut file, Order::Little, 0, options)?;
    let ticks = (0x00060a24, 0x181e4000);
    put_enhanced(alloc, &mut file, Order::Little, 6, ticks, packet.as_slice())?;
    let wanted = Given {
        packets: 1,
        bytes: 58,
        moment: Some(moment),
        link: 1,
        fault: None,
    };
    let place = file.len() as u64;
    Ok(gives(alloc, file.as_slice(), wanted, 0, place))
}

/// The option `if_tsresol` with this byte.
fn resolution(byte: u8) -> [u8; 8] {
    [9, 0, 1, 0, byte, 0, 0, 0]
}

const LATER: &[u8] = &[14, 0, 8, 0, 1, 0, 0, 0, 0, 0, 0, 0];

const EARLIER: &[u8] = &[14, 0, 8, 0, 0xff, 0xff, 0xff, 0xff, 0xff, 0xff, 0xff, 0xff];

const BEHIND_A_NAME: &[u8] = &[2, 0, 3, 0, b'e', b't', b'h', 0, 9, 0, 1, 0, 9, 0, 0, 0];

const BEHIND_THE_END: &[u8] = &[0, 0, 0, 0, 9, 0, 1, 0, 9, 0, 0, 0];

#[test]
fn moments_are_those_of_the_interfaces_clock(rt: HostRuntime) -> Result<(), Fail> {
    let alloc = rt.alloc();
    assert!(rt; is_moment(alloc, &[], 1700000000000000000)?);
    assert!(rt; is_moment(alloc, &resolution(6), 1700000000000000000)?);
    assert!(rt; is_moment(alloc, &resolution(9), 1700000000000000)?);
    assert!(rt; is_moment(alloc, &resolution(12), 1700000000000)?);
    assert!(rt; is_moment(alloc, &resolution(3), 18446744073709551615)?);
    assert!(rt; is_moment(alloc, &resolution(0xa0), 395812094211578)?);
    Ok(())
}

#[test]
fn an_interface_may_add_seconds_to_its_moments(rt: HostRuntime) -> Result<(), Fail> {
    let alloc = rt.alloc();
    assert!(rt; is_moment(alloc, LATER, 1700000001000000000)?);
    assert!(rt; is_moment(alloc, EARLIER, 1699999999000000000)?);
    Ok(())
}

#[test]
fn options_are_found_behind_others_and_not_behind_their_end(rt: HostRuntime) -> Result<(), Fail> {
    let alloc = rt.alloc();
    assert!(rt; is_moment(alloc, BEHIND_A_NAME, 1700000000000000)?);
    assert!(rt; is_moment(alloc, BEHIND_THE_END, 1700000000000000000)?);
    Ok(())
}
