//! Numbers, bits, moments, statuses and Guids: bytes and what they spell.

use std::alloc::Global;
use ua_test_shared::spelling::{Shown, spells};
use ua_value::{DateTime, DoubleBits, FloatBits, Guid, StatusCode, Wire};

/// An equal value.
#[derive(Clone, Copy)]
struct Is<T>(T);

impl<T: PartialEq> Shown<T> for Is<T> {
    fn is_shown(&self, value: &T) -> bool {
        *value == self.0
    }
}

/// Whether the first bytes of these are what is written for the value, and nothing shorter.
fn is_number<T: Wire + PartialEq + Copy>(
    alloc: Global,
    bytes: &[u8],
    used: usize,
    value: T,
) -> bool {
    used <= bytes.len() && spells::<T, Is<T>>(alloc, bytes, used, &bytes[..used], &Is(value))
}

/// Bytes, the value that they begin with, and what is written for it.
const BOOLEANS: [(&[u8], bool, &[u8]); 4] = [
    (&[0x00], false, &[0x00]),
    (&[0x01], true, &[0x01]),
    (&[0xff], true, &[0x01]),
    (&[0x02, 0x00], true, &[0x01]),
];

#[test]
fn any_byte_but_zero_is_true(rt: HostRuntime) {
    for (bytes, value, canon) in &BOOLEANS {
        assert!(rt;
            spells::<bool, Is<bool>>(rt.alloc(), bytes, 1, canon, &Is(*value)),
            "{bytes:?}"
        );
    }
}

const NUMBER: &[u8] = &[0xfe, 0xff, 0xff, 0x7f, 0x01, 0x00, 0x00, 0x80];

fn are_short_numbers(alloc: Global) -> bool {
    is_number::<u8>(alloc, NUMBER, 1, 0xfe)
        && is_number::<i8>(alloc, NUMBER, 1, -2)
        && is_number::<u16>(alloc, NUMBER, 2, 0xfffe)
        && is_number::<i16>(alloc, NUMBER, 2, -2)
}

fn are_long_numbers(alloc: Global) -> bool {
    is_number::<u32>(alloc, NUMBER, 4, 0x7fff_fffe)
        && is_number::<i32>(alloc, NUMBER, 4, 0x7fff_fffe)
        && is_number::<u64>(alloc, NUMBER, 8, 0x8000_0001_7fff_fffe)
        && is_number::<i64>(alloc, NUMBER, 8, -0x7fff_fffe_8000_0002)
}

#[test]
fn numbers_have_the_low_byte_first(rt: HostRuntime) {
    assert!(rt; are_short_numbers(rt.alloc()));
    assert!(rt; are_long_numbers(rt.alloc()));
}

const BITS: &[u8] = &[0x01, 0x00, 0x00, 0x00, 0x00, 0x00, 0xf8, 0xff];

fn are_kept(alloc: Global) -> bool {
    is_number(alloc, &[0x00, 0x00, 0xd0, 0xc0], 4, FloatBits(0xc0d0_0000))
        && is_number(alloc, &[0x01, 0x00, 0xc0, 0x7f], 4, FloatBits(0x7fc0_0001))
        && is_number(alloc, BITS, 8, DoubleBits(0xfff8_0000_0000_0001))
        && is_number(alloc, BITS, 8, DateTime(-0x0007_ffff_ffff_ffff))
        && is_number(alloc, &[0x00, 0x00, 0x7e, 0x80], 4, StatusCode(0x807e_0000))
}

#[test]
fn bits_dates_and_statuses_are_kept(rt: HostRuntime) {
    assert!(rt; are_kept(rt.alloc()));
}

const GUID_BYTES: &[u8] = &[
    0x91, 0x2b, 0x96, 0x72, 0x75, 0xfa, 0xe6, 0x4a, 0x8d, 0x28, 0xb4, 0x04, 0xdc, 0x7d, 0xaf, 0x63,
];

const GUID: Guid = Guid {
    data1: 0x7296_2b91,
    data2: 0xfa75,
    data3: 0x4ae6,
    data4: [0x8d, 0x28, 0xb4, 0x04, 0xdc, 0x7d, 0xaf, 0x63],
};

fn guids_mix_orders(alloc: Global) -> bool {
    is_number(alloc, GUID_BYTES, 16, GUID)
        && is_number::<[u8; 8]>(alloc, &GUID_BYTES[8..], 8, GUID.data4)
}

fn is_guid_shown(alloc: Global, text: &str) -> bool {
    match GUID.text(alloc) {
        Ok(shown) => shown.as_str() == text,
        Err(_) => false,
    }
}

#[test]
fn guids_mix_the_orders_of_bytes(rt: HostRuntime) {
    assert!(rt; guids_mix_orders(rt.alloc()));
    assert!(rt; is_guid_shown(rt.alloc(), "72962b91-fa75-4ae6-8d28-b404dc7daf63"));
}
