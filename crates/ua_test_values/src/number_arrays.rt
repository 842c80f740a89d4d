//! Arrays of numbers: bytes and what they spell, for each type of numbers and for counts around those that go at a time.

use std::alloc::Global;
use ua_test_shared::bytes::both;
use ua_test_shared::memory::is_full_or_no_memory;
use ua_test_shared::spelling::{Shown, is_refused, is_whole};
use ua_value::{Array, DateTime, DoubleBits, FloatBits, StatusCode, Wire};

/// The items of an array.
#[derive(Drop)]
struct Items<'a, T>(&'a [T]);

impl<T: Wire + PartialEq> Shown<Array<T>> for Items<'_, T> {
    fn is_shown(&self, array: &Array<T>) -> bool {
        match array.get() {
            Some(items) => items == self.0,
            None => false,
        }
    }
}

/// Whether the bytes behind their count spell the items, and no shorter beginning spells an array.
fn is_array<T: Wire + PartialEq>(alloc: Global, count: u8, bytes: &[u8], items: &[T]) -> bool {
    match both(alloc, &[count, 0, 0, 0], bytes) {
        Ok(whole) => is_whole::<Array<T>, Items<T>>(alloc, &whole, &Items(items)),
        Err(_) => false,
    }
}

/// The same of the first of them, where each takes so many bytes.
fn is_array_of<T: Wire + PartialEq>(
    alloc: Global,
    count: u8,
    width: usize,
    bytes: &[u8],
    items: &[T],
) -> bool {
    if width > 8 {
        return false;
    }
    let end = count as usize * width;
    end <= bytes.len()
        && count as usize <= items.len()
        && is_array(alloc, count, &bytes[..end], &items[..count as usize])
}

const COUNTS: [u8; 7] = [0, 1, 3, 4, 5, 8, 9];

fn are_arrays<T: Wire + PartialEq>(alloc: Global, width: usize, bytes: &[u8], items: &[T]) -> bool {
    let mut all = true;
    for count in &COUNTS {
        if !is_array_of(alloc, *count, width, bytes, items) {
            all = false;
        }
    }
    all
}

const ONES: &[u8] = &[0x01, 0xff, 0x80, 0x7f, 0x02, 0x00, 0xfe, 0x10, 0x81];

const TWOS: &[u8] = &[
    0x01, 0x00, 0xff, 0xff, 0x00, 0x80, 0xfe, 0x7f, 0x02, 0x01, 0x00, 0x00, 0xff, 0x00, 0x00, 0xff,
    0x34, 0x12,
];

const FOURS: &[u8] = &[
    0x01, 0x00, 0x00, 0x00, 0xff, 0xff, 0xff, 0xff, 0x00, 0x00, 0x00, 0x80, 0xfe, 0xff, 0xff, 0x7f,
    0x04, 0x03, 0x02, 0x01, 0x00, 0x00, 0x00, 0x00, 0xff, 0x00, 0x00, 0x00, 0x00, 0x00, 0x00, 0xff,
    0x78, 0x56, 0x34, 0x12,
];

const EIGHTS: &[u8] = &[
    0x01, 0x00, 0x00, 0x00, 0x00, 0x00, 0x00, 0x00, 0xff, 0xff, 0xff, 0xff, 0xff, 0xff, 0xff, 0xff,
    0x00, 0x00, 0x00, 0x00, 0x00, 0x00, 0x00, 0x80, 0xfe, 0xff, 0xff, 0xff, 0xff, 0xff, 0xff, 0x7f,
    0x08, 0x07, 0x06, 0x05, 0x04, 0x03, 0x02, 0x01, 0x00, 0x00, 0x00, 0x00, 0x00, 0x00, 0x00, 0x00,
    0xff, 0x00, 0x00, 0x00, 0x00, 0x00, 0x00, 0x00, 0x00, 0x00, 0x00, 0x00, 0x00, 0x00, 0x00, 0xff,
    0xf0, 0xde, 0xbc, 0x9a, 0x78, 0x56, 0x34, 0x12,
];

fn are_ones(alloc: Global) -> bool {
    are_arrays::<u8>(alloc, 1, ONES, &[1, 255, 128, 127, 2, 0, 254, 16, 129])
        && are_arrays::<i8>(alloc, 1, ONES, &[1, -1, -128, 127, 2, 0, -2, 16, -127])
}

const WORDS: &[u16] = &[1, 0xffff, 0x8000, 0x7ffe, 0x0102, 0, 0x00ff, 0xff00, 0x1234];

const SIGNED_WORDS: &[i16] = &[1, -1, -0x8000, 0x7ffe, 0x0102, 0, 255, -256, 0x1234];

fn are_twos(alloc: Global) -> bool {
    are_arrays::<u16>(alloc, 2, TWOS, WORDS) && are_arrays::<i16>(alloc, 2, TWOS, SIGNED_WORDS)
}

const FOURS_UNSIGNED: &[u32] = &[
    1,
    0xffff_ffff,
    0x8000_0000,
    0x7fff_fffe,
    0x0102_0304,
    0,
    0x0000_00ff,
    0xff00_0000,
    0x1234_5678,
];

const FOURS_SIGNED: &[i32] = &[
    1,
    -1,
    -0x8000_0000,
    0x7fff_fffe,
    0x0102_0304,
    0,
    255,
    -0x0100_0000,
    0x1234_5678,
];

const FLOATS: &[FloatBits] = &[
    FloatBits(1),
    FloatBits(0xffff_ffff),
    FloatBits(0x8000_0000),
    FloatBits(0x7fff_fffe),
    FloatBits(0x0102_0304),
    FloatBits(0),
    FloatBits(0x0000_00ff),
    FloatBits(0xff00_0000),
    FloatBits(0x1234_5678),
];

const STATUSES: &[StatusCode] = &[
    StatusCode(1),
    StatusCode(0xffff_ffff),
    StatusCode(0x8000_0000),
    StatusCode(0x7fff_fffe),
    StatusCode(0x0102_0304),
    StatusCode(0),
    StatusCode(0x0000_00ff),
    StatusCode(0xff00_0000),
    StatusCode(0x1234_5678),
];

fn are_fours(alloc: Global) -> bool {
    are_arrays::<u32>(alloc, 4, FOURS, FOURS_UNSIGNED)
        && are_arrays::<i32>(alloc, 4, FOURS, FOURS_SIGNED)
        && are_arrays::<FloatBits>(alloc, 4, FOURS, FLOATS)
        && are_arrays::<StatusCode>(alloc, 4, FOURS, STATUSES)
}

const EIGHTS_UNSIGNED: &[u64] = &[
    1,
    0xffff_ffff_ffff_ffff,
    0x8000_0000_0000_0000,
    0x7fff_ffff_ffff_fffe,
    0x0102_0304_0506_0708,
    0,
    0x0000_0000_0000_00ff,
    0xff00_0000_0000_0000,
    0x1234_5678_9abc_def0,
];

const EIGHTS_SIGNED: &[i64] = &[
    1,
    -1,
    -0x8000_0000_0000_0000,
    0x7fff_ffff_ffff_fffe,
    0x0102_0304_0506_0708,
    0,
    255,
    -0x0100_0000_0000_0000,
    0x1234_5678_9abc_def0,
];

const DOUBLES: &[DoubleBits] = &[
    DoubleBits(1),
    DoubleBits(0xffff_ffff_ffff_ffff),
    DoubleBits(0x8000_0000_0000_0000),
    DoubleBits(0x7fff_ffff_ffff_fffe),
    DoubleBits(0x0102_0304_0506_0708),
    DoubleBits(0),
    DoubleBits(0x0000_0000_0000_00ff),
    DoubleBits(0xff00_0000_0000_0000),
    DoubleBits(0x1234_5678_9abc_def0),
];

const DATES: &[DateTime] = &[
    DateTime(1),
    DateTime(-1),
    DateTime(-0x8000_0000_0000_0000),
    DateTime(0x7fff_ffff_ffff_fffe),
    DateTime(0x0102_0304_0506_0708),
    DateTime(0),
    DateTime(255),
    DateTime(-0x0100_0000_0000_0000),
    DateTime(0x1234_5678_9abc_def0),
];

fn are_eights(alloc: Global) -> bool {
    are_arrays::<u64>(alloc, 8, EIGHTS, EIGHTS_UNSIGNED)
        && are_arrays::<i64>(alloc, 8, EIGHTS, EIGHTS_SIGNED)
        && are_arrays::<DoubleBits>(alloc, 8, EIGHTS, DOUBLES)
        && are_arrays::<DateTime>(alloc, 8, EIGHTS, DATES)
}

#[test]
fn arrays_of_each_type_of_numbers(rt: HostRuntime) {
    let alloc = rt.alloc();
    assert!(rt; are_ones(alloc));
    assert!(rt; are_twos(alloc));
    assert!(rt; are_fours(alloc));
    assert!(rt; are_eights(alloc));
}

/// Whether an array of nine items goes all the way, or ends for want of memory.
fn is_full<T: Wire>(alloc: Global, bytes: &[u8]) -> bool {
    match both(alloc, &[9, 0, 0, 0], bytes) {
        Ok(whole) => is_full_or_no_memory::<Array<T>>(alloc, &whole),
        Err(_) => true,
    }
}

#[test]
fn arrays_of_numbers_or_no_memory(rt: HostRuntime) {
    let alloc = rt.alloc();
    assert!(rt; is_full::<u8>(alloc, ONES) && is_full::<i8>(alloc, ONES));
    assert!(rt; is_full::<u16>(alloc, TWOS) && is_full::<i16>(alloc, TWOS));
    assert!(rt; is_full::<u32>(alloc, FOURS) && is_full::<i32>(alloc, FOURS));
    assert!(rt; is_full::<FloatBits>(alloc, FOURS) && is_full::<StatusCode>(alloc, FOURS));
    assert!(rt; is_full::<u64>(alloc, EIGHTS) && is_full::<i64>(alloc, EIGHTS));
    assert!(rt; is_full::<DoubleBits>(alloc, EIGHTS) && is_full::<DateTime>(alloc, EIGHTS));
}

/// Two Int32s or Floats, but for a byte.
const SHORT: &[u8] = &[2, 0, 0, 0, 1, 0, 0, 0, 2, 0, 0];

#[test]
fn short_arrays_of_numbers_are_refused_without_memory(rt: HostRuntime) {
    let alloc = rt.alloc();
    assert!(rt; is_refused::<Array<i32>>(alloc, SHORT));
    assert!(rt; is_refused::<Array<FloatBits>>(alloc, SHORT));
    assert!(rt; is_refused::<Array<u64>>(alloc, SHORT));
}
