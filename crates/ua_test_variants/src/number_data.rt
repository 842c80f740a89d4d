//! DataValues of each kind of number, for which there is a short way: by themselves, in the list of a Variant, in an array of their own;
//! and those of a text, which go the long way.

use std::alloc::{AllocError, Global};
use ua_test_shared::memory::is_full_or_no_memory;
use ua_test_shared::spelling::{Any, are_spelled, is_refused, is_whole, spells};
use ua_value::{Array, ReadFault, Wire};
use ua_variant::{DataValue, Variant};

/// A value of each kind of number, and a text, behind its kind.
pub(crate) const VALUES: [&[u8]; 12] = [
    &[0x01, 1],
    &[0x02, 0xfe],
    &[0x03, 0xfe],
    &[0x04, 0xfe, 0xff],
    &[0x05, 0x01, 0x02],
    &[0x06, 1, 2, 3, 4],
    &[0x07, 0xff, 2, 3, 0xfe],
    &[0x08, 1, 2, 3, 4, 5, 6, 7, 8],
    &[0x09, 0xff, 2, 3, 4, 5, 6, 7, 0xfe],
    &[0x0a, 0, 0, 0xd0, 0xc0],
    &[0x0b, 1, 2, 3, 4, 5, 6, 7, 0x40],
    &[0x0c, 1, 0, 0, 0, b'a'],
];

/// What may stand behind the value, each with its bit: the status, the moment at the source and its picoseconds, and those at the server.
const PARTS: [(u8, &[u8]); 5] = [
    (0x02, &[0, 0, 0x34, 0x80]),
    (0x04, &[11, 12, 13, 14, 15, 16, 17, 18]),
    (0x10, &[1, 2]),
    (0x08, &[21, 22, 23, 24, 25, 26, 27, 28]),
    (0x20, &[3, 4]),
];

/// The parts that the mask flags.
fn put_parts(bytes: &mut Vec<u8>, mask: u8) -> Result<(), AllocError> {
    for (bit, part) in &PARTS {
        if mask & *bit != 0 {
            bytes.extend_from_slice(part)?;
        }
    }
    Ok(())
}

/// Puts a DataValue of the value under the mask.
fn put_data(bytes: &mut Vec<u8>, value: &[u8], mask: u8) -> Result<(), AllocError> {
    bytes.push(mask | 0x01)?;
    bytes.extend_from_slice(value)?;
    put_parts(bytes, mask)
}

/// A DataValue of the value under the mask.
pub(crate) fn data_bytes(alloc: Global, value: &[u8], mask: u8) -> Result<Vec<u8>, AllocError> {
    let mut bytes = Vec::new(alloc);
    put_data(&mut bytes, value, mask)?;
    Ok(bytes)
}

/// What stands in front, and two DataValues of the value: one with nothing else, one with each part.
fn two_bytes(alloc: Global, front: &[u8], value: &[u8]) -> Result<Vec<u8>, AllocError> {
    let mut bytes = front.to_vec(alloc)?;
    put_data(&mut bytes, value, 0)?;
    put_data(&mut bytes, value, 0x3e)?;
    Ok(bytes)
}

/// What stands in front, and the value three times, without its kind.
pub(crate) fn three_bytes(alloc: Global, value: &[u8]) -> Result<Vec<u8>, AllocError> {
    let Some((kind, value)) = value.split_first() else {
        return Ok(Vec::new(alloc));
    };
    let mut bytes = [*kind | 0x80, 3, 0, 0, 0].to_vec(alloc)?;
    for _ in 0..3 {
        bytes.extend_from_slice(value)?;
    }
    Ok(bytes)
}

/// Whether a value goes all the way; or also whether it does as far as memory goes.
fn goes<T: Wire>(alloc: Global, made: Result<Vec<u8>, AllocError>, is_ample: bool) -> bool {
    match made {
        Ok(bytes) => {
            if is_ample {
                is_whole::<T, Any>(alloc, &bytes, &Any)
            } else {
                is_full_or_no_memory::<T>(alloc, &bytes)
            }
        }
        Err(_) => !is_ample,
    }
}

/// The two in the list of a Variant.
fn are_listed(alloc: Global, is_ample: bool) -> bool {
    let mut all = true;
    for value in &VALUES {
        let made = two_bytes(alloc, &[0x97, 2, 0, 0, 0], value);
        all &= goes::<Variant>(alloc, made, is_ample);
    }
    all
}

/// The two in the list of a Variant that stands in a DataValue.
fn are_listed_inside(alloc: Global, is_ample: bool) -> bool {
    let mut all = true;
    for value in &VALUES {
        let made = two_bytes(alloc, &[0x01, 0x97, 2, 0, 0, 0], value);
        all &= goes::<DataValue>(alloc, made, is_ample);
    }
    all
}

/// The two in an array of DataValues.
fn are_arrays(alloc: Global, is_ample: bool) -> bool {
    let mut all = true;
    for value in &VALUES {
        let made = two_bytes(alloc, &[2, 0, 0, 0], value);
        all &= goes::<Array<DataValue>>(alloc, made, is_ample);
    }
    all
}

/// Three values in the list of a Variant.
fn are_values_listed(alloc: Global, is_ample: bool) -> bool {
    let mut all = true;
    for value in &VALUES {
        all &= goes::<Variant>(alloc, three_bytes(alloc, value), is_ample);
    }
    all
}

/// A DataValue of each value, under a mask.
fn are_alone(alloc: Global, mask: u8, is_ample: bool) -> bool {
    let mut all = true;
    for value in &VALUES {
        let made = data_bytes(alloc, value, mask);
        all &= goes::<DataValue>(alloc, made, is_ample);
    }
    all
}

/// The same under each mask.
fn are_alone_under_each_mask(alloc: Global) -> bool {
    let mut all = true;
    for mask in 0..32u8 {
        all &= are_alone(alloc, mask << 1, true);
    }
    all
}

#[test]
fn data_values_of_each_kind_of_number_go_all_the_way(rt: HostRuntime) {
    let alloc = rt.alloc();
    assert!(rt; are_alone_under_each_mask(alloc));
    assert!(rt; are_listed(alloc, true));
    assert!(rt; are_listed_inside(alloc, true));
    assert!(rt; are_arrays(alloc, true));
    assert!(rt; are_values_listed(alloc, true));
}

#[test]
fn data_values_of_each_kind_of_number_or_no_memory(rt: HostRuntime) {
    let alloc = rt.alloc();
    assert!(rt; are_alone(alloc, 0, false));
    assert!(rt; are_alone(alloc, 0x3e, false));
}

#[test]
fn lists_of_data_values_of_each_kind_of_number_or_no_memory(rt: HostRuntime) {
    assert!(rt; are_listed(rt.alloc(), false));
    assert!(rt; are_listed_inside(rt.alloc(), false));
}

#[test]
fn arrays_of_data_values_of_each_kind_of_number_or_no_memory(rt: HostRuntime) {
    assert!(rt; are_arrays(rt.alloc(), false));
}

#[test]
fn lists_of_each_kind_of_number_or_no_memory(rt: HostRuntime) {
    assert!(rt; are_values_listed(rt.alloc(), false));
}

/// Two of a UInt16 and of a Double with a status; a true that is spelled otherwise.
const SPELLED: [(&[u8], &[u8]); 2] = [
    (
        &[
            0x97, 2, 0, 0, 0, 0x01, 0x05, 1, 0, 0x03, 0x0b, 1, 2, 3, 4, 5, 6, 7, 8, 0, 0, 0x34,
            0x80,
        ],
        &[
            0x97, 2, 0, 0, 0, 0x01, 0x05, 1, 0, 0x03, 0x0b, 1, 2, 3, 4, 5, 6, 7, 8, 0, 0, 0x34,
            0x80,
        ],
    ),
    (
        &[0x97, 1, 0, 0, 0, 0x01, 0x01, 0xff],
        &[0x97, 1, 0, 0, 0, 0x01, 0x01, 1],
    ),
];

/// A Double without its last byte.
const CUT: &[u8] = &[0x97, 1, 0, 0, 0, 0x01, 0x0b, 1, 2, 3, 4, 5, 6, 7];

#[test]
fn lists_of_data_values_are_spelled(rt: HostRuntime) {
    let alloc = rt.alloc();
    assert!(rt; are_spelled::<Variant>(alloc, &SPELLED));
    assert!(rt; spells::<Variant, Any>(alloc, SPELLED[0].0, 23, SPELLED[0].1, &Any));
    assert!(rt; is_refused::<Variant>(alloc, CUT));
}

/// Some bytes, and behind them none that begin a Variant, a DataValue or a DiagnosticInfo.
fn ahead_of_none(front: &[u8]) -> [u8; 16384] {
    let mut bytes = [0xfe; 16384];
    for (byte, first) in bytes.iter_mut().zip(front) {
        *byte = *first;
    }
    bytes
}

/// Whether so many bytes are refused that begin with these.
fn is_refused_ahead_of_none<T: Wire>(alloc: Global, front: &[u8], len: usize) -> bool {
    let all = ahead_of_none(front);
    match all.get(..len) {
        Some(bytes) => matches!(T::read(alloc, bytes), Err(ReadFault::Refused)),
        None => false,
    }
}

/// A list of one Variant, which is a list of 16000 Variants, DataValues or DiagnosticInfos, of which one is there.
const LISTS_INSIDE: [&[u8]; 3] = [
    &[0x98, 1, 0, 0, 0, 0x98, 0x80, 0x3e, 0, 0, 0],
    &[0x98, 1, 0, 0, 0, 0x97, 0x80, 0x3e, 0, 0, 0],
    &[0x98, 1, 0, 0, 0, 0x99, 0x80, 0x3e, 0, 0, 0],
];

/// A test whose name ends in `_within_N_kib` is also run with so much memory, and no more (tools/refuse-growths). The bytes behind a count are
/// more than the items that it says, so it is refused only where they begin no item; what is asked for until then follows what was read.
#[test]
fn a_great_count_inside_a_list_is_refused_within_8_kib(rt: HostRuntime) {
    let alloc = rt.alloc();
    for front in &LISTS_INSIDE {
        assert!(rt; is_refused_ahead_of_none::<Variant>(alloc, front, 16384));
    }
}

/// Sixteen KiB could hold 2,047 DataValues of eight bytes, of which the first asks for room for 64.
#[test]
fn a_great_count_of_data_values_is_refused_within_16_kib(rt: HostRuntime) {
    let front = [0x80, 0x3e, 0, 0, 0];
    assert!(rt; is_refused_ahead_of_none::<Array<DataValue>>(rt.alloc(), &front, 16384));
}

/// So few bytes could hold 20 DataValues of eight bytes, whatever the count says.
#[test]
fn a_count_of_data_values_asks_for_what_the_bytes_hold_within_8_kib(rt: HostRuntime) {
    let front = [150, 0, 0, 0, 0];
    assert!(rt; is_refused_ahead_of_none::<Array<DataValue>>(rt.alloc(), &front, 170));
}
