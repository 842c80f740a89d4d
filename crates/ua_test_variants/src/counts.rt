//! What takes no memory: values whose types hold none, and counts that say more than the bytes behind them, which are refused before any room is
//! asked for. These tests are run with their first growth refused, too (tools/refuse-growths).

use crate::making::data_of;
use ua_test_shared::spelling::are_refused;
use ua_variant::{DataValue, Variant};

/// Whether the DataValue of the null Variant is made.
fn is_made() -> bool {
    match data_of(Variant::null()) {
        Ok(value) => value.depth() == 2,
        Err(_) => false,
    }
}

#[test]
fn a_data_value_is_made_without_memory(rt: HostRuntime) {
    assert!(rt; is_made());
}

/// Arrays of Int32, of Variants and of texts with dimensions.
const VARIANTS: [&[u8]; 3] = [
    &[0x86, 0, 0, 1, 0],
    &[0x98, 3, 0, 0, 0, 0, 0],
    &[0xcc, 0xff, 0xff, 0xff, 0x7f, 1],
];

/// The same as values of DataValues.
const DATA: [&[u8]; 3] = [
    &[0x01, 0x86, 0, 0, 1, 0],
    &[0x03, 0x98, 3, 0, 0, 0, 0, 0],
    &[0x01, 0xcc, 0xff, 0xff, 0xff, 0x7f, 1],
];

#[test]
fn arrays_beyond_the_bytes_are_refused_without_memory(rt: HostRuntime) {
    let alloc = rt.alloc();
    assert!(rt; are_refused::<Variant>(alloc, &VARIANTS));
    assert!(rt; are_refused::<DataValue>(alloc, &DATA));
}
