//! What takes no memory: values whose types hold none, and counts that say more than the bytes behind them, which are refused before any room is
//! asked for. These tests are run with their first growth refused, too (tools/refuse-growths).

use crate::frames::AGREED;
use std::alloc::Global;
use ua_frame::{Ack, frame_at};
use ua_test_shared::spelling::are_refused;
use ua_test_shared::vectors::ACKNOWLEDGE;
use ua_value::{Array, DateTime, Guid, NodeId, StatusCode, UaBytes, UaString, Wire};

/// Whether the bytes are read as a value that equals this one, and so is a copy of it.
fn is_read<T: Wire + PartialEq>(alloc: Global, bytes: &[u8], value: &T) -> bool {
    if bytes.len() > 1000 {
        return false;
    }
    match T::read(alloc, bytes) {
        Ok((found, used)) => found == *value && used == bytes.len() && is_copied(value),
        Err(_) => false,
    }
}

fn is_copied<T: Wire + PartialEq>(value: &T) -> bool {
    match value.copy() {
        Ok(copy) => copy == *value,
        Err(_) => false,
    }
}

const GUID: Guid = Guid {
    data1: 1,
    data2: 2,
    data3: 3,
    data4: [1, 2, 3, 4, 5, 6, 7, 8],
};

#[test]
fn plain_values_are_read_without_memory(rt: HostRuntime) {
    let alloc = rt.alloc();
    assert!(rt; is_read(alloc, &[0, 0, 2, 0], &131_072u32));
    assert!(rt; is_read(alloc, &[0, 0, 2, 0], &StatusCode(131_072)));
    assert!(rt; is_read(alloc, &[1], &true));
    assert!(rt; is_read(alloc, &[0, 1], &256u16));
    assert!(rt; is_read(alloc, &[0, 0, 2, 0, 0, 0, 0, 0], &DateTime(131_072)));
    let guid: &[u8] = &[1, 0, 0, 0, 2, 0, 3, 0, 1, 2, 3, 4, 5, 6, 7, 8];
    assert!(rt; is_read(alloc, guid, &GUID));
}

fn null_id_is_read(alloc: Global) -> bool {
    is_read(alloc, &[0, 0], &NodeId::null())
}

fn null_array_is_read(alloc: Global) -> bool {
    is_read(alloc, &[0xff, 0xff, 0xff, 0xff], &Array::<UaString>::null())
}

#[test]
fn nulls_are_read_without_memory(rt: HostRuntime) {
    assert!(rt; null_id_is_read(rt.alloc()));
    assert!(rt; null_array_is_read(rt.alloc()));
}

fn is_acknowledge(bytes: &[u8]) -> bool {
    match frame_at(bytes, 28) {
        Ok(Some(frame)) => Ack::read(&frame) == Ok(AGREED),
        _ => false,
    }
}

#[test]
fn an_acknowledge_is_read_without_memory(rt: HostRuntime) {
    assert!(rt; is_acknowledge(ACKNOWLEDGE));
}

/// 65536, 3 and 2147483647 items, of which not enough bytes are there.
const COUNTS: [&[u8]; 3] = [
    &[0, 0, 1, 0],
    &[3, 0, 0, 0, 1, 1],
    &[0xff, 0xff, 0xff, 0x7f, 1, 1, 1],
];

#[test]
fn counts_beyond_the_bytes_are_refused_without_memory(rt: HostRuntime) {
    let alloc = rt.alloc();
    assert!(rt; are_refused::<Array<u8>>(alloc, &COUNTS));
    assert!(rt; are_refused::<Array<UaString>>(alloc, &COUNTS));
    assert!(rt; are_refused::<UaString>(alloc, &COUNTS));
    assert!(rt; are_refused::<UaBytes>(alloc, &COUNTS));
}
