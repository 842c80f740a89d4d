//! Lists of applications, endpoints and user identities: of one item and of many, and with counts that lie.
//!
//! A test whose name ends in `_within_N_kib` is also run with so much memory, and no more (tools/refuse-growths): what a count makes a reader ask
//! for follows what was read.

use std::alloc::Global;
use ua_service::{ApplicationDescription, EndpointDescription, UserTokenPolicy};
use ua_value::{Array, ReadFault, UaString, Wire};

/// The bytes of an item, and the place of the one that tells it from others.
#[derive(Clone, Copy)]
struct Item(&'static [u8], usize);

/// A policy id of one letter, a kind of identity, and no other text.
const TOKEN: Item = Item(
    b"\x01\0\0\0a\0\0\0\0\xff\xff\xff\xff\xff\xff\xff\xff\xff\xff\xff\xff",
    5,
);

/// A text, no other and no name, a kind of application, no texts and no list.
const APPLICATION: Item = Item(
    b"\x01\0\0\0b\xff\xff\xff\xff\0\0\0\0\0\xff\xff\xff\xff\xff\xff\xff\xff\xff\xff\xff\xff",
    10,
);

/// A url, an application without texts, no certificate, a mode, a policy, three user identities, a transport, a level.
const ENDPOINT: Item = Item(
    b"\x01\0\0\0c\xff\xff\xff\xff\xff\xff\xff\xff\0\0\0\0\0\xff\xff\xff\xff\xff\xff\xff\xff\0\0\0\0\xff\xff\xff\xff\x01\0\0\0\x01\0\0\0p\x03\0\0\0\x01\0\0\0a\0\0\0\0\xff\xff\xff\xff\xff\xff\xff\xff\xff\xff\xff\xff\x01\0\0\0b\x01\0\0\0\xff\xff\xff\xff\xff\xff\xff\xff\xff\xff\xff\xff\x01\0\0\0c\x02\0\0\0\xff\xff\xff\xff\xff\xff\xff\xff\xff\xff\xff\xff\x01\0\0\0t\0",
    115,
);

/// The byte at a place of the items, each of which has its number in the place that is its own.
fn byte_of(item: Item, place: usize) -> u8 {
    let Item(bytes, own) = item;
    if bytes.is_empty() {
        return 0;
    }
    let within = place % bytes.len();
    if within == own {
        return (place / bytes.len() % 256) as u8;
    }
    *bytes.get(within).unwrap_or(&0)
}

/// A count, and behind it so many items and nothing but bytes that begin no item.
fn spelled(item: Item, count: u32, items: usize) -> [u8; 16384] {
    let mut bytes = [0xfe; 16384];
    for (place, byte) in bytes.iter_mut().enumerate() {
        let number = count.to_le_bytes();
        if let Some(digit) = number.get(place) {
            *byte = *digit;
        } else if place >= 4 && (place - 4) / item.0.len().max(1) < items {
            *byte = byte_of(item, place - 4);
        }
    }
    bytes
}

/// Whether the bytes are written for the list, which has so many items and no room for more.
fn is_list<T: Wire>(alloc: Global, list: Array<T>, count: usize, bytes: &[u8]) -> bool {
    let mut out = Vec::new(alloc);
    let is_written = list.write(&mut out).is_ok() && out.as_slice() == bytes;
    match list.into_vec() {
        Some(items) => is_written && items.len() == count && items.capacity() == count,
        None => false,
    }
}

/// Whether a list of so many of the items is read whole.
fn is_read<T: Wire>(alloc: Global, item: Item, count: u8) -> bool {
    let all = spelled(item, count as u32, count as usize);
    let Some(bytes) = all.get(..4 + item.0.len().min(1000) * count as usize) else {
        return false;
    };
    match Array::<T>::read(alloc, bytes) {
        Ok((list, used)) => used == bytes.len() && is_list(alloc, list, count as usize, bytes),
        Err(_) => false,
    }
}

/// None, one and a few; more than the first room, and more than the second; each with all that its items hold.
const COUNTS: [u8; 10] = [0, 1, 2, 3, 4, 5, 63, 64, 65, 130];

#[test]
fn lists_of_structures_are_read_whole_and_have_room_for_their_items(rt: HostRuntime) {
    let alloc = rt.alloc();
    for count in &COUNTS {
        assert!(rt; is_read::<UserTokenPolicy>(alloc, TOKEN, *count), "{count}");
        assert!(rt;
            is_read::<ApplicationDescription>(alloc, APPLICATION, *count),
            "{count}"
        );
        assert!(rt;
            is_read::<EndpointDescription>(alloc, ENDPOINT, *count),
            "{count}"
        );
    }
}

/// Whether two of the items are read and written, or memory runs out.
fn are_two_or_no_memory<T: Wire>(alloc: Global, item: Item) -> bool {
    let all = spelled(item, 2, 2);
    let Some(bytes) = all.get(..4 + item.0.len().min(1000) * 2) else {
        return false;
    };
    match Array::<T>::read(alloc, bytes) {
        Ok((list, used)) => used == bytes.len() && list.len() == used as u64,
        Err(fault) => fault == ReadFault::NoMemory,
    }
}

#[test]
fn lists_of_two_structures_or_no_memory(rt: HostRuntime) {
    let alloc = rt.alloc();
    assert!(rt; are_two_or_no_memory::<UserTokenPolicy>(alloc, TOKEN));
    assert!(rt; are_two_or_no_memory::<ApplicationDescription>(alloc, APPLICATION));
    assert!(rt; are_two_or_no_memory::<EndpointDescription>(alloc, ENDPOINT));
}

/// Whether a list of this count is refused, of whose so many bytes only the first are an item.
fn is_refused_behind_one<T: Wire>(alloc: Global, item: Item, count: u32, len: usize) -> bool {
    let all = spelled(item, count, 1);
    match all.get(..len) {
        Some(bytes) => matches!(Array::<T>::read(alloc, bytes), Err(ReadFault::Refused)),
        None => false,
    }
}

/// Sixteen KiB could hold 819 user identities of 136 bytes, 655 applications of 232 and 327 endpoints of 408.
#[test]
fn a_great_count_is_refused_behind_one_item_within_64_kib(rt: HostRuntime) {
    let alloc = rt.alloc();
    assert!(rt; is_refused_behind_one::<UserTokenPolicy>(alloc, TOKEN, 16000, 16384));
    assert!(rt; is_refused_behind_one::<ApplicationDescription>(alloc, APPLICATION, 16000, 16384));
    assert!(rt; is_refused_behind_one::<EndpointDescription>(alloc, ENDPOINT, 16000, 16384));
}

/// So few bytes could hold two more items, whatever the count says.
#[test]
fn a_count_asks_for_no_more_than_the_bytes_hold_within_8_kib(rt: HostRuntime) {
    let alloc = rt.alloc();
    assert!(rt; is_refused_behind_one::<UserTokenPolicy>(alloc, TOKEN, 60, 66));
    assert!(rt; is_refused_behind_one::<ApplicationDescription>(alloc, APPLICATION, 70, 80));
    assert!(rt; is_refused_behind_one::<EndpointDescription>(alloc, ENDPOINT, 150, 170));
}

/// Sixteen KiB could hold 4,095 null texts, of 24 bytes each.
#[test]
fn room_before_the_first_item_follows_the_bytes_within_128_kib(rt: HostRuntime) {
    let alloc = rt.alloc();
    assert!(rt;
        is_refused_behind_one::<UaString>(alloc, Item(b"\xff\xff\xff\xff", 4), 16000, 16384)
    );
}
