//! Texts of each length by which the test for ASCII goes another way: each is read whole, or refused, as the rule of UTF-8 says, with a sign of
//! several bytes and with bytes that are none at each place.

use std::alloc::Global;
use ua_value::{ReadFault, UaString, Wire};

/// What stands behind the first sign of a text in UTF-8 (the Unicode Standard, table 3-7), or none where the bytes begin with no sign.
fn behind_a_sign(bytes: &[u8]) -> Option<&[u8]> {
    match bytes {
        [0..=0x7f, behind @ ..] => Some(behind),
        [0xc2..=0xdf, 0x80..=0xbf, behind @ ..] => Some(behind),
        [0xe0, 0xa0..=0xbf, 0x80..=0xbf, behind @ ..] => Some(behind),
        [0xed, 0x80..=0x9f, 0x80..=0xbf, behind @ ..] => Some(behind),
        [0xe1..=0xec, 0x80..=0xbf, 0x80..=0xbf, behind @ ..] => Some(behind),
        [0xee..=0xef, 0x80..=0xbf, 0x80..=0xbf, behind @ ..] => Some(behind),
        [0xf0, 0x90..=0xbf, 0x80..=0xbf, 0x80..=0xbf, behind @ ..] => Some(behind),
        [
            0xf1..=0xf3,
            0x80..=0xbf,
            0x80..=0xbf,
            0x80..=0xbf,
            behind @ ..,
        ] => Some(behind),
        [0xf4, 0x80..=0x8f, 0x80..=0xbf, 0x80..=0xbf, behind @ ..] => Some(behind),
        _ => None,
    }
}

/// Whether the bytes are signs in UTF-8, one behind another.
fn are_signs(bytes: &[u8]) -> bool {
    let mut left = bytes;
    for _ in 0..bytes.len() {
        if let Some(behind) = behind_a_sign(left) {
            left = behind;
        }
    }
    left.is_empty()
}

/// The greatest length of a row.
const MOST: u8 = 64;

/// The byte of a row at a place: letters, and from a place on the bytes that are put there.
fn byte_at(place: usize, at: usize, put: &[u8]) -> u8 {
    let letter = b'a' + (place % 26) as u8;
    if place < at {
        return letter;
    }
    *put.get(place - at).unwrap_or(&letter)
}

/// The text of so many bytes with these from a place on, behind its length; as much of it as there is room for.
fn spelled(len: u8, at: usize, put: &[u8]) -> [u8; 68] {
    let mut bytes = [0; 68];
    bytes[0] = len;
    for place in 0..64 {
        bytes[4 + place] = byte_at(place, at, put);
    }
    bytes
}

fn is_text(value: &UaString, text: &[u8]) -> bool {
    match value.get() {
        Some(got) => got.as_bytes() == text,
        None => false,
    }
}

/// Whether the bytes behind a length in four bytes are read whole where they are a text, and else refused.
fn is_read_by_the_rule(alloc: Global, bytes: &[u8]) -> bool {
    let Some(text) = bytes.get(4..) else {
        return false;
    };
    if bytes.len() > 68 {
        return false;
    }
    match UaString::read(alloc, bytes) {
        Ok((value, used)) => are_signs(text) && used == bytes.len() && is_text(&value, text),
        Err(fault) => !are_signs(text) && fault == ReadFault::Refused,
    }
}

/// The last byte of ASCII and the one behind it, signs of two, three and four bytes, and what is no sign: a first byte without the others, one of the
/// others alone, a byte that is none, more bytes than a sign needs, half a pair.
const PUT: [&[u8]; 11] = [
    b"",
    b"\x7f",
    b"\x80",
    b"\xc2\xb0",
    b"\xe6\xb0\xb4",
    b"\xf0\x9f\x8c\x8a",
    b"\xc3",
    b"\xe6\xb0",
    b"\xff",
    b"\xc0\x80",
    b"\xed\xa0\x80",
];

fn are_read_with(alloc: Global, len: u8, put: &[u8]) -> bool {
    let mut all = true;
    for at in 0..=len {
        let bytes = spelled(len, at as usize, put);
        match bytes.get(..4 + len as usize) {
            Some(bytes) => all &= is_read_by_the_rule(alloc, bytes),
            None => all = false,
        }
    }
    all
}

fn are_read(alloc: Global, len: u8) -> bool {
    let mut all = len <= MOST;
    for put in &PUT {
        all &= are_read_with(alloc, len, put);
    }
    all
}

/// Up to four bytes and about eight and sixteen; about two and three blocks; where another test begins.
const LENGTHS: [u8; 29] = [
    0, 1, 2, 3, 4, 5, 6, 7, 8, 9, 10, 11, 12, 13, 14, 15, 16, 17, 18, 19, 20, 31, 32, 33, 47, 48,
    49, 63, 64,
];

#[test]
fn short_texts_are_read_by_the_rule_of_utf8(rt: HostRuntime) {
    for len in &LENGTHS {
        assert!(rt; are_read(rt.alloc(), *len), "{len}");
    }
}
