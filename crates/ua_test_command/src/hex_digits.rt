//! Digits beside the crate `hex`: from none to more than three blocks of them, in either case, with bytes that are no digits
//! at each place.

use hex::FromHexError;
use std::alloc::{AllocError, Global};

/// The most digits that are read, and the most bytes that are written.
const MOST: usize = 200;

const DIGITS: &[u8] = b"0123456789abcdefABCDEF";

/// What stands beside digits, and other bytes that are none.
const NONE: [u8; 12] = [
    b'/', b':', b'@', b'G', b'`', b'g', 0, b' ', b'\n', 0x7F, 0xB0, 0xFF,
];

/// So many digits, others for each number.
fn digits_of(alloc: Global, len: usize) -> Result<Vec<u8>, AllocError> {
    let mut digits = Vec::new(alloc);
    for place in 0..len {
        let drawn = place.wrapping_mul(7).wrapping_add(len) % 22;
        digits.push(DIGITS.get(drawn).copied().unwrap_or(b'0'))?;
    }
    Ok(digits)
}

/// So many bytes, of which each value is one somewhere.
fn bytes_of(alloc: Global, len: usize) -> Result<Vec<u8>, AllocError> {
    let mut bytes = Vec::new(alloc);
    for place in 0..len {
        let [byte, ..] = place.wrapping_mul(5).wrapping_add(len).to_le_bytes();
        bytes.push(byte)?;
    }
    Ok(bytes)
}

fn are_same(ours: &Result<Vec<u8>, FromHexError>, theirs: &Result<Vec<u8>, FromHexError>) -> bool {
    match (ours, theirs) {
        (Ok(ours), Ok(theirs)) => ours.as_slice() == theirs.as_slice(),
        (Err(ours), Err(theirs)) => ours == theirs,
        _ => false,
    }
}

/// Whether they are read as `hex` reads them.
fn is_read(alloc: Global, digits: &[u8]) -> bool {
    are_same(&ua_hex::decode(alloc, digits), &hex::decode(alloc, digits))
}

fn put(digits: &mut [u8], place: usize, byte: u8) -> u8 {
    match digits.get_mut(place) {
        Some(at) => {
            let before = *at;
            *at = byte;
            before
        }
        None => byte,
    }
}

/// Whether they are read so with one byte at each place that is no digit, and with one more three places behind it.
fn are_read_with_others(alloc: Global, digits: &mut [u8]) -> bool {
    for place in 0..digits.len() {
        let none = NONE[place.wrapping_add(digits.len()) % 12];
        let before = put(digits, place, none);
        let mut same = is_read(alloc, digits);
        let behind = place.saturating_add(3);
        let later = put(digits, behind, b'z');
        same = same && is_read(alloc, digits);
        let _ = put(digits, behind, later);
        let _ = put(digits, place, before);
        if !same {
            return false;
        }
    }
    true
}

fn are_digits_read(alloc: Global, len: usize) -> bool {
    match digits_of(alloc, len) {
        Ok(mut digits) => {
            is_read(alloc, digits.as_slice())
                && ua_hex::decode(alloc, digits.as_slice()).is_ok() == (len % 2 == 0)
                && are_read_with_others(alloc, digits.as_mut_slice())
        }
        Err(_) => false,
    }
}

#[test]
fn digits_are_read_as_hex_reads_them(rt: HostRuntime) {
    for len in 0..=MOST {
        assert!(rt; are_digits_read(rt.alloc(), len), "{len}");
    }
}

/// Whether each byte that is no digit is refused at its place, in front of a block, in one and behind it.
fn is_each_refused(alloc: Global, digits: &mut [u8], place: usize) -> bool {
    for byte in 0..=255u8 {
        let before = put(digits, place, byte);
        let same = is_read(alloc, digits)
            && ua_hex::decode(alloc, digits).is_ok() == byte.is_ascii_hexdigit();
        let _ = put(digits, place, before);
        if !same {
            return false;
        }
    }
    true
}

fn are_each_refused(alloc: Global) -> bool {
    match digits_of(alloc, 134) {
        Ok(mut digits) => {
            let digits = digits.as_mut_slice();
            is_each_refused(alloc, digits, 0)
                && is_each_refused(alloc, digits, 63)
                && is_each_refused(alloc, digits, 64)
                && is_each_refused(alloc, digits, 133)
        }
        Err(_) => false,
    }
}

#[test]
fn what_is_no_digit_is_refused(rt: HostRuntime) {
    assert!(rt; are_each_refused(rt.alloc()));
}

/// Whether the bytes are appended to the text as `hex` writes them.
fn are_appended(alloc: Global, bytes: &[u8], text: &mut Vec<u8>) -> bool {
    if ua_hex::encode_onto(text, bytes).is_err() {
        return false;
    }
    match hex::encode(alloc, bytes) {
        Ok(digits) => text.strip_prefix(b"x=".as_slice()) == Some(digits.as_str().as_bytes()),
        Err(_) => false,
    }
}

fn are_bytes_written(alloc: Global, len: usize) -> bool {
    match (bytes_of(alloc, len), b"x=".to_vec(alloc)) {
        (Ok(bytes), Ok(mut text)) => are_appended(alloc, bytes.as_slice(), &mut text),
        _ => false,
    }
}

#[test]
fn bytes_are_written_as_hex_writes_them(rt: HostRuntime) {
    for len in 0..=MOST {
        assert!(rt; are_bytes_written(rt.alloc(), len), "{len}");
    }
}
