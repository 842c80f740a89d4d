//! Digits as bytes.

ghost use Rattle.std.specs.Prelude.{◌≡◌, ◌<◌, ◌%◌, ◌⊎◌, true, [], length, IfOk, IfErr};
ghost use Rattle.hex.specs.Hex.{decode_of, decode_pairs};
ghost use Rattle.hex.specs.declared.error.FromHexError.TheVariants.{OddLength, OutOfMemory};
ghost use Rattle.ua_hex.specs.Digits.{value_or_128};

use hex::FromHexError;
use std::alloc::Global;

/// Digits of a block.
const BLOCK: usize = 64;

/// The value of a digit, in either case, and 128 for what is none.
#[inline(always)]
fn value(c: u8) -> u8
    ensures { result ≡ value_or_128 c }
{
    let number = c.wrapping_sub(b'0');
    let letter = (c | 32).wrapping_sub(b'a');
    if number < 10 {
        number
    } else if letter < 6 {
        letter + 10
    } else {
        128
    }
}

/// The bytes of a block of digits, and the greatest value among these, which is 16 or more where one is no digit.
#[inline(always)]
fn bytes_of(block: &[u8]) -> ([u8; 32], u8)
    requires { length block.now ≡ 64 }
    ensures { result.1 < 16 → decode_pairs 0 block.now ≡ Ok result.0 }
{
    let mut values = [0u8; 64];
    let mut greatest = 0u8;
    'digits: for k in 0..64 {
        let value = value(block[k]);
        values[k] = value;
        greatest = greatest.max(value);
    }
    let mut bytes = [0u8; 32];
    'pairs: for i in 0..32 {
        bytes[i] = values[2 * i] % 16 * 16 + values[2 * i + 1] % 16;
    }
    (bytes, greatest)
}

/// Appends the bytes of the digits, block by block and then pair by pair. False where something is no digit, or where
/// memory was refused.
fn put_bytes(digits: &[u8], bytes: &mut Vec<u8>) -> bool
    requires { bytes.old.items ≡ [] }
    ensures { result ≡ true → decode_pairs 0 digits.now ≡ Ok bytes.new.items }
{
    let mut rest = digits;
    'blocks: while rest.len() >= BLOCK {
        let (block, after) = rest.split_at(BLOCK);
        let (front, greatest) = bytes_of(block);
        if greatest >= 16 || bytes.extend_from_slice(&front).is_err() {
            return false;
        }
        rest = after;
    }
    'pairs: while rest.len() >= 2 {
        let (pair, after) = rest.split_at(2);
        let high = value(pair[0]);
        let low = value(pair[1]);
        if high >= 16 || low >= 16 || bytes.push(high * 16 + low).is_err() {
            return false;
        }
        rest = after;
    }
    rest.is_empty()
}

/// What `hex` says of the digits, in the room that there is.
#[inline(never)]
fn decode_by_hex(digits: &[u8], room: Vec<u8>) -> Result<Vec<u8>, FromHexError>
    ensures ok { IfOk result (λ bytes. decode_of digits.now ≡ Ok bytes.items) }
    ensures err { IfErr result (λ e. (e ≡ OutOfMemory) ⊎ (decode_of digits.now ≡ Err e)) }
{
    let mut bytes = room;
    if bytes.resize(digits.len() / 2, 0).is_err() {
        return Err(FromHexError::OutOfMemory);
    }
    match hex::decode_to_slice(digits, bytes.as_mut_slice()) {
        Ok(()) => Ok(bytes),
        Err(e) => Err(e),
    }
}

/// The bytes that the digits write, two for each, in either case.
///
/// # Errors
///
/// `OddLength` where a digit is left over, else `InvalidHexCharacter` with the first byte that is no digit, and its
/// place; `OutOfMemory` where the room was refused.
pub fn decode(alloc: Global, digits: &[u8]) -> Result<Vec<u8>, FromHexError>
    ensures ok { IfOk result (λ bytes. decode_of digits.now ≡ Ok bytes.items) }
    ensures err { IfErr result (λ e. (e ≡ OutOfMemory) ⊎ (decode_of digits.now ≡ Err e)) }
    ensures odd { length digits.now % 2 ≡ 1 → result ≡ Err OddLength }
{
    if digits.len() % 2 != 0 {
        return Err(FromHexError::OddLength);
    }
    let mut bytes = Vec::with_capacity(alloc, digits.len() / 2)?;
    if put_bytes(digits, &mut bytes) {
        return Ok(bytes);
    }
    decode_by_hex(digits, bytes)
}
