//! Bytes as digits.

ghost use Rattle.std.specs.Prelude.{◌≡◌, ◌<◌, ◌≤◌, ◌+◌, ◌*◌, ◌++◌, length, slice_index, vec_len, vec_capacity, IsOk, OnOk, OnErr};
ghost use Rattle.hex.specs.Hex.{encode_lower, lower_digits};

use std::alloc::AllocError;

/// Bytes of a block.
const BLOCK: usize = 32;

/// A digit in lower case.
#[inline(always)]
fn digit(n: u8) -> u8
    requires { n < 16 }
    ensures { result ≡ slice_index lower_digits n }
{
    if n < 10 { b'0' + n } else { b'a' - 10 + n }
}

/// The digits of a block.
#[inline(always)]
fn digits_of(block: &[u8]) -> [u8; 64]
    requires { length block.now ≡ 32 }
    ensures { result ≡ encode_lower block.now }
{
    let mut digits = [0u8; 64];
    'bytes: for i in 0..32 {
        let byte = block[i];
        digits[2 * i] = digit(byte / 16);
        digits[2 * i + 1] = digit(byte % 16);
    }
    digits
}

/// Appends the digits of the bytes, block by block and then byte by byte, where there is room for all of them.
fn put_digits(bytes: &[u8], text: &mut Vec<u8>)
    requires { vec_len text.old + 2 * length bytes.now ≤ vec_capacity text.old }
    ensures items { text.new.items ≡ text.old.items ++ encode_lower bytes.now }
    ensures capacity { vec_capacity text.old ≤ vec_capacity text.new }
{
    let mut rest = bytes;
    'blocks: while rest.len() >= BLOCK {
        let (block, after) = rest.split_at(BLOCK);
        let _ = text.extend_from_slice(&digits_of(block));
        rest = after;
    }
    'bytes: for byte in rest {
        let byte = *byte;
        let _ = text.extend_from_slice(&[digit(byte / 16), digit(byte % 16)]);
    }
}

/// Appends the bytes as digits in lower case, two for each. Where the text has room for them it takes no memory, and
/// there is no error. Its room never shrinks.
///
/// # Errors
///
/// `AllocError` where the room was refused; then the text is what it was.
pub fn encode_onto(text: &mut Vec<u8>, bytes: &[u8]) -> Result<(), AllocError>
    ensures ok { OnOk result (text.new.items ≡ text.old.items ++ encode_lower bytes.now) }
    ensures err { OnErr result (text.new.items ≡ text.old.items) }
    ensures succeeds { vec_len text.old + 2 * length bytes.now ≤ vec_capacity text.old → IsOk result }
    ensures capacity { vec_capacity text.old ≤ vec_capacity text.new }
{
    let Some(digits) = bytes.len().checked_mul(2) else {
        return Err(AllocError);
    };
    text.reserve(digits)?;
    put_digits(bytes, text);
    Ok(())
}
