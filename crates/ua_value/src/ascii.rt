//! Whether a short text is ASCII, as most are: sixteen, eight or four bytes at a time.

ghost use Rattle.std.specs.Prelude.{◌≡◌, ◌≤◌, ◌<◌, ◌+◌, length, true};
ghost use Rattle.std.specs.Str.{IsAscii};
ghost use Rattle.ua_value.specs.Ascii.{AreAscii};

use std::simd::prelude::*;

/// Bytes of a block.
const BLOCK: usize = 16;

/// Bytes of a word.
const WORD: usize = 8;

/// Bytes of half a word.
const HALF: usize = 4;

/// The block that begins at a place is ASCII.
#[inline(always)]
fn is_ascii_at(bytes: &[u8], at: usize) -> bool
    requires { at + 16 ≤ length bytes.now }
    ensures { result ≡ true → AreAscii bytes.now at (at + 16) }
{
    let block = u8x16::from_slice(&bytes[at..at + BLOCK]);
    block.simd_ge(u8x16::splat(128)).to_bitmask() == 0
}

/// The word that begins at a place is ASCII.
#[inline(always)]
fn is_ascii_word(bytes: &[u8], at: usize) -> bool
    requires { at + 8 ≤ length bytes.now }
    ensures { result ≡ true → AreAscii bytes.now at (at + 8) }
{
    let word = u8x8::from_slice(&bytes[at..at + WORD]);
    word.simd_ge(u8x8::splat(128)).to_bitmask() == 0
}

/// The half word that begins at a place is ASCII.
#[inline(always)]
fn is_ascii_half(bytes: &[u8], at: usize) -> bool
    requires { at + 4 ≤ length bytes.now }
    ensures { result ≡ true → AreAscii bytes.now at (at + 4) }
{
    let half = u8x4::from_slice(&bytes[at..at + HALF]);
    half.simd_ge(u8x4::splat(128)).to_bitmask() == 0
}

/// Fewer bytes than a block are ASCII: by two words or half words that may overlap, or one by one.
#[inline(always)]
fn is_part_ascii(bytes: &[u8]) -> bool
    requires { length bytes.now < 16 }
    ensures { result ≡ true → IsAscii bytes.now }
{
    let len = bytes.len();
    if len >= WORD {
        return is_ascii_word(bytes, 0) && is_ascii_word(bytes, len - WORD);
    }
    if len >= HALF {
        return is_ascii_half(bytes, 0) && is_ascii_half(bytes, len - HALF);
    }
    'bytes: for byte in bytes {
        if *byte >= 128 {
            return false;
        }
    }
    true
}

/// At most 64 bytes are ASCII: by blocks, of which the last may overlap the one before. Nothing rests on a false, behind
/// which `from_utf8` judges all.
pub(crate) fn is_short_ascii(bytes: &[u8]) -> bool
    requires { length bytes.now ≤ 64 }
    ensures { result ≡ true → IsAscii bytes.now }
{
    let len = bytes.len();
    if len < BLOCK {
        return is_part_ascii(bytes);
    }
    if !is_ascii_at(bytes, 0) || !is_ascii_at(bytes, len - BLOCK) {
        return false;
    }
    len <= 2 * BLOCK
        || is_ascii_at(bytes, BLOCK) && (len <= 3 * BLOCK || is_ascii_at(bytes, 2 * BLOCK))
}
