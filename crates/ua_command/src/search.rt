//! What a line of a script drops, and where lines end: 32 bytes at a time.

ghost use Rattle.std.specs.Prelude.{◌≡◌, ◌==◌, ◌+◌, ◌<◌, ◌≤◌, ℕ, false, true, length, filter, position, slice_index, take};
ghost use Rattle.std.specs.List.{list_all};
ghost use Rattle.ua_command.specs.Script.{is_dropped, is_kept};
ghost use Rattle.ua_command.specs.Search.{AreKept};

use std::simd::prelude::*;

/// Bytes of a block.
const BLOCK: usize = 32;

/// What a line drops: a space or a carriage return. A line is read without it (docs/FORMATS.md, "The command").
#[inline(always)]
pub fn is_dropped(byte: u8) -> bool
    ensures { result ≡ is_dropped byte }
{
    byte == b' ' || byte == b'\r'
}

/// Whether a line drops all of its bytes.
pub fn are_dropped(line: &[u8]) -> bool
    ensures { result ≡ list_all is_dropped line.now }
{
    line.iter().all(|c| is_dropped(*c))
}

/// All of a block stands behind the space, as digits do, so that nothing of it is dropped. Nothing rests on a false.
#[inline(always)]
fn are_kept_at(line: &[u8], at: usize) -> bool
    requires { at + 32 ≤ length line.now }
    ensures { result ≡ true → AreKept line.now at (at + 32) }
{
    let block = u8x32::from_slice(&line[at..]);
    block.simd_le(u8x32::splat(b' ')).to_bitmask() == 0
}

/// Where the first byte stands that a line drops, or the length where there is none: up to there all is kept.
pub fn first_dropped(line: &[u8]) -> usize
    ensures within { result ≤ length line.now }
    ensures kept { filter is_kept (take result line.now) ≡ take result line.now }
{
    let mut at = 0;
    'runs: while line.len() - at >= BLOCK && are_kept_at(line, at) {
        at += BLOCK;
    }
    if line.len() - at < BLOCK && line.len() >= BLOCK && are_kept_at(line, line.len() - BLOCK) {
        return line.len();
    }
    'bytes: while at < line.len() && !is_dropped(line[at]) {
        at += 1;
    }
    at
}

/// How many bytes of a block stand before its first line end: all where it has none.
#[inline(always)]
fn run_at(text: &[u8], at: usize) -> usize
    requires { at + 32 ≤ length text.now }
    ensures within { result ≤ 32 }
    ensures none { (k : ℕ) → at ≤ k → k < at + result → (slice_index text.now k == 10) ≡ false }
    ensures found { result < 32 → (slice_index text.now (at + result) == 10) ≡ true }
{
    let block = u8x32::from_slice(&text[at..]);
    let ends = block.simd_eq(u8x32::splat(b'\n')).to_bitmask();
    if ends == 0 {
        BLOCK
    } else {
        ends.trailing_zeros() as usize
    }
}

/// Where the first line end stands. The first two bytes come first, as a blank line has no more.
#[inline(always)]
pub fn line_end(text: &[u8]) -> Option<usize>
    ensures { result ≡ position (λ c. c == 10) text.now }
{
    match text {
        [b'\n', ..] => Some(0),
        [_, b'\n', ..] => Some(1),
        _ => far_line_end(text),
    }
}

/// The same by blocks.
fn far_line_end(text: &[u8]) -> Option<usize>
    ensures { result ≡ position (λ c. c == 10) text.now }
{
    let mut at = 0;
    'runs: while text.len() - at >= BLOCK {
        let run = run_at(text, at);
        at += run;
        if run < BLOCK {
            return Some(at);
        }
    }
    'bytes: while at < text.len() {
        if text[at] == b'\n' {
            return Some(at);
        }
        at += 1;
    }
    None
}
