//! A row of words and numbers, put together in a buffer from its end to its front, and then appended at once.

ghost use Rattle.std.specs.Prelude.{◌≡◌, ◌+◌, ◌/◌, ◌%◌, ◌<◌, ◌≤◌, ◌∷◌, ◌++◌, length, drop, decimal, OnOk, string_bytes};
ghost use Rattle.std.specs.Str.{IsUtf8};

use ua_value::NoMemory;

/// The most bytes of a row.
pub const ROOM: usize = 256;

/// Puts the two digits of a number below 100.
#[inline(always)]
fn put_pair(pair: u8, row: &mut [u8; ROOM], at: usize)
    requires small { pair < 100 }
    requires within { at + 2 ≤ 256 }
    ensures { drop at row.new ≡ (48 + pair / 10) ∷ (48 + pair % 10) ∷ drop (at + 2) row.old }
{
    row[at + 1] = b'0' + pair % 10;
    row[at] = b'0' + pair / 10;
}

/// Puts the digits of a number before what stands from `end` on, two for each division, and gives where they begin.
fn put_digits(n: u64, row: &mut [u8; ROOM], end: usize) -> usize
    requires room { 20 ≤ end }
    requires within { end ≤ 256 }
    ensures low { end ≤ result + 20 }
    ensures high { result ≤ end }
    ensures written { drop result row.new ≡ decimal n ++ drop end row.old }
{
    let mut left = n;
    let mut at = end;
    'pairs: while left >= 100 {
        at -= 2;
        put_pair((left % 100) as u8, row, at);
        left /= 100;
    }
    if left >= 10 {
        at -= 2;
        put_pair(left as u8, row, at);
        return at;
    }
    at -= 1;
    row[at] = b'0' + left as u8;
    at
}

/// Puts a word before what stands from `end` on, and gives where it begins.
#[inline(always)]
pub fn put_word(word: &str, row: &mut [u8; ROOM], end: usize) -> usize
    requires room { length word.now ≤ end }
    requires within { end ≤ 256 }
    ensures start { result + length word.now ≡ end }
    ensures written { drop result row.new ≡ word.now ++ drop end row.old }
    ensures utf8 { IsUtf8 (drop end row.old) → IsUtf8 (drop result row.new) }
{
    let start = end - word.len();
    row[start..end].copy_from_slice(word.as_bytes());
    start
}

/// Puts a word and the digits of a number before what stands from `end` on, and gives where the word begins.
#[inline(always)]
pub fn put_number(word: &str, n: u64, row: &mut [u8; ROOM], end: usize) -> usize
    requires room { length word.now + 20 ≤ end }
    requires within { end ≤ 256 }
    ensures low { end ≤ result + (length word.now + 20) }
    ensures high { result ≤ end }
    ensures written { drop result row.new ≡ word.now ++ decimal n ++ drop end row.old }
    ensures utf8 { IsUtf8 (drop end row.old) → IsUtf8 (drop result row.new) }
{
    let at = put_digits(n, row, end);
    put_word(word, row, at)
}

/// Appends the row that begins at `start`.
pub fn add_row(text: &mut String, row: &[u8; ROOM], start: usize) -> Result<(), NoMemory>
    requires within { start ≤ 256 }
    requires utf8 { IsUtf8 (drop start row.now) }
    ensures { OnOk result (string_bytes text.new ≡ string_bytes text.old ++ drop start row.now) }
{
    text.push_str(unsafe { std::str::from_utf8_unchecked(&row[start..]) })
}

/// Appends a number in decimal with a word before it and one behind it.
pub fn add_number(text: &mut String, before: &str, n: u64, after: &str) -> Result<(), NoMemory>
    requires { length before.now + length after.now ≤ 200 }
    ensures { OnOk result (string_bytes text.new ≡ string_bytes text.old ++ before.now ++ decimal n ++ after.now) }
{
    let mut row = [0u8; ROOM];
    let at = put_word(after, &mut row, ROOM);
    let at = put_number(before, n, &mut row, at);
    add_row(text, &row, at)
}
