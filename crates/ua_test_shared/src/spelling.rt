//! What tests of values share: whether bytes spell a value as every call of its type sees it.

use std::alloc::Global;
use std::fmt::Display;
use ua_value::{Array, ReadFault, UaBytes, UaString, Wire};

/// What a value is to show.
pub trait Shown<T> {
    /// Whether the value shows it.
    fn is_shown(&self, value: &T) -> bool;
}

/// Whatever it is.
pub struct Any;

impl<T> Shown<T> for Any {
    fn is_shown(&self, _value: &T) -> bool {
        true
    }
}

/// Whether the bytes begin with a value that takes so many of them and shows what is wanted: `canon` is written for it, also behind other bytes and
/// for a copy, and no shorter beginning spells a value.
pub fn spells<T: Wire, W: Shown<T>>(
    alloc: Global,
    bytes: &[u8],
    used: usize,
    canon: &[u8],
    want: &W,
) -> bool {
    begins_with(alloc, bytes, used, canon, want) && has_no_shorter::<T>(alloc, bytes, used)
}

/// The same where all bytes are of the value, and are what is written for it.
pub fn is_whole<T: Wire, W: Shown<T>>(alloc: Global, bytes: &[u8], want: &W) -> bool {
    spells::<T, W>(alloc, bytes, bytes.len(), bytes, want)
}

fn begins_with<T: Wire, W: Shown<T>>(
    alloc: Global,
    bytes: &[u8],
    used: usize,
    canon: &[u8],
    want: &W,
) -> bool {
    if bytes.len() > 1000 {
        return false;
    }
    match T::read(alloc, bytes) {
        Ok((value, taken)) => {
            taken == used && are_written(alloc, &value, canon) && want.is_shown(&value)
        }
        Err(_) => false,
    }
}

/// Whether no beginning of the bytes that is shorter spells a value.
fn has_no_shorter<T: Wire>(alloc: Global, bytes: &[u8], used: usize) -> bool {
    if used > bytes.len() {
        return false;
    }
    let mut is_none = true;
    for end in 0..used {
        if !is_refused::<T>(alloc, &bytes[..end]) {
            is_none = false;
        }
    }
    is_none
}

/// Whether no beginning of the bytes spells a value.
pub fn is_refused<T: Wire>(alloc: Global, bytes: &[u8]) -> bool {
    bytes.len() <= 1000 && matches!(T::read(alloc, bytes), Err(ReadFault::Refused))
}

/// Whether none of the bytes begin with a value.
pub fn are_refused<T: Wire>(alloc: Global, rows: &[&[u8]]) -> bool {
    let mut all = true;
    for bytes in rows {
        if !is_refused::<T>(alloc, bytes) {
            all = false;
        }
    }
    all
}

/// Whether each of the bytes spell a value for which the others are written.
pub fn are_spelled<T: Wire>(alloc: Global, rows: &[(&[u8], &[u8])]) -> bool {
    let mut all = true;
    for (bytes, canon) in rows {
        if !spells::<T, Any>(alloc, bytes, bytes.len(), canon, &Any) {
            all = false;
        }
    }
    all
}

/// Whether the bytes are written for the value and for a copy of it.
pub fn are_written<T: Wire>(alloc: Global, value: &T, canon: &[u8]) -> bool {
    is_written(alloc, value, canon) && is_copied(alloc, value, canon)
}

/// Whether the bytes are written for the value, behind what was there.
pub fn is_written<T: Wire>(alloc: Global, value: &T, canon: &[u8]) -> bool {
    let Ok(mut out) = [7].to_vec(alloc) else {
        return false;
    };
    value.len() == canon.len() as u64
        && value.write(&mut out).is_ok()
        && is_behind(out.as_slice(), canon)
}

/// Whether a copy of the value is written so.
fn is_copied<T: Wire>(alloc: Global, value: &T, canon: &[u8]) -> bool {
    match value.copy() {
        Ok(copy) => is_written(alloc, &copy, canon),
        Err(_) => false,
    }
}

/// Whether it was made, and shows what is wanted.
pub fn is_made<T: Drop, E: Drop, W: Shown<T>>(made: Result<T, E>, want: &W) -> bool {
    match made {
        Ok(value) => want.is_shown(&value),
        Err(_) => false,
    }
}

/// Whether the value is printed as the text.
pub fn is_printed<T: Display + Drop>(alloc: Global, value: T, text: &str) -> bool {
    match format!(in alloc; "{value}") {
        Ok(printed) => printed.as_str() == text,
        Err(_) => false,
    }
}

/// Whether the bytes stand behind the one that was there before.
pub fn is_behind(out: &[u8], bytes: &[u8]) -> bool {
    out.strip_prefix([7].as_slice()) == Some(bytes)
}

/// Whether the value is the text.
pub fn is_text(value: &UaString, text: &str) -> bool {
    value.get() == Some(text)
}

/// Whether the value is the bytes.
pub fn is_bytes(value: &UaBytes, bytes: &[u8]) -> bool {
    value.get() == Some(bytes)
}

/// Whether these are the texts, all of them.
pub fn are_texts(array: &Array<UaString>, texts: &[&str]) -> bool {
    match array.get() {
        Some(items) => items.len() == texts.len() && begin_with(items, texts),
        None => false,
    }
}

/// Whether the first of the items are the texts, as far as both go.
fn begin_with(items: &[UaString], texts: &[&str]) -> bool {
    let mut all = true;
    for at in 0..items.len().min(texts.len()) {
        all &= is_text(&items[at], texts[at]);
    }
    all
}
