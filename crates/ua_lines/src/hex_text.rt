//! Bytes in hex.

use std::alloc::Global;
use ua_value::NoMemory;
use ua_value::plumbing::let_go;

/// Appends bytes as hex digits in lower case.
pub(crate) fn add_hex(alloc: Global, text: &mut String, bytes: &[u8]) -> Result<(), NoMemory> {
    let digits = hex::encode(alloc, bytes)?;
    let done = text.push_str(digits.as_str());
    let_go(digits);
    done
}

/// Appends a byte string: `null`, or its size and its bytes, of which there may be none.
pub(crate) fn add_bytes(
    alloc: Global,
    text: &mut String,
    bytes: Option<&[u8]>,
) -> Result<(), NoMemory> {
    let Some(bytes) = bytes else {
        return text.push_str("null");
    };
    let size = bytes.len();
    write!(text, "size={size}")?;
    if size == 0 {
        return Ok(());
    }
    text.push_str(" ")?;
    add_hex(alloc, text, bytes)
}
