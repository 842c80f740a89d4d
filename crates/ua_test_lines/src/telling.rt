//! What a value is told as.

use std::alloc::Global;
use ua_lines::add_value_of;
use ua_value::ReadFault;
use ua_variant::Kind;

/// Bytes that spell a value of a kind, and its lines.
pub(crate) type Row = (Kind, &'static [u8], &'static str);

/// No bytes here are longer.
const MOST: usize = 1_000_000;

/// Whether the value that the bytes begin with has these lines, which are added to a text.
pub(crate) fn is_told(alloc: Global, kind: Kind, bytes: &[u8], lines: &str) -> bool {
    let mut text = String::new(alloc);
    if bytes.len() > MOST || text.push_str("> ").is_err() {
        return false;
    }
    let told = add_value_of(alloc, &mut text, kind, bytes).is_ok();
    told && text.as_str().strip_prefix("> ") == Some(lines)
}

/// Whether each has its lines.
pub(crate) fn are_told(alloc: Global, rows: &[Row]) -> bool {
    for (kind, bytes, lines) in rows {
        if !is_told(alloc, *kind, bytes, lines) {
            return false;
        }
    }
    true
}

/// Whether the bytes begin with no value, and nothing is said.
pub(crate) fn is_refused(alloc: Global, kind: Kind, bytes: &[u8]) -> bool {
    let mut text = String::new(alloc);
    if bytes.len() > MOST {
        return false;
    }
    let refused = match add_value_of(alloc, &mut text, kind, bytes) {
        Ok(()) => false,
        Err(fault) => fault == ReadFault::Refused,
    };
    refused && text.is_empty()
}

/// Whether the value has these lines, or memory is refused.
pub(crate) fn is_told_or_no_memory(alloc: Global, kind: Kind, bytes: &[u8], lines: &str) -> bool {
    let mut text = String::new(alloc);
    if bytes.len() > MOST {
        return false;
    }
    match add_value_of(alloc, &mut text, kind, bytes) {
        Ok(()) => text.as_str() == lines,
        Err(fault) => fault == ReadFault::NoMemory,
    }
}
