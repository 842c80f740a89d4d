//! Whether lines are what they should be, and are JSON.

use serde_json::Value;
use std::alloc::Global;

/// Whether the text is one value of JSON.
pub(crate) fn is_json(alloc: Global, text: &str) -> bool {
    Value::from_str(alloc, text).is_ok()
}

/// Whether each line of the text is one value of JSON, and the last one is ended.
pub(crate) fn are_json(alloc: Global, text: &str) -> bool {
    for line in text.lines() {
        if !is_json(alloc, line) {
            return false;
        }
    }
    text.is_empty() || text.ends_with('\n')
}

/// Whether the text is this line and its end, and is JSON.
pub(crate) fn is_line(alloc: Global, text: &str, line: &str) -> bool {
    text.strip_suffix('\n') == Some(line) && is_json(alloc, text)
}
