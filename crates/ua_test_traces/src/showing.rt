//! What a file shows, in pieces of several sizes.

use std::alloc::Global;
use ua_trace::{Choice, Trace};

/// All connections of the port 4840, and those that begin with a Hello, as lines.
pub(crate) const ALL: Choice = Choice {
    stream: None,
    port: None,
    json: false,
    all: false,
};

/// The same as JSON.
pub(crate) const JSON: Choice = Choice { json: true, ..ALL };

/// Feeds a file in pieces of `size` bytes, and gives the exit status. `None` says that memory was refused.
pub(crate) fn fed(trace: &mut Trace, file: &[u8], size: usize, text: &mut String) -> Option<u8> {
    for piece in file.chunks(size.max(1)) {
        if trace.feed(piece, text).is_err() {
            return None;
        }
    }
    trace.end(text).ok()
}

/// What a file shows in pieces of `size` bytes.
pub(crate) fn shown_by(
    alloc: Global,
    choice: Choice,
    file: &[u8],
    size: usize,
    text: &mut String,
) -> Option<u8> {
    match Trace::new(alloc, choice) {
        Ok(mut trace) => fed(&mut trace, file, size, text),
        Err(_) => None,
    }
}

fn shows_by(
    alloc: Global,
    choice: Choice,
    file: &[u8],
    size: usize,
    wanted: &str,
    status: u8,
) -> bool {
    let mut text = String::new(alloc);
    let shown = shown_by(alloc, choice, file, size, &mut text);
    shown == Some(status) && text.as_str() == wanted
}

/// Whether the file shows that, with this exit status, wherever it is cut.
pub(crate) fn shows(alloc: Global, choice: Choice, file: &[u8], wanted: &str, status: u8) -> bool {
    for size in [1, 7, 97, 100000] {
        if !shows_by(alloc, choice, file, size, wanted, status) {
            return false;
        }
    }
    true
}
