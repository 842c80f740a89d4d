//! Each growth of memory is had, or its refusal said. These tests are run with each growth refused in turn
//! (tools/refuse-growths).

use crate::connections::{TALK_LINES, talk};
use crate::json::{TROUBLE_LINES, trouble, trouble_of};
use crate::making::file_of;
use crate::showing::{ALL, JSON, shown_by};
use std::alloc::Global;

/// Whether the conversation is shown, or memory refused.
fn talks_or_no_memory(alloc: Global) -> bool {
    let Ok(file) = file_of(alloc, &talk()) else {
        return true;
    };
    let mut text = String::new(alloc);
    match shown_by(alloc, ALL, file.as_slice(), 97, &mut text) {
        Some(status) => status == 0 && text.as_str() == TALK_LINES,
        None => true,
    }
}

#[test]
fn a_conversation_is_shown_or_no_memory(rt: HostRuntime) {
    assert!(rt; talks_or_no_memory(rt.alloc()));
}

/// Whether the troubles are shown, or memory refused.
fn tells_or_no_memory(alloc: Global) -> bool {
    let Ok(file) = trouble_of(alloc, &trouble()) else {
        return true;
    };
    let mut text = String::new(alloc);
    match shown_by(alloc, JSON, file.as_slice(), 97, &mut text) {
        Some(status) => status == 1 && text.as_str() == TROUBLE_LINES,
        None => true,
    }
}

#[test]
fn troubles_are_shown_or_no_memory(rt: HostRuntime) {
    assert!(rt; tells_or_no_memory(rt.alloc()));
}
