//! Files that are wrong in one byte.

use crate::connections::talk;
use crate::making::file_of;
use crate::showing::{ALL, JSON, shown_by};
use std::alloc::Global;
use std::test::Fail;
use ua_trace::Choice;

/// How many files are tried.
const TRIES: usize = 100_000;

/// The most bytes of lines of one: it has 490 bytes and some twenty lines.
const MOST_LINES: usize = 16384;

/// The lines of each second file are JSON.
fn choice_of(number: usize) -> Choice {
    if number % 2 == 0 { ALL } else { JSON }
}

/// Whether a file ends with a status, and its lines are no more than there may be.
fn is_bounded(alloc: Global, choice: Choice, file: &[u8], size: usize) -> bool {
    let mut text = String::new(alloc);
    let shown = shown_by(alloc, choice, file, size, &mut text);
    shown.is_some() && text.len() <= MOST_LINES
}

/// Turns bits of one byte, tries the file, and turns them back: each byte in turn, by 1, 2, 3 and so on.
fn is_bounded_in(alloc: Global, file: &mut Vec<u8>, number: usize) -> bool {
    let length = file.len().max(1);
    let at = number % length;
    let bits = (number / length % 255) as u8 + 1;
    if at >= file.len() {
        return false;
    }
    file[at] ^= bits;
    let is_bounded = is_bounded(alloc, choice_of(number / 2), file.as_slice(), 61);
    file[at] ^= bits;
    is_bounded
}

#[test]
fn files_that_are_wrong_in_one_byte_end(rt: HostRuntime) -> Result<(), Fail> {
    let alloc = rt.alloc();
    let mut file = file_of(alloc, &talk())?;
    for number in 0..TRIES {
        assert!(rt; is_bounded_in(alloc, &mut file, number));
    }
    Ok(())
}
