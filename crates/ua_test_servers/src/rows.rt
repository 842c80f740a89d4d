//! Inputs of a connection in pieces that tables name, and whether they are answered so however they are cut.

use std::alloc::{AllocError, Global};
use ua_conn::{End, Outcome, answer_all, reply_all};
use ua_disco::{DEFAULT, Settings};
use ua_test_lent::{by_default, by_settings};
use ua_test_shared::bytes::joined;
use ua_test_shared::lending::passes;
use ua_test_shared::vectors::{ACKNOWLEDGE, HELLO, OPENED, OPENING};

/// How far a connection has come.
#[derive(Clone, Copy)]
pub(crate) enum Phase {
    /// Nothing was said.
    Begun,
    /// The Hello was acknowledged.
    Acknowledged,
    /// The channel was opened.
    Opened,
}

/// What the client has said so far.
pub(crate) fn said(phase: Phase) -> &'static [u8] {
    match phase {
        Phase::Begun => b"",
        Phase::Acknowledged => HELLO,
        Phase::Opened => OPENING,
    }
}

/// What the server has answered so far.
pub(crate) fn replied(phase: Phase) -> &'static [u8] {
    match phase {
        Phase::Begun => b"",
        Phase::Acknowledged => ACKNOWLEDGE,
        Phase::Opened => OPENED,
    }
}

/// What is owed for an input: the reply, how many requests are handed on, and the end.
pub(crate) type Owed<'a> = (&'a [u8], usize, End);

fn is_owed(outcome: &Outcome, owed: Owed) -> bool {
    let (reply, handed, end) = owed;
    outcome.reply.as_slice() == reply && outcome.handed.len() == handed && outcome.end == end
}

/// Whether the settings answer the pieces of an input so, each at its moment.
pub(crate) fn answers(
    alloc: Global,
    settings: &Settings,
    pieces: &[(i64, &[u8])],
    owed: Owed,
) -> bool {
    let outcome = answer_all(alloc, settings, 1, pieces).ok();
    passes(outcome, |outcome| is_owed(outcome, owed)) && replies(alloc, settings, pieces, owed)
}

/// Whether they reply so where no request is kept.
fn replies(alloc: Global, settings: &Settings, pieces: &[(i64, &[u8])], owed: Owed) -> bool {
    match reply_all(alloc, settings, 1, pieces) {
        Ok((reply, end)) => reply.as_slice() == owed.0 && end == owed.2,
        Err(_) => false,
    }
}

/// The input in pieces of so many bytes, all at one moment.
fn cut(alloc: Global, input: &[u8], len: usize) -> Result<Vec<(i64, &[u8])>, AllocError> {
    let mut pieces = Vec::new(alloc);
    let mut rest = input;
    for _ in 0..input.len() {
        if rest.is_empty() {
            break;
        }
        let (piece, more) = rest.split_at(rest.len().min(len));
        pieces.push((0, piece))?;
        rest = more;
    }
    Ok(pieces)
}

pub(crate) fn answers_in_pieces(
    alloc: Global,
    settings: &Settings,
    input: &[u8],
    len: usize,
    owed: Owed,
) -> bool {
    match cut(alloc, input, len) {
        Ok(pieces) => answers(alloc, settings, pieces.as_slice(), owed),
        Err(_) => false,
    }
}

/// Whether the settings answer the input so, whole, one byte at a time, and in pieces of 7 and of 100 bytes.
fn answers_any_cut(alloc: Global, settings: &Settings, input: &[u8], owed: Owed) -> bool {
    answers_in_pieces(alloc, settings, input, usize::MAX, owed)
        && answers_in_pieces(alloc, settings, input, 1, owed)
        && answers_in_pieces(alloc, settings, input, 7, owed)
        && answers_in_pieces(alloc, settings, input, 100, owed)
}

/// Whether the settings by default answer the input so, however it is cut.
pub(crate) fn is_answered(alloc: Global, input: &[u8], owed: Owed) -> bool {
    by_default(
        alloc,
        |alloc, settings| answers_any_cut(alloc, settings, input, owed),
    )
}

/// Whether settings of the text answer the pieces so.
pub(crate) fn says(alloc: Global, text: &str, pieces: &[(i64, &[u8])], owed: Owed) -> bool {
    by_settings(
        alloc,
        text,
        |alloc, settings| answers(alloc, settings, pieces, owed),
    )
}

/// Whether an input, whole at the moment 0, is answered by these frames by the settings by default.
pub(crate) fn is_whole_answered(
    alloc: Global,
    input: &[u8],
    frames: &[&[u8]],
    handed: usize,
    end: End,
) -> bool {
    match joined(alloc, frames) {
        Ok(reply) => says(
            alloc,
            DEFAULT,
            &[(0, input)],
            (reply.as_slice(), handed, end),
        ),
        Err(_) => false,
    }
}
