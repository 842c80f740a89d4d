//! Lines of `answer` of many lengths: pieces of a conversation that lines of digits give, with blanks in them or behind
//! them, and lines with something that is no digit, wherever it stands.

use crate::blocks::{Fails, in_hex, is_printed, reply_by};
use std::alloc::{AllocError, Global};
use std::net::Net;
use std::rt::{Clock, Files};
use ua_disco::DEFAULT;
use ua_test_runs::pages::ends_so;
use ua_test_runs::vectors::CALLS;

/// Digits in pieces of so many, with a text behind each.
fn cut(alloc: Global, digits: &[u8], width: usize, behind: &[u8]) -> Result<Vec<u8>, AllocError> {
    let mut text = Vec::new(alloc);
    for piece in digits.chunks(width.max(1)) {
        text.extend_from_slice(piece)?;
        text.extend_from_slice(behind)?;
    }
    Ok(text)
}

/// Whether the calls of a client are answered alike however their digits are cut.
fn is_answered_cut<R: Files + Net + Clock + AllocGlobal>(
    rt: &R,
    reply: &[u8],
    width: usize,
    behind: &[u8],
) -> bool {
    let Ok(digits) = in_hex(rt.alloc(), CALLS) else {
        return false;
    };
    let words = ["answer", "default"];
    match cut(rt.alloc(), digits.as_slice(), width, behind) {
        Ok(input) => is_printed(rt, &words, input.as_slice(), reply, Fails::Nothing),
        Err(_) => false,
    }
}

/// The same of digits in pieces of each length: about a block of 32 bytes and one of 64, and the 338 bytes of all calls.
fn are_answered_cut<R: Files + Net + Clock + AllocGlobal>(
    rt: &R,
    reply: &[u8],
    behind: &[u8],
) -> bool {
    for width in [2usize, 6, 30, 32, 34, 62, 64, 66, 130, 676] {
        if !is_answered_cut(rt, reply, width, behind) {
            return false;
        }
    }
    true
}

/// The same of each of these texts behind the pieces.
fn answers_cut<R: Files + Net + Clock + AllocGlobal>(rt: &R, behind: [&[u8]; 3]) -> bool {
    let Some(reply) = reply_by(rt.alloc(), DEFAULT.as_bytes()) else {
        return false;
    };
    for text in behind {
        if !are_answered_cut(rt, reply.as_slice(), text) {
            return false;
        }
    }
    true
}

/// Up to 338 lines, with a carriage return at the end, and blank lines between them.
#[test]
fn reads_lines_of_each_length(rt: HostRuntime) {
    assert!(rt; answers_cut(&rt, [b"\n", b"\r\n", b" \r\n\n \r\n"]));
}

/// One line of up to 4056 bytes, of which the blanks are dropped.
#[test]
fn reads_long_lines_with_blanks(rt: HostRuntime) {
    assert!(rt; answers_cut(&rt, [b" ", b"\r", b"     \r    "]));
}

/// A line of so many digits, in which a byte stands in the place of one.
fn with_a_byte(alloc: Global, len: usize, at: usize, byte: u8) -> Result<Vec<u8>, AllocError> {
    let mut line = Vec::new(alloc);
    for place in 0..len {
        let this = if place == at { byte } else { b'4' };
        line.push(this)?;
    }
    Ok(line)
}

/// Whether a line of so many digits is bad, where a byte that is none stands among them.
fn is_bad<R: Files + Net + Clock + AllocGlobal>(rt: &R, len: usize, at: usize, byte: u8) -> bool {
    match with_a_byte(rt.alloc(), len, at, byte) {
        Ok(line) => {
            let mut input = line.as_slice();
            let words = ["answer", "default"];
            ends_so(rt, &words, &mut input, 1, "", "line 1\n")
        }
        Err(_) => false,
    }
}

/// The same of bytes beside the digits and the letters, in either half of a pair.
fn are_bad<R: Files + Net + Clock + AllocGlobal>(rt: &R, len: usize, at: usize) -> bool {
    is_bad(rt, len, at, b'/')
        && is_bad(rt, len, at, b':')
        && is_bad(rt, len, at, b'`')
        && is_bad(rt, len, at, b'g')
        && is_bad(rt, len, at, 0xFF)
}

/// In the first block of 64 digits, in the second, and behind them.
fn bad_lines_are_told<R: Files + Net + Clock + AllocGlobal>(rt: &R) -> bool {
    for at in [0usize, 1, 31, 32, 62, 63, 64, 65, 126, 127, 128, 129] {
        if !are_bad(rt, 130, at) {
            return false;
        }
    }
    true
}

#[test]
fn stops_at_a_byte_that_is_no_digit(rt: HostRuntime) {
    assert!(rt; bad_lines_are_told(&rt));
}

/// Whether digits of which one is left over are bad.
fn odd_lines_are_told<R: Files + Net + Clock + AllocGlobal>(rt: &R) -> bool {
    is_bad(rt, 1, 0, b'4')
        && is_bad(rt, 63, 0, b'4')
        && is_bad(rt, 65, 0, b'4')
        && is_bad(rt, 129, 0, b'4')
}

#[test]
fn stops_at_a_digit_that_is_left_over(rt: HostRuntime) {
    assert!(rt; odd_lines_are_told(&rt));
}

/// Lines of nothing, and of blanks alone, have numbers too.
#[test]
fn counts_blank_lines(rt: HostRuntime) {
    for (input, errors) in [
        ("\n\r\n \n\r\r\n   \r\n4g", "line 6\n"),
        (
            "\n\n\n\n\n\n\n\n\n\n\n\n\n\n\n\n\n\n\n\n\n\n\n\n\n\n\n\n\n\n\n\n\n\n\n\n\n\n\n\n@",
            "line 41\n",
        ),
        (
            "                                                                      \r\n                                4g",
            "line 2\n",
        ),
    ] {
        let mut input = input.as_bytes();
        assert!(rt;
            ends_so(&rt, &["answer", "default"], &mut input, 1, "", errors),
            "{errors}"
        );
    }
}
