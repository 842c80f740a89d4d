//! Requests and answers in many parts, and as large as the limits say.

use crate::rows::{Owed, is_whole_answered, says};
use std::alloc::{AllocError, Global};
use ua_conn::End;
use ua_test_lent::hundred_endpoints;
use ua_test_shared::bytes::joined;
use ua_test_shared::parts::{SMALL, chunks_of, four_chunks};
use ua_test_shared::pieces::Piece::Changed;
use ua_test_shared::pieces::{Piece, made};
use ua_test_shared::vectors::{
    ABORT_TOO_LARGE, ACKNOWLEDGE, ENDPOINTS_REQUEST, FAULT_RESPONSE, HELLO, OPEN_REQUEST,
    OPEN_RESPONSE, OTHER_BODY,
};

/// A request of another service whose body has so many bytes, in parts of 65511, behind an opening.
fn large(alloc: Global, len: usize) -> Result<Vec<u8>, AllocError> {
    let mut body = OTHER_BODY.to_vec(alloc)?;
    body.resize(len, 0)?;
    let request = chunks_of(alloc, body.as_slice(), 65511)?;
    joined(alloc, &[HELLO, OPEN_REQUEST, request.as_slice()])
}

const TOO_LARGE: &[u8] = b"ERRF\x10\0\0\0\0\0\x80\x80\xFF\xFF\xFF\xFF";

fn is_large_answered(alloc: Global, len: usize, answer: &[u8], handed: usize, end: End) -> bool {
    let frames = [ACKNOWLEDGE, OPEN_RESPONSE, answer];
    match large(alloc, len) {
        Ok(input) => is_whole_answered(alloc, input.as_slice(), &frames, handed, end),
        Err(_) => false,
    }
}

#[test]
fn requests_are_as_large_as_the_limits_say(rt: HostRuntime) {
    let alloc = rt.alloc();
    assert!(rt; is_large_answered(alloc, 1_048_576, FAULT_RESPONSE, 1, End::InputEnded));
    assert!(rt; is_large_answered(alloc, 1_048_577, TOO_LARGE, 0, End::Refused(0x8080_0000)));
}

/// What makes of a Hello one with buffers of 8192 bytes that takes no more than three chunks.
const SMALL_AND_FEW: &[(usize, &[u8])] = &[(12, b"\0\x20\0\0\0\x20"), (24, b"\x03")];

const ACKNOWLEDGED: [Piece; 1] = [Changed(ACKNOWLEDGE, SMALL)];

/// Whether a request for the hundred endpoints behind this Hello is answered by these bytes.
fn is_answered_by(alloc: Global, text: &str, hello: Piece, answer: &[u8]) -> bool {
    let (Ok(hello), Ok(acknowledge)) = (made(alloc, b"", &[hello]), made(alloc, b"", &ACKNOWLEDGED))
    else {
        return false;
    };
    let pieces: [(i64, &[u8]); 3] = [
        (0, hello.as_slice()),
        (0, OPEN_REQUEST),
        (0, ENDPOINTS_REQUEST),
    ];
    match joined(alloc, &[acknowledge.as_slice(), OPEN_RESPONSE, answer]) {
        Ok(reply) => {
            let owed: Owed = (reply.as_slice(), 1, End::InputEnded);
            says(alloc, text, &pieces, owed)
        }
        Err(_) => false,
    }
}

fn are_cut_or_aborted(alloc: Global, text: &str, answer: &[u8]) -> bool {
    answer.len() == 8192 + 8192 + 8192 + 1552
        && is_answered_by(alloc, text, Changed(HELLO, SMALL), answer)
        && is_answered_by(alloc, text, Changed(HELLO, SMALL_AND_FEW), ABORT_TOO_LARGE)
}

fn hundred_are_cut_or_aborted(alloc: Global) -> bool {
    match (hundred_endpoints(alloc), four_chunks(alloc)) {
        (Ok(text), Ok(answer)) => are_cut_or_aborted(alloc, text.as_str(), answer.as_slice()),
        _ => false,
    }
}

/// A client that takes three chunks gets an abort in their place.
#[test]
fn large_answers_are_cut_into_four_chunks(rt: HostRuntime) {
    assert!(rt; hundred_are_cut_or_aborted(rt.alloc()));
}
