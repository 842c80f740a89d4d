//! Many requests in one piece, more than the buffer of a server holds.

use crate::rows::answers_in_pieces;
use std::alloc::Global;
use ua_conn::End;
use ua_disco::Settings;
use ua_test_lent::by_default;
use ua_test_shared::bytes::repeated;
use ua_test_shared::vectors::{FIND_REQUEST, FIND_RESPONSE, OPENED, OPENING};

const COUNT: u32 = 2000;

/// Whether the input is answered so whole, in pieces of 4096 bytes, and one byte at a time.
fn answers_each_cut(alloc: Global, settings: &Settings, input: &[u8], reply: &[u8]) -> bool {
    let owed = (reply, COUNT as usize, End::InputEnded);
    input.len() == 186188
        && answers_in_pieces(alloc, settings, input, usize::MAX, owed)
        && answers_in_pieces(alloc, settings, input, 4096, owed)
        && answers_in_pieces(alloc, settings, input, 1, owed)
}

fn answers_all(alloc: Global, settings: &Settings) -> bool {
    match (
        repeated(alloc, OPENING, FIND_REQUEST, COUNT),
        repeated(alloc, OPENED, FIND_RESPONSE, COUNT),
    ) {
        (Ok(input), Ok(reply)) => {
            answers_each_cut(alloc, settings, input.as_slice(), reply.as_slice())
        }
        _ => false,
    }
}

#[test]
fn two_thousand_finds_are_answered_in_any_pieces(rt: HostRuntime) {
    assert!(rt; by_default(rt.alloc(), answers_all));
}
