//! Answers of a million bytes with a count that lies: the client refuses them as it refuses others, and asks for no more memory than what was read of
//! them needs. Each test is also run with so much memory as its name says, and no more (tools/refuse-growths).

use crate::clients::by_client;
use crate::hostile::{Fault, Stage, comes_to, fails, goes_on};
use std::alloc::{AllocError, Global};
use ua_conn::Client;
use ua_test_shared::bytes::{chunk, joined};
use ua_test_shared::lending::passes;
use ua_test_shared::vectors::{ENDPOINTS_BODY, ENDPOINTS_FOUND, NULL};

/// A count of 20,000.
const MANY: &[u8] = b"\x20\x4e\0\0";

/// An endpoint as far as its user identities: a url, an application without texts, no certificate, a mode, no policy.
const ENDPOINT: &[u8] =
    b"\x01\0\0\0c\xff\xff\xff\xff\xff\xff\xff\xff\0\0\0\0\0\xff\xff\xff\xff\xff\xff\xff\xff\0\0\0\0\xff\xff\xff\xff\x01\0\0\0\xff\xff\xff\xff";

/// A user identity of one letter.
const TOKEN: &[u8] = b"\x01\0\0\0a\0\0\0\0\xff\xff\xff\xff\xff\xff\xff\xff\xff\xff\xff\xff";

/// A million bytes: these parts, and behind them bytes that begin no value.
fn filled(alloc: Global, parts: &[&[u8]]) -> Result<Vec<u8>, AllocError> {
    let mut all = joined(alloc, parts)?;
    all.resize(1_000_000, 0xfe)?;
    Ok(all)
}

/// Whether the body breaks the client as malformed, with the last of its parts.
fn is_malformed(alloc: Global, client: &mut Client, body: &[u8]) -> bool {
    let mut all = true;
    let mut number: u32 = 2;
    for part in body.chunks(62_500) {
        let is_last = number == 17;
        let name = if is_last { b"MSGF" } else { b"MSGC" };
        let frame = chunk(alloc, name, [1, number, 2], part).ok();
        all &= passes(frame, |frame| {
            if is_last {
                fails(client, 0, frame.as_slice(), Fault::Broken(0x8007_0000))
            } else {
                goes_on(client, 0, frame.as_slice())
            }
        });
        number = number.wrapping_add(1);
    }
    all && number == 18
}

/// Whether an answer that begins so breaks a client that asked for endpoints.
fn breaks(alloc: Global, parts: &[&[u8]]) -> bool {
    by_client(alloc, |alloc, client| {
        comes_to(alloc, client, Stage::Asked(ENDPOINTS_BODY))
            && passes(filled(alloc, parts).ok(), |body| {
                is_malformed(alloc, client, body.as_slice())
            })
    })
}

#[test]
fn an_endpoint_with_many_that_are_none_behind_it_within_4096_kib(rt: HostRuntime) {
    let parts: &[&[u8]] = &[ENDPOINTS_FOUND, MANY, ENDPOINT, NULL, NULL, b"\0"];
    assert!(rt; breaks(rt.alloc(), parts));
}

#[test]
fn a_user_identity_with_many_that_are_none_behind_it_within_4096_kib(rt: HostRuntime) {
    let parts: &[&[u8]] = &[
        ENDPOINTS_FOUND,
        MANY,
        ENDPOINT,
        NULL,
        NULL,
        b"\0",
        ENDPOINT,
        MANY,
        TOKEN,
    ];
    assert!(rt; breaks(rt.alloc(), parts));
}
