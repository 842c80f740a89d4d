//! Settings in which each key says something of its own, and settings that leave out what they may.

use crate::answers::{answers_at, asking, says_of_itself};
use std::alloc::Global;
use ua_frame::Limits;
use ua_test_shared::bytes::joined;
use ua_test_shared::vectors::{
    BINARY_PROFILE, EMPTY, ENDPOINTS, ENDPOINTS_FOUND, FIND, NULL, POLICY_NONE, SERVERS_FOUND,
};

/// Each key with another value than the one by default.
const EVERY_KEY: &str = r#"version = 1
[application]
uri = "urn:b"
product_uri = "urn:q"
type = 3
gateway_uri = "urn:g"
profile_uri = "urn:d"
discovery_urls = ["opc.tcp://a", "opc.tcp://b"]
[[application.names]]
locale = "de"
text = "Presse"
[[application.names]]
locale = "en"
text = "Press"
[[endpoint]]
url = "opc.tcp://c"
mode = 3
policy = "urn:s"
certificate = "00aBFf"
transport = "urn:t"
level = 200
[[endpoint.tokens]]
id = "1"
type = 2
issued_type = "urn:i"
issuer_url = "urn:j"
policy = "urn:k"
[limits]
receive = 8192
send = 1048576
max_message = 16777216
max_chunks = 65535
"#;

/// The application, its name in English.
const APPLICATION: &[u8] =
    b"\x05\0\0\0urn:b\x05\0\0\0urn:q\x03\x02\0\0\0en\x05\0\0\0Press\x03\0\0\0\x05\0\0\0urn:g\x05\0\0\0urn:d\x02\0\0\0\x0B\0\0\0opc.tcp://a\x0B\0\0\0opc.tcp://b";

/// The endpoint before and behind its application.
const URL: &[u8] = b"\x0B\0\0\0opc.tcp://c";

const SECURITY: &[u8] = b"\x03\0\0\0\0\xAB\xFF\x03\0\0\0\x05\0\0\0urn:s";

const TOKENS: &[u8] =
    b"\x01\0\0\0\x01\0\0\0\x31\x02\0\0\0\x05\0\0\0urn:i\x05\0\0\0urn:j\x05\0\0\0urn:k";

const TRANSPORT: &[u8] = b"\x05\0\0\0urn:t\xC8";

const ENGLISH: &[u8] = b"\x01\0\0\0\x02\0\0\0en";

const ENDPOINT_FOUND: [&[u8]; 7] = [
    ENDPOINTS_FOUND,
    b"\x01\0\0\0",
    URL,
    APPLICATION,
    SECURITY,
    TOKENS,
    TRANSPORT,
];

const SERVER_FOUND: [&[u8]; 3] = [SERVERS_FOUND, b"\x01\0\0\0", APPLICATION];

/// Whether the settings answer a request of this id, in these languages, by these parts.
fn finds(alloc: Global, settings: &str, id: &[u8], locales: &[u8], parts: &[&[u8]]) -> bool {
    match (asking(alloc, id, locales, NULL), joined(alloc, parts)) {
        (Ok(request), Ok(answer)) => {
            answers_at(alloc, settings, 0, request.as_slice(), answer.as_slice())
        }
        _ => false,
    }
}

#[test]
fn every_key_is_answered(rt: HostRuntime) {
    let alloc = rt.alloc();
    assert!(rt; finds(alloc, EVERY_KEY, ENDPOINTS, ENGLISH, &ENDPOINT_FOUND));
    assert!(rt; finds(alloc, EVERY_KEY, FIND, ENGLISH, &SERVER_FOUND));
}

const EVERY_LIMIT: Limits = Limits {
    receive: 8192,
    send: 1_048_576,
    max_message: 16_777_216,
    max_chunks: 65535,
};

#[test]
fn every_limit_is_read(rt: HostRuntime) {
    let url = Some("opc.tcp://c");
    assert!(rt; says_of_itself(rt.alloc(), EVERY_KEY, EVERY_LIMIT, "urn:b", url));
}

/// The keys that are required, and an endpoint with its own; one text is empty.
const LEAST: &str = r#"version = 1
[application]
uri = "u"
names = [{ text = "" }]
[[endpoint]]
url = "e"
"#;

const LEAST_APPLICATION: &[u8] =
    b"\x01\0\0\0u\xFF\xFF\xFF\xFF\x02\0\0\0\0\0\0\0\0\xFF\xFF\xFF\xFF\xFF\xFF\xFF\xFF\0\0\0\0";

const LEAST_FOUND: [&[u8]; 9] = [
    ENDPOINTS_FOUND,
    b"\x01\0\0\0\x01\0\0\0e",
    LEAST_APPLICATION,
    NULL,
    b"\x01\0\0\0",
    POLICY_NONE,
    EMPTY,
    BINARY_PROFILE,
    b"\0",
];

#[test]
fn keys_that_are_absent_have_their_defaults(rt: HostRuntime) {
    assert!(rt; finds(rt.alloc(), LEAST, ENDPOINTS, NULL, &LEAST_FOUND));
}

/// No endpoints, and one limit.
const SOME_KEYS: &str = r#"version = 1
[application]
uri = "u"
names = [{ text = "" }]
[limits]
send = 8192
"#;

const SOME_LIMITS: Limits = Limits {
    receive: 65535,
    send: 8192,
    max_message: 1_048_576,
    max_chunks: 64,
};

#[test]
fn settings_without_endpoints_have_no_url(rt: HostRuntime) {
    assert!(rt; says_of_itself(rt.alloc(), SOME_KEYS, SOME_LIMITS, "u", None));
}

#[test]
fn settings_without_endpoints_answer_with_none(rt: HostRuntime) {
    assert!(rt;
        finds(
            rt.alloc(),
            SOME_KEYS,
            ENDPOINTS,
            NULL,
            &[ENDPOINTS_FOUND, EMPTY]
        )
    );
}
