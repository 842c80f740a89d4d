//! Which name, which applications and which endpoints an answer has.

use crate::answers::{answers_at, asking};
use std::alloc::Global;
use ua_disco::DEFAULT;
use ua_test_shared::bytes::joined;
use ua_test_shared::vectors::{
    BINARY_PROFILE, EMPTY, ENDPOINTS, ENDPOINTS_FOUND, ENDPOINTS_RESPONSE, FIND, FIND_RESPONSE,
    NULL, SERVERS_FOUND,
};

/// The settings by default without endpoints, with a name in a second language.
const TWO_NAMES: &str = r#"version = 1
[application]
uri = "urn:a"
product_uri = "urn:p"
discovery_urls = ["opc.tcp://localhost:4840"]
names = [{ locale = "en", text = "Press" }, { locale = "de", text = "Presse" }]
"#;

/// Their application before and behind its name.
const BEFORE_NAME: &[u8] = b"\x05\0\0\0urn:a\x05\0\0\0urn:p";

const BEHIND_NAME: &[u8] =
    b"\0\0\0\0\xFF\xFF\xFF\xFF\xFF\xFF\xFF\xFF\x01\0\0\0\x18\0\0\0opc.tcp://localhost:4840";

const ENGLISH: &[u8] = b"\x03\x02\0\0\0en\x05\0\0\0Press";

const GERMAN: &[u8] = b"\x03\x02\0\0\0de\x06\0\0\0Presse";

/// The languages that are wanted, and the name.
const NAMES: [(&[u8], &[u8]); 7] = [
    (NULL, ENGLISH),
    (EMPTY, ENGLISH),
    (b"\x03\0\0\0\x02\0\0\0fr\x02\0\0\0de\x02\0\0\0en", GERMAN),
    (b"\x01\0\0\0\x02\0\0\0de", GERMAN),
    (b"\x02\0\0\0\x02\0\0\0en\x02\0\0\0de", ENGLISH),
    (b"\x01\0\0\0\x02\0\0\0fr", ENGLISH),
    (b"\x01\0\0\0\x05\0\0\0de-DE", ENGLISH),
];

/// Whether settings answer a request for servers in these languages by their application under this name.
fn is_named(alloc: Global, settings: &str, locales: &[u8], name: &[u8]) -> bool {
    match (
        asking(alloc, FIND, locales, NULL),
        joined(
            alloc,
            &[SERVERS_FOUND, b"\x01\0\0\0", BEFORE_NAME, name, BEHIND_NAME],
        ),
    ) {
        (Ok(request), Ok(answer)) => {
            answers_at(alloc, settings, 0, request.as_slice(), answer.as_slice())
        }
        _ => false,
    }
}

#[test]
fn names_are_in_the_earliest_language_that_is_there(rt: HostRuntime) {
    for (locales, name) in NAMES {
        assert!(rt;
            is_named(rt.alloc(), TWO_NAMES, locales, name),
            "{locales:?}"
        );
    }
}

/// The second name is in no language.
const WITHOUT_LOCALE: &str = r#"version = 1
[application]
uri = "urn:a"
product_uri = "urn:p"
discovery_urls = ["opc.tcp://localhost:4840"]
names = [{ locale = "en", text = "Press" }, { text = "Presse" }]
"#;

/// A null locale is wanted, and an empty one.
const NO_LOCALES: [(&[u8], &[u8]); 2] = [
    (b"\x01\0\0\0\xFF\xFF\xFF\xFF", b"\x02\x06\0\0\0Presse"),
    (b"\x01\0\0\0\0\0\0\0", ENGLISH),
];

#[test]
fn a_null_locale_is_that_of_a_name_without_one(rt: HostRuntime) {
    for (locales, name) in NO_LOCALES {
        assert!(rt;
            is_named(rt.alloc(), WITHOUT_LOCALE, locales, name),
            "{locales:?}"
        );
    }
}

/// The first name is German, and two are in English, in no language, and in that of the empty text.
const TWO_OF_A_LOCALE: &str = r#"version = 1
[application]
uri = "urn:a"
product_uri = "urn:p"
discovery_urls = ["opc.tcp://localhost:4840"]
names = [
    { locale = "de", text = "Presse" },
    { locale = "en", text = "Press" },
    { text = "a" },
    { locale = "", text = "b" },
    { locale = "en", text = "Printer" },
    { text = "c" },
    { locale = "", text = "d" },
]
"#;

/// A locale that two of them are in, and the first of the two; then one that is in none.
const FIRST_OF_A_LOCALE: [(&[u8], &[u8]); 4] = [
    (b"\x01\0\0\0\x02\0\0\0en", ENGLISH),
    (b"\x01\0\0\0\xFF\xFF\xFF\xFF", b"\x02\x01\0\0\0a"),
    (b"\x01\0\0\0\0\0\0\0", b"\x03\0\0\0\0\x01\0\0\0b"),
    (b"\x01\0\0\0\x02\0\0\0fr", GERMAN),
];

#[test]
fn of_two_names_in_a_locale_the_first_is_given(rt: HostRuntime) {
    for (locales, name) in FIRST_OF_A_LOCALE {
        assert!(rt;
            is_named(rt.alloc(), TWO_OF_A_LOCALE, locales, name),
            "{locales:?}"
        );
    }
}

/// Frames without servers and without endpoints.
const NO_SERVERS: &[u8] =
    b"MSGF\x38\0\0\0\x01\0\0\0\x01\0\0\0\x02\0\0\0\x02\0\0\0\x01\0\xA9\x01\0\0\0\0\0\0\0\0\x02\0\0\0\0\0\0\0\0\xFF\xFF\xFF\xFF\0\0\0\0\0\0\0";

const NO_ENDPOINTS: &[u8] =
    b"MSGF\x38\0\0\0\x01\0\0\0\x01\0\0\0\x02\0\0\0\x02\0\0\0\x01\0\xAF\x01\0\0\0\0\0\0\0\0\x02\0\0\0\0\0\0\0\0\xFF\xFF\xFF\xFF\0\0\0\0\0\0\0";

/// The filter of a request of this id, and the frame of what the settings by default answer.
const FILTERS: [(&[u8], &[u8], &[u8]); 10] = [
    (FIND, NULL, FIND_RESPONSE),
    (FIND, EMPTY, FIND_RESPONSE),
    (FIND, b"\x01\0\0\0\x05\0\0\0urn:a", FIND_RESPONSE),
    (FIND, b"\x01\0\0\0\x05\0\0\0urn:b", NO_SERVERS),
    (
        FIND,
        b"\x02\0\0\0\x05\0\0\0urn:b\x05\0\0\0urn:a",
        FIND_RESPONSE,
    ),
    (FIND, b"\x01\0\0\0\xFF\xFF\xFF\xFF", NO_SERVERS),
    (ENDPOINTS, NULL, ENDPOINTS_RESPONSE),
    (ENDPOINTS, EMPTY, ENDPOINTS_RESPONSE),
    (ENDPOINTS, b"\x01\0\0\0\x05\0\0\0urn:t", NO_ENDPOINTS),
    (
        ENDPOINTS,
        b"\x01\0\0\0\x41\0\0\0http://opcfoundation.org/UA-Profile/Transport/uatcp-uasc-uabinary",
        ENDPOINTS_RESPONSE,
    ),
];

fn is_filtered(alloc: Global, id: &[u8], filter: &[u8], response: &[u8]) -> bool {
    match (asking(alloc, id, NULL, filter), response.get(24..)) {
        (Ok(request), Some(answer)) => answers_at(alloc, DEFAULT, 0, request.as_slice(), answer),
        _ => false,
    }
}

#[test]
fn filters_ask_for_what_they_name(rt: HostRuntime) {
    for (id, filter, response) in FILTERS {
        assert!(rt; is_filtered(rt.alloc(), id, filter, response), "{filter:?}");
    }
}

/// Endpoints of two transports by turns.
const THREE_ENDPOINTS: &str = r#"version = 1
[application]
uri = ""
names = [{ text = "n" }]
[[endpoint]]
url = "a"
policy = ""
transport = "x"
[[endpoint]]
url = "b"
policy = ""
[[endpoint]]
url = "c"
policy = ""
transport = "x"
"#;

/// What they have between their url and their transport: the application, no certificate, the mode and the policy, no tokens.
const BETWEEN: &[u8] =
    b"\0\0\0\0\xFF\xFF\xFF\xFF\x02\x01\0\0\0n\0\0\0\0\xFF\xFF\xFF\xFF\xFF\xFF\xFF\xFF\0\0\0\0\xFF\xFF\xFF\xFF\x01\0\0\0\0\0\0\0\0\0\0\0";

const A: &[u8] = b"\x01\0\0\0a";

const B: &[u8] = b"\x01\0\0\0b";

const C: &[u8] = b"\x01\0\0\0c";

const X: &[u8] = b"\x01\0\0\0x\0";

const TWO_ENDPOINTS_FOUND: [&[u8]; 8] = [
    ENDPOINTS_FOUND,
    b"\x02\0\0\0",
    A,
    BETWEEN,
    X,
    C,
    BETWEEN,
    X,
];

const THREE_ENDPOINTS_FOUND: [&[u8]; 12] = [
    ENDPOINTS_FOUND,
    b"\x03\0\0\0",
    A,
    BETWEEN,
    X,
    B,
    BETWEEN,
    BINARY_PROFILE,
    b"\0",
    C,
    BETWEEN,
    X,
];

/// Whether a request for endpoints with this filter is answered by these parts.
fn finds(alloc: Global, filter: &[u8], parts: &[&[u8]]) -> bool {
    match (asking(alloc, ENDPOINTS, NULL, filter), joined(alloc, parts)) {
        (Ok(request), Ok(answer)) => {
            let (request, answer) = (request.as_slice(), answer.as_slice());
            answers_at(alloc, THREE_ENDPOINTS, 0, request, answer)
        }
        _ => false,
    }
}

#[test]
fn endpoints_keep_their_order(rt: HostRuntime) {
    let alloc = rt.alloc();
    assert!(rt; finds(alloc, b"\x01\0\0\0\x01\0\0\0x", &TWO_ENDPOINTS_FOUND));
    assert!(rt; finds(alloc, EMPTY, &THREE_ENDPOINTS_FOUND));
}
