//! What settings answer to requests, and their readers.

use std::alloc::{AllocError, Global};
use ua_disco::{DEFAULT, Settings, answer};
use ua_frame::Limits;
use ua_service::{Body, Request, body_of};
use ua_test_lent::by_settings;
use ua_test_shared::bytes::joined;
use ua_test_shared::vectors::{
    ASKED, ENDPOINTS_REQUEST, ENDPOINTS_RESPONSE, FAULT_RESPONSE, FIND_REQUEST, FIND_RESPONSE,
    OTHER_REQUEST,
};
use ua_value::{NoMemory, UaString};

/// A request under the id, with these languages and this filter.
pub(crate) fn asking(
    alloc: Global,
    id: &[u8],
    locales: &[u8],
    filter: &[u8],
) -> Result<Vec<u8>, AllocError> {
    joined(alloc, &[id, ASKED, locales, filter])
}

/// What settings answer.
pub(crate) trait Asked: Body {
    /// The body of their answer at the moment.
    fn answer_body(
        &self,
        alloc: Global,
        settings: &Settings,
        now: i64,
    ) -> Result<Vec<u8>, NoMemory>;
}

impl Asked for Request {
    fn answer_body(
        &self,
        alloc: Global,
        settings: &Settings,
        now: i64,
    ) -> Result<Vec<u8>, NoMemory> {
        body_of(alloc, answer(alloc, settings, self, now)?)
    }
}

/// Whether the settings answer the request so at the moment.
fn is_answer<A: Asked>(
    alloc: Global,
    settings: &Settings,
    request: &A,
    now: i64,
    answer: &[u8],
) -> bool {
    match request.answer_body(alloc, settings, now) {
        Ok(body) => body.as_slice() == answer,
        Err(_) => false,
    }
}

fn answer_to<A: Asked>(
    alloc: Global,
    settings: &Settings,
    now: i64,
    request: &[u8],
    answer: &[u8],
) -> bool {
    if request.len() > 1000 {
        return false;
    }
    match A::read_body(alloc, request) {
        Ok(request) => is_answer(alloc, settings, &request, now, answer),
        Err(_) => false,
    }
}

/// Whether settings of the text answer the request of this body so at the moment.
pub(crate) fn answers_at(
    alloc: Global,
    text: &str,
    now: i64,
    request: &[u8],
    answer: &[u8],
) -> bool {
    by_settings(alloc, text, |alloc, settings| {
        answer_to::<Request>(alloc, settings, now, request, answer)
    })
}

/// Frames of requests and of what the settings by default answer.
const ANSWERED: [(&[u8], &[u8]); 3] = [
    (FIND_REQUEST, FIND_RESPONSE),
    (ENDPOINTS_REQUEST, ENDPOINTS_RESPONSE),
    (OTHER_REQUEST, FAULT_RESPONSE),
];

/// The answer with the timestamp in the place of the moment 0.
fn is_answered_at(
    alloc: Global,
    now: i64,
    timestamp: &[u8],
    request: &[u8],
    response: &[u8],
) -> bool {
    let (Some(request), Some(id), Some(rest)) = (
        request.get(24..),
        response.get(24..28),
        response.get(36..),
    ) else {
        return false;
    };
    match joined(alloc, &[id, timestamp, rest]) {
        Ok(answer) => answers_at(alloc, DEFAULT, now, request, answer.as_slice()),
        Err(_) => false,
    }
}

const MOMENTS: [(i64, &[u8]); 3] = [
    (0, b"\0\0\0\0\0\0\0\0"),
    (0x0102_0304_0506_0708, b"\x08\x07\x06\x05\x04\x03\x02\x01"),
    (-2, b"\xFE\xFF\xFF\xFF\xFF\xFF\xFF\xFF"),
];

#[test]
fn answers_have_their_moment(rt: HostRuntime) {
    for (now, timestamp) in MOMENTS {
        for (request, response) in ANSWERED {
            assert!(rt;
                is_answered_at(rt.alloc(), now, timestamp, request, response),
                "{now}"
            );
        }
    }
}

fn is_text(value: &UaString, text: &str) -> bool {
    value.get() == Some(text)
}

/// Whether the settings have these limits, this URI and this url, or no url.
fn shows(settings: &Settings, limits: Limits, uri: &str, url: Option<&str>) -> bool {
    let is_url = match (settings.first_url(), url) {
        (Some(found), Some(url)) => is_text(found, url),
        (None, None) => true,
        _ => false,
    };
    is_url && settings.limits() == limits && is_text(settings.first_uri(), uri)
}

/// Whether the settings of the text show these.
pub(crate) fn says_of_itself(
    alloc: Global,
    text: &str,
    limits: Limits,
    uri: &str,
    url: Option<&str>,
) -> bool {
    by_settings(alloc, text, |_, settings| shows(settings, limits, uri, url))
}

const LIMITS: Limits = Limits {
    receive: 65535,
    send: 65535,
    max_message: 1_048_576,
    max_chunks: 64,
};

#[test]
fn settings_by_default_are_read_back(rt: HostRuntime) {
    let url = Some("opc.tcp://localhost:4840");
    assert!(rt; says_of_itself(rt.alloc(), DEFAULT, LIMITS, "urn:a", url));
}
