//! Each call that grows gives its full answer, or says that memory ran out and leaves what stood before. These tests are run with each growth
//! refused in turn (tools/refuse-growths).

use crate::answers::Asked;
use std::alloc::Global;
use ua_disco::{DEFAULT, Settings, SettingsFault};
use ua_service::Request;
use ua_test_shared::lending::passes;
use ua_test_shared::vectors::{
    ENDPOINTS_REQUEST, ENDPOINTS_RESPONSE, FAULT_RESPONSE, FIND_REQUEST, FIND_RESPONSE,
    OTHER_REQUEST,
};
use ua_value::ReadFault;

/// Frames of requests and of what the settings by default answer.
const ANSWERED: [(&[u8], &[u8]); 3] = [
    (FIND_REQUEST, FIND_RESPONSE),
    (ENDPOINTS_REQUEST, ENDPOINTS_RESPONSE),
    (OTHER_REQUEST, FAULT_RESPONSE),
];

/// Whether the settings answer the request so where memory is there.
fn is_answer_or_no_memory<A: Asked>(
    alloc: Global,
    settings: &Settings,
    request: &A,
    answer: &[u8],
) -> bool {
    match request.answer_body(alloc, settings, 0) {
        Ok(body) => body.as_slice() == answer,
        Err(_) => true,
    }
}

fn is_answered_or_no_memory<A: Asked>(
    alloc: Global,
    settings: &Settings,
    request: &[u8],
    answer: &[u8],
) -> bool {
    if request.len() > 1000 {
        return false;
    }
    match A::read_body(alloc, request) {
        Ok(request) => is_answer_or_no_memory(alloc, settings, &request, answer),
        Err(fault) => fault == ReadFault::NoMemory,
    }
}

/// Whether that holds of the bodies of a request's frame and of its answer's.
fn is_frame_answered_or_no_memory(
    alloc: Global,
    settings: &Settings,
    request: &[u8],
    response: &[u8],
) -> bool {
    match (request.get(24..), response.get(24..)) {
        (Some(request), Some(answer)) => {
            is_answered_or_no_memory::<Request>(alloc, settings, request, answer)
        }
        _ => false,
    }
}

fn are_answered_or_no_memory(alloc: Global, settings: &Settings) -> bool {
    let mut all = true;
    for (request, response) in ANSWERED {
        if !is_frame_answered_or_no_memory(alloc, settings, request, response) {
            all = false;
        }
    }
    all
}

fn default_answers_or_no_memory(alloc: Global) -> bool {
    match Settings::from_toml(alloc, DEFAULT.as_bytes()) {
        Ok(settings) => are_answered_or_no_memory(alloc, &settings),
        Err(fault) => matches!(&fault, SettingsFault::NoMemory),
    }
}

#[test]
fn settings_and_answers_or_no_memory(rt: HostRuntime) {
    assert!(rt; default_answers_or_no_memory(rt.alloc()));
}

/// Whether settings of the text answer the request of this body so where memory is there.
pub(crate) fn answers_or_no_memory(
    alloc: Global,
    text: &str,
    request: &[u8],
    answer: &[u8],
) -> bool {
    match Settings::from_toml(alloc, text.as_bytes()) {
        Ok(settings) => is_answered_or_no_memory::<Request>(alloc, &settings, request, answer),
        Err(fault) => matches!(&fault, SettingsFault::NoMemory),
    }
}

/// Settings whose fault is that of an item, whose key grows by parts.
const REFUSED: &str =
    "version = 1\n[application]\nuri = \"u\"\nnames = [{ text = \"n\" }]\n[[endpoint]]\nurl = \"u\"\ntokens = [{ id = \"0\" }, { id = \"1\", type = 4 }]\n";

fn is_value_or_no_memory(fault: &SettingsFault, bad: &str) -> bool {
    match fault {
        SettingsFault::NoMemory => true,
        SettingsFault::BadValue(key) => key.as_str() == bad,
        _ => false,
    }
}

/// Whether settings of the text are refused for the value of this key, where memory is there.
pub(crate) fn is_bad_or_no_memory(alloc: Global, text: &str, bad: &str) -> bool {
    let fault = Settings::from_toml(alloc, text.as_bytes()).err();
    passes(fault, |fault| is_value_or_no_memory(fault, bad))
}

#[test]
fn refused_settings_or_no_memory(rt: HostRuntime) {
    let alloc = rt.alloc();
    assert!(rt; is_bad_or_no_memory(alloc, REFUSED, "endpoint.0.tokens.1.type"));
}
