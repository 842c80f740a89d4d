//! Structures of services, compared and shown.

use crate::vectors::{FAULT_RESPONSE_BODY, OTHER_REQUEST_BODY};
use std::alloc::Global;
use std::fmt::Debug;
use ua_service::{Body, Request, Response, request_header};
use ua_value::DateTime;

/// Whether the headers of these moments and handles are equal.
fn are_equal(one: (i64, u32), other: (i64, u32)) -> bool {
    request_header(DateTime(one.0), one.1) == request_header(DateTime(other.0), other.1)
}

#[test]
fn headers_with_equal_fields_are_equal(rt: HostRuntime) {
    assert!(rt; are_equal((5, 7), (5, 7)));
    assert!(rt; !are_equal((5, 7), (6, 7)));
    assert!(rt; !are_equal((5, 7), (5, 8)));
}

fn shows_part<T: Debug>(alloc: Global, value: &T, part: &str) -> bool {
    match format!(in alloc; "{value:?}") {
        Ok(text) => text.as_str().contains(part),
        Err(_) => false,
    }
}

/// Whether the message of the body is shown with the part.
fn is_shown<B: Body + Debug>(alloc: Global, body: &[u8], part: &str) -> bool {
    if body.len() > 1000 {
        return false;
    }
    match B::read_body(alloc, body) {
        Ok(message) => shows_part(alloc, &message, part),
        Err(_) => false,
    }
}

#[test]
fn messages_are_shown_with_their_fields(rt: HostRuntime) {
    let alloc = rt.alloc();
    assert!(rt; is_shown::<Request>(alloc, OTHER_REQUEST_BODY, "request_handle: 2"));
    assert!(rt; is_shown::<Request>(alloc, OTHER_REQUEST_BODY, "rest: [170, 187]"));
    assert!(rt;
        is_shown::<Response>(
            alloc,
            FAULT_RESPONSE_BODY,
            "service_result: StatusCode(2148204544)"
        )
    );
}
