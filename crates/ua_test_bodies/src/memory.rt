//! Each call that grows gives its full answer, or says that memory ran out and leaves what stood before. These tests are run with each growth
//! refused in turn (tools/refuse-growths).

use crate::requests::{Header, Session, request_of};
use crate::vectors::{
    CLOSE_REQUEST_BODY, ENDPOINTS_REQUEST_BODY, ENDPOINTS_RESPONSE_BODY, FAULT_RESPONSE_BODY,
    FIND_REQUEST_BODY, FIND_RESPONSE_BODY, OPEN_REQUEST_BODY, OPEN_RESPONSE_BODY,
    OTHER_REQUEST_BODY,
};
use std::alloc::Global;
use ua_service::{
    Body, CloseRequest, EndpointDescription, OpenRequest, OpenResponse, Request, RequestHeader,
    Response,
};
use ua_test_shared::memory::{is_all_or_nothing, is_full_or_no_memory};
use ua_value::ReadFault;

/// Whether the body is read and written, as far as memory goes.
fn is_body_or_no_memory<B: Body>(alloc: Global, body: &[u8]) -> bool {
    if body.len() > 1000 {
        return false;
    }
    match B::read_body(alloc, body) {
        Ok(message) => is_body_written_or_no_memory(alloc, &message, body),
        Err(fault) => fault == ReadFault::NoMemory,
    }
}

fn is_body_written_or_no_memory<B: Body>(alloc: Global, message: &B, body: &[u8]) -> bool {
    let Ok(mut out) = [7].to_vec(alloc) else {
        return true;
    };
    let wrote = message.write_body(&mut out);
    is_all_or_nothing(wrote, out.as_slice(), body)
}

#[test]
fn messages_of_a_channel_or_no_memory(rt: HostRuntime) {
    let alloc = rt.alloc();
    assert!(rt; is_body_or_no_memory::<OpenRequest>(alloc, OPEN_REQUEST_BODY));
    assert!(rt; is_body_or_no_memory::<OpenResponse>(alloc, OPEN_RESPONSE_BODY));
    assert!(rt; is_body_or_no_memory::<CloseRequest>(alloc, CLOSE_REQUEST_BODY));
}

#[test]
fn requests_or_no_memory(rt: HostRuntime) {
    let alloc = rt.alloc();
    assert!(rt; is_body_or_no_memory::<Request>(alloc, FIND_REQUEST_BODY));
    assert!(rt; is_body_or_no_memory::<Request>(alloc, ENDPOINTS_REQUEST_BODY));
    assert!(rt; is_body_or_no_memory::<Request>(alloc, OTHER_REQUEST_BODY));
}

#[test]
fn responses_or_no_memory(rt: HostRuntime) {
    let alloc = rt.alloc();
    assert!(rt; is_body_or_no_memory::<Response>(alloc, FIND_RESPONSE_BODY));
    assert!(rt; is_body_or_no_memory::<Response>(alloc, ENDPOINTS_RESPONSE_BODY));
    assert!(rt; is_body_or_no_memory::<Response>(alloc, FAULT_RESPONSE_BODY));
}

fn is_request_copied_or_no_memory<B: Session>(alloc: Global, request: &B, body: &[u8]) -> bool {
    match request.copied() {
        Ok(copy) => is_body_written_or_no_memory(alloc, &copy, body),
        Err(_) => true,
    }
}

fn has_copy_or_no_memory<B: Session>(alloc: Global, body: &[u8]) -> bool {
    if body.len() > 1000 {
        return false;
    }
    match B::read_body(alloc, body) {
        Ok(request) => is_request_copied_or_no_memory(alloc, &request, body),
        Err(fault) => fault == ReadFault::NoMemory,
    }
}

#[test]
fn copies_of_requests_or_no_memory(rt: HostRuntime) {
    let alloc = rt.alloc();
    assert!(rt; has_copy_or_no_memory::<Request>(alloc, FIND_REQUEST_BODY));
    assert!(rt; has_copy_or_no_memory::<Request>(alloc, ENDPOINTS_REQUEST_BODY));
    assert!(rt; has_copy_or_no_memory::<Request>(alloc, OTHER_REQUEST_BODY));
}

/// The one endpoint of the response.
#[test]
fn copies_of_endpoints_or_no_memory(rt: HostRuntime) {
    let endpoint = &ENDPOINTS_RESPONSE_BODY[32..];
    assert!(rt; is_full_or_no_memory::<EndpointDescription>(rt.alloc(), endpoint));
}

fn is_made_or_no_memory<H: Header>(alloc: Global) -> bool {
    match request_of::<H>(alloc, (0, 461), b"\xAA\xBB") {
        Ok(Some(request)) => is_body_written_or_no_memory(alloc, &request, OTHER_REQUEST_BODY),
        Ok(None) => false,
        Err(fault) => fault == ReadFault::NoMemory,
    }
}

#[test]
fn other_requests_or_no_memory(rt: HostRuntime) {
    assert!(rt; is_made_or_no_memory::<RequestHeader>(rt.alloc()));
}
