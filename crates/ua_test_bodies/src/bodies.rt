//! Whole bodies of messages, byte for byte.

use crate::vectors::{
    CLOSE_REQUEST_BODY, ENDPOINTS_REQUEST_BODY, ENDPOINTS_RESPONSE_BODY, FAULT_RESPONSE_BODY,
    FIND_REQUEST_BODY, FIND_RESPONSE_BODY, OPEN_REQUEST_BODY, OPEN_RESPONSE_BODY,
    OTHER_REQUEST_BODY,
};
use std::alloc::{AllocError, Global};
use ua_service::{
    ApplicationDescription, Body, CloseRequest, EndpointDescription, OpenRequest, OpenResponse,
    Request, Response, body_len, body_of, laws, read_close, read_open, read_open_response,
    read_request, read_response, write_body,
};
use ua_test_shared::bytes::both;
use ua_test_shared::spelling::{are_texts, is_behind, is_text};
use ua_value::ReadFault;

const URL: &str = "opc.tcp://localhost:4840";

/// A message that knows the fields of its body here.
pub(crate) trait Known {
    fn is_known(&self) -> bool;
}

/// Whether the bytes are the body of a known message, for which `canon` is written.
pub(crate) fn is_body<B: Body + Known>(alloc: Global, bytes: &[u8], canon: &[u8]) -> bool {
    if bytes.len() > 1000 {
        return false;
    }
    match B::read_body(alloc, bytes) {
        Ok(message) => is_body_of(alloc, &message, canon) && message.is_known(),
        Err(_) => false,
    }
}

/// Whether the bytes are the body of no such message.
pub(crate) fn is_no_body<B: Body>(alloc: Global, bytes: &[u8]) -> bool {
    bytes.len() <= 1000 && matches!(B::read_body(alloc, bytes), Err(ReadFault::Refused))
}

/// Whether the bytes are the body of the message, also behind other bytes.
pub(crate) fn is_body_of<B: Body>(alloc: Global, message: &B, body: &[u8]) -> bool {
    body_len(message) == body.len() as u64
        && is_written(alloc, message, body)
        && is_put(alloc, message, body)
}

fn is_written<B: Body>(alloc: Global, message: &B, body: &[u8]) -> bool {
    let Ok(mut out) = [7].to_vec(alloc) else {
        return false;
    };
    write_body(message, &mut out).is_ok() && is_behind(out.as_slice(), body)
}

fn is_given<B: Body>(alloc: Global, body: &[u8]) -> bool {
    if body.len() > 1000 {
        return false;
    }
    match B::read_body(alloc, body) {
        Ok(message) => is_the_body(body_of(alloc, message), body),
        Err(_) => false,
    }
}

fn is_the_body(found: Result<Vec<u8>, AllocError>, body: &[u8]) -> bool {
    match found {
        Ok(found) => found.as_slice() == body,
        Err(_) => false,
    }
}

#[test]
fn messages_give_their_bodies(rt: HostRuntime) {
    assert!(rt; is_given::<Request>(rt.alloc(), FIND_REQUEST_BODY));
    assert!(rt; is_given::<Response>(rt.alloc(), FAULT_RESPONSE_BODY));
    assert!(rt; is_given::<OpenResponse>(rt.alloc(), OPEN_RESPONSE_BODY));
}

fn is_put<B: Body>(alloc: Global, message: &B, body: &[u8]) -> bool {
    let mut put = Vec::new(alloc);
    message.emit_body(&mut put).is_ok() && put.as_slice() == body
}

/// Whether the known message is written as its body, and neither a beginning of that nor one byte more is a body.
fn is_whole<B: Body + Known>(alloc: Global, body: &[u8]) -> bool {
    is_body::<B>(alloc, body, body)
        && has_no_shorter::<B>(alloc, body)
        && is_no_longer::<B>(alloc, body)
}

/// Whether no beginning that is shorter is a body.
pub(crate) fn has_no_shorter<B: Body>(alloc: Global, body: &[u8]) -> bool {
    let mut is_none = true;
    for end in 0..body.len() {
        if !is_no_body::<B>(alloc, &body[..end]) {
            is_none = false;
        }
    }
    is_none
}

/// Whether it is no body with one byte more.
fn is_no_longer<B: Body>(alloc: Global, body: &[u8]) -> bool {
    match both(alloc, body, &[0]) {
        Ok(longer) => is_no_body::<B>(alloc, longer.as_slice()),
        Err(_) => false,
    }
}

impl Known for OpenRequest {
    fn is_known(&self) -> bool {
        self.header.request_handle == 1
            && self.request_type == 0
            && self.security_mode == 1
            && self.client_nonce.get().is_none()
            && self.requested_lifetime == 0
    }
}

impl Known for OpenResponse {
    fn is_known(&self) -> bool {
        self.header.request_handle == 1
            && self.channel_id == 1
            && self.token_id == 1
            && self.revised_lifetime == 3600000
            && self.server_nonce.get().is_none()
    }
}

impl Known for CloseRequest {
    fn is_known(&self) -> bool {
        self.header.request_handle == 3
    }
}

impl Known for Request {
    fn is_known(&self) -> bool {
        match self {
            Request::FindServers(find) => {
                find.header.request_handle == 2
                    && is_text(&find.endpoint_url, URL)
                    && find.locale_ids.get().is_none()
                    && find.server_uris.get().is_none()
            }
            Request::GetEndpoints(asked) => {
                asked.header.request_handle == 2
                    && is_text(&asked.endpoint_url, URL)
                    && asked.locale_ids.get().is_none()
                    && asked.profile_uris.get().is_none()
            }
            Request::Other(other) => other.header().request_handle == 2,
        }
    }
}

fn is_the_server(server: &ApplicationDescription) -> bool {
    is_text(&server.application_uri, "urn:a")
        && is_text(&server.product_uri, "urn:p")
        && is_text(&server.application_name.locale, "en")
        && is_text(&server.application_name.text, "Press")
        && server.application_type == 0
        && server.gateway_server_uri.get().is_none()
        && are_texts(&server.discovery_urls, &[URL])
}

fn is_the_endpoint(endpoint: &EndpointDescription) -> bool {
    is_text(&endpoint.endpoint_url, URL)
        && is_the_server(&endpoint.server)
        && endpoint.security_mode == 1
}

impl Known for Response {
    fn is_known(&self) -> bool {
        match self {
            Response::FindServers(found) => {
                matches!(found.servers.get(), Some([server]) if is_the_server(server))
            }
            Response::GetEndpoints(got) => {
                matches!(got.endpoints.get(), Some([endpoint]) if is_the_endpoint(endpoint))
            }
            Response::Fault(fault) => fault.header.service_result.0 == 0x800B_0000,
        }
    }
}

#[test]
fn bodies_of_a_channel_are_read_and_written(rt: HostRuntime) {
    let alloc = rt.alloc();
    assert!(rt; is_whole::<OpenRequest>(alloc, OPEN_REQUEST_BODY));
    assert!(rt; is_whole::<OpenResponse>(alloc, OPEN_RESPONSE_BODY));
    assert!(rt; is_whole::<CloseRequest>(alloc, CLOSE_REQUEST_BODY));
}

#[test]
fn bodies_of_discovery_are_read_and_written(rt: HostRuntime) {
    let alloc = rt.alloc();
    assert!(rt; is_whole::<Request>(alloc, FIND_REQUEST_BODY));
    assert!(rt; is_whole::<Request>(alloc, ENDPOINTS_REQUEST_BODY));
    assert!(rt; is_whole::<Response>(alloc, FIND_RESPONSE_BODY));
    assert!(rt; is_whole::<Response>(alloc, ENDPOINTS_RESPONSE_BODY));
    assert!(rt; is_whole::<Response>(alloc, FAULT_RESPONSE_BODY));
}

/// Whether it was read; where it was not, nothing else than a refusal keeps it from that.
fn is_read<T: Drop>(answer: Result<T, ReadFault>) -> Option<bool> {
    match answer {
        Ok(_) => Some(true),
        Err(ReadFault::Refused) => Some(false),
        Err(ReadFault::NoMemory) => None,
    }
}

/// Whether the bytes are read as a request, a response, an open request, its response, and a close request.
fn has_readers(alloc: Global, bytes: &[u8], readers: &[bool; 5]) -> bool {
    bytes.len() <= 1000
        && is_read(read_request(alloc, bytes)) == Some(readers[0])
        && is_read(read_response(alloc, bytes)) == Some(readers[1])
        && is_read(read_open(alloc, bytes)) == Some(readers[2])
        && is_read(read_open_response(alloc, bytes)) == Some(readers[3])
        && is_read(read_close(alloc, bytes)) == Some(readers[4])
}

/// A request over a channel may be one of any service, so those of the channel are read as others.
const READERS: [(&[u8], [bool; 5]); 10] = [
    (FIND_REQUEST_BODY, [true, false, false, false, false]),
    (ENDPOINTS_REQUEST_BODY, [true, false, false, false, false]),
    (OTHER_REQUEST_BODY, [true, false, false, false, false]),
    (FIND_RESPONSE_BODY, [false, true, false, false, false]),
    (ENDPOINTS_RESPONSE_BODY, [false, true, false, false, false]),
    (FAULT_RESPONSE_BODY, [false, true, false, false, false]),
    (OPEN_REQUEST_BODY, [true, false, true, false, false]),
    (OPEN_RESPONSE_BODY, [false, false, false, true, false]),
    (CLOSE_REQUEST_BODY, [true, false, false, false, true]),
    (&[], [false, false, false, false, false]),
];

#[test]
fn each_body_has_its_readers(rt: HostRuntime) {
    for (bytes, readers) in &READERS {
        assert!(rt; has_readers(rt.alloc(), bytes, readers), "{bytes:?}");
    }
}

/// The body with the numeric form of seven bytes in place of that of four.
fn with_long_id(alloc: Global, body: &[u8]) -> Result<Vec<u8>, AllocError> {
    match body {
        [1, namespace, low, high, fields @ ..] => {
            both(alloc, &[2, *namespace, 0, *low, *high, 0, 0], fields)
        }
        _ => Ok(Vec::new(alloc)),
    }
}

/// Whether the body is read also with the long form of its id, and written with the short one.
fn has_both_forms<B: Body + Known>(alloc: Global, body: &[u8]) -> bool {
    match with_long_id(alloc, body) {
        Ok(long) => {
            long.len() == body.len().wrapping_add(3) && is_body::<B>(alloc, long.as_slice(), body)
        }
        Err(_) => false,
    }
}

fn have_both_forms<B: Body + Known>(alloc: Global, bodies: &[&[u8]]) -> bool {
    let mut all = true;
    for body in bodies {
        all &= has_both_forms::<B>(alloc, body);
    }
    all
}

const REQUESTS: &[&[u8]] = &[
    FIND_REQUEST_BODY,
    ENDPOINTS_REQUEST_BODY,
    OTHER_REQUEST_BODY,
];

const RESPONSES: &[&[u8]] = &[
    FIND_RESPONSE_BODY,
    ENDPOINTS_RESPONSE_BODY,
    FAULT_RESPONSE_BODY,
];

/// Whether the body of a find request has 69 bytes, and 72 with the long form of its id.
fn has_72_bytes(alloc: Global) -> bool {
    match with_long_id(alloc, FIND_REQUEST_BODY) {
        Ok(long) => {
            FIND_REQUEST_BODY.len() == 69
                && long.len() == 72
                && long.as_slice().starts_with(b"\x02\0\0\xA6\x01\0\0")
        }
        Err(_) => false,
    }
}

#[test]
fn the_long_form_of_an_id_is_read_and_the_short_one_written(rt: HostRuntime) {
    let alloc = rt.alloc();
    assert!(rt; has_72_bytes(alloc));
    assert!(rt; have_both_forms::<Request>(alloc, REQUESTS));
    assert!(rt; have_both_forms::<Response>(alloc, RESPONSES));
    assert!(rt; has_both_forms::<OpenRequest>(alloc, OPEN_REQUEST_BODY));
    assert!(rt; has_both_forms::<OpenResponse>(alloc, OPEN_RESPONSE_BODY));
    assert!(rt; has_both_forms::<CloseRequest>(alloc, CLOSE_REQUEST_BODY));
}

#[test]
fn laws_at_each_message() {
    laws::bodies_are_read_as_their_messages::<Request>();
    laws::bodies_are_read_as_their_messages::<Response>();
    laws::bodies_are_read_as_their_messages::<OpenRequest>();
    laws::bodies_are_read_as_their_messages::<OpenResponse>();
    laws::bodies_are_read_as_their_messages::<CloseRequest>();
}
