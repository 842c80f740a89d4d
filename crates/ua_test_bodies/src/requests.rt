//! Requests of other services, and copies of requests.

use crate::bodies::{has_no_shorter, is_body, is_body_of};
use crate::vectors::{
    ENDPOINTS_REQUEST_BODY, FIND_REQUEST_BODY, OTHER_REQUEST_BODY, REQUEST_HEADER,
};
use std::alloc::Global;
use ua_service::{Body, OtherRequest, Request, RequestHeader};
use ua_test_shared::bytes::both;
use ua_value::{Identifier, NoMemory, NodeId, ReadFault, Wire};

/// The id of a request: its namespace and its number.
pub(crate) type Id = (u16, u32);

fn numbered(id: Id) -> NodeId {
    NodeId {
        namespace_index: id.0,
        identifier: Identifier::Numeric(id.1),
    }
}

/// A header of which a request of another service is made.
pub(crate) trait Header: Wire {
    type Message: Body;

    fn other(self, id: Id, rest: Vec<u8>) -> Option<Self::Message>;
}

impl Header for RequestHeader {
    type Message = Request;

    fn other(self, id: Id, rest: Vec<u8>) -> Option<Request> {
        Request::other(numbered(id), self, rest)
    }
}

/// The request that is made under the id, of the header with the handle 2.
pub(crate) fn request_of<H: Header>(
    alloc: Global,
    id: Id,
    rest: &[u8],
) -> Result<Option<H::Message>, ReadFault> {
    let rest = rest.to_vec(alloc)?;
    match H::read(alloc, REQUEST_HEADER) {
        Ok((header, _)) => Ok(header.other(id, rest)),
        Err(fault) => Err(fault),
    }
}

/// Whether a request is made under the id, and written as the body.
fn is_made<H: Header>(alloc: Global, id: Id, rest: &[u8], body: &[u8]) -> bool {
    match request_of::<H>(alloc, id, rest) {
        Ok(Some(request)) => is_body_of(alloc, &request, body),
        _ => false,
    }
}

/// Whether no request is made under the id.
fn is_not_made<H: Header>(alloc: Global, id: Id) -> bool {
    matches!(request_of::<H>(alloc, id, b""), Ok(None))
}

#[test]
fn discovery_has_no_other_requests(rt: HostRuntime) {
    assert!(rt; is_not_made::<RequestHeader>(rt.alloc(), (0, 422)));
    assert!(rt; is_not_made::<RequestHeader>(rt.alloc(), (0, 428)));
}

/// Whether a request without a rest is made under the id, and written with these bytes before its header.
fn is_made_behind(alloc: Global, id: Id, bytes: &[u8]) -> bool {
    match both(alloc, bytes, REQUEST_HEADER) {
        Ok(body) => is_made::<RequestHeader>(alloc, id, b"", body.as_slice()),
        Err(_) => false,
    }
}

const IDS: [(Id, &[u8]); 6] = [
    ((1, 422), b"\x01\x01\xA6\x01"),
    ((256, 428), b"\x02\0\x01\xAC\x01\0\0"),
    ((0, 421), b"\x01\0\xA5\x01"),
    ((0, 425), b"\x01\0\xA9\x01"),
    ((0, 446), b"\x01\0\xBE\x01"),
    ((0, 65958), b"\x02\0\0\xA6\x01\x01\0"),
];

#[test]
fn other_requests_have_other_ids(rt: HostRuntime) {
    for (id, bytes) in &IDS {
        assert!(rt; is_made_behind(rt.alloc(), *id, bytes), "{bytes:?}");
    }
    assert!(rt; is_made::<RequestHeader>(rt.alloc(), (0, 461), b"\xAA\xBB", OTHER_REQUEST_BODY));
}

fn is_session(type_id: &NodeId, header: &RequestHeader) -> bool {
    type_id.namespace_index == 0
        && matches!(&type_id.identifier, Identifier::Numeric(461))
        && header.request_handle == 2
}

fn are_parts(parts: (NodeId, RequestHeader, Vec<u8>), rest: &[u8]) -> bool {
    is_session(&parts.0, &parts.1) && parts.2.as_slice() == rest
}

fn other_of(request: Request) -> Option<OtherRequest> {
    match request {
        Request::Other(other) => Some(other),
        _ => None,
    }
}

/// What may be a request for a session, and can be copied.
pub(crate) trait Session: Body {
    fn copied(&self) -> Result<Self, NoMemory>;

    /// Whether it is one, with this rest.
    fn has_rest(&self, rest: &[u8]) -> bool;

    /// Whether it gives back the parts of one, with this rest.
    fn gives_back(self, rest: &[u8]) -> bool;
}

impl Session for Request {
    fn copied(&self) -> Result<Request, NoMemory> {
        self.copy()
    }

    fn has_rest(&self, rest: &[u8]) -> bool {
        match self {
            Request::Other(other) => {
                is_session(other.type_id(), other.header()) && other.rest() == rest
            }
            _ => false,
        }
    }

    fn gives_back(self, rest: &[u8]) -> bool {
        match other_of(self) {
            Some(other) => are_parts(other.into_parts(), rest),
            None => false,
        }
    }
}

/// Whether the bytes are read as a request for a session that has this rest, and gives it back.
fn keeps<B: Session>(alloc: Global, bytes: &[u8], rest: &[u8]) -> bool {
    if bytes.len() > 1000 {
        return false;
    }
    match B::read_body(alloc, bytes) {
        Ok(request) => {
            is_body_of(alloc, &request, bytes) && request.has_rest(rest) && request.gives_back(rest)
        }
        Err(_) => false,
    }
}

/// A rest of three bytes.
fn keeps_more(alloc: Global) -> bool {
    match both(alloc, OTHER_REQUEST_BODY, &[0xCC]) {
        Ok(longer) => keeps::<Request>(alloc, longer.as_slice(), b"\xAA\xBB\xCC"),
        Err(_) => false,
    }
}

/// How many bytes of the body are there, and the rest that is kept.
const RESTS: [(usize, &[u8]); 3] = [(33, b""), (34, b"\xAA"), (35, b"\xAA\xBB")];

fn keeps_beginning(alloc: Global, end: usize, rest: &[u8]) -> bool {
    match OTHER_REQUEST_BODY.get(..end) {
        Some(bytes) => keeps::<Request>(alloc, bytes, rest),
        None => false,
    }
}

/// The body is accepted from the end of its header on, and no earlier.
#[test]
fn a_rest_is_kept(rt: HostRuntime) {
    for (end, rest) in &RESTS {
        assert!(rt; keeps_beginning(rt.alloc(), *end, rest), "{end}");
    }
    assert!(rt; keeps_more(rt.alloc()));
    assert!(rt; has_no_shorter::<Request>(rt.alloc(), &OTHER_REQUEST_BODY[..33]));
}

/// Whether the id is read in front of a header, and written as the other one.
fn is_read_in_front(alloc: Global, id: &[u8], canonical_id: &[u8]) -> bool {
    match (
        both(alloc, id, REQUEST_HEADER),
        both(alloc, canonical_id, REQUEST_HEADER),
    ) {
        (Ok(bytes), Ok(canon)) => is_body::<Request>(alloc, bytes.as_slice(), canon.as_slice()),
        _ => false,
    }
}

const FORMS: [(&[u8], &[u8]); 5] = [
    (b"\0\x48", b"\0\x48"),
    (b"\x01\0\x48\0", b"\0\x48"),
    (b"\x02\0\0\x48\0\0\0", b"\0\x48"),
    (b"\x02\x01\0\xA6\x01\0\0", b"\x01\x01\xA6\x01"),
    (b"\x03\x01\0\x01\0\0\0a", b"\x03\x01\0\x01\0\0\0a"),
];

#[test]
fn ids_of_every_form_are_read(rt: HostRuntime) {
    for (id, canonical_id) in &FORMS {
        assert!(rt; is_read_in_front(rt.alloc(), id, canonical_id), "{id:?}");
    }
}

fn copy_is_body<B: Session>(alloc: Global, request: &B, body: &[u8]) -> bool {
    match request.copied() {
        Ok(copy) => is_body_of(alloc, &copy, body),
        Err(_) => false,
    }
}

fn has_a_copy<B: Session>(alloc: Global, body: &[u8]) -> bool {
    if body.len() > 1000 {
        return false;
    }
    match B::read_body(alloc, body) {
        Ok(request) => is_body_of(alloc, &request, body) && copy_is_body(alloc, &request, body),
        Err(_) => false,
    }
}

/// A request with a rest of a hundred bytes more.
fn long_has_a_copy(alloc: Global) -> bool {
    match both(alloc, OTHER_REQUEST_BODY, &[0xCC; 100]) {
        Ok(body) => has_a_copy::<Request>(alloc, body.as_slice()),
        Err(_) => false,
    }
}

#[test]
fn copies_are_equal(rt: HostRuntime) {
    let alloc = rt.alloc();
    assert!(rt; has_a_copy::<Request>(alloc, FIND_REQUEST_BODY));
    assert!(rt; has_a_copy::<Request>(alloc, ENDPOINTS_REQUEST_BODY));
    assert!(rt; has_a_copy::<Request>(alloc, OTHER_REQUEST_BODY));
    assert!(rt; long_has_a_copy(alloc));
}
