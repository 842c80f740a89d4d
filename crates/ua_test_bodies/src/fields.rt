//! Structures with another value in each field.

use crate::vectors;
use std::alloc::{AllocError, Global};
use ua_service::{
    ApplicationDescription, CloseRequest, EndpointDescription, FindServersRequest,
    FindServersResponse, GetEndpointsRequest, GetEndpointsResponse, OpenRequest, OpenResponse,
    RequestHeader, ResponseHeader, ServiceFault, UserTokenPolicy, response_header,
};
use ua_test_shared::bytes::both;
use ua_test_shared::spelling::{Any, Shown, are_texts, is_bytes, is_text, is_whole};
use ua_value::{Identifier, Wire};
use ua_variant::ExtensionBody;

const REQUEST_HEADER: &[u8] =
    b"\x01\x03\x05\x07\x08\x07\x06\x05\x04\x03\x02\x01\x0D\x0C\x0B\x0A\x11\0\0\0\x05\0\0\0audit\x10\x27\0\0\0\x09\x01\x02\0\0\0\xAA\xBB";

const RESPONSE_HEADER: &[u8] =
    b"\x08\x07\x06\x05\x04\x03\x02\x01\x0D\x0C\x0B\x0A\0\0\x0B\x80\x01\x05\0\0\0\x02\0\0\0\x01\0\0\0a\x02\0\0\0bc\0\x09\0";

const OPEN_FIELDS: &[u8] = b"\x05\0\0\0\x01\0\0\0\xFE\xFF\xFF\xFF\x02\0\0\0\x01\x02\x80\xEE\x36\0";

const OPENED_FIELDS: &[u8] =
    b"\x05\0\0\0\x07\0\0\0\x03\0\0\0\x08\x07\x06\x05\x04\x03\x02\x01\x10\x27\0\0\x02\0\0\0\x03\x04";

const QUESTION_FIELDS: &[u8] =
    b"\x03\0\0\0url\x02\0\0\0\x02\0\0\0de\x02\0\0\0en\x01\0\0\0\x01\0\0\0s";

const POLICY: &[u8] = b"\x01\0\0\0p\x4D\0\0\0\x01\0\0\0i\x01\0\0\0e\x01\0\0\0s";

const APPLICATION: &[u8] =
    b"\x01\0\0\0a\x01\0\0\0p\x03\x02\0\0\0en\x01\0\0\0N\x03\0\0\0\x01\0\0\0g\x01\0\0\0f\x02\0\0\0\x01\0\0\0u\x01\0\0\0v";

const ENDPOINT: &[u8] =
    b"\x01\0\0\0e\x01\0\0\0a\x01\0\0\0p\x03\x02\0\0\0en\x01\0\0\0N\x03\0\0\0\x01\0\0\0g\x01\0\0\0f\x02\0\0\0\x01\0\0\0u\x01\0\0\0v\x01\0\0\0\xAA\x03\0\0\0\x01\0\0\0s\x01\0\0\0\x01\0\0\0p\x4D\0\0\0\x01\0\0\0i\x01\0\0\0e\x01\0\0\0s\x01\0\0\0t\x07";

/// A structure that knows the value of the bytes here.
trait Sample {
    fn is_sample(&self) -> bool;
}

/// That it is the sample.
struct IsSample;

impl<T: Sample> Shown<T> for IsSample {
    fn is_shown(&self, value: &T) -> bool {
        value.is_sample()
    }
}

/// Whether the fields behind the front spell the sample.
fn is_sample_of<T: Wire + Sample>(alloc: Global, front: &[u8], fields: &[u8]) -> bool {
    match both(alloc, front, fields) {
        Ok(bytes) => is_whole::<T, IsSample>(alloc, bytes.as_slice(), &IsSample),
        Err(_) => false,
    }
}

impl Sample for RequestHeader {
    fn is_sample(&self) -> bool {
        self.authentication_token.namespace_index == 3
            && matches!(
                self.authentication_token.identifier,
                Identifier::Numeric(0x0705)
            )
            && self.timestamp.0 == 0x0102_0304_0506_0708
            && self.request_handle == 0x0A0B_0C0D
            && self.return_diagnostics == 0x11
            && is_text(&self.audit_entry_id, "audit")
            && self.timeout_hint == 10000
            && matches!(&self.additional_header.body, ExtensionBody::Bytes(body) if is_bytes(body, b"\xAA\xBB"))
    }
}

impl Sample for ResponseHeader {
    fn is_sample(&self) -> bool {
        self.timestamp.0 == 0x0102_0304_0506_0708
            && self.request_handle == 0x0A0B_0C0D
            && self.service_result.0 == 0x800B_0000
            && self.service_diagnostics.parts().symbolic_id == Some(5)
            && are_texts(&self.string_table, &["a", "bc"])
            && matches!(self.additional_header.body, ExtensionBody::None)
    }
}

impl Sample for OpenRequest {
    fn is_sample(&self) -> bool {
        self.header.is_sample()
            && self.client_protocol_version == 5
            && self.request_type == 1
            && self.security_mode == -2
            && is_bytes(&self.client_nonce, b"\x01\x02")
            && self.requested_lifetime == 3600000
    }
}

impl Sample for OpenResponse {
    fn is_sample(&self) -> bool {
        self.header.is_sample()
            && self.server_protocol_version == 5
            && self.channel_id == 7
            && self.token_id == 3
            && self.created_at.0 == 0x0102_0304_0506_0708
            && self.revised_lifetime == 10000
            && is_bytes(&self.server_nonce, b"\x03\x04")
    }
}

impl Sample for ApplicationDescription {
    fn is_sample(&self) -> bool {
        is_text(&self.application_uri, "a")
            && is_text(&self.product_uri, "p")
            && is_text(&self.application_name.locale, "en")
            && is_text(&self.application_name.text, "N")
            && self.application_type == 3
            && is_text(&self.gateway_server_uri, "g")
            && is_text(&self.discovery_profile_uri, "f")
            && are_texts(&self.discovery_urls, &["u", "v"])
    }
}

// The number of its type has no meaning yet.
impl Sample for UserTokenPolicy {
    fn is_sample(&self) -> bool {
        is_text(&self.policy_id, "p")
            && self.token_type == 77
            && is_text(&self.issued_token_type, "i")
            && is_text(&self.issuer_endpoint_url, "e")
            && is_text(&self.security_policy_uri, "s")
    }
}

impl Sample for EndpointDescription {
    fn is_sample(&self) -> bool {
        is_text(&self.endpoint_url, "e")
            && self.server.is_sample()
            && is_bytes(&self.server_certificate, b"\xAA")
            && self.security_mode == 3
            && is_text(&self.security_policy_uri, "s")
            && matches!(self.user_identity_tokens.get(), Some([policy]) if policy.is_sample())
            && is_text(&self.transport_profile_uri, "t")
            && self.security_level == 7
    }
}

impl Sample for FindServersRequest {
    fn is_sample(&self) -> bool {
        self.header.is_sample()
            && is_text(&self.endpoint_url, "url")
            && are_texts(&self.locale_ids, &["de", "en"])
            && are_texts(&self.server_uris, &["s"])
    }
}

impl Sample for GetEndpointsRequest {
    fn is_sample(&self) -> bool {
        self.header.is_sample()
            && is_text(&self.endpoint_url, "url")
            && are_texts(&self.locale_ids, &["de", "en"])
            && are_texts(&self.profile_uris, &["s"])
    }
}

impl Sample for FindServersResponse {
    fn is_sample(&self) -> bool {
        self.header.is_sample()
            && matches!(self.servers.get(), Some([first, second]) if first.is_sample() && second.is_sample())
    }
}

impl Sample for GetEndpointsResponse {
    fn is_sample(&self) -> bool {
        self.header.is_sample()
            && matches!(self.endpoints.get(), Some([endpoint]) if endpoint.is_sample())
    }
}

impl Sample for CloseRequest {
    fn is_sample(&self) -> bool {
        self.header.is_sample()
    }
}

impl Sample for ServiceFault {
    fn is_sample(&self) -> bool {
        self.header.is_sample()
    }
}

#[test]
fn fields_of_headers(rt: HostRuntime) {
    let alloc = rt.alloc();
    assert!(rt; is_whole::<RequestHeader, Any>(alloc, vectors::REQUEST_HEADER, &Any));
    assert!(rt; is_sample_of::<RequestHeader>(alloc, REQUEST_HEADER, b""));
    assert!(rt; is_sample_of::<CloseRequest>(alloc, REQUEST_HEADER, b""));
    assert!(rt; is_sample_of::<ResponseHeader>(alloc, RESPONSE_HEADER, b""));
    assert!(rt; is_sample_of::<ServiceFault>(alloc, RESPONSE_HEADER, b""));
}

#[test]
fn fields_of_open_messages(rt: HostRuntime) {
    let alloc = rt.alloc();
    assert!(rt; is_sample_of::<OpenRequest>(alloc, REQUEST_HEADER, OPEN_FIELDS));
    assert!(rt; is_sample_of::<OpenResponse>(alloc, RESPONSE_HEADER, OPENED_FIELDS));
}

#[test]
fn fields_of_endpoints(rt: HostRuntime) {
    let alloc = rt.alloc();
    assert!(rt; is_sample_of::<UserTokenPolicy>(alloc, POLICY, b""));
    assert!(rt; is_sample_of::<ApplicationDescription>(alloc, APPLICATION, b""));
    assert!(rt; is_sample_of::<EndpointDescription>(alloc, ENDPOINT, b""));
}

/// Two applications in an array.
fn two_applications(alloc: Global) -> Result<Vec<u8>, AllocError> {
    let mut bytes = b"\x02\0\0\0".to_vec(alloc)?;
    bytes.extend_from_slice(APPLICATION)?;
    bytes.extend_from_slice(APPLICATION)?;
    Ok(bytes)
}

fn are_servers(alloc: Global) -> bool {
    match two_applications(alloc) {
        Ok(two) => is_sample_of::<FindServersResponse>(alloc, RESPONSE_HEADER, two.as_slice()),
        Err(_) => false,
    }
}

fn are_endpoints(alloc: Global) -> bool {
    match both(alloc, b"\x01\0\0\0", ENDPOINT) {
        Ok(one) => is_sample_of::<GetEndpointsResponse>(alloc, RESPONSE_HEADER, one.as_slice()),
        Err(_) => false,
    }
}

#[test]
fn fields_of_discovery(rt: HostRuntime) {
    let alloc = rt.alloc();
    assert!(rt; is_sample_of::<FindServersRequest>(alloc, REQUEST_HEADER, QUESTION_FIELDS));
    assert!(rt; is_sample_of::<GetEndpointsRequest>(alloc, REQUEST_HEADER, QUESTION_FIELDS));
    assert!(rt; are_servers(alloc));
    assert!(rt; are_endpoints(alloc));
}

const GIVEN_HEADER: &[u8] =
    b"\x01\0\0\0\0\0\0\0\x05\x04\x03\x02\0\0\x0B\x80\0\xFF\xFF\xFF\xFF\0\0\0";

fn header_is_written(alloc: Global, header: ResponseHeader) -> bool {
    let mut bytes = Vec::new(alloc);
    header.write(&mut bytes).is_ok() && bytes.as_slice() == GIVEN_HEADER
}

#[test]
fn headers_have_moment_handle_and_status(rt: HostRuntime) {
    let alloc = rt.alloc();
    let header = response_header(1, 0x0203_0405, 0x800B_0000);
    assert!(rt; header_is_written(alloc, header));
}
