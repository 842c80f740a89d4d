//! Headers of requests and responses in their usual spelling.

ghost use Rattle.std.specs.Prelude.{◌≡◌, ◌≤◌, Some, length, IfSome};
ghost use Rattle.ua_value.specs.Format.{input_limit};
ghost use Rattle.ua_service.specs.Headers.{request_header, response_header};
ghost use Rattle.ua_service.specs.Brief.{header_of, response_header_of};

use crate::headers::{RequestHeader, ResponseHeader};
use crate::usual::{no_body, no_diagnostic, null_text, null_texts, two_byte_id};
use std::alloc::Global;
use ua_value::plumbing::front_u32;
use ua_value::{Array, DateTime, NodeId, StatusCode, UaString, Wire};
use ua_variant::{DiagnosticInfo, ExtensionBody, ExtensionObject};

/// The header of a request that holds no memory: its ids are numbers below 256 in namespace 0, there is no entry of an
/// audit log, and nothing in the additional header. It is small, so that handing it on is cheap.
#[derive(Clone, Copy)]
pub(crate) struct BriefHeader {
    /// The number of the authentication token.
    token: u8,
    /// The number of the additional header's id.
    additional: u8,
    request_handle: u32,
    return_diagnostics: u32,
    timeout_hint: u32,
    timestamp: DateTime,
}

impl BriefHeader {
    /// The header.
    #[inline(always)]
    pub(crate) fn header(self) -> RequestHeader
        ensures { result ≡ header_of self }
    {
        RequestHeader {
            authentication_token: NodeId::numeric(0, self.token as u32),
            timestamp: self.timestamp,
            request_handle: self.request_handle,
            return_diagnostics: self.return_diagnostics,
            audit_entry_id: UaString::null(),
            timeout_hint: self.timeout_hint,
            additional_header: ExtensionObject {
                type_id: NodeId::numeric(0, self.additional as u32),
                body: ExtensionBody::None,
            },
        }
    }

    /// The header at the front, where its ids are spelled in two bytes, and what follows it.
    #[tactic(auto, unfolding(crate::specs::Headers::request_header))]
    #[inline(always)]
    pub(crate) fn front(alloc: Global, input: &[u8]) -> Option<(BriefHeader, &[u8])>
        requires { length input.now ≤ input_limit }
        ensures front { IfSome result (λ p. request_header.grammar.front input.now ≡ Some (header_of p.0, p.1.now)) }
        ensures shorter { IfSome result (λ p. length p.1.now ≤ length input.now) }
    {
        if input.len() < 29 {
            return None;
        }
        let (token, rest) = two_byte_id(input)?;
        let (timestamp, rest) = DateTime::read_front(alloc, rest).ok()?;
        let (request_handle, rest) = front_u32(rest)?;
        let (return_diagnostics, rest) = front_u32(rest)?;
        let rest = null_text(rest)?;
        let (timeout_hint, rest) = front_u32(rest)?;
        let (additional, rest) = no_body(rest)?;
        let brief = BriefHeader {
            token,
            additional,
            request_handle,
            return_diagnostics,
            timeout_hint,
            timestamp,
        };
        Some((brief, rest))
    }
}

/// The header of a response that holds no memory: it has no diagnostics and no texts, and nothing in the additional
/// header, whose id is a number below 256 in namespace 0. It is small, so that handing it on is cheap.
#[derive(Clone, Copy)]
pub(crate) struct BriefResponseHeader {
    timestamp: DateTime,
    request_handle: u32,
    service_result: StatusCode,
    /// The number of the additional header's id.
    additional: u8,
}

impl BriefResponseHeader {
    /// The header.
    #[inline(always)]
    pub(crate) fn header(self) -> ResponseHeader
        ensures { result ≡ response_header_of self }
    {
        ResponseHeader {
            timestamp: self.timestamp,
            request_handle: self.request_handle,
            service_result: self.service_result,
            service_diagnostics: DiagnosticInfo::empty(),
            string_table: Array::null(),
            additional_header: ExtensionObject {
                type_id: NodeId::numeric(0, self.additional as u32),
                body: ExtensionBody::None,
            },
        }
    }

    /// The header at the front, where its id is spelled in two bytes, and what follows it.
    #[tactic(auto, unfolding(crate::specs::Headers::response_header))]
    #[inline(always)]
    pub(crate) fn front(alloc: Global, input: &[u8]) -> Option<(BriefResponseHeader, &[u8])>
        requires { length input.now ≤ input_limit }
        ensures front { IfSome result (λ p. response_header.grammar.front input.now ≡ Some (response_header_of p.0, p.1.now)) }
        ensures shorter { IfSome result (λ p. length p.1.now ≤ length input.now) }
    {
        if input.len() < 24 {
            return None;
        }
        let (timestamp, rest) = DateTime::read_front(alloc, input).ok()?;
        let (request_handle, rest) = front_u32(rest)?;
        let (service_result, rest) = StatusCode::read_front(alloc, rest).ok()?;
        let rest = no_diagnostic(rest)?;
        let rest = null_texts(rest)?;
        let (additional, rest) = no_body(rest)?;
        let brief = BriefResponseHeader {
            timestamp,
            request_handle,
            service_result,
            additional,
        };
        Some((brief, rest))
    }
}
