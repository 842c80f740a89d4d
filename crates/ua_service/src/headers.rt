//! What stands before the fields of every request and of every response.

ghost use Rattle.std.specs.Prelude.{◌≡◌, ◌≤◌, length, IfOk};
ghost use Rattle.ua_value.specs.Format.{Gives, input_limit};
ghost use Rattle.ua_service.specs.Headers.{request_header, request_header_at, lawful_request_header, response_header, lawful_response_header, response_header_at, service_fault, lawful_service_fault};

use crate::brief::{BriefHeader, BriefResponseHeader};
use std::alloc::Global;
use ua_value::plumbing::{Fields, Parts, copy_three};
use ua_value::{Array, DateTime, NoMemory, NodeId, ReadFault, Sink, StatusCode, UaString, Wire};
use ua_variant::{DiagnosticInfo, ExtensionObject};

/// What stands before the fields of every request (OPC 10000-4, 7.33).
#[derive(Debug, PartialEq, Eq, Drop)]
pub struct RequestHeader {
    /// The secret id of the session; the null id where there is none.
    pub authentication_token: NodeId,
    /// When the client sent the request.
    pub timestamp: DateTime,
    /// The client's own number for the request, which the response repeats.
    pub request_handle: u32,
    /// The bits of the diagnostics that the client asks for.
    pub return_diagnostics: u32,
    /// The entry of the client's audit log; null where there is none.
    pub audit_entry_id: UaString,
    /// After how many milliseconds the client stops waiting; 0 for never.
    pub timeout_hint: u32,
    /// Reserved; no body.
    pub additional_header: ExtensionObject,
}

type RequestHeaderFields = (
    NodeId,
    (DateTime, (u32, (u32, (UaString, (u32, ExtensionObject))))),
);

#[tactic(auto, unfolding(crate::specs::Headers::request_header))]
impl Wire for RequestHeader {
    ghost format = { request_header };

    ghost most = { 8589934631 };

    ghost Grows = { Unit {0} };

    fn len(&self) -> u64 {
        self.authentication_token.len()
            + self.timestamp.len()
            + self.request_handle.len()
            + self.return_diagnostics.len()
            + self.audit_entry_id.len()
            + self.timeout_hint.len()
            + self.additional_header.len()
    }

    fn emit<S: Sink>(&self, out: &mut S) -> Result<(), NoMemory> {
        (
            &self.authentication_token,
            (
                &self.timestamp,
                (
                    &self.request_handle,
                    (
                        &self.return_diagnostics,
                        (
                            &self.audit_entry_id,
                            (&self.timeout_hint, &self.additional_header),
                        ),
                    ),
                ),
            ),
        )
            .emit_parts(out)
    }

    fn copy(&self) -> Result<RequestHeader, NoMemory> {
        let (authentication_token, audit_entry_id, additional_header) = copy_three(
            &self.authentication_token,
            &self.audit_entry_id,
            &self.additional_header,
        )?;
        Ok(RequestHeader {
            authentication_token,
            timestamp: self.timestamp,
            request_handle: self.request_handle,
            return_diagnostics: self.return_diagnostics,
            audit_entry_id,
            timeout_hint: self.timeout_hint,
            additional_header,
        })
    }

    fn read_front(alloc: Global, input: &[u8]) -> Result<(RequestHeader, &[u8]), ReadFault> {
        match BriefHeader::front(alloc, input) {
            Some((brief, rest)) => Ok((brief.header(), rest)),
            None => any_request_header(alloc, input),
        }
    }

    ghost laws = { lawful_request_header };
}

/// The header at the front in any spelling.
#[tactic(auto, unfolding(crate::specs::Headers::request_header))]
#[inline(never)]
fn any_request_header(alloc: Global, input: &[u8]) -> Result<(RequestHeader, &[u8]), ReadFault>
    requires { length input.now ≤ input_limit }
    ensures gives { Gives (λ x. (x.0, x.1.now)) result (request_header.grammar.front input.now) }
    ensures shorter { IfOk result (λ x. length x.1.now ≤ length input.now) }
{
    match RequestHeaderFields::read_fields(alloc, input) {
        Ok(
            (
                (
                    authentication_token,
                    (
                        timestamp,
                        (
                            request_handle,
                            (
                                return_diagnostics,
                                (audit_entry_id, (timeout_hint, additional_header)),
                            ),
                        ),
                    ),
                ),
                rest,
            ),
        ) => Ok((
            RequestHeader {
                authentication_token,
                timestamp,
                request_handle,
                return_diagnostics,
                audit_entry_id,
                timeout_hint,
                additional_header,
            },
            rest,
        )),
        Err(fault) => Err(fault),
    }
}

/// What stands before the fields of every response (OPC 10000-4, 7.34).
#[derive(Debug, Drop)]
pub struct ResponseHeader {
    /// When the server sent the response.
    pub timestamp: DateTime,
    /// The handle of the request.
    pub request_handle: u32,
    /// How the service as a whole went.
    pub service_result: StatusCode,
    /// Diagnostics of the service as a whole.
    pub service_diagnostics: DiagnosticInfo,
    /// The texts that diagnostics name by their index.
    pub string_table: Array<UaString>,
    /// Reserved; no body.
    pub additional_header: ExtensionObject,
}

type ResponseHeaderFields = (
    DateTime,
    (
        u32,
        (
            StatusCode,
            (DiagnosticInfo, (Array<UaString>, ExtensionObject)),
        ),
    ),
);

#[tactic(auto, unfolding(crate::specs::Headers::response_header))]
impl Wire for ResponseHeader {
    ghost format = { response_header };

    ghost most = { 1152921723650181502 };

    ghost Grows = { Unit {0} };

    fn len(&self) -> u64 {
        self.timestamp.len()
            + self.request_handle.len()
            + self.service_result.len()
            + self.service_diagnostics.len()
            + self.string_table.len()
            + self.additional_header.len()
    }

    fn emit<S: Sink>(&self, out: &mut S) -> Result<(), NoMemory> {
        (
            &self.timestamp,
            (
                &self.request_handle,
                (
                    &self.service_result,
                    (
                        &self.service_diagnostics,
                        (&self.string_table, &self.additional_header),
                    ),
                ),
            ),
        )
            .emit_parts(out)
    }

    fn copy(&self) -> Result<ResponseHeader, NoMemory> {
        let (service_diagnostics, string_table, additional_header) = copy_three(
            &self.service_diagnostics,
            &self.string_table,
            &self.additional_header,
        )?;
        Ok(ResponseHeader {
            timestamp: self.timestamp,
            request_handle: self.request_handle,
            service_result: self.service_result,
            service_diagnostics,
            string_table,
            additional_header,
        })
    }

    fn read_front(alloc: Global, input: &[u8]) -> Result<(ResponseHeader, &[u8]), ReadFault> {
        match BriefResponseHeader::front(alloc, input) {
            Some((brief, rest)) => Ok((brief.header(), rest)),
            None => any_response_header(alloc, input),
        }
    }

    ghost laws = { lawful_response_header };
}

/// The header at the front in any spelling.
#[tactic(auto, unfolding(crate::specs::Headers::response_header))]
#[inline(never)]
fn any_response_header(alloc: Global, input: &[u8]) -> Result<(ResponseHeader, &[u8]), ReadFault>
    requires { length input.now ≤ input_limit }
    ensures gives { Gives (λ x. (x.0, x.1.now)) result (response_header.grammar.front input.now) }
    ensures shorter { IfOk result (λ x. length x.1.now ≤ length input.now) }
{
    match ResponseHeaderFields::read_fields(alloc, input) {
        Ok(
            (
                (
                    timestamp,
                    (
                        request_handle,
                        (service_result, (service_diagnostics, (string_table, additional_header))),
                    ),
                ),
                rest,
            ),
        ) => Ok((
            ResponseHeader {
                timestamp,
                request_handle,
                service_result,
                service_diagnostics,
                string_table,
                additional_header,
            },
            rest,
        )),
        Err(fault) => Err(fault),
    }
}

/// The header of a request (OPC 10000-4, 7.33): the moment, the client's number for the request, and nothing else. It
/// takes no memory.
pub fn request_header(now: DateTime, handle: u32) -> RequestHeader
    ensures { result ≡ request_header_at now.0 handle }
{
    RequestHeader {
        authentication_token: NodeId::null(),
        timestamp: now,
        request_handle: handle,
        return_diagnostics: 0,
        audit_entry_id: UaString::null(),
        timeout_hint: 0,
        additional_header: ExtensionObject::null(),
    }
}

/// The header of a response (OPC 10000-4, 7.34): the moment in ticks of 100 ns since 1601-01-01
/// UTC, the handle of the request, the result, and nothing else. It takes no memory.
pub fn response_header(now: i64, handle: u32, status: u32) -> ResponseHeader
    ensures { result ≡ response_header_at now handle status }
{
    ResponseHeader {
        timestamp: DateTime(now),
        request_handle: handle,
        service_result: StatusCode(status),
        service_diagnostics: DiagnosticInfo::empty(),
        string_table: Array::null(),
        additional_header: ExtensionObject::null(),
    }
}

/// The response to a request of which the service failed as a whole (OPC 10000-4, 7.35).
#[derive(Debug, Drop)]
pub struct ServiceFault {
    /// Its result is the status of the failure.
    pub header: ResponseHeader,
}

#[tactic(auto, unfolding(crate::specs::Headers::service_fault))]
impl Wire for ServiceFault {
    ghost format = { service_fault };

    ghost most = { 1152921723650181502 };

    ghost Grows = { Unit {0} };

    fn len(&self) -> u64 {
        self.header.len()
    }

    fn emit<S: Sink>(&self, out: &mut S) -> Result<(), NoMemory> {
        self.header.emit(out)
    }

    fn copy(&self) -> Result<ServiceFault, NoMemory> {
        Ok(ServiceFault {
            header: self.header.copy()?,
        })
    }

    fn read_front(alloc: Global, input: &[u8]) -> Result<(ServiceFault, &[u8]), ReadFault> {
        let (header, rest) = ResponseHeader::read_front(alloc, input)?;
        Ok((ServiceFault { header }, rest))
    }

    ghost laws = { lawful_service_fault };
}
