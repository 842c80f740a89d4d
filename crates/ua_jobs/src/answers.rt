//! What both ends of a conversation hand on, added to a digest: each field, none apart from empty.

use crate::digest::{Digest, Failed, Work};
use std::alloc::Global;
use ua_conn::{Answer, AnswerResult, End, Fed};
use ua_service::{
    ApplicationDescription, Body, EndpointDescription, Request, RequestHeader, Response,
    ResponseHeader, UserTokenPolicy, write_body,
};
use ua_value::{Array, UaBytes, UaString, Wire};

/// Adds a text, or that there is none.
pub fn add_text(digest: &mut Digest, text: &UaString) {
    match text.get() {
        Some(text) => digest.add_bytes(text.as_bytes()),
        None => digest.add_none(),
    }
}

fn add_octets(digest: &mut Digest, bytes: &UaBytes) {
    match bytes.get() {
        Some(bytes) => digest.add_bytes(bytes),
        None => digest.add_none(),
    }
}

/// Adds how many items there are, or that there is no list. The items.
fn listed<'a, T: Wire>(digest: &mut Digest, list: &'a Array<T>) -> &'a [T] {
    match list.get() {
        Some(items) => {
            digest.add(items.len() as u64);
            items
        }
        None => {
            digest.add_none();
            &[]
        }
    }
}

fn add_texts(digest: &mut Digest, list: &Array<UaString>) {
    for text in listed(digest, list) {
        add_text(digest, text);
    }
}

fn add_application(digest: &mut Digest, application: &ApplicationDescription) {
    add_text(digest, &application.application_uri);
    add_text(digest, &application.product_uri);
    add_text(digest, &application.application_name.locale);
    add_text(digest, &application.application_name.text);
    digest.add_signed(i64::from(application.application_type));
    add_text(digest, &application.gateway_server_uri);
    add_text(digest, &application.discovery_profile_uri);
    add_texts(digest, &application.discovery_urls);
}

fn add_token(digest: &mut Digest, token: &UserTokenPolicy) {
    add_text(digest, &token.policy_id);
    digest.add_signed(i64::from(token.token_type));
    add_text(digest, &token.issued_token_type);
    add_text(digest, &token.issuer_endpoint_url);
    add_text(digest, &token.security_policy_uri);
}

fn add_endpoint(digest: &mut Digest, endpoint: &EndpointDescription) {
    add_text(digest, &endpoint.endpoint_url);
    add_application(digest, &endpoint.server);
    add_octets(digest, &endpoint.server_certificate);
    digest.add_signed(i64::from(endpoint.security_mode));
    add_text(digest, &endpoint.security_policy_uri);
    for token in listed(digest, &endpoint.user_identity_tokens) {
        add_token(digest, token);
    }
    add_text(digest, &endpoint.transport_profile_uri);
    digest.add(u64::from(endpoint.security_level));
}

/// Of a part that no answer has here, how long it is.
fn add_response_header(digest: &mut Digest, header: &ResponseHeader) {
    digest.add_signed(header.timestamp.0);
    digest.add(u64::from(header.request_handle));
    digest.add(u64::from(header.service_result.0));
    digest.add(header.service_diagnostics.len());
    add_texts(digest, &header.string_table);
    digest.add(header.additional_header.len());
}

fn add_response(digest: &mut Digest, response: &Response) {
    match response {
        Response::FindServers(found) => {
            digest.add(1);
            add_response_header(digest, &found.header);
            for server in listed(digest, &found.servers) {
                add_application(digest, server);
            }
        }
        Response::GetEndpoints(found) => {
            digest.add(2);
            add_response_header(digest, &found.header);
            for endpoint in listed(digest, &found.endpoints) {
                add_endpoint(digest, endpoint);
            }
        }
        Response::Fault(fault) => {
            digest.add(3);
            add_response_header(digest, &fault.header);
        }
    }
}

/// Of a part that no request has here, how long it is.
fn add_request_header(digest: &mut Digest, header: &RequestHeader) {
    digest.add(header.authentication_token.len());
    digest.add_signed(header.timestamp.0);
    digest.add(u64::from(header.request_handle));
    digest.add(u64::from(header.return_diagnostics));
    add_text(digest, &header.audit_entry_id);
    digest.add(u64::from(header.timeout_hint));
    digest.add(header.additional_header.len());
}

fn add_request(digest: &mut Digest, request: &Request) {
    match request {
        Request::FindServers(asked) => {
            digest.add(1);
            add_request_header(digest, &asked.header);
            add_text(digest, &asked.endpoint_url);
            add_texts(digest, &asked.locale_ids);
            add_texts(digest, &asked.server_uris);
        }
        Request::GetEndpoints(asked) => {
            digest.add(2);
            add_request_header(digest, &asked.header);
            add_text(digest, &asked.endpoint_url);
            add_texts(digest, &asked.locale_ids);
            add_texts(digest, &asked.profile_uris);
        }
        Request::Other(asked) => {
            digest.add(3);
            digest.add(asked.type_id().len());
            add_request_header(digest, asked.header());
            digest.add_bytes(asked.rest());
        }
    }
}

/// Adds the body that a message is written as.
fn add_body<M: Body>(alloc: Global, digest: &mut Digest, message: &M) -> Result<(), Failed> {
    let mut body = Vec::new(alloc);
    match write_body(message, &mut body) {
        Ok(()) => {
            digest.add_bytes(&body);
            Ok(())
        }
        Err(_) => Err(Failed),
    }
}

fn add_answer(digest: &mut Digest, answer: &Answer) {
    digest.add(u64::from(answer.id));
    add_request(digest, &answer.request);
    match &answer.result {
        AnswerResult::Response(response) => add_response(digest, response),
        AnswerResult::Aborted(status) => {
            digest.add(4);
            digest.add(u64::from(*status));
        }
    }
}

/// Adds an answer's bodies.
fn add_bodies(alloc: Global, digest: &mut Digest, answer: &Answer) -> Result<(), Failed> {
    add_body(alloc, digest, &answer.request)?;
    match &answer.result {
        AnswerResult::Response(response) => add_body(alloc, digest, response),
        AnswerResult::Aborted(_) => Ok(()),
    }
}

/// A number for each end.
pub fn number_of(end: End) -> u64 {
    match end {
        End::Closed => 1,
        End::InputEnded => 2,
        End::Truncated => 3,
        End::LinkFailed => 4,
        End::TurnsSpent => 5,
        End::NoMemory => 6,
        End::Refused(status) => u64::from(status).wrapping_add(4_294_967_296),
    }
}

/// Adds what is lent, and where it is said the bodies of all messages in it, as they are written.
#[derive(Drop)]
pub struct Adding<'a> {
    pub alloc: Global,
    pub digest: &'a mut Digest,
    pub bodies: bool,
}

impl<'a> Work<Vec<Answer>> for Adding<'a> {
    fn run(self, answers: &mut Vec<Answer>) -> Result<(), Failed> {
        let Adding {
            alloc,
            digest,
            bodies,
        } = self;
        digest.add(answers.len() as u64);
        for answer in answers.as_slice() {
            add_answer(digest, answer);
            if bodies {
                add_bodies(alloc, digest, answer)?;
            }
        }
        Ok(())
    }
}

impl<'a> Work<Fed> for Adding<'a> {
    fn run(self, fed: &mut Fed) -> Result<(), Failed> {
        let Adding {
            alloc,
            digest,
            bodies,
        } = self;
        match fed.end {
            Some(end) => digest.add(number_of(end)),
            None => digest.add_none(),
        }
        digest.add(fed.requests.len() as u64);
        for request in fed.requests.as_slice() {
            add_request(digest, request);
            if bodies {
                add_body(alloc, digest, request)?;
            }
        }
        Ok(())
    }
}

impl<'a> Work<Response> for Adding<'a> {
    fn run(self, response: &mut Response) -> Result<(), Failed> {
        let Adding {
            alloc,
            digest,
            bodies,
        } = self;
        add_response(digest, response);
        if bodies {
            add_body(alloc, digest, response)
        } else {
            Ok(())
        }
    }
}
