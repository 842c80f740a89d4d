//! Applications, endpoints, and what came in the place of an answer.

use crate::lines::{are_json, is_line};
use crate::spelled::{APPLICATION, APPLICATION_LINE, ENDPOINT, ENDPOINT_LINE};
use std::alloc::{AllocError, Global};
use ua_json::{add_abort, add_application, add_broken, add_endpoint, add_error, add_service_fault};
use ua_service::{ApplicationDescription, EndpointDescription};
use ua_value::{ReadFault, UaString, ValueFault, Wire};

/// Whether the value that the bytes are passes the test; none where it could not be read for want of memory.
pub(crate) fn tried<T: Wire, F: FnOnce(&T) -> bool + Drop>(
    alloc: Global,
    bytes: &'static [u8],
    test: F,
) -> Option<bool>
    requires { F.IsAlwaysCallable test }
{
    if bytes.len() >= 1 << 60 {
        return Some(false);
    }
    match T::read(alloc, bytes) {
        Ok((value, used)) => Some(used == bytes.len() && test(&value)),
        Err(ReadFault::NoMemory) => None,
        Err(ReadFault::Refused) => Some(false),
    }
}

fn is_application(alloc: Global, application: &ApplicationDescription) -> bool {
    let mut text = String::new(alloc);
    add_application(alloc, &mut text, application).is_ok()
        && is_line(alloc, text.as_str(), APPLICATION_LINE)
}

#[test]
fn an_application_is_written(rt: HostRuntime) {
    let alloc = rt.alloc();
    let written = tried::<ApplicationDescription, _>(
        alloc,
        APPLICATION,
        |value| is_application(alloc, value),
    );
    assert_eq!(rt; written, Some(true));
}

fn is_endpoint(alloc: Global, endpoint: &EndpointDescription) -> bool {
    let mut text = String::new(alloc);
    add_endpoint(alloc, &mut text, endpoint).is_ok() && is_line(alloc, text.as_str(), ENDPOINT_LINE)
}

#[test]
fn an_endpoint_is_written(rt: HostRuntime) {
    let alloc = rt.alloc();
    let written = tried::<EndpointDescription, _>(
        alloc,
        ENDPOINT,
        |value| is_endpoint(alloc, value),
    );
    assert_eq!(rt; written, Some(true));
}

/// What came in the place of answers, a line each.
pub(crate) fn add_faults(text: &mut String, reason: &UaString) -> Result<(), AllocError> {
    add_service_fault(text, 0x800B_0000)?;
    add_abort(text, 0x80B9_0000)?;
    add_error(text, 0x8080_0000, reason)?;
    add_broken(text, 0x8FFF_0000)
}

pub(crate) const FAULT_LINES: &str = "\
{\"ServiceResult\":{\"Code\":2148204544,\"Symbol\":\"BadServiceUnsupported\"}}\n\
{\"Abort\":{\"Code\":2159607808,\"Symbol\":\"BadResponseTooLarge\"}}\n\
{\"Error\":{\"Code\":2155872256,\"Symbol\":\"BadTcpMessageTooLarge\"},\"Reason\":\"too \\\"large\\\"\"}\n\
{\"Refused\":{\"Code\":2415853568}}\n";

pub(crate) fn reason(alloc: Global) -> Result<UaString, ValueFault> {
    UaString::new(alloc, "too \"large\"")
}

fn are_faults(alloc: Global) -> bool {
    let Ok(reason) = reason(alloc) else {
        return false;
    };
    let mut text = String::new(alloc);
    add_faults(&mut text, &reason).is_ok()
        && text.as_str() == FAULT_LINES
        && are_json(alloc, text.as_str())
}

#[test]
fn what_is_no_answer_is_written(rt: HostRuntime) {
    assert!(rt; are_faults(rt.alloc()));
}

fn is_null_reason(alloc: Global) -> bool {
    let mut text = String::new(alloc);
    add_error(&mut text, 0x8080_0000, &UaString::null()).is_ok()
        && is_line(
            alloc,
            text.as_str(),
            "{\"Error\":{\"Code\":2155872256,\"Symbol\":\"BadTcpMessageTooLarge\"},\"Reason\":null}",
        )
}

#[test]
fn an_error_without_a_reason_is_written(rt: HostRuntime) {
    assert!(rt; is_null_reason(rt.alloc()));
}
