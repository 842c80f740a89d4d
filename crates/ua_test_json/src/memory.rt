//! Each call gives its whole line, or says that memory ran out and leaves the text as it was. These tests are run with each
//! growth refused in turn (tools/refuse-growths).

use crate::services::{FAULT_LINES, add_faults, reason, tried};
use crate::spelled::{
    APPLICATION, APPLICATION_LINE, CAPTURE, CAPTURE_LINES, ENDPOINT, ENDPOINT_LINE,
};
use std::alloc::{AllocError, Global};
use ua_json::{add_application, add_endpoint, add_refused_value, add_value, frames_json};
use ua_kind::Kind;
use ua_service::{ApplicationDescription, EndpointDescription};
use ua_value::{ReadFault, UaString};

/// What stands in a text before the call.
const BEFORE: &str = "{}\n";

/// Whether this line was added whole, or memory ran out and the text is as it was.
fn is_whole_or_nothing(text: &str, added: Result<(), AllocError>, line: &str) -> bool {
    let Some(behind) = text.strip_prefix(BEFORE) else {
        return false;
    };
    match added {
        Ok(()) => behind.strip_suffix('\n') == Some(line),
        Err(_) => behind.is_empty(),
    }
}

/// A DataValue of an array of a text, bytes, a node id and a status, with a status and a moment.
const VALUE: &[u8] =
    b"\x07\x98\x04\0\0\0\x0C\x02\0\0\0a\"\x0F\x01\0\0\0\xFF\x11\0\x48\x13\0\0\x0B\x80\0\0\x0B\x80\0\0\0\0\0\0\0\0";

const VALUE_LINE: &str =
    "{\"Type\":\"DataValue\",\"Used\":39,\"Size\":39,\"Canonical\":\"0798040000000c0200000061220f01000000ff1100481300000b8000000b800000000000000000\",\"Value\":{\"Value\":{\"Type\":\"Variant\",\"Body\":[{\"Type\":\"String\",\"Body\":\"a\\\"\"},{\"Type\":\"ByteString\",\"Body\":\"/w==\"},{\"Type\":\"NodeId\",\"Body\":\"i=72\"},{\"Type\":\"StatusCode\",\"Body\":{\"Code\":2148204544,\"Symbol\":\"BadServiceUnsupported\"}}]},\"Status\":{\"Code\":2148204544,\"Symbol\":\"BadServiceUnsupported\"},\"SourceTimestamp\":\"0001-01-01T00:00:00Z\"}}";

fn value_is_added(alloc: Global) -> bool {
    let Ok(mut text) = String::from_str(alloc, BEFORE) else {
        return true;
    };
    match add_value(alloc, &mut text, Kind::DataValue, VALUE) {
        Ok(()) => is_whole_or_nothing(text.as_str(), Ok(()), VALUE_LINE),
        Err(ReadFault::NoMemory) => is_whole_or_nothing(text.as_str(), Err(AllocError), VALUE_LINE),
        Err(ReadFault::Refused) => false,
    }
}

#[test]
fn value_or_no_memory(rt: HostRuntime) {
    assert!(rt; value_is_added(rt.alloc()));
}

fn refused_is_added(alloc: Global) -> bool {
    let Ok(mut text) = String::from_str(alloc, BEFORE) else {
        return true;
    };
    let added = add_refused_value(&mut text, Kind::Guid, 15);
    is_whole_or_nothing(
        text.as_str(),
        added,
        "{\"Type\":\"Guid\",\"Size\":15,\"Refused\":true}",
    )
}

#[test]
fn refused_value_or_no_memory(rt: HostRuntime) {
    assert!(rt; refused_is_added(rt.alloc()));
}

fn application_is_added(alloc: Global, application: &ApplicationDescription) -> bool {
    let Ok(mut text) = String::from_str(alloc, BEFORE) else {
        return true;
    };
    let added = add_application(alloc, &mut text, application);
    is_whole_or_nothing(text.as_str(), added, APPLICATION_LINE)
}

fn endpoint_is_added(alloc: Global, endpoint: &EndpointDescription) -> bool {
    let Ok(mut text) = String::from_str(alloc, BEFORE) else {
        return true;
    };
    let added = add_endpoint(alloc, &mut text, endpoint);
    is_whole_or_nothing(text.as_str(), added, ENDPOINT_LINE)
}

#[test]
fn application_or_no_memory(rt: HostRuntime) {
    let alloc = rt.alloc();
    let added = tried::<ApplicationDescription, _>(
        alloc,
        APPLICATION,
        |value| application_is_added(alloc, value),
    );
    assert!(rt; added != Some(false));
}

#[test]
fn endpoint_or_no_memory(rt: HostRuntime) {
    let alloc = rt.alloc();
    let added = tried::<EndpointDescription, _>(
        alloc,
        ENDPOINT,
        |value| endpoint_is_added(alloc, value),
    );
    assert!(rt; added != Some(false));
}

fn faults_are_added(alloc: Global, reason: &UaString) -> bool {
    let Ok(mut text) = String::from_str(alloc, BEFORE) else {
        return true;
    };
    let added = add_faults(&mut text, reason);
    match text.as_str().strip_prefix(BEFORE) {
        Some(lines) if added.is_err() => FAULT_LINES.starts_with(lines),
        Some(lines) => lines == FAULT_LINES,
        None => false,
    }
}

fn faults_or_unmade(alloc: Global) -> bool {
    match reason(alloc) {
        Ok(reason) => faults_are_added(alloc, &reason),
        Err(_) => true,
    }
}

#[test]
fn faults_or_no_memory(rt: HostRuntime) {
    assert!(rt; faults_or_unmade(rt.alloc()));
}

fn frames_are_shown(alloc: Global) -> bool {
    match frames_json(alloc, CAPTURE) {
        Ok((text, status)) => text.as_str() == CAPTURE_LINES && status == 1,
        Err(_) => true,
    }
}

#[test]
fn frames_or_no_memory(rt: HostRuntime) {
    assert!(rt; frames_are_shown(rt.alloc()));
}
