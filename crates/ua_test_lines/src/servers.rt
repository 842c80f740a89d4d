//! Applications and endpoints (OPC 10000-4, 7.2 and 7.14).

use std::alloc::Global;
use ua_lines::{
    add_application, add_application_line, add_endpoint, add_endpoint_line, add_url_line,
};
use ua_service::{ApplicationDescription, EndpointDescription};
use ua_value::{NoMemory, ReadFault, UaString, Wire};

/// No bytes here are longer.
const MOST: usize = 10000;

/// All fields, and two urls.
pub(crate) const APPLICATION: &[u8] =
    b"\x05\0\0\0urn:a\x05\0\0\0urn:p\x03\x02\0\0\0en\x05\0\0\0Press\x03\0\0\0\x05\0\0\0urn:g\x05\0\0\0urn:f\x02\0\0\0\x0e\0\0\0opc.tcp://a:80\x0e\0\0\0opc.tcp://b:80";

pub(crate) const APPLICATION_LINES: &str =
    "  application \"urn:a\" type=3 name=\"Press\"\n    product \"urn:p\"\n    locale \"en\"\n    type DiscoveryServer\n    gateway \"urn:g\"\n    profile \"urn:f\"\n    url \"opc.tcp://a:80\"\n    url \"opc.tcp://b:80\"\n";

/// Null texts, a type without a name, and no list of urls.
const NULLS: &[u8] =
    b"\xff\xff\xff\xff\xff\xff\xff\xff\0\x07\0\0\0\xff\xff\xff\xff\xff\xff\xff\xff\xff\xff\xff\xff";

const NULLS_LINES: &str =
    "application null type=7 name=null\n  product null\n  locale null\n  type 7\n  gateway null\n  profile null\n";

/// A certificate of the bytes `abc`, and two user token policies.
pub(crate) const ENDPOINT: &[u8] =
    b"\x0e\0\0\0opc.tcp://a:80\x05\0\0\0urn:a\x05\0\0\0urn:p\x03\x02\0\0\0en\x05\0\0\0Press\0\0\0\0\xff\xff\xff\xff\xff\xff\xff\xff\x01\0\0\0\x0e\0\0\0opc.tcp://a:80\x03\0\0\0abc\x03\0\0\0\x05\0\0\0urn:s\x02\0\0\0\x01\0\0\x000\0\0\0\0\xff\xff\xff\xff\xff\xff\xff\xff\xff\xff\xff\xff\x01\0\0\x001\x03\0\0\0\x05\0\0\0urn:j\x05\0\0\0urn:i\x05\0\0\0urn:s\x05\0\0\0urn:t\x14";

pub(crate) const ENDPOINT_LINES: &str =
    "endpoint \"opc.tcp://a:80\" mode=3 policy=\"urn:s\" transport=\"urn:t\" level=20\n  mode SignAndEncrypt\n  certificate size=3 sha1=a9993e364706816aba3e25717850c26c9cd0d89d\n  token \"0\" type=0 Anonymous issued=null issuer=null policy=null\n  token \"1\" type=3 IssuedToken issued=\"urn:j\" issuer=\"urn:i\" policy=\"urn:s\"\n  server \"urn:a\" type=0 name=\"Press\"\n    product \"urn:p\"\n    locale \"en\"\n    type Server\n    gateway null\n    profile null\n    url \"opc.tcp://a:80\"\n";

/// No certificate, a mode without a name, and one policy of a type without a name.
const BARE: &[u8] =
    b"\xff\xff\xff\xff\xff\xff\xff\xff\xff\xff\xff\xff\0\x01\0\0\0\xff\xff\xff\xff\xff\xff\xff\xff\xff\xff\xff\xff\xff\xff\xff\xff\x09\0\0\0\xff\xff\xff\xff\x01\0\0\0\xff\xff\xff\xff\x09\0\0\0\xff\xff\xff\xff\xff\xff\xff\xff\xff\xff\xff\xff\xff\xff\xff\xff\0";

const BARE_LINES: &str =
    "endpoint null mode=9 policy=null transport=null level=0\n  mode 9\n  certificate null\n  token null type=9 issued=null issuer=null policy=null\n  server null type=1 name=null\n    product null\n    locale null\n    type Client\n    gateway null\n    profile null\n";

fn is_application_added(
    alloc: Global,
    application: &ApplicationDescription,
    indent: usize,
    lines: &str,
) -> bool {
    let mut text = String::new(alloc);
    let added = add_application(&mut text, application, indent).is_ok();
    added && text.as_str() == lines
}

/// Whether the application that the bytes spell has these lines.
fn is_application(alloc: Global, bytes: &[u8], indent: usize, lines: &str) -> bool {
    if bytes.len() > MOST {
        return false;
    }
    match ApplicationDescription::read(alloc, bytes) {
        Ok((application, used)) => {
            used == bytes.len() && is_application_added(alloc, &application, indent, lines)
        }
        Err(_) => false,
    }
}

#[test]
fn applications_are_told(rt: HostRuntime) {
    let alloc = rt.alloc();
    assert!(rt; is_application(alloc, APPLICATION, 2, APPLICATION_LINES));
    assert!(rt; is_application(alloc, NULLS, 0, NULLS_LINES));
}

fn is_endpoint_added(alloc: Global, endpoint: &EndpointDescription, lines: &str) -> bool {
    let mut text = String::new(alloc);
    let added = add_endpoint(alloc, &mut text, endpoint).is_ok();
    added && text.as_str() == lines
}

/// Whether the endpoint that the bytes spell has these lines.
fn is_endpoint(alloc: Global, bytes: &[u8], lines: &str) -> bool {
    if bytes.len() > MOST {
        return false;
    }
    match EndpointDescription::read(alloc, bytes) {
        Ok((endpoint, used)) => {
            used == bytes.len() && is_endpoint_added(alloc, &endpoint, lines)
        }
        Err(_) => false,
    }
}

#[test]
fn endpoints_are_told(rt: HostRuntime) {
    let alloc = rt.alloc();
    assert!(rt; is_endpoint(alloc, ENDPOINT, ENDPOINT_LINES));
    assert!(rt; is_endpoint(alloc, BARE, BARE_LINES));
}

fn add_short(text: &mut String, endpoint: &EndpointDescription) -> Result<(), NoMemory> {
    add_endpoint_line(text, endpoint)?;
    add_application_line(text, &endpoint.server)?;
    for url in endpoint.server.discovery_urls.get().unwrap_or(&[]) {
        add_url_line(text, url)?;
    }
    add_url_line(text, &UaString::null())
}

/// Whether the short lines of an endpoint, of its server and its urls, and of a url that is null, are these.
fn is_short(alloc: Global, bytes: &[u8], lines: &str) -> bool {
    if bytes.len() > MOST {
        return false;
    }
    let mut text = String::new(alloc);
    match EndpointDescription::read(alloc, bytes) {
        Ok((endpoint, _)) => add_short(&mut text, &endpoint).is_ok() && text.as_str() == lines,
        Err(_) => false,
    }
}

const SHORT_LINES: &str =
    "endpoint \"opc.tcp://a:80\" mode=3 policy=\"urn:s\" transport=\"urn:t\" level=20\napplication \"urn:a\" type=0 name=\"Press\"\n  url \"opc.tcp://a:80\"\n  url null\n";

#[test]
fn short_lines_are_told(rt: HostRuntime) {
    assert!(rt; is_short(rt.alloc(), ENDPOINT, SHORT_LINES));
}

/// Whether what was refused was memory.
fn is_want<T>(read: &Result<T, ReadFault>) -> bool {
    match read {
        Ok(_) => false,
        Err(fault) => *fault == ReadFault::NoMemory,
    }
}

fn is_added_or_no_memory(added: Result<(), NoMemory>, text: &String, lines: &str) -> bool {
    match added {
        Ok(()) => text.as_str() == lines,
        Err(_) => true,
    }
}

pub(crate) fn is_application_or_no_memory(alloc: Global, bytes: &[u8], lines: &str) -> bool {
    if bytes.len() > MOST {
        return false;
    }
    let mut text = String::new(alloc);
    let read = ApplicationDescription::read(alloc, bytes);
    match &read {
        Ok((application, _)) => {
            let added = add_application(&mut text, application, 2);
            is_added_or_no_memory(added, &text, lines)
        }
        Err(_) => is_want(&read),
    }
}

pub(crate) fn is_endpoint_or_no_memory(alloc: Global, bytes: &[u8], lines: &str) -> bool {
    if bytes.len() > MOST {
        return false;
    }
    let mut text = String::new(alloc);
    let read = EndpointDescription::read(alloc, bytes);
    match &read {
        Ok((endpoint, _)) => {
            let added = add_endpoint(alloc, &mut text, endpoint);
            is_added_or_no_memory(added, &text, lines)
        }
        Err(_) => is_want(&read),
    }
}
