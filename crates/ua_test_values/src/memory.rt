//! Each call that grows gives its full answer, or says that memory ran out and leaves what stood before. These tests are run with each growth
//! refused in turn (tools/refuse-growths).

use crate::frames::{
    AGREED, ERROR, REVERSE_HELLO, TOLD, Written, error_of, hello_of, reverse_hello_of,
};
use crate::texts::{Content, Text};
use std::alloc::Global;
use ua_frame::ErrorFrame;
use ua_frame::status::BAD_TCP_MESSAGE_TYPE_INVALID;
use ua_test_shared::memory::{
    is_all_or_nothing, is_full_or_no_memory, is_shown_or_no_memory, is_written_or_no_memory,
};
use ua_test_shared::spelling::is_text;
use ua_test_shared::vectors::{ACKNOWLEDGE, HELLO};
use ua_value::{
    Array, ExpandedNodeId, Guid, LocalizedText, NodeId, QualifiedName, ReadFault, UaBytes,
    UaString, ValueFault, XmlElement,
};

#[test]
fn texts_and_bytes_or_no_memory(rt: HostRuntime) {
    let bytes: &[u8] = &[3, 0, 0, 0, 0x61, 0x62, 0x63];
    assert!(rt; is_full_or_no_memory::<UaString>(rt.alloc(), bytes));
    assert!(rt; is_full_or_no_memory::<XmlElement>(rt.alloc(), bytes));
    assert!(rt; is_full_or_no_memory::<UaBytes>(rt.alloc(), bytes));
}

const GUID: &[u8] = &[1, 2, 3, 4, 5, 6, 7, 8, 9, 10, 11, 12, 13, 14, 15, 16];

#[test]
fn plain_values_or_no_memory(rt: HostRuntime) {
    let alloc = rt.alloc();
    assert!(rt; is_full_or_no_memory::<bool>(alloc, &[1]));
    assert!(rt; is_full_or_no_memory::<u64>(alloc, &[1, 2, 3, 4, 5, 6, 7, 8]));
    assert!(rt; is_full_or_no_memory::<Guid>(alloc, GUID));
}

const NODE_IDS: [&[u8]; 4] = [
    &[0, 72],
    &[3, 1, 0, 1, 0, 0, 0, 0x61],
    &[
        4, 1, 0, 1, 2, 3, 4, 5, 6, 7, 8, 9, 10, 11, 12, 13, 14, 15, 16,
    ],
    &[5, 1, 0, 1, 0, 0, 0, 0xff],
];

const EXPANDED: &[u8] = &[0xc3, 1, 0, 1, 0, 0, 0, 0x61, 1, 0, 0, 0, 0x62, 2, 0, 0, 0];

#[test]
fn node_ids_or_no_memory(rt: HostRuntime) {
    for bytes in &NODE_IDS {
        assert!(rt;
            is_full_or_no_memory::<NodeId>(rt.alloc(), bytes),
            "{bytes:?}"
        );
    }
    assert!(rt; is_full_or_no_memory::<ExpandedNodeId>(rt.alloc(), EXPANDED));
}

#[test]
fn names_or_no_memory(rt: HostRuntime) {
    let alloc = rt.alloc();
    let localized: &[u8] = &[3, 1, 0, 0, 0, 0x61, 1, 0, 0, 0, 0x62];
    assert!(rt; is_full_or_no_memory::<QualifiedName>(alloc, &[1, 0, 1, 0, 0, 0, 0x61]));
    assert!(rt; is_full_or_no_memory::<LocalizedText>(alloc, localized));
}

#[test]
fn arrays_or_no_memory(rt: HostRuntime) {
    let alloc = rt.alloc();
    let numbers: &[u8] = &[3, 0, 0, 0, 1, 0, 2, 0, 3, 0];
    let texts: &[u8] = &[2, 0, 0, 0, 1, 0, 0, 0, 0x61, 1, 0, 0, 0, 0x62];
    assert!(rt; is_full_or_no_memory::<Array<u16>>(alloc, numbers));
    assert!(rt; is_full_or_no_memory::<Array<UaString>>(alloc, texts));
}

fn are_copied_or_no_memory(alloc: Global) -> bool {
    match Array::of_texts(alloc, &["a", "bc"]) {
        Ok(array) => {
            let bytes: &[u8] = &[2, 0, 0, 0, 1, 0, 0, 0, 0x61, 2, 0, 0, 0, 0x62, 0x63];
            is_written_or_no_memory(alloc, &array, bytes)
        }
        Err(_) => true,
    }
}

#[test]
fn lent_texts_or_no_memory(rt: HostRuntime) {
    assert!(rt; are_copied_or_no_memory(rt.alloc()));
}

/// Whether each constructor keeps the three letters, or says that memory ran out.
fn are_made_or_no_memory(alloc: Global) -> bool {
    let (text, bytes) = (Text(Some("abc")), Content(Some(b"abc")));
    let none = ValueFault::NoMemory;
    is_shown_or_no_memory(UaString::new(alloc, "abc"), &text, none)
        && is_shown_or_no_memory(XmlElement::new(alloc, "abc"), &text, none)
        && is_shown_or_no_memory(UaBytes::new(alloc, b"abc"), &bytes, none)
}

#[test]
fn constructors_or_no_memory(rt: HostRuntime) {
    assert!(rt; are_made_or_no_memory(rt.alloc()));
}

/// The text of a Guid, or an empty one where memory ran out.
fn guid_text(alloc: Global) -> String {
    let guid = Guid {
        data1: 1,
        data2: 2,
        data3: 3,
        data4: [4; 8],
    };
    guid.text(alloc).unwrap_or(String::new(alloc))
}

#[test]
fn guid_text_or_no_memory(rt: HostRuntime) {
    let text = guid_text(rt.alloc());
    assert!(rt; ["", "00000001-0002-0003-0404-040404040404"].contains(&text.as_str()));
}

fn is_frame_written_or_no_memory<W: Written>(alloc: Global, frame: &W, bytes: &[u8]) -> bool {
    let Ok(mut out) = [7].to_vec(alloc) else {
        return true;
    };
    let wrote = frame.put(&mut out);
    is_all_or_nothing(wrote, out.as_slice(), bytes)
}

fn hello_or_no_memory(alloc: Global) -> bool {
    match hello_of(alloc, HELLO) {
        Ok(hello) => {
            is_text(&hello.url, "opc.tcp://localhost:4840")
                && is_frame_written_or_no_memory(alloc, &hello, HELLO)
        }
        Err(fault) => fault == ReadFault::NoMemory,
    }
}

fn acknowledge_or_no_memory(alloc: Global) -> bool {
    is_frame_written_or_no_memory(alloc, &AGREED, ACKNOWLEDGE)
}

fn error_or_no_memory(alloc: Global) -> bool {
    let error = ErrorFrame {
        status: BAD_TCP_MESSAGE_TYPE_INVALID,
        reason: UaString::null(),
    };
    is_frame_written_or_no_memory(alloc, &error, ERROR)
}

fn told_or_no_memory(alloc: Global) -> bool {
    match error_of(alloc, TOLD) {
        Ok(error) => is_text(&error.reason, "no"),
        Err(fault) => fault == ReadFault::NoMemory,
    }
}

fn reverse_hello_or_no_memory(alloc: Global) -> bool {
    match reverse_hello_of(alloc, REVERSE_HELLO) {
        Ok(said) => {
            is_text(&said.server_uri, "urn:a")
                && is_text(&said.endpoint_url, "opc.tcp://localhost:4840")
                && is_frame_written_or_no_memory(alloc, &said, REVERSE_HELLO)
        }
        Err(fault) => fault == ReadFault::NoMemory,
    }
}

#[test]
fn frames_or_no_memory(rt: HostRuntime) {
    let alloc = rt.alloc();
    assert!(rt; hello_or_no_memory(alloc));
    assert!(rt; acknowledge_or_no_memory(alloc));
    assert!(rt; error_or_no_memory(alloc));
    assert!(rt; told_or_no_memory(alloc));
    assert!(rt; reverse_hello_or_no_memory(alloc));
}
