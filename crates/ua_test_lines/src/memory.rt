//! Growths that are refused.

use crate::servers::{
    APPLICATION, APPLICATION_LINES, ENDPOINT, ENDPOINT_LINES, is_application_or_no_memory,
    is_endpoint_or_no_memory,
};
use crate::telling::is_told_or_no_memory;
use ua_variant::Kind;

#[test]
fn an_application_is_told_or_no_memory(rt: HostRuntime) {
    assert!(rt; is_application_or_no_memory(rt.alloc(), APPLICATION, APPLICATION_LINES));
}

#[test]
fn an_endpoint_is_told_or_no_memory(rt: HostRuntime) {
    assert!(rt; is_endpoint_or_no_memory(rt.alloc(), ENDPOINT, ENDPOINT_LINES));
}

const MIXED: &[u8] =
    b"\x98\x03\0\0\0\x0f\x02\0\0\0\x0a\x0b\x17\x02\0\0\0\x80\x16\0\x48\x01\x01\0\0\0\x0a";

const MIXED_LINES: &str =
    "value Variant[3]\n  [0] ByteString size=2 0a0b\n  [1] DataValue\n    status 80000000 Bad\n  [2] ExtensionObject type=i=72 bytes size=1 0a\n";

#[test]
fn a_value_is_told_or_no_memory(rt: HostRuntime) {
    assert!(rt; is_told_or_no_memory(rt.alloc(), Kind::Variant, MIXED, MIXED_LINES));
}

#[test]
fn a_diagnostic_is_told_or_no_memory(rt: HostRuntime) {
    let bytes = b"\x51\x01\0\0\0\x02\0\0\0no\0";
    let lines = "value\n  symbolic-id 1\n  additional-info \"no\"\n  inner empty\n";
    assert!(rt; is_told_or_no_memory(rt.alloc(), Kind::DiagnosticInfo, bytes, lines));
}
