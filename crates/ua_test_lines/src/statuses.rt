//! Statuses and their names.

use crate::telling::{Row, are_told};
use std::alloc::{AllocError, Global};
use ua_print::status_name;
use ua_value::StatusCode;
use ua_variant::Kind;

/// By OPC 10000-6, annex A. Bits 0 to 15 change no name.
const STATUSES: &[Row] = &[
    (Kind::StatusCode, &[0, 0, 0, 0], "value 00000000 Good\n"),
    (
        Kind::StatusCode,
        &[0, 0, 0x34, 0x80],
        "value 80340000 BadNodeIdUnknown\n",
    ),
    (
        Kind::StatusCode,
        &[0x80, 0x04, 0, 0],
        "value 00000480 Good\n",
    ),
    (
        Kind::StatusCode,
        &[0, 0, 0x14, 0x81],
        "value 81140000 BadCertificatePolicyCheckFailed\n",
    ),
    (Kind::StatusCode, &[0, 0, 0xff, 0x8f], "value 8FFF0000\n"),
];

#[test]
fn statuses_are_told(rt: HostRuntime) {
    assert!(rt; are_told(rt.alloc(), STATUSES));
}

/// What this stack says itself.
const SAID: [u32; 15] = [
    0x0000_0000,
    0x8007_0000,
    0x8009_0000,
    0x800b_0000,
    0x8053_0000,
    0x8054_0000,
    0x8055_0000,
    0x807e_0000,
    0x807f_0000,
    0x8080_0000,
    0x8081_0000,
    0x8083_0000,
    0x8087_0000,
    0x8088_0000,
    0x80b9_0000,
];

/// Whether the name is the one that the status prints.
fn is_named_alike(alloc: Global, code: u32) -> Result<bool, AllocError> {
    let status = StatusCode(code);
    let text = format!(in alloc; "{status}")?;
    let name = status_name(code).unwrap_or("none");
    Ok(text.as_str().ends_with(name))
}

fn are_named_alike(alloc: Global) -> bool {
    for code in SAID {
        match is_named_alike(alloc, code) {
            Ok(true) => {}
            _ => return false,
        }
    }
    true
}

#[test]
fn the_names_are_those_of_the_statuses(rt: HostRuntime) {
    assert!(rt; are_named_alike(rt.alloc()));
}

/// One status of each part of the table, and its name there.
const NAMES: [(u32, &str); 8] = [
    (0x8001_0000, "BadUnexpectedError"),
    (0x801a_0000, "BadCertificateUntrusted"),
    (0x8025_0000, "BadSessionIdInvalid"),
    (0x803e_0000, "BadNotFound"),
    (0x8056_0000, "BadTooManySessions"),
    (0x8086_0000, "BadSecureChannelClosed"),
    (0x80be_0000, "BadProtocolVersionUnsupported"),
    (0x80e6_0000, "BadSecurityModeInsufficient"),
];

fn are_named() -> bool {
    for (code, name) in NAMES {
        if status_name(code).unwrap_or("none") != name {
            return false;
        }
    }
    true
}

#[test]
fn statuses_have_names(rt: HostRuntime) {
    assert!(rt; are_named());
    assert!(rt; status_name(0x8029_0000).is_none());
    assert!(rt; status_name(0xffff_ffff).is_none());
}
