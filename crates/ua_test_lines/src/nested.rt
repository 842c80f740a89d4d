//! DataValues and DiagnosticInfos (OPC 10000-6, 5.2.2.17 and 5.2.2.12).

use crate::telling::{Row, are_told};
use ua_variant::Kind;

/// All fields, none, and a value alone.
const DATA: &[Row] = &[
    (
        Kind::DataValue,
        b"\x3f\x06\x05\0\0\0\0\0\x34\x80\0\0\0\0\0\0\0\0\x01\0\0\x80\x3e\xd5\xde\xb1\x9d\x01\x0f\x27",
        "value\n  status 80340000 BadNodeIdUnknown\n  source 1601-01-01T00:00:00.0000000Z\n  source-picoseconds 10\n  server 1970-01-01T00:00:00.0000000Z\n  server-picoseconds 99990\n  value Int32 5\n",
    ),
    (Kind::DataValue, &[0], "value empty\n"),
    (
        Kind::DataValue,
        &[0x01, 0x81, 1, 0, 0, 0, 1],
        "value\n  value Boolean[1]\n    [0] true\n",
    ),
];

/// All parts with an inner one, none, and two inner ones.
const DIAGNOSTICS: &[Row] = &[
    (
        Kind::DiagnosticInfo,
        b"\x7f\x01\0\0\0\x02\0\0\0\x03\0\0\0\x04\0\0\0\x02\0\0\0no\0\0\x07\x80\0",
        "value\n  symbolic-id 1\n  namespace-uri 2\n  locale 3\n  localized-text 4\n  additional-info \"no\"\n  inner-status 80070000 BadDecodingError\n  inner empty\n",
    ),
    (Kind::DiagnosticInfo, &[0], "value empty\n"),
    (
        Kind::DiagnosticInfo,
        b"\x40\x41\xff\xff\xff\xff\x20\0\0\0\x80",
        "value\n  inner\n    symbolic-id -1\n    inner\n      inner-status 80000000 Bad\n",
    ),
];

#[test]
fn data_values_are_told(rt: HostRuntime) {
    assert!(rt; are_told(rt.alloc(), DATA));
}

#[test]
fn diagnostics_are_told(rt: HostRuntime) {
    assert!(rt; are_told(rt.alloc(), DIAGNOSTICS));
}
