//! A value of each built-in type, and what is special in some.

ghost use Rattle.std.specs.Prelude.{◌≤◌, length};
ghost use Rattle.ua_value.specs.Format.{input_limit};

use crate::lines::is_line;
use std::alloc::{AllocError, Global};
use ua_json::{add_refused_value, add_value};
use ua_kind::Kind;
use ua_value::ReadFault;

/// A type, the canonical spelling of a value in hex, and the value as JSON.
pub(crate) type Row = (Kind, &'static str, &'static str);

const NUMBERS: [Row; 21] = [
    (Kind::Boolean, "00", "false"),
    (Kind::Boolean, "01", "true"),
    (Kind::SByte, "fe", "-2"),
    (Kind::Byte, "ff", "255"),
    (Kind::Int16, "0080", "-32768"),
    (Kind::UInt16, "ffff", "65535"),
    (Kind::Int32, "00000080", "-2147483648"),
    (Kind::UInt32, "ffffffff", "4294967295"),
    (Kind::Int64, "0000000000000080", "\"-9223372036854775808\""),
    (Kind::UInt64, "ffffffffffffffff", "\"18446744073709551615\""),
    (Kind::Float, "00002040", "2.5"),
    (Kind::Float, "cdcccc3d", "0.1"),
    (Kind::Float, "0000c07f", "\"NaN\""),
    (Kind::Float, "0000807f", "\"Infinity\""),
    (Kind::Float, "000080ff", "\"-Infinity\""),
    (Kind::Double, "9a9999999999b93f", "0.1"),
    (Kind::Double, "000000000000f0bf", "-1.0"),
    (Kind::Double, "010000000000f0ff", "\"NaN\""),
    (Kind::Double, "000000000000f07f", "\"Infinity\""),
    (Kind::Double, "000000000000f0ff", "\"-Infinity\""),
    (Kind::Double, "0000000000000000", "0.0"),
];

const TEXTS: [Row; 14] = [
    (Kind::String, "ffffffff", "null"),
    (Kind::String, "00000000", "\"\""),
    // a quote, a backslash, a line end, a control character and one beyond ASCII
    (
        Kind::String,
        "0700000061225c0a01c3a9",
        "\"a\\\"\\\\\\n\\u0001\u{e9}\"",
    ),
    // one of four bytes
    (Kind::String, "04000000f09f9299", "\"\u{1f499}\""),
    (Kind::ByteString, "ffffffff", "null"),
    (Kind::ByteString, "02000000fbff", "\"+/8=\""),
    (Kind::XmlElement, "040000003c612f3e", "\"<a/>\""),
    (
        Kind::Guid,
        "912b967275fae64a8d28b404dc7daf63",
        "\"72962b91-fa75-4ae6-8d28-b404dc7daf63\"",
    ),
    (
        Kind::QualifiedName,
        "02000100000071",
        "{\"NamespaceIndex\":2,\"Name\":\"q\"}",
    ),
    (
        Kind::LocalizedText,
        "0302000000656e050000005072657373",
        "{\"Locale\":\"en\",\"Text\":\"Press\"}",
    ),
    (Kind::LocalizedText, "00", "{\"Locale\":null,\"Text\":null}"),
    (
        Kind::StatusCode,
        "00000b80",
        "{\"Code\":2148204544,\"Symbol\":\"BadServiceUnsupported\"}",
    ),
    (
        Kind::StatusCode,
        "0000ab80",
        "{\"Code\":2158690304,\"Symbol\":\"BadInvalidArgument\"}",
    ),
    (Kind::StatusCode, "0000ff8f", "{\"Code\":2415853568}"),
];

const MOMENTS: [Row; 7] = [
    (
        Kind::DateTime,
        "876a2c1f897fdd01",
        "\"2026-11-28T22:38:00.1234567Z\"",
    ),
    (
        Kind::DateTime,
        "00600181ac82bf01",
        "\"2000-02-29T12:00:00Z\"",
    ),
    (
        Kind::DateTime,
        "0100000000000000",
        "\"1601-01-01T00:00:00.0000001Z\"",
    ),
    (
        Kind::DateTime,
        "0000000000000000",
        "\"0001-01-01T00:00:00Z\"",
    ),
    (
        Kind::DateTime,
        "ffffffffffffffff",
        "\"0001-01-01T00:00:00Z\"",
    ),
    (
        Kind::DateTime,
        "ff3fc0d15e5ac824",
        "\"9999-12-31T23:59:59.9999999Z\"",
    ),
    (
        Kind::DateTime,
        "0040c0d15e5ac824",
        "\"9999-12-31T23:59:59Z\"",
    ),
];

const NODES: [Row; 7] = [
    (Kind::NodeId, "0048", "\"i=72\""),
    (
        Kind::NodeId,
        "03010003000000486f74",
        "\"ns=1;s=\\\"Hot\\\"\"",
    ),
    (Kind::ExpandedNodeId, "0048", "{\"NodeId\":\"i=72\"}"),
    (
        Kind::ExpandedNodeId,
        "c0480500000075726e3a6102000000",
        "{\"NodeId\":\"i=72\",\"NamespaceUri\":\"urn:a\",\"ServerIndex\":2}",
    ),
    (
        Kind::ExtensionObject,
        "000000",
        "{\"TypeId\":\"i=0\",\"Body\":null,\"Encoding\":\"None\"}",
    ),
    (
        Kind::ExtensionObject,
        "00480101000000ff",
        "{\"TypeId\":\"i=72\",\"Body\":\"/w==\",\"Encoding\":\"ByteString\"}",
    ),
    (
        Kind::ExtensionObject,
        "004802040000003c612f3e",
        "{\"TypeId\":\"i=72\",\"Body\":\"<a/>\",\"Encoding\":\"XmlElement\"}",
    ),
];

const NESTED: [Row; 9] = [
    (Kind::Variant, "00", "null"),
    (
        Kind::Variant,
        "062a000000",
        "{\"Type\":\"Int32\",\"Body\":42}",
    ),
    (
        Kind::Variant,
        "86ffffffff",
        "{\"Type\":\"Int32\",\"Body\":null}",
    ),
    (
        Kind::Variant,
        "830300000001ff02",
        "{\"Type\":\"Byte\",\"Body\":[1,255,2]}",
    ),
    (
        Kind::Variant,
        "c30400000001020304020000000200000002000000",
        "{\"Type\":\"Byte\",\"Body\":[1,2,3,4],\"Dimensions\":[2,2]}",
    ),
    (
        Kind::Variant,
        "9802000000000101",
        "{\"Type\":\"Variant\",\"Body\":[null,{\"Type\":\"Boolean\",\"Body\":true}]}",
    ),
    (Kind::DataValue, "00", "{}"),
    (
        Kind::DataValue,
        "3f062a00000000000b8000600181ac82bf010a0000600181ac82bf010b00",
        "{\"Value\":{\"Type\":\"Int32\",\"Body\":42},\"Status\":{\"Code\":2148204544,\"Symbol\":\"BadServiceUnsupported\"},\"SourceTimestamp\":\"2000-02-29T12:00:00Z\",\"SourcePicoseconds\":10,\"ServerTimestamp\":\"2000-02-29T12:00:00Z\",\"ServerPicoseconds\":11}",
    ),
    (
        Kind::DiagnosticInfo,
        "7f01000000020000000300000004000000020000006e6f00000b8000",
        "{\"SymbolicId\":1,\"NamespaceUri\":2,\"Locale\":3,\"LocalizedText\":4,\"AdditionalInfo\":\"no\",\"InnerStatusCode\":{\"Code\":2148204544,\"Symbol\":\"BadServiceUnsupported\"},\"InnerDiagnosticInfo\":{}}",
    ),
];

/// The line of a value whose canonical spelling all the bytes are.
pub(crate) fn wanted(alloc: Global, row: Row) -> Result<String, AllocError> {
    let (kind, digits, value) = row;
    let name = kind.name();
    let size = digits.len() / 2;
    format!(in alloc;
        "{{\"Type\":\"{name}\",\"Used\":{size},\"Size\":{size},\"Canonical\":\"{digits}\",\"Value\":{value}}}"
    )
}

/// Whether the value of these bytes is this line.
pub(crate) fn is_value(alloc: Global, kind: Kind, bytes: &[u8], line: &str) -> bool
    requires { length bytes.now ≤ input_limit }
{
    let mut text = String::new(alloc);
    let added = add_value(alloc, &mut text, kind, bytes);
    added.is_ok() && is_line(alloc, text.as_str(), line)
}

fn is_row(alloc: Global, row: Row) -> bool {
    let (Ok(bytes), Ok(line)) = (hex::decode(alloc, row.1), wanted(alloc, row)) else {
        return false;
    };
    bytes.len() < 1 << 60 && is_value(alloc, row.0, bytes.as_slice(), line.as_str())
}

/// The first row that is not as it should be.
fn wrong_row(alloc: Global, rows: &[Row]) -> Option<&'static str> {
    for row in rows {
        if !is_row(alloc, *row) {
            return Some(row.2);
        }
    }
    None
}

#[test]
fn numbers_are_written(rt: HostRuntime) {
    assert_eq!(rt; wrong_row(rt.alloc(), &NUMBERS), None);
}

#[test]
fn texts_are_written(rt: HostRuntime) {
    assert_eq!(rt; wrong_row(rt.alloc(), &TEXTS), None);
}

#[test]
fn moments_are_written(rt: HostRuntime) {
    assert_eq!(rt; wrong_row(rt.alloc(), &MOMENTS), None);
}

#[test]
fn nodes_are_written(rt: HostRuntime) {
    assert_eq!(rt; wrong_row(rt.alloc(), &NODES), None);
}

#[test]
fn nested_values_are_written(rt: HostRuntime) {
    assert_eq!(rt; wrong_row(rt.alloc(), &NESTED), None);
}

/// A long form of a node id, and a byte behind it.
#[test]
fn other_spellings_are_written_by_the_canonical_one(rt: HostRuntime) {
    assert!(rt;
        is_value(
            rt.alloc(),
            Kind::NodeId,
            &[2, 0, 0, 72, 0, 0, 0, 9],
            "{\"Type\":\"NodeId\",\"Used\":7,\"Size\":8,\"Canonical\":\"0048\",\"Value\":\"i=72\"}"
        )
    );
}

/// Whether three bytes are no Int32, and the line says so behind what stood there.
fn are_refused(alloc: Global) -> bool {
    let Ok(mut text) = String::from_str(alloc, "{}\n") else {
        return false;
    };
    let added = add_value(alloc, &mut text, Kind::Int32, &[1, 2, 3]);
    if added != Err(ReadFault::Refused) || text.as_str() != "{}\n" {
        return false;
    }
    add_refused_value(&mut text, Kind::Int32, 3).is_ok()
        && text.as_str() == "{}\n{\"Type\":\"Int32\",\"Size\":3,\"Refused\":true}\n"
}

#[test]
fn refused_bytes_are_told(rt: HostRuntime) {
    assert!(rt; are_refused(rt.alloc()));
}
