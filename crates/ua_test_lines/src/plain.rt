//! Values that hold no others (OPC 10000-6, 5.2.2).

use crate::telling::{Row, are_told, is_refused};
use ua_variant::Kind;

const NUMBERS: &[Row] = &[
    (Kind::Boolean, &[1], "value true\n"),
    (Kind::Boolean, &[0, 9], "value false\n"),
    (Kind::SByte, &[0xff], "value -1\n"),
    (Kind::Byte, &[0xff], "value 255\n"),
    (Kind::Int16, &[0xfe, 0xff], "value -2\n"),
    (Kind::UInt16, &[0xfe, 0xff], "value 65534\n"),
    (Kind::Int32, &[0, 0, 0, 0x80], "value -2147483648\n"),
    (
        Kind::UInt32,
        &[0xff, 0xff, 0xff, 0xff],
        "value 4294967295\n",
    ),
    (
        Kind::Int64,
        &[0, 0, 0, 0, 0, 0, 0, 0x80],
        "value -9223372036854775808\n",
    ),
    (
        Kind::UInt64,
        &[0xff, 0xff, 0xff, 0xff, 0xff, 0xff, 0xff, 0xff],
        "value 18446744073709551615\n",
    ),
];

const FLOATS: &[Row] = &[
    (Kind::Float, &[0, 0, 0xc0, 0x3f], "value 1.5\n"),
    (Kind::Float, &[0xcd, 0xcc, 0xcc, 0x3d], "value 0.1\n"),
    (Kind::Float, &[0xca, 0xf2, 0x49, 0x71], "value 1e30\n"),
    (Kind::Float, &[0, 0, 0, 0x80], "value -0.0\n"),
    (Kind::Float, &[1, 0, 0xc0, 0x7f], "value NaN 7fc00001\n"),
    (Kind::Float, &[0, 0, 0x80, 0x7f], "value inf\n"),
    (Kind::Double, &[0, 0, 0, 0, 0, 0, 0x1a, 0x40], "value 6.5\n"),
    (
        Kind::Double,
        &[0x9c, 0x75, 0, 0x88, 0x3c, 0xe4, 0x37, 0x7e],
        "value 1e300\n",
    ),
    (
        Kind::Double,
        &[0, 0, 0, 0, 0, 0, 0xf8, 0x7f],
        "value NaN 7ff8000000000000\n",
    ),
    (
        Kind::Double,
        &[0, 0, 0, 0, 0, 0, 0xf0, 0xff],
        "value -inf\n",
    ),
];

#[test]
fn numbers_are_told(rt: HostRuntime) {
    let alloc = rt.alloc();
    assert!(rt; are_told(alloc, NUMBERS));
    assert!(rt; are_told(alloc, FLOATS));
    assert!(rt; is_refused(alloc, Kind::Int32, &[0, 0, 0]));
}

const TEXTS: &[Row] = &[
    (Kind::String, b"\x03\0\0\0abc", "value \"abc\"\n"),
    (Kind::String, b"\0\0\0\0", "value \"\"\n"),
    (Kind::String, b"\xff\xff\xff\xff", "value null\n"),
    (
        Kind::String,
        b"\x06\0\0\0\xe6\xb0\xb4Boy",
        "value \"\\xe6\\xb0\\xb4Boy\"\n",
    ),
    (
        Kind::XmlElement,
        b"\x0c\0\0\0<a>water</a>",
        "value \"<a>water</a>\"\n",
    ),
    (Kind::XmlElement, b"\xff\xff\xff\xff", "value null\n"),
    (Kind::ByteString, b"\xff\xff\xff\xff", "value null\n"),
    (Kind::ByteString, b"\0\0\0\0", "value size=0\n"),
    (
        Kind::ByteString,
        b"\x03\0\0\0\0\xab\xff",
        "value size=3 00abff\n",
    ),
    (
        Kind::Guid,
        b"\x91\x2b\x96\x72\x75\xfa\xe6\x4a\x8d\x28\xb4\x04\xdc\x7d\xaf\x63",
        "value 72962b91-fa75-4ae6-8d28-b404dc7daf63\n",
    ),
];

const MOMENTS: &[Row] = &[
    (
        Kind::DateTime,
        &[0x87, 0x6a, 0x2c, 0x1f, 0x89, 0x7f, 0xdd, 0x01],
        "value 2026-11-28T22:38:00.1234567Z\n",
    ),
    (
        Kind::DateTime,
        &[0, 0, 0, 0, 0, 0, 0, 0],
        "value 1601-01-01T00:00:00.0000000Z\n",
    ),
    (
        Kind::DateTime,
        &[0, 0x80, 0x3e, 0xd5, 0xde, 0xb1, 0x9d, 0x01],
        "value 1970-01-01T00:00:00.0000000Z\n",
    ),
    (
        Kind::DateTime,
        &[0xff, 0x3f, 0x36, 0x16, 0x11, 0x83, 0xbf, 0x01],
        "value 2000-02-29T23:59:59.9999999Z\n",
    ),
    (
        Kind::DateTime,
        &[0xff, 0x3f, 0xc0, 0xd1, 0x5e, 0x5a, 0xc8, 0x24],
        "value 9999-12-31T23:59:59.9999999Z\n",
    ),
    (
        Kind::DateTime,
        &[0, 0x40, 0xc0, 0xd1, 0x5e, 0x5a, 0xc8, 0x24],
        "value ticks 2650467744000000000\n",
    ),
    (
        Kind::DateTime,
        &[0xff, 0xff, 0xff, 0xff, 0xff, 0xff, 0xff, 0x7f],
        "value ticks 9223372036854775807\n",
    ),
    (
        Kind::DateTime,
        &[0xff, 0xff, 0xff, 0xff, 0xff, 0xff, 0xff, 0xff],
        "value ticks -1\n",
    ),
];

#[test]
fn texts_and_moments_are_told(rt: HostRuntime) {
    let alloc = rt.alloc();
    assert!(rt; are_told(alloc, TEXTS));
    assert!(rt; are_told(alloc, MOMENTS));
    assert!(rt; is_refused(alloc, Kind::String, b"\x01\0\0\0\xff"));
}

const NODES: &[Row] = &[
    (Kind::NodeId, &[0, 0x48], "value i=72\n"),
    (
        Kind::NodeId,
        b"\x03\x01\0\x06\0\0\0Hot\xe6\xb0\xb4",
        "value ns=1;s=\"Hot\\xe6\\xb0\\xb4\"\n",
    ),
    (Kind::ExpandedNodeId, &[0, 0x48], "value i=72\n"),
    (
        Kind::ExpandedNodeId,
        b"\xc0\x48\x05\0\0\0urn:a\x07\0\0\0",
        "value i=72 namespace=\"urn:a\" server=7\n",
    ),
    (
        Kind::QualifiedName,
        b"\x01\0\x03\0\0\0abc",
        "value namespace=1 name=\"abc\"\n",
    ),
    (
        Kind::QualifiedName,
        b"\0\0\xff\xff\xff\xff",
        "value namespace=0 name=null\n",
    ),
    (
        Kind::LocalizedText,
        b"\x03\x02\0\0\0en\x05\0\0\0Press",
        "value locale=\"en\" text=\"Press\"\n",
    ),
    (Kind::LocalizedText, &[0], "value locale=null text=null\n"),
];

const STRUCTURES: &[Row] = &[
    (Kind::ExtensionObject, &[0, 0, 0], "value type=i=0 none\n"),
    (
        Kind::ExtensionObject,
        b"\0\x48\x01\x02\0\0\0\x0a\x0b",
        "value type=i=72 bytes size=2 0a0b\n",
    ),
    (
        Kind::ExtensionObject,
        b"\0\x48\x01\xff\xff\xff\xff",
        "value type=i=72 bytes null\n",
    ),
    (
        Kind::ExtensionObject,
        b"\0\x48\x02\x04\0\0\0<a/>",
        "value type=i=72 xml \"<a/>\"\n",
    ),
];

#[test]
fn names_and_structures_are_told(rt: HostRuntime) {
    let alloc = rt.alloc();
    assert!(rt; are_told(alloc, NODES));
    assert!(rt; are_told(alloc, STRUCTURES));
}
