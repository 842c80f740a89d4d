//! Extension objects, diagnostics, Variants and DataValues: bytes and what they spell.

use ua_test_shared::spelling::{Shown, are_refused, are_spelled, is_whole};
use ua_value::{DateTime, StatusCode};
use ua_variant::{DataValue, DiagnosticInfo, ExtensionObject, Kind, Variant};

const EXTENSIONS: [(&[u8], &[u8]); 5] = [
    (&[0, 0, 0], &[0, 0, 0]),
    (
        &[0, 0x48, 1, 2, 0, 0, 0, 0xaa, 0xbb],
        &[0, 0x48, 1, 2, 0, 0, 0, 0xaa, 0xbb],
    ),
    (
        &[0, 0x48, 1, 0xff, 0xff, 0xff, 0xff],
        &[0, 0x48, 1, 0xff, 0xff, 0xff, 0xff],
    ),
    (&[0, 0x48, 1, 0, 0, 0, 0], &[0, 0x48, 1, 0, 0, 0, 0]),
    (
        &[2, 0, 0, 0x48, 0, 0, 0, 2, 1, 0, 0, 0, b'x'],
        &[0, 0x48, 2, 1, 0, 0, 0, b'x'],
    ),
];

const NO_EXTENSIONS: [&[u8]; 3] = [&[0, 0x48, 2, 1, 0, 0, 0, 0xff], &[0, 0x48, 3], &[6, 0, 0]];

#[test]
fn extension_objects_keep_their_body(rt: HostRuntime) {
    assert!(rt; are_refused::<ExtensionObject>(rt.alloc(), &NO_EXTENSIONS));
    assert!(rt; are_spelled::<ExtensionObject>(rt.alloc(), &EXTENSIONS));
}

/// Each part, and an inner one of no part.
pub(crate) const DIAGNOSTICS: [u8; 28] = [
    0x7f, 1, 0, 0, 0, 2, 0, 0, 0, 3, 0, 0, 0, 4, 0, 0, 0, 2, 0, 0, 0, b'h', b'i', 0, 0, 0x0b, 0x80,
    0,
];

const SOME_DIAGNOSTICS: [(&[u8], &[u8]); 5] = [
    (&[0], &[0]),
    (&[0x10, 0xff, 0xff, 0xff, 0xff], &[0]),
    (&[0x10, 0, 0, 0, 0], &[0x10, 0, 0, 0, 0]),
    (
        &[0x04, 0xff, 0xff, 0xff, 0xff],
        &[0x04, 0xff, 0xff, 0xff, 0xff],
    ),
    (&[0x20, 0, 0, 0, 0], &[0x20, 0, 0, 0, 0]),
];

const NO_DIAGNOSTICS: [&[u8]; 2] = [&[0x80], &[0x40, 0x80]];

struct EachPart;

impl Shown<DiagnosticInfo> for EachPart {
    fn is_shown(&self, value: &DiagnosticInfo) -> bool {
        let parts = value.parts();
        parts.symbolic_id == Some(1)
            && parts.namespace_uri == Some(2)
            && parts.locale == Some(3)
            && parts.localized_text == Some(4)
            && parts.additional_info.get() == Some("hi")
            && parts.inner_status == Some(StatusCode(0x800b_0000))
            && value.depth() == 2
            && value.inner().is_some()
    }
}

#[test]
fn diagnostics_keep_what_is_flagged(rt: HostRuntime) {
    let alloc = rt.alloc();
    assert!(rt; are_refused::<DiagnosticInfo>(alloc, &NO_DIAGNOSTICS));
    assert!(rt; are_spelled::<DiagnosticInfo>(alloc, &SOME_DIAGNOSTICS));
    assert!(rt; is_whole::<DiagnosticInfo, EachPart>(alloc, &DIAGNOSTICS, &EachPart));
}

/// A single value of each kind, as it is written.
pub(crate) const SINGLES: [(Kind, &[u8]); 24] = [
    (Kind::Boolean, &[0x01, 1]),
    (Kind::SByte, &[0x02, 0xfe]),
    (Kind::Byte, &[0x03, 0xfe]),
    (Kind::Int16, &[0x04, 0xfe, 0xff]),
    (Kind::UInt16, &[0x05, 0xfe, 0xff]),
    (Kind::Int32, &[0x06, 1, 0, 0, 0]),
    (Kind::UInt32, &[0x07, 1, 0, 0, 0]),
    (Kind::Int64, &[0x08, 1, 2, 3, 4, 5, 6, 7, 8]),
    (Kind::UInt64, &[0x09, 1, 2, 3, 4, 5, 6, 7, 8]),
    (Kind::Float, &[0x0a, 0, 0, 0xd0, 0xc0]),
    (Kind::Double, &[0x0b, 1, 2, 3, 4, 5, 6, 7, 8]),
    (Kind::String, &[0x0c, 1, 0, 0, 0, b'a']),
    (Kind::DateTime, &[0x0d, 1, 2, 3, 4, 5, 6, 7, 8]),
    (
        Kind::Guid,
        &[0x0e, 1, 2, 3, 4, 5, 6, 7, 8, 9, 10, 11, 12, 13, 14, 15, 16],
    ),
    (Kind::ByteString, &[0x0f, 2, 0, 0, 0, 0xaa, 0xbb]),
    (Kind::XmlElement, &[0x10, 0xff, 0xff, 0xff, 0xff]),
    (Kind::NodeId, &[0x11, 0, 0x48]),
    (Kind::ExpandedNodeId, &[0x12, 0x40, 0x48, 1, 0, 0, 0]),
    (Kind::StatusCode, &[0x13, 0, 0, 0x0b, 0x80]),
    (Kind::QualifiedName, &[0x14, 1, 0, 1, 0, 0, 0, b'a']),
    (Kind::LocalizedText, &[0x15, 2, 1, 0, 0, 0, b'a']),
    (Kind::ExtensionObject, &[0x16, 0, 0, 0]),
    (Kind::DataValue, &[0x17, 0x01, 0x06, 1, 0, 0, 0]),
    (Kind::DiagnosticInfo, &[0x19, 0x40, 0]),
];

#[derive(Clone, Copy)]
struct Single(Kind);

impl Shown<Variant> for Single {
    fn is_shown(&self, value: &Variant) -> bool {
        !value.is_array()
            && !value.is_null()
            && value.kind() == Some(self.0)
            && value.value().is_some_and(|one| one.kind() == self.0)
    }
}

#[test]
fn variants_have_a_value_of_each_kind(rt: HostRuntime) {
    for (kind, bytes) in &SINGLES {
        assert!(rt;
            is_whole::<Variant, Single>(rt.alloc(), bytes, &Single(*kind)),
            "{bytes:?}"
        );
    }
}

/// What else is read, and what is written for it: byte strings under another type, and any true.
const OTHER_VARIANTS: [(&[u8], &[u8]); 9] = [
    (&[0], &[0]),
    (&[0x01, 0xff], &[0x01, 1]),
    (
        &[0x1a, 2, 0, 0, 0, 0xaa, 0xbb],
        &[0x0f, 2, 0, 0, 0, 0xaa, 0xbb],
    ),
    (&[0x1b, 0, 0, 0, 0], &[0x0f, 0, 0, 0, 0]),
    (&[0x1c, 0, 0, 0, 0], &[0x0f, 0, 0, 0, 0]),
    (&[0x1d, 0, 0, 0, 0], &[0x0f, 0, 0, 0, 0]),
    (&[0x1e, 0, 0, 0, 0], &[0x0f, 0, 0, 0, 0]),
    (
        &[0x1f, 0xff, 0xff, 0xff, 0xff],
        &[0x0f, 0xff, 0xff, 0xff, 0xff],
    ),
    (
        &[0x9f, 1, 0, 0, 0, 1, 0, 0, 0, 0xaa],
        &[0x8f, 1, 0, 0, 0, 1, 0, 0, 0, 0xaa],
    ),
];

/// Type 0 with a flag, types above 31, dimensions of no array, and a Variant in a Variant.
const NO_VARIANTS: [&[u8]; 8] = [
    &[0x40],
    &[0x80, 0, 0, 0, 0],
    &[0xc0, 0, 0, 0, 0],
    &[0x20, 0, 0, 0, 0],
    &[0x3f, 0, 0, 0, 0],
    &[0xa0, 0, 0, 0, 0],
    &[0x46, 1, 0, 0, 0, 0, 0, 0, 0],
    &[0x18, 0],
];

#[test]
fn variants_of_other_types_are_byte_strings_or_refused(rt: HostRuntime) {
    assert!(rt; are_refused::<Variant>(rt.alloc(), &NO_VARIANTS));
    assert!(rt; are_spelled::<Variant>(rt.alloc(), &OTHER_VARIANTS));
}

/// Arrays as they are written, with the number of their elements, if they are not null, and their dimensions.
const ARRAYS: [(&[u8], Option<usize>, Option<&[i32]>); 8] = [
    (&[0x86, 2, 0, 0, 0, 1, 0, 0, 0, 2, 0, 0, 0], Some(2), None),
    (
        &[
            0xc6, 2, 0, 0, 0, 1, 0, 0, 0, 2, 0, 0, 0, 2, 0, 0, 0, 2, 0, 0, 0, 1, 0, 0, 0,
        ],
        Some(2),
        Some(&[2, 1]),
    ),
    (&[0x86, 0xff, 0xff, 0xff, 0xff], None, None),
    (&[0x86, 0, 0, 0, 0], Some(0), None),
    (
        &[0xc6, 0xff, 0xff, 0xff, 0xff, 1, 0, 0, 0, 0, 0, 0, 0],
        None,
        Some(&[0]),
    ),
    (
        &[0xc6, 0, 0, 0, 0, 2, 0, 0, 0, 0, 0, 0, 0, 5, 0, 0, 0],
        Some(0),
        Some(&[0, 5]),
    ),
    (
        &[
            0xc6, 0, 0, 0, 0, 5, 0, 0, 0, 0xff, 0xff, 0xff, 0x7f, 0xff, 0xff, 0xff, 0x7f, 0xff,
            0xff, 0xff, 0x7f, 0xff, 0xff, 0xff, 0x7f, 0, 0, 0, 0,
        ],
        Some(0),
        Some(&[0x7fff_ffff, 0x7fff_ffff, 0x7fff_ffff, 0x7fff_ffff, 0]),
    ),
    (&[0x98, 2, 0, 0, 0, 0, 0x06, 1, 0, 0, 0], Some(2), None),
];

/// Other products (one of them 2 to the 64), a negative dimension, none, null dimensions, counts that are too great or negative.
const NO_ARRAYS: [&[u8]; 9] = [
    &[
        0xc6, 2, 0, 0, 0, 1, 0, 0, 0, 2, 0, 0, 0, 2, 0, 0, 0, 2, 0, 0, 0, 2, 0, 0, 0,
    ],
    &[
        0xc6, 0, 0, 0, 0, 4, 0, 0, 0, 0, 0, 1, 0, 0, 0, 1, 0, 0, 0, 1, 0, 0, 0, 1, 0,
    ],
    &[
        0xc6, 1, 0, 0, 0, 5, 0, 0, 0, 2, 0, 0, 0, 0xff, 0xff, 0xff, 0xff, 0xff, 0xff, 0xff, 0xff,
    ],
    &[0xc6, 1, 0, 0, 0, 5, 0, 0, 0, 0, 0, 0, 0],
    &[0xc6, 0, 0, 0, 0, 0xff, 0xff, 0xff, 0xff],
    &[0xc6, 0xff, 0xff, 0xff, 0xff, 1, 0, 0, 0, 1, 0, 0, 0],
    &[0x83, 2, 0, 0, 0, 1],
    &[0x83, 0xff, 0xff, 0xff, 0x7f, 1, 1, 1],
    &[0x83, 0xfe, 0xff, 0xff, 0xff, 1, 1, 1],
];

/// The number of elements, if they are not null, and the dimensions.
#[derive(Clone, Copy)]
struct Shape<'a>(Option<usize>, Option<&'a [i32]>);

impl Shown<Variant> for Shape<'_> {
    fn is_shown(&self, value: &Variant) -> bool {
        value.is_array()
            && value.elements().map(|elements| elements.len()) == self.0
            && value.dimensions() == self.1
    }
}

#[test]
fn arrays_have_dimensions_that_fit(rt: HostRuntime) {
    assert!(rt; are_refused::<Variant>(rt.alloc(), &NO_ARRAYS));
    for (bytes, count, lengths) in &ARRAYS {
        let want = Shape(*count, *lengths);
        assert!(rt;
            is_whole::<Variant, Shape>(rt.alloc(), bytes, &want),
            "{bytes:?}"
        );
    }
}

/// Each part: the value, the status, the moment at the source and its picoseconds, those at the server.
pub(crate) const DATA: [u8; 30] = [
    0x3f, 0x06, 1, 0, 0, 0, 0, 0, 0x0b, 0x80, 2, 0, 0, 0, 0, 0, 0, 0, 3, 0, 4, 0, 0, 0, 0, 0, 0, 0,
    5, 0,
];

/// What is flagged is kept; picoseconds from 10000 on are 9999.
const SOME_DATA: [(&[u8], &[u8]); 6] = [
    (&[0], &[0]),
    (&[0x01, 0], &[0x01, 0]),
    (&[0x02, 0, 0, 0, 0], &[0x02, 0, 0, 0, 0]),
    (
        &[0x14, 0, 0, 0, 0, 0, 0, 0, 0, 0xff, 0xff],
        &[0x14, 0, 0, 0, 0, 0, 0, 0, 0, 0x0f, 0x27],
    ),
    (&[0x10, 0x10, 0x27], &[0x10, 0x0f, 0x27]),
    (&[0x20, 0x0f, 0x27], &[0x20, 0x0f, 0x27]),
];

const NO_DATA: [&[u8]; 3] = [&[0x40], &[0x80], &[0x01, 0x18, 0]];

/// A Variant with an array of DataValues, each with a Variant in it.
const NESTED_DATA: [u8; 8] = [0x01, 0x97, 1, 0, 0, 0, 0x01, 0];

impl Shown<DataValue> for EachPart {
    fn is_shown(&self, data: &DataValue) -> bool {
        data.depth() == 2
            && data
                .value()
                .is_some_and(|value| value.kind() == Some(Kind::Int32))
            && data.status() == Some(StatusCode(0x800b_0000))
            && data.source_timestamp() == Some(DateTime(2))
            && data.source_picoseconds() == Some(3)
            && data.server_timestamp() == Some(DateTime(4))
            && data.server_picoseconds() == Some(5)
    }
}

/// A depth.
#[derive(Clone, Copy)]
pub(crate) struct Depth(pub(crate) u8);

impl Shown<DataValue> for Depth {
    fn is_shown(&self, value: &DataValue) -> bool {
        value.depth() == self.0
    }
}

impl Shown<DiagnosticInfo> for Depth {
    fn is_shown(&self, value: &DiagnosticInfo) -> bool {
        value.depth() == self.0
    }
}

#[test]
fn data_values_keep_what_is_flagged(rt: HostRuntime) {
    let alloc = rt.alloc();
    assert!(rt; are_refused::<DataValue>(alloc, &NO_DATA));
    assert!(rt; are_spelled::<DataValue>(alloc, &SOME_DATA));
    assert!(rt; is_whole::<DataValue, Depth>(alloc, &NESTED_DATA, &Depth(4)));
    assert!(rt; is_whole::<DataValue, EachPart>(alloc, &DATA, &EachPart));
}
