//! Variants (OPC 10000-6, 5.2.2.16).

use crate::telling::{Row, are_told, is_refused};
use ua_variant::Kind;

const SINGLES: &[Row] = &[
    (Kind::Variant, &[0], "value null\n"),
    (Kind::Variant, &[6, 5, 0, 0, 0], "value Int32 5\n"),
    (
        Kind::Variant,
        b"\x0c\xff\xff\xff\xff",
        "value String null\n",
    ),
    (
        Kind::Variant,
        b"\x16\0\x48\x01\x01\0\0\0\x0a",
        "value ExtensionObject type=i=72 bytes size=1 0a\n",
    ),
    (
        Kind::Variant,
        &[0x17, 0x02, 0, 0, 0x34, 0x80],
        "value DataValue\n  status 80340000 BadNodeIdUnknown\n",
    ),
    (
        Kind::Variant,
        &[0x19, 0x01, 3, 0, 0, 0],
        "value DiagnosticInfo\n  symbolic-id 3\n",
    ),
];

const ARRAYS: &[Row] = &[
    (
        Kind::Variant,
        &[0x84, 2, 0, 0, 0, 1, 0, 0xff, 0xff],
        "value Int16[2]\n  [0] 1\n  [1] -1\n",
    ),
    (Kind::Variant, &[0x86, 0, 0, 0, 0], "value Int32[0]\n"),
    (
        Kind::Variant,
        &[0x86, 0xff, 0xff, 0xff, 0xff],
        "value Int32[] null\n",
    ),
    (
        Kind::Variant,
        &[
            0xc1, 6, 0, 0, 0, 1, 0, 1, 0, 1, 1, 2, 0, 0, 0, 2, 0, 0, 0, 3, 0, 0, 0,
        ],
        "value Boolean[6]\n  dimensions 2,3\n  [0] true\n  [1] false\n  [2] true\n  [3] false\n  [4] true\n  [5] true\n",
    ),
    (
        Kind::Variant,
        b"\x8c\x02\0\0\0\x01\0\0\0a\xff\xff\xff\xff",
        "value String[2]\n  [0] \"a\"\n  [1] null\n",
    ),
    (
        Kind::Variant,
        &[0x98, 3, 0, 0, 0, 0, 6, 5, 0, 0, 0, 0x81, 1, 0, 0, 0, 1],
        "value Variant[3]\n  [0] null\n  [1] Int32 5\n  [2] Boolean[1]\n    [0] true\n",
    ),
    (
        Kind::Variant,
        &[0x97, 2, 0, 0, 0, 0, 0x01, 1, 1],
        "value DataValue[2]\n  [0] empty\n  [1]\n    value Boolean true\n",
    ),
    (
        Kind::Variant,
        &[
            0x98, 3, 0, 0, 0, 0, 6, 5, 0, 0, 0, 0x97, 2, 0, 0, 0, 0, 0x03, 0xc1, 2, 0, 0, 0, 1, 0,
            2, 0, 0, 0, 2, 0, 0, 0, 1, 0, 0, 0, 0, 0, 0x34, 0x80,
        ],
        "value Variant[3]\n  [0] null\n  [1] Int32 5\n  [2] DataValue[2]\n    [0] empty\n    [1]\n      status 80340000 BadNodeIdUnknown\n      value Boolean[2]\n        dimensions 2,1\n        [0] true\n        [1] false\n",
    ),
];

#[test]
fn variants_are_told(rt: HostRuntime) {
    let alloc = rt.alloc();
    assert!(rt; are_told(alloc, SINGLES));
    assert!(rt; are_told(alloc, ARRAYS));
    assert!(rt; is_refused(alloc, Kind::Variant, &[0x18, 0]));
}
