//! Node ids and expanded node ids: bytes and what they spell.

use std::alloc::Global;
use ua_test_shared::spelling::{Shown, are_refused, is_text, is_whole, is_written, spells};
use ua_value::{ExpandedNodeId, Identifier, NodeId};

/// A numeric id: its namespace and its number.
#[derive(Clone, Copy)]
struct Numbered(u16, u32);

impl Shown<NodeId> for Numbered {
    fn is_shown(&self, id: &NodeId) -> bool {
        id.namespace_index == self.0
            && matches!(&id.identifier, Identifier::Numeric(number) if *number == self.1)
    }
}

/// Bytes, the namespace and number that they spell, and what is written for them.
const NUMERIC: [(&[u8], u16, u32, &[u8]); 7] = [
    (&[0x00, 0x48], 0, 72, &[0x00, 0x48]),
    (&[0x01, 0x00, 0x00, 0x01], 0, 256, &[0x01, 0x00, 0x00, 0x01]),
    (
        &[0x01, 0x05, 0x01, 0x04],
        5,
        1025,
        &[0x01, 0x05, 0x01, 0x04],
    ),
    (
        &[0x02, 0x00, 0x01, 0x01, 0x00, 0x00, 0x00],
        256,
        1,
        &[0x02, 0x00, 0x01, 0x01, 0x00, 0x00, 0x00],
    ),
    (
        &[0x02, 0x00, 0x00, 0x48, 0x00, 0x00, 0x00],
        0,
        72,
        &[0x00, 0x48],
    ),
    (&[0x01, 0x00, 0x48, 0x00], 0, 72, &[0x00, 0x48]),
    (
        &[0x02, 0xff, 0xff, 0xff, 0xff, 0xff, 0xff],
        65535,
        4294967295,
        &[0x02, 0xff, 0xff, 0xff, 0xff, 0xff, 0xff],
    ),
];

/// Whether an id that is made of these is written so.
fn is_made(alloc: Global, namespace: u16, number: u32, canon: &[u8]) -> bool {
    let made = NodeId {
        namespace_index: namespace,
        identifier: Identifier::Numeric(number),
    };
    is_written(alloc, &made, canon)
}

#[test]
fn numeric_node_ids_have_three_forms(rt: HostRuntime) {
    let alloc = rt.alloc();
    for (bytes, namespace, number, canon) in &NUMERIC {
        let want = Numbered(*namespace, *number);
        assert!(rt;
            spells::<NodeId, Numbered>(alloc, bytes, bytes.len(), canon, &want),
            "{bytes:?}"
        );
        assert!(rt; is_made(alloc, *namespace, *number, canon), "{bytes:?}");
    }
}

/// A text, a Guid and bytes, each with its namespace.
struct HotWater;

impl Shown<NodeId> for HotWater {
    fn is_shown(&self, id: &NodeId) -> bool {
        id.namespace_index == 1
            && matches!(&id.identifier, Identifier::String(text) if is_text(text, "Hot水"))
    }
}

struct OfGuid;

impl Shown<NodeId> for OfGuid {
    fn is_shown(&self, id: &NodeId) -> bool {
        id.namespace_index == 2
            && matches!(&id.identifier, Identifier::Guid(guid) if guid.data1 == 0x7296_2b91)
    }
}

struct Opaque;

impl Shown<NodeId> for Opaque {
    fn is_shown(&self, id: &NodeId) -> bool {
        id.namespace_index == 3
            && matches!(&id.identifier, Identifier::Opaque(bytes) if bytes.get() == Some([0xff].as_slice()))
    }
}

const HOT_WATER: &[u8] = &[
    0x03, 0x01, 0x00, 0x06, 0x00, 0x00, 0x00, 0x48, 0x6f, 0x74, 0xe6, 0xb0, 0xb4,
];

const OF_GUID: &[u8] = &[
    0x04, 0x02, 0x00, 0x91, 0x2b, 0x96, 0x72, 0x75, 0xfa, 0xe6, 0x4a, 0x8d, 0x28, 0xb4, 0x04, 0xdc,
    0x7d, 0xaf, 0x63,
];

const OPAQUE: &[u8] = &[0x05, 0x03, 0x00, 0x01, 0x00, 0x00, 0x00, 0xff];

fn are_other_forms(alloc: Global) -> bool {
    is_whole::<NodeId, HotWater>(alloc, HOT_WATER, &HotWater)
        && is_whole::<NodeId, OfGuid>(alloc, OF_GUID, &OfGuid)
        && is_whole::<NodeId, Opaque>(alloc, OPAQUE, &Opaque)
}

/// Another form, or flags that no plain id has.
const NO_IDS: [&[u8]; 5] = [
    &[],
    &[0x06, 0x00],
    &[0x40, 0x48],
    &[0x80, 0x48],
    &[0xff, 0x48],
];

#[test]
fn node_ids_of_other_forms(rt: HostRuntime) {
    assert!(rt; are_other_forms(rt.alloc()));
    assert!(rt; are_refused::<NodeId>(rt.alloc(), &NO_IDS));
}

/// The id 72 with a URI, if there is one, and a server.
#[derive(Clone, Copy)]
struct Expanded<'a>(Option<&'a str>, u32);

impl Shown<ExpandedNodeId> for Expanded<'_> {
    fn is_shown(&self, id: &ExpandedNodeId) -> bool {
        id.namespace_uri.get() == self.0
            && id.server_index == self.1
            && matches!(&id.node_id.identifier, Identifier::Numeric(72))
    }
}

/// Bytes, how many of them are used, the URI and the server, and what is written.
const EXPANDED: [(&[u8], usize, Option<&str>, u32, &[u8]); 5] = [
    (&[0x00, 0x48, 0x01], 2, None, 0, &[0x00, 0x48]),
    (
        &[0x80, 0x48, 0xff, 0xff, 0xff, 0xff],
        6,
        None,
        0,
        &[0x00, 0x48],
    ),
    (
        &[0x40, 0x48, 0x00, 0x00, 0x00, 0x00],
        6,
        None,
        0,
        &[0x00, 0x48],
    ),
    (
        &[
            0xc2, 0x00, 0x00, 0x48, 0x00, 0x00, 0x00, 0x01, 0x00, 0x00, 0x00, 0x61, 0x02, 0x00,
            0x00, 0x00,
        ],
        16,
        Some("a"),
        2,
        &[
            0xc0, 0x48, 0x01, 0x00, 0x00, 0x00, 0x61, 0x02, 0x00, 0x00, 0x00,
        ],
    ),
    (
        &[0x80, 0x48, 0x00, 0x00, 0x00, 0x00],
        6,
        Some(""),
        0,
        &[0x80, 0x48, 0x00, 0x00, 0x00, 0x00],
    ),
];

const NO_EXPANDED: [&[u8]; 3] = [&[0x06, 0x48], &[0x3f, 0x48], &[0xc6, 0x48]];

#[test]
fn expanded_node_ids_leave_out_what_is_absent(rt: HostRuntime) {
    let alloc = rt.alloc();
    for (bytes, used, uri, server, canon) in &EXPANDED {
        let want = Expanded(*uri, *server);
        assert!(rt;
            spells::<ExpandedNodeId, Expanded>(alloc, bytes, *used, canon, &want),
            "{bytes:?}"
        );
    }
    assert!(rt; are_refused::<ExpandedNodeId>(alloc, &NO_EXPANDED));
}
