//! Each call that grows gives its full answer, or says that memory ran out and leaves what stood before. These tests are run with each growth
//! refused in turn (tools/refuse-growths).

use crate::making::around;
use crate::variants::{DATA, DIAGNOSTICS, Depth};
use ua_test_shared::memory::{is_full_or_no_memory, is_shown_or_no_memory};
use ua_variant::{DataValue, DiagnosticInfo, ExtensionObject, Variant, VariantFault};

const NESTED: &[u8] = &[
    0xd8, 2, 0, 0, 0, 0x0f, 1, 0, 0, 0, 0xaa, 0x17, 0x01, 0x19, 0x40, 0, 1, 0, 0, 0, 2, 0, 0, 0,
];

const EXTENSIONS: [&[u8]; 2] = [
    &[0, 0x48, 1, 2, 0, 0, 0, 0xaa, 0xbb],
    &[3, 0, 0, 1, 0, 0, 0, b'a', 2, 1, 0, 0, 0, b'x'],
];

#[test]
fn values_or_no_memory(rt: HostRuntime) {
    let alloc = rt.alloc();
    for bytes in &EXTENSIONS {
        assert!(rt;
            is_full_or_no_memory::<ExtensionObject>(alloc, bytes),
            "{bytes:?}"
        );
    }
    assert!(rt; is_full_or_no_memory::<DiagnosticInfo>(alloc, &DIAGNOSTICS));
    assert!(rt; is_full_or_no_memory::<DataValue>(alloc, &DATA));
    assert!(rt; is_full_or_no_memory::<Variant>(alloc, NESTED));
}

#[test]
fn nested_values_or_no_memory(rt: HostRuntime) {
    let alloc = rt.alloc();
    let inner = around(alloc, None).ok();
    let depth = if inner.is_some() { 2 } else { 1 };
    assert!(rt; is_shown_or_no_memory(around(alloc, inner), &Depth(depth), VariantFault::NoMemory));
}
