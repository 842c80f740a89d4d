//! Values that are nested as deep as they may be, and long ones.

use crate::telling::{is_refused, is_told};
use std::alloc::{AllocError, Global};
use ua_lines::add_value_of;
use ua_variant::Kind;

/// Values of one shape in one another.
struct Nest {
    kind: Kind,
    /// The bytes that stand around a value.
    outer: &'static [u8],
    /// The value in the last of them.
    last: &'static [u8],
    /// What is said behind the label of one that has another in it.
    head: &'static str,
    /// The label of what is in it.
    label: &'static str,
    /// What is said of the last.
    end: &'static str,
}

/// The bytes of a value in so many others.
fn bytes_of(alloc: Global, nest: &Nest, times: usize) -> Result<Vec<u8>, AllocError> {
    let mut bytes = Vec::new(alloc);
    for _ in 0..times {
        bytes.extend_from_slice(nest.outer)?;
    }
    bytes.extend_from_slice(nest.last)?;
    Ok(bytes)
}

/// Their lines.
fn lines_of(alloc: Global, nest: &Nest, times: usize) -> Result<String, AllocError> {
    let mut lines = String::from_str(alloc, "value")?;
    let mut margin = String::new(alloc);
    for _ in 0..times {
        margin.push_str("  ")?;
        lines.push_str(nest.head)?;
        lines.push_str(margin.as_str())?;
        lines.push_str(nest.label)?;
    }
    lines.push_str(nest.end)?;
    Ok(lines)
}

fn is_told_deep(alloc: Global, nest: &Nest, times: usize) -> Result<bool, AllocError> {
    let bytes = bytes_of(alloc, nest, times)?;
    let lines = lines_of(alloc, nest, times)?;
    Ok(is_told(alloc, nest.kind, bytes.as_slice(), lines.as_str()))
}

fn is_too_deep(alloc: Global, nest: &Nest, times: usize) -> Result<bool, AllocError> {
    let bytes = bytes_of(alloc, nest, times)?;
    Ok(is_refused(alloc, nest.kind, bytes.as_slice()))
}

/// Arrays of one Variant.
const ARRAYS: Nest = Nest {
    kind: Kind::Variant,
    outer: &[0x98, 1, 0, 0, 0],
    last: &[0],
    head: " Variant[1]\n",
    label: "[0]",
    end: " null\n",
};

/// DataValues in Variants, by turns.
const TURNS: Nest = Nest {
    kind: Kind::Variant,
    outer: &[0x17, 0x01],
    last: &[0x17, 0],
    head: " DataValue\n",
    label: "value",
    end: " DataValue empty\n",
};

const INNER: Nest = Nest {
    kind: Kind::DiagnosticInfo,
    outer: &[0x40],
    last: &[0],
    head: "\n",
    label: "inner",
    end: " empty\n",
};

#[test]
fn a_hundred_levels_are_told(rt: HostRuntime) {
    let alloc = rt.alloc();
    assert!(rt; is_told_deep(alloc, &ARRAYS, 99) == Ok(true));
    assert!(rt; is_told_deep(alloc, &TURNS, 49) == Ok(true));
    assert!(rt; is_told_deep(alloc, &INNER, 99) == Ok(true));
    assert!(rt; is_too_deep(alloc, &ARRAYS, 100) == Ok(true));
}

/// An array of 65536 truth values.
fn long_bytes(alloc: Global) -> Result<Vec<u8>, AllocError> {
    let mut bytes = Vec::new(alloc);
    bytes.extend_from_slice(&[0x81, 0, 0, 1, 0])?;
    for _ in 0..65536 {
        bytes.push(1)?;
    }
    Ok(bytes)
}

/// Whether each has a line.
fn is_told_long(alloc: Global) -> Result<bool, AllocError> {
    let bytes = long_bytes(alloc)?;
    if bytes.len() > 100_000 {
        return Ok(false);
    }
    let mut text = String::new(alloc);
    let told = add_value_of(alloc, &mut text, Kind::Variant, bytes.as_slice()).is_ok();
    let ends = text.as_str().ends_with("\n  [65535] true\n");
    Ok(told && ends && text.as_str().lines().count() == 65537)
}

#[test]
fn a_long_array_is_told(rt: HostRuntime) {
    assert!(rt; is_told_long(rt.alloc()) == Ok(true));
}
