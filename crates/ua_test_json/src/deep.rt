//! Values at the greatest depth, and long ones.

use crate::lines::is_json;
use crate::values::is_value;
use std::alloc::{AllocError, Global};
use ua_json::add_value;
use ua_kind::Kind;

/// A value that is nested 100 deep, as bytes and as JSON: levels with their number, what is inside, and what ends each level.
struct Deep {
    kind: Kind,
    level: &'static [u8],
    levels: usize,
    inside: &'static [u8],
    begins: &'static str,
    value: &'static str,
    ends: &'static str,
}

const DEEP: [Deep; 4] = [
    Deep {
        kind: Kind::Variant,
        level: &[0x98, 1, 0, 0, 0],
        levels: 99,
        inside: &[0],
        begins: "{\"Type\":\"Variant\",\"Body\":[",
        value: "null",
        ends: "]}",
    },
    Deep {
        kind: Kind::Variant,
        level: &[0x17, 0x01],
        levels: 49,
        inside: &[0x17, 0],
        begins: "{\"Type\":\"DataValue\",\"Body\":{\"Value\":",
        value: "{\"Type\":\"DataValue\",\"Body\":{}}",
        ends: "}}",
    },
    Deep {
        kind: Kind::DataValue,
        level: &[0x01, 0x17],
        levels: 49,
        inside: &[0x01, 0],
        begins: "{\"Value\":{\"Type\":\"DataValue\",\"Body\":",
        value: "{\"Value\":null}",
        ends: "}}",
    },
    Deep {
        kind: Kind::DiagnosticInfo,
        level: &[0x40],
        levels: 99,
        inside: &[0],
        begins: "{\"InnerDiagnosticInfo\":",
        value: "{}",
        ends: "}",
    },
];

fn bytes_of(alloc: Global, deep: &Deep) -> Result<Vec<u8>, AllocError> {
    let mut bytes = Vec::new(alloc);
    for _ in 0..deep.levels {
        bytes.extend_from_slice(deep.level)?;
    }
    bytes.extend_from_slice(deep.inside)?;
    Ok(bytes)
}

/// The line of the value without the canonical spelling, which all the bytes are.
fn line_of(alloc: Global, deep: &Deep, bytes: &[u8]) -> Result<String, AllocError> {
    let name = deep.kind.name();
    let size = bytes.len();
    let digits = hex::encode(alloc, bytes)?;
    let mut line = format!(in alloc;
        "{{\"Type\":\"{name}\",\"Used\":{size},\"Size\":{size},\"Canonical\":\"{digits}\",\"Value\":"
    )?;
    for _ in 0..deep.levels {
        line.push_str(deep.begins)?;
    }
    line.push_str(deep.value)?;
    for _ in 0..deep.levels {
        line.push_str(deep.ends)?;
    }
    line.push_str("}\n")?;
    Ok(line)
}

/// Whether the line is whole; a reader of JSON that stops at 127 levels may not take it.
fn is_written(alloc: Global, deep: &Deep) -> bool {
    let Ok(bytes) = bytes_of(alloc, deep) else {
        return false;
    };
    let Ok(line) = line_of(alloc, deep, bytes.as_slice()) else {
        return false;
    };
    let mut text = String::new(alloc);
    bytes.len() < 1 << 60
        && add_value(alloc, &mut text, deep.kind, bytes.as_slice()).is_ok()
        && text.as_str() == line.as_str()
}

fn are_written(alloc: Global, rows: &[Deep]) -> bool {
    for deep in rows {
        if !is_written(alloc, deep) {
            return false;
        }
    }
    true
}

#[test]
fn a_hundred_levels_are_written(rt: HostRuntime) {
    assert!(rt; are_written(rt.alloc(), &DEEP));
}

/// A Variant of so many Bytes of 7.
fn bytes_of_7(alloc: Global, count: u32) -> Result<Vec<u8>, AllocError> {
    let mut bytes = Vec::new(alloc);
    bytes.push(0x83)?;
    bytes.extend_from_slice(&count.to_le_bytes())?;
    for _ in 0..count {
        bytes.push(7)?;
    }
    Ok(bytes)
}

/// Whether a list of so many is written, with a comma between each two.
fn is_long(alloc: Global, count: u32) -> bool {
    let Ok(bytes) = bytes_of_7(alloc, count) else {
        return false;
    };
    let mut text = String::new(alloc);
    if bytes.len() >= 1 << 60
        || add_value(alloc, &mut text, Kind::Variant, bytes.as_slice()).is_err()
    {
        return false;
    }
    let list = text.as_str().split_once("\"Body\":[");
    match list {
        Some((_, list)) => list.len() == 2 * count as usize + 3 && is_json(alloc, text.as_str()),
        None => false,
    }
}

#[test]
fn a_long_array_is_written(rt: HostRuntime) {
    assert!(rt; is_long(rt.alloc(), 200_000));
}

/// Nothing is read of no bytes.
#[test]
fn an_empty_array_is_written(rt: HostRuntime) {
    assert!(rt;
        is_value(
            rt.alloc(),
            Kind::Variant,
            &[0x83, 0, 0, 0, 0],
            "{\"Type\":\"Variant\",\"Used\":5,\"Size\":5,\"Canonical\":\"8300000000\",\"Value\":{\"Type\":\"Byte\",\"Body\":[]}}"
        )
    );
}
