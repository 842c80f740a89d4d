//! Values in OPC UA Binary, as a server of history sends them: lists of drawn values, behind the head of a Variant's array
//! or of an array.

use crate::digest::Failed;
use crate::draw::{Draw, Pool};
use crate::frames::{put_number, put_text};

/// What the elements of a list are.
#[derive(Clone, Copy)]
pub enum Kind {
    Data,
    Int32,
    Double,
    Text,
    WideText,
    NodeId,
    Localized,
    Null,
}

impl Kind {
    /// The number of the built-in type.
    pub fn number(self) -> u8 {
        match self {
            Kind::Data => 23,
            Kind::Int32 => 6,
            Kind::Double => 11,
            Kind::Text | Kind::WideText => 12,
            Kind::NodeId => 17,
            Kind::Localized => 21,
            Kind::Null => 24,
        }
    }
}

/// A text outside ASCII.
const WIDE: &str = "Druckmeßgerät № 7 – Ø 40 µm, 압력 센서";

/// A DataValue with a Double, a status and two moments.
fn put_data(out: &mut Vec<u8>, pool: &Pool, draw: &mut Draw) -> Result<(), Failed> {
    out.extend_from_slice(&[0x0F, 11])?;
    out.extend_from_slice(pool.some(draw, 28))?;
    Ok(())
}

fn put_node_id(out: &mut Vec<u8>, pool: &Pool, draw: &mut Draw, n: u32) -> Result<(), Failed> {
    match n % 4 {
        0 => out.extend_from_slice(&[0, (n % 256) as u8])?,
        1 => {
            out.extend_from_slice(&[1, 2])?;
            out.extend_from_slice(pool.some(draw, 2))?;
        }
        2 => {
            out.extend_from_slice(&[2, 3, 0])?;
            out.extend_from_slice(pool.some(draw, 4))?;
        }
        _ => {
            out.extend_from_slice(&[3, 4, 0])?;
            put_text(out, pool.some(draw, 24))?;
        }
    }
    Ok(())
}

/// A text outside ASCII with drawn digits behind it.
fn put_wide(out: &mut Vec<u8>, pool: &Pool, draw: &mut Draw) -> Result<(), Failed> {
    let digits = pool.some(draw, 8);
    let len = WIDE.len().saturating_add(digits.len());
    put_number(out, u32::try_from(len).unwrap_or(0))?;
    out.extend_from_slice(WIDE.as_bytes())?;
    out.extend_from_slice(digits)?;
    Ok(())
}

fn put_element(
    out: &mut Vec<u8>,
    kind: Kind,
    pool: &Pool,
    draw: &mut Draw,
    n: u32,
) -> Result<(), Failed> {
    match kind {
        Kind::Data => put_data(out, pool, draw),
        Kind::Int32 => put_number(out, draw.half()),
        Kind::Double => {
            out.extend_from_slice(&draw.next().to_le_bytes())?;
            Ok(())
        }
        Kind::Text => put_text(out, pool.some(draw, 20 + (n % 40) as usize)),
        Kind::WideText => put_wide(out, pool, draw),
        Kind::NodeId => put_node_id(out, pool, draw, n),
        Kind::Localized => {
            out.push(3)?;
            put_text(out, b"en")?;
            put_text(out, pool.some(draw, 16 + (n % 16) as usize))
        }
        // The first is an Int32, so that no two lists are the same.
        Kind::Null if n == 0 => {
            out.push(6)?;
            put_number(out, draw.half())
        }
        Kind::Null => {
            out.push(0)?;
            Ok(())
        }
    }
}

/// Puts a count and so many elements.
pub fn put_array(
    out: &mut Vec<u8>,
    kind: Kind,
    count: u32,
    pool: &Pool,
    draw: &mut Draw,
) -> Result<(), Failed> {
    put_number(out, count)?;
    for n in 0..count {
        put_element(out, kind, pool, draw, n)?;
    }
    Ok(())
}

/// Puts a Variant with such an array.
pub fn put_variant(
    out: &mut Vec<u8>,
    kind: Kind,
    count: u32,
    pool: &Pool,
    draw: &mut Draw,
) -> Result<(), Failed> {
    out.push(kind.number().wrapping_add(128))?;
    put_array(out, kind, count, pool, draw)
}

/// Puts a Variant of depth 100, a drawn number inside: arrays of one Variant, or DataValues by turns with Variants.
pub fn put_deep(out: &mut Vec<u8>, data: bool, draw: &mut Draw) -> Result<(), Failed> {
    for n in 0..99u32 {
        if !data {
            out.extend_from_slice(&[0x98, 1, 0, 0, 0])?;
        } else if n % 2 == 0 {
            out.push(23)?;
        } else {
            out.push(1)?;
        }
    }
    if data {
        out.push(2)?;
    } else {
        out.push(6)?;
    }
    put_number(out, draw.half())
}
