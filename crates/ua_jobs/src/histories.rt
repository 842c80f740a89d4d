//! A reader of history: values are read, and written again.

use crate::digest::{Digest, Failed};
use crate::draw::{Draw, Pool};
use crate::frames::put_number;
use crate::values::{Kind, put_array, put_deep, put_variant};
use std::alloc::Global;
use ua_value::{Array, DoubleBits, NodeId, UaBytes, UaString, Wire};
use ua_variant::{DataValue, Variant};

/// No input is longer.
const LONGEST: usize = 1_073_741_824;

/// Adds what a value is written as.
fn add_written<T: Wire>(alloc: Global, value: &T, digest: &mut Digest) -> Result<(), Failed> {
    let mut out = Vec::new(alloc);
    match value.write(&mut out) {
        Ok(()) => {
            digest.add_bytes(&out);
            Ok(())
        }
        Err(_) => Err(Failed),
    }
}

/// Reads a value of the type, writes it, and adds what was written and how much was read.
fn read_and_write<T: Wire>(alloc: Global, bytes: &[u8], digest: &mut Digest) -> Result<(), Failed> {
    if bytes.len() > LONGEST {
        return Err(Failed);
    }
    match T::read(alloc, bytes) {
        Ok((value, used)) => {
            digest.add(used as u64);
            add_written(alloc, &value, digest)
        }
        Err(_) => Err(Failed),
    }
}

/// How many elements of which kind a Variant has, and how often one comes in a round.
const VARIANTS: [(u32, Kind, u32); 9] = [
    (20, Kind::Data, 2_000),
    (1, Kind::Data, 40_000),
    (2, Kind::Int32, 100_000),
    (2, Kind::Double, 100_000),
    (2, Kind::Text, 20_000),
    (1, Kind::WideText, 5_000),
    (1, Kind::NodeId, 20_000),
    (1, Kind::Localized, 10_000),
    (1, Kind::Null, 40_000),
];

/// What the values of a round are made and read by.
#[derive(Drop)]
struct Reader<'a> {
    alloc: Global,
    bytes: &'a mut Vec<u8>,
    pool: &'a Pool,
    draw: &'a mut Draw,
    digest: &'a mut Digest,
}

fn variants(r: &mut Reader) -> Result<(), Failed> {
    for (times, kind, count) in &VARIANTS {
        for _ in 0..*times {
            r.bytes.clear();
            let count = count.wrapping_add(r.draw.below(*count / 64));
            put_variant(r.bytes, *kind, count, r.pool, r.draw)?;
            read_and_write::<Variant>(r.alloc, r.bytes, r.digest)?;
        }
    }
    Ok(())
}

fn array_of<T: Wire>(r: &mut Reader, kind: Kind, count: u32) -> Result<(), Failed> {
    r.bytes.clear();
    put_array(r.bytes, kind, count, r.pool, r.draw)?;
    read_and_write::<Array<T>>(r.alloc, r.bytes, r.digest)
}

fn arrays(r: &mut Reader) -> Result<(), Failed> {
    array_of::<DataValue>(r, Kind::Data, 20_000)?;
    array_of::<i32>(r, Kind::Int32, 200_000)?;
    array_of::<DoubleBits>(r, Kind::Double, 200_000)?;
    array_of::<UaString>(r, Kind::Text, 20_000)?;
    array_of::<NodeId>(r, Kind::NodeId, 20_000)
}

/// A megabyte in one value.
fn long_bytes(r: &mut Reader) -> Result<(), Failed> {
    r.bytes.clear();
    put_number(r.bytes, 1_048_576)?;
    for _ in 0..16 {
        r.bytes.extend_from_slice(r.pool.some(r.draw, 65_536))?;
    }
    read_and_write::<UaBytes>(r.alloc, r.bytes, r.digest)
}

fn round(r: &mut Reader) -> Result<(), Failed> {
    variants(r)?;
    arrays(r)?;
    long_bytes(r)?;
    for n in 0..100u32 {
        r.bytes.clear();
        put_deep(r.bytes, n % 2 == 0, r.draw)?;
        read_and_write::<Variant>(r.alloc, r.bytes, r.digest)?;
    }
    Ok(())
}

fn rounds_of(r: &mut Reader, rounds: u32) -> Result<(), Failed> {
    for _ in 0..rounds {
        round(r)?;
    }
    Ok(())
}

/// So many times values of each kind.
pub fn history(
    alloc: Global,
    pool: &Pool,
    draw: &mut Draw,
    rounds: u32,
    digest: &mut Digest,
) -> Result<(), Failed> {
    let mut bytes = Vec::new(alloc);
    let mut reader = Reader {
        alloc,
        bytes: &mut bytes,
        pool,
        draw,
        digest,
    };
    rounds_of(&mut reader, rounds)
}
