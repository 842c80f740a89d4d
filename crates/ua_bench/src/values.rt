//! Values, read and written.

use crate::giving::{BAD, NO_MEMORY, counted, fault_answer, give};
use std::alloc::Global;
use ua_value::{
    Array, DateTime, DoubleBits, ExpandedNodeId, FloatBits, Guid, LocalizedText, NodeId,
    QualifiedName, StatusCode, UaBytes, UaString, Wire, XmlElement,
};
use ua_variant::{DataValue, DiagnosticInfo, ExtensionObject, Variant};

/// No input is longer.
pub(crate) const LONGEST: usize = 1_073_741_824;

/// What is done with the values of a type.
trait Job: Drop {
    fn run<T: Wire>(self) -> i64;
}

/// Does the job with the built-in type of that number, or with an array of it from 101 on.
fn with_kind<J: Job>(kind: u32, job: J) -> i64 {
    match kind {
        1 => job.run::<bool>(),
        2 => job.run::<i8>(),
        3 => job.run::<u8>(),
        4 => job.run::<i16>(),
        5 => job.run::<u16>(),
        6 => job.run::<i32>(),
        7 => job.run::<u32>(),
        8 => job.run::<i64>(),
        9 => job.run::<u64>(),
        10 => job.run::<FloatBits>(),
        11 => job.run::<DoubleBits>(),
        12 => job.run::<UaString>(),
        13 => job.run::<DateTime>(),
        14 => job.run::<Guid>(),
        15 => job.run::<UaBytes>(),
        16 => job.run::<XmlElement>(),
        17 => job.run::<NodeId>(),
        18 => job.run::<ExpandedNodeId>(),
        19 => job.run::<StatusCode>(),
        20 => job.run::<QualifiedName>(),
        21 => job.run::<LocalizedText>(),
        22 => job.run::<ExtensionObject>(),
        23 => job.run::<DataValue>(),
        24 => job.run::<Variant>(),
        25 => job.run::<DiagnosticInfo>(),
        106 => job.run::<Array<i32>>(),
        112 => job.run::<Array<UaString>>(),
        117 => job.run::<Array<NodeId>>(),
        123 => job.run::<Array<DataValue>>(),
        124 => job.run::<Array<Variant>>(),
        _ => BAD,
    }
}

#[derive(Drop)]
struct Reading<'a> {
    alloc: Global,
    input: &'a [u8],
    repeat: u32,
}

impl<'a> Job for Reading<'a> {
    fn run<T: Wire>(self) -> i64 {
        if self.input.len() > LONGEST {
            return BAD;
        }
        let mut used = 0;
        for _ in 0..self.repeat {
            match T::read(self.alloc, self.input) {
                Ok((_value, n)) => used = n,
                Err(fault) => return fault_answer(fault),
            }
        }
        counted(used)
    }
}

#[derive(Drop)]
struct Writing<'a> {
    alloc: Global,
    input: &'a [u8],
    repeat: u32,
    out: &'a mut [u8],
}

fn write_often<T: Wire>(alloc: Global, value: &T, repeat: u32, out: &mut [u8]) -> i64 {
    let mut bytes = Vec::new(alloc);
    for _ in 0..repeat {
        bytes.clear();
        if value.write(&mut bytes).is_err() {
            return NO_MEMORY;
        }
    }
    give(&bytes, counted(bytes.len()), out)
}

impl<'a> Job for Writing<'a> {
    fn run<T: Wire>(self) -> i64 {
        if self.input.len() > LONGEST {
            return BAD;
        }
        match T::read(self.alloc, self.input) {
            Ok((value, _)) => write_often(self.alloc, &value, self.repeat, self.out),
            Err(fault) => fault_answer(fault),
        }
    }
}

/// Reads a value of the type with that number, `repeat` times.
pub(crate) fn value_read(alloc: Global, kind: u32, input: &[u8], repeat: u32) -> i64 {
    let job = Reading {
        alloc,
        input,
        repeat,
    };
    with_kind(kind, job)
}

/// Reads such a value, and writes it `repeat` times.
pub(crate) fn value_written(
    alloc: Global,
    kind: u32,
    input: &[u8],
    repeat: u32,
    out: &mut [u8],
) -> i64 {
    let job = Writing {
        alloc,
        input,
        repeat,
        out,
    };
    with_kind(kind, job)
}
