//! The greatest depth: what every call makes of it, and that its stack holds.

use crate::making::{
    around, array_of_100, array_of_one, data_of, element_of, is_made_as, is_not_made, scalar_of,
    variant_of_99,
};
use std::alloc::{AllocError, Global};
use ua_test_shared::spelling::{Any, is_refused, is_whole};
use ua_value::{StatusCode, Wire};
use ua_variant::{DataValue, DiagnosticInfo, Element, Kind, Variant, VariantFault};

/// What comes first, levels inside one another with their number, and what is inside them all.
type Levels<'a> = (&'a [u8], &'a [u8], usize, &'a [u8]);

fn nested(alloc: Global, levels: Levels) -> Result<Vec<u8>, AllocError> {
    let (front, level, times, inside) = levels;
    let mut bytes = front.to_vec(alloc)?;
    for _ in 0..times {
        bytes.extend_from_slice(level)?;
    }
    bytes.extend_from_slice(inside)?;
    Ok(bytes)
}

/// Whether they are read, measured, copied and written again, and no beginning of them is read.
fn fit<T: Wire>(alloc: Global, levels: Levels) -> bool {
    match nested(alloc, levels) {
        Ok(bytes) => is_whole::<T, Any>(alloc, bytes.as_slice(), &Any),
        Err(_) => false,
    }
}

fn are_too_deep<T: Wire>(alloc: Global, levels: Levels) -> bool {
    match nested(alloc, levels) {
        Ok(bytes) => is_refused::<T>(alloc, bytes.as_slice()),
        Err(_) => false,
    }
}

/// Whether the first are read, and the others are not.
fn are_read<T: Wire>(alloc: Global, rows: &[Levels], deeper: &[Levels]) -> bool {
    all_fit::<T>(alloc, rows) && all_are_too_deep::<T>(alloc, deeper)
}

fn all_fit<T: Wire>(alloc: Global, rows: &[Levels]) -> bool {
    let mut all = true;
    for levels in rows {
        if !fit::<T>(alloc, *levels) {
            all = false;
        }
    }
    all
}

fn all_are_too_deep<T: Wire>(alloc: Global, rows: &[Levels]) -> bool {
    let mut all = true;
    for levels in rows {
        if !are_too_deep::<T>(alloc, *levels) {
            all = false;
        }
    }
    all
}

const ARRAY: &[u8] = &[0x98, 1, 0, 0, 0];

/// Arrays of Variants, DataValues in Variants, DiagnosticInfos in a Variant.
const VARIANTS: [Levels; 3] = [
    (&[], ARRAY, 99, &[0]),
    (&[], &[0x17, 0x01], 49, &[0x17, 0]),
    (&[0x19], &[0x40], 98, &[0]),
];

const DEEPER_VARIANTS: [Levels; 3] = [
    (&[], ARRAY, 100, &[0]),
    (&[], &[0x17, 0x01], 50, &[0]),
    (&[0x19], &[0x40], 99, &[0]),
];

const DATA: [Levels; 1] = [(&[], &[0x01, 0x17], 49, &[0x01, 0])];

const DEEPER_DATA: [Levels; 1] = [(&[], &[0x01, 0x17], 50, &[0])];

const DIAGNOSTICS: [Levels; 1] = [(&[], &[0x40], 99, &[0])];

const DEEPER_DIAGNOSTICS: [Levels; 1] = [(&[], &[0x40], 100, &[0])];

#[test]
fn a_hundred_levels_are_read_and_no_more(rt: HostRuntime) {
    let alloc = rt.alloc();
    assert!(rt; are_read::<Variant>(alloc, &VARIANTS, &DEEPER_VARIANTS));
    assert!(rt; are_read::<DataValue>(alloc, &DATA, &DEEPER_DATA));
    assert!(rt; are_read::<DiagnosticInfo>(alloc, &DIAGNOSTICS, &DEEPER_DIAGNOSTICS));
}

fn data_of_100(alloc: Global) -> Result<DataValue, VariantFault> {
    data_of(variant_of_99(alloc)?)
}

/// DiagnosticInfos of no part in one another, 100 deep.
fn diagnostics_of_100(alloc: Global) -> Result<DiagnosticInfo, VariantFault> {
    let mut value = around(alloc, None)?;
    for _ in 1..100 {
        value = around(alloc, Some(value))?;
    }
    Ok(value)
}

/// Whether what was made is written as the levels are.
fn are_made<T: Wire>(alloc: Global, made: Result<T, VariantFault>, levels: Levels) -> bool {
    match nested(alloc, levels) {
        Ok(bytes) => is_made_as(alloc, made, bytes.as_slice()),
        Err(_) => false,
    }
}

fn data_is_made(alloc: Global) -> bool {
    are_made(alloc, data_of_100(alloc), DATA[0])
}

/// A DataValue of a status, too.
fn data_with_status(alloc: Global) -> Result<DataValue, VariantFault> {
    let value = variant_of_99(alloc)?;
    DataValue::new(Some(value), Some(StatusCode(1)), None, None, None, None)
}

fn data_with_status_is_made(alloc: Global) -> bool {
    let levels: Levels = (&[0x03], &[0x17, 0x01], 49, &[0, 1, 0, 0, 0]);
    are_made(alloc, data_with_status(alloc), levels)
}

fn array_is_made(alloc: Global) -> bool {
    are_made(alloc, array_of_100(alloc), (ARRAY, &[0x17, 0x01], 49, &[0]))
}

fn diagnostics_are_made(alloc: Global) -> bool {
    are_made(alloc, diagnostics_of_100(alloc), DIAGNOSTICS[0])
}

#[test]
fn a_hundred_levels_are_made(rt: HostRuntime) {
    assert!(rt; data_is_made(rt.alloc()));
    assert!(rt; data_with_status_is_made(rt.alloc()));
    assert!(rt; array_is_made(rt.alloc()));
    assert!(rt; diagnostics_are_made(rt.alloc()));
}

fn scalar_of_101(alloc: Global) -> Result<Variant, VariantFault> {
    scalar_of(alloc, data_of_100(alloc)?)
}

fn scalar_of_diagnostics(alloc: Global) -> Result<Variant, VariantFault> {
    Variant::scalar(Element::DiagnosticInfo(diagnostics_of_100(alloc)?))
}

fn array_of_101(alloc: Global) -> Result<Variant, VariantFault> {
    let inside = element_of(alloc, array_of_100(alloc)?)?;
    array_of_one(alloc, Kind::Variant, inside, None)
}

fn data_of_101(alloc: Global) -> Result<DataValue, VariantFault> {
    data_of(array_of_100(alloc)?)
}

fn diagnostics_of_101(alloc: Global) -> Result<DiagnosticInfo, VariantFault> {
    around(alloc, Some(diagnostics_of_100(alloc)?))
}

#[test]
fn no_more_levels_are_made(rt: HostRuntime) {
    let alloc = rt.alloc();
    let deep = VariantFault::TooDeep;
    assert!(rt; is_not_made(scalar_of_101(alloc), deep));
    assert!(rt; is_not_made(scalar_of_diagnostics(alloc), deep));
    assert!(rt; is_not_made(array_of_101(alloc), deep));
    assert!(rt; is_not_made(data_of_101(alloc), deep));
    assert!(rt; is_not_made(diagnostics_of_101(alloc), deep));
}
