//! Variants, DataValues and diagnostics that are made, and why constructors refuse.

ghost use Rattle.std.specs.Prelude.{◌≤◌, length, IfOk, IfSome, Some};
ghost use Rattle.ua_value.specs.Text.{longest};
ghost use Rattle.ua_variant.specs.Lists.{IsShortList};
ghost use Rattle.ua_variant.specs.View.{items_in};

use crate::variants::{DATA, DIAGNOSTICS};
use std::alloc::Global;
use ua_test_shared::spelling::{Shown, are_written, is_printed};
use ua_value::{DateTime, NoMemory, StatusCode, UaString, Wire};
use ua_variant::{DataValue, DiagnosticInfo, Element, Kind, Variant, VariantFault};

/// Whether what was made is written as the bytes, and so is a copy.
pub(crate) fn is_made_as<T: Wire>(
    alloc: Global,
    made: Result<T, VariantFault>,
    canon: &[u8],
) -> bool {
    match made {
        Ok(value) => are_written(alloc, &value, canon),
        Err(_) => false,
    }
}

/// Whether nothing was made, for the reason.
pub(crate) fn is_not_made<T: Drop>(made: Result<T, VariantFault>, reason: VariantFault) -> bool {
    match made {
        Ok(_) => false,
        Err(fault) => fault == reason,
    }
}

/// The list, where its elements are short.
fn short_list(items: Vec<Element>) -> Option<Vec<Element>>
    ensures { IsShortList (items_in result) }
{
    match items.as_slice() {
        [first, second] if first.len() <= 1000 && second.len() <= 1000 => Some(items),
        _ => None,
    }
}

/// The array of one short element; of another, none.
pub(crate) fn array_of_one(
    alloc: Global,
    kind: Kind,
    element: Element,
    dimensions: Option<Vec<i32>>,
) -> Result<Variant, VariantFault>
    requires { IfSome dimensions (λ v. length v.items ≤ longest) }
{
    if element.len() > 1000 {
        return Err(VariantFault::NoMemory);
    }
    Variant::array(kind, Some(vec![in alloc; element]?), dimensions)
}

/// A Variant in a list.
pub(crate) fn element_of(alloc: Global, value: Variant) -> Result<Element, VariantFault> {
    Ok(Element::Variant(Box::new(alloc, value)?))
}

/// The DataValue of a value alone.
pub(crate) fn data_of(value: Variant) -> Result<DataValue, VariantFault> {
    DataValue::new(Some(value), None, None, None, None, None)
}

/// The Variant of one DataValue.
pub(crate) fn scalar_of(alloc: Global, value: DataValue) -> Result<Variant, VariantFault> {
    Variant::scalar(Element::DataValue(Box::new(alloc, value)?))
}

/// The DiagnosticInfo of no part, or of an inner one alone.
pub(crate) fn around(
    alloc: Global,
    inner: Option<DiagnosticInfo>,
) -> Result<DiagnosticInfo, VariantFault> {
    let none = UaString::null();
    DiagnosticInfo::new(alloc, None, None, None, None, none, None, inner)
}

/// DataValues and Variants by turns round the null Variant, 99 deep.
pub(crate) fn variant_of_99(alloc: Global) -> Result<Variant, VariantFault> {
    let mut value = Variant::null();
    for _ in 0..49 {
        value = scalar_of(alloc, data_of(value)?)?;
    }
    Ok(value)
}

/// An array of one Variant, 100 deep.
pub(crate) fn array_of_100(alloc: Global) -> Result<Variant, VariantFault> {
    let inside = element_of(alloc, variant_of_99(alloc)?)?;
    array_of_one(alloc, Kind::Variant, inside, None)
}

/// Two Int32, with the dimensions 2 and 1.
const ARRAY: [u8; 25] = [
    0xc6, 2, 0, 0, 0, 1, 0, 0, 0, 2, 0, 0, 0, 2, 0, 0, 0, 2, 0, 0, 0, 1, 0, 0, 0,
];

struct Nothing;

impl Shown<Variant> for Nothing {
    fn is_shown(&self, null: &Variant) -> bool {
        null.is_null()
            && null.kind().is_none()
            && null.value().is_none()
            && null.elements().is_none()
            && null.dimensions().is_none()
            && null.depth() == 1
    }
}

/// The length of an element with nothing nested in it.
struct Flat(u64);

impl Shown<Element> for Flat {
    fn is_shown(&self, element: &Element) -> bool {
        element.len() == self.0 && element.depth() == 0
    }
}

pub(crate) fn shows<T: Drop, W: Shown<T>>(value: T, want: &W) -> bool {
    want.is_shown(&value)
}

fn array_of_two(alloc: Global) -> Result<Variant, VariantFault> {
    let dimensions = [2, 1].to_vec(alloc)?;
    let elements = vec![in alloc; Element::Int32(1), Element::Int32(2)]?;
    Variant::array(Kind::Int32, short_list(elements), Some(dimensions))
}

#[test]
fn variants_hold_what_they_are_given(rt: HostRuntime) {
    let alloc = rt.alloc();
    assert!(rt; shows(Variant::null(), &Nothing));
    assert!(rt; shows(Element::Int32(1), &Flat(4)));
    assert!(rt; is_made_as(alloc, Ok(Variant::null()), &[0]));
    let scalar = Variant::scalar(Element::Int32(1));
    assert!(rt; is_made_as(alloc, scalar, &[0x06, 1, 0, 0, 0]));
    assert!(rt; is_made_as(alloc, array_of_two(alloc), &ARRAY));
    let null = Variant::array(Kind::Byte, None, None);
    assert!(rt; is_made_as(alloc, null, &[0x83, 0xff, 0xff, 0xff, 0xff]));
}

fn data_of_each_part() -> Result<DataValue, VariantFault> {
    let value = Variant::scalar(Element::Int32(1))?;
    let status = Some(StatusCode(0x800b_0000));
    let (source, server) = (Some(DateTime(2)), Some(DateTime(4)));
    DataValue::new(Some(value), status, source, Some(3), server, Some(5))
}

fn diagnostics_of_each_part(alloc: Global) -> Result<DiagnosticInfo, VariantFault> {
    let Ok(info) = UaString::new(alloc, "hi") else {
        return Err(VariantFault::NoMemory);
    };
    let inner = around(alloc, None)?;
    let status = Some(StatusCode(0x800b_0000));
    let (name, namespace, locale, text) = (Some(1), Some(2), Some(3), Some(4));
    DiagnosticInfo::new(
        alloc,
        name,
        namespace,
        locale,
        text,
        info,
        status,
        Some(inner),
    )
}

#[test]
fn parts_are_held(rt: HostRuntime) {
    let alloc = rt.alloc();
    let none = DataValue::new(None, None, None, None, None, None);
    assert!(rt; is_made_as(alloc, none, &[0]));
    assert!(rt; is_made_as(alloc, data_of_each_part(), &DATA));
    assert!(rt; is_made_as(alloc, around(alloc, None), &[0]));
    assert!(rt; is_made_as(alloc, diagnostics_of_each_part(alloc), &DIAGNOSTICS));
}

/// The dimensions as a vector; of more than a hundred, none.
fn lengths(alloc: Global, dimensions: Option<&[i32]>) -> Result<Option<Vec<i32>>, NoMemory>
    ensures { IfOk result (λ o. IfSome o (λ v. length v.items ≤ longest)) }
{
    match dimensions {
        Some(dimensions) if dimensions.len() <= 100 => Ok(Some(dimensions.to_vec(alloc)?)),
        _ => Ok(None),
    }
}

/// An array of a Variant that is 100 deep.
fn array_with(
    alloc: Global,
    kind: Kind,
    dimensions: Option<&[i32]>,
) -> Result<Variant, VariantFault> {
    let dimensions = lengths(alloc, dimensions)?;
    let deep = element_of(alloc, array_of_100(alloc)?)?;
    array_of_one(alloc, kind, deep, dimensions)
}

fn scalar_of_variant(alloc: Global, value: Variant) -> Result<Variant, VariantFault> {
    Variant::scalar(element_of(alloc, value)?)
}

fn scalar_of_array(alloc: Global) -> Result<Variant, VariantFault> {
    scalar_of_variant(alloc, array_of_100(alloc)?)
}

fn null_with_dimensions(alloc: Global) -> Result<Variant, VariantFault> {
    Variant::array(Kind::Byte, None, Some([1].to_vec(alloc)?))
}

/// Why no array of the kind, with the dimensions, is made of one Variant that is 100 deep.
const REASONS: [(Kind, Option<&[i32]>, VariantFault); 8] = [
    (Kind::Int32, Some(&[3]), VariantFault::MixedKinds),
    (Kind::DataValue, None, VariantFault::MixedKinds),
    (Kind::Variant, Some(&[3]), VariantFault::BadDimensions),
    (Kind::Variant, Some(&[]), VariantFault::BadDimensions),
    (Kind::Variant, Some(&[-1, -1]), VariantFault::BadDimensions),
    (Kind::Variant, Some(&[1, 0]), VariantFault::BadDimensions),
    (Kind::Variant, Some(&[1, 1]), VariantFault::TooDeep),
    (Kind::Variant, None, VariantFault::TooDeep),
];

#[test]
fn the_first_reason_is_given(rt: HostRuntime) {
    let alloc = rt.alloc();
    for (kind, dimensions, reason) in &REASONS {
        assert!(rt;
            is_not_made(array_with(alloc, *kind, *dimensions), *reason),
            "{dimensions:?}"
        );
    }
    let single = VariantFault::SingleVariant;
    assert!(rt; is_not_made(scalar_of_array(alloc), single));
    assert!(rt; is_not_made(scalar_of_variant(alloc, Variant::null()), single));
    assert!(rt; is_not_made(null_with_dimensions(alloc), VariantFault::BadDimensions));
}

const FAULTS: [(VariantFault, u8, &str); 5] = [
    (VariantFault::MixedKinds, 1, "elements of another kind"),
    (
        VariantFault::SingleVariant,
        2,
        "a single value that is a Variant",
    ),
    (
        VariantFault::BadDimensions,
        3,
        "dimensions that do not fit the elements",
    ),
    (VariantFault::TooDeep, 4, "nested more than 100 deep"),
    (VariantFault::NoMemory, 5, "out of memory"),
];

fn is_fault(alloc: Global, fault: VariantFault, number: u8, text: &str) -> bool {
    fault as u8 == number && is_printed(alloc, fault, text)
}

#[test]
fn faults_and_kinds_have_numbers(rt: HostRuntime) {
    assert!(rt; Kind::named(26) == Some(Kind::ByteString) && Kind::ByteString.number() == 15);
    assert!(rt; Kind::named(0).is_none() && Kind::named(32).is_none());
    for (fault, number, text) in &FAULTS {
        assert!(rt; is_fault(rt.alloc(), *fault, *number, text), "{text}");
    }
}
