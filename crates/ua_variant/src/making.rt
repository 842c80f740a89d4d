//! Variants and data values, made of their parts.

ghost use Rattle.std.specs.Prelude.{◌≡◌, ◌≤◌, ◌<◌, ◌^◌, ◌↔◌, length, map, option_map, IfOk, IfErr, IfSome, IsErrOf};
ghost use Rattle.ua_value.specs.Text.{longest};
ghost use Rattle.ua_variant.specs.Values.{null, one, array_with};
ghost use Rattle.ua_variant.specs.Spelling.{lengths};
ghost use Rattle.ua_variant.specs.Lists.{IsShortList};
ghost use Rattle.ua_variant.specs.Making.{fault_of, scalar_fault, are_of, are_all_of, has_shape, array_fault, data_value_of, IsFull};
ghost use Rattle.ua_variant.specs.Picoseconds.{most_picoseconds};
ghost use Rattle.ua_variant.specs.Stamps.{of_row};
ghost use Rattle.ua_variant.specs.View.{kind_of, element, items_in};

use crate::depth::levels_in;
use crate::fault::VariantFault;
use crate::picoseconds::Picoseconds;
use crate::reading::count_in;
use crate::shape::is_shape_of;
use crate::stamps::Stamps;
use crate::variant::{Body, DataValue, Element, Elements, Variant};
use ua_kind::{DEEPEST, Kind};
use ua_value::plumbing::let_go;
use ua_value::{Array, DateTime, StatusCode, Wire};

/// All elements are of the kind.
fn are_of(kind: Kind, items: &[Element]) -> bool
    ensures { result ≡ are_of (kind_of kind) (map element items.now) }
{
    for item in items {
        if item.kind().number() != kind.number() {
            return false;
        }
    }
    true
}

/// All elements are of the kind, if there are any.
fn are_all_of(kind: Kind, items: &Option<Vec<Element>>) -> bool
    ensures { result ≡ are_all_of (kind_of kind) (items_in items.now) }
{
    match items {
        None => true,
        Some(items) => are_of(kind, items),
    }
}

/// There are no dimensions, or they are those of so many elements.
fn has_shape(count: usize, dimensions: &Array<i32>) -> bool
    requires { count < 2 ^ 32 }
    ensures shape { result ≡ has_shape count dimensions.now }
    ensures value { lengths.IsValue dimensions.now }
{
    let _len = dimensions.len();
    match dimensions.get() {
        None => true,
        Some(_) => is_shape_of(count, dimensions),
    }
}

/// The dimensions as an array, which takes no memory.
fn array_of(dimensions: Option<Vec<i32>>) -> Array<i32>
    requires { IfSome dimensions (λ v. length v.items ≤ longest) }
    ensures { result ≡ option_map (λ v. v.items) dimensions }
{
    let Some(dimensions) = dimensions else {
        return Array::null();
    };
    match Array::new(dimensions) {
        Ok(dimensions) => dimensions,
        Err(_) => Array::null(),
    }
}

impl Variant {
    /// No value.
    pub fn null() -> Variant
        ensures { result ≡ null }
    {
        Variant {
            levels: 1,
            body: Body::Null,
        }
    }

    /// A single value (OPC 10000-6, 5.2.2.16).
    ///
    /// # Errors
    ///
    /// The first of these that holds: `SingleVariant` where the value is itself a Variant;
    /// `TooDeep` where it is nested 100 deep already. The value is then dropped. No memory is
    /// taken.
    pub fn scalar(value: Element) -> Result<Variant, VariantFault>
        ensures made { IfOk result (λ v. v ≡ one (element value)) }
        ensures refused { fault_of result ≡ scalar_fault (element value) }
    {
        if value.kind().is_variant() {
            let_go(value);
            return Err(VariantFault::SingleVariant);
        }
        let inside = value.depth();
        if inside >= DEEPEST {
            let_go(value);
            return Err(VariantFault::TooDeep);
        }
        Ok(Variant {
            levels: inside + 1,
            body: Body::One(value),
        })
    }

    /// An array of elements of one kind, or the null array, with its dimensions where there are any
    /// (OPC 10000-6, 5.2.2.16). Each list has at most 2147483647 items, and the spellings of the
    /// elements have at most 1152921504606846976 bytes together.
    ///
    /// # Errors
    ///
    /// The first of these that holds: `MixedKinds` where an element is of another kind;
    /// `BadDimensions` where there are dimensions, but none of them, or a negative one, or their
    /// product is not the number of elements (0 for the null array); `TooDeep` where an element is
    /// nested 100 deep already. Both lists are then dropped. No memory is taken.
    pub fn array(
        kind: Kind,
        elements: Option<Vec<Element>>,
        dimensions: Option<Vec<i32>>,
    ) -> Result<Variant, VariantFault>
        requires elements { IsShortList (items_in elements) }
        requires dimensions { IfSome dimensions (λ v. length v.items ≤ longest) }
        ensures made { IfOk result (λ v. v ≡ array_with (kind_of kind) (items_in elements) (option_map (λ d. d.items) dimensions)) }
        ensures refused { fault_of result ≡ array_fault (kind_of kind) (items_in elements) (option_map (λ d. d.items) dimensions) }
    {
        if !are_all_of(kind, &elements) {
            let_go((elements, dimensions));
            return Err(VariantFault::MixedKinds);
        }
        let elements = Elements { list: elements };
        let dimensions = array_of(dimensions);
        if !has_shape(count_in(&elements.list), &dimensions) {
            let_go((elements, dimensions));
            return Err(VariantFault::BadDimensions);
        }
        let inside = levels_in(&elements.list);
        if inside >= DEEPEST {
            let_go((elements, dimensions));
            return Err(VariantFault::TooDeep);
        }
        Ok(Variant {
            levels: inside + 1,
            body: Body::Array(kind, elements, dimensions),
        })
    }
}

/// The picoseconds as they are kept.
fn kept(tens: Option<u16>) -> Option<Picoseconds>
    requires { IfSome tens (λ n. n ≤ most_picoseconds) }
    ensures { result ≡ tens }
{
    match tens {
        None => None,
        Some(tens) => Some(Picoseconds::capped(tens)),
    }
}

impl DataValue {
    /// A value with its status and its moments, each where there is one, in the order of their
    /// bytes (OPC 10000-6, 5.2.2.17). Picoseconds are in steps of 10, at most 9999.
    ///
    /// # Errors
    ///
    /// `TooDeep` exactly where `value` is nested 100 deep already; it is then dropped. No other
    /// fault comes, and no memory is taken.
    pub fn new(
        value: Option<Variant>,
        status: Option<StatusCode>,
        source_timestamp: Option<DateTime>,
        source_picoseconds: Option<u16>,
        server_timestamp: Option<DateTime>,
        server_picoseconds: Option<u16>,
    ) -> Result<DataValue, VariantFault>
        requires source { IfSome source_picoseconds (λ n. n ≤ most_picoseconds) }
        requires server { IfSome server_picoseconds (λ n. n ≤ most_picoseconds) }
        ensures made { IfOk result (λ v. v ≡ data_value_of value (of_row (status, (source_timestamp, (source_picoseconds, (server_timestamp, server_picoseconds)))))) }
        ensures too_deep { IsErrOf result VariantFault.TooDeep ↔ IsFull value }
        ensures faults { IfErr result (λ e. e ≡ VariantFault.TooDeep) }
    {
        let stamps = Stamps {
            status,
            source_timestamp,
            source_picoseconds: kept(source_picoseconds),
            server_timestamp,
            server_picoseconds: kept(server_picoseconds),
        };
        let _len = stamps.len();
        let Some(value) = value else {
            return Ok(DataValue::of(None, stamps));
        };
        if value.levels >= DEEPEST {
            let_go(value);
            return Err(VariantFault::TooDeep);
        }
        Ok(DataValue::of(Some(value), stamps))
    }
}
