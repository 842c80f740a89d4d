//! Copies of variants and data values.

ghost use Rattle.std.specs.Prelude.{◌≡◌, map, IfOk};
ghost use Rattle.ua_variant.specs.Making.{HoldsNone};
ghost use Rattle.ua_variant.specs.Values.{variant, data_value};
ghost use Rattle.ua_variant.specs.View.{element, items_in};

use crate::leaf::Leaf;
use crate::variant::{Body, DataValue, Element, Elements, Variant};
use ua_value::{NoMemory, Wire};

#[cycle(copy)]
pub(crate) fn copy_variant(value: &Variant) -> Result<Variant, NoMemory>
    ensures { IfOk result (λ v. v ≡ value.now) }
{
    let levels = value.levels;
    match &value.body {
        Body::Null => Ok(Variant {
            levels,
            body: Body::Null,
        }),
        Body::One(one) => {
            let one = copy_element(one)?;
            Ok(Variant {
                levels,
                body: Body::One(one),
            })
        }
        Body::Array(kind, items, lengths) => {
            let items = copy_list(items)?;
            let lengths = lengths.copy()?;
            Ok(Variant {
                levels,
                body: Body::Array(*kind, items, lengths),
            })
        }
    }
}

#[cycle(copy)]
fn copy_list(items: &Elements) -> Result<Elements, NoMemory>
    ensures { IfOk result (λ v. items_in v.list ≡ items_in items.now.list) }
{
    let Some(list) = &items.list else {
        return Ok(Elements { list: None });
    };
    let copies = copy_items(list)?;
    Ok(Elements { list: Some(copies) })
}

#[cycle(copy)]
fn copy_items(items: &Vec<Element>) -> Result<Vec<Element>, NoMemory>
    ensures { IfOk result (λ v. map element v.items ≡ map element items.now.items) }
{
    let mut copies = Vec::with_capacity(*items.allocator(), items.len())?;
    for item in items {
        copies.push(copy_element(item)?)?;
    }
    Ok(copies)
}

impl Element {
    /// An equal value, with memory of its own.
    ///
    /// # Errors
    ///
    /// `NoMemory` where a growth was refused.
    pub fn copy(&self) -> Result<Element, NoMemory>
        ensures { IfOk result (λ e. element e ≡ element self.now) }
    {
        copy_element(self)
    }
}

/// A value of a plain type, as an element.
#[inline(always)]
fn leaf<T: Leaf>(value: T) -> Result<Element, NoMemory>
    ensures { IfOk result (λ e. element e ≡ T.wrap value) }
{
    Ok(value.into_element())
}

/// A copy of a value of a plain type, as an element.
#[inline(always)]
fn copy_leaf<T: Leaf>(value: &T) -> Result<Element, NoMemory>
    ensures { IfOk result (λ e. element e ≡ T.wrap value.now) }
{
    let copy = value.copy()?;
    Ok(copy.into_element())
}

/// The same of a value that holds no other one. Its frame is apart from those of the recursion, so a copy of what is
/// 100 deep needs little stack.
#[inline(never)]
fn copy_plain(item: &Element) -> Result<Element, NoMemory>
    requires { HoldsNone (element item.now) }
    ensures { IfOk result (λ e. element e ≡ element item.now) }
{
    match item {
        Element::Boolean(value) => leaf(*value),
        Element::SByte(value) => leaf(*value),
        Element::Byte(value) => leaf(*value),
        Element::Int16(value) => leaf(*value),
        Element::UInt16(value) => leaf(*value),
        Element::Int32(value) => leaf(*value),
        Element::UInt32(value) => leaf(*value),
        Element::Int64(value) => leaf(*value),
        Element::UInt64(value) => leaf(*value),
        Element::Float(value) => leaf(*value),
        Element::Double(value) => leaf(*value),
        Element::String(value) => copy_leaf(value),
        Element::DateTime(value) => leaf(*value),
        Element::Guid(value) => leaf(*value),
        Element::ByteString(value) => copy_leaf(value),
        Element::XmlElement(value) => copy_leaf(value),
        Element::NodeId(value) => copy_leaf(value),
        Element::ExpandedNodeId(value) => copy_leaf(value),
        Element::StatusCode(value) => leaf(*value),
        Element::QualifiedName(value) => copy_leaf(value),
        Element::LocalizedText(value) => copy_leaf(value),
        Element::ExtensionObject(value) => copy_leaf(value),
        Element::DiagnosticInfo(value) => Ok(Element::from(value.copied()?)),
        Element::DataValue(_) => unreachable!(),
        Element::Variant(_) => unreachable!(),
    }
}

#[cycle(copy)]
fn copy_element(item: &Element) -> Result<Element, NoMemory>
    ensures { IfOk result (λ e. element e ≡ element item.now) }
{
    match item {
        Element::DataValue(value) => copy_boxed_data(value),
        Element::Variant(value) => copy_boxed_variant(value),
        _ => copy_plain(item),
    }
}

/// The frames of these two are apart from that of `copy_element`, so that each level takes the room of one of them.
#[cycle(copy)]
#[inline(never)]
fn copy_boxed_data(value: &Box<DataValue>) -> Result<Element, NoMemory>
    ensures { IfOk result (λ e. element e ≡ data_value value.now.value) }
{
    let copy = copy_data(value)?;
    Ok(Element::DataValue(Box::new(*Box::allocator(value), copy)?))
}

#[cycle(copy)]
#[inline(never)]
fn copy_boxed_variant(value: &Box<Variant>) -> Result<Element, NoMemory>
    ensures { IfOk result (λ e. element e ≡ variant value.now.value) }
{
    let copy = copy_variant(value)?;
    Ok(Element::Variant(Box::new(*Box::allocator(value), copy)?))
}

#[cycle(copy)]
pub(crate) fn copy_data(value: &DataValue) -> Result<DataValue, NoMemory>
    ensures { IfOk result (λ v. v ≡ value.now) }
{
    let levels = value.levels;
    let stamps = value.stamps.copy()?;
    match &value.value {
        None => Ok(DataValue {
            levels,
            stamps,
            value: None,
        }),
        Some(inner) => {
            let copy = copy_variant(inner)?;
            Ok(DataValue {
                levels,
                stamps,
                value: Some(copy),
            })
        }
    }
}
