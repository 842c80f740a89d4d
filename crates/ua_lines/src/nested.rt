//! The lines of values that hold others. Each call appends what stands behind the label of a value, and the lines under
//! it, at two blanks more than the margin of that label.

use crate::date::Moment;
use crate::diagnostic::add_diagnostic;
use crate::float::{Double, Single};
use crate::margin::Margin;
use crate::plain::{
    add_byte_string, add_expanded, add_extension, add_localized, add_name, add_node_id, add_shown,
    add_text, add_xml,
};
use crate::stamps::{add_stamps, has_no_stamps};
use std::alloc::Global;
use ua_print::NamedCode;
use ua_value::NoMemory;
use ua_variant::{DataValue, Element, Kind, Variant};

/// Appends the lines of a value of a built-in type.
#[cycle(lines)]
pub(crate) fn add_element(
    alloc: Global,
    text: &mut String,
    margin: Margin,
    item: &Element,
) -> Result<(), NoMemory> {
    match item {
        Element::Boolean(value) => add_shown(text, value),
        Element::SByte(value) => add_shown(text, value),
        Element::Byte(value) => add_shown(text, value),
        Element::Int16(value) => add_shown(text, value),
        Element::UInt16(value) => add_shown(text, value),
        Element::Int32(value) => add_shown(text, value),
        Element::UInt32(value) => add_shown(text, value),
        Element::Int64(value) => add_shown(text, value),
        Element::UInt64(value) => add_shown(text, value),
        Element::Float(value) => add_shown(text, &Single(*value)),
        Element::Double(value) => add_shown(text, &Double(*value)),
        Element::String(value) => add_text(text, value),
        Element::DateTime(value) => add_shown(text, &Moment(*value)),
        Element::Guid(value) => add_shown(text, value),
        Element::ByteString(value) => add_byte_string(alloc, text, value),
        Element::XmlElement(value) => add_xml(text, value),
        Element::NodeId(value) => add_node_id(text, value),
        Element::ExpandedNodeId(value) => add_expanded(text, value),
        Element::StatusCode(value) => add_shown(text, &NamedCode(value.0)),
        Element::QualifiedName(value) => add_name(text, value),
        Element::LocalizedText(value) => add_localized(text, value),
        Element::ExtensionObject(value) => add_extension(alloc, text, value),
        Element::DataValue(value) => add_data(alloc, text, margin, value),
        Element::Variant(value) => add_variant(alloc, text, margin, value),
        Element::DiagnosticInfo(value) => add_diagnostic(text, margin.deeper(), value),
    }
}

/// Appends the kind of a single value.
#[inline(never)]
fn add_kind(text: &mut String, kind: Kind) -> Result<(), NoMemory> {
    text.push_str(" ")?;
    text.push_str(kind.name())
}

/// Appends the dimensions of an array, one behind the other.
fn add_dimensions(text: &mut String, margin: Margin, dimensions: &[i32]) -> Result<(), NoMemory> {
    write!(text, "{margin}dimensions")?;
    let mut mark = " ";
    for dimension in dimensions {
        write!(text, "{mark}{dimension}")?;
        mark = ",";
    }
    text.push_str("\n")
}

/// Appends what stands in front of the elements of an array.
#[inline(never)]
fn add_array_head(
    text: &mut String,
    margin: Margin,
    kind: Kind,
    value: &Variant,
) -> Result<(), NoMemory> {
    let name = kind.name();
    match value.elements() {
        Some(items) => {
            let count = items.len();
            writeln!(text, " {name}[{count}]")?;
        }
        None => writeln!(text, " {name}[] null")?,
    }
    match value.dimensions() {
        Some(dimensions) => add_dimensions(text, margin, dimensions),
        None => Ok(()),
    }
}

/// Appends the lines of a Variant.
#[cycle(lines)]
pub(crate) fn add_variant(
    alloc: Global,
    text: &mut String,
    margin: Margin,
    value: &Variant,
) -> Result<(), NoMemory> {
    let Some(kind) = value.kind() else {
        return text.push_str(" null\n");
    };
    if let Some(one) = value.value() {
        add_kind(text, kind)?;
        return add_element(alloc, text, margin, one);
    }
    add_array_head(text, margin.deeper(), kind, value)?;
    match value.elements() {
        Some(items) => add_items(alloc, text, margin.deeper(), items),
        None => Ok(()),
    }
}

/// Appends the label of an element: its place in the array, from 0.
#[inline(never)]
fn add_place(text: &mut String, margin: Margin, place: usize) -> Result<(), NoMemory> {
    write!(text, "{margin}[{place}]")
}

/// Appends the lines of the elements of an array.
#[cycle(lines)]
fn add_items(
    alloc: Global,
    text: &mut String,
    margin: Margin,
    items: &[Element],
) -> Result<(), NoMemory> {
    for (place, item) in items.iter().enumerate() {
        add_place(text, margin, place)?;
        add_element(alloc, text, margin, item)?;
    }
    Ok(())
}

/// Appends the label of the value in a DataValue.
#[inline(never)]
fn add_value_label(text: &mut String, margin: Margin) -> Result<(), NoMemory> {
    write!(text, "{margin}value")
}

/// Appends the lines of a DataValue.
#[cycle(lines)]
pub(crate) fn add_data(
    alloc: Global,
    text: &mut String,
    margin: Margin,
    value: &DataValue,
) -> Result<(), NoMemory> {
    let inner = value.value();
    if inner.is_none() && has_no_stamps(value) {
        return text.push_str(" empty\n");
    }
    text.push_str("\n")?;
    let margin = margin.deeper();
    add_stamps(text, margin, value)?;
    match inner {
        Some(inner) => {
            add_value_label(text, margin)?;
            add_variant(alloc, text, margin, inner)
        }
        None => Ok(()),
    }
}
