//! Variants, what stands in them, and data values.

ghost use Rattle.ua_variant.specs.Making.{HoldsNone};
ghost use Rattle.ua_variant.specs.View.{element};
ghost use Rattle.std.specs.Prelude.{OnOk};
ghost use Rattle.ua_json.specs.Nesting.{AddsValue, AddsMembers};

use crate::line::Line;
use crate::put::Put;
use crate::text::put_items;
use ua_value::NoMemory;
use ua_variant::{DataValue, Element, Variant};

/// `null`, or the kind with the value or the elements and the dimensions that there are.
#[cycle(put)]
fn put_variant(line: &mut Line, value: &Variant) -> Result<(), NoMemory>
    ensures { OnOk result (AddsValue line.old.json.tokens line.new.json.tokens) }
{
    let Some(kind) = value.kind() else {
        return line.null();
    };
    line.begin_object()?;
    line.key("Type")?;
    line.text(kind.name())?;
    line.key("Body")?;
    put_body(line, value)?;
    put_dimensions(line, value)?;
    line.end_object()
}

/// The value, the elements, or `null` for an array that is null.
#[cycle(put)]
fn put_body(line: &mut Line, value: &Variant) -> Result<(), NoMemory>
    ensures { OnOk result (AddsValue line.old.json.tokens line.new.json.tokens) }
{
    match value.value() {
        Some(one) => put_element(line, one),
        None => match value.elements() {
            Some(elements) => put_elements(line, elements),
            None => line.null(),
        },
    }
}

fn put_dimensions(line: &mut Line, value: &Variant) -> Result<(), NoMemory>
    ensures { OnOk result (AddsMembers line.old.json.tokens line.new.json.tokens) }
{
    match value.dimensions() {
        None => Ok(()),
        Some(dimensions) => {
            line.key("Dimensions")?;
            put_items(line, dimensions)
        }
    }
}

#[cycle(put)]
fn put_elements(line: &mut Line, elements: &[Element]) -> Result<(), NoMemory>
    ensures { OnOk result (AddsValue line.old.json.tokens line.new.json.tokens) }
{
    line.begin_array()?;
    for item in elements {
        put_element(line, item)?;
    }
    line.end_array()
}

#[cycle(put)]
fn put_element(line: &mut Line, item: &Element) -> Result<(), NoMemory>
    ensures { OnOk result (AddsValue line.old.json.tokens line.new.json.tokens) }
{
    match item {
        Element::DataValue(value) => put_data(line, value),
        Element::Variant(value) => put_variant(line, value),
        _ => put_plain(line, item),
    }
}

/// A value that holds no Variant. Its frame is apart from those of the recursion, so that what is 100 deep is written on
/// little stack.
#[inline(never)]
fn put_plain(line: &mut Line, item: &Element) -> Result<(), NoMemory>
    requires { HoldsNone (element item.now) }
    ensures { OnOk result (AddsValue line.old.json.tokens line.new.json.tokens) }
{
    match item {
        Element::Boolean(value) => value.put(line),
        Element::SByte(value) => value.put(line),
        Element::Byte(value) => value.put(line),
        Element::Int16(value) => value.put(line),
        Element::UInt16(value) => value.put(line),
        Element::Int32(value) => value.put(line),
        Element::UInt32(value) => value.put(line),
        Element::Int64(value) => value.put(line),
        Element::UInt64(value) => value.put(line),
        Element::Float(value) => value.put(line),
        Element::Double(value) => value.put(line),
        Element::String(value) => value.put(line),
        Element::DateTime(value) => value.put(line),
        Element::Guid(value) => value.put(line),
        Element::ByteString(value) => value.put(line),
        Element::XmlElement(value) => value.put(line),
        Element::NodeId(value) => value.put(line),
        Element::ExpandedNodeId(value) => value.put(line),
        Element::StatusCode(value) => value.put(line),
        Element::QualifiedName(value) => value.put(line),
        Element::LocalizedText(value) => value.put(line),
        Element::ExtensionObject(value) => value.put(line),
        Element::DiagnosticInfo(value) => value.put(line),
        Element::DataValue(_) => unreachable!(),
        Element::Variant(_) => unreachable!(),
    }
}

/// What there is of a value, its status and its moments.
#[cycle(put)]
fn put_data(line: &mut Line, value: &DataValue) -> Result<(), NoMemory>
    ensures { OnOk result (AddsValue line.old.json.tokens line.new.json.tokens) }
{
    line.begin_object()?;
    if let Some(inner) = value.value() {
        line.key("Value")?;
        put_variant(line, inner)?;
    }
    put_stamps(line, value)?;
    line.end_object()
}

/// What there is beside the value.
#[inline(never)]
fn put_stamps(line: &mut Line, value: &DataValue) -> Result<(), NoMemory>
    ensures { OnOk result (AddsMembers line.old.json.tokens line.new.json.tokens) }
{
    line.part("Status", &value.status())?;
    line.part("SourceTimestamp", &value.source_timestamp())?;
    line.part("SourcePicoseconds", &value.source_picoseconds())?;
    line.part("ServerTimestamp", &value.server_timestamp())?;
    line.part("ServerPicoseconds", &value.server_picoseconds())
}

impl Put for Variant {
    fn put(&self, line: &mut Line) -> Result<(), NoMemory> {
        put_variant(line, self)
    }
}

impl Put for DataValue {
    fn put(&self, line: &mut Line) -> Result<(), NoMemory> {
        put_data(line, self)
    }
}
