//! A value of a built-in type that bytes begin with.

ghost use Rattle.std.specs.Prelude.{◌≡◌, ◌≤◌, length, string_bytes, Err};
ghost use Rattle.ua_value.specs.Format.{input_limit};

use crate::margin::Margin;
use crate::nested::{add_data, add_element, add_variant};
use std::alloc::Global;
use ua_value::plumbing::let_go;
use ua_value::{
    DateTime, DoubleBits, ExpandedNodeId, FloatBits, Guid, LocalizedText, NoMemory, NodeId,
    QualifiedName, ReadFault, StatusCode, UaBytes, UaString, Wire, XmlElement,
};
use ua_variant::{DataValue, DiagnosticInfo, Element, ExtensionObject, Kind, Variant};

fn add_whole(alloc: Global, text: &mut String, item: &Element) -> Result<(), NoMemory> {
    text.push_str("value")?;
    add_element(alloc, text, Margin::new(0), item)
}

/// Appends the lines of a value that is told as an element.
fn plain<T: Wire + Into<Element>>(
    alloc: Global,
    text: &mut String,
    bytes: &[u8],
) -> Result<(), ReadFault>
    requires { length bytes.now ≤ input_limit }
    ensures { result ≡ Err ReadFault.Refused → string_bytes text.new ≡ string_bytes text.old }
{
    let (value, _) = T::read(alloc, bytes)?;
    let item: Element = value.into();
    let done = add_whole(alloc, text, &item);
    let_go(item);
    Ok(done?)
}

fn data_value(alloc: Global, text: &mut String, bytes: &[u8]) -> Result<(), ReadFault>
    requires { length bytes.now ≤ input_limit }
    ensures { result ≡ Err ReadFault.Refused → string_bytes text.new ≡ string_bytes text.old }
{
    let (value, _) = DataValue::read(alloc, bytes)?;
    let done = add_whole_data(alloc, text, &value);
    let_go(value);
    Ok(done?)
}

fn add_whole_data(alloc: Global, text: &mut String, value: &DataValue) -> Result<(), NoMemory> {
    text.push_str("value")?;
    add_data(alloc, text, Margin::new(0), value)
}

fn variant(alloc: Global, text: &mut String, bytes: &[u8]) -> Result<(), ReadFault>
    requires { length bytes.now ≤ input_limit }
    ensures { result ≡ Err ReadFault.Refused → string_bytes text.new ≡ string_bytes text.old }
{
    let (value, _) = Variant::read(alloc, bytes)?;
    let done = add_whole_variant(alloc, text, &value);
    let_go(value);
    Ok(done?)
}

fn add_whole_variant(alloc: Global, text: &mut String, value: &Variant) -> Result<(), NoMemory> {
    text.push_str("value")?;
    add_variant(alloc, text, Margin::new(0), value)
}

/// Reads the value of this type that the bytes begin with, and appends its lines: `value` and what it is, and under it a
/// line for each value in it. What follows the value in the bytes is passed over.
///
/// # Errors
///
/// `Refused` where no beginning of the bytes spells a value of the type; the text is then unchanged. `NoMemory` where a
/// growth was refused; a beginning of the lines may stand there then.
pub fn add_value_of(
    alloc: Global,
    text: &mut String,
    kind: Kind,
    bytes: &[u8],
) -> Result<(), ReadFault>
    requires { length bytes.now ≤ input_limit }
    ensures { result ≡ Err ReadFault.Refused → string_bytes text.new ≡ string_bytes text.old }
{
    match kind {
        Kind::Boolean => plain::<bool>(alloc, text, bytes),
        Kind::SByte => plain::<i8>(alloc, text, bytes),
        Kind::Byte => plain::<u8>(alloc, text, bytes),
        Kind::Int16 => plain::<i16>(alloc, text, bytes),
        Kind::UInt16 => plain::<u16>(alloc, text, bytes),
        Kind::Int32 => plain::<i32>(alloc, text, bytes),
        Kind::UInt32 => plain::<u32>(alloc, text, bytes),
        Kind::Int64 => plain::<i64>(alloc, text, bytes),
        Kind::UInt64 => plain::<u64>(alloc, text, bytes),
        Kind::Float => plain::<FloatBits>(alloc, text, bytes),
        Kind::Double => plain::<DoubleBits>(alloc, text, bytes),
        Kind::String => plain::<UaString>(alloc, text, bytes),
        Kind::DateTime => plain::<DateTime>(alloc, text, bytes),
        Kind::Guid => plain::<Guid>(alloc, text, bytes),
        Kind::ByteString => plain::<UaBytes>(alloc, text, bytes),
        Kind::XmlElement => plain::<XmlElement>(alloc, text, bytes),
        Kind::NodeId => plain::<NodeId>(alloc, text, bytes),
        Kind::ExpandedNodeId => plain::<ExpandedNodeId>(alloc, text, bytes),
        Kind::StatusCode => plain::<StatusCode>(alloc, text, bytes),
        Kind::QualifiedName => plain::<QualifiedName>(alloc, text, bytes),
        Kind::LocalizedText => plain::<LocalizedText>(alloc, text, bytes),
        Kind::ExtensionObject => plain::<ExtensionObject>(alloc, text, bytes),
        Kind::DataValue => data_value(alloc, text, bytes),
        Kind::Variant => variant(alloc, text, bytes),
        Kind::DiagnosticInfo => plain::<DiagnosticInfo>(alloc, text, bytes),
    }
}
