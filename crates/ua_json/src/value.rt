//! Values of the built-in types.

ghost use Rattle.std.specs.Prelude.{◌≤◌, length, ◌≡◌, OnOk, OnErr, string_bytes};
ghost use Rattle.ua_value.specs.Format.{input_limit};
ghost use Rattle.ua_json.specs.Lines.{AppendsLine};
ghost use Rattle.ua_json.specs.Nesting.{AddsMembers};
ghost use Rattle.ua_json.specs.Value.{Begins, BeginsKind};

use crate::line::Line;
use crate::put::Put;
use std::alloc::Global;
use ua_kind::Kind;
use ua_value::plumbing::let_go;
use ua_value::{
    DateTime, DoubleBits, ExpandedNodeId, FloatBits, Guid, LocalizedText, NoMemory, NodeId,
    QualifiedName, ReadFault, StatusCode, UaBytes, UaString, Wire, XmlElement,
};
use ua_variant::{DataValue, DiagnosticInfo, ExtensionObject, Variant};

/// How many bytes spell a value, and how many there were.
#[derive(Clone, Copy)]
struct Sizes {
    used: usize,
    size: usize,
}

/// The object of a value that was read, with its canonical spelling.
fn put_read<T: Put>(
    line: &mut Line,
    kind: Kind,
    sizes: Sizes,
    canon: &[u8],
    value: &T,
) -> Result<(), NoMemory>
    ensures { OnOk result (AddsMembers line.old.json.tokens line.new.json.tokens) }
{
    line.key("Type")?;
    line.text(kind.name())?;
    line.count("Used", sizes.used)?;
    line.count("Size", sizes.size)?;
    line.key("Canonical")?;
    line.hex(canon)?;
    line.field("Value", value)
}

/// Adds the line of a value that was read.
fn add_read<T: Wire + Put>(
    alloc: Global,
    text: &mut String,
    kind: Kind,
    sizes: Sizes,
    value: &T,
) -> Result<(), NoMemory>
    ensures line { OnOk result (AppendsLine (string_bytes text.old) (string_bytes text.new)) }
    ensures refused { OnErr result (string_bytes text.new ≡ string_bytes text.old) }
{
    let mut canon = Vec::new(alloc);
    value.write(&mut canon)?;
    let mut line = Line::new(alloc)?;
    let put = put_read(&mut line, kind, sizes, canon.as_slice(), value);
    line.add_to(text, put)
}

/// Adds the line of the value of this type that the bytes begin with.
fn add<T: Wire + Put>(
    alloc: Global,
    text: &mut String,
    kind: Kind,
    bytes: &[u8],
) -> Result<(), ReadFault>
    requires { length bytes.now ≤ input_limit }
    ensures begins { Begins T.format bytes.now result }
    ensures line { OnOk result (AppendsLine (string_bytes text.old) (string_bytes text.new)) }
    ensures refused { OnErr result (string_bytes text.new ≡ string_bytes text.old) }
{
    let (value, used) = T::read(alloc, bytes)?;
    let sizes = Sizes {
        used,
        size: bytes.len(),
    };
    let added = add_read(alloc, text, kind, sizes, &value);
    let_go(value);
    Ok(added?)
}

/// Appends the line of the value of a built-in type that the bytes begin with: the type, the number of bytes that spell
/// the value and of all bytes, the canonical spelling in hex, and the value (OPC 10000-6, 5.2.2).
///
/// # Errors
///
/// `Refused` exactly where no beginning of the bytes spells a value of the type; `NoMemory` where a growth was refused.
/// The text is then as it was.
pub fn add_value(
    alloc: Global,
    text: &mut String,
    kind: Kind,
    bytes: &[u8],
) -> Result<(), ReadFault>
    requires { length bytes.now ≤ input_limit }
    ensures begins { BeginsKind kind bytes.now result }
    ensures line { OnOk result (AppendsLine (string_bytes text.old) (string_bytes text.new)) }
    ensures refused { OnErr result (string_bytes text.new ≡ string_bytes text.old) }
{
    match kind {
        Kind::Boolean => add::<bool>(alloc, text, kind, bytes),
        Kind::SByte => add::<i8>(alloc, text, kind, bytes),
        Kind::Byte => add::<u8>(alloc, text, kind, bytes),
        Kind::Int16 => add::<i16>(alloc, text, kind, bytes),
        Kind::UInt16 => add::<u16>(alloc, text, kind, bytes),
        Kind::Int32 => add::<i32>(alloc, text, kind, bytes),
        Kind::UInt32 => add::<u32>(alloc, text, kind, bytes),
        Kind::Int64 => add::<i64>(alloc, text, kind, bytes),
        Kind::UInt64 => add::<u64>(alloc, text, kind, bytes),
        Kind::Float => add::<FloatBits>(alloc, text, kind, bytes),
        Kind::Double => add::<DoubleBits>(alloc, text, kind, bytes),
        Kind::String => add::<UaString>(alloc, text, kind, bytes),
        Kind::DateTime => add::<DateTime>(alloc, text, kind, bytes),
        Kind::Guid => add::<Guid>(alloc, text, kind, bytes),
        Kind::ByteString => add::<UaBytes>(alloc, text, kind, bytes),
        Kind::XmlElement => add::<XmlElement>(alloc, text, kind, bytes),
        Kind::NodeId => add::<NodeId>(alloc, text, kind, bytes),
        Kind::ExpandedNodeId => add::<ExpandedNodeId>(alloc, text, kind, bytes),
        Kind::StatusCode => add::<StatusCode>(alloc, text, kind, bytes),
        Kind::QualifiedName => add::<QualifiedName>(alloc, text, kind, bytes),
        Kind::LocalizedText => add::<LocalizedText>(alloc, text, kind, bytes),
        Kind::ExtensionObject => add::<ExtensionObject>(alloc, text, kind, bytes),
        Kind::DataValue => add::<DataValue>(alloc, text, kind, bytes),
        Kind::Variant => add::<Variant>(alloc, text, kind, bytes),
        Kind::DiagnosticInfo => add::<DiagnosticInfo>(alloc, text, kind, bytes),
    }
}

/// The object of bytes that were refused.
fn put_refused(line: &mut Line, kind: Kind, size: usize) -> Result<(), NoMemory>
    ensures { OnOk result (AddsMembers line.old.json.tokens line.new.json.tokens) }
{
    line.key("Type")?;
    line.text(kind.name())?;
    line.count("Size", size)?;
    line.field("Refused", &true)
}

/// Appends the line of so many bytes that begin with no value of a built-in type.
///
/// # Errors
///
/// `NoMemory` where a growth was refused; the text is then as it was.
pub fn add_refused_value(text: &mut String, kind: Kind, size: usize) -> Result<(), NoMemory>
    ensures line { OnOk result (AppendsLine (string_bytes text.old) (string_bytes text.new)) }
    ensures refused { OnErr result (string_bytes text.new ≡ string_bytes text.old) }
{
    let mut line = Line::new(*text.allocator())?;
    let put = put_refused(&mut line, kind, size);
    line.add_to(text, put)
}
