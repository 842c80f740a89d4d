//! The command `value`: reads one value of a built-in type, and prints what it is.

ghost use Rattle.std.specs.Prelude.{◌≡◌, ◌≤◌, ◌++◌, ℕ, List, length, IfOk, IfErr, OnOk, Ok, Err};
ghost use Rattle.ua_value.specs.Format.{Reads, input_limit};
ghost use Rattle.ua_print.specs.Printed.{node_text};
ghost use Rattle.ua_command.specs.Printed.{value_lines, text_line, shape_of, two_lines, Prints, IsPrinted, PrintsOnto, RefusesOnto, PrintsJson, RefusesJson, PrintsIn, RefusesIn};
ghost use Rattle.ua_command.specs.Stop.{IsFileStop, IsQuiet};
ghost use Rattle.ua_kind.specs.declared.kind.Kind.TheVariants.{Guid as guid_type, NodeId as node_id_type};

use crate::stop::{Stop, print, print_bytes};
use std::alloc::{AllocError, Global};
use std::io::Write;
use ua_hex::encode_onto;
use ua_json::{add_refused_value, add_value};
use ua_lines::add_value_of;
use ua_print::add_node;
use ua_value::{
    DateTime, DoubleBits, ExpandedNodeId, FloatBits, Guid, LocalizedText, NoMemory, NodeId,
    QualifiedName, ReadFault, StatusCode, UaBytes, UaString, Wire, XmlElement,
};
use ua_variant::{DataValue, DiagnosticInfo, ExtensionObject, Kind, Variant};
use ua_words::Form;

/// The most bytes of one input, which no machine holds.
const MOST_BYTES: usize = 1 << 60;

/// A value that bytes begin with, how many of them spell it, and its canonical spelling.
#[derive(Drop)]
struct Found<T> {
    value: T,
    used: usize,
    canon: Vec<u8>,
}

/// Reads a value from the beginning of the bytes, and spells it again.
fn read_value<T: Wire>(alloc: Global, bytes: &[u8]) -> Result<Found<T>, ReadFault>
    requires { length bytes.now ≤ input_limit }
    ensures ok { IfOk result (λ x. Reads T.format bytes.now (Ok (x.value, x.used))) }
    ensures canon { IfOk result (λ x. x.canon.items ≡ T.format.canon x.value) }
    ensures err { IfErr result (λ e. Reads T.format bytes.now (Err e)) }
{
    let (value, used) = T::read(alloc, bytes)?;
    let mut canon = Vec::new(alloc);
    value.write(&mut canon)?;
    Ok(Found { value, used, canon })
}

/// How many bytes were used, and the canonical spelling.
fn lines(alloc: Global, used: usize, len: usize, canon: &[u8]) -> Result<Vec<u8>, NoMemory>
    ensures { IfOk result (λ lines. lines.items ≡ value_lines used len canon.now) }
{
    let mut lines = format!(in alloc; "used {used} of {len}\ncanon ")?.into_bytes();
    encode_onto(&mut lines, canon)?;
    lines.push(b'\n')?;
    Ok(lines)
}

/// Appends the third line, which is a text. After an error a beginning of it may stand there.
fn add_text_line(lines: &mut Vec<u8>, text: &str) -> Result<(), NoMemory>
    ensures { OnOk result (lines.new.items ≡ lines.old.items ++ text_line text.now) }
{
    lines.extend_from_slice(b"text ")?;
    lines.extend_from_slice(text.as_bytes())?;
    lines.extend_from_slice(b"\n")
}

/// The lines of a value of a type that has no third line.
fn plain<T: Wire>(alloc: Global, bytes: &[u8]) -> Result<Vec<u8>, ReadFault>
    requires { length bytes.now ≤ input_limit }
    ensures ok { IfOk result (λ lines. Prints (two_lines T.format) bytes.now lines.items) }
    ensures err { IfErr result (λ e. Reads T.format bytes.now (Err e)) }
{
    let found = read_value::<T>(alloc, bytes)?;
    let lines = lines(alloc, found.used, bytes.len(), found.canon.as_slice())?;
    Ok(lines)
}

fn guid(alloc: Global, bytes: &[u8]) -> Result<Vec<u8>, ReadFault>
    requires { length bytes.now ≤ input_limit }
    ensures ok { IfOk result (λ lines. Prints (shape_of guid_type) bytes.now lines.items) }
    ensures err { IfErr result (λ e. Reads (shape_of guid_type).format bytes.now (Err e)) }
{
    let found = read_value::<Guid>(alloc, bytes)?;
    let text = found.value.text(alloc)?;
    let mut lines = lines(alloc, found.used, bytes.len(), found.canon.as_slice())?;
    add_text_line(&mut lines, text.as_str())?;
    Ok(lines)
}

/// Appends the third line of a node id. After an error a beginning of it may stand there.
fn add_node_line(alloc: Global, lines: &mut Vec<u8>, node: &NodeId) -> Result<(), NoMemory>
    ensures { OnOk result (lines.new.items ≡ lines.old.items ++ text_line (node_text node.now)) }
{
    let mut text = String::new(alloc);
    add_node(&mut text, node)?;
    add_text_line(lines, text.as_str())
}

fn node_id(alloc: Global, bytes: &[u8]) -> Result<Vec<u8>, ReadFault>
    requires { length bytes.now ≤ input_limit }
    ensures ok { IfOk result (λ lines. Prints (shape_of node_id_type) bytes.now lines.items) }
    ensures err { IfErr result (λ e. Reads (shape_of node_id_type).format bytes.now (Err e)) }
{
    let found = read_value::<NodeId>(alloc, bytes)?;
    let mut lines = lines(alloc, found.used, bytes.len(), found.canon.as_slice())?;
    add_node_line(alloc, &mut lines, &found.value)?;
    Ok(lines)
}

/// The lines of a value of this type.
fn lines_of(alloc: Global, kind: Kind, bytes: &[u8]) -> Result<Vec<u8>, ReadFault>
    requires { length bytes.now ≤ input_limit }
    ensures ok { IfOk result (λ lines. Prints (shape_of kind) bytes.now lines.items) }
    ensures err { IfErr result (λ e. Reads (shape_of kind).format bytes.now (Err e)) }
{
    match kind {
        Kind::Boolean => plain::<bool>(alloc, bytes),
        Kind::SByte => plain::<i8>(alloc, bytes),
        Kind::Byte => plain::<u8>(alloc, bytes),
        Kind::Int16 => plain::<i16>(alloc, bytes),
        Kind::UInt16 => plain::<u16>(alloc, bytes),
        Kind::Int32 => plain::<i32>(alloc, bytes),
        Kind::UInt32 => plain::<u32>(alloc, bytes),
        Kind::Int64 => plain::<i64>(alloc, bytes),
        Kind::UInt64 => plain::<u64>(alloc, bytes),
        Kind::Float => plain::<FloatBits>(alloc, bytes),
        Kind::Double => plain::<DoubleBits>(alloc, bytes),
        Kind::String => plain::<UaString>(alloc, bytes),
        Kind::DateTime => plain::<DateTime>(alloc, bytes),
        Kind::Guid => guid(alloc, bytes),
        Kind::ByteString => plain::<UaBytes>(alloc, bytes),
        Kind::XmlElement => plain::<XmlElement>(alloc, bytes),
        Kind::NodeId => node_id(alloc, bytes),
        Kind::ExpandedNodeId => plain::<ExpandedNodeId>(alloc, bytes),
        Kind::StatusCode => plain::<StatusCode>(alloc, bytes),
        Kind::QualifiedName => plain::<QualifiedName>(alloc, bytes),
        Kind::LocalizedText => plain::<LocalizedText>(alloc, bytes),
        Kind::ExtensionObject => plain::<ExtensionObject>(alloc, bytes),
        Kind::DataValue => plain::<DataValue>(alloc, bytes),
        Kind::Variant => plain::<Variant>(alloc, bytes),
        Kind::DiagnosticInfo => plain::<DiagnosticInfo>(alloc, bytes),
    }
}

/// Appends the value itself to its lines.
fn add_value_itself(
    alloc: Global,
    kind: Kind,
    bytes: &[u8],
    lines: &mut Vec<u8>,
) -> Result<(), NoMemory>
    requires { length bytes.now ≤ input_limit }
    ensures { OnOk result ((more : List ℕ) × (lines.new.items ≡ lines.old.items ++ more)) }
{
    let mut more = String::new(alloc);
    if let Err(ReadFault::NoMemory) = add_value_of(alloc, &mut more, kind, bytes) {
        return Err(AllocError);
    }
    lines.extend_from_slice(more.as_bytes())
}

/// The lines of a value of this type, and the value itself behind them where all is asked for.
fn lines_and_value(
    alloc: Global,
    kind: Kind,
    bytes: &[u8],
    whole: bool,
) -> Result<Vec<u8>, ReadFault>
    requires { length bytes.now ≤ input_limit }
    ensures ok { IfOk result (λ text. IsPrinted whole (shape_of kind) bytes.now text.items) }
    ensures err { IfErr result (λ e. Reads (shape_of kind).format bytes.now (Err e)) }
{
    if !whole {
        return lines_of(alloc, kind, bytes);
    }
    let mut lines = lines_of(alloc, kind, bytes)?;
    add_value_itself(alloc, kind, bytes, &mut lines)?;
    Ok(lines)
}

/// Prints the lines of the value that the bytes begin with, with the value itself where all is asked for, or `refused`
/// where they begin with none, and gives the exit status: 0, or 1 for `refused`.
fn value_in_lines<O: Write>(
    alloc: Global,
    kind: Kind,
    bytes: &[u8],
    whole: bool,
    output: &mut O,
) -> Result<u8, Stop>
    requires { length bytes.now ≤ input_limit }
    ensures done { IfOk result (λ status. status ≡ 0 → PrintsOnto whole (shape_of kind) bytes.now (O.contents output.old) (O.contents output.new)) }
    ensures refused { IfOk result (λ status. status ≡ 1 → RefusesOnto (shape_of kind) bytes.now (O.contents output.old) (O.contents output.new)) }
    ensures status { IfOk result (λ status. status ≤ 1) }
    ensures err { IfErr result IsFileStop }
    ensures quiet { IfErr result (λ stop. IsQuiet stop (O.contents output.old) (O.contents output.new)) }
{
    match lines_and_value(alloc, kind, bytes, whole) {
        Ok(text) => {
            print_bytes(output, text.as_slice())?;
            Ok(0)
        }
        Err(ReadFault::Refused) => {
            print(output, "refused\n")?;
            Ok(1)
        }
        Err(ReadFault::NoMemory) => Err(Stop::NoMemory),
    }
}

/// Prints the value that the bytes begin with in JSON, or that they are refused.
fn value_in_json<O: Write>(
    alloc: Global,
    kind: Kind,
    bytes: &[u8],
    output: &mut O,
) -> Result<u8, Stop>
    requires { length bytes.now ≤ input_limit }
    ensures done { IfOk result (λ status. status ≡ 0 → PrintsJson (shape_of kind) bytes.now (O.contents output.old) (O.contents output.new)) }
    ensures refused { IfOk result (λ status. status ≡ 1 → RefusesJson (shape_of kind) bytes.now (O.contents output.old) (O.contents output.new)) }
    ensures status { IfOk result (λ status. status ≤ 1) }
    ensures err { IfErr result IsFileStop }
    ensures quiet { IfErr result (λ stop. IsQuiet stop (O.contents output.old) (O.contents output.new)) }
{
    let mut text = String::new(alloc);
    match add_value(alloc, &mut text, kind, bytes) {
        Ok(()) => {
            print(output, text.as_str())?;
            Ok(0)
        }
        Err(ReadFault::Refused) => {
            add_refused_value(&mut text, kind, bytes.len())?;
            print(output, text.as_str())?;
            Ok(1)
        }
        Err(ReadFault::NoMemory) => Err(Stop::NoMemory),
    }
}

/// Prints in this form the value that the bytes begin with, or that they begin with none, and gives the exit status: 0,
/// or 1 where they begin with none. Nothing is printed before all lines are made.
pub fn value<O: Write>(
    alloc: Global,
    kind: Kind,
    bytes: &[u8],
    form: Form,
    output: &mut O,
) -> Result<u8, Stop>
    ensures done { IfOk result (λ status. status ≡ 0 → PrintsIn form (shape_of kind) bytes.now (O.contents output.old) (O.contents output.new)) }
    ensures refused { IfOk result (λ status. status ≡ 1 → RefusesIn form (shape_of kind) bytes.now (O.contents output.old) (O.contents output.new)) }
    ensures status { IfOk result (λ status. status ≤ 1) }
    ensures err { IfErr result IsFileStop }
    ensures quiet { IfErr result (λ stop. IsQuiet stop (O.contents output.old) (O.contents output.new)) }
{
    if bytes.len() > MOST_BYTES {
        return Err(Stop::NoMemory);
    }
    match form {
        Form::Lines => value_in_lines(alloc, kind, bytes, false, output),
        Form::Whole => value_in_lines(alloc, kind, bytes, true, output),
        Form::Json => value_in_json(alloc, kind, bytes, output),
    }
}
