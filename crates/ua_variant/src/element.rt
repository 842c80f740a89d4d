//! What stands in a Variant.

ghost use Rattle.std.specs.Prelude.{◌≡◌, ◌≤◌, length, IfOk};
ghost use Rattle.ua_value.specs.Format.{Gives, input_limit};
ghost use Rattle.ua_value.specs.Sequence.{made};
ghost use Rattle.ua_variant.specs.Kinds.{plain, kind_number};
ghost use Rattle.ua_variant.specs.Values.{kind, element_depth, deepest};
ghost use Rattle.ua_variant.specs.Spelling.{IsSoundElement};
ghost use Rattle.ua_variant.specs.Reading.{leaves};
ghost use Rattle.ua_variant.specs.View.{kind_of, element};

use crate::diagnostic::DiagnosticInfo;
use crate::extension::ExtensionObject;
use crate::leaf::Leaf;
use crate::variant::{DataValue, Element, Variant};
use std::alloc::Global;
use ua_kind::Kind;
use ua_value::{
    DateTime, DoubleBits, ExpandedNodeId, FloatBits, Guid, LocalizedText, NodeId, QualifiedName,
    ReadFault, StatusCode, UaBytes, UaString, Wire, XmlElement,
};

/// The last of the kinds that are truth values or numbers, by its number.
pub(crate) const LAST_NUMBER: u8 = 11;

impl Element {
    /// The kind of the value.
    pub fn kind(&self) -> Kind
        ensures { kind_of result ≡ kind (element self.now) }
    {
        match self {
            Element::Boolean(_) => Kind::Boolean,
            Element::SByte(_) => Kind::SByte,
            Element::Byte(_) => Kind::Byte,
            Element::Int16(_) => Kind::Int16,
            Element::UInt16(_) => Kind::UInt16,
            Element::Int32(_) => Kind::Int32,
            Element::UInt32(_) => Kind::UInt32,
            Element::Int64(_) => Kind::Int64,
            Element::UInt64(_) => Kind::UInt64,
            Element::Float(_) => Kind::Float,
            Element::Double(_) => Kind::Double,
            Element::String(_) => Kind::String,
            Element::DateTime(_) => Kind::DateTime,
            Element::Guid(_) => Kind::Guid,
            Element::ByteString(_) => Kind::ByteString,
            Element::XmlElement(_) => Kind::XmlElement,
            Element::NodeId(_) => Kind::NodeId,
            Element::ExpandedNodeId(_) => Kind::ExpandedNodeId,
            Element::StatusCode(_) => Kind::StatusCode,
            Element::QualifiedName(_) => Kind::QualifiedName,
            Element::LocalizedText(_) => Kind::LocalizedText,
            Element::ExtensionObject(_) => Kind::ExtensionObject,
            Element::DataValue(_) => Kind::DataValue,
            Element::Variant(_) => Kind::Variant,
            Element::DiagnosticInfo(_) => Kind::DiagnosticInfo,
        }
    }

    /// How deep the value is nested: 0 where it is no Variant, DataValue or DiagnosticInfo.
    pub fn depth(&self) -> u8
        ensures depth { result ≡ element_depth (element self.now) }
        ensures most { result ≤ deepest }
        ensures value { IsSoundElement (element self.now) }
    {
        match self {
            Element::Boolean(value) => flat(value),
            Element::SByte(value) => flat(value),
            Element::Byte(value) => flat(value),
            Element::Int16(value) => flat(value),
            Element::UInt16(value) => flat(value),
            Element::Int32(value) => flat(value),
            Element::UInt32(value) => flat(value),
            Element::Int64(value) => flat(value),
            Element::UInt64(value) => flat(value),
            Element::Float(value) => flat(value),
            Element::Double(value) => flat(value),
            Element::String(value) => flat(value),
            Element::DateTime(value) => flat(value),
            Element::Guid(value) => flat(value),
            Element::ByteString(value) => flat(value),
            Element::XmlElement(value) => flat(value),
            Element::NodeId(value) => flat(value),
            Element::ExpandedNodeId(value) => flat(value),
            Element::StatusCode(value) => flat(value),
            Element::QualifiedName(value) => flat(value),
            Element::LocalizedText(value) => flat(value),
            Element::ExtensionObject(value) => flat(value),
            Element::DataValue(value) => {
                let value: &DataValue = value;
                value.levels
            }
            Element::Variant(value) => {
                let value: &Variant = value;
                value.levels
            }
            Element::DiagnosticInfo(value) => value.depth(),
        }
    }
}

/// Promises that it is a value of its format. It does nothing.
#[inline(always)]
fn promise_value<T: Wire>(value: &T)
    ensures { T.format.IsValue value.now }
{
    let _len = value.len();
}

/// The depth of a plain value.
fn flat<T: Wire>(value: &T) -> u8
    ensures zero { result ≡ 0 }
    ensures value { T.format.IsValue value.now }
{
    promise_value(value);
    0
}

/// The value of the type at the front as an element, and what follows it.
#[inline(always)]
fn front_of<T: Leaf>(alloc: Global, input: &[u8]) -> Result<(Element, &[u8]), ReadFault>
    requires { length input.now ≤ input_limit }
    ensures gives { Gives (λ x. (element x.0, x.1.now)) result ((made T.wrap T.format.grammar).front input.now) }
    ensures shorter { IfOk result (λ x. length x.1.now ≤ length input.now) }
{
    let (value, rest) = T::read_front(alloc, input)?;
    Ok((value.into_element(), rest))
}

/// The value of a plain kind at the front, and what follows it; none of another kind. Its frame is apart from those of
/// the recursion, so that what is 100 deep is read on little stack.
#[inline(never)]
pub(crate) fn leaf_front(
    alloc: Global,
    kind: Kind,
    input: &[u8],
) -> Result<(Element, &[u8]), ReadFault>
    requires { length input.now ≤ input_limit }
    ensures gives { Gives (λ x. (element x.0, x.1.now)) result ((leaves (kind_of kind)).front input.now) }
    ensures shorter { IfOk result (λ x. length x.1.now ≤ length input.now) }
{
    match kind {
        Kind::Boolean => front_of::<bool>(alloc, input),
        Kind::SByte => front_of::<i8>(alloc, input),
        Kind::Byte => front_of::<u8>(alloc, input),
        Kind::Int16 => front_of::<i16>(alloc, input),
        Kind::UInt16 => front_of::<u16>(alloc, input),
        Kind::Int32 => front_of::<i32>(alloc, input),
        Kind::UInt32 => front_of::<u32>(alloc, input),
        Kind::Int64 => front_of::<i64>(alloc, input),
        Kind::UInt64 => front_of::<u64>(alloc, input),
        Kind::Float => front_of::<FloatBits>(alloc, input),
        Kind::Double => front_of::<DoubleBits>(alloc, input),
        _ => text_front(alloc, kind, input),
    }
}

/// The same of a kind that is no number.
fn text_front(alloc: Global, kind: Kind, input: &[u8]) -> Result<(Element, &[u8]), ReadFault>
    requires input { length input.now ≤ input_limit }
    requires kind { 12 ≤ kind_number (kind_of kind) }
    ensures gives { Gives (λ x. (element x.0, x.1.now)) result ((leaves (kind_of kind)).front input.now) }
    ensures shorter { IfOk result (λ x. length x.1.now ≤ length input.now) }
{
    match kind {
        Kind::String => front_of::<UaString>(alloc, input),
        Kind::DateTime => front_of::<DateTime>(alloc, input),
        Kind::Guid => front_of::<Guid>(alloc, input),
        Kind::ByteString => front_of::<UaBytes>(alloc, input),
        Kind::XmlElement => front_of::<XmlElement>(alloc, input),
        _ => name_front(alloc, kind, input),
    }
}

/// The same of a kind that is neither a number nor a plain text.
fn name_front(alloc: Global, kind: Kind, input: &[u8]) -> Result<(Element, &[u8]), ReadFault>
    requires input { length input.now ≤ input_limit }
    requires kind { 17 ≤ kind_number (kind_of kind) }
    ensures gives { Gives (λ x. (element x.0, x.1.now)) result ((leaves (kind_of kind)).front input.now) }
    ensures shorter { IfOk result (λ x. length x.1.now ≤ length input.now) }
{
    match kind {
        Kind::NodeId => front_of::<NodeId>(alloc, input),
        Kind::ExpandedNodeId => front_of::<ExpandedNodeId>(alloc, input),
        Kind::StatusCode => front_of::<StatusCode>(alloc, input),
        Kind::QualifiedName => front_of::<QualifiedName>(alloc, input),
        Kind::LocalizedText => front_of::<LocalizedText>(alloc, input),
        Kind::ExtensionObject => front_of::<ExtensionObject>(alloc, input),
        _ => Err(ReadFault::Refused),
    }
}
