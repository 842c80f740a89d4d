//! Lists of plain values: the kind is told once for the list, and a loop of its type reads it.

ghost use Rattle.std.specs.Prelude.{◌≡◌, ◌≤◌, length, map, IfOk};
ghost use Rattle.ua_value.specs.Format.{Gives, input_limit};
ghost use Rattle.ua_value.specs.Array.{items_at};
ghost use Rattle.ua_value.specs.Sequence.{made};
ghost use Rattle.ua_variant.specs.Kinds.{kind_number};
ghost use Rattle.ua_variant.specs.Reading.{leaves};
ghost use Rattle.ua_variant.specs.View.{kind_of, element};

use crate::extension::ExtensionObject;
use crate::leaf::Leaf;
use crate::variant::Element;
use std::alloc::Global;
use ua_kind::Kind;
use ua_value::{
    DateTime, DoubleBits, ExpandedNodeId, FloatBits, Guid, LocalizedText, NodeId, QualifiedName,
    ReadFault, StatusCode, UaBytes, UaString, XmlElement,
};

/// As many values of the type as the count says, one after another. Room for them is asked for once, and for no more than
/// the bytes that are there can hold.
#[inline(never)]
fn each_of<T: Leaf>(
    alloc: Global,
    count: u32,
    input: &[u8],
) -> Result<(Vec<Element>, &[u8]), ReadFault>
    requires { length input.now ≤ input_limit }
    ensures gives { Gives (λ x. (map element x.0.items, x.1.now)) result (items_at (made T.wrap T.format.grammar) count input.now) }
    ensures shorter { IfOk result (λ x. length x.1.now ≤ length input.now) }
    ensures counted { IfOk result (λ x. length x.0.items ≡ count) }
{
    let most = T::most_in(input.len());
    let mut items = Vec::with_capacity(alloc, most.min(count as usize))?;
    let mut rest = input;
    for _ in 0..count {
        let (value, after) = T::read_front(alloc, rest)?;
        // `push` could hand the element back, so it would copy it once more for each value.
        items.reserve(1)?;
        items.push_reserved(value.into_element());
        rest = after;
    }
    Ok((items, rest))
}

/// As many values of the plain kind as the count says, one after another. Its frame is apart from those of the
/// recursion, so that what is 100 deep is read on little stack.
#[inline(never)]
pub(crate) fn each_leaf(
    alloc: Global,
    kind: Kind,
    count: u32,
    input: &[u8],
) -> Result<(Vec<Element>, &[u8]), ReadFault>
    requires input { length input.now ≤ input_limit }
    requires kind { kind_number (kind_of kind) ≤ 22 }
    ensures gives { Gives (λ x. (map element x.0.items, x.1.now)) result (items_at (leaves (kind_of kind)) count input.now) }
    ensures shorter { IfOk result (λ x. length x.1.now ≤ length input.now) }
    ensures counted { IfOk result (λ x. length x.0.items ≡ count) }
{
    match kind {
        Kind::Boolean => each_of::<bool>(alloc, count, input),
        Kind::SByte => each_of::<i8>(alloc, count, input),
        Kind::Byte => each_of::<u8>(alloc, count, input),
        Kind::Int16 => each_of::<i16>(alloc, count, input),
        Kind::UInt16 => each_of::<u16>(alloc, count, input),
        Kind::Int32 => each_of::<i32>(alloc, count, input),
        Kind::UInt32 => each_of::<u32>(alloc, count, input),
        Kind::Int64 => each_of::<i64>(alloc, count, input),
        Kind::UInt64 => each_of::<u64>(alloc, count, input),
        Kind::Float => each_of::<FloatBits>(alloc, count, input),
        Kind::Double => each_of::<DoubleBits>(alloc, count, input),
        _ => each_text(alloc, kind, count, input),
    }
}

/// The same of a kind that is no number.
fn each_text(
    alloc: Global,
    kind: Kind,
    count: u32,
    input: &[u8],
) -> Result<(Vec<Element>, &[u8]), ReadFault>
    requires input { length input.now ≤ input_limit }
    requires kind { (12 ≤ kind_number (kind_of kind)) × (kind_number (kind_of kind) ≤ 22) }
    ensures gives { Gives (λ x. (map element x.0.items, x.1.now)) result (items_at (leaves (kind_of kind)) count input.now) }
    ensures shorter { IfOk result (λ x. length x.1.now ≤ length input.now) }
    ensures counted { IfOk result (λ x. length x.0.items ≡ count) }
{
    match kind {
        Kind::String => each_of::<UaString>(alloc, count, input),
        Kind::DateTime => each_of::<DateTime>(alloc, count, input),
        Kind::Guid => each_of::<Guid>(alloc, count, input),
        Kind::ByteString => each_of::<UaBytes>(alloc, count, input),
        Kind::XmlElement => each_of::<XmlElement>(alloc, count, input),
        _ => each_name(alloc, kind, count, input),
    }
}

/// The same of a kind that is neither a number nor a plain text.
fn each_name(
    alloc: Global,
    kind: Kind,
    count: u32,
    input: &[u8],
) -> Result<(Vec<Element>, &[u8]), ReadFault>
    requires input { length input.now ≤ input_limit }
    requires kind { (17 ≤ kind_number (kind_of kind)) × (kind_number (kind_of kind) ≤ 22) }
    ensures gives { Gives (λ x. (map element x.0.items, x.1.now)) result (items_at (leaves (kind_of kind)) count input.now) }
    ensures shorter { IfOk result (λ x. length x.1.now ≤ length input.now) }
    ensures counted { IfOk result (λ x. length x.0.items ≡ count) }
{
    match kind {
        Kind::NodeId => each_of::<NodeId>(alloc, count, input),
        Kind::ExpandedNodeId => each_of::<ExpandedNodeId>(alloc, count, input),
        Kind::StatusCode => each_of::<StatusCode>(alloc, count, input),
        Kind::QualifiedName => each_of::<QualifiedName>(alloc, count, input),
        Kind::LocalizedText => each_of::<LocalizedText>(alloc, count, input),
        _ => each_of::<ExtensionObject>(alloc, count, input),
    }
}
