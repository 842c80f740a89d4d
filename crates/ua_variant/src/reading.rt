//! Reading variants from the front of bytes, to a depth.

ghost use Rattle.std.specs.Prelude.{◌≡◌, ◌≤◌, ◌<◌, ◌^◌, suc, length, map, true, Err, IfOk};
ghost use Rattle.ua_value.specs.Format.{Gives, input_limit};
ghost use Rattle.ua_value.specs.Number.{unsigned};
ghost use Rattle.ua_value.specs.Array.{items_at, CountsMore};
ghost use Rattle.ua_value.specs.Localized.{has};
ghost use Rattle.std.specs.Int.{w32};
ghost use Rattle.ua_value.specs.Sequence.{made};
ghost use Rattle.ua_variant.specs.Kinds.{variant_kind, info_kind, kind_number};
ghost use Rattle.ua_variant.specs.Values.{deepest, count_of};
ghost use Rattle.ua_variant.specs.Chains.{list};
ghost use Rattle.ua_variant.specs.Reading.{one_of, leaves, singles, arrays, behind_head, within, elements_within, VariantCountsMore};
ghost use Rattle.ua_variant.specs.View.{kind_of, element, items_in, body_of};

pub(crate) mod data;

use crate::diagnostic::DiagnosticInfo;
use crate::element::leaf_front;
use crate::leaves::each_leaf;
use crate::reading::data::{data_element, each_data};
use crate::shape::shape_front;
use crate::variant::{Body, Element, Elements, Variant};
use std::alloc::Global;
use ua_kind::{DEEPEST, Kind};
use ua_value::ReadFault;
use ua_value::plumbing::{LONGEST, front_u32};

/// Room for so many elements that hold others is made at once in a list inside a list. More is made as they come: it may
/// say a count that is never met, and so may each list around it.
const FEW: u32 = 4;

/// The Variant at the front that is at most so deep, and what follows it.
#[cycle(read)]
pub(crate) fn variant_within(
    alloc: Global,
    input: &[u8],
    allowance: u8,
) -> Result<(Variant, &[u8]), ReadFault>
    requires short { length input.now ≤ input_limit }
    requires allowed { allowance ≤ deepest }
    ensures gives { Gives (λ x. (x.0, x.1.now)) result ((within allowance).front input.now) }
    ensures shorter { IfOk result (λ x. length x.1.now ≤ length input.now) }
    ensures counted { VariantCountsMore input.now → result ≡ Err ReadFault.Refused }
{
    if allowance == 0 {
        return Err(ReadFault::Refused);
    }
    let [head, rest @ ..] = input else {
        return Err(ReadFault::Refused);
    };
    let head = *head;
    if head & 0x80 == 0 && head & 0x40 == 0 {
        if let Some(kind) = Kind::named(head & 0x3f) {
            if kind.is_plain() {
                return plain_variant(alloc, kind, rest);
            }
        }
    }
    let (body, rest) = body_behind(alloc, head, rest, allowance - 1)?;
    Ok((Variant::of(body), rest))
}

/// A Variant of a single plain value, behind its first byte: a short way for what most are.
#[inline(never)]
fn plain_variant(alloc: Global, kind: Kind, input: &[u8]) -> Result<(Variant, &[u8]), ReadFault>
    requires short { length input.now ≤ input_limit }
    requires kind { kind_number (kind_of kind) ≤ 22 }
    ensures gives { Gives (λ x. (x.0, x.1.now)) result ((made one_of (leaves (kind_of kind))).front input.now) }
    ensures shorter { IfOk result (λ x. length x.1.now ≤ length input.now) }
{
    let (one, rest) = leaf_front(alloc, kind, input)?;
    let levels = one.depth() + 1;
    let body = Body::One(one);
    Ok((Variant { levels, body }, rest))
}

/// What follows the first byte of a Variant whose elements are at most so deep.
#[cycle(read)]
fn body_behind(
    alloc: Global,
    head: u8,
    input: &[u8],
    allowance: u8,
) -> Result<(Body, &[u8]), ReadFault>
    requires short { length input.now ≤ input_limit }
    requires allowed { allowance < deepest }
    ensures gives { Gives (λ x. (body_of x.0, x.1.now)) result ((behind_head (elements_within allowance) head).front input.now) }
    ensures shorter { IfOk result (λ x. length x.1.now ≤ length input.now) }
    ensures counted { (has head 0x80 ≡ true) × CountsMore ((unsigned w32).grammar.front input.now) → result ≡ Err ReadFault.Refused }
{
    if head == 0 {
        return Ok((Body::Null, input));
    }
    let Some(kind) = Kind::named(head & 0x3f) else {
        return Err(ReadFault::Refused);
    };
    let flagged = head & 0x40 != 0;
    if head & 0x80 != 0 {
        return array_within(alloc, kind, flagged, input, allowance);
    }
    if flagged {
        return Err(ReadFault::Refused);
    }
    single_within(alloc, kind, input, allowance)
}

/// A single value.
#[cycle(read)]
fn single_within(
    alloc: Global,
    kind: Kind,
    input: &[u8],
    allowance: u8,
) -> Result<(Body, &[u8]), ReadFault>
    requires short { length input.now ≤ input_limit }
    requires allowed { allowance < deepest }
    ensures gives { Gives (λ x. (body_of x.0, x.1.now)) result ((singles (elements_within allowance) (kind_of kind)).front input.now) }
    ensures shorter { IfOk result (λ x. length x.1.now ≤ length input.now) }
{
    if kind.is_variant() {
        return Err(ReadFault::Refused);
    }
    let (one, rest) = element_within(alloc, kind, input, allowance)?;
    Ok((Body::One(one), rest))
}

/// An array and its dimensions.
#[cycle(read)]
fn array_within(
    alloc: Global,
    kind: Kind,
    flagged: bool,
    input: &[u8],
    allowance: u8,
) -> Result<(Body, &[u8]), ReadFault>
    requires short { length input.now ≤ input_limit }
    requires allowed { allowance < deepest }
    ensures gives { Gives (λ x. (body_of x.0, x.1.now)) result ((arrays (elements_within allowance) (kind_of kind) flagged).front input.now) }
    ensures shorter { IfOk result (λ x. length x.1.now ≤ length input.now) }
    ensures counted { CountsMore ((unsigned w32).grammar.front input.now) → result ≡ Err ReadFault.Refused }
{
    let (elements, rest) = list_within(alloc, kind, input, allowance)?;
    let count = count_in(&elements.list);
    let (lengths, rest) = shape_front(alloc, flagged, count, rest)?;
    Ok((Body::Array(kind, elements, lengths), rest))
}

/// How many elements there are; none where the array is null.
pub(crate) fn count_in(items: &Option<Vec<Element>>) -> usize
    ensures { result ≡ count_of (items_in items.now) }
{
    match items {
        None => 0,
        Some(items) => items.len(),
    }
}

/// A count and as many elements, or null.
#[cycle(read)]
fn list_within(
    alloc: Global,
    kind: Kind,
    input: &[u8],
    allowance: u8,
) -> Result<(Elements, &[u8]), ReadFault>
    requires short { length input.now ≤ input_limit }
    requires allowed { allowance < deepest }
    ensures gives { Gives (λ x. (items_in x.0.list, x.1.now)) result ((list (elements_within allowance (kind_of kind))).front input.now) }
    ensures shorter { IfOk result (λ x. length x.1.now ≤ length input.now) }
    ensures counted { CountsMore ((unsigned w32).grammar.front input.now) → result ≡ Err ReadFault.Refused }
    ensures few { IfOk result (λ x. count_of (items_in x.0.list) < 2 ^ 31) }
{
    let Some((count, rest)) = front_u32(input) else {
        return Err(ReadFault::Refused);
    };
    if count == u32::MAX {
        return Ok((Elements { list: None }, rest));
    }
    if count > LONGEST {
        return Err(ReadFault::Refused);
    }
    if rest.len() < count as usize {
        return Err(ReadFault::Refused);
    }
    let (items, rest) = each_within(alloc, kind, count, rest, allowance)?;
    let elements = Elements { list: Some(items) };
    Ok((elements, rest))
}

/// The list stands in a Variant that is read by itself, and in no other value. No result rests on it.
#[inline(always)]
fn is_outermost(allowance: u8) -> bool
    requires { allowance < deepest }
    ensures { result ≡ true → suc allowance ≡ deepest }
{
    allowance + 1 == DEEPEST
}

/// For how many of so many elements that hold others, and are at most so deep, room is made at once.
fn room_for(count: u32, allowance: u8) -> usize
    requires { allowance < deepest }
    ensures count { result ≤ count }
    ensures inner { suc allowance < deepest → result ≤ 4 }
{
    let room = if is_outermost(allowance) {
        count
    } else {
        count.min(FEW)
    };
    room as usize
}

/// As many elements as the count says, one after another.
#[cycle(read)]
#[tactic(auto, using(crate::proofs::PlainSteps::plain_items))]
fn each_within(
    alloc: Global,
    kind: Kind,
    count: u32,
    input: &[u8],
    allowance: u8,
) -> Result<(Vec<Element>, &[u8]), ReadFault>
    requires short { length input.now ≤ input_limit }
    requires allowed { allowance < deepest }
    ensures gives { Gives (λ x. (map element x.0.items, x.1.now)) result (items_at (elements_within allowance (kind_of kind)) count input.now) }
    ensures shorter { IfOk result (λ x. length x.1.now ≤ length input.now) }
    ensures counted { IfOk result (λ x. length x.0.items ≡ count) }
{
    if kind.is_plain() {
        return each_leaf(alloc, kind, count, input);
    }
    if let Kind::DataValue = kind {
        if is_outermost(allowance) {
            return each_data(alloc, count, input, allowance);
        }
    }
    let mut items = Vec::with_capacity(alloc, room_for(count, allowance))?;
    let mut rest = input;
    for _ in 0..count {
        // `push` could hand the element back, so it would copy it once more for each element.
        items.reserve(1)?;
        let (item, after) = element_within(alloc, kind, rest, allowance)?;
        items.push_reserved(item);
        rest = after;
    }
    Ok((items, rest))
}

/// A value of the kind that is at most so deep.
#[cycle(read)]
fn element_within(
    alloc: Global,
    kind: Kind,
    input: &[u8],
    allowance: u8,
) -> Result<(Element, &[u8]), ReadFault>
    requires short { length input.now ≤ input_limit }
    requires allowed { allowance < deepest }
    ensures gives { Gives (λ x. (element x.0, x.1.now)) result ((elements_within allowance (kind_of kind)).front input.now) }
    ensures shorter { IfOk result (λ x. length x.1.now ≤ length input.now) }
{
    match kind {
        Kind::Variant => variant_element(alloc, input, allowance),
        Kind::DataValue => data_element(alloc, input, allowance),
        Kind::DiagnosticInfo => info_element(alloc, input, allowance),
        _ => leaf_front(alloc, kind, input),
    }
}

/// A Variant as an element. It stands by itself, as `info_element` and `data_element` do, so that no element fills the room
/// for another kind with zeros.
#[cycle(read)]
#[inline(never)]
fn variant_element(
    alloc: Global,
    input: &[u8],
    allowance: u8,
) -> Result<(Element, &[u8]), ReadFault>
    requires short { length input.now ≤ input_limit }
    requires allowed { allowance < deepest }
    ensures gives { Gives (λ x. (element x.0, x.1.now)) result ((elements_within allowance variant_kind).front input.now) }
    ensures shorter { IfOk result (λ x. length x.1.now ≤ length input.now) }
{
    let (value, rest) = variant_within(alloc, input, allowance)?;
    Ok((Element::Variant(Box::new(alloc, value)?), rest))
}

/// A DiagnosticInfo as an element.
#[inline(never)]
fn info_element(alloc: Global, input: &[u8], allowance: u8) -> Result<(Element, &[u8]), ReadFault>
    requires short { length input.now ≤ input_limit }
    requires allowed { allowance < deepest }
    ensures gives { Gives (λ x. (element x.0, x.1.now)) result ((elements_within allowance info_kind).front input.now) }
    ensures shorter { IfOk result (λ x. length x.1.now ≤ length input.now) }
{
    let (value, rest) = DiagnosticInfo::front_within(alloc, input, allowance)?;
    Ok((Element::DiagnosticInfo(value), rest))
}
