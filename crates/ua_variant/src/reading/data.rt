//! Reading DataValues from the front of bytes, to a depth. Most have a single number or truth value: a short way reads these,
//! by the type of the value.

ghost use Rattle.std.specs.Prelude.{◌≡◌, ◌≤◌, ◌<◌, length, map, true, false, Err, IfOk, IfNone, IfSome};
ghost use Rattle.ua_value.specs.Array.{items_at};
ghost use Rattle.ua_value.specs.Format.{Gives, input_limit};
ghost use Rattle.ua_value.specs.Localized.{has};
ghost use Rattle.ua_value.specs.Sequence.{made};
ghost use Rattle.ua_variant.specs.Kinds.{data_kind, kind_number};
ghost use Rattle.ua_variant.specs.Reading.{one_of, leaves, behind_mask, within, data_within, elements_within, IsNumberAhead, VariantCountsMore, DataCountsMore};
ghost use Rattle.ua_variant.specs.Stamps.{stamps};
ghost use Rattle.ua_variant.specs.Values as values;
ghost use Rattle.ua_variant.specs.Values.{deepest, data_value, without};
ghost use Rattle.ua_variant.specs.View.{kind_of, element};

use crate::element::LAST_NUMBER;
use crate::emptying::drop_aside;
use crate::leaf::Leaf;
use crate::reading::variant_within;
use crate::stamps::Stamps;
use crate::variant::{Body, DataValue, Element, Variant};
use std::alloc::Global;
use ua_kind::Kind;
use ua_value::{DoubleBits, FloatBits, ReadFault};

/// Whether a DataValue with this mask has a value; none where a bit of it flags nothing. OPC 10000-6, 5.2.2.17.
#[inline(always)]
fn has_value(mask: u8) -> Option<bool>
    ensures refused { IfNone result (has mask 0xc0 ≡ true) }
    ensures value { IfSome result (λ some. (has mask 0xc0 ≡ false) × (has mask 0x01 ≡ some)) }
{
    if mask & 0xc0 != 0 {
        None
    } else {
        Some(mask & 0x01 != 0)
    }
}

/// The mask and the kind of the DataValue at the front that may be so deep, where its value is a single number or truth
/// value, and what follows the two. None of any other DataValue, and where none is at the front.
#[inline(always)]
fn number_ahead(input: &[u8], allowance: u8) -> Option<(u8, Kind, &[u8])>
    ensures ahead { IfSome result (λ p. IsNumberAhead allowance (kind_of p.1) p.0 p.2.now input.now) }
    ensures kind { IfSome result (λ p. kind_number (kind_of p.1) ≤ 11) }
    ensures mask { IfSome result (λ p. (has p.0 0xc0 ≡ false) × (has p.0 0x01 ≡ true)) }
    ensures shorter { IfSome result (λ p. length p.2.now < length input.now) }
    ensures single { IfSome result (λ _. DataCountsMore input.now → ⊥) }
{
    if allowance < 2 {
        return None;
    }
    let [mask, head, rest @ ..] = input else {
        return None;
    };
    let mask = *mask;
    let head = *head;
    let Some(true) = has_value(mask) else {
        return None;
    };
    if head & 0x80 != 0 || head & 0x40 != 0 {
        return None;
    }
    let kind = Kind::named(head & 0x3f)?;
    if kind.number() <= LAST_NUMBER {
        Some((mask, kind, rest))
    } else {
        None
    }
}

/// What follows the mask and the kind of a DataValue whose value is a single plain one. All of it is made in one frame, by
/// the type of the value, and nothing is handed on from one function to the next.
#[inline(always)]
fn data_of<T: Leaf>(alloc: Global, mask: u8, input: &[u8]) -> Result<(DataValue, &[u8]), ReadFault>
    requires short { length input.now < input_limit }
    requires mask { (has mask 0xc0 ≡ false) × (has mask 0x01 ≡ true) }
    ensures gives { Gives (λ x. (x.0, x.1.now)) result ((behind_mask (made one_of (made T.wrap T.format.grammar)) mask).front input.now) }
    ensures shorter { IfOk result (λ x. length x.1.now ≤ length input.now) }
{
    let (value, rest) = T::read_front(alloc, input)?;
    match Stamps::read_in_line(alloc, mask, rest) {
        Ok((stamps, rest)) => {
            stamps.promise_values();
            let one = value.into_element();
            let inside = one.depth();
            let value = Variant {
                levels: inside + 1,
                body: Body::One(one),
            };
            Ok((DataValue::of(Some(value), stamps), rest))
        }
        Err(fault) => {
            drop_aside(value);
            Err(fault)
        }
    }
}

/// What a DataValue is read into: itself, or a box.
trait Holder: Sized + Drop {
    // the DataValue that it is
    ghost shown: { Self → values.DataValue };

    /// What follows the mask and the kind of a DataValue whose value is a single plain one, by the type of the value, in a
    /// frame of its own.
    fn read<T: Leaf>(alloc: Global, mask: u8, input: &[u8]) -> Result<(Self, &[u8]), ReadFault>
        requires short { length input.now < input_limit }
        requires mask { (has mask 0xc0 ≡ false) × (has mask 0x01 ≡ true) }
        ensures gives { Gives (λ x. (shown x.0, x.1.now)) result ((behind_mask (made one_of (made T.wrap T.format.grammar)) mask).front input.now) }
        ensures shorter { IfOk result (λ x. length x.1.now ≤ length input.now) };
}

impl Holder for DataValue {
    ghost shown = { λ v. v };

    #[inline(never)]
    fn read<T: Leaf>(
        alloc: Global,
        mask: u8,
        input: &[u8],
    ) -> Result<(DataValue, &[u8]), ReadFault> {
        data_of::<T>(alloc, mask, input)
    }
}

impl Holder for Box<DataValue> {
    ghost shown = { λ b. b.value };

    #[inline(never)]
    fn read<T: Leaf>(
        alloc: Global,
        mask: u8,
        input: &[u8],
    ) -> Result<(Box<DataValue>, &[u8]), ReadFault> {
        let (value, rest) = data_of::<T>(alloc, mask, input)?;
        Ok((Box::new(alloc, value)?, rest))
    }
}

/// What follows the mask and the kind of a DataValue whose value is a single number or truth value, as most are.
fn number_behind<H: Holder>(
    alloc: Global,
    mask: u8,
    kind: Kind,
    input: &[u8],
) -> Result<(H, &[u8]), ReadFault>
    requires short { length input.now < input_limit }
    requires mask { (has mask 0xc0 ≡ false) × (has mask 0x01 ≡ true) }
    requires kind { kind_number (kind_of kind) ≤ 11 }
    ensures gives { Gives (λ x. (H.shown x.0, x.1.now)) result ((behind_mask (made one_of (leaves (kind_of kind))) mask).front input.now) }
    ensures shorter { IfOk result (λ x. length x.1.now ≤ length input.now) }
{
    match kind {
        Kind::Boolean => H::read::<bool>(alloc, mask, input),
        Kind::SByte => H::read::<i8>(alloc, mask, input),
        Kind::Byte => H::read::<u8>(alloc, mask, input),
        Kind::Int16 => H::read::<i16>(alloc, mask, input),
        Kind::UInt16 => H::read::<u16>(alloc, mask, input),
        Kind::Int32 => H::read::<i32>(alloc, mask, input),
        Kind::UInt32 => H::read::<u32>(alloc, mask, input),
        Kind::Int64 => H::read::<i64>(alloc, mask, input),
        Kind::UInt64 => H::read::<u64>(alloc, mask, input),
        Kind::Float => H::read::<FloatBits>(alloc, mask, input),
        _ => H::read::<DoubleBits>(alloc, mask, input),
    }
}

/// The DataValue at the front in a box.
#[cycle(read)]
fn boxed_within(
    alloc: Global,
    input: &[u8],
    allowance: u8,
) -> Result<(Box<DataValue>, &[u8]), ReadFault>
    requires short { length input.now ≤ input_limit }
    requires allowed { allowance < deepest }
    ensures gives { Gives (λ x. (data_value x.0.value, x.1.now)) result ((elements_within allowance data_kind).front input.now) }
    ensures shorter { IfOk result (λ x. length x.1.now ≤ length input.now) }
{
    if let Some((mask, kind, rest)) = number_ahead(input, allowance) {
        return number_behind::<Box<DataValue>>(alloc, mask, kind, rest);
    }
    let (value, rest) = data_within(alloc, input, allowance)?;
    Ok((Box::new(alloc, value)?, rest))
}

/// The DataValue at the front that is at most so deep, and what follows it.
pub(crate) fn data_front(
    alloc: Global,
    input: &[u8],
    allowance: u8,
) -> Result<(DataValue, &[u8]), ReadFault>
    requires short { length input.now ≤ input_limit }
    requires allowed { allowance ≤ deepest }
    ensures gives { Gives (λ x. (x.0, x.1.now)) result ((data_within allowance).front input.now) }
    ensures shorter { IfOk result (λ x. length x.1.now ≤ length input.now) }
    ensures counted { DataCountsMore input.now → result ≡ Err ReadFault.Refused }
{
    if let Some((mask, kind, rest)) = number_ahead(input, allowance) {
        return number_behind::<DataValue>(alloc, mask, kind, rest);
    }
    data_within(alloc, input, allowance)
}

/// The same, whatever its value is.
#[cycle(read)]
fn data_within(alloc: Global, input: &[u8], allowance: u8) -> Result<(DataValue, &[u8]), ReadFault>
    requires short { length input.now ≤ input_limit }
    requires allowed { allowance ≤ deepest }
    ensures gives { Gives (λ x. (x.0, x.1.now)) result ((data_within allowance).front input.now) }
    ensures shorter { IfOk result (λ x. length x.1.now ≤ length input.now) }
    ensures counted { DataCountsMore input.now → result ≡ Err ReadFault.Refused }
{
    if allowance == 0 {
        return Err(ReadFault::Refused);
    }
    let [mask, rest @ ..] = input else {
        return Err(ReadFault::Refused);
    };
    let mask = *mask;
    let Some(some) = has_value(mask) else {
        return Err(ReadFault::Refused);
    };
    if !some {
        return bare_data(alloc, mask, rest);
    }
    valued_data(alloc, mask, rest, allowance - 1)
}

/// What follows the first byte of a DataValue without a value. It stands by itself, as the next does: where both meet, a
/// whole DataValue would be copied once more, byte by byte.
#[inline(never)]
fn bare_data(alloc: Global, mask: u8, input: &[u8]) -> Result<(DataValue, &[u8]), ReadFault>
    requires short { length input.now < input_limit }
    requires mask { (has mask 0xc0 ≡ false) × (has mask 0x01 ≡ false) }
    ensures gives { Gives (λ x. (x.0, x.1.now)) result ((made without (stamps.behind mask)).front input.now) }
    ensures shorter { IfOk result (λ x. length x.1.now ≤ length input.now) }
{
    let (stamps, rest) = Stamps::read_behind(alloc, mask, input)?;
    Ok((DataValue::of(None, stamps), rest))
}

/// What follows the first byte of a DataValue with a value, which is at most so deep.
#[cycle(read)]
#[inline(never)]
fn valued_data(
    alloc: Global,
    mask: u8,
    input: &[u8],
    allowance: u8,
) -> Result<(DataValue, &[u8]), ReadFault>
    requires short { length input.now < input_limit }
    requires allowed { allowance < deepest }
    requires mask { (has mask 0xc0 ≡ false) × (has mask 0x01 ≡ true) }
    ensures gives { Gives (λ x. (x.0, x.1.now)) result ((behind_mask (within allowance) mask).front input.now) }
    ensures shorter { IfOk result (λ x. length x.1.now ≤ length input.now) }
    ensures counted { VariantCountsMore input.now → result ≡ Err ReadFault.Refused }
{
    let (value, rest) = variant_within(alloc, input, allowance)?;
    match Stamps::read_behind(alloc, mask, rest) {
        Ok((stamps, rest)) => Ok((DataValue::of(Some(value), stamps), rest)),
        Err(fault) => {
            drop_aside(value);
            Err(fault)
        }
    }
}

/// A DataValue as an element.
#[cycle(read)]
#[inline(never)]
pub(crate) fn data_element(
    alloc: Global,
    input: &[u8],
    allowance: u8,
) -> Result<(Element, &[u8]), ReadFault>
    requires short { length input.now ≤ input_limit }
    requires allowed { allowance < deepest }
    ensures gives { Gives (λ x. (element x.0, x.1.now)) result ((elements_within allowance data_kind).front input.now) }
    ensures shorter { IfOk result (λ x. length x.1.now ≤ length input.now) }
{
    let (value, rest) = data_within(alloc, input, allowance)?;
    Ok((Element::DataValue(Box::new(alloc, value)?), rest))
}

/// As many DataValues as the count says: a loop of their own, in which each goes from its reader into the list. The short
/// way for a number has a large frame where a compiler puts its readers in line, so only an outermost list goes here: that
/// frame then stands on the stack once, and not at each level.
#[cycle(read)]
#[inline(never)]
pub(crate) fn each_data(
    alloc: Global,
    count: u32,
    input: &[u8],
    allowance: u8,
) -> Result<(Vec<Element>, &[u8]), ReadFault>
    requires short { length input.now ≤ input_limit }
    requires allowed { allowance < deepest }
    ensures gives { Gives (λ x. (map element x.0.items, x.1.now)) result (items_at (elements_within allowance data_kind) count input.now) }
    ensures shorter { IfOk result (λ x. length x.1.now ≤ length input.now) }
    ensures counted { IfOk result (λ x. length x.0.items ≡ count) }
{
    let mut items = Vec::with_capacity(alloc, count as usize)?;
    let mut rest = input;
    for _ in 0..count {
        // `push` could hand the element back, so it would copy it once more.
        items.reserve(1)?;
        let (item, after) = boxed_within(alloc, rest, allowance)?;
        items.push_reserved(Element::DataValue(item));
        rest = after;
    }
    Ok((items, rest))
}
