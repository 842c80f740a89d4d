//! The canonical spellings of variants and data values, and their lengths.

ghost use Rattle.std.specs.Prelude.{◌≡◌, ◌≤◌, ◌+◌, ◌*◌, ◌++◌, is_some, length, map, true, IfNone, IfSome, OnOk, OnErr};
ghost use Rattle.ua_value.specs.Format.{AppendsPart, input_limit};
ghost use Rattle.ua_variant.specs.Kinds.{width};
ghost use Rattle.ua_variant.specs.Values.{depth, data_depth, element_depth, AllOf, items_of};
ghost use Rattle.ua_variant.specs.Spelling.{head_of, canon, element_canon, data_canon, shape_canon};
ghost use Rattle.ua_variant.specs.Lists.{canon_of_items, canon_of_list, IsShortList};
ghost use Rattle.ua_variant.specs.View.{kind_of, element, items_in};

use crate::flagged::bit;
use crate::short::{emit_short, is_short};
use crate::variant::{Body, DataValue, Element, Variant};
use ua_kind::Kind;
use ua_value::{Array, NoMemory, Sink, Wire};

/// The first byte of a Variant.
#[inline(always)]
pub(crate) fn head_of(kind: Kind, has_dimensions: bool, is_array: bool) -> u8
    ensures { result ≡ head_of (kind_of kind) has_dimensions is_array }
{
    kind.number() + (bit(has_dimensions, 0x40) + bit(is_array, 0x80))
}

/// The first byte of an array with these dimensions.
fn array_head(kind: Kind, lengths: &Array<i32>) -> u8
    ensures { result ≡ head_of (kind_of kind) (is_some lengths.now) true }
{
    head_of(kind, lengths.get().is_some(), true)
}

/// Puts the dimensions, if there are any.
fn emit_shape<S: Sink>(lengths: &Array<i32>, out: &mut S) -> Result<(), NoMemory>
    ensures ok { OnOk result (S.contents out.new ≡ S.contents out.old ++ shape_canon lengths.now) }
    ensures err { OnErr result (AppendsPart (S.contents out.old) (S.contents out.new) (shape_canon lengths.now)) }
{
    match lengths.get() {
        None => Ok(()),
        Some(_) => lengths.emit(out),
    }
}

#[cycle(emit)]
pub(crate) fn emit_variant<S: Sink>(value: &Variant, out: &mut S) -> Result<(), NoMemory>
    ensures ok { OnOk result (S.contents out.new ≡ S.contents out.old ++ canon value.now) }
    ensures err { OnErr result (AppendsPart (S.contents out.old) (S.contents out.new) (canon value.now)) }
{
    match &value.body {
        Body::Null => out.put(&[0]),
        Body::One(one) => {
            out.put(&[head_of(one.kind(), false, false)])?;
            emit_element(one, out)
        }
        Body::Array(kind, items, lengths) => {
            out.put(&[array_head(*kind, lengths)])?;
            emit_list(&items.list, out)?;
            emit_shape(lengths, out)?;
            Ok(())
        }
    }
}

/// Puts a count and the elements.
#[cycle(emit)]
fn emit_list<S: Sink>(items: &Option<Vec<Element>>, out: &mut S) -> Result<(), NoMemory>
    requires { IsShortList (items_in items.now) }
    ensures ok { OnOk result (S.contents out.new ≡ S.contents out.old ++ canon_of_list (items_in items.now)) }
    ensures err { OnErr result (AppendsPart (S.contents out.old) (S.contents out.new) (canon_of_list (items_in items.now))) }
{
    match items {
        None => out.put(&[255, 255, 255, 255]),
        Some(items) => {
            out.put(&(items.len() as u32).to_le_bytes())?;
            emit_items(items, out)
        }
    }
}

/// Puts a truth value or a number; none says that the element is another.
#[inline(always)]
pub(crate) fn put_number<S: Sink>(item: &Element, out: &mut S) -> Option<Result<(), NoMemory>>
    ensures ok { IfSome result (λ put. OnOk put (S.contents out.new ≡ S.contents out.old ++ element_canon (element item.now))) }
    ensures err { IfSome result (λ put. OnErr put (AppendsPart (S.contents out.old) (S.contents out.new) (element_canon (element item.now)))) }
    ensures other { IfNone result (S.contents out.new ≡ S.contents out.old) }
{
    match item {
        Element::Boolean(number) => Some(number.emit(out)),
        Element::SByte(number) => Some(number.emit(out)),
        Element::Byte(number) => Some(number.emit(out)),
        Element::Int16(number) => Some(number.emit(out)),
        Element::UInt16(number) => Some(number.emit(out)),
        Element::Int32(number) => Some(number.emit(out)),
        Element::UInt32(number) => Some(number.emit(out)),
        Element::Int64(number) => Some(number.emit(out)),
        Element::UInt64(number) => Some(number.emit(out)),
        Element::Float(number) => Some(number.emit(out)),
        Element::Double(number) => Some(number.emit(out)),
        _ => None,
    }
}

/// Puts the elements, one after another.
#[cycle(emit)]
fn emit_items<S: Sink>(items: &[Element], out: &mut S) -> Result<(), NoMemory>
    ensures ok { OnOk result (S.contents out.new ≡ S.contents out.old ++ canon_of_items (map element items.now)) }
    ensures err { OnErr result (AppendsPart (S.contents out.old) (S.contents out.new) (canon_of_items (map element items.now))) }
{
    for item in items {
        emit_one(item, out)?;
    }
    Ok(())
}

/// Puts an element of a list: a number in line, a text by a call of its own, any other by the call for all kinds.
#[cycle(emit)]
#[inline(always)]
fn emit_one<S: Sink>(item: &Element, out: &mut S) -> Result<(), NoMemory>
    ensures ok { OnOk result (S.contents out.new ≡ S.contents out.old ++ element_canon (element item.now)) }
    ensures err { OnErr result (AppendsPart (S.contents out.old) (S.contents out.new) (element_canon (element item.now))) }
{
    if let Element::String(text) = item {
        return text.emit(out);
    }
    match put_number(item, out) {
        Some(put) => put,
        None => emit_element(item, out),
    }
}

#[cycle(emit)]
fn emit_element<S: Sink>(item: &Element, out: &mut S) -> Result<(), NoMemory>
    ensures ok { OnOk result (S.contents out.new ≡ S.contents out.old ++ element_canon (element item.now)) }
    ensures err { OnErr result (AppendsPart (S.contents out.old) (S.contents out.new) (element_canon (element item.now))) }
{
    match item {
        Element::Boolean(value) => value.emit(out),
        Element::SByte(value) => value.emit(out),
        Element::Byte(value) => value.emit(out),
        Element::Int16(value) => value.emit(out),
        Element::UInt16(value) => value.emit(out),
        Element::Int32(value) => value.emit(out),
        Element::UInt32(value) => value.emit(out),
        Element::Int64(value) => value.emit(out),
        Element::UInt64(value) => value.emit(out),
        Element::Float(value) => value.emit(out),
        Element::Double(value) => value.emit(out),
        Element::String(value) => value.emit(out),
        Element::DateTime(value) => value.emit(out),
        Element::Guid(value) => value.emit(out),
        Element::ByteString(value) => value.emit(out),
        Element::XmlElement(value) => value.emit(out),
        Element::NodeId(value) => value.emit(out),
        Element::ExpandedNodeId(value) => value.emit(out),
        Element::StatusCode(value) => value.emit(out),
        Element::QualifiedName(value) => value.emit(out),
        Element::LocalizedText(value) => value.emit(out),
        Element::ExtensionObject(value) => value.emit(out),
        Element::DataValue(value) => emit_data(value, out),
        Element::Variant(value) => emit_variant(value, out),
        Element::DiagnosticInfo(value) => value.put(out),
    }
}

#[cycle(emit)]
pub(crate) fn emit_data<S: Sink>(value: &DataValue, out: &mut S) -> Result<(), NoMemory>
    ensures ok { OnOk result (S.contents out.new ≡ S.contents out.old ++ data_canon value.now) }
    ensures err { OnErr result (AppendsPart (S.contents out.old) (S.contents out.new) (data_canon value.now)) }
{
    if is_short(value) && emit_short(value, out) {
        return Ok(());
    }
    let mask = value.stamps.mask();
    match &value.value {
        None => out.put(&[mask])?,
        Some(inner) => {
            out.put(&[1 + mask])?;
            emit_variant(inner, out)?;
        }
    }
    value.stamps.emit(out)
}

/// The length of the dimensions, if there are any.
fn shape_len(lengths: &Array<i32>) -> u64
    ensures length { result ≡ length (shape_canon lengths.now) }
    ensures bound { result ≤ 1152921504606846980 }
{
    match lengths.get() {
        None => 0,
        Some(_) => lengths.len(),
    }
}

#[cycle(len)]
#[inline(always)]
pub(crate) fn variant_len(value: &Variant) -> u64
    ensures length { result ≡ length (canon value.now) }
    ensures bound { result ≤ 2305843284091600896 + 64 * depth value.now }
{
    match &value.body {
        Body::Null => 1,
        Body::One(one) => 1 + element_len(one),
        Body::Array(kind, items, lengths) => 1 + list_len(*kind, &items.list) + shape_len(lengths),
    }
}

/// The bytes of each value of a kind, where a list of it is measured by its count; else 0.
fn width(kind: Kind) -> u64
    ensures { result ≡ width (kind_of kind) }
{
    match kind {
        Kind::Boolean | Kind::SByte | Kind::Byte => 1,
        Kind::Int16 | Kind::UInt16 => 2,
        Kind::Int32 | Kind::UInt32 | Kind::Float | Kind::StatusCode => 4,
        Kind::Int64 | Kind::UInt64 | Kind::Double | Kind::DateTime => 8,
        _ => 0,
    }
}

/// The length of a count and the elements, all of the kind. Those of as many bytes each are not looked at.
#[cycle(len)]
#[inline(never)]
fn list_len(kind: Kind, items: &Option<Vec<Element>>) -> u64
    requires short { IsShortList (items_in items.now) }
    requires same { IfSome (items_in items.now) (λ es. AllOf (kind_of kind) (items_of es)) }
    ensures length { result ≡ length (canon_of_list (items_in items.now)) }
    ensures bound { result ≤ 1152921504606846980 }
{
    match items {
        None => 4,
        Some(items) => {
            let width = width(kind);
            if width == 0 {
                4 + items_len(items)
            } else {
                4 + width * items.len() as u64
            }
        }
    }
}

/// The length of the elements, one after another.
#[cycle(len)]
fn items_len(items: &[Element]) -> u64
    requires { length (canon_of_items (map element items.now)) ≤ input_limit }
    ensures { result ≡ length (canon_of_items (map element items.now)) }
{
    let mut total = 0;
    for item in items {
        total += element_len(item);
    }
    total
}

#[cycle(len)]
fn element_len(item: &Element) -> u64
    ensures length { result ≡ length (element_canon (element item.now)) }
    ensures bound { result ≤ 2305843284091600896 + 64 * element_depth (element item.now) }
{
    match item {
        Element::Boolean(value) => value.len(),
        Element::SByte(value) => value.len(),
        Element::Byte(value) => value.len(),
        Element::Int16(value) => value.len(),
        Element::UInt16(value) => value.len(),
        Element::Int32(value) => value.len(),
        Element::UInt32(value) => value.len(),
        Element::Int64(value) => value.len(),
        Element::UInt64(value) => value.len(),
        Element::Float(value) => value.len(),
        Element::Double(value) => value.len(),
        Element::String(value) => value.len(),
        Element::DateTime(value) => value.len(),
        Element::Guid(value) => value.len(),
        Element::ByteString(value) => value.len(),
        Element::XmlElement(value) => value.len(),
        Element::NodeId(value) => value.len(),
        Element::ExpandedNodeId(value) => value.len(),
        Element::StatusCode(value) => value.len(),
        Element::QualifiedName(value) => value.len(),
        Element::LocalizedText(value) => value.len(),
        Element::ExtensionObject(value) => value.len(),
        Element::DataValue(value) => data_len(value),
        Element::Variant(value) => variant_len(value),
        Element::DiagnosticInfo(value) => value.size(),
    }
}

#[cycle(len)]
pub(crate) fn data_len(value: &DataValue) -> u64
    ensures length { result ≡ length (data_canon value.now) }
    ensures bound { result ≤ 2305843284091600896 + 64 * data_depth value.now }
{
    let own = 1 + value.stamps.len();
    match &value.value {
        None => own,
        Some(inner) => own + variant_len(inner),
    }
}

impl Element {
    /// The length of the canonical spelling, without the kind.
    pub fn len(&self) -> u64
        ensures length { result ≡ length (element_canon (element self.now)) }
        ensures bound { result ≤ 2305843284091600896 + 64 * element_depth (element self.now) }
    {
        element_len(self)
    }
}
