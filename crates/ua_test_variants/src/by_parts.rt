//! What a sink holds that takes only some of what is put: the same as when each part of a DataValue was put by itself. That way stands here as
//! it was, over what callers see of a value.

use crate::number_data::{VALUES, data_bytes, three_bytes};
use crate::sinks::SmallSink;
use crate::variants::SINGLES;
use std::alloc::{AllocError, Global};
use ua_value::{NoMemory, Sink, Wire};
use ua_variant::{DataValue, Element, Kind, Variant};

/// A part, where there is one.
fn put_kept<T: Wire, S: Sink>(part: Option<T>, out: &mut S) -> Result<(), NoMemory> {
    match part {
        None => Ok(()),
        Some(value) => value.emit(out),
    }
}

/// The parts behind the value.
fn put_stamps<S: Sink>(value: &DataValue, out: &mut S) -> Result<(), NoMemory> {
    put_kept(value.status(), out)?;
    put_kept(value.source_timestamp(), out)?;
    put_kept(value.source_picoseconds(), out)?;
    put_kept(value.server_timestamp(), out)?;
    put_kept(value.server_picoseconds(), out)
}

fn bit(set: bool, bit: u8) -> u8 {
    if set { bit } else { 0 }
}

/// The bits of the parts that are there.
fn mask_of(value: &DataValue) -> u8 {
    bit(value.value().is_some(), 0x01)
        | bit(value.status().is_some(), 0x02)
        | bit(value.source_timestamp().is_some(), 0x04)
        | bit(value.source_picoseconds().is_some(), 0x10)
        | bit(value.server_timestamp().is_some(), 0x08)
        | bit(value.server_picoseconds().is_some(), 0x20)
}

/// A value that holds no other one.
fn put_plain<S: Sink>(item: &Element, out: &mut S) -> Result<(), NoMemory> {
    match item {
        Element::Boolean(value) => value.emit(out),
        Element::SByte(value) => value.emit(out),
        Element::Byte(value) => value.emit(out),
        Element::Int16(value) => value.emit(out),
        Element::UInt16(value) => value.emit(out),
        Element::Int32(value) => value.emit(out),
        Element::UInt32(value) => value.emit(out),
        Element::Int64(value) => value.emit(out),
        Element::UInt64(value) => value.emit(out),
        Element::Float(value) => value.emit(out),
        Element::Double(value) => value.emit(out),
        Element::String(value) => value.emit(out),
        Element::DateTime(value) => value.emit(out),
        Element::Guid(value) => value.emit(out),
        Element::ByteString(value) => value.emit(out),
        Element::XmlElement(value) => value.emit(out),
        Element::NodeId(value) => value.emit(out),
        Element::ExpandedNodeId(value) => value.emit(out),
        Element::StatusCode(value) => value.emit(out),
        Element::QualifiedName(value) => value.emit(out),
        Element::LocalizedText(value) => value.emit(out),
        Element::ExtensionObject(value) => value.emit(out),
        Element::DiagnosticInfo(value) => value.emit(out),
        // No input here has another one so deep.
        Element::DataValue(_) | Element::Variant(_) => Err(AllocError),
    }
}

/// What puts an element.
trait Level {
    fn put<S: Sink>(item: &Element, out: &mut S) -> Result<(), NoMemory>;
}

/// Elements that hold no others.
#[derive(Drop)]
struct Flat;

impl Level for Flat {
    fn put<S: Sink>(item: &Element, out: &mut S) -> Result<(), NoMemory> {
        put_plain(item, out)
    }
}

/// Elements that hold others as `L` puts them.
#[derive(Drop)]
struct Above<L> {
    _below: Option<L>,
}

impl<L: Level + Drop> Level for Above<L> {
    fn put<S: Sink>(item: &Element, out: &mut S) -> Result<(), NoMemory> {
        match item {
            Element::DataValue(value) => put_data::<L, S>(value, out),
            Element::Variant(value) => put_variant::<L, S>(value, out),
            _ => put_plain(item, out),
        }
    }
}

/// How many follow.
fn put_count<S: Sink>(count: usize, out: &mut S) -> Result<(), NoMemory> {
    match u32::try_from(count) {
        Ok(count) => out.put(&count.to_le_bytes()),
        Err(_) => Err(AllocError),
    }
}

/// A count and the elements.
fn put_list<L: Level, S: Sink>(items: Option<&[Element]>, out: &mut S) -> Result<(), NoMemory> {
    match items {
        None => out.put(&[255, 255, 255, 255]),
        Some(items) => {
            put_count(items.len(), out)?;
            for item in items {
                L::put(item, out)?;
            }
            Ok(())
        }
    }
}

/// The dimensions, if there are any.
fn put_shape<S: Sink>(lengths: Option<&[i32]>, out: &mut S) -> Result<(), NoMemory> {
    match lengths {
        None => Ok(()),
        Some(lengths) => {
            put_count(lengths.len(), out)?;
            i32::emit_items(lengths, out)
        }
    }
}

fn put_array<L: Level, S: Sink>(kind: Kind, value: &Variant, out: &mut S) -> Result<(), NoMemory> {
    let lengths = value.dimensions();
    out.put(&[kind.number() | bit(lengths.is_some(), 0x40) | 0x80])?;
    put_list::<L, S>(value.elements(), out)?;
    put_shape(lengths, out)
}

fn put_variant<L: Level, S: Sink>(value: &Variant, out: &mut S) -> Result<(), NoMemory> {
    if let Some(one) = value.value() {
        out.put(&[one.kind().number()])?;
        return L::put(one, out);
    }
    match value.kind() {
        None => out.put(&[0]),
        Some(kind) => put_array::<L, S>(kind, value, out),
    }
}

fn put_data<L: Level, S: Sink>(value: &DataValue, out: &mut S) -> Result<(), NoMemory> {
    out.put(&[mask_of(value)])?;
    if let Some(inner) = value.value() {
        put_variant::<L, S>(inner, out)?;
    }
    put_stamps(value, out)
}

/// A DataValue of no more levels than an input here has.
fn put_as_before<S: Sink>(value: &DataValue, out: &mut S) -> Result<(), NoMemory> {
    put_data::<Above<Above<Flat>>, S>(value, out)
}

/// Whether a sink of this room is told the same and holds the same as when each part was put by itself.
fn is_held(alloc: Global, value: &DataValue, room: usize) -> bool {
    let mut sink = SmallSink {
        bytes: Vec::new(alloc),
        room,
    };
    let mut before = SmallSink {
        bytes: Vec::new(alloc),
        room,
    };
    let is_ok = value.emit(&mut sink).is_ok();
    let was_ok = put_as_before(value, &mut before).is_ok();
    is_ok == was_ok && sink.bytes.as_slice() == before.bytes.as_slice()
}

fn is_held_in_each_room(alloc: Global, value: &DataValue, most: usize) -> bool {
    for room in 0..=most {
        if !is_held(alloc, value, room) {
            return false;
        }
    }
    true
}

/// What was put. It takes so many puts, refuses so many, and takes all others.
#[derive(Drop)]
struct Stubborn {
    bytes: Vec<u8>,
    taken: usize,
    refused: usize,
}

impl Sink for Stubborn {
    ghost contents = { λ s. s.bytes.items };

    fn put(&mut self, bytes: &[u8]) -> Result<(), NoMemory> {
        if self.taken > 0 {
            self.taken -= 1;
        } else if self.refused > 0 {
            self.refused -= 1;
            return Err(AllocError);
        }
        self.bytes.extend_from_slice(bytes)
    }
}

/// Whether the sink that refuses these is told the same and holds the same as one that refuses `before` of them, when each part was put by itself.
fn is_held_by_turns(
    alloc: Global,
    value: &DataValue,
    taken: usize,
    refused: usize,
    before: usize,
) -> bool {
    let mut sink = Stubborn {
        bytes: Vec::new(alloc),
        taken,
        refused,
    };
    let mut parts = Stubborn {
        bytes: Vec::new(alloc),
        taken,
        refused: before,
    };
    let is_ok = value.emit(&mut sink).is_ok();
    let was_ok = put_as_before(value, &mut parts).is_ok();
    is_ok == was_ok && sink.bytes.as_slice() == parts.bytes.as_slice()
}

/// A number is put at once, and where that is refused part by part: a sink that refused it once may take the parts.
fn is_number_put_again(alloc: Global, value: &DataValue) -> bool {
    is_held_by_turns(alloc, value, 0, 0, 0)
        && is_held_by_turns(alloc, value, 0, 1, 0)
        && is_held_by_turns(alloc, value, 0, 2, 1)
        && is_held_by_turns(alloc, value, 0, 3, 2)
}

/// What is no number is put part by part alone.
fn is_other_put_once(alloc: Global, value: &DataValue) -> bool {
    let mut all = true;
    for taken in 0..12usize {
        all &= is_held_by_turns(alloc, value, taken, 1, 1);
    }
    all
}

/// The value is a single number or truth value.
fn is_number(value: &DataValue) -> bool {
    match value.value() {
        Some(inner) => match inner.value() {
            Some(one) => one.kind().number() <= 11,
            None => false,
        },
        None => false,
    }
}

/// Whether all of the bytes spell a DataValue that is put as it was.
fn is_put_as_before(alloc: Global, bytes: &[u8]) -> bool {
    if bytes.len() > 1000 {
        return false;
    }
    match DataValue::read(alloc, bytes) {
        Ok((value, used)) => {
            let is_told = if is_number(&value) {
                is_number_put_again(alloc, &value)
            } else {
                is_other_put_once(alloc, &value)
            };
            used == bytes.len() && is_told && is_held_in_each_room(alloc, &value, used + 1)
        }
        Err(_) => false,
    }
}

fn is_made_and_put(alloc: Global, variant: &[u8], mask: u8) -> bool {
    match data_bytes(alloc, variant, mask) {
        Ok(bytes) => is_put_as_before(alloc, &bytes),
        Err(_) => false,
    }
}

/// Whether DataValues of the Variant are put as they were, under each mask.
fn are_put(alloc: Global, variant: &[u8]) -> bool {
    let mut all = true;
    for mask in 0..32u8 {
        all &= is_made_and_put(alloc, variant, mask << 1);
    }
    all
}

fn are_singles_put(alloc: Global) -> bool {
    let mut all = true;
    for (kind, variant) in &SINGLES {
        all &= *kind == Kind::DataValue || are_put(alloc, variant);
    }
    all
}

#[test]
fn single_values_are_put_as_before(rt: HostRuntime) {
    assert!(rt; are_singles_put(rt.alloc()));
}

/// Null, arrays without elements, with dimensions, of texts, of Variants and of diagnostics.
const OTHERS: [&[u8]; 7] = [
    &[0],
    &[0x86, 0xff, 0xff, 0xff, 0xff],
    &[0x8b, 0, 0, 0, 0],
    &[
        0xc6, 2, 0, 0, 0, 1, 0, 0, 0, 2, 0, 0, 0, 2, 0, 0, 0, 2, 0, 0, 0, 1, 0, 0, 0,
    ],
    &[0x8c, 2, 0, 0, 0, 1, 0, 0, 0, b'a', 0xff, 0xff, 0xff, 0xff],
    &[0x98, 2, 0, 0, 0, 0, 0x06, 1, 0, 0, 0],
    &[0x99, 2, 0, 0, 0, 0x40, 0, 0x01, 1, 0, 0, 0],
];

fn are_others_put(alloc: Global) -> bool {
    let mut all = true;
    for variant in &OTHERS {
        all &= are_put(alloc, variant);
    }
    all
}

#[test]
fn other_values_are_put_as_before(rt: HostRuntime) {
    assert!(rt; are_others_put(rt.alloc()));
}

/// Three numbers of the kind as the value of a DataValue.
fn is_list_put(alloc: Global, value: &[u8]) -> bool {
    match three_bytes(alloc, value) {
        Ok(list) => are_put(alloc, &list),
        Err(_) => false,
    }
}

fn are_lists_put(alloc: Global) -> bool {
    let mut all = true;
    for value in &VALUES {
        all &= is_list_put(alloc, value);
    }
    all
}

#[test]
fn lists_of_numbers_are_put_as_before(rt: HostRuntime) {
    assert!(rt; are_lists_put(rt.alloc()));
}

/// A DataValue; arrays of DataValues: a number, a text with a status, and one without a value; a list of one in a list.
const NESTED: [&[u8]; 3] = [
    &[0x17, 0x01, 0x06, 1, 0, 0, 0],
    &[
        0x97, 3, 0, 0, 0, 0x01, 0x05, 1, 0, 0x03, 0x0c, 1, 0, 0, 0, b'a', 0, 0, 0x34, 0x80, 0x10,
        1, 2,
    ],
    &[
        0x97, 1, 0, 0, 0, 0x01, 0x97, 1, 0, 0, 0, 0x13, 0x0b, 1, 2, 3, 4, 5, 6, 7, 8, 0, 0, 0x34,
        0x80, 1, 2,
    ],
];

/// Whether a DataValue of the Variant is held as it was, in each room.
fn is_held_whole(alloc: Global, bytes: &[u8]) -> bool {
    if bytes.len() > 1000 {
        return false;
    }
    match DataValue::read(alloc, bytes) {
        Ok((value, used)) => {
            used == bytes.len() && is_held_in_each_room(alloc, &value, used + 1)
        }
        Err(_) => false,
    }
}

fn is_nested_held(alloc: Global, variant: &[u8], mask: u8) -> bool {
    match data_bytes(alloc, variant, mask) {
        Ok(bytes) => is_held_whole(alloc, &bytes),
        Err(_) => false,
    }
}

fn are_nested_held(alloc: Global) -> bool {
    let mut all = true;
    for variant in &NESTED {
        all &= is_nested_held(alloc, variant, 0);
        all &= is_nested_held(alloc, variant, 0x3e);
    }
    all
}

#[test]
fn data_values_in_arrays_are_put_as_before(rt: HostRuntime) {
    assert!(rt; are_nested_held(rt.alloc()));
}
