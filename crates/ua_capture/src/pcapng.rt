//! The format pcapng: blocks, in sections (draft-ietf-opsawg-pcapng).

ghost use Rattle.std.specs.Prelude.{◌≡◌, ◌+◌, ◌≤◌, length, IfOk};
ghost use Rattle.ua_capture.specs.Pcap.{IsWithin};
ghost use Rattle.ua_capture.specs.Pcapng.{order_of, size_by, section_step, number_64, resolution_of, offset_of, interface_step, enhanced_step, simple_kept, simple_step, block_by, block_step};

use crate::file::{Fault, Interface, LONGEST, Record};
use crate::moment::{moment_of, ticks_a_second};
use crate::number::{Order, network_32, ordered_16, ordered_32};
use crate::options::option_in;
use crate::step::Step;

/// The type of the block that begins a section, which reads the same in either order.
pub(crate) const SECTION: u32 = 0x0a0d0d0a;

/// How many options of a block are looked through.
const MOST_OPTIONS: u8 = 255;

/// The order that a section says with its magic number.
fn order_of(magic: u32) -> Option<Order>
    ensures { result ≡ order_of magic }
{
    match magic {
        0x1a2b3c4d => Some(Order::Big),
        0x4d3c2b1a => Some(Order::Little),
        _ => None,
    }
}

/// The bytes of a block by the length that it says, if it may be one that long, and as many are there.
fn size_by(there: usize, said: u32, least: u32) -> Result<usize, Step>
    ensures size { result ≡ size_by there said least }
    ensures within { IfOk result (λ size. size ≤ there) }
    ensures enough { IfOk result (λ size. least ≤ size) }
{
    if said < least || said % 4 != 0 {
        return Err(Step::Fault(Fault::Length));
    }
    if said > LONGEST {
        return Err(Step::Fault(Fault::TooLong));
    }
    if there < said as usize {
        return Err(Step::More);
    }
    Ok(said as usize)
}

/// A block that begins a section.
#[tactic(auto, unfolding(crate::specs::Pcapng::section_step))]
pub(crate) fn section_step(bytes: &[u8]) -> Step
    ensures step { result ≡ section_step bytes.now }
    ensures within { IsWithin bytes.now result }
{
    if bytes.len() < 12 {
        return Step::More;
    }
    let Some(order) = order_of(network_32(bytes, 8)) else {
        return Step::Fault(Fault::Order);
    };
    match size_by(bytes.len(), ordered_32(order, bytes, 4), 28) {
        Ok(size) => {
            if ordered_16(order, bytes, 12) == 1 {
                Step::Section(order, size)
            } else {
                Step::Fault(Fault::Version)
            }
        }
        Err(step) => step,
    }
}

/// The resolution that an interface says, or that of microseconds.
fn resolution_in(order: Order, bytes: &[u8], end: usize) -> u8
    requires there { end ≤ length bytes.now }
    requires begins { 16 ≤ end }
    ensures { result ≡ resolution_of order bytes.now end }
{
    match option_in(order, bytes, 9, 16, end, MOST_OPTIONS) {
        Some(value) => {
            if value.length == 1 {
                bytes[value.at]
            } else {
                6
            }
        }
        None => 6,
    }
}

/// The number of eight bytes at `at`, in the order of the file.
fn ordered_64(order: Order, bytes: &[u8], at: usize) -> u64
    requires { at + 8 ≤ length bytes.now }
    ensures { result ≡ number_64 order bytes.now at }
{
    let first = ordered_32(order, bytes, at) as u64;
    let second = ordered_32(order, bytes, at + 4) as u64;
    match order {
        Order::Little => second * 0x1_0000_0000 + first,
        Order::Big => first * 0x1_0000_0000 + second,
    }
}

/// The seconds that an interface adds to its moments.
fn offset_in(order: Order, bytes: &[u8], end: usize) -> u64
    requires there { end ≤ length bytes.now }
    requires begins { 16 ≤ end }
    ensures { result ≡ offset_of order bytes.now end }
{
    match option_in(order, bytes, 14, 16, end, MOST_OPTIONS) {
        Some(value) => {
            if value.length == 8 {
                ordered_64(order, bytes, value.at)
            } else {
                0
            }
        }
        None => 0,
    }
}

/// A block that describes an interface.
#[tactic(auto, unfolding(crate::specs::Pcapng::interface_step))]
fn interface_step(order: Order, bytes: &[u8], size: usize) -> Step
    requires { size ≤ length bytes.now }
    ensures step { result ≡ interface_step order bytes.now size }
    ensures within { IsWithin bytes.now result }
{
    if size < 20 {
        return Step::Fault(Fault::Length);
    }
    let end = size - 4;
    match ticks_a_second(resolution_in(order, bytes, end)) {
        Some(unit) => {
            let interface = Interface {
                link: ordered_16(order, bytes, 8),
                most: ordered_32(order, bytes, 12),
                unit,
                offset: offset_in(order, bytes, end),
            };
            Step::Interface(interface, size)
        }
        None => Step::Fault(Fault::Resolution),
    }
}

/// A packet of the interface with the number `id`: an Enhanced Packet Block, or the Packet Block that it replaced.
#[tactic(auto, unfolding(crate::specs::Pcapng::enhanced_step))]
fn enhanced_step(
    order: Order,
    interfaces: &[Interface],
    id: usize,
    bytes: &[u8],
    size: usize,
) -> Step
    requires { size ≤ length bytes.now }
    ensures step { result ≡ enhanced_step order interfaces.now id bytes.now size }
    ensures within { IsWithin bytes.now result }
{
    if size < 32 {
        return Step::Fault(Fault::Length);
    }
    if id >= interfaces.len() {
        return Step::Fault(Fault::Interface);
    }
    let interface = interfaces[id];
    let kept = ordered_32(order, bytes, 20) as usize;
    if size - 32 < kept {
        return Step::Fault(Fault::Length);
    }
    let high = ordered_32(order, bytes, 12) as u64;
    let ticks = high * 0x1_0000_0000 + ordered_32(order, bytes, 16) as u64;
    let record = Record {
        link: interface.link,
        moment: Some(moment_of(ticks, interface.unit, interface.offset)),
        length: ordered_32(order, bytes, 24),
        from: 28,
        to: 28 + kept,
    };
    Step::Packet(record, size)
}

/// How many bytes of a packet are kept, of the `length` that it had, in a block with room for `room`.
fn simple_kept(length: u32, most: u32, room: usize) -> usize
    ensures kept { result ≡ simple_kept length most room }
    ensures within { result ≤ room }
{
    let kept = if most == 0 { length } else { length.min(most) };
    room.min(kept as usize)
}

/// A packet of the first interface, without a moment: a Simple Packet Block.
#[tactic(auto, unfolding(crate::specs::Pcapng::simple_step))]
fn simple_step(order: Order, interfaces: &[Interface], bytes: &[u8], size: usize) -> Step
    requires { size ≤ length bytes.now }
    ensures step { result ≡ simple_step order interfaces.now bytes.now size }
    ensures within { IsWithin bytes.now result }
{
    if size < 16 {
        return Step::Fault(Fault::Length);
    }
    if interfaces.is_empty() {
        return Step::Fault(Fault::Interface);
    }
    let interface = interfaces[0];
    let length = ordered_32(order, bytes, 8);
    let record = Record {
        link: interface.link,
        moment: None,
        length,
        from: 12,
        to: 12 + simple_kept(length, interface.most, size - 16),
    };
    Step::Packet(record, size)
}

/// A whole block of this type, which begins no section.
fn block_by(order: Order, interfaces: &[Interface], kind: u32, bytes: &[u8], size: usize) -> Step
    requires whole { size ≤ length bytes.now }
    requires least { 12 ≤ size }
    ensures step { result ≡ block_by order interfaces.now kind bytes.now size }
    ensures within { IsWithin bytes.now result }
{
    match kind {
        1 => interface_step(order, bytes, size),
        2 => {
            let id = ordered_16(order, bytes, 8) as usize;
            enhanced_step(order, interfaces, id, bytes, size)
        }
        3 => simple_step(order, interfaces, bytes, size),
        6 => {
            let id = ordered_32(order, bytes, 8) as usize;
            enhanced_step(order, interfaces, id, bytes, size)
        }
        _ => Step::Passed(size),
    }
}

/// What stands in front of bytes within a section: a block.
#[tactic(auto, unfolding(crate::specs::Pcapng::block_step))]
pub(crate) fn block_step(order: Order, interfaces: &[Interface], bytes: &[u8]) -> Step
    ensures step { result ≡ block_step order interfaces.now bytes.now }
    ensures within { IsWithin bytes.now result }
{
    if bytes.len() < 8 {
        return Step::More;
    }
    let kind = ordered_32(order, bytes, 0);
    if kind == SECTION {
        return section_step(bytes);
    }
    match size_by(bytes.len(), ordered_32(order, bytes, 4), 12) {
        Ok(size) => block_by(order, interfaces, kind, bytes, size),
        Err(step) => step,
    }
}
