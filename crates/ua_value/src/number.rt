//! Unsigned integers (OPC 10000-6, 5.2.2.2): the low byte first.
#![tactic(auto, unfolding(crate::specs::Number::unsigned))]

ghost use Rattle.std.specs.Prelude.{◌≡◌, ◌≤◌, length, option_map, drop, IfSome};
ghost use Rattle.std.specs.Int.{w8, w16, w32, w64, from_le_bytes};
ghost use Rattle.ua_value.specs.Fixed.{fixed_unsigned, few_8, few_16, few_32, few_64};
ghost use Rattle.ua_value.specs.Format.{Peeks};
ghost use Rattle.ua_value.specs.Number.{unsigned};
ghost use Rattle.ua_value.specs.NumberLaws.{lawful_unsigned, wide_8, wide_16, wide_32, wide_64};

use crate::bulk::{Fixed, emit_fixed, read_fixed};
use crate::fault::{NoMemory, ReadFault};
use crate::wire::{Sink, Wire};
use std::alloc::Global;

/// The UInt32 at the front (OPC 10000-6, 5.2.2.2), or `None` where there are fewer than four bytes. What follows it is
/// not looked at.
pub fn peek_u32(input: &[u8]) -> Option<u32>
    ensures spelled { Peeks (unsigned w32) input.now (option_map (λ n. (n, 4)) result) }
    ensures front { option_map (λ n. (n, drop 4 input.now)) result ≡ (unsigned w32).grammar.front input.now }
{
    match input {
        [a, b, c, d, ..] => Some(u32::from_le_bytes([*a, *b, *c, *d])),
        _ => None,
    }
}

/// The UInt32 at the front (OPC 10000-6, 5.2.2.2), and what follows it. `None` where there are fewer than four bytes.
#[inline(always)]
pub fn front_u32(input: &[u8]) -> Option<(u32, &[u8])>
    ensures front { option_map (λ p. (p.0, p.1.now)) result ≡ (unsigned w32).grammar.front input.now }
    ensures shorter { IfSome result (λ p. length p.1.now ≤ length input.now) }
{
    match input {
        [a, b, c, d, rest @ ..] => Some((u32::from_le_bytes([*a, *b, *c, *d]), rest)),
        _ => None,
    }
}

impl Wire for u8 {
    ghost format = { unsigned w8 };

    ghost most = { 1 };

    ghost Grows = { ⊥ };

    fn len(&self) -> u64 {
        let _value = *self;
        1
    }

    fn emit<S: Sink>(&self, out: &mut S) -> Result<(), NoMemory> {
        out.put(&[*self])
    }

    fn copy(&self) -> Result<u8, NoMemory> {
        Ok(*self)
    }

    #[inline(always)]
    fn read_front(_alloc: Global, input: &[u8]) -> Result<(u8, &[u8]), ReadFault> {
        match input {
            [byte, rest @ ..] => Ok((*byte, rest)),
            [] => Err(ReadFault::Refused),
        }
    }

    fn read_items(alloc: Global, count: u32, input: &[u8]) -> Result<(Vec<u8>, &[u8]), ReadFault> {
        read_fixed::<u8, 1>(alloc, count, input)
    }

    fn emit_items<S: Sink>(items: &[u8], out: &mut S) -> Result<(), NoMemory> {
        emit_fixed::<u8, S, 1>(items, out)
    }

    fn most_in(bytes: usize) -> usize {
        bytes
    }

    ghost laws = { lawful_unsigned w8 wide_8 };
}

impl Fixed<1> for u8 {
    ghost format = { unsigned w8 };

    ghost value = { from_le_bytes w8 };

    fn of_bytes(bytes: &[u8; 1]) -> u8 {
        u8::from_le_bytes(*bytes)
    }

    fn to_bytes(self) -> [u8; 1] {
        self.to_le_bytes()
    }

    ghost fixed = { fixed_unsigned w8 few_8 wide_8 };
}

impl Wire for u16 {
    ghost format = { unsigned w16 };

    ghost most = { 2 };

    ghost Grows = { ⊥ };

    fn len(&self) -> u64 {
        let _value = *self;
        2
    }

    fn emit<S: Sink>(&self, out: &mut S) -> Result<(), NoMemory> {
        out.put(&self.to_le_bytes())
    }

    fn copy(&self) -> Result<u16, NoMemory> {
        Ok(*self)
    }

    #[inline(always)]
    fn read_front(_alloc: Global, input: &[u8]) -> Result<(u16, &[u8]), ReadFault> {
        match input {
            [a, b, rest @ ..] => Ok((u16::from_le_bytes([*a, *b]), rest)),
            _ => Err(ReadFault::Refused),
        }
    }

    fn read_items(alloc: Global, count: u32, input: &[u8]) -> Result<(Vec<u16>, &[u8]), ReadFault> {
        read_fixed::<u16, 2>(alloc, count, input)
    }

    fn emit_items<S: Sink>(items: &[u16], out: &mut S) -> Result<(), NoMemory> {
        emit_fixed::<u16, S, 2>(items, out)
    }

    fn most_in(bytes: usize) -> usize {
        bytes / 2
    }

    ghost laws = { lawful_unsigned w16 wide_16 };
}

impl Fixed<2> for u16 {
    ghost format = { unsigned w16 };

    ghost value = { from_le_bytes w16 };

    fn of_bytes(bytes: &[u8; 2]) -> u16 {
        u16::from_le_bytes(*bytes)
    }

    fn to_bytes(self) -> [u8; 2] {
        self.to_le_bytes()
    }

    ghost fixed = { fixed_unsigned w16 few_16 wide_16 };
}

impl Wire for u32 {
    ghost format = { unsigned w32 };

    ghost most = { 4 };

    ghost Grows = { ⊥ };

    fn len(&self) -> u64 {
        let _value = *self;
        4
    }

    fn emit<S: Sink>(&self, out: &mut S) -> Result<(), NoMemory> {
        out.put(&self.to_le_bytes())
    }

    fn copy(&self) -> Result<u32, NoMemory> {
        Ok(*self)
    }

    #[inline(always)]
    fn read_front(_alloc: Global, input: &[u8]) -> Result<(u32, &[u8]), ReadFault> {
        match input {
            [a, b, c, d, rest @ ..] => Ok((u32::from_le_bytes([*a, *b, *c, *d]), rest)),
            _ => Err(ReadFault::Refused),
        }
    }

    fn read_items(alloc: Global, count: u32, input: &[u8]) -> Result<(Vec<u32>, &[u8]), ReadFault> {
        read_fixed::<u32, 4>(alloc, count, input)
    }

    fn emit_items<S: Sink>(items: &[u32], out: &mut S) -> Result<(), NoMemory> {
        emit_fixed::<u32, S, 4>(items, out)
    }

    fn most_in(bytes: usize) -> usize {
        bytes / 4
    }

    ghost laws = { lawful_unsigned w32 wide_32 };
}

impl Fixed<4> for u32 {
    ghost format = { unsigned w32 };

    ghost value = { from_le_bytes w32 };

    fn of_bytes(bytes: &[u8; 4]) -> u32 {
        u32::from_le_bytes(*bytes)
    }

    fn to_bytes(self) -> [u8; 4] {
        self.to_le_bytes()
    }

    ghost fixed = { fixed_unsigned w32 few_32 wide_32 };
}

impl Wire for u64 {
    ghost format = { unsigned w64 };

    ghost most = { 8 };

    ghost Grows = { ⊥ };

    fn len(&self) -> u64 {
        let _value = *self;
        8
    }

    fn emit<S: Sink>(&self, out: &mut S) -> Result<(), NoMemory> {
        out.put(&self.to_le_bytes())
    }

    fn copy(&self) -> Result<u64, NoMemory> {
        Ok(*self)
    }

    #[inline(always)]
    fn read_front(_alloc: Global, input: &[u8]) -> Result<(u64, &[u8]), ReadFault> {
        match input {
            [a, b, c, d, e, f, g, h, rest @ ..] => Ok((
                u64::from_le_bytes([*a, *b, *c, *d, *e, *f, *g, *h]),
                rest,
            )),
            _ => Err(ReadFault::Refused),
        }
    }

    fn read_items(alloc: Global, count: u32, input: &[u8]) -> Result<(Vec<u64>, &[u8]), ReadFault> {
        read_fixed::<u64, 8>(alloc, count, input)
    }

    fn emit_items<S: Sink>(items: &[u64], out: &mut S) -> Result<(), NoMemory> {
        emit_fixed::<u64, S, 8>(items, out)
    }

    fn most_in(bytes: usize) -> usize {
        bytes / 8
    }

    ghost laws = { lawful_unsigned w64 wide_64 };
}

impl Fixed<8> for u64 {
    ghost format = { unsigned w64 };

    ghost value = { from_le_bytes w64 };

    fn of_bytes(bytes: &[u8; 8]) -> u64 {
        u64::from_le_bytes(*bytes)
    }

    fn to_bytes(self) -> [u8; 8] {
        self.to_le_bytes()
    }

    ghost fixed = { fixed_unsigned w64 few_64 wide_64 };
}
