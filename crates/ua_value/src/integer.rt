//! Signed integers (OPC 10000-6, 5.2.2.2): two's complement, the low byte first.
#![tactic(auto, unfolding(crate::specs::Number::signed))]

ghost use Rattle.std.specs.Int.{w8, w16, w32, w64, from_le_bytes, cast_signed};
ghost use Rattle.ua_value.specs.Number.{signed};
ghost use Rattle.ua_value.specs.Fixed.{fixed_signed, few_8, few_16, few_32, few_64};
ghost use Rattle.ua_value.specs.NumberLaws.{lawful_signed, wide_8, wide_16, wide_32, wide_64};

use crate::bulk::{Fixed, emit_fixed, read_fixed};
use crate::fault::{NoMemory, ReadFault};
use crate::wire::{Sink, Wire};
use std::alloc::Global;

impl Wire for i8 {
    ghost format = { signed w8 };

    ghost most = { 1 };

    ghost Grows = { ⊥ };

    fn len(&self) -> u64 {
        let _value = *self;
        1
    }

    fn emit<S: Sink>(&self, out: &mut S) -> Result<(), NoMemory> {
        out.put(&self.cast_unsigned().to_le_bytes())
    }

    fn copy(&self) -> Result<i8, NoMemory> {
        Ok(*self)
    }

    #[inline(always)]
    fn read_front(_alloc: Global, input: &[u8]) -> Result<(i8, &[u8]), ReadFault> {
        match input {
            [byte, rest @ ..] => Ok((u8::from_le_bytes([*byte]).cast_signed(), rest)),
            _ => Err(ReadFault::Refused),
        }
    }

    fn read_items(alloc: Global, count: u32, input: &[u8]) -> Result<(Vec<i8>, &[u8]), ReadFault> {
        read_fixed::<i8, 1>(alloc, count, input)
    }

    fn emit_items<S: Sink>(items: &[i8], out: &mut S) -> Result<(), NoMemory> {
        emit_fixed::<i8, S, 1>(items, out)
    }

    fn most_in(bytes: usize) -> usize {
        bytes
    }

    ghost laws = { lawful_signed w8 wide_8 };
}

impl Fixed<1> for i8 {
    ghost format = { signed w8 };

    ghost value = { λ bytes. cast_signed w8 (from_le_bytes w8 bytes) };

    fn of_bytes(bytes: &[u8; 1]) -> i8 {
        u8::from_le_bytes(*bytes).cast_signed()
    }

    fn to_bytes(self) -> [u8; 1] {
        self.cast_unsigned().to_le_bytes()
    }

    ghost fixed = { fixed_signed w8 few_8 wide_8 };
}

impl Wire for i16 {
    ghost format = { signed w16 };

    ghost most = { 2 };

    ghost Grows = { ⊥ };

    fn len(&self) -> u64 {
        let _value = *self;
        2
    }

    fn emit<S: Sink>(&self, out: &mut S) -> Result<(), NoMemory> {
        out.put(&self.cast_unsigned().to_le_bytes())
    }

    fn copy(&self) -> Result<i16, NoMemory> {
        Ok(*self)
    }

    #[inline(always)]
    fn read_front(_alloc: Global, input: &[u8]) -> Result<(i16, &[u8]), ReadFault> {
        match input {
            [a, b, rest @ ..] => Ok((u16::from_le_bytes([*a, *b]).cast_signed(), rest)),
            _ => Err(ReadFault::Refused),
        }
    }

    fn read_items(alloc: Global, count: u32, input: &[u8]) -> Result<(Vec<i16>, &[u8]), ReadFault> {
        read_fixed::<i16, 2>(alloc, count, input)
    }

    fn emit_items<S: Sink>(items: &[i16], out: &mut S) -> Result<(), NoMemory> {
        emit_fixed::<i16, S, 2>(items, out)
    }

    fn most_in(bytes: usize) -> usize {
        bytes / 2
    }

    ghost laws = { lawful_signed w16 wide_16 };
}

impl Fixed<2> for i16 {
    ghost format = { signed w16 };

    ghost value = { λ bytes. cast_signed w16 (from_le_bytes w16 bytes) };

    fn of_bytes(bytes: &[u8; 2]) -> i16 {
        u16::from_le_bytes(*bytes).cast_signed()
    }

    fn to_bytes(self) -> [u8; 2] {
        self.cast_unsigned().to_le_bytes()
    }

    ghost fixed = { fixed_signed w16 few_16 wide_16 };
}

impl Wire for i32 {
    ghost format = { signed w32 };

    ghost most = { 4 };

    ghost Grows = { ⊥ };

    fn len(&self) -> u64 {
        let _value = *self;
        4
    }

    fn emit<S: Sink>(&self, out: &mut S) -> Result<(), NoMemory> {
        out.put(&self.cast_unsigned().to_le_bytes())
    }

    fn copy(&self) -> Result<i32, NoMemory> {
        Ok(*self)
    }

    #[inline(always)]
    fn read_front(_alloc: Global, input: &[u8]) -> Result<(i32, &[u8]), ReadFault> {
        match input {
            [a, b, c, d, rest @ ..] => Ok((
                u32::from_le_bytes([*a, *b, *c, *d]).cast_signed(),
                rest,
            )),
            _ => Err(ReadFault::Refused),
        }
    }

    fn read_items(alloc: Global, count: u32, input: &[u8]) -> Result<(Vec<i32>, &[u8]), ReadFault> {
        read_fixed::<i32, 4>(alloc, count, input)
    }

    fn emit_items<S: Sink>(items: &[i32], out: &mut S) -> Result<(), NoMemory> {
        emit_fixed::<i32, S, 4>(items, out)
    }

    fn most_in(bytes: usize) -> usize {
        bytes / 4
    }

    ghost laws = { lawful_signed w32 wide_32 };
}

impl Fixed<4> for i32 {
    ghost format = { signed w32 };

    ghost value = { λ bytes. cast_signed w32 (from_le_bytes w32 bytes) };

    fn of_bytes(bytes: &[u8; 4]) -> i32 {
        u32::from_le_bytes(*bytes).cast_signed()
    }

    fn to_bytes(self) -> [u8; 4] {
        self.cast_unsigned().to_le_bytes()
    }

    ghost fixed = { fixed_signed w32 few_32 wide_32 };
}

impl Wire for i64 {
    ghost format = { signed w64 };

    ghost most = { 8 };

    ghost Grows = { ⊥ };

    fn len(&self) -> u64 {
        let _value = *self;
        8
    }

    fn emit<S: Sink>(&self, out: &mut S) -> Result<(), NoMemory> {
        out.put(&self.cast_unsigned().to_le_bytes())
    }

    fn copy(&self) -> Result<i64, NoMemory> {
        Ok(*self)
    }

    #[inline(always)]
    fn read_front(_alloc: Global, input: &[u8]) -> Result<(i64, &[u8]), ReadFault> {
        match input {
            [a, b, c, d, e, f, g, h, rest @ ..] => Ok((
                u64::from_le_bytes([*a, *b, *c, *d, *e, *f, *g, *h]).cast_signed(),
                rest,
            )),
            _ => Err(ReadFault::Refused),
        }
    }

    fn read_items(alloc: Global, count: u32, input: &[u8]) -> Result<(Vec<i64>, &[u8]), ReadFault> {
        read_fixed::<i64, 8>(alloc, count, input)
    }

    fn emit_items<S: Sink>(items: &[i64], out: &mut S) -> Result<(), NoMemory> {
        emit_fixed::<i64, S, 8>(items, out)
    }

    fn most_in(bytes: usize) -> usize {
        bytes / 8
    }

    ghost laws = { lawful_signed w64 wide_64 };
}

impl Fixed<8> for i64 {
    ghost format = { signed w64 };

    ghost value = { λ bytes. cast_signed w64 (from_le_bytes w64 bytes) };

    fn of_bytes(bytes: &[u8; 8]) -> i64 {
        u64::from_le_bytes(*bytes).cast_signed()
    }

    fn to_bytes(self) -> [u8; 8] {
        self.cast_unsigned().to_le_bytes()
    }

    ghost fixed = { fixed_signed w64 few_64 wide_64 };
}
