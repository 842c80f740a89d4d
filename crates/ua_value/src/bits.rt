//! Floating point numbers (OPC 10000-6, 5.2.2.3), kept as their bits: nothing is computed with them.

ghost use Rattle.std.specs.Int.{w32, w64, from_le_bytes};
ghost use Rattle.ua_value.specs.Bits.{float_bits, double_bits, lawful_float_bits, lawful_double_bits, fixed_float_bits, fixed_double_bits};

use crate::bulk::{Fixed, emit_fixed, read_fixed};
use crate::fault::{NoMemory, ReadFault};
use crate::wire::{Sink, Wire};
use std::alloc::Global;

/// A Float: the bits of an IEEE 754 number of single precision, as they came.
#[derive(Clone, Copy, Debug, PartialEq, Eq)]
pub struct FloatBits(pub u32);

#[tactic(auto, unfolding(crate::specs::Bits::float_bits))]
impl Wire for FloatBits {
    ghost format = { float_bits };

    ghost most = { 4 };

    ghost Grows = { ⊥ };

    fn len(&self) -> u64 {
        self.0.len()
    }

    fn emit<S: Sink>(&self, out: &mut S) -> Result<(), NoMemory> {
        self.0.emit(out)
    }

    fn copy(&self) -> Result<FloatBits, NoMemory> {
        Ok(*self)
    }

    #[inline(always)]
    fn read_front(alloc: Global, input: &[u8]) -> Result<(FloatBits, &[u8]), ReadFault> {
        let (bits, rest) = u32::read_front(alloc, input)?;
        Ok((FloatBits(bits), rest))
    }

    fn read_items(
        alloc: Global,
        count: u32,
        input: &[u8],
    ) -> Result<(Vec<FloatBits>, &[u8]), ReadFault> {
        read_fixed::<FloatBits, 4>(alloc, count, input)
    }

    fn emit_items<S: Sink>(items: &[FloatBits], out: &mut S) -> Result<(), NoMemory> {
        emit_fixed::<FloatBits, S, 4>(items, out)
    }

    fn most_in(bytes: usize) -> usize {
        bytes / 4
    }

    ghost laws = { lawful_float_bits };
}

#[tactic(auto, unfolding(crate::specs::Bits::float_bits))]
impl Fixed<4> for FloatBits {
    ghost format = { float_bits };

    ghost value = { λ bytes. record { 0 = from_le_bytes w32 bytes } };

    fn of_bytes(bytes: &[u8; 4]) -> FloatBits {
        FloatBits(u32::of_bytes(bytes))
    }

    fn to_bytes(self) -> [u8; 4] {
        self.0.to_bytes()
    }

    ghost fixed = { fixed_float_bits };
}

/// A Double: the bits of an IEEE 754 number of double precision, as they came.
#[derive(Clone, Copy, Debug, PartialEq, Eq)]
pub struct DoubleBits(pub u64);

#[tactic(auto, unfolding(crate::specs::Bits::double_bits))]
impl Wire for DoubleBits {
    ghost format = { double_bits };

    ghost most = { 8 };

    ghost Grows = { ⊥ };

    fn len(&self) -> u64 {
        self.0.len()
    }

    fn emit<S: Sink>(&self, out: &mut S) -> Result<(), NoMemory> {
        self.0.emit(out)
    }

    fn copy(&self) -> Result<DoubleBits, NoMemory> {
        Ok(*self)
    }

    #[inline(always)]
    fn read_front(alloc: Global, input: &[u8]) -> Result<(DoubleBits, &[u8]), ReadFault> {
        let (bits, rest) = u64::read_front(alloc, input)?;
        Ok((DoubleBits(bits), rest))
    }

    fn read_items(
        alloc: Global,
        count: u32,
        input: &[u8],
    ) -> Result<(Vec<DoubleBits>, &[u8]), ReadFault> {
        read_fixed::<DoubleBits, 8>(alloc, count, input)
    }

    fn emit_items<S: Sink>(items: &[DoubleBits], out: &mut S) -> Result<(), NoMemory> {
        emit_fixed::<DoubleBits, S, 8>(items, out)
    }

    fn most_in(bytes: usize) -> usize {
        bytes / 8
    }

    ghost laws = { lawful_double_bits };
}

#[tactic(auto, unfolding(crate::specs::Bits::double_bits))]
impl Fixed<8> for DoubleBits {
    ghost format = { double_bits };

    ghost value = { λ bytes. record { 0 = from_le_bytes w64 bytes } };

    fn of_bytes(bytes: &[u8; 8]) -> DoubleBits {
        DoubleBits(u64::of_bytes(bytes))
    }

    fn to_bytes(self) -> [u8; 8] {
        self.0.to_bytes()
    }

    ghost fixed = { fixed_double_bits };
}
