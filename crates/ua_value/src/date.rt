//! Dates (OPC 10000-6, 5.2.2.5).

ghost use Rattle.std.specs.Int.{w64, from_le_bytes, cast_signed};
ghost use Rattle.ua_value.specs.Date.{date_time, lawful_date_time, fixed_date_time};

use crate::bulk::{Fixed, emit_fixed, read_fixed};
use crate::fault::{NoMemory, ReadFault};
use crate::wire::{Sink, Wire};
use std::alloc::Global;

/// A moment in ticks of 100 nanoseconds since 1601-01-01 UTC, as it came.
#[derive(Clone, Copy, Debug, PartialEq, Eq)]
pub struct DateTime(pub i64);

#[tactic(auto, unfolding(crate::specs::Date::date_time))]
impl Wire for DateTime {
    ghost format = { date_time };

    ghost most = { 8 };

    ghost Grows = { ⊥ };

    fn len(&self) -> u64 {
        self.0.len()
    }

    fn emit<S: Sink>(&self, out: &mut S) -> Result<(), NoMemory> {
        self.0.emit(out)
    }

    fn copy(&self) -> Result<DateTime, NoMemory> {
        Ok(*self)
    }

    #[inline(always)]
    fn read_front(alloc: Global, input: &[u8]) -> Result<(DateTime, &[u8]), ReadFault> {
        let (ticks, rest) = i64::read_front(alloc, input)?;
        Ok((DateTime(ticks), rest))
    }

    fn read_items(
        alloc: Global,
        count: u32,
        input: &[u8],
    ) -> Result<(Vec<DateTime>, &[u8]), ReadFault> {
        read_fixed::<DateTime, 8>(alloc, count, input)
    }

    fn emit_items<S: Sink>(items: &[DateTime], out: &mut S) -> Result<(), NoMemory> {
        emit_fixed::<DateTime, S, 8>(items, out)
    }

    fn most_in(bytes: usize) -> usize {
        bytes / 8
    }

    ghost laws = { lawful_date_time };
}

#[tactic(auto, unfolding(crate::specs::Date::date_time))]
impl Fixed<8> for DateTime {
    ghost format = { date_time };

    ghost value = { λ bytes. record { 0 = cast_signed w64 (from_le_bytes w64 bytes) } };

    fn of_bytes(bytes: &[u8; 8]) -> DateTime {
        DateTime(i64::of_bytes(bytes))
    }

    fn to_bytes(self) -> [u8; 8] {
        self.0.to_bytes()
    }

    ghost fixed = { fixed_date_time };
}
