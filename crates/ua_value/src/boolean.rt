//! Truth values (OPC 10000-6, 5.2.2.1): 0 is false, any other byte is true, and true is written as 1.
#![tactic(auto, unfolding(crate::specs::Number::boolean))]

ghost use Rattle.ua_value.specs.Number.{boolean};
ghost use Rattle.ua_value.specs.NumberLaws.{lawful_bool};

use crate::fault::{NoMemory, ReadFault};
use crate::wire::{Sink, Wire};
use std::alloc::Global;

impl Wire for bool {
    ghost format = { boolean };

    ghost most = { 1 };

    ghost Grows = { ⊥ };

    fn len(&self) -> u64 {
        let _value = *self;
        1
    }

    fn emit<S: Sink>(&self, out: &mut S) -> Result<(), NoMemory> {
        out.put(&[*self as u8])
    }

    fn copy(&self) -> Result<bool, NoMemory> {
        Ok(*self)
    }

    #[inline(always)]
    fn read_front(_alloc: Global, input: &[u8]) -> Result<(bool, &[u8]), ReadFault> {
        match input {
            [byte, rest @ ..] => Ok((*byte != 0, rest)),
            [] => Err(ReadFault::Refused),
        }
    }

    fn most_in(bytes: usize) -> usize {
        bytes
    }

    ghost laws = { lawful_bool };
}
