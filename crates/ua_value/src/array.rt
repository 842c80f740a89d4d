//! Arrays (OPC 10000-6, 5.2.5): a count in four bytes and the items, or -1 for none.
#![tactic(auto, unfolding(crate::specs::Array::array))]

ghost use Rattle.std.specs.Prelude.{◌≡◌, ◌≤◌, ◌<◌, ◌↔◌, length, option_map, option_copied, Err, IfOk, IfErr, IsErrOf};
ghost use Rattle.std.specs.Option.{option_eq};
ghost use Rattle.std.specs.Cmp.{partial_equiv_from_equiv};
ghost use Rattle.std.specs.Cmp.Lexicographic.{pointwise, lists_equiv, options_equiv};
ghost use Rattle.std.specs.Int.{w32};
ghost use Rattle.std.specs.List.{flat_map, AllByRecursion};
ghost use Rattle.ua_value.specs.Format.{input_limit, Gives, Reads};
ghost use Rattle.ua_value.specs.Text.{longest};
ghost use Rattle.ua_value.specs.Number.{unsigned};
ghost use Rattle.ua_value.specs.Array.{array, CountsMore};
ghost use Rattle.ua_value.specs.ArrayLaws.{lawful_array};

use crate::bytes::LONGEST;
use crate::fault::{NoMemory, ReadFault, ValueFault};
use crate::number::front_u32;
use crate::wire::{Sink, Wire};
use std::alloc::Global;
use std::marker::Model;

/// A list of at most 2147483647 items, whose spellings have at most 1152921504606846976 bytes together, or none. No
/// list and the empty list are different values.
#[derive(Debug, Drop)]
pub struct Array<T: Wire> {
    items: Option<Vec<T>>,
}

impl<T: Wire> Model for Array<T> {
    ghost use Rattle.std.specs.Prelude.{◌≤◌, List, Option, option_map, length, IfSome};
    ghost use Rattle.std.specs.List.{flat_map};
    ghost use Rattle.ua_value.specs.Format.{input_limit};
    ghost use Rattle.ua_value.specs.Text.{longest};

    ghost Value = { Option (List T) };

    ghost view = { λ a. option_map (λ v. v.items) a.items };

    ghost invariant = { λ a. IfSome a.items (λ v. (length v.items ≤ longest) × (length (flat_map T.format.canon v.items) ≤ input_limit)) };
}

impl<T: Wire> Array<T> {
    /// The array that is none.
    pub fn null() -> Array<T>
        ensures { result ≡ None }
    {
        Array { items: None }
    }

    /// The items, or `None` where there is no list.
    pub fn get(&self) -> Option<&[T]>
        ensures { option_copied result ≡ self.now }
    {
        match &self.items {
            None => None,
            Some(items) => Some(items.as_slice()),
        }
    }

    /// The list of the items, at most 2147483647 of them (OPC 10000-6, 5.2.5). It takes no memory.
    ///
    /// # Errors
    ///
    /// `TooLong` exactly where there are more; the items are then dropped. No other fault comes.
    pub fn new(items: Vec<T>) -> Result<Array<T>, ValueFault>
        requires { length (flat_map T.format.canon items.items) ≤ input_limit }
        ensures ok { IfOk result (λ v. v ≡ Some items.items) }
        ensures too_long { IsErrOf result ValueFault.TooLong ↔ (longest < length items.items) }
        ensures fault { IfErr result (λ e. e ≡ ValueFault.TooLong) }
    {
        if items.len() > LONGEST as usize {
            return Err(ValueFault::TooLong);
        }
        Ok(Array { items: Some(items) })
    }

    /// The items, or `None` where there is no list. It takes no memory.
    pub fn into_vec(self) -> Option<Vec<T>>
        ensures { option_map (λ v. v.items) result ≡ self }
    {
        self.items
    }
}

/// The lengths of the items' spellings, added up.
fn len_of_items<T: Wire>(items: &[T]) -> u64
    requires { length (flat_map T.format.canon items.now) ≤ input_limit }
    ensures length { result ≡ length (flat_map T.format.canon items.now) }
    ensures values { AllByRecursion T.format.IsValue items.now }
{
    let mut total = 0;
    for item in items {
        total += item.len();
    }
    total
}

fn copy_items<T: Wire>(alloc: Global, items: &[T]) -> Result<Vec<T>, NoMemory>
    ensures { IfOk result (λ v. v.items ≡ items.now) }
{
    let mut copies = Vec::with_capacity(alloc, items.len())?;
    for item in items {
        copies.push(item.copy()?)?;
    }
    Ok(copies)
}

/// Equal where both are none, or both have equal items in the same order.
impl<T: Wire + Eq> PartialEq for Array<T> {
    ghost eq = { option_eq (pointwise T.eq) };

    ghost laws = { partial_equiv_from_equiv (options_equiv (lists_equiv T.Eq.laws)) };

    fn eq(&self, other: &Array<T>) -> bool {
        match (self.get(), other.get()) {
            (None, None) => true,
            (Some(a), Some(b)) => a == b,
            _ => false,
        }
    }
}

impl<T: Wire + Eq> Eq for Array<T> {
    ghost laws = { options_equiv (lists_equiv T.Eq.laws) };
}

impl<T: Wire> Wire for Array<T> {
    ghost format = { array T.format };

    ghost most = { 1152921504606846980 };

    ghost Grows = { Unit {0} };

    fn len(&self) -> u64 {
        match &self.items {
            None => 4,
            Some(items) => 4 + len_of_items(items),
        }
    }

    fn emit<S: Sink>(&self, out: &mut S) -> Result<(), NoMemory> {
        match &self.items {
            None => out.put(&[255, 255, 255, 255]),
            Some(items) => {
                out.put(&(items.len() as u32).to_le_bytes())?;
                T::emit_items(items, out)
            }
        }
    }

    fn copy(&self) -> Result<Array<T>, NoMemory> {
        match &self.items {
            None => Ok(Array::null()),
            Some(items) => Ok(Array {
                items: Some(copy_items(*items.allocator(), items)?),
            }),
        }
    }

    fn read_front(alloc: Global, input: &[u8]) -> Result<(Array<T>, &[u8]), ReadFault>
        requires { length input.now ≤ input_limit }
        ensures gives { Gives (λ x. (x.0, x.1.now)) result ((array T.format).grammar.front input.now) }
        ensures shorter { IfOk result (λ x. length x.1.now ≤ length input.now) }
        ensures counted { CountsMore ((unsigned w32).grammar.front input.now) → result ≡ Err ReadFault.Refused }
        ensures memory { IfErr result (λ e. e ≡ ReadFault.NoMemory → Unit {0}) }
    {
        let Some((count, rest)) = front_u32(input) else {
            return Err(ReadFault::Refused);
        };
        if count == u32::MAX {
            return Ok((Array::null(), rest));
        }
        if count > LONGEST || rest.len() < count as usize {
            return Err(ReadFault::Refused);
        }
        let (items, rest) = T::read_items(alloc, count, rest)?;
        Ok((Array { items: Some(items) }, rest))
    }

    fn read(alloc: Global, input: &[u8]) -> Result<(Array<T>, usize), ReadFault>
        requires { length input.now ≤ input_limit }
        ensures reads { Reads (array T.format) input.now result }
        ensures memory { IfErr result (λ e. e ≡ ReadFault.NoMemory → Unit {0}) }
        ensures counted { CountsMore ((unsigned w32).grammar.front input.now) → result ≡ Err ReadFault.Refused }
    {
        match Array::read_front(alloc, input) {
            Ok((value, rest)) => Ok((value, input.len() - rest.len())),
            Err(fault) => Err(fault),
        }
    }

    ghost laws = { lawful_array T.format T.laws };
}
