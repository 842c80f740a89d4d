//! Byte strings (OPC 10000-6, 5.2.2.7): a length in four bytes and the bytes, or -1 for none.
#![tactic(auto, unfolding(crate::specs::Text::bytes_of))]

ghost use Rattle.std.specs.Prelude.{◌≡◌, ◌≤◌, ◌<◌, ◌↔◌, length, Some, None, option_map, option_copied, IfSome, IfOk, IfErr, IsErrOf};
ghost use Rattle.ua_value.specs.Text.{byte_string, longest};
ghost use Rattle.ua_value.specs.TextLaws.{lawful_byte_string};
ghost use Rattle.std.specs.Option.{option_eq};
ghost use Rattle.std.specs.Prelude.{bytes_eq};
ghost use Rattle.std.specs.Cmp.{partial_equiv_from_equiv};
ghost use Rattle.std.specs.Cmp.Lexicographic.{nat_list_eq_equiv, options_equiv};

use crate::fault::{NoMemory, ReadFault, ValueFault};
use crate::number::front_u32;
use crate::wire::{Sink, Wire, bytes_known};
use std::alloc::Global;
use std::marker::Model;

/// The greatest length of a text, a byte string or an array: a count is a signed number of 32 bits (OPC 10000-6,
/// 5.2.2.4, 5.2.5).
pub const LONGEST: u32 = 2147483647;

/// The ByteString at the front (OPC 10000-6, 5.2.2.7), lent from the bytes, and what follows it. `None` where no
/// beginning of the bytes spells one: they end before it does, or its length is below -1.
pub fn bytes_front(input: &[u8]) -> Option<(Option<&[u8]>, &[u8])>
    ensures front { option_map (λ p. (option_copied p.0, p.1.now)) result ≡ byte_string.grammar.front input.now }
    ensures shorter { IfSome result (λ p. length p.1.now ≤ length input.now) }
{
    let (len, rest) = front_u32(input)?;
    if len == u32::MAX {
        return Some((None, rest));
    }
    if len > LONGEST || rest.len() < len as usize {
        return None;
    }
    let (bytes, rest) = rest.split_at(len as usize);
    Some((Some(bytes), rest))
}

/// At most [`LONGEST`] bytes, or none. No bytes at all and none are different values.
#[derive(Debug, Drop)]
pub struct UaBytes {
    bytes: Option<Vec<u8>>,
}

impl Model for UaBytes {
    ghost use Rattle.std.specs.Prelude.{◌≤◌, ℕ, List, Option, option_map, length, IfSome};
    ghost use Rattle.ua_value.specs.Text.{longest};

    ghost Value = { Option (List ℕ) };

    ghost view = { λ s. option_map (λ v. v.items) s.bytes };

    ghost invariant = { λ s. IfSome s.bytes (λ v. length v.items ≤ longest) };
}

impl UaBytes {
    /// The byte string that is none.
    pub fn null() -> UaBytes
        ensures { result ≡ None }
    {
        UaBytes { bytes: None }
    }

    /// A copy of the bytes, at most [`LONGEST`] of them (OPC 10000-6, 5.2.2.7).
    ///
    /// # Errors
    ///
    /// `TooLong` exactly where there are more; else `NoMemory` where the room for the copy is refused.
    pub fn new(alloc: Global, bytes: &[u8]) -> Result<UaBytes, ValueFault>
        ensures ok { IfOk result (λ v. v ≡ Some bytes.now) }
        ensures too_long { IsErrOf result ValueFault.TooLong ↔ (longest < length bytes.now) }
    {
        if bytes.len() > LONGEST as usize {
            return Err(ValueFault::TooLong);
        }
        Ok(UaBytes {
            bytes: Some(bytes.to_vec(alloc)?),
        })
    }

    /// The bytes as they are, at most [`LONGEST`] of them (OPC 10000-6, 5.2.2.7). It takes no memory.
    ///
    /// # Errors
    ///
    /// `TooLong` exactly where there are more; the bytes are then dropped. No other fault comes.
    pub fn from_vec(bytes: Vec<u8>) -> Result<UaBytes, ValueFault>
        ensures ok { IfOk result (λ v. v ≡ Some bytes.items) }
        ensures too_long { IsErrOf result ValueFault.TooLong ↔ (longest < length bytes.items) }
        ensures fault { IfErr result (λ e. e ≡ ValueFault.TooLong) }
    {
        if bytes.len() > LONGEST as usize {
            Err(ValueFault::TooLong)
        } else {
            Ok(UaBytes { bytes: Some(bytes) })
        }
    }

    /// The bytes, or `None` where the byte string is none. It takes no memory.
    pub fn into_vec(self) -> Option<Vec<u8>>
        ensures { option_map (λ v. v.items) result ≡ self }
    {
        self.bytes
    }

    /// The bytes, or `None` where the byte string is none.
    pub fn get(&self) -> Option<&[u8]>
        ensures { option_copied result ≡ self.now }
    {
        match &self.bytes {
            None => None,
            Some(bytes) => Some(bytes.as_slice()),
        }
    }
}

/// Equal where both are none, or both have the same bytes.
impl PartialEq for UaBytes {
    ghost eq = { option_eq bytes_eq };

    ghost laws = { partial_equiv_from_equiv (options_equiv nat_list_eq_equiv) };

    fn eq(&self, other: &UaBytes) -> bool {
        match (self.get(), other.get()) {
            (None, None) => true,
            (Some(a), Some(b)) => a == b,
            _ => false,
        }
    }
}

impl Eq for UaBytes {
    ghost laws = { options_equiv nat_list_eq_equiv };
}

impl Wire for UaBytes {
    ghost format = { byte_string };

    ghost most = { 2147483651 };

    ghost Grows = { Unit {0} };

    fn len(&self) -> u64 {
        match &self.bytes {
            None => 4,
            Some(bytes) => {
                bytes_known(bytes.as_slice());
                4 + bytes.len() as u64
            }
        }
    }

    fn emit<S: Sink>(&self, out: &mut S) -> Result<(), NoMemory> {
        match &self.bytes {
            None => out.put(&[255, 255, 255, 255]),
            Some(bytes) => {
                out.put(&(bytes.len() as u32).to_le_bytes())?;
                out.put(bytes.as_slice())
            }
        }
    }

    fn copy(&self) -> Result<UaBytes, NoMemory> {
        match &self.bytes {
            None => Ok(UaBytes::null()),
            Some(bytes) => Ok(UaBytes {
                bytes: Some(bytes.clone()?),
            }),
        }
    }

    fn read_front(alloc: Global, input: &[u8]) -> Result<(UaBytes, &[u8]), ReadFault> {
        match bytes_front(input) {
            None => Err(ReadFault::Refused),
            Some((None, rest)) => Ok((UaBytes::null(), rest)),
            Some((Some(bytes), rest)) => Ok((
                UaBytes {
                    bytes: Some(bytes.to_vec(alloc)?),
                },
                rest,
            )),
        }
    }

    fn most_in(bytes: usize) -> usize {
        bytes / 4
    }

    ghost laws = { lawful_byte_string };
}
