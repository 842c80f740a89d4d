//! Guids (OPC 10000-6, 5.2.2.6): three numbers and eight bytes.

ghost use Rattle.std.specs.Prelude.{◌+◌, ◌≡◌, Some, IfOk, string_bytes};
ghost use Rattle.uuid.specs.Text.{hyphenated_text, lower};
ghost use Rattle.ua_value.specs.Guid.{raw, guid, digits_of};
ghost use Rattle.ua_value.specs.GuidLaws.{lawful_eight_bytes, lawful_guid};

use crate::fault::{NoMemory, ReadFault};
use crate::fields::Parts;
use crate::wire::{Sink, Wire, bytes_known};
use std::alloc::Global;
use std::fmt;
use uuid::Uuid;

/// A Guid, by the four fields of its spelling.
#[derive(Clone, Copy, Debug, PartialEq, Eq)]
pub struct Guid {
    pub data1: u32,
    pub data2: u16,
    pub data3: u16,
    pub data4: [u8; 8],
}

#[tactic(auto, unfolding(crate::specs::Guid::raw))]
impl Wire for [u8; 8] {
    ghost format = { raw 8 };

    ghost most = { 8 };

    ghost Grows = { ⊥ };

    fn len(&self) -> u64 {
        bytes_known(self);
        8
    }

    fn emit<S: Sink>(&self, out: &mut S) -> Result<(), NoMemory> {
        out.put(self)
    }

    fn copy(&self) -> Result<[u8; 8], NoMemory> {
        Ok(*self)
    }

    fn read_front(_alloc: Global, input: &[u8]) -> Result<([u8; 8], &[u8]), ReadFault> {
        match input {
            [a, b, c, d, e, f, g, h, rest @ ..] => Ok(([*a, *b, *c, *d, *e, *f, *g, *h], rest)),
            _ => Err(ReadFault::Refused),
        }
    }

    ghost laws = { lawful_eight_bytes };
}

#[tactic(auto, unfolding(crate::specs::Guid::guid))]
impl Wire for Guid {
    ghost format = { guid };

    ghost most = { 16 };

    ghost Grows = { ⊥ };

    fn len(&self) -> u64 {
        self.data1.len() + self.data2.len() + self.data3.len() + self.data4.len()
    }

    fn emit<S: Sink>(&self, out: &mut S) -> Result<(), NoMemory> {
        (&self.data1, (&self.data2, (&self.data3, &self.data4))).emit_parts(out)
    }

    fn copy(&self) -> Result<Guid, NoMemory> {
        Ok(*self)
    }

    fn read_front(alloc: Global, input: &[u8]) -> Result<(Guid, &[u8]), ReadFault> {
        let (data1, rest) = u32::read_front(alloc, input)?;
        let (data2, rest) = u16::read_front(alloc, rest)?;
        let (data3, rest) = u16::read_front(alloc, rest)?;
        let (data4, rest) = <[u8; 8]>::read_front(alloc, rest)?;
        Ok((
            Guid {
                data1,
                data2,
                data3,
                data4,
            },
            rest,
        ))
    }

    fn most_in(bytes: usize) -> usize {
        bytes / 16
    }

    ghost laws = { lawful_guid };
}

impl Guid {
    /// The text with hyphens, in lower case, as `72962b91-fa75-4ae6-8d28-b404dc7daf63` (OPC 10000-6, 5.1.3).
    ///
    /// # Errors
    ///
    /// `NoMemory` where the room for the text is refused.
    pub fn text(&self, alloc: Global) -> Result<String, NoMemory>
        ensures { IfOk result (λ t. string_bytes t ≡ hyphenated_text lower (digits_of self.now)) }
    {
        format!(in alloc; "{self}")
    }
}

/// The text with hyphens, in lower case (OPC 10000-6, 5.1.3).
impl fmt::Display for Guid {
    ghost output = { λ g. Some (hyphenated_text lower (digits_of g)) };

    fn fmt<W: fmt::Write>(&self, f: &mut fmt::Formatter<W>) -> fmt::Result {
        write!(f, "{}", Uuid::from_bytes(digits(*self)).hyphenated())
    }
}

/// The sixteen bytes whose digits are the text.
#[tactic(auto, using(crate::proofs::Cells::eight_cells))]
fn digits(guid: Guid) -> [u8; 16]
    ensures { result ≡ digits_of guid }
{
    let a = guid.data1.to_be_bytes();
    let b = guid.data2.to_be_bytes();
    let c = guid.data3.to_be_bytes();
    let d = guid.data4;
    [
        a[0], a[1], a[2], a[3], b[0], b[1], c[0], c[1], d[0], d[1], d[2], d[3], d[4], d[5], d[6],
        d[7],
    ]
}
