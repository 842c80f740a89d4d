//! Parts of a moment that are smaller than its tick.

ghost use Rattle.std.specs.Prelude.{◌≡◌};
ghost use Rattle.ua_variant.specs.Picoseconds.{capped, picoseconds, lawful_picoseconds};

use std::alloc::Global;
use std::marker::Model;
use ua_value::{NoMemory, ReadFault, Sink, Wire};

/// The greatest number of picoseconds, in steps of 10.
const MOST_PICOSECONDS: u16 = 9999;

/// A part of a DateTime's step, in steps of 10 picoseconds (OPC 10000-6, 5.2.2.17); at most 9999.
#[derive(Debug, Drop)]
pub(crate) struct Picoseconds {
    tens: u16,
}

impl Model for Picoseconds {
    ghost use Rattle.std.specs.Prelude.{ℕ, ◌≤◌};
    ghost use Rattle.ua_variant.specs.Picoseconds.{most_picoseconds};

    ghost Value = { ℕ };

    ghost view = { λ p. p.tens };

    ghost invariant = { λ p. p.tens ≤ most_picoseconds };
}

impl Picoseconds {
    /// The number, or the greatest where it is greater.
    pub(crate) fn capped(tens: u16) -> Picoseconds
        ensures { result ≡ capped tens }
    {
        if tens > MOST_PICOSECONDS {
            return Picoseconds {
                tens: MOST_PICOSECONDS,
            };
        }
        Picoseconds { tens }
    }

    pub(crate) fn tens(&self) -> u16
        ensures { result ≡ self.now }
    {
        self.tens
    }
}

#[tactic(auto, unfolding(crate::specs::Picoseconds::picoseconds))]
impl Wire for Picoseconds {
    ghost format = { picoseconds };

    ghost most = { 2 };

    ghost Grows = { ⊥ };

    fn len(&self) -> u64 {
        self.tens.len()
    }

    fn emit<S: Sink>(&self, out: &mut S) -> Result<(), NoMemory> {
        self.tens.emit(out)
    }

    fn copy(&self) -> Result<Picoseconds, NoMemory> {
        Ok(Picoseconds { tens: self.tens })
    }

    #[inline(always)]
    fn read_front(alloc: Global, input: &[u8]) -> Result<(Picoseconds, &[u8]), ReadFault> {
        let (tens, rest) = u16::read_front(alloc, input)?;
        Ok((Picoseconds::capped(tens), rest))
    }

    ghost laws = { lawful_picoseconds };
}
