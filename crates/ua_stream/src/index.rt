//! By what the last connection between two ends is found.

ghost use Rattle.std.specs.Prelude.{◌≡◌, OnOk, OnErr};
ghost use Rattle.ua_stream.specs.Index.{number_in, IsKept, IsUnchanged, IsEmpty};

use crate::ends::{Ends, ends_of};
use std::alloc::{AllocError, Global};
use std::collections::BTreeMap;
use ua_capture::Endpoint;

/// A number for some two ends each. It is found in a count of steps that grows with the logarithm of theirs, whatever
/// addresses and ports a file has.
#[derive(Drop)]
pub(crate) struct Index {
    numbers: BTreeMap<Ends, usize>,
}

impl Index {
    /// No numbers. It takes no memory.
    pub(crate) fn new(alloc: Global) -> Index
        ensures { IsEmpty result }
    {
        Index {
            numbers: BTreeMap::new(alloc),
        }
    }

    /// The number that is kept for two ends, in whichever order they are named.
    pub(crate) fn get(&self, one: Endpoint, other: Endpoint) -> Option<usize>
        ensures { result ≡ number_in self.now one other }
    {
        self.numbers.get(&ends_of(one, other)).copied()
    }

    /// Keeps a number for two ends, in the place of one that was kept for them.
    ///
    /// # Errors
    ///
    /// Where memory is refused: nothing changed then.
    pub(crate) fn put(
        &mut self,
        one: Endpoint,
        other: Endpoint,
        number: usize,
    ) -> Result<(), AllocError>
        ensures kept { OnOk result (IsKept self.old one other number self.new) }
        ensures unchanged { OnErr result (IsUnchanged self.old self.new) }
    {
        self.numbers.insert(ends_of(one, other), number)?;
        Ok(())
    }
}
