//! What stands in front of a line.

use std::fmt;

/// The blanks in front of a line.
#[derive(Clone, Copy)]
pub(crate) struct Margin(usize);

impl Margin {
    pub(crate) fn new(blanks: usize) -> Margin {
        Margin(blanks)
    }

    /// That of what stands under the line.
    pub(crate) fn deeper(self) -> Margin {
        Margin(self.0.saturating_add(2))
    }
}

impl fmt::Display for Margin {
    fn fmt<W: fmt::Write>(&self, f: &mut fmt::Formatter<W>) -> fmt::Result {
        for _ in 0..self.0 {
            f.write_str(" ")?;
        }
        Ok(())
    }
}
