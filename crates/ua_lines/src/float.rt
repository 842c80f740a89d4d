//! Floating point numbers as texts: the shortest decimal that reads back.

use std::fmt;
use std::num::{f32_from_bits_with_nan, f64_from_bits_with_nan};
use ua_value::{DoubleBits, FloatBits};

/// A number of single precision: as `1.5`, `1e30`, `inf` and `-inf`; behind `NaN` stand its bits in hex.
#[derive(Clone, Copy)]
pub(crate) struct Single(pub(crate) FloatBits);

impl fmt::Display for Single {
    fn fmt<W: fmt::Write>(&self, f: &mut fmt::Formatter<W>) -> fmt::Result {
        let bits = self.0.0;
        let number = f32_from_bits_with_nan(bits);
        if number != number {
            return write!(f, "NaN {bits:08x}");
        }
        write!(f, "{number:?}")
    }
}

/// A number of double precision, in the same way.
#[derive(Clone, Copy)]
pub(crate) struct Double(pub(crate) DoubleBits);

impl fmt::Display for Double {
    fn fmt<W: fmt::Write>(&self, f: &mut fmt::Formatter<W>) -> fmt::Result {
        let bits = self.0.0;
        let number = f64_from_bits_with_nan(bits);
        if number != number {
            return write!(f, "NaN {bits:016x}");
        }
        write!(f, "{number:?}")
    }
}
