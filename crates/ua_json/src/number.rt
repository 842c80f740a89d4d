//! Truth values and numbers.

use crate::line::Line;
use crate::put::Put;
use ua_value::{DoubleBits, FloatBits, NoMemory};

impl Put for bool {
    fn put(&self, line: &mut Line) -> Result<(), NoMemory> {
        line.boolean(*self)
    }
}

impl Put for i8 {
    fn put(&self, line: &mut Line) -> Result<(), NoMemory> {
        line.signed(i64::from(*self))
    }
}

impl Put for u8 {
    fn put(&self, line: &mut Line) -> Result<(), NoMemory> {
        line.unsigned(u64::from(*self))
    }
}

impl Put for i16 {
    fn put(&self, line: &mut Line) -> Result<(), NoMemory> {
        line.signed(i64::from(*self))
    }
}

impl Put for u16 {
    fn put(&self, line: &mut Line) -> Result<(), NoMemory> {
        line.unsigned(u64::from(*self))
    }
}

impl Put for i32 {
    fn put(&self, line: &mut Line) -> Result<(), NoMemory> {
        line.signed(i64::from(*self))
    }
}

impl Put for u32 {
    fn put(&self, line: &mut Line) -> Result<(), NoMemory> {
        line.unsigned(u64::from(*self))
    }
}

/// A text (OPC 10000-6, 5.4.2.3).
impl Put for i64 {
    fn put(&self, line: &mut Line) -> Result<(), NoMemory> {
        line.signed_text(*self)
    }
}

/// A text (OPC 10000-6, 5.4.2.3).
impl Put for u64 {
    fn put(&self, line: &mut Line) -> Result<(), NoMemory> {
        line.unsigned_text(*self)
    }
}

/// The bit of the sign of a Float.
const FLOAT_SIGN: u32 = 0x8000_0000;

/// The bits of the Float that is infinite; those of greater size are no number.
const FLOAT_INFINITY: u32 = 0x7F80_0000;

/// A number, or a text where it is none or infinite (OPC 10000-6, 5.4.2.4).
#[tactic(auto, using(std::proofs::lemmas::Float::not_nan_f32_bits))]
impl Put for FloatBits {
    fn put(&self, line: &mut Line) -> Result<(), NoMemory> {
        let bits = self.0;
        if bits % FLOAT_SIGN > FLOAT_INFINITY {
            return line.text("NaN");
        }
        let x = f32::from_bits(bits);
        if x.is_finite() {
            return line.float(x);
        }
        line.text(infinity(bits >= FLOAT_SIGN))
    }
}

/// The bit of the sign of a Double.
const DOUBLE_SIGN: u64 = 0x8000_0000_0000_0000;

/// The bits of the Double that is infinite; those of greater size are no number.
const DOUBLE_INFINITY: u64 = 0x7FF0_0000_0000_0000;

/// A number, or a text where it is none or infinite (OPC 10000-6, 5.4.2.4).
#[tactic(auto, using(std::proofs::lemmas::Float::not_nan_f64_bits))]
impl Put for DoubleBits {
    fn put(&self, line: &mut Line) -> Result<(), NoMemory> {
        let bits = self.0;
        if bits % DOUBLE_SIGN > DOUBLE_INFINITY {
            return line.text("NaN");
        }
        let x = f64::from_bits(bits);
        if x.is_finite() {
            return line.float(x);
        }
        line.text(infinity(bits >= DOUBLE_SIGN))
    }
}

/// The text of what is infinite.
fn infinity(is_negative: bool) -> &'static str {
    if is_negative { "-Infinity" } else { "Infinity" }
}
