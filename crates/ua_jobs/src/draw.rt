//! Numbers that follow from the first one (splitmix64), and bytes of them.

use crate::digest::{Failed, filled};
use std::alloc::Global;

#[derive(Clone, Copy)]
pub struct Draw(u64);

impl Draw {
    /// The numbers that follow from this one.
    pub fn new(number: u32) -> Draw {
        Draw(u64::from(number))
    }

    /// The next number.
    pub fn next(&mut self) -> u64 {
        self.0 = self.0.wrapping_add(0x9E37_79B9_7F4A_7C15);
        let n = (self.0 ^ (self.0 >> 30)).wrapping_mul(0xBF58_476D_1CE4_E5B9);
        let n = (n ^ (n >> 27)).wrapping_mul(0x94D0_49BB_1331_11EB);
        n ^ (n >> 31)
    }

    /// The upper half of the next number.
    pub fn half(&mut self) -> u32 {
        (self.next() >> 32) as u32
    }

    /// A number below `most`, or 0 where that is 0.
    pub fn below(&mut self, most: u32) -> u32 {
        let n = self.half();
        if most == 0 { 0 } else { n % most }
    }
}

/// Bytes that are drawn once, and lent in pieces.
#[derive(Drop)]
pub struct Pool {
    bytes: Vec<u8>,
}

/// Bytes of a pool.
const POOL: usize = 262_144;

/// The digits of hex, in lower case.
const DIGITS: [u8; 16] = *b"0123456789abcdef";

/// A hex digit.
pub fn digit(n: u64) -> u8 {
    DIGITS[(n % 16) as usize]
}

fn put_drawn(bytes: &mut Vec<u8>, draw: &mut Draw) -> Result<(), Failed> {
    for _ in 0..POOL / 16 {
        let mut n = draw.next();
        for _ in 0..16 {
            bytes.push(digit(n))?;
            n >>= 4;
        }
    }
    Ok(())
}

impl Pool {
    /// Digits of hex.
    pub fn of_digits(alloc: Global, draw: &mut Draw) -> Result<Pool, Failed> {
        let mut bytes = Vec::new(alloc);
        let done = put_drawn(&mut bytes, draw);
        filled(Pool { bytes }, done)
    }

    /// So many of the bytes, from a drawn even place on; at most half of them.
    pub fn some(&self, draw: &mut Draw, len: usize) -> &[u8] {
        let half = self.bytes.len() / 2;
        let start = (draw.below(60_000) as usize * 2).min(half);
        let rest = &self.bytes[start..];
        &rest[..len.min(rest.len())]
    }
}
