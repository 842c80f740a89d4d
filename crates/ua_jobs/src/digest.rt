//! A digest of all results, and why there is none.

use std::alloc::{AllocError, AllocFailed};

/// A step of a job failed.
#[derive(Clone, Copy, Debug)]
pub struct Failed;

impl From<AllocError> for Failed {
    fn from(_e: AllocError) -> Failed {
        Failed
    }
}

impl<T: Drop> From<AllocFailed<T>> for Failed {
    fn from(_e: AllocFailed<T>) -> Failed {
        Failed
    }
}

/// A number over all that was added, in its order.
#[derive(Clone, Copy)]
pub struct Digest(u64);

/// An odd number.
const FACTOR: u64 = 0x9E37_79B9_7F4A_7C15;

/// The number that follows from a number and one more. Each of the two is had back from it and the other one, and it
/// matters which came first, however far they stand apart: the product carries what differs into other bits.
fn mixed(number: u64, more: u64) -> u64 {
    (number ^ more).wrapping_mul(FACTOR).rotate_left(29)
}

impl Digest {
    /// The digest of nothing.
    pub fn new() -> Digest {
        Digest(FACTOR)
    }

    /// Its number.
    pub fn number(&self) -> u64 {
        self.0
    }

    /// Adds a number.
    pub fn add(&mut self, n: u64) {
        self.0 = mixed(self.0, n);
    }

    /// Adds a number with a sign.
    pub fn add_signed(&mut self, n: i64) {
        self.add(u64::from_le_bytes(n.to_le_bytes()));
    }

    /// Adds that there is nothing, in place of bytes, of how many items there are or of an end.
    pub fn add_none(&mut self) {
        self.add(u64::MAX);
    }

    /// Adds the bytes, thirty-two at a time in four numbers of their own, and how many they are. It costs little beside
    /// what made them.
    pub fn add_bytes(&mut self, bytes: &[u8]) {
        let (words, rest) = bytes.as_chunks::<8>();
        let (fours, few) = words.as_chunks::<4>();
        let (mut a, mut b, mut c, mut d) = (1u64, 2u64, 3u64, 4u64);
        for [e, f, g, h] in fours {
            a = mixed(a, u64::from_le_bytes(*e));
            b = mixed(b, u64::from_le_bytes(*f));
            c = mixed(c, u64::from_le_bytes(*g));
            d = mixed(d, u64::from_le_bytes(*h));
        }
        for number in [a, b, c, d] {
            self.add(number);
        }
        for word in few {
            self.add(u64::from_le_bytes(*word));
        }
        for byte in rest {
            self.add(u64::from(*byte));
        }
        self.add(bytes.len() as u64);
    }
}

/// What is done with something that was made.
pub trait Work<T> {
    fn run(self, lent: &mut T) -> Result<(), Failed>;
}

/// Does the work with what was made, which is owned here alone: of a `T` the proof follows nothing.
pub fn lend<T: Drop, E: Drop, W: Work<T> + Drop>(
    made: Result<T, E>,
    work: W,
) -> Result<(), Failed> {
    match made {
        Ok(mut lent) => work.run(&mut lent),
        Err(_) => Err(Failed),
    }
}

/// Adds a frame that was made.
pub fn push_made<T: Drop>(frames: &mut Vec<T>, made: Result<T, Failed>) -> Result<(), Failed> {
    match made {
        Ok(frame) => {
            frames.push(frame)?;
            Ok(())
        }
        Err(Failed) => Err(Failed),
    }
}

/// The value, where it was filled.
pub fn filled<T: Drop>(value: T, done: Result<(), Failed>) -> Result<T, Failed> {
    match done {
        Ok(()) => Ok(value),
        Err(Failed) => Err(Failed),
    }
}
