//! Answers of the calls.

use std::alloc::Global;
use ua_value::ReadFault;

/// The input is refused.
pub(crate) const REFUSED: i64 = -1;

/// A growth was refused.
pub(crate) const NO_MEMORY: i64 = -2;

/// The output is too short.
pub(crate) const SHORT: i64 = -3;

/// An argument is out of range.
pub(crate) const BAD: i64 = -4;

/// Why nothing was read, as an answer.
pub(crate) fn fault_answer(fault: ReadFault) -> i64 {
    match fault {
        ReadFault::Refused => REFUSED,
        ReadFault::NoMemory => NO_MEMORY,
    }
}

/// Gives the bytes where they are wanted, and the answer.
pub(crate) fn give(bytes: &[u8], answer: i64, out: &mut [u8]) -> i64 {
    if out.is_empty() {
        return answer;
    }
    let n = bytes.len();
    if n > out.len() {
        return SHORT;
    }
    out[..n].copy_from_slice(bytes);
    answer
}

/// A length as an answer.
pub(crate) fn counted(n: usize) -> i64 {
    i64::try_from(n).unwrap_or(BAD)
}

/// Two lengths as an answer.
pub(crate) fn pair(high: usize, low: usize) -> i64 {
    let low = counted(low);
    counted(high).wrapping_mul(4_294_967_296).wrapping_add(low)
}

/// What was delivered: how many bytes, and the bytes where they are wanted.
#[derive(Drop)]
pub(crate) struct Log {
    bytes: Vec<u8>,
    wanted: bool,
    len: usize,
}

impl Log {
    pub(crate) fn new(alloc: Global, wanted: bool) -> Log {
        Log {
            bytes: Vec::new(alloc),
            wanted,
            len: 0,
        }
    }

    /// Forgets all.
    pub(crate) fn clear(&mut self) {
        self.bytes.clear();
        self.len = 0;
    }

    pub(crate) fn add(&mut self, bytes: &[u8]) -> Result<(), i64> {
        self.len = self.len.wrapping_add(bytes.len());
        if !self.wanted {
            return Ok(());
        }
        self.bytes.extend_from_slice(bytes).map_err(|_| NO_MEMORY)
    }

    /// Gives the bytes where they are wanted; the answer is `high` and how many they are.
    pub(crate) fn give(&self, high: usize, out: &mut [u8]) -> i64 {
        give(&self.bytes, pair(high, self.len), out)
    }
}
