//! Whether calls that grow give their full answer, or end for want of memory.

use crate::spelling::{Shown, is_behind};
use std::alloc::{AllocError, Global};
use ua_value::{ReadFault, Wire};

/// Whether what was written stands behind the byte before, all of it, or nothing where memory ran out.
pub fn is_all_or_nothing(wrote: Result<(), AllocError>, out: &[u8], bytes: &[u8]) -> bool {
    match wrote {
        Ok(()) => is_behind(out, bytes),
        Err(_) => is_behind(out, &[]),
    }
}

/// Whether reading, copying and writing the value that the bytes spell goes all the way, or ends for want of memory, where the bytes are its
/// canonical spelling. A vector that this test cannot make leaves nothing to see.
pub fn is_full_or_no_memory<T: Wire>(alloc: Global, bytes: &[u8]) -> bool {
    if bytes.len() > 1000 {
        return false;
    }
    match T::read(alloc, bytes) {
        Ok((value, used)) => {
            used == bytes.len()
                && is_written_or_no_memory(alloc, &value, bytes)
                && is_copied_or_no_memory(alloc, &value, bytes)
        }
        Err(fault) => fault == ReadFault::NoMemory,
    }
}

/// Whether the bytes are written for the value, or nothing where memory ran out.
pub fn is_written_or_no_memory<T: Wire>(alloc: Global, value: &T, canon: &[u8]) -> bool {
    let Ok(mut out) = [7].to_vec(alloc) else {
        return true;
    };
    let wrote = value.write(&mut out);
    is_all_or_nothing(wrote, out.as_slice(), canon)
}

fn is_copied_or_no_memory<T: Wire>(alloc: Global, value: &T, canon: &[u8]) -> bool {
    match value.copy() {
        Ok(copy) => is_written_or_no_memory(alloc, &copy, canon),
        Err(_) => true,
    }
}

/// Whether what was made shows what is wanted, or memory ran out, of which this is the fault.
pub fn is_shown_or_no_memory<T: Drop, F: PartialEq + Drop, W: Shown<T>>(
    made: Result<T, F>,
    want: &W,
    no_memory: F,
) -> bool {
    match made {
        Ok(value) => want.is_shown(&value),
        Err(fault) => fault == no_memory,
    }
}
