//! A message whose parts lie apart.

ghost use Rattle.std.specs.Prelude.{◌≡◌, ◌++◌, length, IfOk, OnOk};
ghost use Rattle.ua_walk.specs.Parts.{joined};

use std::alloc::{AllocError, Global};
use ua_value::NoMemory;

/// How many bytes the parts have.
///
/// # Errors
///
/// `NoMemory` where there are more than 64 bits can say, which no machine holds.
pub fn size_of(parts: &[&[u8]]) -> Result<usize, NoMemory>
    ensures { IfOk result (λ n. n ≡ length (joined parts.now)) }
{
    let mut size: usize = 0;
    'parts: for part in parts {
        match size.checked_add(part.len()) {
            Some(more) => size = more,
            None => return Err(AllocError),
        }
    }
    Ok(size)
}

/// Appends the parts, one behind the other.
pub(crate) fn append(whole: &mut Vec<u8>, parts: &[&[u8]]) -> Result<(), NoMemory>
    ensures { OnOk result (whole.new.items ≡ whole.old.items ++ joined parts.now) }
{
    'parts: for part in parts {
        whole.extend_from_slice(part)?;
    }
    Ok(())
}

/// The parts as one, which has room for so many bytes from the start.
///
/// # Errors
///
/// `NoMemory` where a growth was refused.
pub fn join(alloc: Global, parts: &[&[u8]], size: usize) -> Result<Vec<u8>, NoMemory>
    ensures { IfOk result (λ whole. whole.items ≡ joined parts.now) }
{
    let mut whole = Vec::with_capacity(alloc, size)?;
    match append(&mut whole, parts) {
        Ok(()) => Ok(whole),
        Err(e) => Err(e),
    }
}
