//! The parts of a stream that came before those in front of them.

ghost use Rattle.std.specs.Prelude.{◌≡◌, ℕ, ◌+◌, ◌<◌, ◌≤◌, ◌^◌, true, false, length, None, IfOk, IfSome, IfNone, IsSome};
ghost use Rattle.std.specs.Option.{option_or};
ghost use Rattle.ua_stream.specs.Piece.{part_of, byte_in, byte_at, held_of, is_full, has_no_room, any_differs};
ghost use Rattle.ua_stream.specs.Run.{Gives, IsAdded};

use crate::part::{PLACES, Part};
use crate::run::run_at;
use std::alloc::{AllocError, Global};

/// The most bytes that one direction keeps out of order: 16 MiB.
pub const MOST_KEPT: usize = 16777216;

/// The most parts that one direction keeps out of order.
pub const MOST_PARTS: usize = 16384;

/// Puts the bytes that the parts have in order from a place on behind those that are ready, and says where they end.
pub(crate) fn advance(parts: &[Part], from: u64, ready: &mut Vec<u8>) -> Result<u64, AllocError>
    requires { from ≤ 2 ^ 62 }
    ensures given { IfOk result (λ to. Gives parts.now from to ready.old.items ready.new.items) }
    ensures gap { IfOk result (λ to. byte_at parts.now to ≡ None) }
    ensures within { IfOk result (λ to. to ≤ 2 ^ 62) }
{
    let mut next = from;
    while let Some(run) = run_at(parts, next) {
        ready.extend_from_slice(run)?;
        next += run.len() as u64;
    }
    Ok(next)
}

/// Whether one part has all bytes between two places.
fn has_all(parts: &[Part], at: u64, end: u64) -> bool
    ensures { result ≡ true → (k : ℕ) → at ≤ k → k < end → IsSome (byte_at parts.now k) }
{
    for part in parts {
        if part.at() <= at && end <= part.end() {
            return true;
        }
    }
    false
}

/// Whether one of the parts has another byte than these at a place that both have.
pub(crate) fn any_differs(parts: &[Part], at: u64, bytes: &[u8]) -> bool
    requires { at ≤ 2 ^ 63 }
    ensures { result ≡ any_differs parts.now (part_of at bytes.now) }
{
    parts.iter().any(|part| part.differs(at, bytes))
}

/// Lets go of the parts that end before a place.
pub(crate) fn drop_behind(parts: &mut Vec<Part>, next: u64)
    ensures { (k : ℕ) → next ≤ k → byte_at parts.new.items k ≡ byte_at parts.old.items k }
{
    let mut i = parts.len();
    while i > 0 {
        i -= 1;
        if parts[i].end() <= next {
            let _ = parts.remove(i);
        }
    }
}

/// How many bytes the parts have.
fn held(parts: &[Part]) -> usize
    ensures { result ≡ held_of parts.now }
{
    parts
        .iter()
        .fold(0usize, |sum, part| sum.saturating_add(part.bytes().len()))
}

/// Whether there is no room for a part with so many bytes.
fn is_full(parts: &[Part], length: usize) -> bool
    ensures { result ≡ is_full parts.now length }
{
    parts.len() >= MOST_PARTS || length > MOST_KEPT || held(parts) > MOST_KEPT - length
}

/// Keeps bytes from a place on behind the parts that came before, unless one of these has them all. `false` says that
/// there is no room, and that nothing changed.
pub(crate) fn keep(
    parts: &mut Vec<Part>,
    alloc: Global,
    at: u64,
    bytes: &[u8],
) -> Result<bool, AllocError>
    requires { at + length bytes.now ≤ 2 ^ 62 }
    ensures kept { IfOk result (λ kept. kept ≡ true → (k : ℕ) → byte_at parts.new.items k ≡ option_or (byte_at parts.old.items k) (byte_in (part_of at bytes.now) k)) }
    ensures full { IfOk result (λ kept. kept ≡ false → is_full parts.old.items (length bytes.now) ≡ true) }
{
    if has_all(parts, at, at + bytes.len() as u64) {
        return Ok(true);
    }
    if is_full(parts, bytes.len()) {
        return Ok(false);
    }
    let part = Part::new(alloc, at, bytes)?;
    parts.push(part)?;
    Ok(true)
}

/// Adds bytes from a place on, which is not in front of the next in order, and puts behind those that are ready what is
/// in order now, up to the place that is answered. `None` says that there is no room for them.
pub(crate) fn add_at(
    parts: &mut Vec<Part>,
    ready: &mut Vec<u8>,
    alloc: Global,
    next: u64,
    at: u64,
    bytes: &[u8],
) -> Result<Option<u64>, AllocError>
    requires ordered { next ≤ at }
    requires most { next ≤ 2 ^ 62 }
    ensures added { IfOk result (λ to. IfSome to (λ to. IsAdded parts.old.items next (part_of at bytes.now) to ready.old.items ready.new.items parts.new.items)) }
    ensures within { IfOk result (λ to. IfSome to (λ to. to ≤ 2 ^ 62)) }
    ensures full { IfOk result (λ to. IfNone to (has_no_room parts.old.items at (length bytes.now) ≡ true)) }
    ensures unchanged { IfOk result (λ to. IfNone to (ready.new.items ≡ ready.old.items)) }
{
    if at > PLACES || PLACES - at < bytes.len() as u64 {
        return Ok(None);
    }
    let before = parts.len();
    if before == 0 && at == next {
        ready.extend_from_slice(bytes)?;
        return Ok(Some(next + bytes.len() as u64));
    }
    let kept = keep(parts, alloc, at, bytes)?;
    if kept {
        let to = advance(parts, next, ready)?;
        drop_behind(parts, to);
        return Ok(Some(to));
    }
    Ok(None)
}
