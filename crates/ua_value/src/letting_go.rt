//! Letting go of what is owned.

/// Drops a value before an early return.
///
/// A value that is owned over `return` or `?` is dropped on each of these ways out, and the prover follows every drop
/// with all that the function knows by then. Letting go of it first, in one call, keeps those proofs short.
pub fn let_go<T: Drop>(_value: T) {}
