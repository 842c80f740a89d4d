//! Tests of the library of service bodies, by its public calls alone.
//!
//! Proofs cover what the contracts say; here stands what no clause says: that the formats are those of the standard's examples, that calls succeed
//! where memory is there, and that each growth may be refused.
#![tactic(auto)]

#[cfg(test)]
mod bodies;
#[cfg(test)]
mod fields;
#[cfg(test)]
mod headers;
#[cfg(test)]
mod lists;
#[cfg(test)]
mod memory;
#[cfg(test)]
mod requests;
#[cfg(test)]
mod vectors;
