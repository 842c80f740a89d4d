//! Tests of the library of variants, by its public calls alone.
//!
//! Proofs cover what the contracts say; here stands what no clause says: that the formats are those of the standard's examples, that calls succeed
//! where memory is there, and that each growth may be refused.
#![tactic(auto)]

#[cfg(test)]
mod by_parts;
#[cfg(test)]
mod counts;
#[cfg(test)]
mod depth;
#[cfg(test)]
mod given;
#[cfg(test)]
mod making;
#[cfg(test)]
mod memory;
#[cfg(test)]
mod number_data;
#[cfg(test)]
mod sinks;
#[cfg(test)]
mod variants;
