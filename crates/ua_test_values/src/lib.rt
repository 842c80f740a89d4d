//! Tests of the libraries of values and of frames, by their public calls alone.
//!
//! Proofs cover what the contracts say; here stands what no clause says: that the formats are those of the standard's examples, that calls succeed
//! where memory is there, and that each growth may be refused.
#![tactic(auto)]

#[cfg(test)]
mod arrays;
#[cfg(test)]
mod buffer;
#[cfg(test)]
mod counts;
#[cfg(test)]
mod frames;
#[cfg(test)]
mod memory;
#[cfg(test)]
mod names;
#[cfg(test)]
mod nodes;
#[cfg(test)]
mod number_arrays;
#[cfg(test)]
mod numbers;
#[cfg(test)]
mod parts;
#[cfg(test)]
mod short_texts;
#[cfg(test)]
mod texts;
