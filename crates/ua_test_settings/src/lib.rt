//! Tests of the library of settings and of what they answer, by its public calls alone.
//!
//! Proofs cover what the contracts say; here stands what no clause says: that bytes are those of the standard's frames as other programs write them,
//! that calls succeed where memory is there, and that each growth may be refused.
#![tactic(auto)]

#[cfg(test)]
mod answers;
#[cfg(test)]
mod applications;
#[cfg(test)]
mod by_parts;
#[cfg(test)]
mod choices;
#[cfg(test)]
mod keys;
#[cfg(test)]
mod locales;
#[cfg(test)]
mod made_settings;
#[cfg(test)]
mod memory;
#[cfg(test)]
mod settings;
#[cfg(test)]
mod sinks;
#[cfg(test)]
mod versions;
