//! Tests of the libraries of chunks and channels, by their public calls alone.
//!
//! Proofs cover what the contracts say; here stands what no clause says: that bytes are those of the standard's frames as other programs write them,
//! that calls succeed where memory is there, and that each growth may be refused.
#![tactic(auto)]

#[cfg(test)]
mod assembling;
#[cfg(test)]
mod channel;
#[cfg(test)]
mod chunks;
#[cfg(test)]
mod client_channel;
#[cfg(test)]
mod memory;
#[cfg(test)]
mod reading;
#[cfg(test)]
mod writing;
