//! Tests of the library of links: a server and a client, each over one link, by its public calls alone.
//!
//! Proofs cover what the contracts say; here stands what no clause says: that bytes are those of the standard's frames as other programs write them,
//! that calls succeed where memory is there, and that each growth may be refused.
#![tactic(auto)]

#[cfg(test)]
mod links;
#[cfg(test)]
mod loopback;
#[cfg(test)]
mod moments;
#[cfg(test)]
mod reverse;
