//! Tests of the client's end of a connection, by the public calls of its library alone.
//!
//! Proofs cover what the contracts say; here stands what no clause says: that bytes are those of the standard's frames as other programs write them,
//! that calls succeed where memory is there, and that each growth may be refused.
#![tactic(auto)]

#[cfg(test)]
mod clients;
#[cfg(test)]
mod great_counts;
#[cfg(test)]
mod hostile;
#[cfg(test)]
mod hostile_answers;
#[cfg(test)]
mod hostile_openings;
#[cfg(test)]
mod hostile_servers;
#[cfg(test)]
mod large_asks;
#[cfg(test)]
mod pending;
#[cfg(test)]
mod reverse_clients;
#[cfg(test)]
mod reverse_refusals;
