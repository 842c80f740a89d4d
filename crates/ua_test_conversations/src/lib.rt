//! Tests of conversations of both ends of a connection, by the public calls of their library alone.
//!
//! Proofs cover what the contracts say; here stands what no clause says: that bytes are those of the standard's frames as other programs write them,
//! that calls succeed where memory is there, and that each growth may be refused.
#![tactic(auto)]

#[cfg(test)]
mod embedding;
#[cfg(test)]
mod reverse_stories;
#[cfg(test)]
mod rounds;
#[cfg(test)]
mod schedules;
#[cfg(test)]
mod stories;
#[cfg(test)]
mod telling;
