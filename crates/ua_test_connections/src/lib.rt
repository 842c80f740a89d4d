//! Tests of connections that take turns, one of them and several at once, by the public calls of their libraries alone.
//!
//! Proofs cover what the contracts say; here stands what no clause says: that bytes are those of the standard's frames as other programs write them,
//! that calls succeed where memory is there, and that each growth may be refused.
#![tactic(auto)]

#[cfg(test)]
mod accepting;
#[cfg(test)]
mod connection_bounds;
#[cfg(test)]
mod connection_ends;
#[cfg(test)]
mod connection_schedules;
#[cfg(test)]
mod connections;
#[cfg(test)]
mod crowds;
#[cfg(test)]
mod lingering;
#[cfg(test)]
mod many_connections;
#[cfg(test)]
mod patience;
#[cfg(test)]
mod ready_links;
