//! Tests of what the command says and hears: `serve`, `ask` and `check`, over links and sockets of memory and over loopback.
//!
//! Proofs cover what the contracts say; here stands what no clause says: the lines of connections and answers, byte for byte, the exit statuses, and
//! how long is waited.
#![tactic(auto)]

#[cfg(test)]
mod asking;
#[cfg(test)]
mod checks;
#[cfg(test)]
mod last_words;
#[cfg(test)]
mod many_loopback;
#[cfg(test)]
mod moments;
#[cfg(test)]
mod outgoing;
#[cfg(test)]
mod reverse_asks;
#[cfg(test)]
mod serving;
#[cfg(test)]
mod serving_many;
#[cfg(test)]
mod turns;
#[cfg(test)]
mod waiting;
#[cfg(test)]
mod whole_asks;
