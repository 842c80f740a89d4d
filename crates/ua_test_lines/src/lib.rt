//! Tests of the lines for people, by the public calls alone. Bytes and lines are made by hand.
#![tactic(auto)]

#[cfg(test)]
mod arrays;
#[cfg(test)]
mod deep;
#[cfg(test)]
mod memory;
#[cfg(test)]
mod nested;
#[cfg(test)]
mod plain;
#[cfg(test)]
mod servers;
#[cfg(test)]
mod statuses;
#[cfg(test)]
mod telling;
