//! Tests of what is said of two offers, by the public calls alone, over descriptions that are spelled byte by byte.
#![tactic(auto)]

#[cfg(test)]
mod applications;
#[cfg(test)]
mod endpoints;
#[cfg(test)]
mod making;
#[cfg(test)]
mod memory;
