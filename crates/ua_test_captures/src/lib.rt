//! Tests of the libraries of captures and streams, by their public calls alone, over files that are made byte by byte.
#![tactic(auto)]

#[cfg(test)]
mod connections;
#[cfg(test)]
mod faults;
#[cfg(test)]
mod following;
#[cfg(test)]
mod links;
#[cfg(test)]
mod making;
#[cfg(test)]
mod memory;
#[cfg(test)]
mod moments;
#[cfg(test)]
mod order;
#[cfg(test)]
mod reading;
