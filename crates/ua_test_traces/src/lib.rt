//! Tests of the lines of files of packets, by public calls alone, over files that are made byte by byte.
#![tactic(auto)]

#[cfg(test)]
mod answers;
#[cfg(test)]
mod connections;
#[cfg(test)]
mod files;
#[cfg(test)]
mod json;
#[cfg(test)]
mod late;
#[cfg(test)]
mod limits;
#[cfg(test)]
mod making;
#[cfg(test)]
mod memory;
#[cfg(test)]
mod mutations;
#[cfg(test)]
mod showing;
#[cfg(test)]
mod walks;
#[cfg(test)]
mod ways;
