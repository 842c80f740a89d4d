//! What the tests of several libraries share: frames as other programs write them, bytes that are made of others, and whether bytes spell a value.
//! Nothing is promised of it but that it is safe and returns.
#![tactic(auto)]

pub mod applications;
pub mod bytes;
pub mod lending;
pub mod memory;
pub mod parts;
pub mod pieces;
pub mod spelling;
pub mod vectors;
