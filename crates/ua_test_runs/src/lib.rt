//! What the tests of the command share: pages of memory, frames as other programs write them, addresses of this host, and settings. Nothing is
//! promised of it but that it is safe and returns.
#![tactic(auto)]

pub mod addresses;
pub mod pages;
pub mod settings;
pub mod vectors;
