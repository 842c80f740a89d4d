//! Settings that tests of several libraries read of a text, and lend to what judges them. Nothing is promised of it but that it is safe and returns.
#![tactic(auto)]

mod settings;

pub use settings::{by_default, by_settings, hundred_endpoints};
