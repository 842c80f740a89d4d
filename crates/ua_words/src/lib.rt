//! The words of `uadisc`: what a command line asks for.
#![tactic(auto)]

mod capture;
mod command;
mod form;
mod question;
mod source;
mod type_names;

pub use capture::Capture;
pub use command::{Command, WordsFault, command_of};
pub use form::Form;
pub use question::Question;
pub use source::Source;
