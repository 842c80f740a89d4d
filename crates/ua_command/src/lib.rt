//! The command `uadisc`, over any reader, writers and links: what its words ask for, and what it prints, tells and answers.
#![tactic(auto)]

mod answer;
mod ask;
mod begun;
mod check;
mod ending;
mod file;
mod input;
mod limits;
pub mod run;
mod saying;
mod script;
mod search;
mod serve;
mod settings;
mod show;
mod stop;
mod value;
mod why;

pub use ask::inquiry::Inquiry;
pub use ask::{ask_as, ask_over};
pub use check::check_over;
pub use limits::{say_limits, say_of_limits};
pub use saying::say_why;
pub use serve::many::{Crowd, serve_many, serve_sockets};
pub use serve::{serve_on, serve_to, status_with};
pub use stop::Stop;
pub use ua_words::{Capture, Command, Form, Question, Source, WordsFault, command_of};
pub use why::{Broken, Why};
