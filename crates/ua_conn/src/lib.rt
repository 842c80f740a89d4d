//! Both ends of a connection: what each owes to a stream of bytes, the server and the client, and what they say to each
//! other.
#![tactic(auto)]

mod bytes;
mod client;
mod content;
mod conversation;
pub mod laws;
mod limits;
mod lists;
mod outcome;
mod schedule;
mod server;
mod status;
mod story;

pub use client::{Answer, AnswerResult, AskFault, Client, ClientConfig, ClientFault};
pub use conversation::converse;
pub use outcome::{End, Outcome};
pub use schedule::Step;
pub use server::{
    Fed, FeedFault, ReverseFault, Server, answer_all, answer_all_reverse, can_open, reply_all,
    reply_all_reverse,
};
pub use story::{Setup, Story};
