//! Both ends of an unsecured channel: which frames each admits, the tokens that the server issues and the client is
//! granted, and which token each sends with. OPC 10000-6, 6.7 and OPC 10000-4, 5.6.2.
#![tactic(auto)]

mod channel;
mod client;
mod newest;
mod rules;
pub mod status;
mod token;

pub use channel::{Issued, ServerChannel};
pub use client::ClientChannel;
pub use token::Token;
