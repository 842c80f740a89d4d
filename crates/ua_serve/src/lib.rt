//! A server of several connections at once: one activity, which gives each that is ready a turn, and waits for none.
#![tactic(auto)]

mod connections;
mod lingering;
mod place;
mod sockets;
mod soonest;
mod tcp;

pub use connections::Connections;
pub use place::{Parted, Step};
pub use sockets::{Accepted, Sockets};
pub use tcp::TcpSockets;
