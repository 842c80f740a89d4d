//! Links that can fail, and the ends of connections over them.
#![tactic(auto)]

mod client_turn;
mod clock;
mod connection;
mod front;
mod link;
mod memory_link;
mod ready_link;
mod ready_stream;
mod sending;
mod serving;
mod tcp_link;
mod turn;
mod waiting;

pub use client_turn::{ClientTurn, pump_client, send_output};
pub use clock::{Clock, MachineClock, SteadyClock};
pub use connection::{Over, ReadyTurn, ServerConnection};
pub use link::{Link, LinkFault};
pub use memory_link::MemoryLink;
pub use ready_link::{Call, ReadyLink};
pub use ready_stream::{EndOutput, ReadyStream};
pub use serving::{Report, serve_connection, serve_connection_reverse};
pub use tcp_link::TcpLink;
pub use turn::{Turn, pump};
