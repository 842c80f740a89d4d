//! TCP streams put together from segments in any order (RFC 9293), as a capture has them.
#![tactic(auto)]

mod connection;
mod ends;
mod follow;
mod index;
mod part;
mod parts;
mod run;
mod side;
mod streams;

pub use connection::{Connection, Way};
pub use follow::{Event, next_event};
pub use parts::{MOST_KEPT, MOST_PARTS};
pub use side::Side;
pub use streams::{MOST_CONNECTIONS, Streams};
