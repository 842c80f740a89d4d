//! Links over sockets that do not block, within a time: connecting, accepting, reading and writing end with it.
#![tactic(auto)]

mod connecting;
mod listening;
mod reason;
mod socket;
mod stream;
mod timed_link;
mod timer;

pub use connecting::connect;
pub use listening::Listener;
pub use reason::Reason;
pub use socket::Socket;
pub use stream::{NotDone, Stream, Wanted};
pub use timed_link::TimedLink;
pub use timer::{Deadline, Timer};
