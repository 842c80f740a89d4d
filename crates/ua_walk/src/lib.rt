//! The frames in the bytes of one direction, and the messages that are whole with them, told one after the other, however the
//! bytes come (OPC 10000-6, 6.7.2 and 7.1.2).
#![tactic(auto)]

mod half;
mod parts;
mod teller;
mod walk;
mod walker;

pub use parts::{join, size_of};
pub use teller::Teller;
pub use walk::{LONGEST, MOST_MESSAGE};
pub use walker::{Walker, status_of, walk_whole};
