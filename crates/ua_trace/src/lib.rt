//! What the connections in a file of packets say, line by line: their TCP streams put together, and the frames in these
//! (RFC 9293; OPC 10000-6, 6.7.2 and 7.1.2).
#![tactic(auto)]

mod answer;
mod choice;
mod lane;
mod place;
mod talk;
mod trace;
mod whole;

pub use choice::Choice;
pub use trace::Trace;
pub use ua_capture::is_capture;
pub use whole::whole_lines_of;
