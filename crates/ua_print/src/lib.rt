//! Lines for people: texts, node ids and statuses, rows of words and numbers, and the frames in the raw bytes of one direction.
#![tactic(auto)]

mod capture;
mod frame_line;
mod parts;
mod row;
mod status;
mod text;

pub use capture::lines_of;
pub use frame_line::{add_bad, add_frame, add_long, add_rest};
pub use parts::{add_parts, type_of_parts};
pub use status::{NamedCode, status_name};
pub use text::{Code, Text, add_node};
