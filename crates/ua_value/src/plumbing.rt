//! What structures are made of, for the crates that define more of them: fields read and put in turn, parts that a flag
//! says are there, numbers and texts lent from the front of bytes, and limits of lengths.

pub use crate::bytes::{LONGEST, bytes_front};
pub use crate::fields::{Fields, Parts, Raw, Then, copy_three, copy_two, read_part, read_whole};
pub use crate::letting_go::let_go;
pub use crate::number::front_u32;
pub use crate::text::{LONGEST_URL, string_front};
pub use crate::texts::MOST_TEXTS;
