//! Chunks of messages: their headers, sequence numbers, assembly and aborts; messages that are written in chunks.
#![tactic(auto)]

mod abort;
mod assembly;
mod chunk;
mod content;
mod cutting;
pub mod laws;
mod message;
mod opening;
mod sequence;
mod writing;

pub use assembly::{Added, Assembly};
pub use chunk::{Chunk, message_chunk};
pub use content::{Content, ContentFault, content_of};
pub use message::{chunk_count, write_chunks, write_measured, write_message};
pub use opening::{OpenChunk, open_chunk};
pub use sequence::{Sequence, follows};
pub use ua_frame::POLICY_NONE;
pub use writing::{CHUNK_HEADER, Head, write_abort, write_close, write_open};
