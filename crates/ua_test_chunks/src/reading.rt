//! Chunks that tests read of bytes.

use ua_chunk::{Chunk, OpenChunk, message_chunk, open_chunk};
use ua_frame::{Frame, frame_at};

/// The whole frame that the bytes begin with, if there is one.
fn whole(bytes: &[u8]) -> Option<Frame<'_>> {
    match frame_at(bytes, 65535) {
        Ok(frame) => frame,
        Err(_) => None,
    }
}

/// No status of a refusal.
pub(crate) const NO_FRAME: u32 = 0;

/// The chunk of a MSG or CLO, or why it is refused; `NO_FRAME` where there is no whole frame.
pub(crate) fn chunk_at(bytes: &[u8]) -> Result<Chunk<'_>, u32> {
    match whole(bytes) {
        Some(frame) => message_chunk(&frame),
        None => Err(NO_FRAME),
    }
}

/// The chunk of an OPN, or why it is refused; `NO_FRAME` where there is no whole frame.
pub(crate) fn open_at(bytes: &[u8]) -> Result<OpenChunk<'_>, u32> {
    match whole(bytes) {
        Some(frame) => open_chunk(&frame),
        None => Err(NO_FRAME),
    }
}
