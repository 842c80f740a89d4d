//! What a client and a server agreed on.

use ua_frame::Ack;

/// What the Acknowledge says, and, for answers alone, the two limits of the Hello itself. OPC 10000-6, 7.1.2.3 and
/// 7.1.2.4.
#[derive(Clone, Copy)]
pub(crate) struct Agreed {
    pub ack: Ack,
    /// Bytes of the longest answer, or 0 for no limit.
    pub answer_bytes: u32,
    /// The most chunks of an answer, or 0 for no limit.
    pub answer_parts: u32,
}
