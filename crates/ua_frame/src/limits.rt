//! The limits of one end.

/// Bytes of the smallest buffer that an end may have, and of the longest frame before an Acknowledge. OPC 10000-6,
/// 7.1.2.3 and 7.1.2.4.
pub const LEAST_BUFFER: u32 = 8192;

/// Bytes of the largest buffer of an end here.
pub const MOST_BUFFER: u32 = 1_048_576;

/// What a server takes and sends. OPC 10000-6, 7.1.2.3 and 7.1.2.4.
#[derive(Clone, Copy, Debug, PartialEq, Eq)]
pub struct Limits {
    /// Bytes of the longest frame that it takes.
    pub receive: u32,
    /// Bytes of the longest frame that it sends.
    pub send: u32,
    /// Bytes of the longest message that it takes: of the bodies of its chunks together.
    pub max_message: u32,
    /// The most chunks of a message that it takes.
    pub max_chunks: u32,
}
