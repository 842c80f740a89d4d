//! How a connection ends, and what a whole one is answered.

use ua_service::Request;

/// How a connection came to its end.
#[derive(Clone, Copy, Debug, PartialEq, Eq)]
pub enum End {
    /// A close request came (OPC 10000-4, 5.6.3).
    Closed,
    /// The input ended behind a whole frame, or before the first byte.
    InputEnded,
    /// The input ended within a frame.
    Truncated,
    /// A frame was refused with this status (OPC 10000-6, 7.1.2.5).
    Refused(u32),
    /// The link failed.
    LinkFailed,
    /// The turns that were given are spent.
    TurnsSpent,
    /// Memory ran out.
    NoMemory,
}

/// What the server's end of a connection answers to a whole input, and how it ends.
#[derive(Drop)]
pub struct Outcome {
    /// The bytes of all frames that the server writes, in order.
    pub reply: Vec<u8>,
    /// The requests that the input made whole, in order.
    pub handed: Vec<Request>,
    /// How the connection ended.
    pub end: End,
}
