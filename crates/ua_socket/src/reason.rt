//! Why there is no connection, or why one failed.

use std::io;

/// Why there is no connection, or why one failed.
#[derive(Clone, Copy, Debug)]
pub enum Reason {
    /// A text is no address and port, or the name of its host could not be looked up.
    Address(io::Error),
    /// The system refused a call.
    System(io::Error),
    /// The time was over.
    Late,
    /// A stream took none of some bytes, or said "not now" too often.
    Stuck,
    /// A growth was refused.
    NoMemory,
}
