//! Where the bytes that `show` shows come from.

/// Where the bytes are: those of one direction of a connection, or of a file of packets.
#[derive(Debug, Drop)]
pub enum Capture {
    /// On standard input.
    Input,
    /// In the file at this path.
    File(String),
}
