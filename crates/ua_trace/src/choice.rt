//! Which connections are shown, and how.

use ua_stream::Connection;

/// Which connections are shown, and how.
#[derive(Clone, Copy, Debug, PartialEq, Eq)]
pub struct Choice {
    /// The number of the one connection that is shown, whatever its ports are where none is named.
    pub stream: Option<u32>,
    /// The port that one end of a connection has.
    pub port: Option<u16>,
    /// Whether lines are objects of JSON.
    pub json: bool,
    /// Whether under the line of each answer all stands that the server said; among objects of JSON it never does.
    pub all: bool,
}

/// Whether a connection is shown.
#[derive(Clone, Copy, Debug, PartialEq, Eq)]
pub(crate) enum Shown {
    /// Its first bytes will tell.
    Unknown,
    Yes,
    No,
}

/// The registered port of OPC UA over TCP (OPC 10000-6, 7.2).
const PORT: u16 = 4840;

/// Whether one end of a connection has this port.
fn has_port(connection: &Connection, port: u16) -> bool {
    connection.first().port == port || connection.other().port == port
}

impl Choice {
    /// Whether the connection with this number is shown, as far as its number and its ports tell.
    pub(crate) fn shows(&self, number: usize, connection: &Connection) -> Shown {
        let is_of_port = has_port(connection, self.port.unwrap_or(PORT));
        match self.stream {
            Some(stream) if stream as usize != number => Shown::No,
            Some(_) if self.port.is_none() => Shown::Yes,
            _ if is_of_port => Shown::Yes,
            None if self.port.is_none() => Shown::Unknown,
            _ => Shown::No,
        }
    }
}
