//! A link over a stream, as one of TCP.

ghost use Rattle.std.specs.Prelude.{◌≡◌};

use crate::link::{Link, LinkFault};
use std::io::{Read, Write};
use std::net::TcpStream;

/// A link over a stream of the host's. It tells its count of faults alone: what a socket carries is not known.
#[derive(Drop)]
pub struct TcpLink<S = TcpStream> {
    stream: S,
    failures: u64,
}

impl<S> TcpLink<S> {
    /// A link over this stream, which has not failed yet.
    pub fn new(stream: S) -> TcpLink<S>
        ensures { result.failures ≡ 0 }
    {
        TcpLink {
            stream,
            failures: 0,
        }
    }
}

impl<S: Read + Write> Link for TcpLink<S> {
    ghost fault_count = { λ l. l.failures };

    /// Reads from the stream once.
    ///
    /// # Errors
    ///
    /// `LinkFault` where the read fails. It is counted.
    fn recv(&mut self, buf: &mut [u8]) -> Result<usize, LinkFault> {
        match self.stream.read(buf) {
            Ok(n) => Ok(n),
            Err(_) => {
                self.failures += 1;
                Err(LinkFault)
            }
        }
    }

    /// Writes to the stream once.
    ///
    /// # Errors
    ///
    /// `LinkFault` where the write fails, and where the stream takes none of some bytes. It is counted.
    fn send(&mut self, bytes: &[u8]) -> Result<usize, LinkFault> {
        match self.stream.write(bytes) {
            Ok(n) if n > 0 || bytes.is_empty() => Ok(n),
            _ => {
                self.failures += 1;
                Err(LinkFault)
            }
        }
    }

    fn failures(&self) -> u64 {
        self.failures
    }
}
