//! A link over a stream that does not wait, as one of TCP may be made.

ghost use Rattle.std.specs.Prelude.{◌≡◌};

use crate::link::LinkFault;
use crate::ready_link::ReadyLink;
use mio::net::TcpStream;
use std::io;
use std::io::{Read, Write};
use std::net::Shutdown;

/// A stream that can tell the other end that no more bytes come.
pub trait EndOutput {
    /// Tells it so. A failure is passed over.
    fn end_output(&mut self);
}

impl EndOutput for TcpStream {
    /// Shuts the side that writes.
    fn end_output(&mut self) {
        let _ = self.shutdown(Shutdown::Write);
    }
}

/// A link over a stream of the host's that does not wait. It tells its count of faults alone: what a socket carries is
/// not known.
#[derive(Drop)]
pub struct ReadyStream<S> {
    stream: S,
    failures: u64,
}

impl<S> ReadyStream<S> {
    /// A link over this stream, which was told not to wait, and has not failed yet.
    pub fn new(stream: S) -> ReadyStream<S>
        ensures { result.failures ≡ 0 }
    {
        ReadyStream {
            stream,
            failures: 0,
        }
    }
}

impl<S: Read + Write + EndOutput> ReadyLink for ReadyStream<S> {
    ghost fault_count = { λ l. l.failures };

    /// Reads from the stream once.
    ///
    /// # Errors
    ///
    /// `LinkFault` where the read fails otherwise than by `WouldBlock`. It is counted.
    fn recv_now(&mut self, buf: &mut [u8]) -> Result<Option<usize>, LinkFault> {
        match self.stream.read(buf) {
            Ok(n) => Ok(Some(n)),
            Err(error) if error.kind() == io::ErrorKind::WouldBlock => Ok(None),
            Err(_) => {
                self.failures += 1;
                Err(LinkFault)
            }
        }
    }

    /// Writes to the stream once.
    ///
    /// # Errors
    ///
    /// `LinkFault` where the write fails otherwise than by `WouldBlock`, and where the stream takes nothing. It is counted.
    fn send_now(&mut self, bytes: &[u8]) -> Result<Option<usize>, LinkFault> {
        match self.stream.write(bytes) {
            Ok(n) if n > 0 => Ok(Some(n)),
            Err(error) if error.kind() == io::ErrorKind::WouldBlock => Ok(None),
            _ => {
                self.failures += 1;
                Err(LinkFault)
            }
        }
    }

    fn end_output(&mut self) {
        self.stream.end_output();
    }

    fn failures(&self) -> u64 {
        self.failures
    }
}
