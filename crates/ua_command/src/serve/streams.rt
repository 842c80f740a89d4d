//! Where the streams come from that are served one after the other.

ghost use Rattle.std.specs.Prelude.{IfErr};
ghost use Rattle.ua_command.specs.Why.{IsKnown};

use crate::why::Why;
use std::io::{Read, Write};
use std::net::{Net, OpenListener, OpenStream, TcpStream};
use ua_socket::Reason;

/// What gives the streams of connections, one after the other.
pub trait Streams {
    type Stream: Read + Write + OpenStream + Drop;

    /// The stream of the next connection, or why there is none.
    fn next(&self) -> Result<Self::Stream, Why>
        ensures { IfErr result IsKnown };
}

/// Those that a listener accepts.
#[derive(Drop)]
pub struct Accepted<'a, L> {
    pub listener: &'a L,
}

impl<'a, L> Streams for Accepted<'a, L>
where
    L: OpenListener,
    L::Stream: Read + Write + OpenStream,
{
    type Stream = L::Stream;

    fn next(&self) -> Result<L::Stream, Why> {
        match self.listener.accept() {
            Ok((stream, _)) => Ok(stream),
            Err(error) => Err(Why::NotAccepted(error)),
        }
    }
}

/// Those that are made to an address.
#[derive(Drop)]
pub struct Made<'a, R> {
    pub rt: &'a R,
    pub address: &'a str,
}

impl<'a, R: Net> Streams for Made<'a, R> {
    type Stream = R::Stream;

    fn next(&self) -> Result<R::Stream, Why> {
        match TcpStream::connect(self.rt, self.address) {
            Ok(stream) => Ok(stream),
            Err(error) => Err(Why::NotMade(Reason::System(error))),
        }
    }
}
