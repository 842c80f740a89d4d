//! Sockets of TCP that do not block.

ghost use Rattle.std.specs.Prelude.{◌≡◌, ◌<◌, length, IfOk, IfErr};
ghost use Rattle.std.specs.Io.{ReadsAtMost, WritesAtMost};
ghost use Rattle.std.specs.Io.KnownBytes.{ReadConsumes, WriteAppends};

use crate::reason::Reason;
use crate::stream::{NotDone, Stream, Wanted};
use mio::event::Source;
use mio::net::TcpStream;
use mio::{Events, Interest, Poll, Token};
use std::alloc::Global;
use std::io;
use std::io::{ErrorKind, Read, Write};
use std::net::Net;
use std::time::Duration;

/// What waits for one source.
#[derive(Drop)]
pub(crate) struct Waiting {
    poll: Poll,
    events: Events,
}

impl Waiting {
    /// Waits for reports of this source from now on.
    pub(crate) fn of<N: Net, S: Source>(
        net: &N,
        alloc: Global,
        source: &mut S,
        interest: Interest,
    ) -> Result<Waiting, Reason> {
        let Ok(events) = Events::with_capacity(alloc, 2) else {
            return Err(Reason::NoMemory);
        };
        match watching(net, source, interest) {
            Ok(poll) => Ok(Waiting { poll, events }),
            Err(error) => Err(Reason::System(error)),
        }
    }

    /// Waits until the source is reported, for so long at the most.
    pub(crate) fn wait(&mut self, at_most: Duration) -> Result<(), Reason> {
        match self.poll.poll(&mut self.events, Some(at_most)) {
            Ok(()) => Ok(()),
            Err(error) => Err(Reason::System(error)),
        }
    }
}

/// What reports the source from now on.
fn watching<N: Net, S: Source>(net: &N, source: &mut S, interest: Interest) -> io::Result<Poll> {
    let poll = Poll::new(net)?;
    poll.registry().register(source, Token(0), interest)?;
    Ok(poll)
}

/// A connection of TCP whose calls do not block.
#[derive(Drop)]
pub struct Socket {
    stream: TcpStream,
    waiting: Waiting,
}

/// Why a call of a socket did nothing.
fn not_done(error: io::Error) -> NotDone {
    match error.kind() {
        ErrorKind::WouldBlock => NotDone::NotNow,
        _ => NotDone::Failed(Reason::System(error)),
    }
}

impl Socket {
    /// The connection of a stream, which may not be there yet.
    pub(crate) fn new<N: Net>(
        net: &N,
        alloc: Global,
        mut stream: TcpStream,
    ) -> Result<Socket, Reason> {
        let interest = Interest::READABLE | Interest::WRITABLE;
        let waiting = Waiting::of(net, alloc, &mut stream, interest)?;
        Ok(Socket { stream, waiting })
    }

    /// Waits until it is reported, for so long at the most.
    pub(crate) fn wait_for_report(&mut self, at_most: Duration) -> Result<(), Reason> {
        self.waiting.wait(at_most)
    }

    /// Whether the connection is there, or not yet.
    ///
    /// # Errors
    ///
    /// `System` with why it can't be made.
    pub(crate) fn is_connected(&self) -> Result<bool, Reason> {
        match self.stream.take_error() {
            Ok(None) => Ok(self.stream.peer_addr().is_ok()),
            Ok(Some(error)) | Err(error) => Err(Reason::System(error)),
        }
    }
}

impl Stream for Socket {
    fn recv(&mut self, buf: &mut [u8]) -> Result<usize, NotDone> {
        match self.stream.read(buf) {
            Ok(n) => Ok(n),
            Err(error) => Err(not_done(error)),
        }
    }

    fn send(&mut self, bytes: &[u8]) -> Result<usize, NotDone> {
        match self.stream.write(bytes) {
            Ok(n) if n > 0 || bytes.is_empty() => Ok(n),
            Ok(_) => Err(NotDone::Failed(Reason::Stuck)),
            Err(error) => Err(not_done(error)),
        }
    }

    fn wait(&mut self, _wanted: Wanted, at_most: Duration) -> Result<(), Reason> {
        self.waiting.wait(at_most)
    }
}
