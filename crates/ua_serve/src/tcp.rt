//! Sockets of TCP, over the readiness that the system reports.

ghost use Rattle.ua_serve.specs.Waits.{Wakes};

use crate::sockets::{Accepted, Sockets};
use mio::net::{TcpListener, TcpStream};
use mio::{Events, Interest, Poll, Token};
use std::alloc::Global;
use std::io;
use std::net::{Net, SocketAddr, ToSocketAddrs};
use std::time::Duration;
use ua_link::{LinkFault, ReadyStream};

/// The most events that one wait gives. Those that are left are given by the next one.
const MOST_EVENTS: usize = 1024;

/// The ticks of a millisecond.
const MILLISECOND: u64 = 10_000;

/// The errors of Linux that say that there is no socket to give: ENOMEM, ENFILE, EMFILE, ENOBUFS.
const NO_SOCKET: [i32; 4] = [12, 23, 24, 105];

/// A listener of TCP and the streams that it accepts, none of which waits.
#[derive(Drop)]
pub struct TcpSockets {
    listener: TcpListener,
    poll: Poll,
    events: Events,
}

/// A listener at the first of the addresses at which one can listen.
fn listener_at<R: Net>(rt: &R, address: &str) -> io::Result<TcpListener> {
    let mut last = io::Error::from(io::ErrorKind::InvalidInput);
    for address in address.to_socket_addrs(rt)? {
        match TcpListener::bind(rt, address) {
            Ok(listener) => return Ok(listener),
            Err(error) => last = error,
        }
    }
    Err(last)
}

impl TcpSockets {
    /// Listens at the first of the addresses that the text names at which that can be done, for connections with so many
    /// places. Without memory it answers an error too, of the kind `OutOfMemory`.
    pub fn bind<R: Net>(
        rt: &R,
        alloc: Global,
        address: &str,
        places: usize,
    ) -> io::Result<TcpSockets> {
        let mut listener = listener_at(rt, address)?;
        let poll = Poll::new(rt)?;
        let Ok(events) = Events::with_capacity(alloc, MOST_EVENTS) else {
            return Err(io::Error::from(io::ErrorKind::OutOfMemory));
        };
        poll.registry()
            .register(&mut listener, Token(places), Interest::READABLE)?;
        Ok(TcpSockets {
            listener,
            poll,
            events,
        })
    }

    /// The address at which it listens.
    pub fn local_addr(&self) -> io::Result<SocketAddr> {
        self.listener.local_addr()
    }
}

/// So many ticks of 100 ns, in whole milliseconds and not less.
fn duration_of(ticks: u64) -> Duration {
    Duration::from_millis(ticks.div_ceil(MILLISECOND))
}

/// Whether a call failed since the system has no socket to give.
fn is_want_of_sockets(error: &io::Error) -> bool {
    match error.raw_os_error() {
        Some(code) => NO_SOCKET.contains(&code),
        None => false,
    }
}

/// Notes that the link with this place, or the listener, is ready.
fn note(ready: &mut [bool], place: usize)
    ensures { Wakes ready.old ready.new }
{
    if place < ready.len() {
        ready[place] = true;
    }
}

impl Sockets for TcpSockets {
    type Link = ReadyStream<TcpStream>;

    fn wait(&mut self, at_most: Option<u64>, ready: &mut [bool]) -> Result<(), LinkFault> {
        if self
            .poll
            .poll(&mut self.events, at_most.map(duration_of))
            .is_err()
        {
            return Err(LinkFault);
        }
        for event in self.events.iter() {
            note(ready, event.token().0);
        }
        Ok(())
    }

    fn accept(&mut self, place: usize) -> Accepted<ReadyStream<TcpStream>> {
        let mut stream = match self.listener.accept() {
            Ok((stream, _)) => stream,
            Err(error) if error.kind() == io::ErrorKind::WouldBlock => return Accepted::Nobody,
            Err(error) if is_want_of_sockets(&error) => return Accepted::NoSocket,
            Err(_) => return Accepted::Failed,
        };
        let both = Interest::READABLE | Interest::WRITABLE;
        match self
            .poll
            .registry()
            .register(&mut stream, Token(place), both)
        {
            Ok(()) => Accepted::Link(ReadyStream::new(stream)),
            Err(_) => Accepted::Failed,
        }
    }
}
