//! Listens, and accepts within a time.

use crate::connecting::addresses_of;
use crate::reason::Reason;
use crate::socket::{Socket, Waiting};
use crate::timer::Timer;
use mio::Interest;
use mio::net::{TcpListener, TcpStream};
use std::alloc::Global;
use std::io;
use std::io::ErrorKind;
use std::net::{Net, SocketAddr};
use ua_value::plumbing::let_go;

/// How often an `accept` is tried again after a wait.
const MOST_TRIES: u32 = 4096;

/// A socket that listens, and does not block.
#[derive(Drop)]
pub struct Listener {
    listener: TcpListener,
    waiting: Waiting,
}

/// Listens at the first of these addresses where it can.
fn bound<N: Net>(net: &N, addresses: &[SocketAddr]) -> Result<TcpListener, Reason> {
    let mut last = Reason::Address(io::Error::from(ErrorKind::NotFound));
    'addresses: for address in addresses {
        match TcpListener::bind(net, *address) {
            Ok(listener) => return Ok(listener),
            Err(error) => last = Reason::System(error),
        }
    }
    Err(last)
}

impl Listener {
    /// Listens at the first address of a text, as `127.0.0.1:4840`, where it can; port 0 takes a free one.
    ///
    /// # Errors
    ///
    /// `Address` where the text is no address or its name is not known, `NoMemory` where a growth was refused, and
    /// `System` with why nothing can listen at the last of its addresses.
    pub fn bind<N: Net>(net: &N, alloc: Global, address: &str) -> Result<Listener, Reason> {
        let addresses = addresses_of(net, alloc, address)?;
        let listener = bound(net, addresses.as_slice());
        let_go(addresses);
        Listener::watched(net, alloc, listener?)
    }

    fn watched<N: Net>(
        net: &N,
        alloc: Global,
        mut listener: TcpListener,
    ) -> Result<Listener, Reason> {
        let waiting = Waiting::of(net, alloc, &mut listener, Interest::READABLE)?;
        Ok(Listener { listener, waiting })
    }

    /// The address at which it listens.
    pub fn local_addr(&self) -> io::Result<SocketAddr> {
        self.listener.local_addr()
    }

    /// The stream of the next connection, within the time.
    fn accepted<T: Timer>(&mut self, timer: &mut T) -> Result<TcpStream, Reason> {
        'tries: for _ in 0..MOST_TRIES {
            let Some(left) = timer.left() else {
                return Err(Reason::Late);
            };
            match self.listener.accept() {
                Ok((stream, _)) => return Ok(stream),
                Err(error) if error.kind() == ErrorKind::WouldBlock => {}
                Err(error) => return Err(Reason::System(error)),
            }
            self.waiting.wait(left)?;
        }
        Err(Reason::Stuck)
    }

    /// The next connection, once one comes within the time.
    ///
    /// # Errors
    ///
    /// `Late` where the time was over before one came, `NoMemory` where a growth was refused, else `System`.
    pub fn accept<N: Net, T: Timer>(
        &mut self,
        net: &N,
        alloc: Global,
        timer: &mut T,
    ) -> Result<Socket, Reason> {
        let stream = self.accepted(timer)?;
        Socket::new(net, alloc, stream)
    }
}
