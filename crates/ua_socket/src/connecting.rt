//! Connects within a time.

use crate::reason::Reason;
use crate::socket::Socket;
use crate::timer::{Deadline, Timer};
use mio::net::TcpStream;
use std::alloc::Global;
use std::io;
use std::io::ErrorKind;
use std::net::{Net, SocketAddr, ToSocketAddrs};
use std::rt::Clock;
use ua_value::plumbing::let_go;

/// How often a connection is waited for again.
const MOST_WAITS: u32 = 4096;

/// Waits until the connection of a socket is there.
fn connected<R: Clock>(mut socket: Socket, deadline: &mut Deadline<R>) -> Result<Socket, Reason> {
    'waits: for _ in 0..MOST_WAITS {
        match is_there(&mut socket, deadline) {
            Ok(true) => return Ok(socket),
            Ok(false) => {}
            Err(reason) => return Err(reason),
        }
    }
    Err(Reason::Late)
}

/// Whether the connection is there after one wait.
fn is_there<R: Clock>(socket: &mut Socket, deadline: &mut Deadline<R>) -> Result<bool, Reason> {
    let Some(left) = deadline.left() else {
        return Err(Reason::Late);
    };
    socket.wait_for_report(left)?;
    socket.is_connected()
}

/// A socket that begins to connect to the address.
fn begun<R: Net>(rt: &R, alloc: Global, address: SocketAddr) -> Result<Socket, Reason> {
    match TcpStream::connect(rt, address) {
        Ok(stream) => Socket::new(rt, alloc, stream),
        Err(error) => Err(Reason::System(error)),
    }
}

/// Connects to one address.
fn connect_to<R: Net + Clock>(
    rt: &R,
    alloc: Global,
    address: SocketAddr,
    mut deadline: Deadline<R>,
) -> Result<Socket, Reason> {
    let socket = begun(rt, alloc, address)?;
    connected(socket, &mut deadline)
}

/// The addresses of a text, as `127.0.0.1:4840` or `press:4840`. The name of a host is looked up by the system, which
/// keeps its own time.
pub(crate) fn addresses_of<R: Net>(
    rt: &R,
    alloc: Global,
    text: &str,
) -> Result<Vec<SocketAddr>, Reason> {
    match text.to_socket_addrs(rt) {
        Ok(addresses) => match addresses.collect(alloc) {
            Ok(addresses) => Ok(addresses),
            Err(_) => Err(Reason::NoMemory),
        },
        Err(error) => Err(Reason::Address(error)),
    }
}

/// Connects to the first of these addresses that takes the connection, each within its equal share of what is left.
fn connect_to_one<R: Net + Clock>(
    rt: &R,
    alloc: Global,
    addresses: &[SocketAddr],
    deadline: &mut Deadline<R>,
) -> Result<Socket, Reason> {
    let mut last = Reason::Address(io::Error::from(ErrorKind::NotFound));
    let mut left = u32::try_from(addresses.len()).unwrap_or(u32::MAX);
    'addresses: for address in addresses {
        match connect_to(rt, alloc, *address, deadline.share(left)) {
            Ok(socket) => return Ok(socket),
            Err(reason) => last = reason,
        }
        left = left.saturating_sub(1);
    }
    Err(last)
}

/// Connects to the first address of a text, as `127.0.0.1:4840` or `press:4840`, that takes the connection. They are
/// tried in turn, each within its equal share of what is left of the time. The name of a host is looked up by the system,
/// which keeps its own time.
///
/// # Errors
///
/// `Address` where the text is no address or its name is not known, `NoMemory` where a growth was refused, else why the
/// last address could not be reached: `System`, or `Late` where its time was over.
pub fn connect<R: Net + Clock>(
    rt: &R,
    alloc: Global,
    address: &str,
    deadline: &mut Deadline<R>,
) -> Result<Socket, Reason> {
    let addresses = addresses_of(rt, alloc, address)?;
    let came = connect_to_one(rt, alloc, addresses.as_slice(), deadline);
    let_go(addresses);
    came
}
