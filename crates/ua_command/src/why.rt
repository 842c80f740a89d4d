//! Why a link or a file failed, in words for people.

use std::io::ErrorKind;
use std::time::Duration;
use std::{fmt, io};
use ua_print::NamedCode;
use ua_socket::Reason;
use ua_value::StatusCode;

/// Why a command came to nothing, as far as that is known.
#[derive(Clone, Copy, Debug)]
pub enum Why {
    /// Nothing is known.
    Unknown,
    /// A file, standard input or standard output could not be read or written.
    File,
    /// Standard output could not be written.
    Output,
    /// There is no connection to the address, in so many seconds.
    NotReached(Reason, u32),
    /// Nothing can listen at the address.
    NotListening(Reason),
    /// No server came to the address, in so many seconds.
    NobodyCame(Reason, u32),
    /// A server made no connection to the address.
    NotMade(Reason),
    /// A connection could not be accepted.
    NotAccepted(io::Error),
    /// No connection could be accepted, too often in a row.
    NoneAccepted,
    /// The system does not say which connections may go on.
    NotWaited,
    /// The connection failed or ended before the answer.
    Broken(Broken),
    /// So many bytes came, in as many reads as one question has, and no whole answer.
    Unanswered(u64),
    /// This status came in the place of an answer.
    Status(StatusCode),
}

/// How a connection failed or ended before the answer.
#[derive(Clone, Copy, Debug)]
pub struct Broken {
    /// Why it failed; none where the other end closed it.
    pub reason: Option<Reason>,
    /// The bytes that had come.
    pub received: u64,
    /// For how long nothing had come when the time was over.
    pub quiet: Duration,
}

/// BadTcpMessageTypeInvalid: the status of bytes that are no frame of OPC UA (OPC 10000-6, 7.1.5).
const NO_OPC_UA: u32 = 0x807E_0000;

/// Who is at the address.
#[derive(Clone, Copy)]
enum At {
    /// This program, which is to listen there.
    Here,
    /// A server, to which this program connects.
    Server,
    /// A client, to which this program connects as a server.
    Client,
}

/// What to try where the system says this.
fn advice(error: &io::Error, at: At) -> &'static str {
    match (error.kind(), at) {
        (ErrorKind::ConnectionRefused, At::Client) =>
            ": nothing listens there; is the client started, and is this its port?",
        (ErrorKind::ConnectionRefused, _) =>
            ": nothing listens there; is the server started, and is this its port?",
        (ErrorKind::TimedOut | ErrorKind::HostUnreachable | ErrorKind::NetworkUnreachable, _) =>
            ": is the machine on, and is there a way to it from here?",
        (ErrorKind::AddrInUse, At::Here) =>
            ": another program listens there; end it, or take another port",
        (ErrorKind::AddrNotAvailable, At::Here) =>
            ": no interface of this machine has the address; 0.0.0.0 stands for all of them",
        (ErrorKind::PermissionDenied, At::Here) => ": ports below 1024 are for those who may",
        (ErrorKind::ConnectionReset, _) => ": the other end broke the connection off",
        (ErrorKind::InvalidInput, _) => ": an address is a host and a port, as press:4840",
        _ => "",
    }
}

impl fmt::Display for Why {
    fn fmt<W: fmt::Write>(&self, f: &mut fmt::Formatter<W>) -> fmt::Result {
        match self {
            Why::Unknown | Why::File => Ok(()),
            Why::Output => f.write_str(
                "standard output could not be written: is its disk full, or did the program end that reads it?",
            ),
            Why::NotReached(Reason::Late, seconds) => write!(
                f,
                "no connection within {seconds} s: is the machine on, and does a firewall let this through?"
            ),
            Why::NobodyCame(Reason::Late, seconds) => {
                write!(f, "no server connected within {seconds} s")
            }
            Why::NotReached(reason, _) | Why::NobodyCame(reason, _) => {
                write!(f, "{}", Said(*reason, At::Server))
            }
            Why::NotListening(reason) => write!(f, "{}", Said(*reason, At::Here)),
            Why::NotMade(reason) => write!(f, "{}", Said(*reason, At::Client)),
            Why::NotAccepted(error) => write!(
                f,
                "a connection could not be accepted: {error}; `ulimit -n` says how many files may be open"
            ),
            Why::NoneAccepted => f.write_str(
                "no connection could be accepted, again and again: `ulimit -n` says how many files may be open",
            ),
            Why::NotWaited => f.write_str(
                "the system refused to wait for connections: try one after the other, without --at-once and --patience",
            ),
            Why::Broken(broken) => write!(f, "{broken}"),
            Why::Unanswered(received) => write!(
                f,
                "{received} bytes came and no whole answer, in as many reads as a question has: is it an OPC UA server?"
            ),
            Why::Status(status) if status.0 == NO_OPC_UA => {
                write!(
                    f,
                    "{}: what came is no OPC UA over TCP; does a web server listen there?",
                    NamedCode(status.0)
                )
            }
            Why::Status(status) => write!(f, "{}", NamedCode(status.0)),
        }
    }
}

/// What the system said, and what to try.
#[derive(Clone, Copy)]
struct Said(Reason, At);

impl fmt::Display for Said {
    fn fmt<W: fmt::Write>(&self, f: &mut fmt::Formatter<W>) -> fmt::Result {
        match self.0 {
            Reason::Address(error) | Reason::System(error) => {
                write!(f, "{error}{}", advice(&error, self.1))
            }
            Reason::Late => f.write_str("the time was over"),
            Reason::Stuck => f.write_str("the connection takes no bytes"),
            Reason::NoMemory => f.write_str("the system refused more memory"),
        }
    }
}

/// A time in seconds, with one place behind the point.
#[derive(Clone, Copy)]
struct Seconds(Duration);

impl fmt::Display for Seconds {
    fn fmt<W: fmt::Write>(&self, f: &mut fmt::Formatter<W>) -> fmt::Result {
        let tenths = self.0.as_millis() / 100;
        write!(f, "{}.{} s", tenths / 10, tenths % 10)
    }
}

impl fmt::Display for Broken {
    fn fmt<W: fmt::Write>(&self, f: &mut fmt::Formatter<W>) -> fmt::Result {
        let (received, quiet) = (self.received, Seconds(self.quiet));
        match self.reason {
            None if received == 0 => f.write_str(
                "connected, and the other end closed the connection without a word: is it an OPC UA server?",
            ),
            None => write!(
                f,
                "the other end closed the connection before the answer, {received} bytes had come"
            ),
            Some(Reason::Late) if received == 0 => write!(
                f,
                "connected, but nothing came for {quiet}: is it an OPC UA server?"
            ),
            Some(Reason::Late) => write!(
                f,
                "{received} bytes came and no whole answer; nothing came for {quiet}"
            ),
            Some(reason) => write!(f, "{}; {received} bytes had come", Said(reason, At::Server)),
        }
    }
}
