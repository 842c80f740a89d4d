//! Connections that `serve` makes: to a client that speaks over a network of the test's, and over loopback to one that
//! listens, which is heard no more, or to none.

use std::alloc::Global;
use std::io;
use std::io::{Read, Write};
use std::net::{Net, OpenListener, OpenStream, SocketAddr, TcpListener};
use std::os::fd::{AsRawFd, RawFd};
use std::rt::Clock;
use std::time::Duration;
use ua_command::{Why, serve_to};
use ua_disco::{DEFAULT, Settings, SettingsFault};
use ua_test_runs::addresses::left_address;
use ua_test_runs::pages::{Page, has, is_output};
use ua_test_runs::settings::{NO_ENDPOINT, long_settings};
use ua_test_runs::vectors::CALLS;

/// A stream whose other end makes the calls of a client at once and then is silent, and hears all; or one that fails.
#[derive(Clone, Copy)]
struct CallStream {
    given: usize,
    fails: bool,
}

impl Read for CallStream {
    fn read(&mut self, buf: &mut [u8]) -> io::Result<usize> {
        if self.fails {
            return Err(io::Error::from(io::ErrorKind::Other));
        }
        let rest = &CALLS[self.given.min(CALLS.len())..];
        let n = rest.len().min(buf.len());
        buf[..n].copy_from_slice(&rest[..n]);
        self.given = self.given.saturating_add(n);
        Ok(n)
    }
}

impl Write for CallStream {
    fn write(&mut self, buf: &[u8]) -> io::Result<usize> {
        if self.fails {
            return Err(io::Error::from(io::ErrorKind::Other));
        }
        Ok(buf.len())
    }

    fn flush(&mut self) -> io::Result<()> {
        Ok(())
    }
}

impl OpenStream for CallStream {}

impl AsRawFd for CallStream {
    fn as_raw_fd(&self) -> RawFd {
        -1
    }
}

/// No listener.
#[derive(Clone, Copy)]
struct NoListener;

impl OpenListener for NoListener {
    type Stream = CallStream;

    fn accept(&self) -> io::Result<(CallStream, SocketAddr)> {
        Err(io::Error::from(io::ErrorKind::Other))
    }
}

impl AsRawFd for NoListener {
    fn as_raw_fd(&self) -> RawFd {
        -1
    }
}

/// A host at each of whose addresses such a client listens.
#[derive(Clone, Copy)]
struct CallHost {
    fails: bool,
}

impl Net for CallHost {
    type Stream = CallStream;

    type Listener = NoListener;

    fn bind(&self, _addr: SocketAddr) -> io::Result<NoListener> {
        Err(io::Error::from(io::ErrorKind::Other))
    }

    fn connect(&self, _addr: SocketAddr) -> io::Result<CallStream> {
        Ok(CallStream {
            given: 0,
            fails: self.fails,
        })
    }
}

impl Clock for CallHost {
    fn monotonic(&self) -> io::Result<Duration> {
        Ok(Duration::new(0, 0))
    }

    fn since_1970(&self) -> io::Result<Duration> {
        Ok(Duration::new(0, 0))
    }
}

/// The status of two connections that are made to an address by these settings, what is printed, which finds so much
/// room, and what is told; `why` says what is known of that.
fn came_of<R: Net + Clock + AllocGlobal>(
    rt: &R,
    address: &str,
    settings: &Settings,
    room: usize,
    why: &mut Why,
) -> (u8, Page, Page) {
    let mut printed = Page::new(room);
    let mut told = Page::new(4096);
    let status = serve_to(rt, address, settings, 2, &mut printed, &mut told, why);
    (status, printed, told)
}

/// Whether two connections by the settings of this text have this status, print this into so much room, and tell this, of
/// which it is known where it is the output, or that no connection could be made.
fn serves<R: Net + Clock + AllocGlobal>(
    rt: &R,
    address: &str,
    text: &[u8],
    room: usize,
    expected: (u8, &str, &str),
) -> bool {
    let Ok(settings) = Settings::from_toml(rt.alloc(), text) else {
        return false;
    };
    let mut why = Why::Unknown;
    let (status, printed, told) = came_of(rt, address, &settings, room, &mut why);
    let (wanted, lines, errors) = expected;
    let known = is_output(&why) == (errors == "file\n")
        && matches!(why, Why::NotMade(_)) == (errors == "link\n");
    known
        && status == wanted
        && printed.text() == lines.as_bytes()
        && told.text() == errors.as_bytes()
}

const ADDRESS: &str = "192.0.2.1:4840";

/// The second client asks over channel 1, where it was given channel 2.
const TWO_SERVED: &str =
    "connection 1 closed read 338 written 342\nconnection 2 refused 807F0000 read 338 written 224\n";

const TWO_FAILED: &str =
    "connection 1 link-failed read 0 written 0\nconnection 2 link-failed read 0 written 0\n";

/// Whether that comes of a host whose streams fail, or not.
fn serves_host(alloc: Global, fails: bool, room: usize, expected: (u8, &str, &str)) -> bool {
    let host = (CallHost { fails }, alloc);
    serves(&host, ADDRESS, DEFAULT.as_bytes(), room, expected)
}

#[test]
fn connections_are_made_and_served(rt: HostRuntime) {
    let alloc = rt.alloc();
    assert!(rt; serves_host(alloc, false, 4096, (0, TWO_SERVED, "")));
    assert!(rt; serves_host(alloc, true, 4096, (3, TWO_FAILED, "")));
    assert!(rt; serves_host(alloc, false, 0, (3, "", "file\n")));
    assert!(rt; serves_host(alloc, false, 10, (3, "connection", "file\n")));
}

/// A server can't open a connection by these settings, which ends the run at the first one.
fn ends_at_once(alloc: Global, text: &[u8], errors: &str) -> bool {
    let host = (CallHost { fails: false }, alloc);
    serves(&host, ADDRESS, text, 4096, (1, "", errors))
}

fn ends_for_a_large_frame(alloc: Global) -> bool {
    match long_settings(alloc) {
        Ok(text) => ends_at_once(alloc, text.as_bytes(), "reverse 2\n"),
        Err(_) => false,
    }
}

#[test]
fn settings_let_no_connection_be_opened(rt: HostRuntime) {
    assert!(rt; ends_at_once(rt.alloc(), NO_ENDPOINT.as_bytes(), "reverse 1\n"));
    assert!(rt; ends_for_a_large_frame(rt.alloc()));
}

/// Whether that comes of connections over loopback, by settings without an endpoint.
fn serves_address(rt: &HostRuntime, address: SocketAddr, expected: (u8, &str, &str)) -> bool {
    match address.to_string(rt.alloc()) {
        Ok(text) => serves(rt, text.as_str(), NO_ENDPOINT.as_bytes(), 4096, expected),
        Err(_) => false,
    }
}

/// Where somebody listens, the settings are the reason, and where nobody does, the link.
fn tells_the_link_first(rt: &HostRuntime) -> bool {
    let Some(left) = left_address(rt) else {
        return false;
    };
    let Ok(listener) = TcpListener::bind(rt, "127.0.0.1:0") else {
        return false;
    };
    match listener.local_addr() {
        Ok(address) => {
            serves_address(rt, address, (1, "", "reverse 1\n"))
                && serves_address(rt, left, (3, "", "link\n"))
        }
        Err(_) => false,
    }
}

#[test]
fn nobody_listens_or_no_connection_can_be_opened(rt: HostRuntime) {
    assert!(rt; tells_the_link_first(&rt));
}

/// Both lines, whichever connection finds no memory: that does not end the run, and nothing is told.
fn serves_or_not(alloc: Global) -> bool {
    let settings = match Settings::from_toml(alloc, DEFAULT.as_bytes()) {
        Ok(settings) => settings,
        Err(fault) => return matches!(fault, SettingsFault::NoMemory),
    };
    let host = (CallHost { fails: false }, alloc);
    let mut why = Why::Unknown;
    let (status, printed, told) = came_of(&host, ADDRESS, &settings, 4096, &mut why);
    let lines = printed.text();
    let both = has(lines, "connection 1 ") && has(lines, "\nconnection 2 ");
    match status {
        0 => lines == TWO_SERVED.as_bytes() && told.text().is_empty(),
        4 => both && has(lines, " memory read ") && told.text().is_empty(),
        _ => false,
    }
}

#[test]
fn connections_are_made_or_no_memory(rt: HostRuntime) {
    assert!(rt; serves_or_not(rt.alloc()));
}
