//! Connections over loopback: each client connects and says all before it is served, so neither waits.

use std::io;
use std::io::{Read, Write};
use std::net::{
    Ipv4Addr, OpenListener, OpenStream, Shutdown, SocketAddr, SocketAddrV4, TcpListener, TcpStream,
};
use std::time::Duration;
use ua_command::{Why, serve_on, status_with};
use ua_conn::End;
use ua_disco::{DEFAULT, Settings};
use ua_test_runs::pages::{Page, is_output};
use ua_test_runs::vectors::{ACKNOWLEDGE, CALLS};

/// How many seconds a read over loopback waits at most.
const PATIENCE: u64 = 20;

/// A client that says these bytes and no more.
fn client(rt: &HostRuntime, listener: &TcpListener, bytes: &[u8]) -> Option<TcpStream> {
    let Ok(address) = listener.local_addr() else {
        return None;
    };
    let Ok(mut near) = TcpStream::connect(rt, address) else {
        return None;
    };
    let patience = Some(Duration::from_secs(PATIENCE));
    if near.set_read_timeout(patience).is_err() || near.write_all(bytes).is_err() {
        return None;
    }
    match near.shutdown(Shutdown::Write) {
        Ok(()) => Some(near),
        Err(_) => None,
    }
}

/// How many bytes come until the end, where an Acknowledge stands first.
fn heard(near: &mut TcpStream) -> Option<usize> {
    let mut piece = [0u8; 512];
    let mut first = [0u8; 28];
    if near.read_exact(&mut first).is_err() || first.as_slice() != ACKNOWLEDGE {
        return None;
    }
    let mut heard = 28usize;
    for _ in 0..32 {
        match near.read(&mut piece) {
            Ok(0) => return Some(heard),
            Ok(n) => heard = heard.saturating_add(n),
            Err(_) => return None,
        }
    }
    None
}

/// Whether so many connections are served with this status, and with these lines.
fn serves(
    rt: &HostRuntime,
    listener: &TcpListener,
    connections: u16,
    status: u8,
    lines: &str,
) -> bool {
    let Ok(settings) = Settings::from_toml(rt.alloc(), DEFAULT.as_bytes()) else {
        return false;
    };
    let mut printed = Page::new(4096);
    let mut told = Page::new(4096);
    let came = serve_on(
        rt,
        listener,
        &settings,
        connections,
        &mut printed,
        &mut told,
        &mut Why::Unknown,
    );
    came == status && printed.text() == lines.as_bytes() && told.text().is_empty()
}

fn serves_one(rt: &HostRuntime) -> bool {
    let Ok(listener) = TcpListener::bind(rt, "127.0.0.1:0") else {
        return false;
    };
    match client(rt, &listener, CALLS) {
        Some(mut near) => {
            let line = "connection 1 closed read 338 written 297\n";
            serves(rt, &listener, 1, 0, line) && heard(&mut near) == Some(297)
        }
        None => false,
    }
}

#[test]
fn one_connection_is_served(rt: HostRuntime) {
    assert!(rt; serves_one(&rt));
}

const ENDS: &str = "connection 1 input-ended read 0 written 0
connection 2 refused 807E0000 read 16 written 16
connection 3 truncated read 28 written 0
connection 4 input-ended read 188 written 163
connection 5 refused 807F0000 read 338 written 179
";

/// A client that leaves at once, one that speaks HTTP, one that says half a Hello, one that opens a channel, and one that
/// asks over channel 1, where it was given channel 5.
fn goes_on(rt: &HostRuntime, listener: &TcpListener) -> bool {
    let left = client(rt, listener, b"").is_some();
    let second = client(rt, listener, b"GET / HTTP/1.1\r\n");
    let third = client(rt, listener, &CALLS[..28]);
    let fourth = client(rt, listener, &CALLS[..188]);
    let fifth = client(rt, listener, CALLS);
    let all = left && second.is_some() && third.is_some();
    match (fourth, fifth) {
        (Some(mut fourth), Some(mut fifth)) => {
            let served = all && serves(rt, listener, 5, 0, ENDS);
            served && heard(&mut fourth) == Some(163) && heard(&mut fifth) == Some(179)
        }
        _ => false,
    }
}

fn goes_on_after_any_end(rt: &HostRuntime) -> bool {
    match TcpListener::bind(rt, "127.0.0.1:0") {
        Ok(listener) => goes_on(rt, &listener),
        Err(_) => false,
    }
}

#[test]
fn no_end_of_a_connection_ends_the_command(rt: HostRuntime) {
    assert!(rt; goes_on_after_any_end(&rt));
}

/// A stream whose calls fail.
#[derive(Clone, Copy)]
struct BrokenStream;

impl Read for BrokenStream {
    fn read(&mut self, _buf: &mut [u8]) -> io::Result<usize> {
        Err(io::Error::from(io::ErrorKind::Other))
    }
}

impl Write for BrokenStream {
    fn write(&mut self, _buf: &[u8]) -> io::Result<usize> {
        Err(io::Error::from(io::ErrorKind::Other))
    }

    fn flush(&mut self) -> io::Result<()> {
        Err(io::Error::from(io::ErrorKind::Other))
    }
}

impl OpenStream for BrokenStream {}

/// A listener that gives such streams, or fails as well.
#[derive(Clone, Copy)]
struct BrokenListener {
    accepts: bool,
}

impl OpenListener for BrokenListener {
    type Stream = BrokenStream;

    fn accept(&self) -> io::Result<(BrokenStream, SocketAddr)> {
        if self.accepts {
            let address = SocketAddr::V4(SocketAddrV4::new(Ipv4Addr::new(127, 0, 0, 1), 4840));
            Ok((BrokenStream, address))
        } else {
            Err(io::Error::from(io::ErrorKind::Other))
        }
    }
}

/// Whether two connections of a broken listener print this into so much room, and tell this, of which the reason is known.
fn fails_so(rt: &HostRuntime, accepts: bool, room: usize, lines: &str, errors: &str) -> bool {
    let Ok(settings) = Settings::from_toml(rt.alloc(), DEFAULT.as_bytes()) else {
        return false;
    };
    let listener = BrokenListener { accepts };
    let mut printed = Page::new(room);
    let mut told = Page::new(4096);
    let mut why = Why::Unknown;
    let status = serve_on(
        rt,
        &listener,
        &settings,
        2,
        &mut printed,
        &mut told,
        &mut why,
    );
    let known = is_output(&why) == (errors == "file\n")
        && matches!(why, Why::NotAccepted(_)) == (errors == "link\n");
    known && status == 3 && printed.text() == lines.as_bytes() && told.text() == errors.as_bytes()
}

const TWO_FAILED: &str =
    "connection 1 link-failed read 0 written 0\nconnection 2 link-failed read 0 written 0\n";

#[test]
fn links_and_lines_fail(rt: HostRuntime) {
    assert!(rt; fails_so(&rt, true, 4096, TWO_FAILED, ""));
    assert!(rt; fails_so(&rt, false, 4096, "", "link\n"));
    assert!(rt; fails_so(&rt, true, 0, "", "file\n"));
    assert!(rt; fails_so(&rt, true, 10, "connection", "file\n"));
}

/// The worse of two ends decides, whichever comes first.
#[test]
fn the_status_is_that_of_the_worst_end(rt: HostRuntime) {
    assert_eq!(rt; status_with(0, End::Closed), 0);
    assert_eq!(rt; status_with(0, End::Refused(0x807E_0000)), 0);
    assert_eq!(rt; status_with(0, End::Truncated), 0);
    assert_eq!(rt; status_with(0, End::TurnsSpent), 0);
    assert_eq!(rt; status_with(0, End::LinkFailed), 3);
    assert_eq!(rt; status_with(0, End::NoMemory), 4);
    assert_eq!(rt; status_with(3, End::Closed), 3);
    assert_eq!(rt; status_with(3, End::NoMemory), 4);
    assert_eq!(rt; status_with(4, End::LinkFailed), 4);
    assert_eq!(rt; status_with(4, End::InputEnded), 4);
}
