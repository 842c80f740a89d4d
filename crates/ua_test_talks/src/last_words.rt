//! What a client hears of `serve` that says no OPC UA, over loopback: the Error whole, and then the end of the input, however much it says.

use crate::asking::ERROR;
use std::io::{Read, Write};
use std::net::{Shutdown, TcpListener, TcpStream};
use std::time::{Duration, Instant};
use ua_command::{Why, serve_on};
use ua_disco::{DEFAULT, Settings};
use ua_test_runs::pages::{Page, has};

/// How many seconds a read over loopback waits at most.
const LONGEST: u64 = 20;

/// Far more than a server reads at once.
const GARBAGE: [u8; 20000] = [b'G'; 20000];

/// A client that says this and stays, or leaves.
fn client(rt: &HostRuntime, listener: &TcpListener, leaves: bool) -> Option<TcpStream> {
    let Ok(address) = listener.local_addr() else {
        return None;
    };
    let Ok(mut near) = TcpStream::connect(rt, address) else {
        return None;
    };
    let longest = Some(Duration::from_secs(LONGEST));
    if near.set_read_timeout(longest).is_err() || near.write_all(&GARBAGE).is_err() {
        return None;
    }
    if leaves && near.shutdown(Shutdown::Write).is_err() {
        return None;
    }
    Some(near)
}

/// Whether one connection is served, and refused at its first bytes.
fn is_refused(rt: &HostRuntime, listener: &TcpListener) -> bool {
    let Ok(settings) = Settings::from_toml(rt.alloc(), DEFAULT.as_bytes()) else {
        return false;
    };
    let mut printed = Page::new(4096);
    let mut told = Page::new(4096);
    let mut why = Why::Unknown;
    let status = serve_on(
        rt,
        listener,
        &settings,
        1,
        &mut printed,
        &mut told,
        &mut why,
    );
    let line = printed.text();
    status == 0
        && told.len == 0
        && has(line, "connection 1 refused 807E0000 read ")
        && line.ends_with(b" written 16\n")
}

/// Whether the Error comes, and then the end.
fn hears_error(near: &mut TcpStream) -> bool {
    let mut first = [0u8; 16];
    let mut more = [0u8; 1];
    near.read_exact(&mut first).is_ok()
        && first.as_slice() == ERROR
        && matches!(near.read(&mut more), Ok(0))
}

fn hears_all(rt: &HostRuntime, leaves: bool) -> bool {
    let Ok(listener) = TcpListener::bind(rt, "127.0.0.1:0") else {
        return false;
    };
    match client(rt, &listener, leaves) {
        Some(mut near) => is_refused(rt, &listener) && hears_error(&mut near),
        None => false,
    }
}

#[test]
fn an_error_is_heard_behind_much_garbage(rt: HostRuntime) {
    assert!(rt; hears_all(&rt, true));
}

/// Whether a client that stays is left, a second behind the last word.
fn is_left(rt: &HostRuntime) -> bool {
    let Ok(start) = Instant::now(rt) else {
        return false;
    };
    if !hears_all(rt, false) {
        return false;
    }
    match start.elapsed(rt) {
        Ok(time) => time.as_secs() >= 1 && time.as_secs() < 10,
        Err(_) => false,
    }
}

#[test]
fn a_client_that_stays_is_heard_for_a_second(rt: HostRuntime) {
    assert!(rt; is_left(&rt));
}
