//! The command `serve` with several connections at one time, over loopback.

use std::io::{Read, Write};
use std::net::{Shutdown, TcpStream};
use std::time::Duration;
use ua_command::{Crowd, Source, Stop, Why, serve_many, serve_sockets};
use ua_disco::{DEFAULT, Settings};
use ua_link::{MachineClock, SteadyClock};
use ua_serve::TcpSockets;
use ua_test_runs::pages::{Page, has};
use ua_test_runs::vectors::{ACKNOWLEDGE, CALLS};

/// How many seconds a read over loopback waits at most.
const LONGEST: u64 = 20;

/// A client that says these bytes, and then leaves or stays.
fn client(rt: &HostRuntime, sockets: &TcpSockets, bytes: &[u8], leaves: bool) -> Option<TcpStream> {
    let Ok(address) = sockets.local_addr() else {
        return None;
    };
    let Ok(mut near) = TcpStream::connect(rt, address) else {
        return None;
    };
    let longest = Some(Duration::from_secs(LONGEST));
    if near.set_read_timeout(longest).is_err() || near.write_all(bytes).is_err() {
        return None;
    }
    if leaves && near.shutdown(Shutdown::Write).is_err() {
        return None;
    }
    Some(near)
}

/// Whether an Acknowledge comes, and then the end.
fn is_acknowledged(near: &mut TcpStream) -> bool {
    let mut first = [0u8; 28];
    let mut more = [0u8; 1];
    near.read_exact(&mut first).is_ok()
        && first.as_slice() == ACKNOWLEDGE
        && matches!(near.read(&mut more), Ok(0))
}

const OVER_LOOPBACK: &str = "connection 2 input-ended read 56 written 28
connection 3 input-ended read 56 written 28
connection 1 timed-out read 56 written 28
";

/// Whether three are served at two places, of which the first one stays.
fn are_served(rt: &HostRuntime, sockets: &mut TcpSockets) -> bool {
    let Ok(settings) = Settings::from_toml(rt.alloc(), DEFAULT.as_bytes()) else {
        return false;
    };
    let crowd = Crowd {
        connections: 3,
        at_once: 2,
        patience: 1,
    };
    let mut printed = Page::new(4096);
    let mut told = Page::new(4096);
    let mut clock = MachineClock::new(rt);
    let mut timer = SteadyClock::new(rt);
    let status = serve_sockets(
        rt.alloc(),
        sockets,
        &mut clock,
        &mut timer,
        &settings,
        crowd,
        &mut printed,
        &mut told,
        &mut Why::Unknown,
    );
    status == 0 && printed.text() == OVER_LOOPBACK.as_bytes() && told.len == 0
}

fn serves_over_loopback(rt: &HostRuntime) -> bool {
    let Ok(mut sockets) = TcpSockets::bind(rt, rt.alloc(), "127.0.0.1:0", 2) else {
        return false;
    };
    let stays = client(rt, &sockets, &CALLS[..56], false);
    let second = client(rt, &sockets, &CALLS[..56], true);
    let third = client(rt, &sockets, &CALLS[..56], true);
    match (stays, second, third) {
        (Some(mut stays), Some(mut second), Some(mut third)) => {
            are_served(rt, &mut sockets)
                && is_acknowledged(&mut stays)
                && is_acknowledged(&mut second)
                && is_acknowledged(&mut third)
        }
        _ => false,
    }
}

#[test]
fn a_client_that_stays_holds_up_nobody(rt: HostRuntime) {
    assert!(rt; serves_over_loopback(&rt));
}

/// Whether it listens for nobody, or ends for want of memory before it listens or behind that.
fn listens_or_not(rt: &HostRuntime) -> bool {
    let crowd = Crowd {
        connections: 0,
        at_once: 2,
        patience: 1,
    };
    let (mut printed, mut told) = (Page::new(4096), Page::new(4096));
    let came = serve_many(
        rt,
        &Source::Default,
        "127.0.0.1:0",
        crowd,
        &mut printed,
        &mut told,
        &mut Why::Unknown,
    );
    let listened = has(told.text(), "listening 127.0.0.1:");
    let memory = has(told.text(), "memory\n");
    match came {
        Ok(0) => listened && !memory,
        Ok(4) => listened && memory,
        Err(Stop::NoMemory) => told.len == 0,
        _ => false,
    }
}

#[test]
fn listens_or_no_memory(rt: HostRuntime) {
    assert!(rt; listens_or_not(&rt));
}
