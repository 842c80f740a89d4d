//! A server over loopback: a client that says all first, and one that takes turns with it.

ghost use Rattle.std.specs.Prelude.{◌≡◌};

use crate::links::{Came, StillClock, TURNS, came_of};
use std::alloc::Global;
use std::io::{Read, Write};
use std::net::{Shutdown, TcpListener, TcpStream};
use std::time::Duration;
use ua_conn::End;
use ua_disco::Settings;
use ua_link::{Link, LinkFault, TcpLink, serve_connection};
use ua_test_lent::by_default;
use ua_test_shared::bytes::joined;
use ua_test_shared::lending::judged;
use ua_test_shared::vectors::{CALLS, REPLIES};

/// How many seconds a read over loopback waits at most.
const PATIENCE: u64 = 20;

/// Both ends of a connection over loopback.
#[derive(Drop)]
struct Loopback {
    near: TcpStream,
    far: TcpStream,
}

/// The client connects before the server accepts, so neither waits.
fn connected(rt: &HostRuntime) -> Option<Loopback> {
    let listener = TcpListener::bind(rt, "127.0.0.1:0").ok();
    judged(listener, |listener| connected_to(rt, listener))
}

fn connected_to(rt: &HostRuntime, listener: &TcpListener) -> Option<Loopback> {
    let address = listener.local_addr().ok()?;
    let near = TcpStream::connect(rt, address).ok()?;
    match listener.accept() {
        Ok((far, _)) => Some(Loopback { near, far }),
        Err(_) => None,
    }
}

fn is_patient(both: &Loopback) -> bool {
    let patience = Some(Duration::from_secs(PATIENCE));
    both.near.set_read_timeout(patience).is_ok() && both.far.set_read_timeout(patience).is_ok()
}

/// Whether just these bytes come, and then the end where `last`.
fn hears(stream: &mut TcpStream, bytes: &[u8], last: bool) -> bool {
    let mut piece = [0u8; 512];
    let mut heard = 0;
    for _ in 0..32 {
        if heard == bytes.len() && !last {
            return true;
        }
        let Ok(n) = stream.read(&mut piece) else {
            return false;
        };
        if n == 0 {
            return last && heard == bytes.len();
        }
        if !bytes[heard.min(bytes.len())..].starts_with(&piece[..n]) {
            return false;
        }
        heard = heard.saturating_add(n).min(bytes.len());
    }
    false
}

fn calls_all(stream: &mut TcpStream) -> bool {
    for call in CALLS {
        if stream.write_all(call).is_err() {
            return false;
        }
    }
    stream.shutdown(Shutdown::Write).is_ok()
}

/// The client says all, is served, and then hears all.
fn is_served_over_loopback(alloc: Global, settings: &Settings, both: Loopback) -> bool {
    let patient = is_patient(&both);
    let Loopback { mut near, far } = both;
    let called = patient && calls_all(&mut near);
    let (end, written, _) = serves(alloc, settings, far);
    called && end == End::Closed && written == 297 && hears_all(alloc, &mut near)
}

/// Serves a stream, which is closed then.
fn serves(alloc: Global, settings: &Settings, far: TcpStream) -> Came {
    let mut link = TcpLink::new(far);
    let report = serve_connection(alloc, settings, 1, &mut link, &mut StillClock, TURNS);
    came_of(&report)
}

fn hears_all(alloc: Global, near: &mut TcpStream) -> bool {
    match joined(alloc, &REPLIES) {
        Ok(replies) => hears(near, replies.as_slice(), true),
        Err(_) => false,
    }
}

fn serves_over_loopback(rt: &HostRuntime, settings: &Settings) -> bool {
    match connected(rt) {
        Some(both) => is_served_over_loopback(rt.alloc(), settings, both),
        None => false,
    }
}

#[test]
fn a_client_is_served_over_loopback(rt: HostRuntime) {
    assert!(rt;
        by_default(
            rt.alloc(),
            |_, settings| serves_over_loopback(&rt, settings)
        )
    );
}

/// A link over loopback whose client says its next call before each read, and hears the reply to the one before first.
#[derive(Drop)]
struct TurnsLink {
    near: TcpStream,
    far: TcpLink,
    turn: usize,
    right: bool,
    failures: u64,
}

impl TurnsLink {
    fn hear_and_say(&mut self)
        ensures { self.new.failures ≡ self.old.failures }
    {
        let turn = self.turn;
        let heard = match turn.checked_sub(1) {
            Some(before) => match REPLIES.get(before) {
                Some(reply) => hears(&mut self.near, reply, false),
                None => false,
            },
            None => true,
        };
        let said = match CALLS.get(turn) {
            Some(call) => self.near.write_all(call).is_ok(),
            None => false,
        };
        self.right = self.right && heard && said;
        self.turn = turn.saturating_add(1);
    }
}

impl Link for TurnsLink {
    ghost fault_count = { λ l. l.failures };

    fn recv(&mut self, buf: &mut [u8]) -> Result<usize, LinkFault> {
        self.hear_and_say();
        if self.far.failures() < u64::MAX {
            if let Ok(n) = self.far.recv(buf) {
                return Ok(n);
            }
        }
        self.failures += 1;
        Err(LinkFault)
    }

    fn send(&mut self, bytes: &[u8]) -> Result<usize, LinkFault> {
        if self.far.failures() < u64::MAX {
            if let Ok(n) = self.far.send(bytes) {
                return Ok(n);
            }
        }
        self.failures += 1;
        Err(LinkFault)
    }

    fn failures(&self) -> u64 {
        self.failures
    }
}

fn takes_turns(alloc: Global, settings: &Settings, both: Loopback) -> bool {
    let patient = is_patient(&both);
    let Loopback { near, far } = both;
    let mut link = TurnsLink {
        near,
        far: TcpLink::new(far),
        turn: 0,
        right: true,
        failures: 0,
    };
    let report = serve_connection(alloc, settings, 1, &mut link, &mut StillClock, TURNS);
    let came = came_of(&report);
    patient && came == (End::Closed, 297, 4) && link.right && link.turn == 4
}

fn takes_turns_over_loopback(rt: &HostRuntime, settings: &Settings) -> bool {
    match connected(rt) {
        Some(both) => takes_turns(rt.alloc(), settings, both),
        None => false,
    }
}

#[test]
fn a_client_and_a_server_take_turns_over_loopback(rt: HostRuntime) {
    assert!(rt;
        by_default(
            rt.alloc(),
            |_, settings| takes_turns_over_loopback(&rt, settings)
        )
    );
}
