//! How long a connection is served that never ends: 65536 reads.

use std::io;
use std::io::{Read, Write};
use std::net::{Ipv4Addr, OpenListener, OpenStream, SocketAddr, SocketAddrV4};
use ua_command::{Why, serve_on};
use ua_disco::{DEFAULT, Settings};
use ua_test_runs::pages::Page;
use ua_test_runs::vectors::CALLS;

/// The header of the longest message that a server takes by the settings by default. It is whole after 65535 bytes.
const LONGEST: &[u8; 8] = b"MSGF\xFF\xFF\0\0";

/// The bytes of a Hello and an open request.
const OPENING: usize = 188;

/// A stream that opens a channel and then gives the beginning of the longest message and zeros, a byte a read.
#[derive(Clone, Copy)]
struct SlowStream {
    given: usize,
}

/// The byte at a place, from 0.
fn byte_at(place: usize) -> u8 {
    let byte = match place.checked_sub(OPENING) {
        None => CALLS.get(place),
        Some(behind) => LONGEST.get(behind),
    };
    byte.copied().unwrap_or(0)
}

impl Read for SlowStream {
    fn read(&mut self, buf: &mut [u8]) -> io::Result<usize> {
        let Some(first) = buf.first_mut() else {
            return Ok(0);
        };
        *first = byte_at(self.given);
        self.given = self.given.saturating_add(1);
        Ok(1)
    }
}

impl Write for SlowStream {
    fn write(&mut self, buf: &[u8]) -> io::Result<usize> {
        Ok(buf.len())
    }

    fn flush(&mut self) -> io::Result<()> {
        Ok(())
    }
}

impl OpenStream for SlowStream {}

/// A listener that gives such streams.
#[derive(Clone, Copy)]
struct SlowListener;

impl OpenListener for SlowListener {
    type Stream = SlowStream;

    fn accept(&self) -> io::Result<(SlowStream, SocketAddr)> {
        let address = SocketAddr::V4(SocketAddrV4::new(Ipv4Addr::new(127, 0, 0, 1), 4840));
        Ok((SlowStream { given: 0 }, address))
    }
}

/// The opening was answered, and the message never came to its end.
const SPENT: &str = "connection 1 turns-spent read 65536 written 163\n";

fn is_given_up(rt: &HostRuntime) -> bool {
    let Ok(settings) = Settings::from_toml(rt.alloc(), DEFAULT.as_bytes()) else {
        return false;
    };
    let (mut printed, mut told) = (Page::new(4096), Page::new(4096));
    let mut why = Why::Unknown;
    let status = serve_on(
        rt,
        &SlowListener,
        &settings,
        1,
        &mut printed,
        &mut told,
        &mut why,
    );
    status == 0 && printed.text() == SPENT.as_bytes() && told.text().is_empty()
}

#[test]
fn a_connection_is_served_for_so_many_reads(rt: HostRuntime) {
    assert!(rt; is_given_up(&rt));
}
