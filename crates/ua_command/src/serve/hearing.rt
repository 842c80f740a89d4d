//! How a connection is closed behind the last word of this end.

use std::io::Read;
use std::net::{OpenStream, Shutdown};
use std::rt::Clock;
use std::time::{Duration, Instant};
use ua_conn::End;

/// For how many seconds the other end is heard out.
const SECONDS: u64 = 1;

/// The most bytes that are dropped of what it still says.
const MOST: usize = 65536;

/// Whether this end had the last word of a connection that ended so, and the other end may still speak.
pub fn has_last_word(end: End) -> bool {
    matches!(end, End::Closed | End::Refused(_) | End::TurnsSpent)
}

/// What is left of the time that began then, where it is not over.
fn time_left<R: Clock>(rt: &R, start: Instant) -> Option<Duration> {
    match start.elapsed(rt) {
        Ok(time) => Duration::from_secs(SECONDS).checked_sub(time),
        Err(_) => None,
    }
}

/// Shuts the way out, and drops what still comes, until the input ends, a call fails, a second has gone by, or 65536 bytes
/// came. (A system that closes a stream with bytes unread breaks it off, and the other end reads a failure then, maybe in
/// the place of the last word.)
pub fn hear_out<R: Clock, S: Read + OpenStream>(rt: &R, stream: &mut S) {
    let Ok(start) = Instant::now(rt) else {
        return;
    };
    if stream.shutdown(Shutdown::Write).is_err() {
        return;
    }
    let mut room = [0u8; 4096];
    let mut left = MOST;
    'reads: for _ in 0..MOST {
        let Some(time) = time_left(rt, start) else {
            return;
        };
        if stream.set_read_timeout(Some(time)).is_err() {
            return;
        }
        match stream.read(&mut room[..left.min(4096)]) {
            Ok(n) if n > 0 => left = left.saturating_sub(n),
            _ => return,
        }
    }
}
