//! Questions within a time: over streams that say "not now", by a timer of steps, and over loopback.

ghost use Rattle.std.specs.Prelude.{◌≡◌, ◌==◌, Bool};

use crate::asking::{PRESS, answer_over};
use std::alloc::Global;
use std::net::{Net, TcpListener};
use std::rt::{Clock, Files};
use std::time::{Duration, Instant};
use ua_command::run::run;
use ua_command::{Question, Why};
use ua_link::Link;
use ua_socket::{NotDone, Reason, Stream, TimedLink, Timer, Wanted};
use ua_test_runs::addresses::left_address;
use ua_test_runs::pages::{Page, ends_so};
use ua_test_runs::vectors::{ACKNOWLEDGE, FIND_RESPONSE, OPEN_RESPONSE};

const URL: &str = "opc.tcp://localhost:4840";

/// A time of so many steps, each of a second; it is a step shorter each time that it is asked for.
#[derive(Drop)]
struct Steps {
    left: u32,
}

impl Timer for Steps {
    ghost is_over = { λ s. s.left == 0 };

    fn left(&mut self) -> Option<Duration> {
        self.left = self.left.saturating_sub(1);
        if self.left == 0 {
            return None;
        }
        Some(Duration::from_secs(u64::from(self.left)))
    }

    fn is_over(&self) -> bool {
        self.left == 0
    }
}

/// How a stream goes on behind its bytes.
#[derive(Clone, Copy, PartialEq, Eq)]
enum Behind {
    /// Nothing comes any more.
    Silence,
    /// The input ends.
    End,
    /// Reads fail.
    Failure,
}

/// A stream of these pieces, of which each read gives a byte behind one "not now", and so many bytes in all.
#[derive(Drop)]
struct Halting<'a> {
    pieces: [&'a [u8]; 3],
    given: usize,
    halt: usize,
    waited: bool,
    behind: Behind,
}

/// The byte at an offset of the pieces, which are joined.
fn byte_at(pieces: &[&[u8]; 3], at: usize) -> u8 {
    let mut at = at;
    for piece in pieces {
        match piece.get(at) {
            Some(byte) => return *byte,
            None => at = at.saturating_sub(piece.len()),
        }
    }
    0
}

impl Stream for Halting<'_> {
    fn recv(&mut self, buf: &mut [u8]) -> Result<usize, NotDone> {
        if !self.waited {
            return Err(NotDone::NotNow);
        }
        self.waited = false;
        if self.given >= self.halt {
            return match self.behind {
                Behind::Silence => Err(NotDone::NotNow),
                Behind::End => Ok(0),
                Behind::Failure => Err(NotDone::Failed(Reason::Stuck)),
            };
        }
        let Some(first) = buf.first_mut() else {
            return Ok(0);
        };
        *first = byte_at(&self.pieces, self.given);
        self.given = self.given.saturating_add(1);
        Ok(1)
    }

    fn send(&mut self, bytes: &[u8]) -> Result<usize, NotDone> {
        Ok(bytes.len())
    }

    fn wait(&mut self, _wanted: Wanted, _at_most: Duration) -> Result<(), Reason> {
        self.waited = true;
        Ok(())
    }
}

/// A link to a server that stops at this byte of its answer, within so many steps.
fn link_that_halts<'a>(halt: usize, behind: Behind, steps: u32) -> TimedLink<Halting<'a>, Steps>
    ensures { result.failures ≡ 0 }
{
    let stream = Halting {
        pieces: [ACKNOWLEDGE, OPEN_RESPONSE, FIND_RESPONSE],
        given: 0,
        halt,
        waited: false,
        behind,
    };
    TimedLink::new(
        stream,
        Steps { left: steps },
        Duration::from_secs(u64::from(steps)),
    )
}

/// Whether a question over the link has this status, and what is printed and told then.
fn asks<L: Link>(alloc: Global, link: &mut L, status: u8, output: &str, errors: &str) -> bool
    requires { L.fault_count link.old ≡ 0 }
{
    let (came, printed, told) = answer_over(alloc, link, Question::Find, Some(URL), 4096);
    came == status && printed.text() == output.as_bytes() && told.text() == errors.as_bytes()
}

/// Whether the link failed since its time was over.
fn is_late(reason: Option<Reason>) -> bool {
    match reason {
        Some(Reason::Late) => true,
        _ => false,
    }
}

/// Whether a server that stops at this byte of its answer ends the question with the time.
fn ends_in_time(alloc: Global, halt: usize) -> bool {
    let mut link = link_that_halts(halt, Behind::Silence, 800);
    asks(alloc, &mut link, 3, "", "link\n")
        && is_late(link.reason)
        && link.timer.is_over()
        && link.received == halt as u64
        && !link.ended
        && link.failures() == 1
}

/// The bytes of the whole answer.
const ANSWER: usize = 297;

#[test]
fn a_server_stops_at_each_byte_of_its_answer(rt: HostRuntime) {
    for halt in 0..ANSWER {
        assert!(rt; ends_in_time(rt.alloc(), halt), "{halt}");
    }
}

/// Whether a whole answer comes within so many steps: two for each of its bytes, one behind the last, and one for each
/// send.
fn comes_in_time(alloc: Global, steps: u32, comes: bool) -> bool {
    let mut link = link_that_halts(ANSWER, Behind::Silence, steps);
    if !comes {
        return asks(alloc, &mut link, 3, "", "link\n") && is_late(link.reason);
    }
    asks(alloc, &mut link, 0, PRESS, "") && link.received == ANSWER as u64
}

#[test]
fn an_answer_comes_in_time(rt: HostRuntime) {
    assert!(rt; comes_in_time(rt.alloc(), 800, true));
    assert!(rt; comes_in_time(rt.alloc(), 500, false));
    assert!(rt; comes_in_time(rt.alloc(), 1, false));
}

/// Whether a stream that ends, or fails, behind so many bytes is no matter of the time.
fn is_no_matter_of_time(alloc: Global, halt: usize, behind: Behind) -> bool {
    let mut link = link_that_halts(halt, behind, 800);
    asks(alloc, &mut link, 3, "", "link\n")
        && link.reason.is_some() == (behind == Behind::Failure)
        && !is_late(link.reason)
        && link.ended == (behind == Behind::End)
        && !link.timer.is_over()
}

#[test]
fn a_stream_ends_or_fails(rt: HostRuntime) {
    for halt in [0, 1, 28, 100, 296] {
        assert!(rt;
            is_no_matter_of_time(rt.alloc(), halt, Behind::End),
            "{halt}"
        );
        assert!(rt;
            is_no_matter_of_time(rt.alloc(), halt, Behind::Failure),
            "{halt}"
        );
    }
}

/// Whether a call of a link whose time is over reads and writes nothing.
fn is_silent_then(halt: usize) -> bool {
    let mut link = link_that_halts(halt, Behind::Silence, 1);
    let mut room = [0u8; 4];
    let heard = link.recv(&mut room).is_err() && link.received == 0;
    heard && link.send(b"HELF").is_err() && link.failures() == 2 && is_late(link.reason)
}

#[test]
fn nothing_is_read_behind_the_time(_rt: HostRuntime) {
    assert!(_rt; is_silent_then(ANSWER));
}

/// Whether the question ends within some seconds, for a want of a link.
fn ends_soon<R: Files + Net + Clock + AllocGlobal>(rt: &R, words: &[&str], least: u64) -> bool {
    let Ok(start) = Instant::now(rt) else {
        return false;
    };
    let mut input = b"".as_slice();
    if !ends_so(rt, words, &mut input, 3, "", "link\n") {
        return false;
    }
    match start.elapsed(rt) {
        Ok(time) => time.as_secs() >= least && time.as_secs() <= least.saturating_add(5),
        Err(_) => false,
    }
}

/// Whether a question to a listener that accepts and says nothing ends with its time.
fn waits_so_long(rt: &HostRuntime) -> bool {
    let Ok(listener) = TcpListener::bind(rt, "127.0.0.1:0") else {
        return false;
    };
    let Ok(address) = listener.local_addr() else {
        return false;
    };
    match address.to_string(rt.alloc()) {
        Ok(text) => ends_soon(
            rt,
            &["ask", "find", text.as_str(), URL, "--timeout", "1"],
            1,
        ),
        Err(_) => false,
    }
}

#[test]
fn a_silent_server_ends_with_the_time(rt: HostRuntime) {
    assert!(rt; waits_so_long(&rt));
}

/// The question at an address where nobody listens, or nothing printed.
fn fails_or_not(rt: &HostRuntime, address: &str) -> bool {
    let mut input = b"".as_slice();
    let mut printed = Page::new(4096);
    let mut told = Page::new(4096);
    let words = ["ask", "find", address, URL];
    let status = run(rt, &words, &mut input, &mut printed, &mut told);
    let text = told.text();
    match status {
        3 => printed.text().is_empty() && text == b"link\n".as_slice(),
        4 => printed.text().is_empty() && text == b"memory\n".as_slice(),
        _ => false,
    }
}

#[test]
fn nobody_is_asked_or_no_memory(rt: HostRuntime) {
    let Some(address) = left_address(&rt) else {
        panic!(rt; "no address");
    };
    match address.to_string(rt.alloc()) {
        Ok(text) => assert!(rt; fails_or_not(&rt, text.as_str())),
        Err(_) => {}
    }
}
