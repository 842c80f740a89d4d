//! The command `serve` with several connections at one time: its lines and its exit statuses, over sockets of memory.

ghost use Rattle.std.specs.Prelude.{◌≡◌};

use ua_command::{Crowd, Why, serve_sockets};
use ua_disco::{DEFAULT, Settings};
use ua_link::{Clock, LinkFault, ReadyLink};
use ua_serve::{Accepted, Sockets};
use ua_test_runs::pages::{Page, has, is_output};
use ua_test_runs::vectors::CALLS;

/// A clock that gains half a second each time that it is asked.
#[derive(Clone, Copy)]
struct SteppingClock(i64);

impl Clock for SteppingClock {
    fn now(&mut self) -> i64 {
        self.0 = self.0.wrapping_add(5_000_000);
        self.0
    }
}

/// A client of memory, all of whose bytes are there, and which takes all that comes; its link fails behind so many calls.
#[derive(Clone, Copy)]
struct Caller<'a> {
    says: &'a [u8],
    leaves: bool,
    calls: u32,
    failures: u64,
}

impl<'a> Caller<'a> {
    fn passes(&mut self) -> bool
        ensures { self.new.failures ≡ self.old.failures }
    {
        if self.calls == 0 {
            return false;
        }
        self.calls -= 1;
        true
    }
}

impl<'a> ReadyLink for Caller<'a> {
    ghost fault_count = { λ l. l.failures };

    fn recv_now(&mut self, buf: &mut [u8]) -> Result<Option<usize>, LinkFault> {
        if !self.passes() {
            self.failures += 1;
            return Err(LinkFault);
        }
        let n = buf.len().min(self.says.len());
        let (first, rest) = self.says.split_at(n);
        buf[..n].copy_from_slice(first);
        self.says = rest;
        if n == 0 && !self.leaves {
            return Ok(None);
        }
        Ok(Some(n))
    }

    fn send_now(&mut self, bytes: &[u8]) -> Result<Option<usize>, LinkFault> {
        if self.passes() {
            return Ok(Some(bytes.len()));
        }
        self.failures += 1;
        Err(LinkFault)
    }

    fn end_output(&mut self) {}

    fn failures(&self) -> u64 {
        self.failures
    }
}

const fn leaving<'a>(says: &'a [u8]) -> Caller<'a> {
    Caller {
        says,
        leaves: true,
        calls: 1000,
        failures: 0,
    }
}

const fn staying<'a>(says: &'a [u8]) -> Caller<'a> {
    Caller {
        says,
        leaves: false,
        calls: 1000,
        failures: 0,
    }
}

const fn failing<'a>(says: &'a [u8], calls: u32) -> Caller<'a> {
    Caller {
        says,
        leaves: true,
        calls,
        failures: 0,
    }
}

/// Sockets of memory: accepting fails so often first, and then these come.
#[derive(Clone, Copy)]
struct Listener<'a> {
    fails: u32,
    coming: &'a [Caller<'a>],
    breaks: bool,
}

impl<'a> Sockets for Listener<'a> {
    type Link = Caller<'a>;

    fn wait(&mut self, _at_most: Option<u64>, ready: &mut [bool]) -> Result<(), LinkFault> {
        if self.breaks {
            return Err(LinkFault);
        }
        ready.fill(true);
        Ok(())
    }

    fn accept(&mut self, _place: usize) -> Accepted<Caller<'a>> {
        if self.fails > 0 {
            self.fails -= 1;
            return Accepted::Failed;
        }
        if self.coming.is_empty() {
            return Accepted::Nobody;
        }
        let first = self.coming[0];
        self.coming = &self.coming[1..];
        Accepted::Link(first)
    }
}

/// Serves so many connections of these sockets, so many at one time, and gives the exit status, and in `why` what is known
/// of what ended that.
fn serve(
    rt: &HostRuntime,
    listener: Listener,
    connections: u32,
    at_once: u32,
    printed: &mut Page,
    told: &mut Page,
    why: &mut Why,
) -> Option<u8> {
    let Ok(settings) = Settings::from_toml(rt.alloc(), DEFAULT.as_bytes()) else {
        return None;
    };
    let mut listener = listener;
    let mut clock = SteppingClock(0);
    let mut timer = SteppingClock(0);
    let crowd = Crowd {
        connections,
        at_once,
        patience: 30,
    };
    Some(serve_sockets(
        rt.alloc(),
        &mut listener,
        &mut clock,
        &mut timer,
        &settings,
        crowd,
        printed,
        told,
        why,
    ))
}

/// Whether they are served with this status, these lines, and this told.
fn serves(
    rt: &HostRuntime,
    listener: Listener,
    connections: u32,
    at_once: u32,
    want: (u8, &str, &str),
) -> bool {
    let (status, lines, errors) = want;
    let mut printed = Page::new(4096);
    let mut told = Page::new(4096);
    let came = serve(
        rt,
        listener,
        connections,
        at_once,
        &mut printed,
        &mut told,
        &mut Why::Unknown,
    );
    came == Some(status) && printed.text() == lines.as_bytes() && told.text() == errors.as_bytes()
}

fn coming<'a>(coming: &'a [Caller<'a>]) -> Listener<'a> {
    Listener {
        fails: 0,
        coming,
        breaks: false,
    }
}

/// The lines stand in the order in which the connections end.
const LINES: &str = "connection 1 closed read 338 written 297
connection 2 refused 807E0000 read 16 written 16
connection 3 truncated read 28 written 0
connection 5 input-ended read 188 written 163
connection 4 timed-out read 56 written 28
";

/// A whole conversation, one that is no client of ours, half a Hello, a Hello and nothing more, and an opening.
fn serves_five(rt: &HostRuntime) -> bool {
    let clients = [
        leaving(CALLS),
        leaving(b"GET / HTTP/1.1\r\n"),
        leaving(&CALLS[..28]),
        staying(&CALLS[..56]),
        leaving(&CALLS[..188]),
    ];
    serves(rt, coming(&clients), 5, 5, (0, LINES, ""))
}

#[test]
fn each_connection_has_a_line(rt: HostRuntime) {
    assert!(rt; serves_five(&rt));
}

const FAILED: &str = "connection 1 link-failed read 0 written 0
connection 2 link-failed read 338 written 0
connection 3 input-ended read 56 written 28
";

fn fails_in_two(rt: &HostRuntime) -> bool {
    let clients = [failing(CALLS, 0), failing(CALLS, 1), leaving(&CALLS[..56])];
    serves(rt, coming(&clients), 3, 3, (3, FAILED, ""))
}

#[test]
fn links_that_fail_end_no_run(rt: HostRuntime) {
    assert!(rt; fails_in_two(&rt));
}

const ONE: &str = "connection 1 input-ended read 56 written 28\n";

const TWO_FAILURES: &str = "not accepted 1\nnot accepted 2\n";

fn accepts_again(rt: &HostRuntime) -> bool {
    let clients = [leaving(&CALLS[..56])];
    let listener = Listener {
        fails: 2,
        coming: &clients,
        breaks: false,
    };
    serves(rt, listener, 1, 1, (0, ONE, TWO_FAILURES))
}

/// Whether the hundredth failure in a row ends the command.
fn gives_up(rt: &HostRuntime) -> bool {
    let listener = Listener {
        fails: 100,
        coming: &[],
        breaks: false,
    };
    let mut printed = Page::new(4096);
    let mut told = Page::new(4096);
    let mut why = Why::Unknown;
    let came = serve(rt, listener, 1, 2, &mut printed, &mut told, &mut why);
    came == Some(3)
        && printed.len == 0
        && told.text().starts_with(b"not accepted 1\nnot accepted 2\n")
        && told
            .text()
            .ends_with(b"\nnot accepted 98\nnot accepted 99\nlink\n")
        && told.len == 9 * 15 + 90 * 16 + 5
        && matches!(why, Why::NoneAccepted)
}

/// Ninety-nine in a row end nothing.
fn goes_on_before(rt: &HostRuntime) -> bool {
    let clients = [leaving(&CALLS[..56])];
    let listener = Listener {
        fails: 99,
        coming: &clients,
        breaks: false,
    };
    let mut printed = Page::new(4096);
    let mut told = Page::new(4096);
    let mut why = Why::Unknown;
    let came = serve(rt, listener, 1, 2, &mut printed, &mut told, &mut why);
    came == Some(0)
        && printed.text() == ONE.as_bytes()
        && has(told.text(), "\nnot accepted 99\n")
        && told.len == 9 * 15 + 90 * 16
        && matches!(why, Why::Unknown)
}

#[test]
fn failures_to_accept_are_told(rt: HostRuntime) {
    assert!(rt; accepts_again(&rt));
    assert!(rt; gives_up(&rt));
    assert!(rt; goes_on_before(&rt));
}

/// Whether a wait that fails ends the command.
fn breaks(rt: &HostRuntime) -> bool {
    let listener = Listener {
        fails: 0,
        coming: &[],
        breaks: true,
    };
    let mut printed = Page::new(4096);
    let mut told = Page::new(4096);
    let mut why = Why::Unknown;
    let came = serve(rt, listener, 1, 1, &mut printed, &mut told, &mut why);
    came == Some(3)
        && printed.len == 0
        && told.text() == b"link\n".as_slice()
        && matches!(why, Why::NotWaited)
}

/// Whether a line for which there is no room ends it.
fn is_not_printed(rt: &HostRuntime) -> bool {
    let clients = [leaving(&CALLS[..56]), leaving(&CALLS[..56])];
    let mut printed = Page::new(10);
    let mut told = Page::new(4096);
    let mut why = Why::Unknown;
    let came = serve(
        rt,
        coming(&clients),
        2,
        1,
        &mut printed,
        &mut told,
        &mut why,
    );
    came == Some(3)
        && printed.text() == b"connection".as_slice()
        && told.text() == b"file\n".as_slice()
        && is_output(&why)
}

#[test]
fn waits_and_lines_fail(rt: HostRuntime) {
    assert!(rt; breaks(&rt));
    assert!(rt; is_not_printed(&rt));
}

/// Whether two are served, or end for want of memory, each alone, or nothing begins.
fn two_or_no_memory(rt: &HostRuntime) -> bool {
    let clients = [leaving(&CALLS[..188]), leaving(&CALLS[..56])];
    let lines =
        "connection 1 input-ended read 188 written 163\nconnection 2 input-ended read 56 written 28\n";
    let mut printed = Page::new(4096);
    let mut told = Page::new(4096);
    match serve(
        rt,
        coming(&clients),
        2,
        2,
        &mut printed,
        &mut told,
        &mut Why::Unknown,
    ) {
        None => true,
        Some(0) => printed.text() == lines.as_bytes(),
        Some(4) if printed.len == 0 => told.text() == b"memory\n".as_slice(),
        Some(4) => has(printed.text(), " memory read ") && has(printed.text(), "connection 2 "),
        _ => false,
    }
}

#[test]
fn serves_two_or_no_memory(rt: HostRuntime) {
    assert!(rt; two_or_no_memory(&rt));
}

/// The lines of two that say nothing, one after the other.
const SILENT: &str =
    "connection 1 input-ended read 0 written 0\nconnection 2 input-ended read 0 written 0\n";

/// The same without memory for the first, and without memory for the second.
const NO_FIRST: &str =
    "connection 1 memory read 0 written 0\nconnection 2 input-ended read 0 written 0\n";

const NO_SECOND: &str =
    "connection 1 input-ended read 0 written 0\nconnection 2 memory read 0 written 0\n";

/// Whether each has its whole line, or nothing begins. As nothing is said, a connection wants memory only as it begins.
fn silent_or_no_memory(rt: &HostRuntime) -> bool {
    let clients = [leaving(b""), leaving(b"")];
    let mut printed = Page::new(4096);
    let mut told = Page::new(4096);
    match serve(
        rt,
        coming(&clients),
        2,
        1,
        &mut printed,
        &mut told,
        &mut Why::Unknown,
    ) {
        None => true,
        Some(0) => printed.text() == SILENT.as_bytes() && told.len == 0,
        Some(4) if printed.len == 0 => told.text() == b"memory\n".as_slice(),
        Some(4) if printed.text() == NO_FIRST.as_bytes() => told.len == 0,
        Some(4) => printed.text() == NO_SECOND.as_bytes() && told.len == 0,
        _ => false,
    }
}

#[test]
fn each_has_its_line_or_no_memory(rt: HostRuntime) {
    assert!(rt; silent_or_no_memory(&rt));
}
