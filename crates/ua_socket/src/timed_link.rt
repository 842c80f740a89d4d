//! A link over a stream that does not block, within a time.

ghost use Rattle.std.specs.Prelude.{◌≡◌, ◌+◌, ◌-◌, ◌<◌, ◌^◌, Bool, true, false, length, IfOk};
ghost use Rattle.std.specs.Io.{ReadsAtMost, WritesAtMost};
ghost use Rattle.std.specs.Io.KnownBytes.{ReadConsumes, WriteAppends};
ghost use Rattle.ua_link.specs.Link.{Counts};

use crate::reason::Reason;
use crate::stream::{NotDone, Stream, Wanted};
use crate::timer::Timer;
use std::time::Duration;
use ua_link::{Link, LinkFault};

/// How often a call is tried again after a wait.
const MOST_TRIES: u32 = 65536;

/// A link over a stream, by a timer: each call waits where it has to, and fails once the time is over.
#[derive(Drop)]
pub struct TimedLink<S, T> {
    pub stream: S,
    pub timer: T,
    /// How many calls failed.
    failures: u64,
    /// Why the last call failed that did.
    pub reason: Option<Reason>,
    /// The bytes that came.
    pub received: u64,
    /// What was left of the time when the last bytes came.
    pub quiet: Duration,
    /// Whether the input ended.
    pub ended: bool,
}

impl<S, T> TimedLink<S, T> {
    /// A link over this stream by this timer, of which so much is left.
    pub fn new(stream: S, timer: T, left: Duration) -> TimedLink<S, T>
        ensures stream { result.stream ≡ stream }
        ensures timer { result.timer ≡ timer }
        ensures none_failed { result.failures ≡ 0 }
    {
        TimedLink {
            stream,
            timer,
            failures: 0,
            reason: None,
            received: 0,
            quiet: left,
            ended: false,
        }
    }

    /// Counts a call that failed, for this reason.
    fn fail(&mut self, reason: Reason) -> LinkFault
        requires { self.old.failures < 2 ^ 64 - 1 }
        ensures counted { self.new.failures ≡ self.old.failures + 1 }
        ensures stream { self.new.stream ≡ self.old.stream }
        ensures timer { self.new.timer ≡ self.old.timer }
    {
        self.reason = Some(reason);
        self.failures += 1;
        LinkFault
    }
}

/// Reads once there is something, within the time; `quiet` is then what was left of it. Once it is over nothing is read.
fn recv_in_time<S: Stream, T: Timer>(
    stream: &mut S,
    timer: &mut T,
    quiet: &mut Duration,
    buf: &mut [u8],
) -> Result<usize, Reason>
    ensures bound { ReadsAtMost result buf.new }
    ensures bytes { ReadConsumes (S.input stream.old) (S.input stream.new) result buf.new }
    ensures kept { S.output stream.new ≡ S.output stream.old }
    ensures in_time { IfOk result (λ _. T.is_over timer.new ≡ false) }
    ensures stays { T.is_over timer.old ≡ true → T.is_over timer.new ≡ true }
{
    'tries: for _ in 0..MOST_TRIES {
        let Some(left) = timer.left() else {
            return Err(Reason::Late);
        };
        match stream.recv(buf) {
            Ok(n) => {
                *quiet = left;
                return Ok(n);
            }
            Err(NotDone::Failed(reason)) => return Err(reason),
            Err(NotDone::NotNow) => {}
        }
        if let Err(reason) = stream.wait(Wanted::Read, left) {
            return Err(reason);
        }
    }
    Err(Reason::Stuck)
}

/// Writes once there is room for something, within the time. Once it is over nothing is written.
fn send_in_time<S: Stream, T: Timer>(
    stream: &mut S,
    timer: &mut T,
    bytes: &[u8],
) -> Result<usize, Reason>
    ensures bound { WritesAtMost result bytes.now }
    ensures some { IfOk result (λ n. 0 < length bytes.now → 0 < n) }
    ensures bytes { WriteAppends (S.output stream.old) (S.output stream.new) result bytes.now }
    ensures kept { S.input stream.new ≡ S.input stream.old }
    ensures in_time { IfOk result (λ _. T.is_over timer.new ≡ false) }
    ensures stays { T.is_over timer.old ≡ true → T.is_over timer.new ≡ true }
{
    'tries: for _ in 0..MOST_TRIES {
        let Some(at_most) = timer.left() else {
            return Err(Reason::Late);
        };
        match stream.send(bytes) {
            Ok(n) => return Ok(n),
            Err(NotDone::Failed(reason)) => return Err(reason),
            Err(NotDone::NotNow) => {}
        }
        if let Err(reason) = stream.wait(Wanted::Write, at_most) {
            return Err(reason);
        }
    }
    Err(Reason::Stuck)
}

impl<S: Stream, T: Timer> Link for TimedLink<S, T> {
    ghost input = { λ l. S.input l.stream };

    ghost output = { λ l. S.output l.stream };

    ghost fault_count = { λ l. l.failures };

    /// Reads from the stream, once there is something.
    ///
    /// # Errors
    ///
    /// `LinkFault` where the read fails, and where the time is over before something came. It is counted.
    fn recv(&mut self, buf: &mut [u8]) -> Result<usize, LinkFault>
        requires room { 0 < length buf.old }
        requires countable { self.old.failures < 2 ^ 64 - 1 }
        ensures bound { ReadsAtMost result buf.new }
        ensures bytes { ReadConsumes (S.input self.old.stream) (S.input self.new.stream) result buf.new }
        ensures kept { S.output self.new.stream ≡ S.output self.old.stream }
        ensures counted { Counts result self.old.failures self.new.failures }
        ensures in_time { IfOk result (λ _. T.is_over self.new.timer ≡ false) }
        ensures stays { T.is_over self.old.timer ≡ true → T.is_over self.new.timer ≡ true }
    {
        match recv_in_time(&mut self.stream, &mut self.timer, &mut self.quiet, buf) {
            Ok(n) => {
                self.received = self.received.saturating_add(n as u64);
                self.ended = n == 0;
                Ok(n)
            }
            Err(reason) => Err(self.fail(reason)),
        }
    }

    /// Writes to the stream, once there is room for something.
    ///
    /// # Errors
    ///
    /// `LinkFault` where the write fails, and where the time is over before something went out. It is counted.
    fn send(&mut self, bytes: &[u8]) -> Result<usize, LinkFault>
        requires countable { self.old.failures < 2 ^ 64 - 1 }
        ensures bound { WritesAtMost result bytes.now }
        ensures some { IfOk result (λ n. 0 < length bytes.now → 0 < n) }
        ensures bytes { WriteAppends (S.output self.old.stream) (S.output self.new.stream) result bytes.now }
        ensures kept { S.input self.new.stream ≡ S.input self.old.stream }
        ensures counted { Counts result self.old.failures self.new.failures }
        ensures in_time { IfOk result (λ _. T.is_over self.new.timer ≡ false) }
        ensures stays { T.is_over self.old.timer ≡ true → T.is_over self.new.timer ≡ true }
    {
        match send_in_time(&mut self.stream, &mut self.timer, bytes) {
            Ok(n) => Ok(n),
            Err(reason) => Err(self.fail(reason)),
        }
    }

    fn failures(&self) -> u64 {
        self.failures
    }
}
