//! A time that runs out.

ghost use Rattle.std.specs.Prelude.{◌≡◌, Bool, true, false, MatchOption};
ghost use Rattle.ua_socket.specs.Timer.{is_none};

use std::rt::Clock;
use std::time::{Duration, Instant};

/// A time that runs out, and stays so.
pub trait Timer {
    /// Whether the time is known to be over.
    ghost is_over: { Self → Bool };

    /// What is left of the time, more than nothing; or none, where it is over.
    fn left(&mut self) -> Option<Duration>
        ensures over { MatchOption result (is_over self.new ≡ true) (λ _. is_over self.new ≡ false) }
        ensures stays { is_over self.old ≡ true → is_over self.new ≡ true };

    /// Whether the time was over when it was last asked for.
    fn is_over(&self) -> bool
        ensures { result ≡ is_over self.now };
}

/// A time by the host's clock that does not go back. A clock that gives no moment ends it.
#[derive(Drop)]
pub struct Deadline<'a, R: Clock> {
    rt: &'a R,
    end: Option<Instant>,
}

/// What lies between now and then, where there is something.
fn until<R: Clock>(rt: &R, end: Instant) -> Option<Duration> {
    let now = Instant::now(rt).ok()?;
    let left = end.duration_since(now);
    if left.is_zero() { None } else { Some(left) }
}

impl<'a, R: Clock> Deadline<'a, R> {
    /// So long from now on.
    pub fn new(rt: &'a R, time: Duration) -> Deadline<'a, R> {
        let end = match Instant::now(rt) {
            Ok(now) => now.checked_add(time),
            Err(_) => None,
        };
        Deadline { rt, end }
    }

    /// The equal share of what is left that each of so many steps has, from now on.
    pub fn share(&mut self, steps: u32) -> Deadline<'a, R> {
        let left = self.left().unwrap_or(Duration::ZERO);
        Deadline::new(self.rt, left.checked_div(steps).unwrap_or(left))
    }
}

impl<R: Clock> Timer for Deadline<'_, R> {
    ghost is_over = { λ d. is_none d.end };

    fn left(&mut self) -> Option<Duration> {
        let left = until(self.rt, self.end?);
        if left.is_none() {
            self.end = None;
        }
        left
    }

    fn is_over(&self) -> bool {
        self.end.is_none()
    }
}
