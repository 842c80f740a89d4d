//! Moments: ticks of 100 ns since 1601-01-01 UTC, or by a steady clock since that was first read. OPC 10000-6, 5.2.2.5.

ghost use Rattle.std.specs.Prelude.{◌≡◌, ◌+◌, ◌-◌, ◌/◌, ◌≤◌, ◌^◌, ℤ, pos, min, List, [], ◌∷◌, Option, None};
ghost use Rattle.std.specs.Time.{instant_nanos};
ghost use Rattle.ua_link.specs.Clock.{Answered, moment_after};

use std::marker::Model;
use std::rt::Clock as HostClock;
use std::time::{Instant, SystemTime, UNIX_EPOCH};

/// The ticks from 1601 to 1970.
const UNIX_TICKS: u128 = 116_444_736_000_000_000;

/// The nanoseconds of a tick.
const TICK: u128 = 100;

/// What says the moment.
pub trait Clock {
    /// What `now` answered so far, in its order, where that is known: a clock may keep no record, or lose it.
    ghost answered: { Self → Option (List ℤ) } = { λ _. None };

    /// The moment, in ticks of 100 ns: since 1601-01-01 UTC, unless the clock says otherwise. It may go back.
    fn now(&mut self) -> i64
        ensures { Answered (answered self.old) (answered self.new) (result ∷ []) };
}

/// The host's clock, or 0 where it gives no moment.
#[derive(Drop)]
pub struct MachineClock<'a, R: HostClock> {
    rt: &'a R,
}

impl<'a, R: HostClock> MachineClock<'a, R> {
    /// The clock of this host.
    pub fn new(rt: &'a R) -> MachineClock<'a, R> {
        MachineClock { rt }
    }
}

/// The moment so many nanoseconds after 1970 began, or 0 where it fits no `i64`.
fn moment_after(nanoseconds: u128) -> i64
    ensures { result ≡ moment_after nanoseconds }
{
    i64::try_from((nanoseconds / TICK).saturating_add(UNIX_TICKS)).unwrap_or(0)
}

impl<'a, R: HostClock> Clock for MachineClock<'a, R> {
    fn now(&mut self) -> i64 {
        let Ok(time) = SystemTime::now(self.rt) else {
            return 0;
        };
        match time.duration_since(UNIX_EPOCH) {
            Ok(past) => moment_after(past.as_nanos()),
            Err(_) => 0,
        }
    }
}

/// The host's clock that is not set: ticks of 100 ns since it was first read. It never goes back, and says the moment before
/// once more where the host gives none.
///
/// A contract sees it as the ticks that it said last.
#[derive(Drop)]
pub struct SteadyClock<'a, R: HostClock> {
    rt: &'a R,
    begun: Option<Instant>,
    last: u64,
}

impl<'a, R: HostClock> Model for SteadyClock<'a, R> {
    ghost use Rattle.std.specs.Prelude.{ℕ, ◌<◌, ◌^◌};

    ghost Value = { ℕ };

    ghost view = { λ c. c.last };

    ghost invariant = { λ c. c.last < 2 ^ 63 };
}

/// The ticks between two moments, of as many as a clock says.
fn ticks_between(begun: Instant, now: Instant) -> u64
    ensures { result ≡ min ((instant_nanos now - instant_nanos begun) / 100) (2 ^ 63 - 1) }
{
    let ticks = now.duration_since(begun).as_nanos() / TICK;
    ticks.min(i64::MAX as u128) as u64
}

impl<'a, R: HostClock> SteadyClock<'a, R> {
    /// The steady clock of this host, which was not read yet.
    pub fn new(rt: &'a R) -> SteadyClock<'a, R>
        ensures { result ≡ 0 }
    {
        SteadyClock {
            rt,
            begun: None,
            last: 0,
        }
    }
}

impl<'a, R: HostClock> Clock for SteadyClock<'a, R> {
    fn now(&mut self) -> i64
        ensures said { result ≡ pos self.new }
        ensures steady { self.old ≤ self.new }
    {
        if let Ok(now) = Instant::now(self.rt) {
            let begun = self.begun.unwrap_or(now);
            self.begun = Some(begun);
            self.last = self.last.max(ticks_between(begun, now));
        }
        self.last as i64
    }
}
