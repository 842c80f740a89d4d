//! Moments of a clock, in ticks of 100 ns since 1601-01-01 UTC: an `i64` as the clock says it, a `u64` as an end keeps it.

ghost use Rattle.std.specs.Prelude.{◌≡◌, ◌<◌, ◌^◌, max};
ghost use Rattle.ua_frame.specs.Streams.{moment_of};

/// A clock's moment, where one before 0 counts as 0.
#[inline(always)]
pub fn moment_at(now: i64) -> u64
    ensures moment { result ≡ moment_of now }
    ensures clock { result < 2 ^ 63 }
{
    if now < 0 { 0 } else { now as u64 }
}

/// The moment `now` of a clock, where one before 0, or before `moment`, counts as that.
#[inline(always)]
pub fn later(moment: u64, now: i64) -> u64
    ensures moment { result ≡ max moment (moment_of now) }
    ensures clock { moment_of now < 2 ^ 63 }
{
    moment.max(moment_at(now))
}
