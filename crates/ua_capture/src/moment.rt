//! Moments in nanoseconds since 1970, from the ticks of a file.

ghost use Rattle.std.specs.Prelude.{◌≡◌};
ghost use Rattle.ua_capture.specs.Moment.{moment_of, ticks_a_second};

const NANOS: u128 = 1_000_000_000;

/// How many ticks a second has, by the byte of an interface's resolution: the power of ten that the byte says, or with
/// its highest bit the power of two. `None` where that is no number of 64 bits.
pub(crate) fn ticks_a_second(resolution: u8) -> Option<u64>
    ensures { result ≡ ticks_a_second resolution }
{
    if resolution < 128 {
        10u64.checked_pow(resolution as u32)
    } else {
        2u64.checked_pow((resolution - 128) as u32)
    }
}

/// The moment of so many ticks, in nanoseconds since 1970. The interface's clock began `offset` seconds later, where that
/// is a number with a sign in 64 bits. A moment before 1970 is said to be 0, and one past the year 2554 to be the
/// greatest number. A clock without ticks says 0.
#[tactic(auto, unfolding(crate::specs::Moment::moment_of))]
pub(crate) fn moment_of(ticks: u64, unit: u64, offset: u64) -> u64
    ensures { result ≡ moment_of ticks unit offset }
{
    let nanos = if unit == 0 {
        0
    } else {
        ticks as u128 * NANOS / unit as u128
    };
    let shifted = if offset < 1 << 63 {
        nanos + offset as u128 * NANOS
    } else {
        let back = ((1 << 64) - offset as u128) * NANOS;
        nanos.saturating_sub(back)
    };
    shifted.min(u64::MAX as u128) as u64
}
