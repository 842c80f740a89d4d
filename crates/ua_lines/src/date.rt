//! Moments as texts.

use jiff_core::civil::Date;
use std::fmt;
use ua_value::DateTime;

/// A tick is 100 nanoseconds.
const TICKS_A_SECOND: u64 = 10_000_000;

const TICKS_A_DAY: u64 = 86_400 * TICKS_A_SECOND;

/// 1601-01-01 as a day that is counted from 1970-01-01.
const FIRST_DAY: i64 = -134_774;

/// A moment in UTC by the ISO 8601 calendar to the tick, as `2026-11-28T22:38:00.1234567Z`; `ticks N` where it is before
/// 1601 or beyond 9999 (OPC 10000-6, 5.2.2.5).
#[derive(Clone, Copy)]
pub(crate) struct Moment(pub(crate) DateTime);

/// The day and the tick of the day.
fn day_of(ticks: i64) -> Option<(Date, u64)> {
    let ticks = u64::try_from(ticks).ok()?;
    let day = i64::try_from(ticks / TICKS_A_DAY).ok()?;
    let date = Date::from_unix_epoch_day(day.checked_add(FIRST_DAY)?).ok()?;
    Some((date, ticks % TICKS_A_DAY))
}

/// A time of the day.
#[derive(Clone, Copy)]
struct Clock {
    /// Ticks since midnight.
    ticks: u64,
}

impl fmt::Display for Clock {
    fn fmt<W: fmt::Write>(&self, f: &mut fmt::Formatter<W>) -> fmt::Result {
        let part = self.ticks % TICKS_A_SECOND;
        let seconds = self.ticks / TICKS_A_SECOND;
        let hour = seconds / 3600;
        let minute = seconds / 60 % 60;
        let second = seconds % 60;
        write!(f, "{hour:02}:{minute:02}:{second:02}.{part:07}")
    }
}

impl fmt::Display for Moment {
    fn fmt<W: fmt::Write>(&self, f: &mut fmt::Formatter<W>) -> fmt::Result {
        let ticks = self.0.0;
        match day_of(ticks) {
            Some((date, ticks)) => {
                let (year, month, day) = (date.year, date.month, date.day);
                let clock = Clock { ticks };
                write!(f, "{year:04}-{month:02}-{day:02}T{clock}Z")
            }
            None => write!(f, "ticks {ticks}"),
        }
    }
}
