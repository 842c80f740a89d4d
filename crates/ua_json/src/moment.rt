//! Moments.

use crate::line::Line;
use crate::put::Put;
use jiff::{SignedDuration, civil};
use std::fmt;
use ua_value::{DateTime, NoMemory};

/// Ticks of a DateTime in a second.
const TICKS: i64 = 10_000_000;

/// Nanoseconds in a tick.
const NANOSECONDS: i32 = 100;

/// What is written for a moment before those that have a year (OPC 10000-6, 5.4.2.6).
const EARLIEST: &str = "0001-01-01T00:00:00Z";

/// What is written for a moment after them (OPC 10000-6, 5.4.2.6).
const LATEST: &str = "9999-12-31T23:59:59Z";

/// A moment on the calendar, by UTC.
#[derive(Clone, Copy)]
struct Utc(civil::DateTime);

impl fmt::Display for Utc {
    fn fmt<W: fmt::Write>(&self, f: &mut fmt::Formatter<W>) -> fmt::Result {
        write!(f, "{}Z", self.0)
    }
}

/// The moment on the calendar so many ticks after 1601 began, if its year is at most 9999.
fn on_calendar(ticks: i64) -> Option<Utc> {
    let since = SignedDuration::new(ticks / TICKS, (ticks % TICKS) as i32 * NANOSECONDS);
    let start = civil::DateTime::constant(1601, 1, 1, 0, 0, 0, 0);
    match start.checked_add(since) {
        Ok(moment) => Some(Utc(moment)),
        Err(_) => None,
    }
}

/// The text of ISO 8601 in UTC. Ticks of 0, which stand for the earliest moment (OPC 10000-6, 5.2.2.5), and fewer are
/// the first moment of year 1; those beyond year 9999 are its last second (OPC 10000-6, 5.4.2.6).
impl Put for DateTime {
    fn put(&self, line: &mut Line) -> Result<(), NoMemory> {
        if self.0 <= 0 {
            return line.text(EARLIEST);
        }
        match on_calendar(self.0) {
            Some(moment) => line.shown(&moment),
            None => line.text(LATEST),
        }
    }
}

/// Nanoseconds in a second.
const NANOSECONDS_A_SECOND: u64 = 1_000_000_000;

/// A moment in nanoseconds since 1970 began, as captures of packets say it. It shows itself as the text of ISO 8601 in
/// UTC with nine places, as `2026-11-29T01:02:03.123456789Z`; a number of 64 bits says no moment beyond the year 2554.
#[derive(Clone, Copy, Debug, PartialEq, Eq)]
pub struct Moment(pub u64);

impl fmt::Display for Moment {
    fn fmt<W: fmt::Write>(&self, f: &mut fmt::Formatter<W>) -> fmt::Result {
        let seconds = (self.0 / NANOSECONDS_A_SECOND) as i64;
        let part = self.0 % NANOSECONDS_A_SECOND;
        let start = civil::DateTime::constant(1970, 1, 1, 0, 0, 0, 0);
        match start.checked_add(SignedDuration::new(seconds, 0)) {
            Ok(second) => write!(f, "{second}.{part:09}Z"),
            Err(_) => f.write_str(LATEST),
        }
    }
}
