//! The time of day.
//!
//! It is UTC, because the host has no time zones.

use std::fmt;
use std::time::Clock;

/// The number of seconds of a day.
const DAY: u64 = 86_400;

/// A time of day (UTC): `HH:MM:SS.mmm`.
#[derive(Clone, Copy)]
pub(crate) struct TimeOfDay {
    hours: u64,
    minutes: u64,
    seconds: u64,
    milliseconds: u32,
}

impl TimeOfDay {
    /// Returns the time of day now, or midnight if the clock cannot be read.
    pub(crate) fn now(clock: &impl Clock) -> TimeOfDay {
        let (seconds, milliseconds) = match clock.since_1970() {
            Ok(since) => (since.as_secs() % DAY, since.subsec_millis()),
            Err(_) => (0, 0),
        };
        TimeOfDay {
            hours: seconds / 3_600,
            minutes: seconds / 60 % 60,
            seconds: seconds % 60,
            milliseconds,
        }
    }
}

impl fmt::Display for TimeOfDay {
    fn fmt<W: fmt::Write>(&self, f: &mut fmt::Formatter<W>) -> fmt::Result {
        let TimeOfDay {
            hours,
            minutes,
            seconds,
            milliseconds,
        } = *self;
        write!(f, "{hours:02}:{minutes:02}:{seconds:02}.{milliseconds:03}")
    }
}
