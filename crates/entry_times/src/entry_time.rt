//! The time of an entry.

ghost use Rattle.std.specs.Prelude.{◌≡◌, Some};
ghost use Rattle.entry_times.specs.PlaceTimes.{entry_time_text, time_milliseconds};

use crate::time_of_day::TimeOfDay;
use std::fmt;

/// The time at which an entry was recorded, in milliseconds since 1970 (UTC). Its `Display` is the time of day, with a tilde before
/// it if it is interpolated.
#[derive(Clone, Copy, Debug, PartialEq, Eq)]
pub enum EntryTime {
    /// The time that the row of the entry has.
    Recorded(u64),
    /// A time that is interpolated between two rows by place.
    Between(u64),
}

impl EntryTime {
    /// Returns the milliseconds since 1970.
    pub fn milliseconds(self) -> u64
        ensures { result ≡ time_milliseconds self }
    {
        match self {
            EntryTime::Recorded(milliseconds) => milliseconds,
            EntryTime::Between(milliseconds) => milliseconds,
        }
    }
}

impl fmt::Display for EntryTime {
    ghost output = { λ time. Some (entry_time_text time) };

    fn fmt<W: fmt::Write>(&self, f: &mut fmt::Formatter<W>) -> fmt::Result {
        match self {
            EntryTime::Recorded(milliseconds) => {
                let time = TimeOfDay(*milliseconds);
                write!(f, "{time}")
            }
            EntryTime::Between(milliseconds) => {
                let time = TimeOfDay(*milliseconds);
                write!(f, "~{time}")
            }
        }
    }
}
