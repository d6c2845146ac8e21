//! The time of day.

ghost use Rattle.std.specs.Prelude.{◌≡◌, Some};
ghost use Rattle.entry_times.specs.DayTimes.{day_time_text, three_digits, two_digits};

use std::fmt;

/// The milliseconds of a day.
const DAY: u64 = 86_400_000;

/// The time of day (UTC) of these milliseconds since 1970. Its `Display` is `HH:MM:SS.mmm`.
#[derive(Clone, Copy, Debug, PartialEq, Eq)]
pub struct TimeOfDay(pub u64);

/// A number in two digits at least.
#[derive(Clone, Copy)]
struct TwoDigits(u64);

/// A number in three digits at least.
#[derive(Clone, Copy)]
struct ThreeDigits(u64);

impl fmt::Display for TwoDigits {
    ghost output = { λ number. Some (two_digits number.0) };

    fn fmt<W: fmt::Write>(&self, f: &mut fmt::Formatter<W>) -> fmt::Result {
        let number = self.0;
        let zeros = if number < 10 { "0" } else { "" };
        write!(f, "{zeros}{number}")
    }
}

impl fmt::Display for ThreeDigits {
    ghost output = { λ number. Some (three_digits number.0) };

    fn fmt<W: fmt::Write>(&self, f: &mut fmt::Formatter<W>) -> fmt::Result {
        let number = self.0;
        let zeros = if number < 10 {
            "00"
        } else if number < 100 {
            "0"
        } else {
            ""
        };
        write!(f, "{zeros}{number}")
    }
}

impl fmt::Display for TimeOfDay {
    ghost output = { λ time. Some (day_time_text time.0) };

    fn fmt<W: fmt::Write>(&self, f: &mut fmt::Formatter<W>) -> fmt::Result {
        let of_day = self.0 % DAY;
        let hours = TwoDigits(of_day / 3_600_000);
        let minutes = TwoDigits(of_day / 60_000 % 60);
        let seconds = TwoDigits(of_day / 1_000 % 60);
        let milliseconds = ThreeDigits(of_day % 1_000);
        write!(f, "{hours}:{minutes}:{seconds}.{milliseconds}")
    }
}
