//! What is wrong with a file of times.

ghost use Rattle.std.specs.Prelude.{Some};
ghost use Rattle.entry_times.specs.ReadRows.{times_fault_text};

use std::fmt;

/// What a row of a file of times is not (own). Its `Display` is what was expected of the row.
#[derive(Clone, Copy, Debug, PartialEq, Eq)]
pub enum TimesFault {
    /// The header of the times of the line with this number.
    Header(u8),
    /// A place and a time.
    Row,
    /// A row of a place above this one, which the row before it has.
    Order(u32),
}

impl fmt::Display for TimesFault {
    ghost output = { λ fault. Some (times_fault_text fault) };

    fn fmt<W: fmt::Write>(&self, f: &mut fmt::Formatter<W>) -> fmt::Result {
        match self {
            TimesFault::Header(line) => write!(f, "the header \"rack-times 1 line {line}\""),
            TimesFault::Row => f.write_str(
                "a place and its milliseconds since 1970, as \"7 1764570601207\"",
            ),
            TimesFault::Order(last) => write!(f, "a place above {last}"),
        }
    }
}
