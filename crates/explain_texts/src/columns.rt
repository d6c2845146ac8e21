//! The columns of the tables.

ghost use Rattle.std.specs.Prelude.{◌≡◌, ◌≤◌, ◌*◌, length};
ghost use Rattle.std.specs.Fmt.{decimal};

use explain_events::{Spaces, digits_of, digits_of_long};
use std::fmt;

/// The widths of the columns of a station, of what is counted of a station, and of a number.
const STATION_COLUMNS: usize = 12;

const WORDS_COLUMNS: usize = 32;

const NUMBER_COLUMNS: usize = 8;

/// A station in its column.
#[derive(Clone, Copy)]
pub(crate) struct StationColumn<'a> {
    pub(crate) name: &'a str,
    pub(crate) address: u8,
}

impl<'a> fmt::Display for StationColumn<'a> {
    fn fmt<W: fmt::Write>(&self, f: &mut fmt::Formatter<W>) -> fmt::Result {
        let name = self.name;
        let address = self.address;
        let width = name.len().saturating_add(digits_of(address));
        let behind = Spaces(STATION_COLUMNS.saturating_sub(width));
        write!(f, "{name}{address}{behind}")
    }
}

/// What is counted of a station, in its column: a word behind its front.
#[derive(Clone, Copy)]
pub(crate) struct WordsColumn<'a> {
    pub(crate) front: &'a str,
    pub(crate) word: &'a str,
}

impl<'a> fmt::Display for WordsColumn<'a> {
    fn fmt<W: fmt::Write>(&self, f: &mut fmt::Formatter<W>) -> fmt::Result {
        let front = self.front;
        let word = self.word;
        let width = front.len().saturating_add(word.len());
        let behind = Spaces(WORDS_COLUMNS.saturating_sub(width));
        write!(f, "{front}{word}{behind}")
    }
}

/// A number at the right of its column.
#[derive(Clone, Copy)]
pub(crate) struct NumberColumn(pub(crate) u64);

impl fmt::Display for NumberColumn {
    fn fmt<W: fmt::Write>(&self, f: &mut fmt::Formatter<W>) -> fmt::Result {
        let number = self.0;
        let before = Spaces(NUMBER_COLUMNS.saturating_sub(digits_of_long(number)));
        write!(f, "{before}{number}")
    }
}

/// A time in units of 10 ms, in milliseconds at the right of its column.
#[derive(Clone, Copy)]
pub(crate) struct TimeColumn(pub(crate) u64);

impl fmt::Display for TimeColumn {
    fn fmt<W: fmt::Write>(&self, f: &mut fmt::Formatter<W>) -> fmt::Result {
        let milliseconds = 10 * u128::from(self.0);
        let before = Spaces(NUMBER_COLUMNS.saturating_sub(digits_of_time(self.0)));
        write!(f, "{before}{milliseconds}")
    }
}

/// Returns how many digits a time in units of 10 ms has in milliseconds, 1 to 21.
pub(crate) fn digits_of_time(units: u64) -> usize
    ensures digits { result ≡ length (decimal (10 * units)) }
    ensures few { result ≤ 21 }
{
    if units == 0 {
        1
    } else {
        digits_of_long(units) + 1
    }
}
