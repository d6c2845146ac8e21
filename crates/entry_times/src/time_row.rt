//! The rows of times.

ghost use Rattle.std.specs.Prelude.{◌≡◌, ◌<◌, IfErr, IfOk, Some};
ghost use Rattle.std.specs.Fmt.{decimal};
ghost use Rattle.entry_times.specs.TimeRows.{IsHeader, IsNumber, IsReadFrom, IsTimeRow, header_text, time_row_text};
ghost use Rattle.entry_times.specs.ReadRows.{IsHeaderFault, IsRowFault};

use crate::times_fault::TimesFault;
use std::fmt;

/// What the header of a file of times begins with: its version is 1.
const BEGINNING: &str = "rack-times 1 line ";

/// The header of a file of times. Its `Display` is the row without its LF.
#[derive(Clone, Copy, Debug, PartialEq, Eq)]
pub struct TimesHeader {
    /// The number of the line, from 1.
    pub line: u8,
}

impl fmt::Display for TimesHeader {
    ghost output = { λ header. Some (header_text header) };

    fn fmt<W: fmt::Write>(&self, f: &mut fmt::Formatter<W>) -> fmt::Result {
        let line = self.line;
        write!(f, "rack-times 1 line {line}")
    }
}

impl TimesHeader {
    /// Reads a header without its LF. Returns None if no header has this text.
    pub fn from_text(text: &str) -> Option<TimesHeader>
        ensures { IsReadFrom header_text IsHeader text.now result }
    {
        let line = number_in(text.strip_prefix(BEGINNING)?)?;
        if line > u64::from(u8::MAX) {
            return None;
        }
        Some(TimesHeader { line: line as u8 })
    }
}

/// The place of an entry and the time at which it was recorded. Its `Display` is the row without its LF: `PLACE MILLISECONDS`.
#[derive(Clone, Copy, Debug, PartialEq, Eq)]
pub struct TimeRow {
    /// The place of the entry, from 1.
    pub place: u32,
    /// The milliseconds since 1970 (UTC), from 1.
    pub milliseconds: u64,
}

impl fmt::Display for TimeRow {
    ghost output = { λ row. Some (time_row_text row) };

    fn fmt<W: fmt::Write>(&self, f: &mut fmt::Formatter<W>) -> fmt::Result {
        let (place, milliseconds) = (self.place, self.milliseconds);
        write!(f, "{place} {milliseconds}")
    }
}

impl TimeRow {
    /// Reads a row without its LF. Returns None if no row has this text: both numbers are decimal without zeros in front.
    pub fn from_text(text: &str) -> Option<TimeRow>
        ensures { IsReadFrom time_row_text IsTimeRow text.now result }
    {
        let (place, milliseconds) = text.split_once(' ')?;
        Some(TimeRow {
            place: place_in(place)?,
            milliseconds: number_in(milliseconds)?,
        })
    }
}

/// Reads the header of the times of the line with this number.
///
/// Returns `Header` if it is another text.
pub fn read_header(line: u8, text: &str) -> Result<(), TimesFault>
    ensures { IsHeaderFault line text.now result }
{
    match TimesHeader::from_text(text) {
        Some(header) => {
            if header.line == line {
                Ok(())
            } else {
                Err(TimesFault::Header(line))
            }
        }
        None => Err(TimesFault::Header(line)),
    }
}

/// Reads the next row of a file of times, which is behind that of the place `last`; 0 if it is the first one.
///
/// Returns `Row` if no row has the text, and `Order` if its place is not above `last`.
pub fn read_row(last: u32, text: &str) -> Result<TimeRow, TimesFault>
    ensures { IsRowFault last text.now result }
{
    let Some(row) = TimeRow::from_text(text) else {
        return Err(TimesFault::Row);
    };
    if row.place > last {
        Ok(row)
    } else {
        Err(TimesFault::Order(last))
    }
}

/// Reads a place, from 1 on, without zeros in front.
fn place_in(digits: &str) -> Option<u32>
    ensures { IsReadFrom decimal (IsNumber 32) digits.now result }
{
    let number = number_in(digits)?;
    if number > u64::from(u32::MAX) {
        return None;
    }
    Some(number as u32)
}

/// Reads a number from 1 on without zeros in front.
fn number_in(digits: &str) -> Option<u64>
    ensures { IsReadFrom decimal (IsNumber 64) digits.now result }
{
    match digits.as_bytes() {
        [] => None,
        [first, ..] => {
            if *first <= b'0' {
                return None;
            }
            digits.parse::<u64>().ok()
        }
    }
}
