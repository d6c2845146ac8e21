//! Rows about octets that sessions drop.

use crate::row_limit::RowLimit;
use dp_sessions::DroppedOctets;
use explain_octets::WrongEndWords;
use std::{fmt, mem};

/// What a session has dropped since the last row about it, and its rows in this second.
#[derive(Default, Drop)]
pub(crate) struct DroppedRows {
    waiting: DroppedOctets,
    /// How many times octets were dropped with no frame between them.
    runs: u32,
    limit: RowLimit,
}

impl DroppedRows {
    /// Adds octets that were dropped one after another.
    pub(crate) fn add(&mut self, dropped: &DroppedOctets) {
        self.waiting.add_later(dropped);
        self.runs = self.runs.saturating_add(1);
    }

    /// Returns whether no row waits.
    pub(crate) fn is_empty(&self) -> bool {
        self.runs == 0
    }

    /// Returns the row to write in this second since 1970: None if nothing waits, or if the session has had its rows of this
    /// second and this is not its last one.
    pub(crate) fn next_row(&mut self, second: u64, is_last: bool) -> Option<DroppedRow> {
        let has_room = self.limit.has_room(second);
        if self.is_empty() || !has_room && !is_last {
            return None;
        }
        let _ = self.limit.count_written();
        Some(DroppedRow {
            dropped: mem::take(&mut self.waiting),
            runs: mem::take(&mut self.runs),
        })
    }
}

/// The start delimiter of a telegram with data (IEC 61158-4-3, SD2).
const SD2: u8 = 0x68;

/// The least LE of an SD2: DA, SA, FC and one octet of data (IEC 61158-4-3, length octet).
const LEAST_LENGTH: u8 = 4;

/// Returns the LE of the first SD2 among these octets whose LE is too small for data, if there is one.
fn short_length(octets: &[u8]) -> Option<u8> {
    for place in 3..octets.len() {
        let length = octets[place - 2];
        let are_equal = length == octets[place - 1];
        let is_framed = octets[place - 3] == SD2 && octets[place] == SD2;
        if is_framed && are_equal && length < LEAST_LENGTH {
            return Some(length);
        }
    }
    None
}

/// A row about dropped octets: `dropped 64 octets: NoStart, BadHead (33 68 05 ..)`.
#[derive(Drop)]
pub(crate) struct DroppedRow {
    dropped: DroppedOctets,
    runs: u32,
}

impl fmt::Display for DroppedRow {
    fn fmt<W: fmt::Write>(&self, f: &mut fmt::Formatter<W>) -> fmt::Result {
        let count = self.dropped.count;
        let octets = if count == 1 { "octet" } else { "octets" };
        write!(f, "dropped {count} {octets}")?;
        if self.runs > 1 {
            write!(f, " in {} runs", self.runs)?;
        }
        self.write_faults(f)?;
        self.write_octets(f)?;
        self.write_length(f)?;
        match self.dropped.wrong_end {
            Some(end) => write!(f, ", {}", WrongEndWords(end)),
            None => Ok(()),
        }
    }
}

impl DroppedRow {
    /// Writes why the octets were dropped.
    fn write_faults<W: fmt::Write>(&self, f: &mut fmt::Formatter<W>) -> fmt::Result {
        let mut before = ": ";
        for (has_fault, name) in [
            (self.dropped.no_start, "NoStart"),
            (self.dropped.bad_head, "BadHead"),
            (self.dropped.bad_end, "BadEnd"),
        ] {
            if has_fault {
                write!(f, "{before}{name}")?;
                before = ", ";
            }
        }
        Ok(())
    }

    /// Writes what is wrong if an SD2 has no data, if it is among the first octets.
    fn write_length<W: fmt::Write>(&self, f: &mut fmt::Formatter<W>) -> fmt::Result {
        if !self.dropped.bad_head {
            return Ok(());
        }
        match short_length(self.dropped.first.as_slice()) {
            Some(length) => write!(
                f,
                ", LE {length} is below {LEAST_LENGTH}: a telegram without data is an SD1"
            ),
            None => Ok(()),
        }
    }

    /// Writes the first octets, and two dots if there are more.
    fn write_octets<W: fmt::Write>(&self, f: &mut fmt::Formatter<W>) -> fmt::Result {
        f.write_str(" (")?;
        for (place, octet) in self.dropped.first.iter().enumerate() {
            if place > 0 {
                f.write_str(" ")?;
            }
            write!(f, "{octet:02x}")?;
        }
        let are_all = self.dropped.count as usize == self.dropped.first.len();
        f.write_str(if are_all { ")" } else { " ..)" })
    }
}
