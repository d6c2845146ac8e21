//! The table of the live list: the addresses that masters polled.

use crate::columns::{NumberColumn, StationColumn, WordsColumn};
use crate::statistics::{AddressCounts, Item};
use dp_line::{LineSpec, described};
use std::fmt;

/// Returns what has an address, by the line's description.
fn station_word(line: &LineSpec, address: u8) -> &'static str {
    match described(line.slaves.as_slice(), address) {
        Some(_) => "slave",
        None => {
            if is_master(line.masters.as_slice(), address) {
                "master"
            } else {
                "nothing"
            }
        }
    }
}

pub(crate) fn is_master(masters: &[u8], address: u8) -> bool {
    masters.iter().any(|master| *master == address)
}

/// The row of an address; writes nothing if nobody polled it.
#[derive(Clone, Copy)]
struct PollRow<'a> {
    line: &'a LineSpec,
    counts: &'a AddressCounts,
}

impl<'a> fmt::Display for PollRow<'a> {
    fn fmt<W: fmt::Write>(&self, f: &mut fmt::Formatter<W>) -> fmt::Result {
        let counts = self.counts;
        let count = counts.receiver.count_of(Item::Poll);
        if count == 0 {
            return Ok(());
        }
        let address = counts.address;
        let station = StationColumn {
            name: "address ",
            address,
        };
        let words = WordsColumn {
            front: "",
            word: station_word(self.line, address),
        };
        let number = NumberColumn(count);
        write!(f, "  {station}{words}{number}\n")
    }
}

/// The rows of these addresses.
#[derive(Clone, Copy)]
struct PollRows<'a> {
    line: &'a LineSpec,
    statistics: &'a [AddressCounts],
}

impl<'a> fmt::Display for PollRows<'a> {
    fn fmt<W: fmt::Write>(&self, f: &mut fmt::Formatter<W>) -> fmt::Result {
        for counts in self.statistics {
            let row = PollRow {
                line: self.line,
                counts,
            };
            write!(f, "{row}")?;
        }
        Ok(())
    }
}

/// The table of the live list, in ascending order of address.
#[derive(Clone, Copy)]
pub(crate) struct LiveList<'a> {
    pub(crate) line: &'a LineSpec,
    pub(crate) statistics: &'a [AddressCounts],
}

impl<'a> fmt::Display for LiveList<'a> {
    fn fmt<W: fmt::Write>(&self, f: &mut fmt::Formatter<W>) -> fmt::Result {
        let rows = PollRows {
            line: self.line,
            statistics: self.statistics,
        };
        write!(f, "live list\n{rows}")
    }
}
