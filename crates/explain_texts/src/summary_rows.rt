//! The summary as rows: the holds, and the tables of counts.

use crate::columns::StationColumn;
use crate::counts_tables::CountsTables;
use crate::hold::Hold;
use crate::summary::Summary;
use explain_events::{Spaces, digits_of_long};
use std::fmt;

/// The width of the column of entries.
const ENTRIES_COLUMNS: usize = 24;

/// The entries at which a hold began and ended.
#[derive(Clone, Copy)]
struct Entries {
    since: u32,
    /// The place of the event that ended the hold; None if it lasts.
    place: Option<u64>,
}

impl fmt::Display for Entries {
    fn fmt<W: fmt::Write>(&self, f: &mut fmt::Formatter<W>) -> fmt::Result {
        let since = self.since;
        match self.place {
            None => write!(f, "entry {since} on"),
            Some(place) => write!(f, "entries {since} to {place}"),
        }
    }
}

impl Entries {
    /// Returns the number of characters of its text.
    fn width(self) -> usize {
        let since = digits_of_long(u64::from(self.since));
        match self.place {
            None => 9 + since,
            Some(place) => 12 + since + digits_of_long(place),
        }
    }
}

/// A hold, as a row.
#[derive(Clone, Copy)]
struct HoldRow<'a>(&'a Hold);

impl fmt::Display for HoldRow<'_> {
    fn fmt<W: fmt::Write>(&self, f: &mut fmt::Formatter<W>) -> fmt::Result {
        let hold = self.0;
        let slave = StationColumn {
            name: "slave ",
            address: hold.address,
        };
        let master = StationColumn {
            name: "master ",
            address: hold.master,
        };
        let entries = Entries {
            since: hold.since,
            place: hold.place,
        };
        let behind = Spaces(ENTRIES_COLUMNS.saturating_sub(entries.width()));
        let ending = hold.ending.name();
        write!(f, "  {slave}{master}{entries}{behind}{ending}\n")
    }
}

/// Holds, each as a row.
#[derive(Clone, Copy)]
struct HoldRows<'a>(&'a [Hold]);

impl fmt::Display for HoldRows<'_> {
    fn fmt<W: fmt::Write>(&self, f: &mut fmt::Formatter<W>) -> fmt::Result {
        for hold in self.0 {
            let row = HoldRow(hold);
            write!(f, "{row}")?;
        }
        Ok(())
    }
}

/// The summary, without its title.
#[derive(Clone, Copy)]
pub(crate) struct SummaryRows<'a>(pub(crate) Summary<'a>);

impl fmt::Display for SummaryRows<'_> {
    fn fmt<W: fmt::Write>(&self, f: &mut fmt::Formatter<W>) -> fmt::Result {
        let summary = self.0;
        let counts = CountsTables {
            line: summary.line,
            tally: summary.tally,
            statistics: summary.statistics,
        };
        let ended = HoldRows(summary.ended);
        let lasting = HoldRows(summary.lasting);
        write!(f, "{ended}{lasting}{counts}")
    }
}
