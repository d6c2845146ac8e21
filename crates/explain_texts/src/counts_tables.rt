//! The tables of counts at the end of an explanation.

use crate::live_list::LiveList;
use crate::statistics::AddressCounts;
use crate::statistics_rows::{MastersTable, SlavesTable};
use crate::tally::SenderCounts;
use crate::tally_rows::{CountedTable, FaultsTable};
use dp_line::LineSpec;
use std::fmt;

/// The tables of the statistics: of the slaves, of the masters, and of the live list.
#[derive(Clone, Copy)]
struct StatisticsText<'a> {
    line: &'a LineSpec,
    statistics: &'a [AddressCounts],
}

impl<'a> fmt::Display for StatisticsText<'a> {
    fn fmt<W: fmt::Write>(&self, f: &mut fmt::Formatter<W>) -> fmt::Result {
        let statistics = self.statistics;
        let line = self.line;
        let slaves = SlavesTable {
            statistics,
            slaves: line.slaves.as_slice(),
        };
        let masters = MastersTable {
            statistics,
            masters: line.masters.as_slice(),
        };
        let live_list = LiveList { line, statistics };
        write!(f, "{slaves}{masters}{live_list}")
    }
}

/// All tables of counts: the requests of each master by way, the statistics, and the faults of the bus.
#[derive(Clone, Copy)]
pub(crate) struct CountsTables<'a> {
    pub(crate) line: &'a LineSpec,
    pub(crate) tally: &'a [SenderCounts],
    pub(crate) statistics: &'a [AddressCounts],
}

impl<'a> fmt::Display for CountsTables<'a> {
    fn fmt<W: fmt::Write>(&self, f: &mut fmt::Formatter<W>) -> fmt::Result {
        let counted = CountedTable(self.tally);
        let statistics = StatisticsText {
            line: self.line,
            statistics: self.statistics,
        };
        let faults = FaultsTable(self.tally);
        write!(f, "{counted}{statistics}{faults}")
    }
}
