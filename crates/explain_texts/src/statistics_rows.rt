//! The tables of the statistics of slaves and of masters.

use crate::columns::StationColumn;
use crate::station_rows::StationRows;
use crate::statistics::AddressCounts;
use dp_line::SlaveSpec;
use std::fmt;

/// The rows of a slave.
#[derive(Clone, Copy)]
struct SlaveRows<'a> {
    statistics: &'a [AddressCounts],
    slave: &'a SlaveSpec,
}

impl<'a> fmt::Display for SlaveRows<'a> {
    fn fmt<W: fmt::Write>(&self, f: &mut fmt::Formatter<W>) -> fmt::Result {
        let address = self.slave.address;
        let Some(counts) = self.statistics.get(usize::from(address)) else {
            return Ok(());
        };
        let rows = StationRows {
            station: StationColumn {
                name: "slave ",
                address,
            },
            counts: &counts.receiver,
        };
        write!(f, "{rows}")
    }
}

/// The rows of a master.
#[derive(Clone, Copy)]
struct MasterRows<'a> {
    statistics: &'a [AddressCounts],
    master: u8,
}

impl<'a> fmt::Display for MasterRows<'a> {
    fn fmt<W: fmt::Write>(&self, f: &mut fmt::Formatter<W>) -> fmt::Result {
        let address = self.master;
        let Some(counts) = self.statistics.get(usize::from(address)) else {
            return Ok(());
        };
        let rows = StationRows {
            station: StationColumn {
                name: "master ",
                address,
            },
            counts: &counts.sender,
        };
        write!(f, "{rows}")
    }
}

/// The rows of these slaves.
#[derive(Clone, Copy)]
struct AllSlaveRows<'a> {
    statistics: &'a [AddressCounts],
    slaves: &'a [SlaveSpec],
}

impl<'a> fmt::Display for AllSlaveRows<'a> {
    fn fmt<W: fmt::Write>(&self, f: &mut fmt::Formatter<W>) -> fmt::Result {
        for slave in self.slaves {
            let rows = SlaveRows {
                statistics: self.statistics,
                slave,
            };
            write!(f, "{rows}")?;
        }
        Ok(())
    }
}

/// The rows of these masters.
#[derive(Clone, Copy)]
struct AllMasterRows<'a> {
    statistics: &'a [AddressCounts],
    masters: &'a [u8],
}

impl<'a> fmt::Display for AllMasterRows<'a> {
    fn fmt<W: fmt::Write>(&self, f: &mut fmt::Formatter<W>) -> fmt::Result {
        for master in self.masters {
            let rows = MasterRows {
                statistics: self.statistics,
                master: *master,
            };
            write!(f, "{rows}")?;
        }
        Ok(())
    }
}

/// The table of slaves, in the order of the line's description.
#[derive(Clone, Copy)]
pub(crate) struct SlavesTable<'a> {
    pub(crate) statistics: &'a [AddressCounts],
    pub(crate) slaves: &'a [SlaveSpec],
}

impl<'a> fmt::Display for SlavesTable<'a> {
    fn fmt<W: fmt::Write>(&self, f: &mut fmt::Formatter<W>) -> fmt::Result {
        let rows = AllSlaveRows {
            statistics: self.statistics,
            slaves: self.slaves,
        };
        write!(f, "slaves\n{rows}")
    }
}

/// The table of masters, in the order of the line's description.
#[derive(Clone, Copy)]
pub(crate) struct MastersTable<'a> {
    pub(crate) statistics: &'a [AddressCounts],
    pub(crate) masters: &'a [u8],
}

impl<'a> fmt::Display for MastersTable<'a> {
    fn fmt<W: fmt::Write>(&self, f: &mut fmt::Formatter<W>) -> fmt::Result {
        let rows = AllMasterRows {
            statistics: self.statistics,
            masters: self.masters,
        };
        write!(f, "masters\n{rows}")
    }
}
