//! The tables of how many requests were answered in each way.

ghost use Rattle.std.specs.Prelude.{◌≡◌};
ghost use Rattle.explain_texts.specs.Tallies.{is_fault, way_words};

use crate::columns::{NumberColumn, StationColumn};
use crate::tally::SenderCounts;
use dp_responder::Rule;
use explain_events::{Answered, Spaces};
use std::fmt;

/// The width of the column of a way.
const WAY_COLUMNS: usize = 14;

/// All ways in the order of their rows. None is the way of a request to all slaves that reached no slave.
pub(crate) const ALL_WAYS: [Option<Answered>; 27] = [
    Some(Answered::ByRule(Rule::Halted)),
    Some(Answered::ByRule(Rule::NoFrame)),
    Some(Answered::ByRule(Rule::NoMaster)),
    Some(Answered::ByRule(Rule::ForeignSender)),
    Some(Answered::ByRule(Rule::Token)),
    Some(Answered::ByRule(Rule::NotRequest)),
    Some(Answered::ByRule(Rule::BadFunction)),
    Some(Answered::ByRule(Rule::BadExtension)),
    Some(Answered::ByRule(Rule::BadBroadcast)),
    Some(Answered::ByRule(Rule::NoStation)),
    Some(Answered::LiveListPoll),
    Some(Answered::ByRule(Rule::Status)),
    Some(Answered::ByRule(Rule::NoService)),
    Some(Answered::Retry),
    Some(Answered::OtherRepeat),
    Some(Answered::ByRule(Rule::NotActive)),
    Some(Answered::ByRule(Rule::NotHolder)),
    Some(Answered::ByRule(Rule::NotListed)),
    Some(Answered::ByRule(Rule::Busy)),
    Some(Answered::ByRule(Rule::Length)),
    Some(Answered::ByRule(Rule::NotSelected)),
    Some(Answered::NoneSelected),
    Some(Answered::ByRule(Rule::Done)),
    Some(Answered::NotAskedFor),
    Some(Answered::WrongSetPrm),
    Some(Answered::WrongChkCfg),
    None,
];

/// Returns the name of a way.
pub(crate) fn way_name(way: Option<Answered>) -> &'static str
    ensures { result.now ≡ way_words way }
{
    match way {
        None => "to no slave",
        Some(answered) => answered.name(),
    }
}

/// A way and a count, in their columns.
#[derive(Clone, Copy)]
struct CountColumns {
    way: Option<Answered>,
    count: u64,
}

impl fmt::Display for CountColumns {
    fn fmt<W: fmt::Write>(&self, f: &mut fmt::Formatter<W>) -> fmt::Result {
        let name = way_name(self.way);
        let count = NumberColumn(self.count);
        let behind = Spaces(WAY_COLUMNS.saturating_sub(name.len()));
        write!(f, "{name}{behind}{count}\n")
    }
}

/// A sender in its column.
#[derive(Clone, Copy)]
struct SenderColumn(Option<u8>);

impl fmt::Display for SenderColumn {
    fn fmt<W: fmt::Write>(&self, f: &mut fmt::Formatter<W>) -> fmt::Result {
        match self.0 {
            Some(master) => {
                let station = StationColumn {
                    name: "master ",
                    address: master,
                };
                write!(f, "{station}")
            }
            None => f.write_str("others      "),
        }
    }
}

/// The row of a sender and a way; writes nothing if the count is 0.
#[derive(Clone, Copy)]
struct CountedRow<'a> {
    counts: &'a SenderCounts,
    way: Option<Answered>,
}

impl<'a> fmt::Display for CountedRow<'a> {
    fn fmt<W: fmt::Write>(&self, f: &mut fmt::Formatter<W>) -> fmt::Result {
        let count = self.counts.count_of(self.way);
        if count == 0 {
            return Ok(());
        }
        let sender = SenderColumn(self.counts.sender);
        let columns = CountColumns {
            way: self.way,
            count,
        };
        write!(f, "  {sender}{columns}")
    }
}

/// The rows of a sender and each of these ways.
#[derive(Clone, Copy)]
struct CountedRows<'a> {
    counts: &'a SenderCounts,
    ways: &'a [Option<Answered>],
}

impl<'a> fmt::Display for CountedRows<'a> {
    fn fmt<W: fmt::Write>(&self, f: &mut fmt::Formatter<W>) -> fmt::Result {
        for way in self.ways {
            let row = CountedRow {
                counts: self.counts,
                way: *way,
            };
            write!(f, "{row}")?;
        }
        Ok(())
    }
}

/// The rows of a sender.
#[derive(Clone, Copy)]
struct SenderRows<'a>(&'a SenderCounts);

impl<'a> fmt::Display for SenderRows<'a> {
    fn fmt<W: fmt::Write>(&self, f: &mut fmt::Formatter<W>) -> fmt::Result {
        let rows = CountedRows {
            counts: self.0,
            ways: &ALL_WAYS,
        };
        write!(f, "{rows}")
    }
}

/// The rows of all senders.
#[derive(Clone, Copy)]
struct AllSenderRows<'a>(&'a [SenderCounts]);

impl<'a> fmt::Display for AllSenderRows<'a> {
    fn fmt<W: fmt::Write>(&self, f: &mut fmt::Formatter<W>) -> fmt::Result {
        for counts in self.0 {
            let rows = SenderRows(counts);
            write!(f, "{rows}")?;
        }
        Ok(())
    }
}

/// Returns how often requests of all senders were answered in a way; stops at the largest number of 64 bits.
fn total(tally: &[SenderCounts], way: Option<Answered>) -> u64 {
    let [counts, others @ ..] = tally else {
        return 0;
    };
    total(others, way).saturating_add(counts.count_of(way))
}

/// Returns whether a way is a fault of the bus.
pub(crate) fn is_fault(way: Option<Answered>) -> bool
    ensures { result ≡ is_fault way }
{
    match way {
        None => false,
        Some(answered) => answered.is_fault(),
    }
}

/// The row of a way that is a fault; writes nothing if no request was answered in it.
#[derive(Clone, Copy)]
struct FaultRow<'a> {
    tally: &'a [SenderCounts],
    way: Option<Answered>,
}

impl<'a> fmt::Display for FaultRow<'a> {
    fn fmt<W: fmt::Write>(&self, f: &mut fmt::Formatter<W>) -> fmt::Result {
        let count = total(self.tally, self.way);
        if is_fault(self.way) && count != 0 {
            let columns = CountColumns {
                way: self.way,
                count,
            };
            write!(f, "  {columns}")
        } else {
            Ok(())
        }
    }
}

/// The rows of those of these ways that are faults and were counted.
#[derive(Clone, Copy)]
struct FaultRows<'a> {
    tally: &'a [SenderCounts],
    ways: &'a [Option<Answered>],
}

impl<'a> fmt::Display for FaultRows<'a> {
    fn fmt<W: fmt::Write>(&self, f: &mut fmt::Formatter<W>) -> fmt::Result {
        for way in self.ways {
            let row = FaultRow {
                tally: self.tally,
                way: *way,
            };
            write!(f, "{row}")?;
        }
        Ok(())
    }
}

/// The table of how many requests of each master were answered in each way.
#[derive(Clone, Copy)]
pub(crate) struct CountedTable<'a>(pub(crate) &'a [SenderCounts]);

impl<'a> fmt::Display for CountedTable<'a> {
    fn fmt<W: fmt::Write>(&self, f: &mut fmt::Formatter<W>) -> fmt::Result {
        let rows = AllSenderRows(self.0);
        write!(f, "requests by rule\n{rows}")
    }
}

/// The table of the faults: how many requests of all senders were answered in each way that is one.
#[derive(Clone, Copy)]
pub(crate) struct FaultsTable<'a>(pub(crate) &'a [SenderCounts]);

impl<'a> fmt::Display for FaultsTable<'a> {
    fn fmt<W: fmt::Write>(&self, f: &mut fmt::Formatter<W>) -> fmt::Result {
        let rows = FaultRows {
            tally: self.0,
            ways: &ALL_WAYS,
        };
        write!(f, "faults\n{rows}")
    }
}
