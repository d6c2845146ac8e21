//! The rows of a station in the tables of the statistics.

use crate::columns::{NumberColumn, StationColumn, TimeColumn, WordsColumn};
use crate::statistics::{Item, StationCounts};
use dp_responder::Rule;
use explain_events::Ending;
use std::fmt;

/// The items of the rows of a station, in their order.
const ALL_ITEMS: [Item; 23] = [
    Item::Exchange,
    Item::Diagnosis,
    Item::Retry,
    Item::Refused(Rule::Halted),
    Item::Refused(Rule::NoFrame),
    Item::Refused(Rule::NoMaster),
    Item::Refused(Rule::ForeignSender),
    Item::Refused(Rule::BadFunction),
    Item::Refused(Rule::BadExtension),
    Item::Refused(Rule::BadBroadcast),
    Item::Refused(Rule::NoStation),
    Item::Refused(Rule::NoService),
    Item::Refused(Rule::NotActive),
    Item::Refused(Rule::NotHolder),
    Item::Refused(Rule::NotListed),
    Item::Refused(Rule::Busy),
    Item::Refused(Rule::Length),
    Item::Refused(Rule::NotSelected),
    Item::Released(Ending::WrongConfiguration),
    Item::Released(Ending::WrongParameters),
    Item::Released(Ending::Unlocked),
    Item::Released(Ending::Halted),
    Item::Released(Ending::Watchdog),
];

/// Returns the front of an item in its column.
fn item_front(item: Item) -> &'static str {
    match item {
        Item::Exchange => "",
        Item::Diagnosis => "",
        Item::Retry => "",
        Item::Poll => "",
        Item::Refused(_) => "refused: ",
        Item::Released(_) => "released: ",
    }
}

/// Returns an item in its column, behind its front.
fn item_word(item: Item) -> &'static str {
    match item {
        Item::Exchange => "exchanges",
        Item::Diagnosis => "diagnoses",
        Item::Retry => "retries",
        Item::Poll => "polls",
        Item::Refused(rule) => rule.name(),
        Item::Released(ending) => ending.name(),
    }
}

/// The row of an item of a station; writes nothing if the count is 0.
#[derive(Clone, Copy)]
struct ItemRow<'a> {
    station: StationColumn<'a>,
    counts: &'a StationCounts,
    item: Item,
}

impl<'a> fmt::Display for ItemRow<'a> {
    fn fmt<W: fmt::Write>(&self, f: &mut fmt::Formatter<W>) -> fmt::Result {
        let count = self.counts.count_of(self.item);
        if count == 0 {
            return Ok(());
        }
        let station = self.station;
        let words = WordsColumn {
            front: item_front(self.item),
            word: item_word(self.item),
        };
        let number = NumberColumn(count);
        write!(f, "  {station}{words}{number}\n")
    }
}

/// The rows of these items of a station.
#[derive(Clone, Copy)]
struct ItemRows<'a> {
    station: StationColumn<'a>,
    counts: &'a StationCounts,
    items: &'a [Item],
}

impl<'a> fmt::Display for ItemRows<'a> {
    fn fmt<W: fmt::Write>(&self, f: &mut fmt::Formatter<W>) -> fmt::Result {
        for item in self.items {
            let row = ItemRow {
                station: self.station,
                counts: self.counts,
                item: *item,
            };
            write!(f, "{row}")?;
        }
        Ok(())
    }
}

/// The row of the time of the holds of a station; writes nothing if the time is 0.
#[derive(Clone, Copy)]
struct HeldRow<'a> {
    station: StationColumn<'a>,
    units: u64,
}

impl<'a> fmt::Display for HeldRow<'a> {
    fn fmt<W: fmt::Write>(&self, f: &mut fmt::Formatter<W>) -> fmt::Result {
        if self.units == 0 {
            return Ok(());
        }
        let station = self.station;
        let words = WordsColumn {
            front: "",
            word: "held",
        };
        let time = TimeColumn(self.units);
        write!(f, "  {station}{words}{time} ms\n")
    }
}

/// The rows of a station.
#[derive(Clone, Copy)]
pub(crate) struct StationRows<'a> {
    pub(crate) station: StationColumn<'a>,
    pub(crate) counts: &'a StationCounts,
}

impl<'a> fmt::Display for StationRows<'a> {
    fn fmt<W: fmt::Write>(&self, f: &mut fmt::Formatter<W>) -> fmt::Result {
        let rows = ItemRows {
            station: self.station,
            counts: self.counts,
            items: &ALL_ITEMS,
        };
        let held = HeldRow {
            station: self.station,
            units: self.counts.held,
        };
        write!(f, "{rows}{held}")
    }
}
