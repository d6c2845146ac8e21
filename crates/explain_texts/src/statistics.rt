//! What is counted of the stations of a line, by address.
//!
//! The counts of an address are found by its index, so that the cost of an entry doesn't grow with the number of
//! slaves. They are counted for every address that a telegram can name; rows are written only for the stations of the
//! line.

ghost use Rattle.std.specs.Prelude.{◌≡◌, ◌<◌, IfOk};
ghost use Rattle.explain_texts.specs.StationCounts.{item_number, item_count, with_item, with_count, no_counts, first_counts, first_statistics, counted_at, counted_at_both};

use dp_responder::Rule;
use explain_events::Ending;
use std::alloc::{AllocError, Global};

/// The number of counts of a station.
const ITEMS: usize = 31;

/// The number of addresses that a telegram can name.
const ADDRESSES: u8 = 128;

/// An item of the statistics: what is counted of a request, or the end of a hold.
#[derive(Clone, Copy)]
pub(crate) enum Item {
    /// A Data_Exchange that was answered by Done.
    Exchange,
    /// A Slave_Diag that was answered by Done.
    Diagnosis,
    /// A retry.
    Retry,
    /// An FDL status that a slave answered, or that is a live-list poll.
    Poll,
    /// A request that was refused by this rule.
    Refused(Rule),
    /// A hold that ended in this way.
    Released(Ending),
}

/// The counts of a station as a receiver of requests, which is held, or as a sender, which holds.
#[derive(Drop)]
pub(crate) struct StationCounts {
    /// For each item, at its number, how often it was counted, which stops at the largest number of 64 bits.
    by_item: [u64; ITEMS],
    /// The time of all holds, in units of 10 ms, which stops at the largest number of 64 bits.
    pub(crate) held: u64,
}

/// What is counted at an address.
#[derive(Clone, Copy)]
pub(crate) enum Count {
    /// An item of the receiver, and the time of the hold that ended, in units of 10 ms.
    Received(Item, u64),
    /// An item of the sender, and the time of the hold that ended, in units of 10 ms.
    Sent(Item, u64),
    /// That a hold began at this time, in units of 10 ms.
    Began(u64),
}

/// The counts of an address.
#[derive(Drop)]
pub struct AddressCounts {
    /// The address, 0 to 127.
    pub(crate) address: u8,
    /// What it received, and how it was held.
    pub(crate) receiver: StationCounts,
    /// What it sent, and how it held slaves.
    pub(crate) sender: StationCounts,
    /// The time at which its last hold by a master began, in units of 10 ms; 0 if no hold began.
    pub(crate) began: u64,
}

impl StationCounts {
    /// Returns the counts of a station before the first event.
    fn new() -> StationCounts
        ensures { result ≡ no_counts }
    {
        StationCounts {
            by_item: [0; ITEMS],
            held: 0,
        }
    }

    /// Returns how often an item was counted.
    pub(crate) fn count_of(&self, item: Item) -> u64
        ensures { result ≡ item_count self.now item }
    {
        self.by_item[item_number(item)]
    }

    /// Counts one more of an item, and adds a time to the time of the holds.
    fn add(&mut self, item: Item, units: u64)
        ensures { self.new ≡ with_item item units self.old }
    {
        let number = item_number(item);
        self.by_item[number] = self.by_item[number].saturating_add(1);
        self.held = self.held.saturating_add(units);
    }
}

impl AddressCounts {
    /// Returns the counts of an address before the first event.
    fn new(address: u8) -> AddressCounts
        ensures { result ≡ first_counts address }
    {
        AddressCounts {
            address,
            receiver: StationCounts::new(),
            sender: StationCounts::new(),
            began: 0,
        }
    }

    /// Counts this.
    fn add(&mut self, count: Count)
        ensures { self.new ≡ with_count count self.old }
    {
        match count {
            Count::Received(item, units) => self.receiver.add(item, units),
            Count::Sent(item, units) => self.sender.add(item, units),
            Count::Began(time) => self.began = time,
        }
    }
}

/// Returns the number of an item among the counts of a station.
fn item_number(item: Item) -> usize
    ensures number { result ≡ item_number item }
    ensures few { result < 31 }
{
    match item {
        Item::Refused(rule) => usize::from(rule.code()),
        Item::Exchange => 21,
        Item::Diagnosis => 22,
        Item::Retry => 23,
        Item::Poll => 24,
        Item::Released(Ending::WrongConfiguration) => 25,
        Item::Released(Ending::WrongParameters) => 26,
        Item::Released(Ending::Unlocked) => 27,
        Item::Released(Ending::Halted) => 28,
        Item::Released(Ending::Watchdog) => 29,
        Item::Released(Ending::Lasts) => 30,
    }
}

/// Returns the statistics before the first event: the counts of each address, at its index. `AllocError` if memory runs
/// out.
#[tactic(auto, unfolding(crate::specs::StationCounts::first_statistics))]
pub(crate) fn first_statistics(alloc: Global) -> Result<Vec<AddressCounts>, AllocError>
    ensures { IfOk result (λ statistics. statistics.items ≡ first_statistics) }
{
    let mut statistics = Vec::with_capacity(alloc, usize::from(ADDRESSES))?;
    for address in 0..ADDRESSES {
        statistics.push(AddressCounts::new(address))?;
    }
    Ok(statistics)
}

/// Counts this at an address. An address after 127, which only a sender that is no master can have, counts nothing.
pub(crate) fn count_at(statistics: &mut [AddressCounts], address: u8, count: Count)
    ensures { statistics.new ≡ counted_at address count statistics.old }
{
    let index = usize::from(address);
    if index < statistics.len() {
        statistics[index].add(count);
    }
}

/// Counts an item at a receiver and a sender, or at a slave and its holder, with the time of the hold that ended.
pub(crate) fn count_at_both(
    statistics: &mut [AddressCounts],
    slave: u8,
    master: u8,
    item: Item,
    units: u64,
)
    ensures { statistics.new ≡ counted_at_both slave master item units statistics.old }
{
    count_at(statistics, slave, Count::Received(item, units));
    count_at(statistics, master, Count::Sent(item, units));
}
