//! The summary as lines of JSON: the holds, and what was counted.

use crate::hold::Hold;
use crate::json_field::{number, number_or_null, octet, octet_or_null, truth, word, word_or_null};
use crate::json_names::ending_name;
use crate::json_text::JsonText;
use crate::live_list::is_master;
use crate::statistics::{AddressCounts, Item, StationCounts};
use crate::summary::Summary;
use crate::tally::SenderCounts;
use crate::tally_rows::{ALL_WAYS, is_fault, way_name};
use dp_line::{LineSpec, described};
use dp_responder::Rule;
use explain_events::{Answered, Ending};

/// The rules by which a station counts refusals.
const REFUSALS: [Rule; 15] = [
    Rule::Halted,
    Rule::NoFrame,
    Rule::NoMaster,
    Rule::ForeignSender,
    Rule::BadFunction,
    Rule::BadExtension,
    Rule::BadBroadcast,
    Rule::NoStation,
    Rule::NoService,
    Rule::NotActive,
    Rule::NotHolder,
    Rule::NotListed,
    Rule::Busy,
    Rule::Length,
    Rule::NotSelected,
];

/// The ways in which a hold ends.
const ENDINGS: [Ending; 5] = [
    Ending::WrongConfiguration,
    Ending::WrongParameters,
    Ending::Unlocked,
    Ending::Halted,
    Ending::Watchdog,
];

impl JsonText {
    /// Makes the text the lines of a summary.
    pub(crate) fn set_summary(&mut self, summary: &Summary<'_>) {
        self.clear();
        self.holds(summary.ended);
        self.holds(summary.lasting);
        self.tally(summary.tally);
        self.slave_counts(summary.line, summary.statistics);
        self.master_counts(summary.line, summary.statistics);
        self.polls(summary.line, summary.statistics);
    }

    fn holds(&mut self, holds: &[Hold]) {
        for hold in holds {
            self.hold(hold);
        }
    }

    fn hold(&mut self, hold: &Hold) {
        self.begin_line("hold");
        self.fields(&[
            octet("slave", hold.address),
            octet("master", hold.master),
            number("since", u64::from(hold.since)),
            number_or_null("to", hold.place),
            word("ending", ending_name(hold.ending)),
        ]);
        self.end_line();
    }

    // ---- requests by way

    fn tally(&mut self, tally: &[SenderCounts]) {
        for counts in tally {
            self.ways(counts);
        }
    }

    fn ways(&mut self, counts: &SenderCounts) {
        for way in &ALL_WAYS {
            let count = counts.count_of(*way);
            if count != 0 {
                self.way(counts.sender, *way, count);
            }
        }
    }

    fn way(&mut self, sender: Option<u8>, way: Option<Answered>, count: u64) {
        self.begin_line("count");
        self.fields(&[
            octet_or_null("master", sender),
            word("way", way_name(way)),
            number("count", count),
            truth("fault", is_fault(way)),
            None,
        ]);
        self.end_line();
    }

    // ---- stations

    fn slave_counts(&mut self, line: &LineSpec, statistics: &[AddressCounts]) {
        for slave in line.slaves.as_slice() {
            if let Some(counts) = statistics.get(usize::from(slave.address)) {
                self.station("slave", slave.address, &counts.receiver);
            }
        }
    }

    fn master_counts(&mut self, line: &LineSpec, statistics: &[AddressCounts]) {
        for master in line.masters.as_slice() {
            if let Some(counts) = statistics.get(usize::from(*master)) {
                self.station("master", *master, &counts.sender);
            }
        }
    }

    /// Appends the line of a station.
    fn station(&mut self, kind: &'static str, address: u8, counts: &StationCounts) {
        self.begin_line("station");
        self.fields(&[
            word("station", kind),
            octet("address", address),
            number("exchanges", counts.count_of(Item::Exchange)),
            number("diagnoses", counts.count_of(Item::Diagnosis)),
            number("retries", counts.count_of(Item::Retry)),
        ]);
        self.refusal_counts(counts);
        self.release_counts(counts);
        self.one(number("held", counts.held));
        self.end_line();
    }

    fn refusal_counts(&mut self, counts: &StationCounts) {
        self.open("refused");
        for rule in &REFUSALS {
            self.counted(rule.name(), counts.count_of(Item::Refused(*rule)));
        }
        self.close();
    }

    fn release_counts(&mut self, counts: &StationCounts) {
        self.open("released");
        for ending in &ENDINGS {
            self.counted(
                ending_name(*ending),
                counts.count_of(Item::Released(*ending)),
            );
        }
        self.close();
    }

    /// Appends a field with a count, unless it is 0.
    fn counted(&mut self, key: &'static str, count: u64) {
        if count != 0 {
            self.one(number(key, count));
        }
    }

    // ---- the live list

    fn polls(&mut self, line: &LineSpec, statistics: &[AddressCounts]) {
        for counts in statistics {
            let count = counts.receiver.count_of(Item::Poll);
            if count != 0 {
                self.poll(line, counts.address, count);
            }
        }
    }

    fn poll(&mut self, line: &LineSpec, address: u8, count: u64) {
        self.begin_line("poll");
        self.one(octet("address", address));
        self.one(word_or_null("station", station_at(line, address)));
        self.one(number("count", count));
        self.end_line();
    }
}

/// Returns the kind of the station that has an address; None if there is none.
fn station_at(line: &LineSpec, address: u8) -> Option<&'static str> {
    if described(line.slaves.as_slice(), address).is_some() {
        Some("slave")
    } else if is_master(line.masters.as_slice(), address) {
        Some("master")
    } else {
        None
    }
}
