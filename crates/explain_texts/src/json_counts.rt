//! How many requests of a sender were answered in each way, as JSON.

ghost use Rattle.std.specs.Prelude.{map, filter, Some};
ghost use Rattle.std.specs.Fmt.{WritesOnOk};
ghost use Rattle.explain_texts.specs.JsonCounts.{was_counted, way_json, ways_json};
ghost use Rattle.explain_texts.specs.JsonValues.{each_behind};

use crate::json_values::{Quoted, truth_name};
use crate::tally::SenderCounts;
use crate::tally_rows::{ALL_WAYS, is_fault, way_name};
use explain_events::Answered;
use std::fmt;

/// A way in which requests of a sender were answered, and how often.
#[derive(Clone, Copy)]
struct Way<'a> {
    counts: &'a SenderCounts,
    way: Option<Answered>,
}

impl<'a> fmt::Display for Way<'a> {
    ghost output = { λ s. Some (way_json s.counts.now s.way) };

    #[tactic(auto, unfolding(crate::specs::JsonCounts::way_json))]
    fn fmt<W: fmt::Write>(&self, f: &mut fmt::Formatter<W>) -> fmt::Result {
        let name = Quoted(way_name(self.way).as_bytes());
        let count = self.counts.count_of(self.way);
        let fault = truth_name(is_fault(self.way));
        write!(f, "{{\"way\":{name},\"count\":{count},\"fault\":{fault}}}")
    }
}

/// The ways in which requests of a sender were answered, with how often each was, as an array of JSON. A way that is a fault
/// of the bus is marked so.
#[derive(Clone, Copy)]
pub struct Ways<'a>(pub &'a SenderCounts);

impl<'a> fmt::Display for Ways<'a> {
    ghost output = { λ s. Some (ways_json s.0.now) };

    fn fmt<W: fmt::Write>(&self, f: &mut fmt::Formatter<W>) -> fmt::Result {
        f.write_str("[")?;
        write_ways(f, "", self.0, &ALL_WAYS)?;
        f.write_str("]")
    }
}

/// Writes those of these ways that were counted, the first one after this separator.
fn write_ways<W: fmt::Write>(
    f: &mut fmt::Formatter<W>,
    separator: &str,
    counts: &SenderCounts,
    ways: &[Option<Answered>],
) -> fmt::Result
    ensures { WritesOnOk W.Write.write_str_gives f.old result
        (each_behind separator.now (map (way_json counts.now) (filter (was_counted counts.now) ways.now))) f.new }
{
    let [way, others @ ..] = ways else {
        return Ok(());
    };
    if counts.count_of(*way) == 0 {
        return write_ways(f, separator, counts, others);
    }
    let way = Way { counts, way: *way };
    write!(f, "{separator}{way}")?;
    write_ways(f, ",", counts, others)
}
