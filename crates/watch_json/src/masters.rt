//! The masters of a line as JSON.

ghost use Rattle.std.specs.Prelude.{◌≡◌, [], map, Some};
ghost use Rattle.std.specs.Fmt.{WritesOnOk};
ghost use Rattle.explain_texts.specs.JsonValues.{array_json, each_behind};
ghost use Rattle.watch_json.specs.Lines.{held_by, master_json};

use crate::values::{Numbers, long};
use arrayvec::ArrayVec;
use dp_line::{LineState, MOST_SLAVES};
use explain_texts::{NumberOrNull, SenderCounts, Ways};
use std::fmt;

/// A master, or all senders that are no master of the line.
#[derive(Clone, Copy)]
struct MasterJson<'a> {
    line: &'a LineState,
    counts: &'a SenderCounts,
}

impl<'a> fmt::Display for MasterJson<'a> {
    ghost output = { λ s. Some (master_json s.line.now.world s.counts.now) };

    #[tactic(auto, unfolding(crate::specs::Lines::master_json))]
    fn fmt<W: fmt::Write>(&self, f: &mut fmt::Formatter<W>) -> fmt::Result {
        let address = NumberOrNull(long(self.counts.sender));
        let holds = held_by(self.line, self.counts.sender);
        let holds = Numbers(holds.as_slice());
        let ways = Ways(self.counts);
        write!(
            f,
            "{{\"address\":{address},\"holds\":{holds},\"ways\":{ways}}}"
        )
    }
}

/// Returns the addresses of the slaves that a master holds, oldest lock first; none for the other senders.
fn held_by(line: &LineState, master: Option<u8>) -> ArrayVec<u8, MOST_SLAVES>
    ensures { result.items ≡ held_by line.now.world master }
{
    match master {
        Some(master) => line.owned_by(master),
        None => ArrayVec::new(),
    }
}

/// The masters of these counts, with commas between.
#[derive(Clone, Copy)]
struct EachMaster<'a> {
    line: &'a LineState,
    senders: &'a [SenderCounts],
}

impl<'a> fmt::Display for EachMaster<'a> {
    ghost output = { λ s. Some (each_behind [] (map (master_json s.line.now.world) s.senders.now)) };

    fn fmt<W: fmt::Write>(&self, f: &mut fmt::Formatter<W>) -> fmt::Result {
        write_masters(f, "", self.line, self.senders)
    }
}

/// Writes the masters of these counts, the first one after this separator.
fn write_masters<W: fmt::Write>(
    f: &mut fmt::Formatter<W>,
    separator: &str,
    line: &LineState,
    senders: &[SenderCounts],
) -> fmt::Result
    ensures { WritesOnOk W.Write.write_str_gives f.old result
        (each_behind separator.now (map (master_json line.now.world) senders.now)) f.new }
{
    let [counts, others @ ..] = senders else {
        return Ok(());
    };
    let master = MasterJson { line, counts };
    write!(f, "{separator}{master}")?;
    write_masters(f, ",", line, others)
}

/// The masters of these counts, as an array.
#[derive(Clone, Copy)]
pub(crate) struct Masters<'a> {
    pub(crate) line: &'a LineState,
    pub(crate) senders: &'a [SenderCounts],
}

impl<'a> fmt::Display for Masters<'a> {
    ghost output = { λ s. Some (array_json (map (master_json s.line.now.world) s.senders.now)) };

    #[tactic(auto, unfolding(explain_texts::specs::JsonValues::array_json))]
    fn fmt<W: fmt::Write>(&self, f: &mut fmt::Formatter<W>) -> fmt::Result {
        let masters = EachMaster {
            line: self.line,
            senders: self.senders,
        };
        write!(f, "[{masters}]")
    }
}
