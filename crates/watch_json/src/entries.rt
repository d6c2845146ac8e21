//! The entries of a line as JSON.

ghost use Rattle.std.specs.Prelude.{◌≡◌, [], map, filter, Some};
ghost use Rattle.std.specs.Fmt.{WritesOnOk};
ghost use Rattle.explain_texts.specs.JsonValues.{each_behind};
ghost use Rattle.watch_json.specs.Lines.{entries_json, entry_json, is_after};

use std::fmt;
use watch_lines::KeptEntry;

/// A text of ASCII as it is.
#[derive(Clone, Copy)]
struct Plain<'a>(&'a [u8]);

impl<'a> fmt::Display for Plain<'a> {
    ghost output = { λ s. Some s.0.now };

    fn fmt<W: fmt::Write>(&self, f: &mut fmt::Formatter<W>) -> fmt::Result {
        match std::str::from_utf8(self.0) {
            Ok(text) => f.write_str(text),
            Err(_) => Err(fmt::Error),
        }
    }
}

/// An entry.
#[derive(Clone, Copy)]
struct EntryJson<'a>(&'a KeptEntry);

impl<'a> fmt::Display for EntryJson<'a> {
    ghost output = { λ s. Some (entry_json s.0.now) };

    #[tactic(auto, unfolding(crate::specs::Lines::entry_json))]
    fn fmt<W: fmt::Write>(&self, f: &mut fmt::Formatter<W>) -> fmt::Result {
        let number = self.0.number;
        let entry = Plain(self.0.text.as_slice());
        write!(f, "{{\"number\":{number},\"entry\":{entry}}}")
    }
}

/// Those of these entries whose number is above `after`, with commas between.
#[derive(Clone, Copy)]
struct EachEntry<'a> {
    after: u64,
    entries: &'a [KeptEntry],
}

impl<'a> fmt::Display for EachEntry<'a> {
    ghost output = { λ s. Some (each_behind [] (map entry_json (filter (is_after s.after) s.entries.now))) };

    fn fmt<W: fmt::Write>(&self, f: &mut fmt::Formatter<W>) -> fmt::Result {
        write_entries(f, "", self.after, self.entries)
    }
}

/// Writes those of these entries whose number is above `after`, the first one after this separator.
fn write_entries<W: fmt::Write>(
    f: &mut fmt::Formatter<W>,
    separator: &str,
    after: u64,
    entries: &[KeptEntry],
) -> fmt::Result
    ensures { WritesOnOk W.Write.write_str_gives f.old result
        (each_behind separator.now (map entry_json (filter (is_after after) entries.now))) f.new }
{
    let [entry, others @ ..] = entries else {
        return Ok(());
    };
    if entry.number <= after {
        return write_entries(f, separator, after, others);
    }
    let entry = EntryJson(entry);
    write!(f, "{separator}{entry}")?;
    write_entries(f, ",", after, others)
}

/// Those of these entries whose number is above `after`, as an array.
#[derive(Clone, Copy)]
pub(crate) struct Entries<'a> {
    pub(crate) after: u64,
    pub(crate) entries: &'a [KeptEntry],
}

impl<'a> fmt::Display for Entries<'a> {
    ghost output = { λ s. Some (entries_json s.after s.entries.now) };

    #[tactic(auto, unfolding(crate::specs::Lines::entries_json, explain_texts::specs::JsonValues::array_json))]
    fn fmt<W: fmt::Write>(&self, f: &mut fmt::Formatter<W>) -> fmt::Result {
        let entries = EachEntry {
            after: self.after,
            entries: self.entries,
        };
        write!(f, "[{entries}]")
    }
}
