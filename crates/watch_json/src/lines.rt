//! A line as JSON.

ghost use Rattle.std.specs.Prelude.{◌≡◌, [], map, Some};
ghost use Rattle.std.specs.Fmt.{WritesOnOk};
ghost use Rattle.explain_texts.specs.JsonValues.{array_json, each_behind};
ghost use Rattle.watch_json.specs.Lines.{file_json, found_json, kept_json, line_json, places_json, rows_json, text_verdict_name, stations_json, text_json, wrong_row};

use crate::entries::Entries;
use crate::masters::Masters;
use crate::slaves::Slaves;
use explain_texts::{Follower, NumberOrNull, Quoted, truth_name};
use std::fmt;
use watch_lines::{TextVerdict, WatchedLine};

/// The name of a file; `null` if it is empty.
#[derive(Clone, Copy)]
struct FileOrNull<'a>(&'a str);

impl<'a> fmt::Display for FileOrNull<'a> {
    ghost output = { λ s. Some (file_json s.0.now) };

    #[tactic(auto, unfolding(crate::specs::Lines::file_json))]
    fn fmt<W: fmt::Write>(&self, f: &mut fmt::Formatter<W>) -> fmt::Result {
        if self.0.len() == 0 {
            f.write_str("null")
        } else {
            let file = Quoted(self.0.as_bytes());
            write!(f, "{file}")
        }
    }
}

/// Returns what a text was found to be.
fn text_verdict_name(text_verdict: TextVerdict) -> &'static str
    ensures { result.now ≡ text_verdict_name text_verdict }
{
    match text_verdict {
        TextVerdict::Empty => "empty",
        TextVerdict::Legal => "legal",
        TextVerdict::BadLine(_) => "bad line",
        TextVerdict::NotThePolicy(_) => "not the policy",
    }
}

/// Returns the number of the first wrong row; 0 if there is none.
fn wrong_row(text_verdict: TextVerdict) -> u64
    ensures { result ≡ wrong_row text_verdict }
{
    match text_verdict {
        TextVerdict::Empty => 0,
        TextVerdict::Legal => 0,
        TextVerdict::BadLine(row) => row,
        TextVerdict::NotThePolicy(row) => row,
    }
}

/// The line, the file and what the text was found to be.
#[derive(Clone, Copy)]
struct Found<'a>(&'a WatchedLine<'a>);

impl<'a> fmt::Display for Found<'a> {
    ghost output = { λ s. Some (found_json s.0.now) };

    #[tactic(auto, unfolding(crate::specs::Lines::found_json))]
    fn fmt<W: fmt::Write>(&self, f: &mut fmt::Formatter<W>) -> fmt::Result {
        let number = self.0.description().number;
        let file = FileOrNull(self.0.file());
        let text_verdict = Quoted(text_verdict_name(self.0.text_verdict()).as_bytes());
        write!(
            f,
            "\"line\":{number},\"file\":{file},\"standing\":{text_verdict}"
        )
    }
}

/// The first wrong row, and the octets of a row whose LF has not come.
#[derive(Clone, Copy)]
struct Rows<'a>(&'a WatchedLine<'a>);

impl<'a> fmt::Display for Rows<'a> {
    ghost output = { λ s. Some (rows_json s.0.now) };

    #[tactic(auto, unfolding(crate::specs::Lines::rows_json))]
    fn fmt<W: fmt::Write>(&self, f: &mut fmt::Formatter<W>) -> fmt::Result {
        let row = wrong_row(self.0.text_verdict());
        let begun = self.0.begun();
        write!(f, "\"row\":{row},\"begun\":{begun}")
    }
}

/// The text of a line.
#[derive(Clone, Copy)]
struct TextJson<'a>(&'a WatchedLine<'a>);

impl<'a> fmt::Display for TextJson<'a> {
    ghost output = { λ s. Some (text_json s.0.now) };

    #[tactic(auto, unfolding(crate::specs::Lines::text_json))]
    fn fmt<W: fmt::Write>(&self, f: &mut fmt::Formatter<W>) -> fmt::Result {
        let found = Found(self.0);
        let rows = Rows(self.0);
        write!(f, "{found},{rows}")
    }
}

/// The places of a line, and its time.
#[derive(Clone, Copy)]
struct Places<'a>(&'a Follower<'a>);

impl<'a> fmt::Display for Places<'a> {
    ghost output = { λ s. Some (places_json s.0.now.known.context) };

    #[tactic(auto, unfolding(crate::specs::Lines::places_json))]
    fn fmt<W: fmt::Write>(&self, f: &mut fmt::Formatter<W>) -> fmt::Result {
        let line = self.0.line();
        let count = line.count();
        let capacity = line.capacity();
        let halted = truth_name(line.is_halted());
        let time = NumberOrNull(self.0.time());
        write!(
            f,
            "\"count\":{count},\"capacity\":{capacity},\"halted\":{halted},\"time\":{time}"
        )
    }
}

/// The masters and the slaves of a line.
#[derive(Clone, Copy)]
struct Stations<'a>(&'a WatchedLine<'a>);

impl<'a> fmt::Display for Stations<'a> {
    ghost output = { λ s. Some (stations_json s.0.now) };

    fn fmt<W: fmt::Write>(&self, f: &mut fmt::Formatter<W>) -> fmt::Result {
        let follower = self.0.follower();
        let masters = Masters {
            line: follower.line(),
            senders: follower.senders(),
        };
        let slaves = Slaves {
            follower,
            specs: self.0.description().slaves.as_slice(),
        };
        write!(f, "\"masters\":{masters},\"slaves\":{slaves}")
    }
}

/// The entries of a line whose number is above `after`.
#[derive(Clone, Copy)]
struct Kept<'a> {
    after: u64,
    line: &'a WatchedLine<'a>,
}

impl<'a> fmt::Display for Kept<'a> {
    ghost output = { λ s. Some (kept_json s.after s.line.now) };

    #[tactic(auto, unfolding(crate::specs::Lines::kept_json))]
    fn fmt<W: fmt::Write>(&self, f: &mut fmt::Formatter<W>) -> fmt::Result {
        let kept = self.line.kept();
        let notable = Entries {
            after: self.after,
            entries: kept.notable(),
        };
        let recent = Entries {
            after: self.after,
            entries: kept.recent(),
        };
        write!(f, "\"notable\":{notable},\"recent\":{recent}")
    }
}

/// A line, with its entries whose number is above `after`.
#[derive(Clone, Copy)]
struct LineJson<'a> {
    after: u64,
    line: &'a WatchedLine<'a>,
}

impl<'a> fmt::Display for LineJson<'a> {
    ghost output = { λ s. Some (line_json s.after s.line.now) };

    #[tactic(auto, unfolding(crate::specs::Lines::line_json))]
    fn fmt<W: fmt::Write>(&self, f: &mut fmt::Formatter<W>) -> fmt::Result {
        let text = TextJson(self.line);
        let places = Places(self.line.follower());
        let stations = Stations(self.line);
        let kept = Kept {
            after: self.after,
            line: self.line,
        };
        write!(f, "{{{text},{places},{stations},{kept}}}")
    }
}

/// These lines, with commas between.
#[derive(Clone, Copy)]
struct EachLine<'a> {
    after: u64,
    lines: &'a [WatchedLine<'a>],
}

impl<'a> fmt::Display for EachLine<'a> {
    ghost output = { λ s. Some (each_behind [] (map (line_json s.after) s.lines.now)) };

    fn fmt<W: fmt::Write>(&self, f: &mut fmt::Formatter<W>) -> fmt::Result {
        write_lines(f, "", self.after, self.lines)
    }
}

/// Writes these lines, the first one after this separator.
fn write_lines<W: fmt::Write>(
    f: &mut fmt::Formatter<W>,
    separator: &str,
    after: u64,
    lines: &[WatchedLine<'_>],
) -> fmt::Result
    ensures { WritesOnOk W.Write.write_str_gives f.old result (each_behind separator.now (map (line_json after) lines.now)) f.new }
{
    let [line, others @ ..] = lines else {
        return Ok(());
    };
    let line = LineJson { after, line };
    write!(f, "{separator}{line}")?;
    write_lines(f, ",", after, others)
}

/// These lines, each with its entries whose number is above `after`, as an array.
#[derive(Clone, Copy)]
pub(crate) struct Lines<'a> {
    pub(crate) after: u64,
    pub(crate) lines: &'a [WatchedLine<'a>],
}

impl<'a> fmt::Display for Lines<'a> {
    ghost output = { λ s. Some (array_json (map (line_json s.after) s.lines.now)) };

    #[tactic(auto, unfolding(explain_texts::specs::JsonValues::array_json))]
    fn fmt<W: fmt::Write>(&self, f: &mut fmt::Formatter<W>) -> fmt::Result {
        let lines = EachLine {
            after: self.after,
            lines: self.lines,
        };
        write!(f, "[{lines}]")
    }
}
