//! The lines of a rack as JSON.

ghost use Rattle.std.specs.Prelude.{◌≡◌, Some};
ghost use Rattle.watch_json.specs.Racks.{changed_json, names_json, rack_json, run_json, same_json};

use crate::lines::Lines;
use explain_texts::Quoted;
use std::fmt;
use watch_lines::WatchedRack;

/// The number of the run, and that of the last change.
#[derive(Clone, Copy)]
struct Run {
    run: u64,
    number: u64,
}

impl fmt::Display for Run {
    ghost output = { λ s. Some (run_json s.run s.number) };

    #[tactic(auto, unfolding(crate::specs::Racks::run_json))]
    fn fmt<W: fmt::Write>(&self, f: &mut fmt::Formatter<W>) -> fmt::Result {
        let run = self.run;
        let number = self.number;
        write!(f, "\"run\":\"{run}\",\"number\":{number}")
    }
}

/// The names of the rack file and of the folder.
#[derive(Clone, Copy)]
struct Names<'a> {
    file: &'a str,
    folder: &'a str,
}

impl<'a> fmt::Display for Names<'a> {
    ghost output = { λ s. Some (names_json s.file.now s.folder.now) };

    #[tactic(auto, unfolding(crate::specs::Racks::names_json))]
    fn fmt<W: fmt::Write>(&self, f: &mut fmt::Formatter<W>) -> fmt::Result {
        let rack = Quoted(self.file.as_bytes());
        let folder = Quoted(self.folder.as_bytes());
        write!(f, "\"rack\":{rack},\"folder\":{folder}")
    }
}

/// That nothing changed.
#[derive(Clone, Copy)]
struct Same(Run);

impl fmt::Display for Same {
    ghost output = { λ s. Some (same_json s.0.run s.0.number) };

    #[tactic(auto, unfolding(crate::specs::Racks::same_json))]
    fn fmt<W: fmt::Write>(&self, f: &mut fmt::Formatter<W>) -> fmt::Result {
        let run = self.0;
        write!(f, "{{{run},\"same\":true}}\n")
    }
}

/// The lines of a rack.
#[derive(Clone, Copy)]
struct Changed<'a> {
    run: Run,
    names: Names<'a>,
    lines: Lines<'a>,
}

impl<'a> fmt::Display for Changed<'a> {
    ghost output = { λ s. Some (changed_json s.run.run s.run.number s.lines.after s.names.file.now s.names.folder.now s.lines.lines.now) };

    #[tactic(auto, unfolding(crate::specs::Racks::changed_json))]
    fn fmt<W: fmt::Write>(&self, f: &mut fmt::Formatter<W>) -> fmt::Result {
        let run = self.run;
        let names = self.names;
        let lines = self.lines;
        write!(f, "{{{run},\"same\":false,{names},\"lines\":{lines}}}\n")
    }
}

/// The lines of a rack, with their entries whose number is above `after`; or that nothing changed after that number.
#[derive(Clone, Copy)]
pub struct RackJson<'a> {
    pub rack: &'a WatchedRack<'a>,
    /// The path of the rack file.
    pub file: &'a str,
    /// The path of the folder with the audit texts.
    pub folder: &'a str,
    /// The number that distinguishes this run from others.
    pub run: u64,
    /// The number of the last change that the page knows; 0 if it knows none.
    pub after: u64,
}

impl<'a> fmt::Display for RackJson<'a> {
    ghost output = { λ s. Some (rack_json s.run s.rack.now.number s.after s.file.now s.folder.now s.rack.now.lines.items) };

    fn fmt<W: fmt::Write>(&self, f: &mut fmt::Formatter<W>) -> fmt::Result {
        let run = Run {
            run: self.run,
            number: self.rack.number,
        };
        if self.rack.number == self.after && self.after != 0 {
            let same = Same(run);
            return write!(f, "{same}");
        }
        let names = Names {
            file: self.file,
            folder: self.folder,
        };
        let lines = Lines {
            after: self.after,
            lines: self.rack.lines.as_slice(),
        };
        let changed = Changed { run, names, lines };
        write!(f, "{changed}")
    }
}
