//! The lines of a rack that are followed for the page.

ghost use Rattle.std.specs.Prelude.{◌≡◌, OnOk};
ghost use Rattle.std.specs.Option.{option_copied};
ghost use Rattle.watch_lines.specs.Rack.{next_number, ChangesLine};
ghost use Rattle.audit_heads.specs.HeadLines.{line_read};
ghost use Rattle.watch_lines.specs.Watched.{behind_head, text_begun, KeepsNote, TakesRow};

use crate::watched_line::WatchedLine;
use std::alloc::AllocError;

/// The lines of a rack, and the number of the last change of any of them.
#[derive(Drop)]
pub struct WatchedRack<'a> {
    /// The lines in the order of the rack file.
    pub lines: Vec<WatchedLine<'a>>,
    /// The number of the last change, from 1; 0 before the first. It stops at the largest number of 64 bits.
    pub number: u64,
}

impl<'a> WatchedRack<'a> {
    /// Begins the next text of the line at this index, in the file of this name. The line is opened again, and a note is
    /// stored if there is one. `AllocError` if memory runs out.
    pub fn begin_text(
        &mut self,
        index: usize,
        file: &str,
        note: Option<&str>,
    ) -> Result<(), AllocError>
        ensures number { self.new.number ≡ next_number self.old.number }
        ensures lines { OnOk result (ChangesLine index
            (λ old new. (new ≡ text_begun old.line file.now new.kept) × KeepsNote (option_copied note.entry) (next_number self.old.number) file.now old.kept new.kept)
            self.old.lines.items self.new.lines.items) }
    {
        self.number = self.number.saturating_add(1);
        if index < self.lines.len() {
            self.lines[index].begin_text(file, note, self.number)
        } else {
            Ok(())
        }
    }

    /// Goes on with the text of the line at this index in the file of this name. `AllocError` if memory runs out.
    pub fn set_file(&mut self, index: usize, file: &str) -> Result<(), AllocError>
        ensures number { self.new.number ≡ next_number self.old.number }
        ensures lines { OnOk result (ChangesLine index (λ old new. new ≡ record old { file = file.now })
            self.old.lines.items self.new.lines.items) }
    {
        self.number = self.number.saturating_add(1);
        if index < self.lines.len() {
            self.lines[index].set_file(file)
        } else {
            Ok(())
        }
    }

    /// Sets the number of octets of a row of the line at this index whose LF has not come.
    pub fn set_begun(&mut self, index: usize, octets: usize)
        ensures number { self.new.number ≡ next_number self.old.number }
        ensures lines { ChangesLine index (λ old new. new ≡ record old { begun = octets }) self.old.lines.items self.new.lines.items }
    {
        self.number = self.number.saturating_add(1);
        if index < self.lines.len() {
            self.lines[index].set_begun(octets);
        }
    }

    /// Takes the head of a part, with which the text of the line at this index begins. See [`WatchedLine`]. `AllocError` if
    /// memory runs out.
    pub fn take_head(&mut self, index: usize, head: &[u8]) -> Result<(), AllocError>
        ensures number { self.new.number ≡ next_number self.old.number }
        ensures lines { OnOk result (ChangesLine index (λ old new. new ≡ behind_head old (line_read old.line head.now))
            self.old.lines.items self.new.lines.items) }
    {
        self.number = self.number.saturating_add(1);
        if index < self.lines.len() {
            self.lines[index].take_head(head)
        } else {
            Ok(())
        }
    }

    /// Takes the next row of the text of the line at this index, without its LF. See [`WatchedLine`]. `AllocError` if
    /// memory runs out.
    pub fn take_row(&mut self, index: usize, row: &[u8]) -> Result<(), AllocError>
        ensures number { self.new.number ≡ next_number self.old.number }
        ensures lines { OnOk result (ChangesLine index (λ old new. TakesRow old row.now (next_number self.old.number) new)
            self.old.lines.items self.new.lines.items) }
    {
        self.number = self.number.saturating_add(1);
        if index < self.lines.len() {
            self.lines[index].take_row(row, self.number)
        } else {
            Ok(())
        }
    }
}
