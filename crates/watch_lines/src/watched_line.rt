//! A line whose audit text is followed for the page.

ghost use Rattle.std.specs.Prelude.{◌≡◌, [], None, IfOk, OnOk};
ghost use Rattle.std.specs.Option.{option_copied};
ghost use Rattle.dp_line.specs.World.{description_of, opening_fault};
ghost use Rattle.dp_text.specs.Words.{lines_of};
ghost use Rattle.audit_heads.specs.HeadLines.{line_read};
ghost use Rattle.explain_texts.specs.Followed.{after_row, event_taken, first_follower};
ghost use Rattle.watch_lines.specs.Kept.{nothing_kept};
ghost use Rattle.watch_lines.specs.Watched.{behind_head, follower_opened, header_judged, next_front, note_json, text_verdict_by, text_verdict_of, text_begun, IsKept, IsNoted, KeepsEvent, KeepsNote, TakesRow};

use crate::kept_entries::KeptEntries;
use crate::kept_entry::{KeptEntry, is_notable};
use crate::text_verdict::TextVerdict;
use audit_heads::HeadFault;
use audit_parts::fault_of_head;
use dp_audit::{AuditFault, is_header_of};
use dp_line::LineSpec;
use dp_text::Text;
use explain_texts::{Choice, FollowFault, Follower, JsonWriter, Quoted};
use std::alloc::{AllocError, Global};
use std::marker::Model;

/// Every entry.
const EVERY_ENTRY: Choice = Choice {
    from: None,
    to: None,
    slave: None,
    master: None,
    refused: false,
    faults: false,
    summary: false,
};

/// What the first row of a text was found to be.
#[derive(Clone, Copy)]
pub(crate) enum Header {
    /// It has not come yet.
    NotRead,
    /// It is a header of the line, or the first row of a head of the line that was taken.
    Accepted,
    /// It is no header of the line, or begins no head of the line: the fault of the text.
    Wrong(AuditFault),
}

/// A line whose audit text is followed. Contracts see what is known from its rows, and what is stored.
#[derive(Drop)]
pub struct WatchedLine<'a> {
    alloc: Global,
    line: &'a LineSpec,
    /// The name of the file that is read; empty before the first.
    file: String,
    header: Header,
    follower: Follower<'a>,
    /// The number of octets of a row whose LF has not come.
    begun: usize,
    kept: KeptEntries,
}

impl<'a> Model for WatchedLine<'a> {
    ghost use Rattle.std.specs.Prelude.{◌≡◌, None, string_bytes};
    ghost use Rattle.dp_line.specs.World.{description_of, opening_fault};
    ghost use Rattle.watch_lines.specs.Watched.{WatchedView};

    ghost Value = { WatchedView };

    ghost view = { λ w. record {
      line = description_of w.line.now;
      file = string_bytes w.file;
      header = w.header;
      follower = w.follower;
      begun = w.begun;
      kept = w.kept;
    } };

    ghost invariant = { λ w. opening_fault (description_of w.line.now) ≡ None };
}

impl<'a> WatchedLine<'a> {
    /// Opens the line, before a text is there. `AllocError` if memory runs out.
    pub fn open(alloc: Global, line: &'a LineSpec) -> Result<WatchedLine<'a>, AllocError>
        requires { opening_fault (description_of line.now) ≡ None }
        ensures { IfOk result (λ watched. watched ≡ text_begun (description_of line.now) [] nothing_kept) }
    {
        let follower = open_follower(alloc, line, "")?;
        Ok(WatchedLine {
            alloc,
            line,
            file: String::new(alloc),
            header: Header::NotRead,
            follower,
            begun: 0,
            kept: KeptEntries::new(alloc),
        })
    }

    /// Returns the description of the line.
    pub fn description(&self) -> &'a LineSpec
        ensures { description_of result.now ≡ self.now.line }
    {
        self.line
    }

    /// Returns the name of the file that is read; empty before the first.
    pub fn file(&self) -> &str
        ensures { result.now ≡ self.now.file }
    {
        self.file.as_str()
    }

    /// Returns what follows the rows of the text: the line, the counts, the time and the releases.
    pub fn follower(&self) -> &Follower<'a>
        ensures { result.now ≡ self.now.follower }
    {
        &self.follower
    }

    /// Returns the number of octets of a row whose LF has not come.
    pub fn begun(&self) -> usize
        ensures { result ≡ self.now.begun }
    {
        self.begun
    }

    /// Returns the entries that are stored.
    pub fn kept(&self) -> &KeptEntries
        ensures { result.now ≡ self.now.kept }
    {
        &self.kept
    }

    /// Returns what the text was found to be so far.
    pub fn text_verdict(&self) -> TextVerdict
        ensures { result ≡ text_verdict_of self.now self.now.header }
    {
        match self.header {
            Header::NotRead => TextVerdict::Empty,
            Header::Wrong(fault) => text_verdict_by(Some(fault)),
            Header::Accepted => text_verdict_by(self.follower.fault()),
        }
    }

    /// Begins the next text of the line in the file of this name: the line is opened again. A note of it is stored under
    /// this number, if there is one. `AllocError` if memory runs out.
    pub(crate) fn begin_text(
        &mut self,
        file: &str,
        note: Option<&str>,
        number: u64,
    ) -> Result<(), AllocError>
        ensures text { OnOk result (self.new ≡ text_begun self.old.line file.now self.new.kept) }
        ensures kept { OnOk result (KeepsNote (option_copied note.entry) number file.now self.old.kept self.new.kept) }
    {
        let follower = open_follower(self.alloc, self.line, "")?;
        self.file = String::from_str(self.alloc, file)?;
        self.header = Header::NotRead;
        self.follower = follower;
        self.begun = 0;
        match note {
            Some(note) => self.keep_note(file, note, number),
            None => Ok(()),
        }
    }

    /// Goes on with the text in the file of this name. `AllocError` if memory runs out.
    pub(crate) fn set_file(&mut self, file: &str) -> Result<(), AllocError>
        ensures { OnOk result (self.new ≡ record self.old { file = file.now }) }
    {
        self.file = String::from_str(self.alloc, file)?;
        Ok(())
    }

    /// Sets the number of octets of a row whose LF has not come.
    pub(crate) fn set_begun(&mut self, octets: usize)
        ensures { self.new ≡ record self.old { begun = octets } }
    {
        self.begun = octets;
    }

    /// Takes the next row of the text, without its LF, under this number. The first row has to be a header of the line; the
    /// entry of each right row behind it is stored. After a wrong row nothing changes any more. `AllocError` if memory
    /// runs out.
    pub(crate) fn take_row(&mut self, row: &[u8], number: u64) -> Result<(), AllocError>
        ensures { OnOk result (TakesRow self.old row.now number self.new) }
    {
        self.begun = 0;
        match self.header {
            Header::NotRead => self.take_header(row),
            Header::Wrong(_) => Ok(()),
            Header::Accepted => self.take_entry(row, number),
        }
    }

    /// Takes the head of a part, with which a text begins of which no row was taken: the line is opened behind it. If no line
    /// goes on from the head, it is a wrong row. `AllocError` if memory runs out.
    pub(crate) fn take_head(&mut self, head: &[u8]) -> Result<(), AllocError>
        ensures { OnOk result (self.new ≡ behind_head self.old (line_read self.old.line head.now)) }
    {
        self.begun = 0;
        match Follower::open_behind(self.alloc, self.line, head, &mut Text::new()) {
            Ok(follower) => {
                self.follower = follower;
                self.header = Header::Accepted;
                Ok(())
            }
            Err(HeadFault::OutOfMemory) => Err(AllocError),
            Err(fault) => {
                self.header = Header::Wrong(fault_of_head(self.line, fault));
                Ok(())
            }
        }
    }

    /// Takes the first row.
    fn take_header(&mut self, row: &[u8]) -> Result<(), AllocError>
        ensures { OnOk result (self.new ≡ record self.old {
          header = header_judged self.old.line row.now;
          follower = follower_opened self.old row.now (header_judged self.old.line row.now);
        }) }
    {
        if is_header_of(row, self.line) {
            self.accept_header(row)
        } else {
            self.header = Header::Wrong(AuditFault::BadLine(1));
            Ok(())
        }
    }

    /// Opens the line at its header, which is ASCII.
    fn accept_header(&mut self, row: &[u8]) -> Result<(), AllocError>
        ensures { OnOk result (self.new ≡ record self.old { header = Header.Accepted; follower = first_follower self.old.line (lines_of row.now) }) }
    {
        match std::str::from_utf8(row) {
            Ok(header) => {
                self.follower = open_follower(self.alloc, self.line, header)?;
                self.header = Header::Accepted;
                Ok(())
            }
            Err(_) => Err(AllocError),
        }
    }

    /// Takes a row behind the header.
    fn take_entry(&mut self, row: &[u8], number: u64) -> Result<(), AllocError>
        ensures follower { OnOk result (self.new ≡ record self.old { follower = after_row self.old.follower row.now; kept = self.new.kept }) }
        ensures kept { OnOk result (KeepsEvent (event_taken self.old.follower row.now) number (next_front self.old.follower) self.old.kept self.new.kept) }
    {
        let mut entry = JsonWriter::new(self.alloc, Vec::new(self.alloc));
        match self.follower.take_row(row, &EVERY_ENTRY, &mut entry) {
            Ok(()) => self.keep_entry(entry.into_writer(), number),
            Err(FollowFault::Wrong(_)) => Ok(()),
            Err(FollowFault::Explain(_)) => Err(AllocError),
        }
    }

    /// Stores an entry by its line of JSON.
    fn keep_entry(&mut self, text: Vec<u8>, number: u64) -> Result<(), AllocError>
        ensures same { OnOk result (self.new ≡ record self.old { kept = self.new.kept }) }
        ensures kept { OnOk result (IsKept number text.items self.old.kept self.new.kept) }
    {
        let is_notable = is_notable(text.as_slice());
        self.kept.keep(KeptEntry {
            number,
            is_notable,
            text,
        })
    }

    /// Stores a note that the text in this file begins.
    fn keep_note(&mut self, file: &str, note: &str, number: u64) -> Result<(), AllocError>
        ensures same { OnOk result (self.new ≡ record self.old { kept = self.new.kept }) }
        ensures kept { OnOk result (IsNoted number file.now note.now self.old.kept self.new.kept) }
    {
        let text = note_line(self.alloc, file, note)?;
        self.kept.keep(KeptEntry {
            number,
            is_notable: true,
            text,
        })
    }
}

/// Returns the line of JSON of a note that the text in this file begins. `AllocError` if memory runs out.
fn note_line(alloc: Global, file: &str, note: &str) -> Result<Vec<u8>, AllocError>
    ensures { IfOk result (λ text. text.items ≡ note_json file.now note.now) }
{
    let mut text = String::new(alloc);
    let begins = Quoted(file.as_bytes());
    let note = Quoted(note.as_bytes());
    write!(text, "{{\"begins\":{begins},\"note\":{note}}}\n")?;
    Ok(text.into_bytes())
}

/// Opens what follows the text with this header. `AllocError` if memory runs out.
fn open_follower<'a>(
    alloc: Global,
    line: &'a LineSpec,
    header: &str,
) -> Result<Follower<'a>, AllocError>
    requires { opening_fault (description_of line.now) ≡ None }
    ensures { IfOk result (λ follower. follower ≡ first_follower (description_of line.now) (lines_of header.now)) }
{
    match Follower::open(alloc, line, header) {
        Ok(follower) => Ok(follower),
        Err(_) => Err(AllocError),
    }
}

/// Returns what a text was found to be, by the fault of its first wrong row.
fn text_verdict_by(fault: Option<AuditFault>) -> TextVerdict
    ensures { result ≡ text_verdict_by fault }
{
    match fault {
        None => TextVerdict::Legal,
        Some(AuditFault::BadLine(row)) => TextVerdict::BadLine(row),
        Some(AuditFault::NotThePolicy(row)) => TextVerdict::NotThePolicy(row),
        Some(AuditFault::OutOfMemory) => TextVerdict::Legal,
    }
}
