//! Following the audit texts of one line.

use crate::found_texts::{find_texts, first_of, newest_of};
use crate::host::WatchHost;
use crate::part_rows::PartRows;
use crate::text_file::TextFile;
use crate::watch_fault::WatchFault;
use audit_files::{AuditName, later_part};
use dp_text::LONGEST;
use explain_texts::TextRows;
use std::alloc::{AllocError, Global};
use std::io::BufReader;
use std::sync::Mutex;
use watch_lines::{TextVerdict, WatchedRack};

/// The number of rows that are taken before the other lines get their turn.
const MOST_ROWS: usize = 256;

/// The rows of an audit text that is still written.
type Rows<'a, H> = TextRows<BufReader<TextFile<'a, H>>>;

/// Where the lines of a rack are followed: the folder, and what the page shows.
#[derive(Drop)]
pub(crate) struct Followed<'a, 'w, H> {
    pub(crate) host: &'a H,
    pub(crate) alloc: Global,
    pub(crate) folder: &'a str,
    pub(crate) rack: &'a Mutex<WatchedRack<'w>>,
}

/// The audit texts of one line: the one that is read, and the numbers of those that were found.
#[derive(Drop)]
pub(crate) struct LineText<'a, H> {
    /// The number of the line.
    line: u8,
    /// The index of the line in the rack.
    index: usize,
    /// The rows of the text; None before the first text, and after a wrong row.
    rows: Option<Rows<'a, H>>,
    /// Which of the rows are those of heads.
    parts: PartRows,
    /// The name of the file that was read last.
    name: Option<AuditName>,
    /// The number of bytes of a row whose LF has not come.
    begun: usize,
    /// The numbers of the texts that were found.
    seen: Vec<u32>,
}

/// What came of a turn of a line.
#[derive(Clone, Copy, PartialEq, Eq)]
pub(crate) enum Turn {
    /// All that was written so far is read.
    AtEnd,
    /// There may be more to read.
    HasMore,
}

impl<'a, H: WatchHost> LineText<'a, H> {
    /// Returns a line of which no text was found yet.
    pub(crate) fn new(alloc: Global, line: u8, index: usize) -> LineText<'a, H> {
        LineText {
            line,
            index,
            rows: None,
            parts: PartRows::new(alloc),
            name: None,
            begun: 0,
            seen: Vec::new(alloc),
        }
    }

    /// Takes rows of the text until the turn is over or nothing more is there.
    pub(crate) fn take_turn(&mut self, followed: &Followed<'a, '_, H>) -> Result<Turn, WatchFault> {
        for _ in 0..MOST_ROWS {
            let Some(rows) = &mut self.rows else {
                return Ok(Turn::AtEnd);
            };
            // A read that fails is tried again later, as if nothing had come.
            let is_whole = rows.read_row().unwrap_or(false);
            let name = rows.reader().get_ref().name();
            self.set_name(followed, name)?;
            if !is_whole {
                return self.end_turn(followed);
            }
            self.take_row(followed)?;
        }
        Ok(Turn::HasMore)
    }

    /// Takes the row that was read.
    fn take_row(&mut self, followed: &Followed<'a, '_, H>) -> Result<(), WatchFault> {
        let Some(rows) = &self.rows else {
            return Ok(());
        };
        let mut rack = followed.rack.lock(followed.host);
        self.parts.take_row(&mut rack, self.index, rows.row())?;
        self.begun = 0;
        let is_right = match rack.lines.get(self.index) {
            Some(line) => is_right(line.text_verdict()),
            None => false,
        };
        if !is_right {
            self.rows = None;
        }
        Ok(())
    }

    /// Ends a turn in which no whole row came.
    fn end_turn(&mut self, followed: &Followed<'a, '_, H>) -> Result<Turn, WatchFault> {
        let Some(rows) = &self.rows else {
            return Ok(Turn::AtEnd);
        };
        let has_more = rows.reader().get_ref().has_more();
        let begun = rows.row().len();
        // No row of an audit text is as long.
        if begun > LONGEST {
            self.take_row(followed)?;
            self.rows = None;
            return Ok(Turn::AtEnd);
        }
        if begun != self.begun {
            self.begun = begun;
            let mut rack = followed.rack.lock(followed.host);
            rack.set_begun(self.index, begun);
        }
        Ok(if has_more { Turn::HasMore } else { Turn::AtEnd })
    }

    /// Stores the name of the file that is read, and shows it if it is another one.
    fn set_name(
        &mut self,
        followed: &Followed<'a, '_, H>,
        name: AuditName,
    ) -> Result<(), WatchFault> {
        if self.name == Some(name) {
            return Ok(());
        }
        self.name = Some(name);
        let file = format!(in followed.alloc; "{name}")?;
        let mut rack = followed.rack.lock(followed.host);
        rack.set_file(self.index, file.as_str())?;
        Ok(())
    }

    /// Goes on with the next text of the line, or with a later part of the text if those before it were deleted. Returns
    /// whether there is one.
    ///
    /// At first this is the text that was changed last. Later it is each text that was not there before, the lowest number
    /// first.
    pub(crate) fn begin_next(
        &mut self,
        followed: &Followed<'a, '_, H>,
    ) -> Result<bool, WatchFault> {
        if self.begin_later_part(followed)? {
            return Ok(true);
        }
        let texts = find_texts(
            followed.host,
            followed.alloc,
            followed.folder,
            self.line,
            self.seen.as_slice(),
        )?;
        let is_first = self.seen.is_empty();
        let next = if is_first {
            newest_of(texts.as_slice())
        } else {
            first_of(texts.as_slice())
        };
        let Some(next) = next else {
            return Ok(false);
        };
        let Ok(file) = TextFile::open(followed.host, followed.alloc, followed.folder, next.name)
        else {
            return Ok(false);
        };
        if is_first {
            for text in texts.as_slice() {
                self.seen.push(text.name.number)?;
            }
        } else {
            self.seen.push(next.name.number)?;
        }
        let note = match self.name {
            None => None,
            Some(before) => Some(self.note(followed, next.name, before)?),
        };
        self.begin_text(followed, next.name, file, note)?;
        Ok(true)
    }

    /// Goes on with the lowest later part of the text that is followed, if the next part is not there: it was deleted before it
    /// was read. Returns whether that is so.
    fn begin_later_part(&mut self, followed: &Followed<'a, '_, H>) -> Result<bool, WatchFault> {
        let Some(later) = self.later_part(followed) else {
            return Ok(false);
        };
        let Ok(file) = TextFile::open(followed.host, followed.alloc, followed.folder, later) else {
            return Ok(false);
        };
        let note = format!(in followed.alloc;
            "{later} begins; the parts before it were deleted before they were read"
        )?;
        self.begin_text(followed, later, file, Some(note))?;
        Ok(true)
    }

    /// Returns the lowest later part of the text that is followed, if it is not the next one. A text that has one file, or a
    /// wrong row, has none.
    fn later_part(&self, followed: &Followed<'a, '_, H>) -> Option<AuditName> {
        if self.rows.is_none() {
            return None;
        }
        let name = self.name?;
        let next = name.next_part()?;
        let later = later_part(followed.host, followed.folder, name)?;
        if later == next { None } else { Some(later) }
    }

    /// Begins a text, or a later part: the line is opened again.
    fn begin_text(
        &mut self,
        followed: &Followed<'a, '_, H>,
        name: AuditName,
        file: TextFile<'a, H>,
        note: Option<String>,
    ) -> Result<(), WatchFault> {
        let Ok(reader) = BufReader::new(followed.alloc, file) else {
            return Err(WatchFault::OutOfMemory);
        };
        let shown = format!(in followed.alloc; "{name}")?;
        let mut rack = followed.rack.lock(followed.host);
        rack.begin_text(
            self.index,
            shown.as_str(),
            note.as_ref().map(|note| note.as_str()),
        )?;
        self.rows = Some(TextRows::new(followed.alloc, reader));
        self.parts = PartRows::new(followed.alloc);
        self.name = Some(name);
        self.begun = 0;
        Ok(())
    }

    /// Returns the note that a text begins after another.
    fn note(
        &self,
        followed: &Followed<'a, '_, H>,
        name: AuditName,
        before: AuditName,
    ) -> Result<String, AllocError> {
        let rack = followed.rack.lock(followed.host);
        let is_halted = match rack.lines.get(self.index) {
            Some(line) => line.follower().line().is_halted(),
            None => false,
        };
        // The head of a later part has the state of its slaves.
        let opening = if name.part.unwrap_or(1) == 1 {
            "; every slave waits for its parameters"
        } else {
            ""
        };
        if is_halted {
            format!(in followed.alloc; "{name} begins{opening}")
        } else {
            format!(in followed.alloc; "{name} begins{opening}; {before} ended without a halt")
        }
    }
}

/// Returns whether no row of a text was wrong so far.
fn is_right(text_verdict: TextVerdict) -> bool {
    match text_verdict {
        TextVerdict::Empty => true,
        TextVerdict::Legal => true,
        TextVerdict::BadLine(_) => false,
        TextVerdict::NotThePolicy(_) => false,
    }
}
