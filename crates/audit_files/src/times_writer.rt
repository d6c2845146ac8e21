//! Writing the times of entries to files beside the audit texts.
//!
//! A reply is sent once the row of its entry is in the audit text. It does not wait for the time of the entry: the writer of an
//! audit text only notes that time (`line_times`), and a thread of the server writes what was noted every 100 ms. The first and
//! the last entry of these 100 ms get a row.

ghost use Rattle.std.specs.Prelude.{◌≡◌, IfOk};
ghost use Rattle.audit_files.specs.LineTimes.{noted_rows};

use crate::audit_name::AuditName;
use crate::audit_writer::text_of_path;
use crate::file_host::{NewFiles, remove_if_there};
use crate::line_times::{LineTimes, Noted, Recorded};
use crate::times_path::{TimesPath, text_of_times_path};
use crossbeam_channel::{Receiver, RecvTimeoutError};
use entry_times::TimesHeader;
use log::Log;
use serve_log::Notes;
use std::alloc::{AllocError, Global};
use std::fs::File;
use std::io::{self, Error, Write};
use std::sync::{Mutex, Wait};
use std::time::{Clock, Duration};

/// The milliseconds from one write of the noted times to the next one.
const PERIOD: u64 = 100;

/// The most characters of two rows, each with its LF: `4294967295 18446744073709551615`.
const LONGEST_ROWS: usize = 64;

/// The file of times that is written for a line.
#[derive(Drop)]
struct TimesFile {
    /// The name of the file of the audit text beside it.
    name: AuditName,
    /// The file, or `None` if it could not be created or a write has failed.
    file: Option<File>,
}

/// A line, its times, and the file that has them. The file is `None` before the first entry.
#[derive(Drop)]
struct TimedLine {
    number: u8,
    times: LineTimes,
    file: Mutex<Option<TimesFile>>,
}

/// Writes the times of the entries of lines to files in the folder of their audit texts. No clause can say what a file has, or of
/// which line: tests show it.
#[derive(Drop)]
pub struct TimesWriter<'s, H> {
    host: &'s H,
    notes: &'s Notes<'s, H>,
    alloc: Global,
    folder: String,
    lines: Vec<TimedLine>,
}

impl<'s, H: NewFiles + Wait + Log + Clock> TimesWriter<'s, H> {
    /// Returns the writer for the lines with these numbers, whose audit texts are in a folder.
    ///
    /// Returns an error if memory is refused.
    pub fn new(
        host: &'s H,
        notes: &'s Notes<'s, H>,
        alloc: Global,
        folder: &str,
        numbers: &[u8],
    ) -> Result<TimesWriter<'s, H>, AllocError> {
        let folder = format!(in alloc; "{folder}")?;
        let mut lines = Vec::new(alloc);
        for number in numbers {
            lines.push(TimedLine {
                number: *number,
                times: LineTimes::new(),
                file: Mutex::new(None),
            })?;
        }
        Ok(TimesWriter {
            host,
            notes,
            alloc,
            folder,
            lines,
        })
    }

    /// Writes what was noted every 100 ms, until the sender of `ended` is dropped. A thread of its own calls it.
    pub fn write_each(&self, ended: &Receiver<()>) {
        for _ in self.host.forever() {
            self.write_noted();
            match ended.recv_timeout(self.host, Duration::from_millis(PERIOD)) {
                Err(RecvTimeoutError::Timeout) => {}
                Ok(()) => return,
                Err(RecvTimeoutError::Disconnected) => return,
            }
        }
    }

    /// Writes what was noted of each line since the last call.
    pub fn write_noted(&self) {
        for line in &self.lines {
            if let Some(noted) = line.times.take(self.host) {
                let mut file = line.file.lock(self.host);
                self.write(&mut file, &noted);
            }
        }
    }

    /// Returns the times of the line with this number, or `None` if it is not one of these lines.
    pub(crate) fn of_line(&self, number: u8) -> Option<&LineTimes> {
        for line in &self.lines {
            if line.number == number {
                return Some(&line.times);
            }
        }
        None
    }

    /// Writes the rows of these entries to the file of times of the part that has the last one. If a part has begun between them, the
    /// file of the part before it gets the same rows, so each file has what its entries need.
    fn write(&self, current: &mut Option<TimesFile>, noted: &Noted) {
        if let Some(before) = current {
            self.append(before, noted);
            if before.name == noted.last.name {
                return;
            }
        }
        // The file is closed before the next one is created: a line has one descriptor for both.
        *current = None;
        let mut file = TimesFile {
            name: noted.last.name,
            file: self.begin(noted.last.name),
        };
        self.append(&mut file, noted);
        *current = Some(file);
    }

    /// Appends the rows of these entries to a file. If that fails, it is logged, and nothing more is written to the file.
    fn append(&self, times: &mut TimesFile, noted: &Noted) {
        let Some(file) = &mut times.file else {
            return;
        };
        if let Err(error) = write_rows(self.alloc, file, noted) {
            self.report(times.name, error);
            times.file = None;
        }
    }

    /// Begins the file of times beside the file of the audit text with this name. If that fails, it is logged, and `None` is
    /// returned. If the part was deleted meanwhile, `None` is returned, and nothing is logged.
    fn begin(&self, name: AuditName) -> Option<File> {
        match self.create(name) {
            Ok(file) => file,
            Err(error) => {
                self.report(name, error);
                None
            }
        }
    }

    /// Creates the file of times beside the file of the audit text with this name, and writes the header. Returns `None` if the
    /// file of the audit text was deleted. The thread that deletes parts deletes the file of times after the part. So if that
    /// thread found no file of times yet, the part is missing here, and the new file is removed. That thread may remove it too.
    fn create(&self, name: AuditName) -> io::Result<Option<File>> {
        let folder = self.folder.as_str();
        let path = text_of_times_path(self.alloc, TimesPath { folder, name })?;
        let audit = text_of_path(self.alloc, name.path_in(folder))?;
        let mut file = self.host.new_file(path.as_str())?;
        if !self.host.has_file(audit.as_str()) {
            remove_if_there(self.host, path.as_str())?;
            return Ok(None);
        }
        let header = format!(in self.alloc; "{}\n", TimesHeader { line: name.line })?;
        file.write_all(header.as_bytes())?;
        Ok(Some(file))
    }

    /// Logs that a file of times cannot be written.
    fn report(&self, name: AuditName, error: Error) {
        let path = TimesPath {
            folder: self.folder.as_str(),
            name,
        };
        self.notes
            .cannot_write_times(self.host, name.line, path, error);
    }
}

/// Writes the rows of the first and the last entry to a file.
fn write_rows(alloc: Global, file: &mut File, noted: &Noted) -> io::Result<()> {
    let rows = noted_rows(alloc, noted)?;
    file.write_all(rows.as_bytes())
}

/// Returns the rows of the first and the last entry, or one row if they are the same. Memory is taken once. Returns an error if
/// memory is refused.
fn noted_rows(alloc: Global, noted: &Noted) -> Result<String, AllocError>
    ensures { IfOk result (λ text. text.bytes.items ≡ noted_rows noted.now) }
{
    let Recorded { row: first, .. } = noted.first;
    let Recorded { row: last, .. } = noted.last;
    let mut text = String::with_capacity(alloc, LONGEST_ROWS)?;
    let written = if first.place == last.place {
        write!(text, "{last}\n")
    } else {
        write!(text, "{first}\n{last}\n")
    };
    match written {
        Ok(()) => Ok(text),
        Err(_) => Err(AllocError),
    }
}
