//! Writing an audit text to its files.

ghost use Rattle.std.specs.Prelude.{◌≡◌, ◌++◌, None, Some, IfOk, IfSome, MatchOption, option_map};
ghost use Rattle.entry_times.specs.TimeRows.{IsNumber};
ghost use Rattle.system_errors.specs.SystemErrors.{cause_of_error};
ghost use Rattle.audit_files.specs.AuditPaths.{audit_path_text};
ghost use Rattle.audit_files.specs.Parts.{HasBegun, IsEmptyText, after, bytes_of, counted, first_part, is_due, is_due_in, is_full};

use crate::audit_name::AuditName;
use crate::audit_path::AuditPath;
use crate::due_parts::DueParts;
use crate::file_host::NewFiles;
use crate::line_times::{LineTimes, Recorded};
use crate::old_parts::OldParts;
use crate::part_file::PartFile;
use crate::written_bytes::WrittenBytes;
use audit_trail::{BegunPart, WriteParts};
use entry_times::TimeRow;
use log::Log;
use serve_log::Notes;
use serve_options::PartOptions;
use std::alloc::{AllocError, Global};
use std::fs::File;
use std::io::{Error, ErrorKind, Result, Write};
use std::sync::Wait;
use std::time::Clock;
use system_errors::Cause;

/// The most characters of a name in a folder, with the `/` before it: `/line-255-4294967295.4294967295.audit`.
pub(crate) const LONGEST_NAME: usize = 37;

/// The error with which the file of a part could not be created.
#[derive(Clone, Copy, Debug)]
pub struct CreateFault {
    /// The kind of the error.
    pub kind: ErrorKind,
    /// The error number of the system, if there is one.
    pub number: Option<i32>,
}

impl CreateFault {
    /// Returns the fault of an error.
    fn of_error(error: &Error) -> CreateFault {
        CreateFault {
            kind: error.kind(),
            number: error.raw_os_error(),
        }
    }

    /// Returns the cause that is reported.
    pub(crate) fn cause(self) -> Cause
        ensures { result ≡ cause_of_error self.kind self.number }
    {
        Cause::of_kind(self.kind, self.number)
    }
}

/// The part of an audit text that is being written.
#[derive(Clone, Copy)]
struct Part {
    /// The number of the part, from 1.
    number: u32,
    /// The minimum size in bytes of every part except the last.
    minimum: u64,
    /// How many bytes were written to the part.
    written: u64,
    /// Whether the last byte that was written ends a row.
    ends_row: bool,
}

impl Part {
    /// Returns the first part, to which nothing was written.
    fn first(parts: PartOptions) -> Part
        ensures { result ≡ first_part parts }
    {
        Part {
            number: 1,
            minimum: u64::from(parts.megabytes) * 1_000_000,
            written: 0,
            ends_row: false,
        }
    }

    /// Returns whether the part ends with a whole row and has its minimum size.
    fn is_full(&self) -> bool
        ensures { result ≡ is_full self.now }
    {
        self.ends_row && self.written >= self.minimum
    }

    /// Returns whether the next part is to begin. No part follows that of the highest number.
    fn is_due(&self) -> bool
        ensures { result ≡ is_due self.now }
    {
        self.is_full() && self.number < u32::MAX
    }

    /// Returns the next part, to which nothing was written, or `None` if this one has the highest number.
    fn next(&self) -> Option<Part>
        ensures { result ≡ after self.now }
    {
        let number = self.number.checked_add(1)?;
        Some(Part {
            number,
            minimum: self.minimum,
            written: 0,
            ends_row: false,
        })
    }

    /// Counts bytes that were written to the part.
    fn count(&mut self, written: &[u8])
        ensures { self.new ≡ counted self.old written.now }
    {
        self.written = self.written.saturating_add(written.len() as u64);
        if let Some(last) = written.last() {
            self.ends_row = *last == b'\n';
        }
    }
}

/// Writes an audit text to a file, or to one file per part.
///
/// A part is full after the first row with which it reaches its minimum size. Then the trail begins the next part, whose file is
/// created with it. Once that part has its head, a further part is due to be deleted, if parts are deleted.
///
/// Only files of this text are deleted. No file of the folder had the number of the text when it was begun, so this run of the
/// program created each of them.
#[derive(Drop)]
pub struct AuditWriter<'a, 's, H> {
    host: &'s H,
    notes: &'s Notes<'s, H>,
    alloc: Global,
    folder: &'a str,
    /// The name of the text as if it had one file.
    name: AuditName,
    part: Option<Part>,
    /// The file that is being written, or `None` if it could not be created.
    file: Option<PartFile<File>>,
    /// The bytes that the files of earlier parts accepted.
    earlier: WrittenBytes,
    /// The error with which the file of the part could not be created.
    refused: Option<CreateFault>,
    /// The old parts, or `None` if no part is deleted.
    old_parts: Option<&'s OldParts<'s, H>>,
    /// The parts of the text that are due to be deleted.
    due: DueParts,
    /// The times of the line, or `None` if they are not written.
    times: Option<&'s LineTimes>,
}

impl<'a, 's, H: NewFiles + Wait + Log + Clock> AuditWriter<'a, 's, H> {
    /// Returns a writer to this file of the folder. `name` is the name of the text as if it had one file. `parts` is `None` if the
    /// text has one file. Otherwise the file is that of the first part.
    pub(crate) fn new(
        host: &'s H,
        notes: &'s Notes<'s, H>,
        alloc: Global,
        old_parts: Option<&'s OldParts<'s, H>>,
        times: Option<&'s LineTimes>,
        folder: &'a str,
        name: AuditName,
        parts: Option<PartOptions>,
        file: File,
    ) -> AuditWriter<'a, 's, H>
        ensures name { result.name ≡ name }
        ensures part { result.part ≡ option_map first_part parts }
        ensures empty { IsEmptyText result.earlier.bytes (option_map (λ file. file.written.bytes) result.file) }
        ensures refused { result.refused ≡ None }
    {
        AuditWriter {
            host,
            notes,
            alloc,
            folder,
            name,
            part: parts.map(|parts| Part::first(parts)),
            file: Some(PartFile::new(file)),
            earlier: WrittenBytes::new(),
            refused: None,
            old_parts,
            due: DueParts::new(),
            times,
        }
    }

    /// Returns the number of the part that is being written or could not be created, or `None` if the text has one file.
    pub(crate) fn part(&self) -> Option<u32>
        ensures { result ≡ option_map (λ part. part.number) self.now.part }
    {
        self.part.map(|part| part.number)
    }

    /// Returns the error with which the file of the part could not be created, or `None` if it could, or memory was refused.
    pub(crate) fn refused(&self) -> Option<CreateFault>
        ensures { result ≡ self.now.refused }
    {
        self.refused
    }

    /// Deletes the parts that are due to be deleted, once serving has ended and nothing more is written.
    pub(crate) fn delete_due(self) {
        if let Some(old_parts) = self.old_parts {
            old_parts.delete_due(self.name, self.due);
        }
    }

    /// Returns the name of the file that is being written or could not be created.
    fn name(&self) -> AuditName
        ensures { result ≡ record self.now.name { part = option_map (λ part. part.number) self.now.part } }
    {
        AuditName {
            line: self.name.line,
            number: self.name.number,
            part: self.part(),
        }
    }

    /// Closes the file that is being written. Its bytes are then those of an earlier file.
    fn close_file(&mut self)
        ensures bytes { self.new.earlier.bytes ≡ self.old.earlier.bytes ++ bytes_of (option_map (λ file. file.written.bytes) self.old.file) }
        ensures file { self.new.file ≡ None }
        ensures name { self.new.name ≡ self.old.name }
        ensures part { self.new.part ≡ self.old.part }
        ensures refused { self.new.refused ≡ self.old.refused }
    {
        if let Some(file) = &self.file {
            self.earlier = self.earlier.followed_by(file.written());
        }
        self.file = None;
    }
}

impl<H: NewFiles + Wait + Log + Clock> Write for AuditWriter<'_, '_, H> {
    /// The bytes that the files of the text accepted, in the order of its parts.
    ghost contents = { λ writer. Some (writer.earlier.bytes ++ bytes_of (option_map (λ file. file.written.bytes) writer.file)) };

    fn write(&mut self, buf: &[u8]) -> Result<usize> {
        let Some(file) = &mut self.file else {
            return Err(Error::from(ErrorKind::Other));
        };
        let count = file.write(buf)?;
        if let Some(part) = &mut self.part {
            part.count(&buf[..count]);
        }
        Ok(count)
    }

    fn flush(&mut self) -> Result<()> {
        match &mut self.file {
            Some(file) => file.flush(),
            None => Err(Error::from(ErrorKind::Other)),
        }
    }
}

impl<H: NewFiles + Wait + Log + Clock> WriteParts for AuditWriter<'_, '_, H> {
    ghost due = { λ writer. is_due_in writer.part };

    ghost begins = { λ old new. MatchOption old.part (new ≡ old) (λ part. HasBegun part new.part (option_map (λ file. file.written.bytes) new.file)) };

    fn part_is_due(&self) -> bool {
        match &self.part {
            Some(part) => part.is_due(),
            None => false,
        }
    }

    /// Creates the file of the next part. The current file is closed first. Does nothing if the text has one file.
    fn begin_part(&mut self) -> Result<()> {
        let Some(part) = &mut self.part else {
            return Ok(());
        };
        let Some(next) = part.next() else {
            return Err(Error::from(ErrorKind::Other));
        };
        *part = next;
        self.close_file();
        let path = self.name().path_in(self.folder);
        match create_file(self.host, self.alloc, path) {
            Ok(file) => {
                self.file = Some(PartFile::new(file));
                self.notes.goes_on(self.host, self.name.line, path);
                Ok(())
            }
            Err(error) => {
                self.refused = refusal_of(&error);
                Err(error)
            }
        }
    }

    /// Notes the time of the entry, if the times of the line are written.
    fn end_row(&mut self, place: u32) {
        let (Some(times), Some(milliseconds)) = (self.times, milliseconds_now(self.host)) else {
            return;
        };
        let recorded = Recorded {
            name: self.name(),
            row: TimeRow {
                place,
                milliseconds,
            },
        };
        times.note(self.host, recorded);
    }

    /// Puts the parts that are due to be deleted now among the old parts, as far as they accept them.
    fn end_head(&mut self, _part: BegunPart) {
        if let (Some(old_parts), Some(newest)) = (self.old_parts, self.part()) {
            old_parts.put_due(self.name, newest, &mut self.due);
        }
    }
}

/// Returns the milliseconds since 1970, from 1, or `None` if the clock cannot be read or is before that.
fn milliseconds_now(clock: &impl Clock) -> Option<u64>
    ensures { IfSome result (IsNumber 64) }
{
    let since = clock.since_1970().ok()?;
    let milliseconds = u64::try_from(since.as_millis()).ok()?;
    if milliseconds > 0 {
        Some(milliseconds)
    } else {
        None
    }
}

/// Returns the fault of an error with which a file could not be created, or `None` if memory was refused.
fn refusal_of(error: &Error) -> Option<CreateFault> {
    match error.kind() {
        ErrorKind::OutOfMemory => None,
        _ => Some(CreateFault::of_error(error)),
    }
}

/// Creates a file to append to. Fails with `AlreadyExists` if the path exists.
pub(crate) fn create_file(
    files: &impl NewFiles,
    alloc: Global,
    path: AuditPath<'_>,
) -> Result<File> {
    match text_of_path(alloc, path) {
        Ok(path) => files.new_file(path.as_str()),
        Err(_) => Err(Error::from(ErrorKind::OutOfMemory)),
    }
}

/// Returns the text of a path. Memory is taken once: a text that grows would leave a piece of each part in the memory of the
/// thread. Returns an error if memory is refused.
pub(crate) fn text_of_path(
    alloc: Global,
    path: AuditPath<'_>,
) -> std::result::Result<String, AllocError>
    ensures { IfOk result (λ text. text.bytes.items ≡ audit_path_text path.entry) }
{
    let longest = path.folder().len().saturating_add(LONGEST_NAME);
    let mut text = String::with_capacity(alloc, longest)?;
    match write!(text, "{path}") {
        Ok(()) => Ok(text),
        Err(_) => Err(AllocError),
    }
}
