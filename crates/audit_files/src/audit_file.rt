//! Audit texts in files: how one is begun, and how it is completed.
//!
//! The number K of a text is one above the highest number of a text of the line in the folder, of any part. Two programs that
//! begin a text at the same moment may find the same number. So the first file is created with `create_new`, and then the folder
//! is listed again: if another file of that number is there, the own file is removed and the next number is tried. Of two
//! programs at least one sees the file of the other, since each lists the folder after its own file is there.

ghost use Rattle.std.specs.Prelude.{◌≡◌, [], ◌∷◌, IfErr, IfOk, IfSome, ℕ, Option, Some, option_map};
ghost use Rattle.audit_files.specs.AuditPaths.{IsOfLine, in_part};
ghost use Rattle.audit_files.specs.FileFaults.{IsFaultAt, IsNotBegun, IsRecordingFault, cause_of_break};
ghost use Rattle.audit_files.specs.Parts.{IsEmptyText};

use crate::audit_name::AuditName;
use crate::audit_path::AuditPath;
use crate::audit_writer::{AuditWriter, CreateFault, create_file, text_of_path};
use crate::file_fault::FileFault;
use crate::file_host::FileHost;
use crate::old_parts::OldParts;
use crate::text_number::{is_alone, names_in, number_above};
use crate::times_writer::TimesWriter;
use audit_trail::{Naming, Tail, Trail, TrailBreak, TrailFault};
use dp_shared::Line;
use serve_log::Notes;
use serve_options::PartOptions;
use std::alloc::Global;
use std::fs::{self, File, Files};
use std::io::{self, ErrorKind};
use system_errors::Cause;

/// The audit text of a line in files, with the trail that writes it.
///
/// It is generic in the trail, since the check derives from the type parameter that threads may share it. Until the trails of
/// all lines are open and have names, `trail` is the tail of one.
#[derive(Drop)]
pub struct AuditFile<'a, T> {
    /// The path of the text as if it had one file.
    pub path: AuditPath<'a>,
    /// The trail that writes the text, or its tail.
    pub trail: T,
}

/// An audit file that lacks an entry, and the reason.
#[derive(Clone, Copy, Debug)]
pub struct IncompleteFile<'a> {
    /// The path of the file.
    pub path: AuditPath<'a>,
    /// Why the entry was not written whole.
    pub reason: TrailBreak,
    /// The error with which the file could not be created, if that is the reason.
    pub refused: Option<CreateFault>,
}

impl IncompleteFile<'_> {
    /// Returns the cause that is reported. Only an endless line forgets entries and has a text in several files.
    pub fn cause(self, are_endless: bool) -> Cause
        ensures { result ≡ cause_of_break are_endless self.entry.refused self.entry.reason }
    {
        if !are_endless {
            return Cause::NotTaken;
        }
        match self.reason {
            TrailBreak::Overtaken => Cause::Forgotten,
            TrailBreak::WriteFault => match self.refused {
                Some(fault) => fault.cause(),
                None => Cause::NotTaken,
            },
        }
    }
}

/// The tail of a trail that writes to audit files.
pub type FileTail<'a, 's, H> = Tail<'s, AuditWriter<'a, 's, H>>;

/// A trail that writes to audit files, and that `J` names.
pub type FileTrail<'a, 's, H, J> = Trail<'s, AuditWriter<'a, 's, H>, J>;

/// Makes the folder of audit texts and its parents, unless they exist.
///
/// Returns `CannotMake` with the path of the folder.
pub fn make_folder<'a>(files: &impl Files, folder: &'a str) -> Result<(), FileFault<'a>>
    ensures { IfErr result (IsRecordingFault (Some folder.entry) []) }
{
    match fs::create_dir_all(files, folder) {
        Ok(()) => Ok(()),
        Err(error) => Err(FileFault::CannotMake(
            AuditPath::Folder(folder),
            Cause::from_error(&error),
        )),
    }
}

/// Begins the audit text of a line in a new file of the folder, and writes its header. The number of the text is above that of
/// each text of the line in the folder. No existing file is changed. The header is the first that is written to the file.
///
/// `number` is the number of the line. `parts` is `None` if the text has one file, `old_parts` is `None` if no part is deleted, and
/// `times` is `None` if the times of entries are not written.
///
/// Returns `CannotMake` with the path of the folder if it cannot be listed, or with the path of the file that cannot be created
/// or does not take the header; `CannotMake` with `NoNumber` if a text of the line has the highest number; or `OutOfMemory`.
pub fn begin_text<'a, 's, H: FileHost>(
    host: &'s H,
    notes: &'s Notes<'s, H>,
    alloc: Global,
    old_parts: Option<&'s OldParts<'s, H>>,
    times: Option<&'s TimesWriter<'s, H>>,
    folder: &'a str,
    parts: Option<PartOptions>,
    line: &'s Line,
    number: u8,
) -> Result<AuditFile<'a, FileTail<'a, 's, H>>, FileFault<'a>>
    ensures path { IfOk result (λ file. IsOfLine folder.now number file.path) }
    ensures empty { IfOk result (λ file. IsEmptyText file.trail.opened.value.earlier.bytes (option_map (λ file. file.written.bytes) file.trail.opened.value.file)) }
    ensures fault { IfErr result (IsRecordingFault (Some folder.entry) (number ∷ [])) }
{
    let times = match times {
        Some(times) => times.of_line(number),
        None => None,
    };
    let lowest = match lowest_number(host, alloc, folder, number) {
        Ok(lowest) => lowest,
        Err(fault) => return Err(fault),
    };
    for of_text in lowest..=u32::MAX {
        let name = AuditName {
            line: number,
            number: of_text,
            part: None,
        };
        let first = AuditName {
            line: number,
            number: of_text,
            part: parts.map(|_| 1),
        };
        match create_alone(host, alloc, folder, first) {
            Ok(None) => {}
            Ok(Some(file)) => {
                let writer = AuditWriter::new(
                    host, notes, alloc, old_parts, times, folder, name, parts, file,
                );
                let (text, path) = (name.path_in(folder), first.path_in(folder));
                return begin_trail(host, alloc, line, writer, text, path);
            }
            Err(fault) => return Err(fault),
        }
    }
    Err(no_number(folder, number))
}

/// Returns the lowest number that a new text of this line may have.
///
/// Returns `CannotMake` with the path of the folder if it cannot be listed, or with `NoNumber`, or `OutOfMemory`.
fn lowest_number<'a, H: FileHost>(
    host: &H,
    alloc: Global,
    folder: &'a str,
    line: u8,
) -> Result<u32, FileFault<'a>>
    ensures { IfErr result (IsRecordingFault (Some folder.entry) (line ∷ [])) }
{
    match names_in(host, alloc, folder) {
        Ok(names) => match number_above(names.as_slice(), line) {
            Some(lowest) => Ok(lowest),
            None => Err(no_number(folder, line)),
        },
        Err(error) => Err(fault_at(AuditPath::Folder(folder), &error)),
    }
}

/// Creates the file of this name in a folder, the first one of a text, and returns it. Returns `None` if another file has the
/// name or is of a text with the same number. Then the folder has no file of the new text.
///
/// Returns `CannotMake` with the path of the file if it cannot be created or removed, or with that of the folder if it cannot be
/// listed, or `OutOfMemory`.
fn create_alone<'a, H: FileHost>(
    host: &H,
    alloc: Global,
    folder: &'a str,
    first: AuditName,
) -> Result<Option<File>, FileFault<'a>>
    ensures { IfErr result (IsRecordingFault (Some folder.entry) (first.line ∷ [])) }
{
    let path = first.path_in(folder);
    let file = match create_file(host, alloc, path) {
        Ok(file) => file,
        Err(error) => match error.kind() {
            ErrorKind::AlreadyExists => return Ok(None),
            _ => return Err(fault_at(path, &error)),
        },
    };
    let is_alone = match names_in(host, alloc, folder) {
        Ok(names) => is_alone(names.as_slice(), first),
        Err(error) => {
            let _ = remove_file(host, alloc, path);
            return Err(fault_at(AuditPath::Folder(folder), &error));
        }
    };
    if is_alone {
        return Ok(Some(file));
    }
    match remove_file(host, alloc, path) {
        Ok(()) => Ok(None),
        Err(error) => Err(fault_at(path, &error)),
    }
}

/// Removes the file at a path.
///
/// Returns the error of the system, or `OutOfMemory` if memory is refused.
fn remove_file<H: FileHost>(host: &H, alloc: Global, path: AuditPath<'_>) -> io::Result<()> {
    match text_of_path(alloc, path) {
        Ok(path) => fs::remove_file(host, path.as_str()),
        Err(_) => Err(io::Error::from(ErrorKind::OutOfMemory)),
    }
}

/// Returns the fault of an error at this path.
fn fault_at<'a>(path: AuditPath<'a>, error: &io::Error) -> FileFault<'a>
    ensures { IsFaultAt path.entry result }
{
    match error.kind() {
        ErrorKind::OutOfMemory => FileFault::OutOfMemory,
        _ => FileFault::CannotMake(path, Cause::from_error(error)),
    }
}

/// Returns the fault of a folder in which a text of this line has the highest number.
fn no_number(folder: &str, line: u8) -> FileFault<'_>
    ensures { IsRecordingFault (Some folder.entry) (line ∷ []) result }
{
    let path = AuditPath::File {
        folder,
        line,
        number: u32::MAX,
        part: None,
    };
    FileFault::CannotMake(path, Cause::NoNumber)
}

/// Opens the trail of a line, which writes the header. `text` is the path of the text as if it had one file, and `path` is the
/// path of its first file.
fn begin_trail<'a, 's, H: FileHost>(
    host: &'s H,
    alloc: Global,
    line: &'s Line,
    writer: AuditWriter<'a, 's, H>,
    text: AuditPath<'a>,
    path: AuditPath<'a>,
) -> Result<AuditFile<'a, FileTail<'a, 's, H>>, FileFault<'a>>
    ensures path { IfOk result (λ file. file.path ≡ text.entry) }
    ensures opened { IfOk result (λ file. file.trail.opened.value ≡ writer.entry) }
    ensures fault { IfErr result (IsNotBegun path.entry) }
{
    match Tail::open(host, alloc, line, writer) {
        Ok(tail) => Ok(AuditFile {
            path: text,
            trail: tail,
        }),
        Err(TrailFault::NoPass) => Err(FileFault::OutOfMemory),
        Err(TrailFault::WriteFault) => Err(FileFault::CannotMake(path, Cause::NotTaken)),
    }
}

/// Writes the entries that a text still lacks, returns its pass to the line, and deletes the old parts that are left. The thread
/// that deletes has ended before, so all old parts are deleted in ascending order.
///
/// Returns the file that lacks an entry, if one was not written.
pub fn complete_text<'a, H: FileHost, J: Naming>(
    host: &H,
    file: AuditFile<'a, FileTrail<'a, '_, H, J>>,
) -> Option<IncompleteFile<'a>>
    ensures { IfSome result (λ incomplete. (part : Option ℕ) × (incomplete.path ≡ in_part file.entry.path part)) }
{
    let AuditFile { path, trail } = file;
    let mut tail = trail.into_tail();
    let written_up_to = tail.catch_up(host);
    let (writer, _) = tail.close(host);
    let (part, refused) = (writer.part(), writer.refused());
    writer.delete_due();
    match written_up_to {
        Ok(_) => None,
        Err(reason) => Some(IncompleteFile {
            path: path.in_part(part),
            reason,
            refused,
        }),
    }
}
