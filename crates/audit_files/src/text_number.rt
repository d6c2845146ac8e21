//! The number of a new audit text: above that of each text of its line in the folder.
//!
//! The first part of a text may have been deleted, so the number of a text is in use as long as any of its files is there.
//! No clause can say what a folder has: the clauses here speak of the names that were read from it.

ghost use Rattle.std.specs.Prelude.{◌≡◌, ◌<◌, false, true};
ghost use Rattle.audit_files.specs.TextNumbers.{IsAloneIn, IsAtLeast, IsBesideAnother, IsNextNumber, IsNumberIn};

use crate::audit_name::AuditName;
use std::alloc::Global;
use std::fs::{self, DirEntry, Files};
use std::io::{self, ErrorKind};

/// Returns the names of the files of audit texts in a folder. Other names are left out, also those that are not UTF-8.
///
/// Returns the error of the first call that failed, `OutOfMemory` if memory is refused.
pub(crate) fn names_in(
    files: &impl Files,
    alloc: Global,
    folder: &str,
) -> io::Result<Vec<AuditName>> {
    let mut names = Vec::new(alloc);
    for entry in fs::read_dir(&(files, alloc), folder)? {
        if let Some(name) = name_of(entry)? {
            names.push(name)?;
        }
    }
    Ok(names)
}

/// Returns the name of an entry of a folder, or `None` if it is not that of a file of an audit text.
fn name_of<R: Files + Drop>(
    entry: io::Result<DirEntry<R, Global>>,
) -> io::Result<Option<AuditName>> {
    match entry {
        Ok(entry) => Ok(AuditName::from_name(entry.file_name())),
        Err(error) => match error.kind() {
            ErrorKind::InvalidFilename => Ok(None),
            _ => Err(error),
        },
    }
}

/// Returns the number of a new text of this line: one above the highest of the line among these names, 1 if there is none.
/// Returns `None` if a text of the line has the highest number.
pub(crate) fn number_above(names: &[AuditName], line: u8) -> Option<u32>
    ensures { IsNextNumber line names.now result }
{
    highest_number(names, line).checked_add(1)
}

/// Returns the highest number of a text of this line among these names, or 0 if there is none.
fn highest_number(names: &[AuditName], line: u8) -> u32
    ensures least { IsAtLeast line names.now result }
    ensures used { 0 < result → IsNumberIn line names.now result }
{
    let mut highest: u32 = 0;
    for name in names {
        if name.line == line && name.number > highest {
            highest = name.number;
        }
    }
    highest
}

/// Returns whether no other of these names is that of a file of the same text.
pub(crate) fn is_alone(names: &[AuditName], own: AuditName) -> bool
    ensures alone { result ≡ true → IsAloneIn names.now own }
    ensures beside { result ≡ false → IsBesideAnother names.now own }
{
    for name in names {
        if name.line == own.line && name.number == own.number && name.part != own.part {
            return false;
        }
    }
    true
}
