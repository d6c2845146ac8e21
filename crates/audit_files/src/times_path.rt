//! The paths of files of times.

ghost use Rattle.std.specs.Prelude.{◌≡◌, IfOk, Some};
ghost use Rattle.audit_files.specs.TimesPaths.{times_path_text};

use crate::audit_name::AuditName;
use crate::audit_path::leading_zeros;
use crate::audit_writer::LONGEST_NAME;
use std::alloc::{AllocError, Global};
use std::fmt;

/// The path of the file of times beside a file of an audit text: `FOLDER/line-N-K.times`, or `FOLDER/line-N-K.000001.times` for a
/// part. Its `Display` allocates no memory.
#[derive(Clone, Copy, Debug)]
pub struct TimesPath<'a> {
    /// The folder.
    pub folder: &'a str,
    /// The name of the file of the audit text.
    pub name: AuditName,
}

impl<'a> fmt::Display for TimesPath<'a> {
    ghost output = { λ path. Some (times_path_text path) };

    fn fmt<W: fmt::Write>(&self, f: &mut fmt::Formatter<W>) -> fmt::Result {
        let (folder, line, number) = (self.folder, self.name.line, self.name.number);
        match self.name.part {
            None => write!(f, "{folder}/line-{line}-{number}.times"),
            Some(part) => {
                let zeros = leading_zeros(part);
                write!(f, "{folder}/line-{line}-{number}.{zeros}{part}.times")
            }
        }
    }
}

/// Returns the text of a path. Memory is taken once. Returns an error if memory is refused.
pub(crate) fn text_of_times_path(alloc: Global, path: TimesPath<'_>) -> Result<String, AllocError>
    ensures { IfOk result (λ text. text.bytes.items ≡ times_path_text path.entry) }
{
    let longest = path.folder.len().saturating_add(LONGEST_NAME);
    let mut text = String::with_capacity(alloc, longest)?;
    match write!(text, "{path}") {
        Ok(()) => Ok(text),
        Err(_) => Err(AllocError),
    }
}
