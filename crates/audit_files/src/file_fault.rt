//! Why an audit text cannot be begun.

ghost use Rattle.std.specs.Prelude.{Some};
ghost use Rattle.audit_files.specs.FileFaults.{file_fault_text};

use crate::audit_path::AuditPath;
use std::error::Error;
use std::fmt;
use system_errors::Cause;

/// Why an audit text cannot be begun (own).
#[derive(Clone, Copy, Debug)]
pub enum FileFault<'a> {
    /// Memory was refused, or the line has no pass left.
    OutOfMemory,
    /// The folder or a file in it cannot be made, or the file does not take the whole header.
    CannotMake(AuditPath<'a>, Cause),
}

impl<'a> fmt::Display for FileFault<'a> {
    ghost output = { λ fault. Some (file_fault_text fault) };

    fn fmt<W: fmt::Write>(&self, f: &mut fmt::Formatter<W>) -> fmt::Result {
        match self {
            FileFault::OutOfMemory => f.write_str("out of memory"),
            FileFault::CannotMake(path, _) => write!(f, "cannot make {path}"),
        }
    }
}

impl<'a> Error for FileFault<'a> {}
