//! The reasons why a row of a text is not read.

ghost use Rattle.std.specs.Prelude.{◌≡◌};
ghost use Rattle.std.specs.IoError.{error_kind};
ghost use Rattle.explain_texts.specs.ReadFaults.{fault_of_kind};

use std::io::{self, ErrorKind};

/// A reason why a row of a text is not read, or not accepted as text.
#[derive(Clone, Copy, Debug)]
pub enum ReadFault {
    /// Memory ran out.
    OutOfMemory,
    /// A read failed. The reader knows the cause.
    CannotRead,
    /// The row is wrong and is not UTF-8.
    NotText,
}

impl ReadFault {
    /// Returns the fault of a read that failed with this error: `OutOfMemory` or `CannotRead`.
    pub(crate) fn from_error(error: &io::Error) -> ReadFault
        ensures { result ≡ fault_of_kind (error_kind error.now) }
    {
        match error.kind() {
            ErrorKind::OutOfMemory => ReadFault::OutOfMemory,
            _ => ReadFault::CannotRead,
        }
    }
}
