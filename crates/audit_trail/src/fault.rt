//! The reasons why a trail is not opened, or is broken.

ghost use Rattle.std.specs.Prelude.{◌≡◌};
ghost use Rattle.audit_trail.specs.Codes.{trail_fault_code};

use thiserror::Error;

/// The reason why a trail is not opened (own).
#[derive(Clone, Copy, Debug, PartialEq, Eq, Error)]
pub enum TrailFault {
    /// The line gives no pass: nothing was written.
    #[error("no pass")]
    NoPass,
    /// The header could not be written; a prefix of it may have been written.
    #[error("no header")]
    WriteFault,
}

impl TrailFault {
    /// Returns the number of the fault, 1 or 2 (own).
    pub const fn code(self) -> u8
        ensures { result ≡ trail_fault_code self }
    {
        match self {
            TrailFault::NoPass => 1,
            TrailFault::WriteFault => 2,
        }
    }
}

/// The reason why a trail is broken and writes nothing more (own).
/// The user has to know which it is: a full disk, or too few stored entries.
#[derive(Clone, Copy, Debug, PartialEq, Eq, Error)]
pub enum TrailBreak {
    /// The text line of an entry, or the head of a part, could not be written whole; a prefix of it may have been written.
    #[error("row not written")]
    WriteFault,
    /// The entry of the next place was forgotten before its text line was written.
    #[error("entry forgotten")]
    Overtaken,
}
