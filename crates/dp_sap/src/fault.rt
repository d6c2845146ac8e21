//! Faults of busy marks.

ghost use Rattle.std.specs.Prelude.{◌≡◌};
ghost use Rattle.dp_sap.specs.Names.{sap_fault_name};
ghost use Rattle.dp_sap.specs.SapFault.{fault_code};

use thiserror::Error;

/// The reason why a busy mark is refused.
#[derive(Clone, Copy, Debug, PartialEq, Eq, Error)]
#[error("{}", self.name())]
pub enum SapFault {
    /// The point is not in the access table (own).
    UnknownPoint,
}

impl SapFault {
    /// Returns the number of the fault (own).
    pub const fn code(self) -> u8
        ensures { result ≡ fault_code self }
    {
        match self {
            SapFault::UnknownPoint => 1,
        }
    }

    /// Returns its name in texts (own).
    pub const fn name(self) -> &'static str
        ensures { result.now ≡ sap_fault_name self }
    {
        match self {
            SapFault::UnknownPoint => "UnknownPoint",
        }
    }
}
