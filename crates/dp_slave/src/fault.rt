//! Why inputs are refused.

ghost use Rattle.std.specs.Prelude.{◌≡◌};
ghost use Rattle.dp_slave.specs.Codes.{input_fault_code};
ghost use Rattle.dp_slave.specs.Names.{input_fault_name};

use thiserror::Error;

/// The reason why inputs are refused.
#[derive(Clone, Copy, Debug, PartialEq, Eq, Error)]
#[error("{}", self.name())]
pub enum InputFault {
    /// There are more or fewer octets than the slave has inputs (own).
    WrongLength,
}

impl InputFault {
    /// Returns the number of the fault (own).
    pub const fn code(self) -> u8
        ensures { result ≡ input_fault_code self }
    {
        match self {
            InputFault::WrongLength => 1,
        }
    }

    /// Returns its name in texts (own).
    pub const fn name(self) -> &'static str
        ensures { result.now ≡ input_fault_name self }
    {
        match self {
            InputFault::WrongLength => "WrongLength",
        }
    }
}
