//! The reasons why a rack file isn't accepted.

ghost use Rattle.std.specs.Prelude.{◌≡◌, Some};
ghost use Rattle.rack_file.specs.FaultText.{rack_fault_text};
ghost use Rattle.rack_file.specs.Codes.{rack_fault_code};
ghost use Rattle.rack_file.specs.Names.{rack_fault_name};

use dp_line::OpenFault;
use std::fmt;
use thiserror::Error;

/// A reason why a rack file isn't accepted. The first one that applies is reported, in the order `NotToml`, `BadKey`,
/// `TwiceLine`, and `Open` of the first line of the file that is refused. `OutOfMemory` may be reported at any point.
#[derive(Clone, Copy, Debug, PartialEq, Eq, Error)]
pub enum RackFault {
    /// Memory ran out.
    #[error("{}", self.name())]
    OutOfMemory,
    /// The text isn't TOML.
    #[error("{}", self.name())]
    NotToml,
    /// A key is unknown or missing, or its value is of a wrong type or outside its range.
    #[error("{}", self.name())]
    BadKey,
    /// Two lines have the same number.
    #[error("{}", self.name())]
    TwiceLine,
    /// The line at this position of the file, from 1, can't be opened for this reason.
    #[error("line {0} {1}")]
    Open(u8, OpenFault),
}

impl RackFault {
    /// Returns the number of the fault, 1 to 5 (own).
    pub const fn code(self) -> u8
        ensures { result ≡ rack_fault_code self }
    {
        match self {
            RackFault::OutOfMemory => 1,
            RackFault::NotToml => 2,
            RackFault::BadKey => 3,
            RackFault::TwiceLine => 4,
            RackFault::Open(_, _) => 5,
        }
    }

    /// Returns the name of the fault in texts (own).
    pub const fn name(self) -> &'static str
        ensures { result.now ≡ rack_fault_name self }
    {
        match self {
            RackFault::OutOfMemory => "OutOfMemory",
            RackFault::NotToml => "NotToml",
            RackFault::BadKey => "BadKey",
            RackFault::TwiceLine => "TwiceLine",
            RackFault::Open(_, _) => "Open",
        }
    }
}

/// A rack that is not accepted for this reason. Its `Display` is what a program writes of it: `rack NAME`,
/// `rack line K NAME` with the position of the line in the file, or `out of memory` (own).
#[derive(Clone, Copy, Debug)]
pub struct RefusedRack {
    /// The reason.
    pub fault: RackFault,
}

impl fmt::Display for RefusedRack {
    ghost output = { λ refused. Some (rack_fault_text refused.fault) };

    fn fmt<W: fmt::Write>(&self, f: &mut fmt::Formatter<W>) -> fmt::Result {
        match self.fault {
            RackFault::OutOfMemory => f.write_str("out of memory"),
            RackFault::Open(position, fault) => {
                let name = fault.name();
                write!(f, "rack line {position} {name}")
            }
            fault => {
                let name = fault.name();
                write!(f, "rack {name}")
            }
        }
    }
}
