//! The reasons why a run ends early.
//!
//! [`RunFault`] writes its text itself, and not by `thiserror`, because the text is a clause (`run_fault_text`), and
//! what the derive writes has none.

ghost use Rattle.std.specs.Prelude.{◌≡◌, Some};
ghost use Rattle.rack_script.specs.Codes.{run_fault_code};
ghost use Rattle.rack_script.specs.FaultTexts.{run_fault_text};
ghost use Rattle.rack_script.specs.ReadFaults.{run_fault_of_read, run_fault_of_rows};

use explain_texts::{ExplainFault, ReadFault, RowsFault};
use rack_file::{RackFault, RefusedRack};
use std::error::Error;
use std::fmt;

/// A reason why a run ends early. What was written before stays written.
#[derive(Clone, Copy, Debug, PartialEq, Eq)]
pub enum RunFault {
    /// Memory ran out.
    OutOfMemory,
    /// The rack isn't accepted.
    Rack(RackFault),
    /// The script's line of this number, from 1, is no command, or can't be obeyed: it chooses a line that isn't in the
    /// rack, or names a master that isn't one of the line's.
    Script(u64),
    /// A write failed, or took no bytes.
    WriteFault,
    /// A read of the audit text failed. The reader knows the cause.
    CannotRead,
    /// The first wrong row of the audit text is not UTF-8.
    NotText,
}

impl RunFault {
    /// Returns the number of the fault, 1 to 6 (own).
    pub const fn code(self) -> u8
        ensures { result ≡ run_fault_code self }
    {
        match self {
            RunFault::OutOfMemory => 1,
            RunFault::Rack(_) => 2,
            RunFault::Script(_) => 3,
            RunFault::WriteFault => 4,
            RunFault::CannotRead => 5,
            RunFault::NotText => 6,
        }
    }

    /// Returns the fault of a run whose read ended so.
    pub const fn of_read(fault: ReadFault) -> RunFault
        ensures { result ≡ run_fault_of_read fault }
    {
        match fault {
            ReadFault::OutOfMemory => RunFault::OutOfMemory,
            ReadFault::CannotRead => RunFault::CannotRead,
            ReadFault::NotText => RunFault::NotText,
        }
    }

    /// Returns the fault of a run whose explanation ended so.
    pub const fn of_rows(fault: RowsFault) -> RunFault
        ensures { result ≡ run_fault_of_rows fault }
    {
        match fault {
            RowsFault::Explain(ExplainFault::OutOfMemory) => RunFault::OutOfMemory,
            RowsFault::Explain(ExplainFault::WriteFault) => RunFault::WriteFault,
            RowsFault::Read(fault) => RunFault::of_read(fault),
        }
    }
}

impl fmt::Display for RunFault {
    ghost output = { λ fault. Some (run_fault_text fault) };

    fn fmt<W: fmt::Write>(&self, f: &mut fmt::Formatter<W>) -> fmt::Result {
        match self {
            RunFault::OutOfMemory => f.write_str("out of memory"),
            RunFault::Rack(fault) => {
                let refused = RefusedRack { fault: *fault };
                write!(f, "{refused}")
            }
            RunFault::Script(line) => write!(f, "script line {line}"),
            RunFault::WriteFault => f.write_str("cannot write"),
            RunFault::CannotRead => f.write_str("cannot read"),
            RunFault::NotText => f.write_str("not UTF-8"),
        }
    }
}

impl Error for RunFault {}
