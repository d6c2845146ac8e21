//! What the octets of an operator's line ask for.

ghost use Rattle.std.specs.Prelude.{◌≡◌};
ghost use Rattle.dp_text.specs.OperatorLines.{command_in, line_fault_name};

use crate::op_line::{OpLine, read_op};

/// The most octets of a line that may be a command, without its LF (own).
pub const LONGEST_LINE: usize = 1_024;

/// Why an operator's line isn't carried out (own). The first fault that applies is reported.
#[derive(Clone, Copy, Debug, PartialEq, Eq)]
pub enum LineFault {
    /// It has more than 1,024 octets.
    TooLong,
    /// It is no command, or not UTF-8.
    NotACommand,
}

impl LineFault {
    /// Returns its name in texts (own).
    pub const fn name(self) -> &'static str
        ensures { result.now ≡ line_fault_name self }
    {
        match self {
            LineFault::TooLong => "TooLong",
            LineFault::NotACommand => "NotACommand",
        }
    }
}

/// Returns what an operator's line, without its LF, asks for (own). See [`read_op`] for the commands.
///
/// `TooLong` if it has more than 1,024 octets; else `NotACommand` if it is not UTF-8 or no command.
pub fn read_line(octets: &[u8]) -> Result<OpLine, LineFault>
    ensures { result ≡ command_in octets.now }
{
    if octets.len() > LONGEST_LINE {
        return Err(LineFault::TooLong);
    }
    let Ok(line) = std::str::from_utf8(octets) else {
        return Err(LineFault::NotACommand);
    };
    match read_op(line) {
        Ok(op_line) => Ok(op_line),
        Err(_) => Err(LineFault::NotACommand),
    }
}
