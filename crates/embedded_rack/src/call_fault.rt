//! The reasons why a call is refused.

ghost use Rattle.std.specs.Prelude.{◌≡◌};
ghost use Rattle.embedded_rack.specs.Codes.{call_fault_code};

use dp_telegram::FrameFault;

/// A reason why a call to a rack is refused. Then no line has changed.
#[derive(Clone, Copy, Debug, PartialEq, Eq)]
pub enum CallFault {
    /// The rack has no line of this number.
    NoLine,
    /// The line has no master of this address, so no stream.
    NoMaster,
    /// The octets are not one whole frame, for this reason.
    NoFrame(FrameFault),
    /// The octets are no line of an operator.
    NoCommand,
    /// The journal has no entry at this place, or it is forgotten.
    NoEntry,
}

impl CallFault {
    /// Returns the number of the fault, 6 to 10 (own). The numbers 1 to 5 are those of rack files.
    pub const fn code(self) -> u8
        ensures { result ≡ call_fault_code self }
    {
        match self {
            CallFault::NoLine => 6,
            CallFault::NoMaster => 7,
            CallFault::NoFrame(_) => 8,
            CallFault::NoCommand => 9,
            CallFault::NoEntry => 10,
        }
    }
}
