//! The reasons why a row of an audit text is not captured.

ghost use Rattle.std.specs.Prelude.{◌≡◌};
ghost use Rattle.capture_texts.specs.Captures.{run_fault_of_cut};

use dp_audit::AuditFault;
use rack_script::RunFault;

/// A reason why a row of an audit text is not captured.
#[derive(Clone, Copy, Debug)]
pub(crate) enum RowFault {
    /// The row is wrong: its fault, with its number in the text.
    Wrong(AuditFault),
    /// The row is right, but its packets are not written, or not whole.
    Cut(Cut),
}

/// A reason why the packets of a right row are not written whole.
#[derive(Clone, Copy, Debug)]
pub(crate) enum Cut {
    /// Memory ran out.
    OutOfMemory,
    /// A write failed, or took no bytes.
    WriteFault,
}

impl Cut {
    /// Returns the fault of a run that was cut so.
    pub(crate) fn run_fault(self) -> RunFault
        ensures { result ≡ run_fault_of_cut self }
    {
        match self {
            Cut::OutOfMemory => RunFault::OutOfMemory,
            Cut::WriteFault => RunFault::WriteFault,
        }
    }
}
