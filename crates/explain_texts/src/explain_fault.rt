//! The reasons why an explanation ends early.

ghost use Rattle.std.specs.Prelude.{◌≡◌};
ghost use Rattle.explain_texts.specs.Names.{explain_fault_name};

use thiserror::Error;

/// A reason why an explanation ends early. What was written before stays written.
#[derive(Clone, Copy, Debug, Error)]
#[error("{}", self.name())]
pub enum ExplainFault {
    /// Memory ran out.
    OutOfMemory,
    /// A write failed, or took no bytes.
    WriteFault,
}

impl ExplainFault {
    /// Returns its text.
    pub const fn name(self) -> &'static str
        ensures { result.now ≡ explain_fault_name self }
    {
        match self {
            ExplainFault::OutOfMemory => "out of memory",
            ExplainFault::WriteFault => "cannot write",
        }
    }
}
