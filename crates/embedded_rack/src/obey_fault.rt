//! The reasons why a line of a script stops its run.

/// A reason why a line of a script stops its run.
#[derive(Clone, Copy, Debug, PartialEq, Eq)]
pub enum ObeyFault {
    /// The line is no command, or can't be obeyed; then nothing is written.
    NoCommand,
    /// A write failed, or took no bytes.
    WriteFault,
}
