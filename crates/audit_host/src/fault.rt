//! Why the work on an audit text ends early.

use audit_files::AuditName;
use rack_script::RunFault;
use system_errors::Cause;

/// Why the work on an audit text ends early, or cannot begin.
#[derive(Clone, Copy)]
pub enum TextFault<'a> {
    /// The file at this path cannot be read or is not UTF-8.
    CannotRead(&'a str, Cause),
    /// The part of this name, in this folder, cannot be read or is not UTF-8. The folder ends in a slash; it is empty for the
    /// folder in which the program runs.
    CannotReadPart(&'a str, AuditName, Cause),
    /// The file at this path is one of another audit text than the file with this name, which is given before it.
    OtherText(&'a str, AuditName),
    /// The line of the text has no slave at this address, whose entries are asked for.
    NoSlave(u8),
    /// The line of the text has no master at this address, whose requests are asked for.
    NoMaster(u8),
    /// The run ended early.
    Run(RunFault),
}

impl<'a> From<RunFault> for TextFault<'a> {
    fn from(fault: RunFault) -> TextFault<'a> {
        TextFault::Run(fault)
    }
}
