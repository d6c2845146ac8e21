//! Reads files.

use rack_script::RunFault;
use rackd_faults::Fault;
use std::fs;
use std::io::{self, ErrorKind};
use std::rt::Runtime;
use system_errors::Cause;

/// Returns the text of a file.
pub fn read_file<'a>(
    rt: &(impl Runtime + AllocGlobal),
    path: &'a str,
) -> Result<String, Fault<'a>> {
    fs::read_to_string(rt, path).map_err(|error| read_fault(error, path))
}

/// Returns the fault of a file that cannot be read, for this reason.
pub(crate) fn read_fault(error: io::Error, path: &str) -> Fault<'_> {
    match error.kind() {
        ErrorKind::OutOfMemory => Fault::Run(RunFault::OutOfMemory),
        _ => Fault::CannotRead(path, Cause::from_error(&error)),
    }
}
