//! The place in a rack file that is wrong, and the reason.

use rack_file::laws::accepted_racks_have_1_to_8_lines;
use rack_file::{RackFault, cause_in, read_rack};
use rack_file_faults::rack_file_fault_in;
use serve_faults::first_missing;
use std::alloc::{AllocError, Global};

/// Returns the place and the reason for which a rack text is not accepted, to be reported after the fault. If the
/// text can be read, the reason is that a line lacks a port that `serve` needs. Returns an error if memory is
/// refused.
pub(crate) fn rack_cause(
    alloc: Global,
    text: &str,
    fault: RackFault,
) -> Result<Option<String>, AllocError> {
    match fault {
        RackFault::OutOfMemory => Ok(None),
        RackFault::NotToml => cause_in(alloc, text),
        RackFault::BadKey => match cause_in(alloc, text)? {
            Some(cause) => Ok(Some(cause)),
            None => missing_port_in(alloc, text),
        },
        RackFault::TwiceLine => rack_file_fault_text(alloc, text, fault),
        RackFault::Open(_, _) => rack_file_fault_text(alloc, text, fault),
    }
}

/// Returns which number, address or octet of the rack the fault is about.
fn rack_file_fault_text(
    alloc: Global,
    text: &str,
    fault: RackFault,
) -> Result<Option<String>, AllocError> {
    match rack_file_fault_in(alloc, text, fault)? {
        Some(rack_file_fault) => Ok(Some(format!(in alloc; "{rack_file_fault}")?)),
        None => Ok(None),
    }
}

/// Returns which port a line of a rack lacks.
fn missing_port_in(alloc: Global, text: &str) -> Result<Option<String>, AllocError> {
    accepted_racks_have_1_to_8_lines();
    match read_rack(alloc, text) {
        Ok(rack) => match first_missing(1, &rack.lines) {
            Some(missing) => Ok(Some(format!(in alloc; "{missing}")?)),
            None => Ok(None),
        },
        Err(RackFault::OutOfMemory) => Err(AllocError),
        Err(_) => Ok(None),
    }
}
