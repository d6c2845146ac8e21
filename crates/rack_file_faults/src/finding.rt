//! Finds the rack_file_fault of a rack's fault.

use crate::rack_file_fault::{LEAST_PLACES, MOST_ADDRESS, MOST_PLACES, RackFileFault, Wrong};
use crate::stations::{cut_configuration, listed_stranger, twice};
use dp_line::{LineSpec, MOST_SLAVES, MOST_USER_PARAMETERS, OpenFault};
use rack_file::{RackFault, RackLine, read_lines};
use std::alloc::{AllocError, Global};

/// Returns the rack_file_fault for which a rack text is refused as `TwiceLine` or `Open`, the first one in the order of the file
/// that this fault is about. Returns None for another fault. Returns an error if memory is refused.
pub fn rack_file_fault_in(
    alloc: Global,
    text: &str,
    fault: RackFault,
) -> Result<Option<RackFileFault>, AllocError> {
    let lines = match read_lines(alloc, text) {
        Ok(lines) => lines,
        Err(RackFault::OutOfMemory) => return Err(AllocError),
        Err(_) => return Ok(None),
    };
    Ok(rack_file_fault_of(&lines, fault))
}

/// Returns the rack_file_fault of this fault among the lines of a rack.
fn rack_file_fault_of(lines: &[RackLine], fault: RackFault) -> Option<RackFileFault> {
    match fault {
        RackFault::TwiceLine => twice_line(lines),
        RackFault::Open(line, fault) => {
            let line = usize::from(line);
            let described = lines.get(line.saturating_sub(1))?;
            let (slave, wrong) = wrong_in(&described.spec, fault)?;
            Some(RackFileFault { line, slave, wrong })
        }
        RackFault::OutOfMemory => None,
        RackFault::NotToml => None,
        RackFault::BadKey => None,
    }
}

/// Returns the first line that has the number of a line before.
fn twice_line(lines: &[RackLine]) -> Option<RackFileFault> {
    for (index, line) in lines.iter().enumerate() {
        let number = line.spec.number;
        let before = lines.iter().take(index);
        for (other, first) in before.enumerate() {
            if first.spec.number == number {
                return Some(RackFileFault {
                    line: index + 1,
                    slave: None,
                    wrong: Wrong::NumberOf(other + 1, number),
                });
            }
        }
    }
    None
}

/// Returns what is wrong in a line that is not opened for this reason, and the position of the slave.
fn wrong_in(line: &LineSpec, fault: OpenFault) -> Option<(Option<usize>, Wrong)> {
    match fault {
        OpenFault::OutOfMemory => None,
        OpenFault::TwiceAddress => twice(line),
        OpenFault::Limit => match beyond_limits(line) {
            Some(wrong) => Some((None, wrong)),
            None => slave_beyond_limits(line),
        },
        OpenFault::BadCfg => cut_configuration(line),
        OpenFault::UnknownListed => listed_stranger(line),
    }
}

/// Returns what of a line is outside of its limits.
fn beyond_limits(line: &LineSpec) -> Option<Wrong> {
    if line.capacity < LEAST_PLACES || line.capacity > MOST_PLACES {
        return Some(Wrong::Capacity(line.capacity));
    }
    if line.masters.is_empty() {
        return Some(Wrong::NoMaster);
    }
    if line.slaves.is_empty() {
        return Some(Wrong::NoSlave);
    }
    if line.slaves.len() > MOST_SLAVES {
        return Some(Wrong::Slaves(line.slaves.len()));
    }
    for master in &line.masters {
        if *master > MOST_ADDRESS {
            return Some(Wrong::Master(*master));
        }
    }
    None
}

/// Returns the first slave that is outside of its limits.
fn slave_beyond_limits(line: &LineSpec) -> Option<(Option<usize>, Wrong)> {
    for (index, slave) in line.slaves.iter().enumerate() {
        if slave.address > MOST_ADDRESS {
            return Some((Some(index + 1), Wrong::Address(slave.address)));
        }
        if usize::from(slave.user_max) > MOST_USER_PARAMETERS {
            return Some((Some(index + 1), Wrong::UserParameters(slave.user_max)));
        }
    }
    None
}
