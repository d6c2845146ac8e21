//! Finds stations with the same address, listed addresses that no master has, and octets that are no configuration.

use crate::rack_file_fault::Wrong;
use dp_cfg::{CfgFault, CfgIds};
use dp_line::{LineSpec, SlaveSpec};
use dp_slave::Configuration;

/// Returns the first station with the address of a station before; masters come before slaves.
pub(crate) fn twice(line: &LineSpec) -> Option<(Option<usize>, Wrong)> {
    for (index, master) in line.masters.iter().enumerate() {
        if line.masters.iter().take(index).any(|other| other == master) {
            return Some((None, Wrong::TwiceMaster(*master)));
        }
    }
    for (index, slave) in line.slaves.iter().enumerate() {
        let address = slave.address;
        if line.masters.contains(&address) {
            return Some((Some(index + 1), Wrong::MastersAddress(address)));
        }
        if has_address(&line.slaves, index, address) {
            return Some((Some(index + 1), Wrong::TwiceAddress(address)));
        }
    }
    None
}

/// Returns whether one of the first `count` slaves has this address.
fn has_address(slaves: &[SlaveSpec], count: usize, address: u8) -> bool {
    slaves
        .iter()
        .take(count)
        .any(|slave| slave.address == address)
}

/// Returns the first listed address that no master of the line has.
pub(crate) fn listed_stranger(line: &LineSpec) -> Option<(Option<usize>, Wrong)> {
    for (index, slave) in line.slaves.iter().enumerate() {
        let lists = &slave.lists;
        let lockers = lists
            .lockers
            .as_ref()
            .map_or(&[][..], |list| list.as_slice());
        if let Some(stranger) = stranger_in(line, lockers) {
            return Some((Some(index + 1), Wrong::Listed("lockers", stranger)));
        }
        let readers = lists
            .readers
            .as_ref()
            .map_or(&[][..], |list| list.as_slice());
        if let Some(stranger) = stranger_in(line, readers) {
            return Some((Some(index + 1), Wrong::Listed("readers", stranger)));
        }
    }
    None
}

/// Returns the first of these addresses that no master of the line has.
fn stranger_in(line: &LineSpec, listed: &[u8]) -> Option<u8> {
    for address in listed {
        if !line.masters.contains(address) {
            return Some(*address);
        }
    }
    None
}

/// Returns the first octets that are no configuration.
pub(crate) fn cut_configuration(line: &LineSpec) -> Option<(Option<usize>, Wrong)> {
    for (index, slave) in line.slaves.iter().enumerate() {
        for (position, octets) in slave.cfgs.iter().enumerate() {
            if let Some(wrong) = wrong_configuration(position + 1, octets) {
                return Some((Some(index + 1), wrong));
            }
        }
    }
    None
}

/// Returns what is wrong with the octets of the configuration at this position.
fn wrong_configuration(position: usize, octets: &Configuration) -> Option<Wrong> {
    match CfgIds::parse(octets) {
        Ok(_) => None,
        Err(CfgFault::Cut) => Some(Wrong::Cut(position, cut_identifier(octets))),
        Err(CfgFault::TooLong) => Some(Wrong::TooLong(position, long_identifier(octets))),
    }
}

/// Returns the number of the octet, from 1, behind the longest part at the front of these octets that splits into identifiers.
fn cut_identifier(octets: &Configuration) -> usize {
    let mut behind = 0;
    for count in 0..octets.len() {
        match CfgIds::parse(&octets[..count]) {
            Ok(_) => behind = count,
            Err(CfgFault::TooLong) => behind = count,
            Err(CfgFault::Cut) => {}
        }
    }
    behind.saturating_add(1)
}

/// Returns the number of the octet, from 1, behind the longest part at the front of these octets that is a configuration.
fn long_identifier(octets: &Configuration) -> usize {
    let mut behind = 0;
    for count in 0..octets.len() {
        if CfgIds::parse(&octets[..count]).is_ok() {
            behind = count;
        }
    }
    behind.saturating_add(1)
}
