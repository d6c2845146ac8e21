//! Addresses that the line of an audit text does not have.

use crate::fault::TextFault;
use audit_parts::is_part_header;
use dp_line::LineSpec;
use dp_text::Lines;
use rack_file::Rack;
use rack_script::line_named;
use rackd_cli::Entries;

/// Returns a fault if the line that the first row of an audit text names lacks the slave or the master whose entries are asked
/// for. `front` is the beginning of the text. A first row that names no line of the rack is left to the explanation.
pub(crate) fn check_stations<'a>(
    rack: &Rack,
    front: &[u8],
    entries: Entries,
) -> Result<(), TextFault<'a>> {
    match line_of(rack, front) {
        Some(line) => check_line(line, entries),
        None => Ok(()),
    }
}

/// Returns the line of the rack that the first row of an audit text, or of a later part of one, names. `front` begins with the
/// row.
pub(crate) fn line_of<'a>(rack: &'a Rack, front: &[u8]) -> Option<&'a LineSpec> {
    let row = Lines::new(front).next()?;
    if let Some(line) = line_named(&rack.lines, row) {
        return Some(&line.spec);
    }
    for line in rack.lines.as_slice() {
        if is_part_header(&line.spec, row) {
            return Some(&line.spec);
        }
    }
    None
}

/// Returns a fault if a line lacks the slave or the master whose entries are asked for.
pub(crate) fn check_line<'a>(line: &LineSpec, entries: Entries) -> Result<(), TextFault<'a>> {
    if let Some(address) = entries.slave
        && !line.slaves.iter().any(|slave| slave.address == address)
    {
        return Err(TextFault::NoSlave(address));
    }
    if let Some(address) = entries.master
        && !line.masters.contains(&address)
    {
        return Err(TextFault::NoMaster(address));
    }
    Ok(())
}
