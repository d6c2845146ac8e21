//! Writes the GSD file of a slave of a rack file.

ghost use Rattle.std.specs.Prelude.{◌≡◌, ◌==◌, map, find};
ghost use Rattle.std.specs.Option.{option_map};
ghost use Rattle.gsd_files.specs.Steps.{seen};
ghost use Rattle.rack_file.specs.Rack.{rack_described, line_described};
ghost use Rattle.gsd_slaves.specs.Names.{latin_of};
ghost use Rattle.gsd_slaves.specs.GsdRuns.{vendor_of, model_of, as_fault, slave_of, gsd_outcome, Makes, Leaves};
ghost use Rattle.gsd_slaves.specs.declared.fault.GsdFault.TheVariants.{Vendor, Model};

use crate::fault::GsdFault;
use crate::names::{LatinName, latin_of};
use dp_line::described;
use dp_slave::SlaveSpec;
use dp_text::write_whole;
use gsd_files::gsd_text;
use rack_file::{Rack, RackFault, RackLine, read_rack};
use std::alloc::Global;
use std::io::Write;

/// The name of the vendor if none is given.
const VENDOR: &str = "rackd";

/// The name of the model if none is given.
const MODEL: &str = "simulated slave";

/// Returns the name of the vendor.
fn vendor_name(vendor: Option<&str>) -> Result<LatinName, GsdFault>
    ensures { seen (λ name. name.items) result ≡ as_fault Vendor (latin_of (vendor_of (option_map (λ name. name.now) vendor.entry))) }
{
    match latin_of(vendor.unwrap_or(VENDOR)) {
        Ok(name) => Ok(name),
        Err(fault) => Err(GsdFault::Vendor(fault)),
    }
}

/// Returns the name of the model.
fn model_name(model: Option<&str>) -> Result<LatinName, GsdFault>
    ensures { seen (λ name. name.items) result ≡ as_fault Model (latin_of (model_of (option_map (λ name. name.now) model.entry))) }
{
    match latin_of(model.unwrap_or(MODEL)) {
        Ok(name) => Ok(name),
        Err(fault) => Err(GsdFault::Model(fault)),
    }
}

/// Returns the line with this number; None if there is none.
fn line_numbered(lines: &[RackLine], number: u8) -> Option<&RackLine>
    ensures { option_map (λ line. line_described line.now) result ≡ find (λ found. found.line.number == number) (map line_described lines.now) }
{
    match lines {
        [] => None,
        [line, others @ ..] => {
            if line.spec.number == number {
                Some(line)
            } else {
                line_numbered(others, number)
            }
        }
    }
}

/// Returns the slave with this address on the line with this number; `NoLine` or `NoSlave` if there is none.
fn slave_of(rack: &Rack, line: u8, address: u8) -> Result<&SlaveSpec, GsdFault>
    ensures { seen (λ slave. slave.now) result ≡ slave_of line address (rack_described rack.now) }
{
    match line_numbered(rack.lines.as_slice(), line) {
        None => Err(GsdFault::NoLine(line)),
        Some(found) => match described(found.spec.slaves.as_slice(), address) {
            None => Err(GsdFault::NoSlave(line, address)),
            Some(slave) => Ok(slave),
        },
    }
}

/// Returns the GSD file of a slave of a rack text.
fn gsd_of(
    alloc: Global,
    rack: &str,
    line: u8,
    address: u8,
    vendor: Option<&str>,
    model: Option<&str>,
) -> Result<Vec<u8>, GsdFault>
    ensures { Makes (gsd_outcome rack.now line address (option_map (λ name. name.now) vendor.entry) (option_map (λ name. name.now) model.entry)) (seen (λ text. text.items) result) }
{
    let vendor = vendor_name(vendor)?;
    let model = model_name(model)?;
    let rack = match read_rack(alloc, rack) {
        Ok(rack) => rack,
        Err(RackFault::OutOfMemory) => return Err(GsdFault::OutOfMemory),
        Err(fault) => return Err(GsdFault::Rack(fault)),
    };
    let slave = slave_of(&rack, line, address)?;
    match gsd_text(alloc, vendor.as_slice(), model.as_slice(), slave) {
        Ok(text) => Ok(text),
        Err(_) => Err(GsdFault::OutOfMemory),
    }
}

/// Writes the GSD file of the slave with this address on the line with this number of a rack text (GSD specification,
/// revision 3). The names of the vendor and the model are `rackd` and `simulated slave` if they are None.
///
/// Returns the first fault that applies, in the order `Vendor`, `Model`, `Rack`, `NoLine`, `NoSlave`, and writes nothing
/// then. `OutOfMemory` may come instead of each, and writes nothing either. `WriteFault` if a write fails: a prefix of
/// the file may be written then.
pub fn run_gsd<W: Write>(
    alloc: Global,
    rack: &str,
    line: u8,
    address: u8,
    vendor: Option<&str>,
    model: Option<&str>,
    writer: &mut W,
) -> Result<(), GsdFault>
    ensures { Leaves (gsd_outcome rack.now line address (option_map (λ name. name.now) vendor.entry) (option_map (λ name. name.now) model.entry))
        (W.contents writer.old) (W.contents writer.new) result }
{
    let text = match gsd_of(alloc, rack, line, address, vendor, model) {
        Ok(text) => text,
        Err(fault) => return Err(fault),
    };
    match write_whole(writer, text.as_slice()) {
        Ok(()) => Ok(()),
        Err(_) => Err(GsdFault::WriteFault),
    }
}
