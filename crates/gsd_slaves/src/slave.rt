//! Writes a slave of a GSD file as a table of a rack file.

ghost use Rattle.std.specs.Prelude.{◌≡◌, map, IfOk, IfErr, Ok};
ghost use Rattle.gsd_slaves.specs.SlaveText.{slave_text};
ghost use Rattle.gsd_slaves.specs.SlaveRuns.{slave_outcome, IsFault, Leaves};

use crate::fault::SlaveFault;
use crate::hints::refused;
use crate::slave_text::slave_text;
use dp_text::{Text, write_whole};
use gsd_files::{GsdReadFault, plugged_slave, read_gsd};
use std::alloc::Global;
use std::io::Write;

/// Returns the table of a slave of a GSD file.
fn text_of(alloc: Global, gsd: &[u8], names: &[&str]) -> Result<Text, SlaveFault>
    ensures ok { IfOk result (λ text. slave_outcome gsd.now (map (λ name. name.now) names.now) ≡ Ok text) }
    ensures err { IfErr result (IsFault (slave_outcome gsd.now (map (λ name. name.now) names.now))) }
{
    let file = match read_gsd(alloc, gsd) {
        Ok(file) => file,
        Err(GsdReadFault::OutOfMemory) => return Err(SlaveFault::OutOfMemory),
        Err(GsdReadFault::Row(fault)) => return Err(SlaveFault::Row(fault)),
    };
    match plugged_slave(&file, names) {
        Ok(slave) => Ok(slave_text(&slave)),
        Err(fault) => Err(refused(alloc, &file, names, fault)),
    }
}

/// Writes the table `[[line.slave]]` of the slave that a GSD file describes, with the modules of these names plugged,
/// in this order; a name may stand more than once, and the first words of a name stand for it if no other name begins with
/// them. If none is named, the defaults of the slots are plugged, or the modules that the file presets, or the only one of a
/// compact slave. Comments give the default octets of the user parameters, and name the kinds of rows that are left out.
///
/// Returns the first fault that applies and writes nothing then: `Row` for a line that isn't accepted, `UnknownModule`,
/// `WrongModule` or `Modules` for the modules. `OutOfMemory` may come instead of each, and writes nothing either. `WriteFault`
/// if a write fails: a prefix of the table may be written then. The texts of `UnknownModule` and `WrongModule` name other
/// modules; a contract leaves open which ones.
pub fn run_slave<W: Write>(
    alloc: Global,
    gsd: &[u8],
    modules: &[&str],
    writer: &mut W,
) -> Result<(), SlaveFault>
    ensures { Leaves (slave_outcome gsd.now (map (λ name. name.now) modules.now)) (W.contents writer.old) (W.contents writer.new) result }
{
    let text = match text_of(alloc, gsd, modules) {
        Ok(text) => text,
        Err(fault) => return Err(fault),
    };
    match write_whole(writer, text.as_bytes()) {
        Ok(()) => Ok(()),
        Err(_) => Err(SlaveFault::WriteFault),
    }
}
