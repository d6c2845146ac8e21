//! Runs a script on the rack that a text describes.

ghost use Rattle.std.specs.Prelude.{◌≡◌};
ghost use Rattle.rack_file.specs.RackFile.{rack_in};
ghost use Rattle.rack_script.specs.Runs.{RunsText};

use crate::run_fault::RunFault;
use crate::script::run_script;
use rack_file::laws::{accepted_lines_can_be_opened, accepted_racks_have_1_to_8_lines};
use rack_file::{RackFault, read_rack};
use std::alloc::Global;
use std::io::Write;

/// Runs a script on the rack that a text describes, and writes the answers.
///
/// Returns `Rack` if the rack isn't accepted, and then nothing is written. Returns `Script` for the first line that is
/// no command or can't be obeyed, and then the answers of the lines before it are written. `WriteFault` and
/// `OutOfMemory` leave a prefix of the answers.
pub fn run_text<W: Write>(
    alloc: Global,
    rack: &str,
    script: &str,
    writer: &mut W,
) -> Result<(), RunFault>
    ensures { RunsText (rack_in rack.now) script.now (W.contents writer.old) (W.contents writer.new) result }
{
    accepted_racks_have_1_to_8_lines();
    accepted_lines_can_be_opened();
    match read_rack(alloc, rack) {
        Ok(rack) => run_script(alloc, &rack, script, writer),
        Err(RackFault::OutOfMemory) => Err(RunFault::OutOfMemory),
        Err(fault) => Err(RunFault::Rack(fault)),
    }
}
