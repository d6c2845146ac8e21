//! Runs a script on a rack.

ghost use Rattle.std.specs.Prelude.{◌≡◌, ◌<◌, None, All, length};
ghost use Rattle.dp_line.specs.World.{description_of, opening_fault};
ghost use Rattle.rack_file.specs.Rack.{rack_described};
ghost use Rattle.dp_text.specs.Words.{lines_of};
ghost use Rattle.rack_script.specs.ScriptText.{line_obeyed, play, script_text};
ghost use Rattle.rack_script.specs.Runs.{Obeys, Plays};

use crate::command::command_in;
use crate::run_fault::RunFault;
use crate::script_rack::ScriptRack;
use dp_text::{Lines, Text};
use embedded_rack::ObeyFault;
use rack_file::Rack;
use std::alloc::Global;
use std::io::Write;

/// Runs a script on a rack, and writes the answers of its lines, one after another.
///
/// Returns `Script` with the number of the first line that is no command or can't be obeyed; then the answers of the
/// lines before it are written.
pub(crate) fn run_script<W: Write>(
    alloc: Global,
    rack: &Rack,
    script: &str,
    writer: &mut W,
) -> Result<(), RunFault>
    requires some { 0 < length rack.now.lines.items }
    requires fit { All (λ line. opening_fault (description_of line.spec) ≡ None) rack.now.lines.items }
    ensures { Plays (script_text (rack_described rack.now) script.now) (W.contents writer.old) (W.contents writer.new) result }
{
    let Ok(mut script_rack) = ScriptRack::open(alloc, rack) else {
        return Err(RunFault::OutOfMemory);
    };
    play_lines(&mut script_rack, script.as_bytes(), writer)
}

/// Obeys the lines of a script in turn, and writes the answer of each.
fn play_lines<W: Write>(
    script_rack: &mut ScriptRack,
    script: &[u8],
    writer: &mut W,
) -> Result<(), RunFault>
    ensures { Plays (play script_rack.old 1 (lines_of script.now)) (W.contents writer.old) (W.contents writer.new) result }
{
    let mut text = Text::new();
    let mut lines = Lines::new(script);
    for index in 0..u64::MAX {
        let Some(line) = lines.next() else {
            return Ok(());
        };
        match obey_line(script_rack, line, &mut text, writer) {
            Ok(()) => {}
            Err(ObeyFault::NoCommand) => return Err(RunFault::Script(index + 1)),
            Err(ObeyFault::WriteFault) => return Err(RunFault::WriteFault),
        }
    }
    Err(RunFault::OutOfMemory)
}

/// Obeys one line. Returns `NoCommand` if it is no command, or can't be obeyed.
fn obey_line<W: Write>(
    script_rack: &mut ScriptRack,
    line: &[u8],
    text: &mut Text,
    writer: &mut W,
) -> Result<(), ObeyFault>
    ensures { Obeys (line_obeyed script_rack.old line.now) script_rack.new (W.contents writer.old) (W.contents writer.new) result }
{
    match command_in(line) {
        Some(command) => script_rack.obey(command, text, writer),
        None => Err(ObeyFault::NoCommand),
    }
}
