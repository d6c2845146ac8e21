//! A rack that a script runs on: its lines, and the chosen one, which gets the commands.

ghost use Rattle.std.specs.Prelude.{◌≡◌, ◌<◌, ◌==◌, ℕ, List, Option, None, option_and_then, All, map, position, length, IfOk, IfSome};
ghost use Rattle.rack_script.specs.Commands.{choose_line, sending_of, write_journal as journal_asked, operation_of};
ghost use Rattle.dp_line.specs.World.{description_of, opening_fault};
ghost use Rattle.rack_file.specs.Rack.{rack_described};
ghost use Rattle.rack_script.specs.CommandView.{command_view};
ghost use Rattle.embedded_rack.specs.EmbeddedLines.{line_at_start};
ghost use Rattle.rack_script.specs.ScriptText.{rack_at_start, obeyed};
ghost use Rattle.rack_script.specs.Runs.{Obeys};

use crate::command::Command;
use dp_text::Text;
use embedded_rack::{EmbeddedLine, ObeyFault, write_whole};
use rack_file::{Rack, RackLine};
use std::alloc::{AllocError, Global};
use std::io::Write;
use std::marker::Model;

/// The lines of a rack in the order of its file, and the index of the chosen one.
#[derive(Drop)]
pub(crate) struct ScriptRack {
    lines: Vec<EmbeddedLine>,
    chosen: usize,
}

impl Model for ScriptRack {
    ghost use Rattle.std.specs.Prelude.{◌<◌, length};
    ghost use Rattle.rack_script.specs.ScriptText.{ScriptRack as View};

    ghost Value = { View };

    ghost view = { λ d. record { lines = d.lines.items; chosen = d.chosen } };

    ghost invariant = { λ d. d.chosen < length d.lines.items };
}

impl ScriptRack {
    /// Opens each line at its start, and chooses the first; `AllocError` if memory runs out.
    pub(crate) fn open(alloc: Global, rack: &Rack) -> Result<ScriptRack, AllocError>
        requires some { 0 < length rack.now.lines.items }
        requires fit { All (λ line. opening_fault (description_of line.spec) ≡ None) rack.now.lines.items }
        ensures { IfOk result (λ script_rack. script_rack ≡ rack_at_start (rack_described rack.now)) }
    {
        Ok(ScriptRack {
            lines: lines_of(alloc, &rack.lines)?,
            chosen: 0,
        })
    }

    /// Obeys a command, and writes its answer. Returns `NoCommand` if it can't be obeyed.
    pub(crate) fn obey<W: Write>(
        &mut self,
        command: Command<'_>,
        text: &mut Text,
        writer: &mut W,
    ) -> Result<(), ObeyFault>
        ensures { Obeys (option_and_then (obeyed self.old) (command_view command.entry)) self.new (W.contents writer.old) (W.contents writer.new) result }
    {
        match command {
            Command::ChooseLine(number) => self.choose(number),
            Command::Send { master, digits } => self.send(master, digits, text, writer),
            Command::WriteJournal => self.write_journal(writer),
            Command::Operate(line) => self.operate(line, text, writer),
        }
    }

    /// Chooses the line of this number for the commands that follow. Returns `NoCommand` if the rack has no such line.
    fn choose(&mut self, number: u8) -> Result<(), ObeyFault>
        ensures { (contents : Option (List ℕ)) → Obeys (obeyed self.old (choose_line number)) self.new contents contents result }
    {
        match index_of(&self.lines, number) {
            Some(index) => {
                self.chosen = index;
                Ok(())
            }
            None => Err(ObeyFault::NoCommand),
        }
    }

    /// Sends the octets of words to the chosen line as a master, and writes the answers. Returns `NoCommand` if the
    /// line has no such master, or if the words are no hex digits.
    fn send<W: Write>(
        &mut self,
        master: u8,
        digits: &[u8],
        text: &mut Text,
        writer: &mut W,
    ) -> Result<(), ObeyFault>
        ensures { Obeys (option_and_then (obeyed self.old) (sending_of master digits.now)) self.new (W.contents writer.old) (W.contents writer.new) result }
    {
        self.lines[self.chosen].send(master, digits, text, writer)
    }

    /// Writes the audit text of the chosen line.
    fn write_journal<W: Write>(&self, writer: &mut W) -> Result<(), ObeyFault>
        ensures { Obeys (obeyed self.now journal_asked) self.now (W.contents writer.old) (W.contents writer.new) result }
    {
        self.lines[self.chosen].write_journal(writer)
    }

    /// Obeys a line of the operator on the chosen line, and writes its answer. Returns `NoCommand` if it is no command.
    fn operate<W: Write>(
        &mut self,
        line: &[u8],
        text: &mut Text,
        writer: &mut W,
    ) -> Result<(), ObeyFault>
        ensures { Obeys (option_and_then (obeyed self.old) (operation_of line.now)) self.new (W.contents writer.old) (W.contents writer.new) result }
    {
        if self.lines[self.chosen].operate(line, text).is_none() {
            return Err(ObeyFault::NoCommand);
        }
        write_whole(writer, text.as_bytes())
    }
}

/// Returns the index of the first line with this number; None if there is none.
fn index_of(lines: &[EmbeddedLine], number: u8) -> Option<usize>
    ensures index { result ≡ position (λ line. line.journal.number == number) lines.now }
    ensures bound { IfSome result (λ index. index < length lines.now) }
{
    lines.iter().position(|line| line.number() == number)
}

/// Opens each of the lines at its start; `AllocError` if memory runs out.
fn lines_of(alloc: Global, lines: &[RackLine]) -> Result<Vec<EmbeddedLine>, AllocError>
    requires { All (λ line. opening_fault (description_of line.spec) ≡ None) lines.now }
    ensures { IfOk result (λ embedded_lines. embedded_lines.items ≡ map (λ line. line_at_start (description_of line.spec)) lines.now) }
{
    let mut embedded_lines = Vec::new(alloc);
    for line in lines {
        embedded_lines.push(EmbeddedLine::open(alloc, &line.spec)?)?;
    }
    Ok(embedded_lines)
}
