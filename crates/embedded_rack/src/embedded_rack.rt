//! A rack in process.

ghost use Rattle.std.specs.Prelude.{◌≡◌, ◌<◌, ◌==◌, if◌then◌else◌, [], None, Some, Ok, Err, All, IfOk, IfErr, IfSome, IsUtf8, length, map, option_map, position, slice_get};
ghost use Rattle.dp_line.specs.World.{description_of, opening_fault};
ghost use Rattle.rack_file.specs.Gives.{Fails};
ghost use Rattle.rack_file.specs.Rack.{rack_described};
ghost use Rattle.rack_file.specs.RackFile.{rack_in};
ghost use Rattle.embedded_rack.specs.RackReasons.{ExplainsAtIndex, ExplainsEntry};
ghost use Rattle.embedded_rack.specs.RackCalls.{Opens, blank_answer, descriptions_of, entries_counted, fed, line_opened, next_piece, operated, rack_at_start, requested, rowed, ticked};

use crate::call_fault::CallFault;
use crate::embedded_line::EmbeddedLine;
use crate::entry_reason::{EntryReason, ReasonFault};
use crate::taken_piece::TakenPiece;
use dp_audit::Record;
use dp_line::{LineSpec, Step};
use dp_text::Text;
use rack_file::laws::accepted_lines_can_be_opened;
use rack_file::{Rack, RackFault, RackLine, read_rack};
use std::alloc::{AllocError, Global};
use std::marker::Model;

/// A rack in process: its lines in the order of its text, the answer to the last event, and the last text. No call
/// waits, and only [`EmbeddedRack::open`] takes memory. A call that is refused changes no line.
///
/// Contracts see the lines and their descriptions, whether they forget old entries, the answer and the text.
#[derive(Drop)]
pub struct EmbeddedRack {
    lines: Vec<EmbeddedLine>,
    /// The description of each line, at its index.
    specs: Vec<RackLine>,
    /// Whether the lines forget old entries.
    forgets: bool,
    answer: Step,
    text: Text,
    record: Record,
}

impl Model for EmbeddedRack {
    ghost use Rattle.embedded_rack.specs.RackCalls.{EmbeddedRack as View, descriptions_of};

    ghost Value = { View };

    ghost view = { λ r. record { described = descriptions_of r.specs.items; forgets = r.forgets; lines = r.lines.items; answer = r.answer; text = r.text } };
}

impl EmbeddedRack {
    /// Opens each line of the rack that a text describes at its start: ordinary lines, or endless lines, which forget
    /// old entries. The text is that of a rack file; its workers and ports are read, and not used.
    ///
    /// Returns the fault of [`read_rack`], and `NotToml` if the text is not UTF-8. `OutOfMemory` may come instead of
    /// each.
    pub fn open(alloc: Global, text: &[u8], endless: bool) -> Result<EmbeddedRack, RackFault>
        ensures opened { IfOk result (λ rack. Opens endless (rack_in text.now) rack) }
        ensures refused { IsUtf8 text.now → IfErr result (λ fault. Fails fault (rack_in text.now)) }
        ensures no_text { (¬ IsUtf8 text.now) → result ≡ Err RackFault.NotToml }
    {
        match std::str::from_utf8(text) {
            Ok(text) => opened(alloc, text, endless),
            Err(_) => Err(RackFault::NotToml),
        }
    }

    /// Returns the answer to the last event.
    pub fn answer(&self) -> &Step
        ensures { result.now ≡ self.now.answer }
    {
        &self.answer
    }

    /// Returns the last text.
    pub fn text(&self) -> &[u8]
        ensures { result.now ≡ self.now.text }
    {
        self.text.as_bytes()
    }

    /// Takes one whole telegram of a master, as one event of the line of this number, and sets the answer.
    ///
    /// Returns `NoLine`; `NoFrame` if the octets are not one whole frame.
    pub fn request(&mut self, line: u8, master: u8, octets: &[u8]) -> Result<(), CallFault>
        ensures rack { self.new ≡ (requested self.old line master octets.now).rack }
        ensures result { result ≡ (requested self.old line master octets.now).result }
    {
        match index_of(&self.lines, line) {
            Some(index) => self.lines[index].request(master, octets, &mut self.answer),
            None => Err(CallFault::NoLine),
        }
    }

    /// Takes octets of a master's stream, as many as it has room for, and returns how many it took. See
    /// [`EmbeddedLine::feed`].
    ///
    /// Returns `NoLine`, `NoMaster`.
    pub fn feed(&mut self, line: u8, master: u8, octets: &[u8]) -> Result<usize, CallFault>
        ensures rack { self.new ≡ (fed self.old line master octets.now).rack }
        ensures result { result ≡ (fed self.old line master octets.now).result }
    {
        match index_of(&self.lines, line) {
            Some(index) => self.lines[index].feed(master, octets),
            None => Err(CallFault::NoLine),
        }
    }

    /// Takes the next piece of a master's stream, and sets the answer if it is a frame. Returns None if the octets held
    /// can't be judged yet. See [`EmbeddedLine::next`].
    ///
    /// Returns `NoLine`, `NoMaster`.
    pub fn next(&mut self, line: u8, master: u8) -> Result<Option<TakenPiece>, CallFault>
        ensures rack { self.new ≡ (next_piece self.old line master).rack }
        ensures result { result ≡ (next_piece self.old line master).result }
    {
        match index_of(&self.lines, line) {
            Some(index) => self.lines[index].next(master, &mut self.answer),
            None => Err(CallFault::NoLine),
        }
    }

    /// Lets time pass on a line, in units of 10 ms, and sets the answer.
    ///
    /// Returns `NoLine`.
    pub fn tick(&mut self, line: u8, units: u32) -> Result<(), CallFault>
        ensures rack { self.new ≡ (ticked self.old line units).rack }
        ensures result { result ≡ (ticked self.old line units).result }
    {
        match index_of(&self.lines, line) {
            Some(index) => {
                self.lines[index].tick(units, &mut self.answer);
                Ok(())
            }
            None => Err(CallFault::NoLine),
        }
    }

    /// Obeys a line of an operator, without its LF, and sets the text to its answer, which is empty for an empty line or
    /// a comment.
    ///
    /// Returns `NoLine`; `NoCommand` if the octets are no line of an operator.
    pub fn operate(&mut self, line: u8, command: &[u8]) -> Result<(), CallFault>
        ensures rack { self.new ≡ (operated self.old line command.now).rack }
        ensures result { result ≡ (operated self.old line command.now).result }
    {
        match index_of(&self.lines, line) {
            Some(index) => {
                let obeyed = self.lines[index].operate(command, &mut self.text);
                obeyed.ok_or(CallFault::NoCommand)
            }
            None => Err(CallFault::NoLine),
        }
    }

    /// Returns the number of entries of the journal of a line, forgotten ones included.
    ///
    /// Returns `NoLine`.
    pub fn entries(&self, line: u8) -> Result<u32, CallFault>
        ensures { result ≡ (entries_counted self.now line).result }
    {
        match index_of(&self.lines, line) {
            Some(index) => Ok(self.lines[index].entries()),
            None => Err(CallFault::NoLine),
        }
    }

    /// Sets the text to the row at a place of the audit text of a line, with its LF: its header at place 0, the entry at
    /// another place.
    ///
    /// Returns `NoLine`; `NoEntry` if the journal has no entry there, or has forgotten it, and then the text is empty.
    pub fn row(&mut self, line: u8, place: u32) -> Result<(), CallFault>
        ensures rack { self.new ≡ (rowed self.old line place).rack }
        ensures result { result ≡ (rowed self.old line place).result }
    {
        match index_of(&self.lines, line) {
            Some(index) => {
                let found = self.lines[index].row(place, &mut self.record, &mut self.text);
                row_result(found)
            }
            None => Err(CallFault::NoLine),
        }
    }

    /// Returns the facts of the entry at a place of the journal of a line, and sets `sentence` to its sentence, as
    /// `rackd explain` writes it. See [`EmbeddedLine::explain`].
    ///
    /// Returns `NoLine`; `NoEntry` if the journal has no entry there, or has forgotten it or one before it; `OutOfMemory`.
    pub fn explain(
        &self,
        alloc: Global,
        line: u8,
        place: u32,
        sentence: &mut Vec<u8>,
    ) -> Result<EntryReason, ReasonFault>
        ensures { ExplainsEntry self.now line place sentence.new.items result }
    {
        match index_of(&self.lines, line) {
            Some(index) => self.explain_at(alloc, index, place, sentence),
            None => Err(ReasonFault::NoLine),
        }
    }

    /// Explains an entry of the line at an index. See [`EmbeddedRack::explain`].
    fn explain_at(
        &self,
        alloc: Global,
        index: usize,
        place: u32,
        sentence: &mut Vec<u8>,
    ) -> Result<EntryReason, ReasonFault>
        requires { index < length self.now.lines }
        ensures { ExplainsAtIndex self.now place sentence.new.items result (Some index) }
    {
        match spec_at(&self.specs, index) {
            Some(spec) => self.lines[index].explain(alloc, spec, self.forgets, place, sentence),
            None => Err(ReasonFault::NoLine),
        }
    }
}

/// Returns the description of the line at an index; None if there is none.
fn spec_at(specs: &[RackLine], index: usize) -> Option<&LineSpec>
    ensures { option_map (λ spec. description_of spec.now) result ≡ slice_get (descriptions_of specs.now) index }
{
    if index < specs.len() {
        Some(&specs[index].spec)
    } else {
        None
    }
}

/// Opens each line of the rack that a text describes at its start. See [`EmbeddedRack::open`].
fn opened(alloc: Global, text: &str, endless: bool) -> Result<EmbeddedRack, RackFault>
    ensures opened { IfOk result (λ rack. Opens endless (rack_in text.now) rack) }
    ensures refused { IfErr result (λ fault. Fails fault (rack_in text.now)) }
{
    accepted_lines_can_be_opened();
    match read_rack(alloc, text) {
        Ok(rack) => at_start(alloc, rack, endless),
        Err(fault) => Err(fault),
    }
}

/// Opens each line of a rack at its start; `OutOfMemory` if memory runs out.
fn at_start(alloc: Global, rack: Rack, endless: bool) -> Result<EmbeddedRack, RackFault>
    requires { All (λ line. opening_fault (description_of line.spec) ≡ None) rack.lines.items }
    ensures opened { IfOk result (λ opened. opened ≡ rack_at_start endless (rack_described rack)) }
    ensures memory { IfErr result (λ fault. fault ≡ RackFault.OutOfMemory) }
{
    match lines_of(alloc, &rack.lines, endless) {
        Ok(lines) => Ok(with_lines(lines, rack.lines, endless)),
        Err(_) => Err(RackFault::OutOfMemory),
    }
}

/// Returns a rack of these lines, with their descriptions, that took no event yet.
fn with_lines(lines: Vec<EmbeddedLine>, specs: Vec<RackLine>, forgets: bool) -> EmbeddedRack
    ensures { result ≡ record { described = descriptions_of specs.items; forgets = forgets; lines = lines.items; answer = blank_answer; text = [] } }
{
    EmbeddedRack {
        lines,
        specs,
        forgets,
        answer: Step::blank(),
        text: Text::new(),
        record: Record::blank(),
    }
}

/// Returns `NoEntry` if no row was found.
fn row_result(found: bool) -> Result<(), CallFault>
    ensures { result ≡ (if found then Ok tt else Err CallFault.NoEntry) }
{
    if found {
        Ok(())
    } else {
        Err(CallFault::NoEntry)
    }
}

/// Returns the index of the first line with this number; None if there is none.
fn index_of(lines: &[EmbeddedLine], number: u8) -> Option<usize>
    ensures index { result ≡ position (λ line. line.journal.number == number) lines.now }
    ensures bound { IfSome result (λ index. index < length lines.now) }
{
    lines.iter().position(|line| line.number() == number)
}

/// Opens a line at its start, as an ordinary or an endless one; `AllocError` if memory runs out.
fn open_line(alloc: Global, line: &LineSpec, endless: bool) -> Result<EmbeddedLine, AllocError>
    requires { opening_fault (description_of line.now) ≡ None }
    ensures { IfOk result (λ opened. opened ≡ line_opened endless (description_of line.now)) }
{
    if endless {
        EmbeddedLine::open_endless(alloc, line)
    } else {
        EmbeddedLine::open(alloc, line)
    }
}

/// Opens each of the lines at its start; `AllocError` if memory runs out.
fn lines_of(
    alloc: Global,
    lines: &[RackLine],
    endless: bool,
) -> Result<Vec<EmbeddedLine>, AllocError>
    requires { All (λ line. opening_fault (description_of line.spec) ≡ None) lines.now }
    ensures { IfOk result (λ opened. opened.items ≡ map (λ line. line_opened endless (description_of line.spec)) lines.now) }
{
    let mut opened = Vec::new(alloc);
    for line in lines {
        opened.push(open_line(alloc, &line.spec, endless)?)?;
    }
    Ok(opened)
}
