//! A line of a rack in process: its journal, the streams of its masters, and the slaves that devices drive.

ghost use Rattle.std.specs.Prelude.{◌≡◌, ℕ, [], length, None, Some, MatchOption, IfNone, IsTrue, is_some, option_map, option_and_then, IfOk, OnOk, OnErr, IfErr, true, false};
ghost use Rattle.std.specs.Io.KnownBytes.{Appends};
ghost use Rattle.dp_telegram.specs.FrameText.{fault_of};
ghost use Rattle.dp_line.specs.World.{description_of, opening_fault};
ghost use Rattle.dp_audit.specs.Journal.{taken};
ghost use Rattle.dp_text.specs.OpLines.{op_line_of};
ghost use Rattle.dp_text.specs.Texts.{outcome_line};
ghost use Rattle.dp_text.specs.Words.{words_of};
ghost use Rattle.dp_text.specs.HexWords.{octets_of_words};
ghost use Rattle.dp_text.specs.Writes.{WritesPrefix};
ghost use Rattle.embedded_rack.specs.EmbeddedLines.{line_at_start, sent, reported_of, operated, stepped, owned_line, show_line, journal_text};
ghost use Rattle.embedded_rack.specs.LineCalls.{endless_line_at_start, time_passed, line_fed, line_next, line_requested, row_of};
ghost use Rattle.embedded_rack.specs.EntryReasons.{Explains, explained_at, first_context};
ghost use Rattle.embedded_rack.specs.Sends.{Sends};

use crate::asking::asked_in;
use crate::call_fault::CallFault;
use crate::device_steps::feed_each;
use crate::entry_reason::{EntryReason, ReasonFault};
use crate::obey_fault::ObeyFault;
use crate::replay::explain_entry;
use crate::stream::{CHUNK, Stream, empty_streams, index_of};
use crate::taken_piece::TakenPiece;
use arrayvec::ArrayVec;
use dp_audit::{Book, Record, set_header_line, version_of};
use dp_line::{Event, LineSpec, Op, Step};
use dp_telegram::{FrameFault, WholeFrame, decode};
use dp_text::{HexWords, OpLineKind, Text};
use rack_devices::{DrivenSlave, MOST_DRIVEN, driven_slaves};
use std::alloc::{AllocError, Global};
use std::io::Write;
use std::marker::Model;

/// Buffers for an event of the operator, and for its result.
#[derive(Drop)]
struct Room {
    event: Event,
    step: Step,
}

/// A line of a rack in process, called by a program or by a script. Each of its masters has one stream, which takes
/// octets in any pieces. Only [`EmbeddedLine::open`] and [`EmbeddedLine::open_endless`] take memory.
///
/// Contracts see the journal, the streams, and the slaves that devices drive.
#[derive(Drop)]
pub struct EmbeddedLine {
    book: Book,
    streams: Vec<Stream>,
    driven: ArrayVec<DrivenSlave, MOST_DRIVEN>,
    room: Room,
}

impl Model for EmbeddedLine {
    ghost use Rattle.embedded_rack.specs.EmbeddedLines.{EmbeddedLine as View};

    ghost Value = { View };

    ghost view = { λ s. record { journal = s.book; streams = s.streams.items; driven = s.driven.items } };
}

impl EmbeddedLine {
    /// Opens the line at its start; `AllocError` if memory runs out.
    pub fn open(alloc: Global, line: &LineSpec) -> Result<EmbeddedLine, AllocError>
        requires { opening_fault (description_of line.now) ≡ None }
        ensures { IfOk result (λ opened. opened ≡ line_at_start (description_of line.now)) }
    {
        Ok(EmbeddedLine {
            book: Book::open(alloc, line).map_err(|_| AllocError)?,
            streams: empty_streams(alloc, &line.masters)?,
            driven: driven_slaves(line),
            room: blank_room(),
        })
    }

    /// Opens an endless line at its start, which forgets old entries; `AllocError` if memory runs out.
    pub fn open_endless(alloc: Global, line: &LineSpec) -> Result<EmbeddedLine, AllocError>
        requires { opening_fault (description_of line.now) ≡ None }
        ensures { IfOk result (λ opened. opened ≡ endless_line_at_start (description_of line.now)) }
    {
        Ok(EmbeddedLine {
            book: Book::open_endless(alloc, line).map_err(|_| AllocError)?,
            streams: empty_streams(alloc, &line.masters)?,
            driven: driven_slaves(line),
            room: blank_room(),
        })
    }

    /// Returns the number of the line in the rack.
    pub fn number(&self) -> u8
        ensures { result ≡ self.now.journal.number }
    {
        self.book.number()
    }

    /// Returns the number of entries of the journal, forgotten ones included.
    pub fn entries(&self) -> u32
        ensures { result ≡ length self.now.journal.entries }
    {
        self.book.count()
    }

    /// Takes one whole telegram of a master, as one event, and sets the answer to it. Returns `NoFrame` if the octets are
    /// not one whole frame; then nothing changes.
    pub fn request(&mut self, master: u8, octets: &[u8], answer: &mut Step) -> Result<(), CallFault>
        ensures { record { line = self.new; answer = answer.new; result = result } ≡ line_requested self.old master octets.now answer.old }
    {
        match WholeFrame::read(octets) {
            Some(frame) => {
                self.book.take_frame_into(master, &frame, answer);
                Ok(())
            }
            None => Err(CallFault::NoFrame(frame_fault(octets))),
        }
    }

    /// Lets time pass, in units of 10 ms, and sets the answer to that event.
    pub fn tick(&mut self, units: u32, answer: &mut Step)
        ensures { record { line = self.new; answer = answer.new } ≡ time_passed self.old units }
    {
        self.book
            .take_into(&Event::Operator(Op::Tick(units)), answer);
    }

    /// Takes octets of a master's stream, as many as it has room for, and returns how many it took. A stream holds at
    /// most 255 octets, so it has room once [`EmbeddedLine::next`] returned None. Returns `NoMaster` if the line has no
    /// such master.
    pub fn feed(&mut self, master: u8, octets: &[u8]) -> Result<usize, CallFault>
        ensures { record { line = self.new; result = result } ≡ line_fed self.old master octets.now }
    {
        match index_of(&self.streams, master) {
            Some(index) => Ok(self.streams[index].feed(octets)),
            None => Err(CallFault::NoMaster),
        }
    }

    /// Takes the next piece of a master's stream. A frame is one event, whose answer is set; other octets are dropped.
    /// Returns None if the octets held can't be judged yet, and `NoMaster` if the line has no such master; then nothing
    /// changes.
    pub fn next(&mut self, master: u8, answer: &mut Step) -> Result<Option<TakenPiece>, CallFault>
        ensures { record { line = self.new; answer = answer.new; result = result } ≡ line_next self.old master answer.old }
    {
        match index_of(&self.streams, master) {
            Some(index) => Ok(self.streams[index].next(&mut self.book, answer)),
            None => Err(CallFault::NoMaster),
        }
    }

    /// Sets the text to the row at a place of the audit text of the line, with its LF: its header at place 0, the entry
    /// at another place. Returns false, and clears the text, if there is no entry, or it is forgotten. `record` is room
    /// for one.
    pub fn row(&self, place: u32, record: &mut Record, text: &mut Text) -> bool
        ensures { MatchOption (row_of self.now place) ((result ≡ false) × (text.new ≡ [])) (λ row. (result ≡ true) × (text.new ≡ row)) }
    {
        if place == 0 {
            set_header_line(text, version_of(self.book.capacity()), self.book.number());
            return true;
        }
        self.book.copy_record(place, record);
        record.set_line(text)
    }

    /// Returns the facts of the entry at a place, and sets `sentence` to its sentence, as an explanation of the journal has
    /// it. `line` describes the line, and `forgets` is whether it was opened as an endless one. Returns `NoEntry` if there is
    /// no such entry, or if it or one before it is forgotten; `OutOfMemory`.
    ///
    /// It takes all entries before this one again, on lines that it opens for that.
    pub fn explain(
        &self,
        alloc: Global,
        line: &LineSpec,
        forgets: bool,
        place: u32,
        sentence: &mut Vec<u8>,
    ) -> Result<EntryReason, ReasonFault>
        ensures { Explains (explained_at self.now.journal (first_context forgets (description_of line.now)) place) sentence.new.items result }
    {
        explain_entry(alloc, &self.book, line, forgets, place, sentence)
    }

    /// Sends the octets of words as a master, and writes the answers. Returns `NoCommand` if the line has no such
    /// master, or if the words are no hex digits; then nothing is written. `WriteFault` leaves a prefix of the answers.
    pub fn send<W: Write>(
        &mut self,
        master: u8,
        digits: &[u8],
        text: &mut Text,
        writer: &mut W,
    ) -> Result<(), ObeyFault>
        ensures { Sends (option_and_then (sent self.old master) (octets_of_words (words_of digits.now))) self.new (W.contents writer.old) (W.contents writer.new) result }
    {
        let Some(index) = index_of(&self.streams, master) else {
            return Err(ObeyFault::NoCommand);
        };
        let mut chunk = [0; CHUNK];
        let Some((decoded, octets)) = HexWords::of_into(digits, &mut chunk) else {
            return Err(ObeyFault::NoCommand);
        };
        let stream = &mut self.streams[index];
        stream.pass_words(&mut self.book, decoded, &mut chunk, octets, text, writer)
    }

    /// Obeys a line of the operator, and sets the text to its answer, which is empty for an empty line or a comment.
    /// Returns None if the line is no command; then neither changes.
    ///
    /// It is not inlined, so that the code that handles a frame keeps its registers.
    #[inline(never)]
    pub fn operate(&mut self, line: &[u8], text: &mut Text) -> Option<()>
        ensures done { option_map (λ done. record { line = self.new; text = text.new }) result ≡ option_map (operated self.old) (op_line_of line.now) }
        ensures line_stays { IfNone result (self.new ≡ self.old) }
        ensures text_stays { IfNone result (text.new ≡ text.old) }
    {
        match asked_in(line, &mut self.room.event)? {
            OpLineKind::Event => answer_op(text, &mut self.book, &mut self.room),
            OpLineKind::Owned(master) => self.list_owned(master, text),
            OpLineKind::Show(address) => self.show_slave(address, text),
            OpLineKind::Step => self.step(text),
            OpLineKind::Nothing => text.clear(),
        }
        Some(())
    }

    /// Lets each device update the inputs of its slave, and sets the text to the number of inputs that were recorded.
    fn step(&mut self, text: &mut Text)
        ensures { record { line = self.new; text = text.new } ≡ stepped self.old }
    {
        let recorded = feed_each(&mut self.book, self.driven.as_slice());
        text.set_stepped(recorded);
    }

    /// Sets the text to the list of the slaves that a master holds, oldest lock first.
    fn list_owned(&self, master: u8, text: &mut Text)
        ensures { text.new ≡ owned_line self.now master }
    {
        text.set_owned(self.book.state().owned_by(master).as_slice());
    }

    /// Sets the text to what is shown of the slave at an address. There may be no such slave.
    fn show_slave(&self, address: u8, text: &mut Text)
        ensures { text.new ≡ show_line self.now address }
    {
        text.set_show(&self.book.state().view(address));
    }

    /// Writes the audit text of the line's journal. `WriteFault` leaves a prefix of it.
    pub fn write_journal<W: Write>(&self, writer: &mut W) -> Result<(), ObeyFault>
        ensures ok { OnOk result (Appends (W.contents writer.old) (W.contents writer.new) (journal_text self.now)) }
        ensures err { OnErr result (WritesPrefix (W.contents writer.old) (W.contents writer.new) (journal_text self.now)) }
        ensures fault { IfErr result (λ stop. stop ≡ ObeyFault.WriteFault) }
    {
        self.book
            .write_text(writer)
            .map_err(|_| ObeyFault::WriteFault)
    }
}

/// Returns the fault of octets that are no frame.
fn frame_fault(octets: &[u8]) -> FrameFault
    requires { IsTrue (is_some (fault_of octets.now)) }
    ensures { fault_of octets.now ≡ Some result }
{
    match decode(octets) {
        Err(fault) => fault,
        Ok(_) => FrameFault::Short,
    }
}

/// Takes the event of the operator in `room`, and sets the text to the answer.
fn answer_op(text: &mut Text, book: &mut Book, room: &mut Room)
    ensures journal { book.new ≡ taken book.old room.old.event }
    ensures text { text.new ≡ outcome_line (reported_of book.old room.old.event) }
{
    book.take_into(&room.event, &mut room.step);
    text.set_outcome(&room.step.outcome);
}

/// Returns empty buffers.
fn blank_room() -> Room {
    Room {
        event: Event::Operator(Op::Halt),
        step: Step::blank(),
    }
}
