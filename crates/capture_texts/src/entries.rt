//! The entries of a text, one after another.

ghost use Rattle.std.specs.Prelude.{◌≡◌, None, IfOk, OnOk};
ghost use Rattle.dp_line.specs.World.{description_of, opening_fault};
ghost use Rattle.dp_text.specs.Words.{lines_of};
ghost use Rattle.dp_audit.specs.Check.{judged_line};
ghost use Rattle.explain_texts.specs.Followed.{first_follower};
ghost use Rattle.capture_texts.specs.Captures.{LeavesPackets, TakesEntry};
ghost use Rattle.capture_texts.specs.Blocks.{capture_octets};
ghost use Rattle.capture_texts.specs.Captured.{every_entry, packets_of};
ghost use Rattle.capture_texts.specs.Comments.{comment_of};

use crate::capture::Capture;
use crate::comments::set_comment;
use crate::packets::{Mark, microseconds, push_entry};
use crate::row_fault::{Cut, RowFault};
use dp_audit::{open_line, take_row};
use dp_line::{Event, LineSpec, LineState, Step};
use dp_text::{Text, write_whole};
use explain_texts::{Choice, FollowFault, Follower, RowWriter};
use std::alloc::{AllocError, Global};
use std::io::Write;

/// Takes the entries of a text, one after another, and writes their packets.
///
/// It takes memory for three lines, for the counts of 128 addresses, and for the rows and the packets of one entry.
#[derive(Drop)]
pub(crate) struct EntryCapture<'a> {
    /// Explains the entries.
    pub(crate) follower: Follower<'a>,
    /// The line that gives the outcomes. It equals that of the follower until a row is wrong.
    pub(crate) state: LineState,
    /// The number of the interface.
    pub(crate) interface: u32,
    /// A buffer for the answer of the line.
    answer: Step,
    /// A buffer for a part of a row, as the policy gives it.
    written: Text,
    /// Has the rows of one entry.
    rows: RowWriter<Vec<u8>>,
    /// A buffer for the comment of one entry.
    comment: Vec<u8>,
    /// A buffer for the packets of one entry.
    capture: Capture,
}

/// Returns the choice of every entry.
fn every_entry() -> Choice
    ensures { result ≡ every_entry }
{
    Choice {
        from: None,
        to: None,
        slave: None,
        master: None,
        refused: false,
        faults: false,
        summary: false,
    }
}

impl<'a> EntryCapture<'a> {
    /// Opens the line on which a text with this header is judged, before its first entry. `AllocError` if memory runs out.
    pub(crate) fn open(
        alloc: Global,
        line: &'a LineSpec,
        interface: u32,
        header: &str,
    ) -> Result<EntryCapture<'a>, AllocError>
        requires { opening_fault (description_of line.now) ≡ None }
        ensures follower { IfOk result (λ entries. entries.follower ≡ first_follower (description_of line.now) (lines_of header.now)) }
        ensures state { IfOk result (λ entries. entries.state.world ≡ (first_follower (description_of line.now) (lines_of header.now)).known.context.world) }
        ensures interface { IfOk result (λ entries. entries.interface ≡ interface) }
    {
        let Ok(follower) = Follower::open(alloc, line, header) else {
            return Err(AllocError);
        };
        let Ok(state) = open_line(alloc, line, header) else {
            return Err(AllocError);
        };
        Ok(EntryCapture {
            follower,
            state,
            interface,
            answer: Step::blank(),
            written: Text::new(),
            rows: RowWriter::new(alloc, Vec::new(alloc)),
            comment: Vec::new(alloc),
            capture: Capture::new(alloc),
        })
    }

    /// Takes the next row of the text, without its LF, if it is right, and writes its packets.
    ///
    /// Returns `Wrong` if the row is badly formed or isn't what the policy gives; nothing is written then. Returns `Cut` if
    /// memory runs out or a write fails, which leaves a prefix of the packets. It is of no use after a fault.
    pub(crate) fn take_row<W: Write>(&mut self, row: &[u8], writer: &mut W) -> Result<(), RowFault>
        requires faultless { self.old.follower.fault ≡ None }
        requires same { self.old.state.world ≡ self.old.follower.known.context.world }
        ensures taken { TakesEntry self.old.interface (judged_line self.old.follower.known.context.world row.now) self.old.follower.known self.new.follower self.new.state.world
            (W.contents writer.old) (W.contents writer.new) result }
        ensures interface { self.new.interface ≡ self.old.interface }
    {
        let place = u64::from(self.follower.count()) + 1;
        let time = microseconds(self.follower.time(), place);
        let event = match take_row(&mut self.state, row, &mut self.answer, &mut self.written) {
            Ok(event) => event,
            Err(fault) => return Err(RowFault::Wrong(fault)),
        };
        self.rows.writer.clear();
        match self.follower.take_row(row, &every_entry(), &mut self.rows) {
            Ok(()) => {}
            Err(FollowFault::Wrong(fault)) => return Err(RowFault::Wrong(fault)),
            Err(FollowFault::Explain(_)) => return Err(RowFault::Cut(Cut::OutOfMemory)),
        }
        match self.write_packets(place, time, &event, writer) {
            Ok(()) => Ok(()),
            Err(cut) => Err(RowFault::Cut(cut)),
        }
    }

    /// Writes the packets of an event that was taken.
    fn write_packets<W: Write>(
        &mut self,
        place: u64,
        time: u64,
        event: &Event,
        writer: &mut W,
    ) -> Result<(), Cut>
        ensures same { self.new ≡ record self.old { comment = self.new.comment; capture = self.new.capture } }
        ensures written { LeavesPackets (packets_of self.old.interface time (comment_of place event.now self.old.answer.outcome (lines_of self.old.rows.writer.items)) event.now self.old.answer.outcome)
            (W.contents writer.old) (W.contents writer.new) result }
    {
        if self.fill(place, time, event).is_err() {
            return Err(Cut::OutOfMemory);
        }
        match write_whole(writer, self.capture.as_bytes()) {
            Ok(()) => Ok(()),
            Err(_) => Err(Cut::WriteFault),
        }
    }

    /// Makes the comment and the packets of an event that was taken. `AllocError` if memory runs out.
    fn fill(&mut self, place: u64, time: u64, event: &Event) -> Result<(), AllocError>
        ensures same { self.new ≡ record self.old { comment = self.new.comment; capture = self.new.capture } }
        ensures filled { OnOk result (self.new.capture
            ≡ capture_octets (packets_of self.old.interface time (comment_of place event.now self.old.answer.outcome (lines_of self.old.rows.writer.items)) event.now self.old.answer.outcome)) }
    {
        let outcome = &self.answer.outcome;
        set_comment(
            &mut self.comment,
            place,
            event,
            outcome,
            self.rows.writer.as_slice(),
        )?;
        self.capture.clear();
        let mark = Mark {
            interface: self.interface,
            time,
            comment: self.comment.as_slice(),
        };
        push_entry(&mut self.capture, &mark, event, outcome)
    }
}
