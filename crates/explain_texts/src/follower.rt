//! Follows the rows of an audit text, one after another.
//!
//! Each row is checked on a line, and if it is right, its entry is explained in the same step. So a text is explained while
//! it is still written, and nothing that is stored grows with it. An event is taken by two lines, because what is written
//! of it is about the state before and after it: the row is checked on one line, and the other one follows behind.

ghost use Rattle.std.specs.Prelude.{◌≡◌, ◌≢◌, ◌∷◌, [], None, Some, Err, unwrap_or, IfOk, IfErr, IsOkAnd, MatchResult};
ghost use Rattle.dp_text.specs.Words.{lines_of};
ghost use Rattle.dp_line.specs.World.{description_of, opening_fault};
ghost use Rattle.audit_heads.specs.HeadLines.{line_read};
ghost use Rattle.dp_audit.specs.Check.{places_of_lines};
ghost use Rattle.explain_events.specs.Releases.{release_of};
ghost use Rattle.explain_texts.specs.Holds.{holds_lasting};
ghost use Rattle.explain_texts.specs.Known.{first_world, outcome_with};
ghost use Rattle.explain_texts.specs.Behind.{follower_behind};
ghost use Rattle.explain_texts.specs.Followed.{after_row, facts_of_row, first_follower, followed_summary, holds_of_row, FollowsRow};
ghost use Rattle.explain_texts.specs.Following.{first_fault, StoresHolds};
ghost use Rattle.explain_texts.specs.Reports.{LeavesFacts};

use crate::choice::Choice;
use crate::ended_holds::EndedHolds;
use crate::explain_fault::ExplainFault;
use crate::follow_fault::FollowFault;
use crate::history::History;
use crate::hold::Hold;
use crate::holds::push_lasting;
use crate::takes_facts::{TakesEntries, TakesFacts};
use crate::tally::SenderCounts;
use audit_heads::{HeadFault, read_head};
use dp_audit::{AuditFault, open_line, take_row};
use dp_line::{LineSpec, LineState, Outcome, Step};
use dp_text::Text;
use explain_events::{ReadEvent, Release, Taken};
use std::alloc::Global;
use std::marker::Model;

/// Follows the rows of an audit text: checks each row, and explains its entry if the row is right. Contracts see what is
/// known after the right rows so far, and the fault of the first wrong one.
///
/// It takes memory for two lines and for the counts, however many rows it takes.
#[derive(Drop)]
pub struct Follower<'a> {
    /// The line before the next entry.
    before: LineState,
    /// The line that checks the next row. It equals `before` until a row is wrong.
    after: LineState,
    history: History<'a>,
    /// The fault of the first wrong row.
    fault: Option<AuditFault>,
    /// A buffer for the answer of a line.
    answer: Step,
    /// A buffer for a part of a row, as the policy gives it.
    written: Text,
}

impl<'a> Model for Follower<'a> {
    ghost use Rattle.std.specs.Prelude.{◌≡◌, None};
    ghost use Rattle.explain_texts.specs.Followed.{FollowerView};
    ghost use Rattle.explain_texts.specs.Following.{known_at};

    ghost Value = { FollowerView };

    ghost view = { λ f. record { known = known_at f.history f.before.world; fault = f.fault } };

    ghost invariant = { λ f. f.fault ≡ None → f.after.world ≡ f.before.world };
}

impl<'a> Follower<'a> {
    /// Opens the line on which a text with this header is judged, before its first entry. `header` is the header row, or a
    /// text that begins with it. Returns `OutOfMemory` if there is too little memory, and no other fault.
    pub fn open(
        alloc: Global,
        line: &'a LineSpec,
        header: &str,
    ) -> Result<Follower<'a>, ExplainFault>
        requires { opening_fault (description_of line.now) ≡ None }
        ensures { MatchResult result (λ follower. follower ≡ first_follower (description_of line.now) (lines_of header.now))
            (λ fault. fault ≡ ExplainFault.OutOfMemory) }
    {
        let Ok(before) = open_before(alloc, line, header) else {
            return Err(ExplainFault::OutOfMemory);
        };
        let Ok(after) = open_before(alloc, line, header) else {
            return Err(ExplainFault::OutOfMemory);
        };
        let Ok(history) = History::new(alloc, line) else {
            return Err(ExplainFault::OutOfMemory);
        };
        Ok(Follower {
            before,
            after,
            history,
            fault: None,
            answer: Step::blank(),
            written: Text::new(),
        })
    }

    /// Opens the line that goes on from the head of a part, before the first entry behind it. `head` is the text of the head,
    /// or a text that begins with it; `buffer` is a buffer. Of the entries before the head nothing is known but the line and
    /// the time behind them. So a slave that is held counts as held since the head. A row is numbered as in a text from the
    /// opening on: the first one behind a head of place P is row P + 2.
    ///
    /// Returns `WrongRow` with the first wrong row of the head, or else `Unsound` if no line goes on from it; or
    /// `OutOfMemory`.
    pub fn open_behind(
        alloc: Global,
        line: &'a LineSpec,
        head: &[u8],
        buffer: &mut Text,
    ) -> Result<Follower<'a>, HeadFault>
        requires { opening_fault (description_of line.now) ≡ None }
        ensures ok { IfOk result (λ follower. IsOkAnd (line_read (description_of line.now) head.now) (λ read. follower ≡ follower_behind (description_of line.now) read.0)) }
        ensures right { IfOk result (λ follower. follower.fault ≡ None) }
        ensures err { IfErr result (λ fault. fault ≢ HeadFault.OutOfMemory → line_read (description_of line.now) head.now ≡ Err fault) }
    {
        let before = match read_head(alloc, line, head, buffer) {
            Ok(read) => read,
            Err(fault) => return Err(fault),
        };
        let after = match read_head(alloc, line, head, buffer) {
            Ok(read) => read,
            Err(fault) => return Err(fault),
        };
        let Ok(history) = History::behind(alloc, line, &before.line, before.time) else {
            return Err(HeadFault::OutOfMemory);
        };
        Ok(Follower {
            before: before.line,
            after: after.line,
            history,
            fault: None,
            answer: Step::blank(),
            written: Text::new(),
        })
    }

    /// Returns the number of entries so far.
    pub fn count(&self) -> u32
        ensures { result ≡ self.now.known.context.world.count }
    {
        self.before.count()
    }

    /// Returns the line after the entries so far.
    pub fn line(&self) -> &LineState
        ensures { result.now.world ≡ self.now.known.context.world }
    {
        &self.before
    }

    /// Returns the fault of the first wrong row; None if no row was wrong.
    pub fn fault(&self) -> Option<AuditFault>
        ensures { result ≡ self.now.fault }
    {
        self.fault
    }

    /// Returns the sum of the ticks so far, in units of 10 ms; None before the first tick.
    pub fn time(&self) -> Option<u64>
        ensures { result ≡ self.now.known.context.time }
    {
        self.history.time()
    }

    /// Returns the last release of the slave at this address; None if none of the entries so far released it.
    pub fn release(&self, address: u8) -> Option<Release>
        ensures { result ≡ release_of self.now.known.context.releases address }
    {
        self.history.release(address)
    }

    /// Returns the counts of each master, in the order of the line, and then those of all other senders.
    pub fn senders(&self) -> &[SenderCounts]
        ensures { result.now ≡ self.now.known.tally }
    {
        self.history.senders()
    }

    /// Takes the next row of the text, without its LF. If the row is right and its entry is chosen, reports the entry.
    ///
    /// Returns `Wrong` if the row is badly formed or isn't what the policy gives, with the number of the row; the header is
    /// row 1. Each later call returns the same fault. Returns `Explain` if memory runs out or a write fails. The event is
    /// taken then, and the next row may follow, but the receiver may have a part of the entry only.
    pub fn take_row<T: TakesEntries>(
        &mut self,
        row: &[u8],
        choice: &Choice,
        receiver: &mut T,
    ) -> Result<(), FollowFault>
        ensures known { self.new ≡ after_row self.old row.now }
        ensures reported { FollowsRow T.takes (facts_of_row choice.now self.old row.now) (after_row self.old row.now).fault receiver.old receiver.new result }
    {
        self.follow_row(row, choice, &mut EndedHolds::not_stored(), receiver)
    }

    /// Takes the next row, as [`Follower::take_row`] does, and stores the holds that its event ended.
    pub(crate) fn follow_row<T: TakesEntries>(
        &mut self,
        row: &[u8],
        choice: &Choice,
        ended: &mut EndedHolds,
        receiver: &mut T,
    ) -> Result<(), FollowFault>
        ensures known { self.new ≡ after_row self.old row.now }
        ensures reported { FollowsRow T.takes (facts_of_row choice.now self.old row.now) (after_row self.old row.now).fault receiver.old receiver.new result }
        ensures stored { StoresHolds (holds_of_row self.old row.now) ended.old ended.new result }
    {
        if let Some(fault) = self.fault {
            return Err(FollowFault::Wrong(fault));
        }
        let event = match take_row(&mut self.after, row, &mut self.answer, &mut self.written) {
            Ok(event) => event,
            Err(fault) => {
                self.fault = Some(fault);
                return Err(FollowFault::Wrong(fault));
            }
        };
        set_halt(&mut self.answer);
        let taken = Taken {
            place: u64::from(self.before.count()) + 1,
            event: &event,
            before: &self.before,
            after: &self.after,
        };
        let outcome = &self.answer.outcome;
        let read = ReadEvent::new(&event);
        let reported = self.history.report_entry(&taken, outcome, choice, receiver);
        let stored = ended.push(&taken, &read, outcome);
        self.history.take_event(&taken, &read, outcome);
        self.before.take_into(&event, &mut self.answer);
        first_fault(reported, stored)
    }

    /// Returns an empty list of holds, which are stored.
    pub(crate) fn stored_holds(&self) -> EndedHolds
        ensures { result ≡ Some [] }
    {
        EndedHolds::stored(self.history.allocator())
    }

    /// Reports the summary: the holds that ended and those of all slaves of the line that last, and what is counted. It
    /// counts the holds that last to the end, so call it once, after the last row. Returns `OutOfMemory`, and then nothing
    /// is reported, or the fault of the receiver.
    pub(crate) fn report_summary<T: TakesFacts>(
        &mut self,
        line: &LineSpec,
        ended: &EndedHolds,
        receiver: &mut T,
    ) -> Result<(), ExplainFault>
        ensures { LeavesFacts T.takes (followed_summary (description_of line.now) (unwrap_or ended.now []) self.old.known ∷ []) receiver.old receiver.new result }
    {
        let lasting = match self.lasting_holds(line) {
            Ok(lasting) => lasting,
            Err(fault) => return Err(fault),
        };
        self.history
            .report_summary(&self.before, ended.holds(), lasting.as_slice(), receiver)
    }

    /// Returns the holds of all slaves of the line that last. `OutOfMemory` if memory runs out.
    fn lasting_holds(&self, line: &LineSpec) -> Result<Vec<Hold>, ExplainFault>
        ensures { IfOk result (λ lasting. lasting.items ≡ holds_lasting self.now.known.context.world (description_of line.now).slaves) }
    {
        let mut lasting = Vec::new(self.history.allocator());
        match push_lasting(&mut lasting, &self.before, line.slaves.as_slice()) {
            Ok(()) => Ok(lasting),
            Err(_) => Err(ExplainFault::OutOfMemory),
        }
    }
}

/// Opens the line on which a text is judged, before its first entry. Returns `OutOfMemory` if memory runs out.
fn open_before(alloc: Global, line: &LineSpec, header: &str) -> Result<LineState, ExplainFault>
    requires { opening_fault (description_of line.now) ≡ None }
    ensures { MatchResult result (λ state. state.world ≡ first_world (description_of line.now) (places_of_lines (description_of line.now) (lines_of header.now)))
        (λ fault. fault ≡ ExplainFault.OutOfMemory) }
{
    match open_line(alloc, line, header) {
        Ok(state) => Ok(state),
        Err(_) => Err(ExplainFault::OutOfMemory),
    }
}

/// Makes the outcome of an answer that of the halt, if the event reached the last place.
fn set_halt(answer: &mut Step)
    ensures { answer.new ≡ record answer.old { outcome = outcome_with answer.old.outcome answer.old.halted } }
{
    if let Some(addresses) = &answer.halted {
        answer.outcome = Outcome::Released(addresses.clone().unwrap());
    }
}

/// Returns the first fault of two calls.
fn first_fault(
    reported: Result<(), ExplainFault>,
    stored: Result<(), ExplainFault>,
) -> Result<(), FollowFault>
    ensures { result ≡ first_fault reported stored }
{
    match reported.and(stored) {
        Ok(()) => Ok(()),
        Err(fault) => Err(FollowFault::Explain(fault)),
    }
}
