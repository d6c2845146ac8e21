//! What is known from the entries so far, besides the state of the line.

ghost use Rattle.std.specs.Prelude.{◌≡◌, ℕ, ◌++◌, IfOk};
ghost use Rattle.dp_line.specs.World.{description_of};
ghost use Rattle.explain_events.specs.Releases.{release_of};
ghost use Rattle.explain_texts.specs.Behind.{known_behind_head};
ghost use Rattle.explain_texts.specs.Known.{first_known, first_world, known_with};
ghost use Rattle.explain_texts.specs.Explained.{chosen_entry, summary_of};
ghost use Rattle.explain_texts.specs.Following.{known_at};
ghost use Rattle.explain_texts.specs.Reports.{LeavesFacts};

use crate::choice::{Choice, is_chosen};
use crate::count_event::count_statistics;
use crate::count_holds::{begin_all_holds, count_all_lasting, moment};
use crate::explain_fault::ExplainFault;
use crate::hold::Hold;
use crate::statistics::{AddressCounts, first_statistics};
use crate::summary::Summary;
use crate::takes_facts::{TakesEntries, TakesFacts};
use crate::tally::{SenderCounts, count_event, first_tally};
use dp_audit::time_after;
use dp_line::{LineSpec, LineState, Outcome};
use explain_events::{
    EventContext, ExplainedEntry, Noted, ReadEvent, Release, Taken, first_notes, first_releases,
    note_event, note_releases, release_of,
};
use std::alloc::{AllocError, Global};

/// What is known from the entries so far, besides the state of the line: the notes, the last releases, the time and the
/// counts.
#[derive(Drop)]
pub(crate) struct History<'a> {
    line: &'a LineSpec,
    notes: Vec<Noted>,
    /// The last release of each address, at its index.
    releases: Vec<Option<Release>>,
    time: Option<u64>,
    tally: Vec<SenderCounts>,
    /// The counts of each address, at its index.
    statistics: Vec<AddressCounts>,
}

impl<'a> History<'a> {
    /// Returns what is known before the first entry. `AllocError` if memory runs out.
    pub(crate) fn new(alloc: Global, line: &'a LineSpec) -> Result<History<'a>, AllocError>
        ensures { IfOk result (λ history. (places : ℕ) → known_at history (first_world (description_of line.now) places) ≡ first_known (description_of line.now) places) }
    {
        let notes = first_notes(alloc, line)?;
        let releases = first_releases(alloc)?;
        let tally = first_tally(alloc, line.masters.as_slice())?;
        let statistics = first_statistics(alloc)?;
        Ok(History {
            line,
            notes,
            releases,
            time: None,
            tally,
            statistics,
        })
    }

    /// Returns what is known behind a head of this world and time: nothing of the entries before it, and the slaves that are
    /// held are so since this time. `AllocError` if memory runs out.
    pub(crate) fn behind(
        alloc: Global,
        line: &'a LineSpec,
        state: &LineState,
        time: Option<u64>,
    ) -> Result<History<'a>, AllocError>
        ensures { IfOk result (λ history. known_at history state.now.world ≡ known_behind_head (description_of line.now) (record { world = state.now.world; time = time })) }
    {
        let mut history = History::new(alloc, line)?;
        let slaves = line.slaves.as_slice();
        begin_all_holds(&mut history.statistics, state, moment(time), slaves);
        history.time = time;
        Ok(history)
    }

    /// Returns the allocator of what is known.
    pub(crate) fn allocator(&self) -> Global {
        *self.notes.allocator()
    }

    /// Returns the sum of the ticks, in units of 10 ms; None before the first tick.
    pub(crate) fn time(&self) -> Option<u64>
        ensures { result ≡ self.now.time }
    {
        self.time
    }

    /// Returns the last release of the slave at this address; None if it was not released.
    pub(crate) fn release(&self, address: u8) -> Option<Release>
        ensures { result ≡ release_of self.now.releases.items address }
    {
        release_of(self.releases.as_slice(), address)
    }

    /// Returns the counts of each sender.
    pub(crate) fn senders(&self) -> &[SenderCounts]
        ensures { result.now ≡ self.now.tally.items }
    {
        self.tally.as_slice()
    }

    /// Reports the entry of an event, if it is chosen.
    pub(crate) fn report_entry<T: TakesEntries>(
        &self,
        taken: &Taken<'_>,
        outcome: &Outcome,
        choice: &Choice,
        receiver: &mut T,
    ) -> Result<(), ExplainFault>
        ensures { LeavesFacts T.takes (chosen_entry choice.now (known_at self.now taken.now.before.now.world).context taken.now.after.now.world taken.now.place taken.now.event.now outcome.now)
            receiver.old receiver.new result }
    {
        let context = EventContext {
            line: self.line,
            before: taken.before,
            notes: self.notes.as_slice(),
            releases: self.releases.as_slice(),
            time: self.time,
        };
        if !is_chosen(choice, &context, taken.place, taken.event, outcome) {
            return Ok(());
        }
        let explained_entry = ExplainedEntry {
            context: &context,
            after: taken.after,
            place: taken.place,
            event: taken.event,
            outcome,
        };
        receiver.take_entry(&explained_entry)
    }

    /// Counts and notes an event.
    pub(crate) fn take_event(&mut self, taken: &Taken<'_>, event: &ReadEvent<'_>, outcome: &Outcome)
        requires { event.now ≡ taken.now.event.now }
        ensures { known_at self.new taken.now.after.now.world
            ≡ known_with (known_at self.old taken.now.before.now.world) taken.now.after.now.world taken.now.place taken.now.event.now outcome.now }
    {
        let context = EventContext {
            line: self.line,
            before: taken.before,
            notes: self.notes.as_slice(),
            releases: self.releases.as_slice(),
            time: self.time,
        };
        count_event(&mut self.tally, &context, event, outcome);
        count_statistics(&mut self.statistics, &context, taken.after, event, outcome);
        note_event(&mut self.notes, taken.place, event, outcome);
        note_releases(&mut self.releases, taken, event, outcome);
        self.time = time_after(self.time, taken.event);
    }

    /// Reports these holds and what is counted, after the last entry, after which the line is `line`. It counts the holds
    /// that last to the end, so call it once.
    pub(crate) fn report_summary<T: TakesFacts>(
        &mut self,
        line: &LineState,
        ended: &[Hold],
        lasting: &[Hold],
        receiver: &mut T,
    ) -> Result<(), ExplainFault>
        ensures { T.takes receiver.old (summary_of (ended.now ++ lasting.now) (known_at self.old line.now.world)) result receiver.new }
    {
        let time = moment(self.time);
        let slaves = self.line.slaves.as_slice();
        count_all_lasting(&mut self.statistics, line, time, slaves);
        let summary = Summary {
            line: self.line,
            ended,
            lasting,
            tally: self.tally.as_slice(),
            statistics: self.statistics.as_slice(),
        };
        receiver.take_summary(&summary)
    }
}
