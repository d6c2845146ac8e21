//! The entries of a journal, taken again: what is known before each of them.

ghost use Rattle.std.specs.Prelude.{◌≡◌, ◌-◌, IfOk, OnOk};
ghost use Rattle.dp_text.specs.Words.{lines_of};
ghost use Rattle.dp_line.specs.World.{description_of};
ghost use Rattle.explain_events.specs.ExplainedEntries.{explained_entry_text};
ghost use Rattle.embedded_rack.specs.EntryReasons.{Explains, Replays, context_after, entry_explained, explained_at, first_context, first_result, replayed};

use crate::entry_reason::{EntryReason, ReasonFault, reason_of_event};
use crate::result_row::result_in;
use dp_audit::{Book, Entry, time_after};
use dp_line::{LineSpec, LineState, Step};
use explain_events::{
    EventContext, ExplainedEntry, Noted, ReadEvent, Release, Taken, first_notes, first_releases,
    note_event, note_releases,
};
use std::alloc::{AllocError, Global};
use std::marker::Model;

/// A line that takes the entries of a journal again, one after another. Contracts see what is known after those that it
/// took.
///
/// It has two lines, since an event is explained by the line before and after it.
#[derive(Drop)]
struct Replay<'a> {
    line: &'a LineSpec,
    /// The line before the next entry.
    before: LineState,
    /// The same line, which takes an entry first.
    after: LineState,
    /// The requests whose replies the slaves remember.
    notes: Vec<Noted>,
    /// The last release of each address, at its index.
    releases: Vec<Option<Release>>,
    time: Option<u64>,
    /// A buffer for the answer of a line.
    answer: Step,
}

impl<'a> Model for Replay<'a> {
    ghost use Rattle.std.specs.Prelude.{◌≡◌};
    ghost use Rattle.dp_line.specs.World.{description_of};
    ghost use Rattle.explain_events.specs.EventContexts.{EventContextView};

    ghost Value = { EventContextView };

    ghost view = { λ r. record {
      description = description_of r.line.now;
      world = r.before.world;
      notes = r.notes.items;
      releases = r.releases.items;
      time = r.time;
    } };

    ghost invariant = { λ r. r.after.world ≡ r.before.world };
}

impl<'a> Replay<'a> {
    /// Opens the line at its start, as one that forgets old entries or not. `AllocError` if memory runs out.
    fn open(alloc: Global, line: &'a LineSpec, forgets: bool) -> Result<Replay<'a>, AllocError>
        ensures { IfOk result (λ replay. replay ≡ first_context forgets (description_of line.now)) }
    {
        Ok(Replay {
            line,
            before: line_at_start(alloc, line, forgets)?,
            after: line_at_start(alloc, line, forgets)?,
            notes: first_notes(alloc, line)?,
            releases: first_releases(alloc)?,
            time: None,
            answer: Step::blank(),
        })
    }

    /// Takes the first entries of a journal, those before a place. Returns false if one of them is not stored.
    fn take_before(&mut self, book: &Book, place: u32) -> bool
        ensures { Replays (replayed book.now self.old 1 (place - 1)) self.new result }
    {
        let mut next = 1;
        while next < place {
            match book.entry(next) {
                Some(entry) => self.take(&entry),
                None => return false,
            }
            next += 1;
        }
        true
    }

    /// Takes the next entry.
    fn take(&mut self, entry: &Entry)
        ensures { self.new ≡ context_after self.old entry.now }
    {
        self.after.take_into(&entry.event, &mut self.answer);
        let taken = Taken {
            place: u64::from(entry.place),
            event: &entry.event,
            before: &self.before,
            after: &self.after,
        };
        let event = ReadEvent::new(&entry.event);
        note_event(&mut self.notes, taken.place, &event, &entry.outcome);
        note_releases(&mut self.releases, &taken, &event, &entry.outcome);
        self.time = time_after(self.time, &entry.event);
        self.before.take_into(&entry.event, &mut self.answer);
    }

    /// Returns the facts of the next entry, and sets `sentence` to its sentence. `AllocError` if memory runs out.
    fn explain(
        self,
        alloc: Global,
        entry: &Entry,
        sentence: &mut Vec<u8>,
    ) -> Result<EntryReason, AllocError>
        ensures { IfOk result (λ reason. record { reason = reason; sentence = sentence.new.items } ≡ entry_explained self.entry entry.now) }
    {
        let Replay {
            line,
            before,
            mut after,
            notes,
            releases,
            time,
            mut answer,
        } = self;
        after.take_into(&entry.event, &mut answer);
        let context = EventContext {
            line,
            before: &before,
            notes: notes.as_slice(),
            releases: releases.as_slice(),
            time,
        };
        set_sentence(alloc, &context, &after, entry, sentence)?;
        Ok(reason_of_event(&context, &ReadEvent::new(&entry.event), &entry.outcome))
    }
}

/// Returns the facts of the entry at a place of a journal, and sets `sentence` to its sentence. `line` describes the line,
/// and `forgets` is whether it forgets old entries. Returns `NoEntry` if there is no such entry, or if it or one before it is
/// forgotten; `OutOfMemory`.
pub(crate) fn explain_entry(
    alloc: Global,
    book: &Book,
    line: &LineSpec,
    forgets: bool,
    place: u32,
    sentence: &mut Vec<u8>,
) -> Result<EntryReason, ReasonFault>
    ensures { Explains (explained_at book.now (first_context forgets (description_of line.now)) place) sentence.new.items result }
{
    let Some(entry) = book.entry(place) else {
        return Err(ReasonFault::NoEntry);
    };
    let Ok(mut replay) = Replay::open(alloc, line, forgets) else {
        return Err(ReasonFault::OutOfMemory);
    };
    if replay.take_before(book, place) {
        match replay.explain(alloc, &entry, sentence) {
            Ok(reason) => Ok(reason),
            Err(_) => Err(ReasonFault::OutOfMemory),
        }
    } else {
        Err(ReasonFault::NoEntry)
    }
}

/// Opens a line at its start, as one that forgets old entries or not. `AllocError` if memory runs out.
fn line_at_start(alloc: Global, line: &LineSpec, forgets: bool) -> Result<LineState, AllocError>
    ensures { IfOk result (λ state. state.world ≡ (first_context forgets (description_of line.now)).world) }
{
    let mut state = LineState::open(alloc, line).map_err(|_| AllocError)?;
    if forgets {
        state.lift_limit();
    }
    Ok(state)
}

/// Sets `sentence` to the sentence of an entry. The context is that before it, and `after` the line after it. `AllocError`
/// if memory runs out.
fn set_sentence(
    alloc: Global,
    context: &EventContext<'_>,
    after: &LineState,
    entry: &Entry,
    sentence: &mut Vec<u8>,
) -> Result<(), AllocError>
    ensures { OnOk result (sentence.new.items ≡ first_result (lines_of (explained_entry_text context.now after.now.world entry.now.place entry.now.event entry.now.outcome))) }
{
    let mut rows = String::new(alloc);
    let explained = ExplainedEntry {
        context,
        after,
        place: u64::from(entry.place),
        event: &entry.event,
        outcome: &entry.outcome,
    };
    write!(rows, "{explained}").map_err(|_| AllocError)?;
    sentence.clear();
    sentence.extend_from_slice(result_in(rows.as_bytes()))
}
