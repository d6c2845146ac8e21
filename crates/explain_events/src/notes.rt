//! The requests whose replies the slaves remember.

ghost use Rattle.std.specs.Prelude.{◌≡◌, ◌++◌, map, position, OnOk, IfOk, Some};
ghost use Rattle.std.specs.Option.{option_copied};
ghost use Rattle.dp_cfg.specs.Choosing.{same_octets};
ghost use Rattle.explain_events.specs.Notes.{unnoted, first_notes, is_note_of, note_of, noted_at, is_judged_anew, noted_telegram, notes_after};
ghost use Rattle.explain_events.specs.Ways.{is_retry};

use crate::frames::telegram_in;
use crate::read_event::ReadEvent;
use crate::words::same_octets;
use arrayvec::ArrayVec;
use dp_line::{Event, LineSpec, Outcome};
use dp_responder::Rule;
use dp_telegram::{Octets, TelegramLent};
use std::alloc::{AllocError, Global};

/// The last request of a master that a slave judged and replied to, other than by a repeat.
#[derive(Drop)]
pub struct Noted {
    /// The slave, 0 to 126.
    pub slave: u8,
    /// The master, 0 to 126.
    pub master: u8,
    /// The place of the request, from 1; 0 if there was no such request.
    pub place: u64,
    /// The octets of its whole frame; empty if there was no such request.
    pub octets: Octets,
}

impl Noted {
    /// Returns whether the note is for this slave and this master.
    fn is_of(&self, slave: u8, master: u8) -> bool
        ensures { result ≡ is_note_of slave master self.now }
    {
        self.slave == slave && self.master == master
    }

    /// Notes another request.
    fn set(&mut self, place: u64, octets: &Octets)
        ensures { self.new ≡ record self.old { place = place; octets = octets.now } }
    {
        self.place = place;
        self.octets.clear();
        self.octets
            .try_extend_from_slice(octets.as_slice())
            .unwrap();
    }

    /// Returns whether these are the octets of the request.
    pub(crate) fn has_octets(&self, octets: &[u8]) -> bool
        ensures { result ≡ same_octets self.now.octets.items octets.now }
    {
        same_octets(self.octets.as_slice(), octets)
    }

    /// Returns whether a repeat of these octets is a retry of the request, or the request is not known.
    pub(crate) fn is_retried_by(&self, octets: &[u8]) -> bool
        ensures { result ≡ is_retry (Some self.now) octets.now }
    {
        self.place == 0 || self.has_octets(octets)
    }
}

/// Returns the note for a slave and a master; None if there is none.
pub(crate) fn note_of(notes: &[Noted], slave: u8, master: u8) -> Option<&Noted>
    ensures { option_copied result ≡ note_of notes.now slave master }
{
    notes.iter().find(|noted| noted.is_of(slave, master))
}

/// Notes a request from a master to a slave, with its place and the octets of its frame.
fn note(notes: &mut [Noted], slave: u8, master: u8, place: u64, octets: &Octets)
    ensures { notes.new ≡ noted_at slave master place octets.now notes.old }
{
    if let Some(index) = index_of(notes, slave, master) {
        notes[index].set(place, octets);
    }
}

/// Returns the index of the note for a slave and a master; None if there is none.
fn index_of(notes: &[Noted], slave: u8, master: u8) -> Option<usize>
    ensures { result ≡ position (is_note_of slave master) notes.now }
{
    notes.iter().position(|noted| noted.is_of(slave, master))
}

/// Notes an event at a place, by its outcome. Only requests that a slave judged and replied to change the notes.
pub fn note_event(notes: &mut Vec<Noted>, place: u64, event: &ReadEvent<'_>, outcome: &Outcome)
    ensures { notes.new.items ≡ notes_after notes.old.items place event.now outcome.now }
{
    note_in(notes.as_mut_slice(), place, event, outcome);
}

/// Notes an event in this slice of notes. See [`note_event`].
fn note_in(notes: &mut [Noted], place: u64, event: &ReadEvent<'_>, outcome: &Outcome)
    ensures { notes.new ≡ notes_after notes.old place event.now outcome.now }
{
    match event.event() {
        Event::Request { master, octets } => match outcome {
            Outcome::Reply { rule, .. } => {
                note_request(
                    notes,
                    place,
                    *master,
                    octets,
                    *rule,
                    telegram_in(event.request()),
                )
            }
            Outcome::Silence(_) => {}
            Outcome::Spread(_) => {}
            Outcome::Released(_) => {}
            Outcome::Done => {}
            Outcome::Refused(_) => {}
        },
        Event::Operator(_) => {}
    }
}

/// Notes a request that was replied to, if it is an SRD and no repeat; `telegram` is what its octets spell.
fn note_request(
    notes: &mut [Noted],
    place: u64,
    master: u8,
    octets: &Octets,
    rule: Rule,
    telegram: Option<TelegramLent<'_>>,
)
    ensures { notes.new ≡ noted_telegram notes.old place master octets.now rule telegram.entry }
{
    let Some(telegram) = telegram else {
        return;
    };
    if is_judged_anew(rule) && telegram.function().is_srd() {
        note(notes, telegram.destination(), master, place, octets);
    }
}

/// Returns whether the rule shows that the request was no repeat.
fn is_judged_anew(rule: Rule) -> bool
    ensures { result ≡ is_judged_anew rule }
{
    match rule {
        Rule::Repeat => false,
        Rule::Halted
        | Rule::NoFrame
        | Rule::NoMaster
        | Rule::ForeignSender
        | Rule::Token
        | Rule::NotRequest
        | Rule::BadFunction
        | Rule::BadExtension
        | Rule::BadBroadcast
        | Rule::NoStation
        | Rule::Status
        | Rule::NoService
        | Rule::NotActive
        | Rule::NotHolder
        | Rule::NotListed
        | Rule::Busy
        | Rule::Length
        | Rule::NotSelected
        | Rule::Done => true,
    }
}

/// Returns the notes of a new line: one for each slave and each master, without a request. `AllocError` if memory runs
/// out.
pub fn first_notes(alloc: Global, line: &LineSpec) -> Result<Vec<Noted>, AllocError>
    ensures { IfOk result (λ notes. notes.items ≡ first_notes (map (λ slave. slave.address) line.now.slaves.items) line.now.masters.items) }
{
    let mut notes = Vec::new(alloc);
    for slave in line.slaves.as_slice() {
        push_slave(&mut notes, slave.address, line.masters.as_slice())?;
    }
    Ok(notes)
}

/// Appends a note without a request for a slave and each of these masters. `AllocError` if memory runs out.
fn push_slave(notes: &mut Vec<Noted>, slave: u8, masters: &[u8]) -> Result<(), AllocError>
    ensures { OnOk result (notes.new.items ≡ notes.old.items ++ map (unnoted slave) masters.now) }
{
    for master in masters {
        notes.push(Noted {
            slave,
            master: *master,
            place: 0,
            octets: ArrayVec::new(),
        })?;
    }
    Ok(())
}
