//! The judges of the masters of a line.

ghost use Rattle.std.specs.Prelude.{◌≡◌, find, position, IfOk};
ghost use Rattle.std.specs.List.{list_any};
ghost use Rattle.std.specs.Option.{option_copied};
ghost use Rattle.judge_findings.specs.Counts.{has_error};
ghost use Rattle.judge_findings.specs.Tested.{is_untested};
ghost use Rattle.judge_findings.specs.Lines.{first_line_judge, first_seats, is_seat_of, taken_at, time_with};

use crate::seat::Seat;
use crate::tested::Least;
use crate::untested::is_untested;
use dp_line::{Event, Op};
use judge_rules::{Entry, JudgeRule};
use std::alloc::{AllocError, Global};
use std::marker::Model;

/// The judges of the masters of a line, and the time of the line. Contracts see both.
#[derive(Drop)]
pub struct LineJudge {
    seats: Vec<Seat>,
    /// The sum of the ticks so far, in units of 10 ms; it stops at the largest number of 64 bits.
    time: u64,
}

impl Model for LineJudge {
    ghost use Rattle.judge_findings.specs.Lines.{LineJudgeView};

    ghost Value = { LineJudgeView };

    ghost view = { λ j. record { seats = j.seats.items; time = j.time } };
}

impl LineJudge {
    /// Returns the judges of these masters before the first entry. Each may send a request again this many times.
    /// `AllocError` if memory runs out.
    pub fn new(alloc: Global, masters: &[u8], retries: u8) -> Result<LineJudge, AllocError>
        ensures { IfOk result (λ judge. judge ≡ first_line_judge masters.now retries) }
    {
        let seats = new_seats(alloc, masters, retries)?;
        Ok(LineJudge { seats, time: 0 })
    }

    /// Returns the judges, in the order of the masters.
    pub fn seats(&self) -> &[Seat]
        ensures { result.now ≡ self.now.seats }
    {
        self.seats.as_slice()
    }

    /// Returns the judge of a master; None if the line has no such master.
    pub fn seat_of(&self, master: u8) -> Option<&Seat>
        ensures { option_copied result ≡ find (is_seat_of master) self.now.seats }
    {
        seat_in(self.seats.as_slice(), master)
    }

    /// Returns the sum of the ticks so far, in units of 10 ms.
    pub fn time(&self) -> u64
        ensures { result ≡ self.now.time }
    {
        self.time
    }

    /// Takes the next entry of a master, and counts which of these rules it breaks. An entry of a master that the line does
    /// not have changes nothing.
    pub fn take(&mut self, master: u8, entry: &Entry, place: u64, rules: &[JudgeRule])
        ensures { self.new ≡ record self.old { seats = taken_at master entry.now place rules.now self.old.seats } }
    {
        take_in(self.seats.as_mut_slice(), master, entry, place, rules);
    }

    /// Counts the time that an event passes.
    pub fn pass_time(&mut self, event: &Event)
        ensures { self.new ≡ record self.old { time = time_with self.old.time event.now } }
    {
        match event {
            Event::Operator(Op::Tick(units)) => {
                self.time = self.time.saturating_add(u64::from(*units));
            }
            Event::Operator(Op::Input { .. }) => {}
            Event::Operator(Op::Diag { .. }) => {}
            Event::Operator(Op::Busy { .. }) => {}
            Event::Operator(Op::Halt) => {}
            Event::Request { .. } => {}
        }
    }

    /// Returns whether a master broke one of these rules whose severity is error.
    pub fn has_error(&self, rules: &[JudgeRule]) -> bool
        ensures { result ≡ list_any (λ seat. has_error seat.counts rules.now) self.now.seats }
    {
        any_error(self.seats.as_slice(), rules)
    }

    /// Returns whether a master sent fewer requests than are required, or fewer Data_Exchanges of the masters were answered.
    pub fn is_untested(&self, least: Least) -> bool
        ensures { result ≡ is_untested least self.now.seats }
    {
        is_untested(self.seats.as_slice(), least)
    }
}

/// Returns the judges of these masters before the first entry. `AllocError` if memory runs out.
fn new_seats(alloc: Global, masters: &[u8], retries: u8) -> Result<Vec<Seat>, AllocError>
    ensures { IfOk result (λ seats. seats.items ≡ first_seats retries masters.now) }
{
    let mut seats = Vec::with_capacity(alloc, masters.len())?;
    for master in masters {
        let seat = Seat::new(alloc, *master, retries)?;
        seats.push(seat)?;
    }
    Ok(seats)
}

/// Returns the judge of a master; None if there is none.
fn seat_in(seats: &[Seat], master: u8) -> Option<&Seat>
    ensures { option_copied result ≡ find (is_seat_of master) seats.now }
{
    seats.iter().find(|seat| seat.is_of(master))
}

/// Returns the index of the judge of a master; None if there is none.
fn index_of(seats: &[Seat], master: u8) -> Option<usize>
    ensures { result ≡ position (is_seat_of master) seats.now }
{
    seats.iter().position(|seat| seat.is_of(master))
}

/// Takes the next entry of a master. See [`LineJudge::take`].
fn take_in(seats: &mut [Seat], master: u8, entry: &Entry, place: u64, rules: &[JudgeRule])
    ensures { seats.new ≡ taken_at master entry.now place rules.now seats.old }
{
    if let Some(index) = index_of(seats, master) {
        seats[index].take(entry, place, rules);
    }
}

/// Returns whether one of these masters broke one of these rules whose severity is error.
fn any_error(seats: &[Seat], rules: &[JudgeRule]) -> bool
    ensures { result ≡ list_any (λ seat. has_error seat.counts rules.now) seats.now }
{
    seats.iter().any(|seat| seat.has_error(rules))
}
