//! The times of the entries of a text.

ghost use Rattle.std.specs.Prelude.{◌≡◌, ◌<◌, ◌≤◌, ◌-◌, [], length, nat_lt, slice_get, OnOk};
ghost use Rattle.entry_times.specs.PlaceTimes.{AreInOrder, IsAround, between, interpolated, is_above, last_of, nearest, row_before, row_from, rows_before, time_by, time_of, with_row};

use crate::entry_time::EntryTime;
use crate::time_row::TimeRow;
use std::alloc::{AllocError, Global};

/// The rows of times of an audit text, in the order of their places.
#[derive(Drop)]
pub struct EntryTimes {
    rows: Vec<TimeRow>,
    ghost order: { AreInOrder rows.items },
}

impl EntryTimes {
    /// Returns no rows.
    pub fn new(alloc: Global) -> EntryTimes
        ensures { result.rows.items ≡ [] }
    {
        EntryTimes {
            rows: Vec::new(alloc),
        }
    }

    /// Adds a row behind the others. One whose place is not above that of the last row is left out, as at the beginning of a part,
    /// whose file also has rows that that of the part before it has. `AllocError` if memory runs out.
    pub fn push(&mut self, row: TimeRow) -> Result<(), AllocError>
        ensures { OnOk result (self.new.rows.items ≡ with_row self.old.rows.items row) }
    {
        if !is_above(self.rows.as_slice(), row.place) {
            return Ok(());
        }
        match self.rows.push(row) {
            Ok(()) => Ok(()),
            Err(_) => Err(AllocError),
        }
    }

    /// Returns whether there is no row.
    pub fn is_empty(&self) -> bool
        ensures { result ≡ nat_lt (length self.now.rows.items) 1 }
    {
        self.rows.len() < 1
    }

    /// Returns the time of a place: that of its row, or a time that is interpolated between the row before it and the one behind it.
    /// Returns None before the first row, behind the last one, and between two rows of which the second has the earlier time: the
    /// clock was set back between them.
    pub fn time_of(&self, place: u64) -> Option<EntryTime>
        ensures { result ≡ time_of self.now.rows.items place }
    {
        let (before, from) = self.around(place);
        time_by(before, from, place)
    }

    /// Returns the milliseconds since 1970 of a place. If it has no time, they are those of the last row before it, or else of the
    /// first row. Returns None if there is no row.
    pub fn nearest(&self, place: u64) -> Option<u64>
        ensures { result ≡ nearest self.now.rows.items place }
    {
        let (before, from) = self.around(place);
        if let Some(time) = time_by(before, from, place) {
            return Some(time.milliseconds());
        }
        match before {
            Some(before) => Some(before.milliseconds),
            None => match from {
                Some(from) => Some(from.milliseconds),
                None => None,
            },
        }
    }

    /// Returns the last row of a place before this one, and the first row behind it.
    fn around(&self, place: u64) -> (Option<TimeRow>, Option<TimeRow>)
        ensures before { result.0 ≡ row_before self.now.rows.items place }
        ensures from { result.1 ≡ row_from self.now.rows.items place }
        ensures around { IsAround result.0 result.1 place }
    {
        let count = self.count_before(place);
        let rows = self.rows.as_slice();
        (last_of(rows, count), row_at(rows, count))
    }

    /// Returns how many rows are of places before this one.
    fn count_before(&self, place: u64) -> usize
        ensures count { result ≡ rows_before place self.now.rows.items }
    {
        self.rows.as_slice().partition_point(
            |row: &TimeRow| -> bool
                ensures { result ≡ nat_lt row.now.place place }
            { u64::from(row.place) < place },
        )
    }
}

/// Returns whether a place is above that of the last of these rows.
fn is_above(rows: &[TimeRow], place: u32) -> bool
    ensures { result ≡ is_above (slice_get rows.now (length rows.now - 1)) place }
{
    match rows.last() {
        Some(last) => last.place < place,
        None => true,
    }
}

/// Returns the last of this many rows; None if it is none.
fn last_of(rows: &[TimeRow], count: usize) -> Option<TimeRow>
    ensures { result ≡ last_of rows.now count }
{
    match count.checked_sub(1) {
        Some(index) => row_at(rows, index),
        None => None,
    }
}

/// Returns the row at this index; None if there is none.
fn row_at(rows: &[TimeRow], index: usize) -> Option<TimeRow>
    ensures { result ≡ slice_get rows.now index }
{
    rows.get(index).copied()
}

/// Returns the time of a place by the last row before it and the first row from it on.
fn time_by(before: Option<TimeRow>, from: Option<TimeRow>, place: u64) -> Option<EntryTime>
    requires { IsAround before from place }
    ensures { result ≡ time_by before from place }
{
    let from = from?;
    if u64::from(from.place) == place {
        return Some(EntryTime::Recorded(from.milliseconds));
    }
    between(before?, from, place)
}

/// Returns the time of a place between two rows; None if the second one has the earlier time.
fn between(before: TimeRow, after: TimeRow, place: u64) -> Option<EntryTime>
    requires { (before.place < place) × (place < after.place) }
    ensures { result ≡ between before after place }
{
    if before.milliseconds > after.milliseconds {
        return None;
    }
    Some(EntryTime::Between(interpolated(before, after, place)))
}

/// Returns the milliseconds of a place between two rows.
fn interpolated(before: TimeRow, after: TimeRow, place: u64) -> u64
    requires order { before.milliseconds ≤ after.milliseconds }
    requires within { (before.place < place) × (place < after.place) }
    ensures { result ≡ interpolated before after place }
{
    let passed = u128::from(after.milliseconds - before.milliseconds);
    let part = u128::from(place - u64::from(before.place));
    let whole = u128::from(after.place - before.place);
    before.milliseconds + (passed * part / whole) as u64
}
