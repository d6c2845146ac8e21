//! Recording the entries of lines before the answers to their events are sent.

ghost use Rattle.std.specs.Prelude.{ℕ, IfSome, OnOk};

use crate::fault::TrailBreak;
use std::sync::Wait;

/// Records the entries of lines. The gate of a session has the entry of an event recorded before the answer is sent.
pub trait RecordEntries {
    /// The entry at this place of the line with this number is recorded.
    ghost recorded: { Self → ℕ → ℕ → Type 0 };

    /// All entries are recorded that there were at some look.
    ghost caught_up: { Self → Type 0 };

    /// Records all entries of the line with this number, also if there is no place, and up to the place at least, if there
    /// is one. It waits.
    ///
    /// Returns the reason if an entry was not recorded, now or before.
    fn record<T: Wait>(&self, rt: &T, line: u8, place: Option<u32>) -> Result<(), TrailBreak>
        ensures all { OnOk result (caught_up self.now) }
        ensures row { OnOk result (IfSome place (recorded self.now line)) };
}

/// Records nothing: for lines that have no trail. It says nothing of their entries, and its type is that of no trail.
#[derive(Clone, Copy, Debug, PartialEq, Eq)]
pub struct NoTrail;

impl RecordEntries for NoTrail {
    ghost recorded = { λ none line place. Unit {0} };

    ghost caught_up = { λ none. Unit {0} };

    fn record<T: Wait>(&self, _rt: &T, _line: u8, place: Option<u32>) -> Result<(), TrailBreak> {
        match place {
            Some(_) => Ok(()),
            None => Ok(()),
        }
    }
}
