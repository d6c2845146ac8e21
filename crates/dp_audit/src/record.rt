//! The packed record of one entry, copied.

ghost use Rattle.std.specs.Prelude.{◌≡◌, ◌≤◌, [], true, false, length, None, Some, MatchOption};
ghost use Rattle.dp_audit.specs.AuditText.{entry_text, line_text};
ghost use Rattle.dp_audit.specs.Unpacked.{entry_in, parts_in};

use crate::entry::Entry;
use crate::unpacking::{read_entry, read_event, read_facts, read_outcome};
use crate::writing::set_parts;
use arrayvec::ArrayVec;
use dp_text::Text;
use std::marker::Model;

/// The maximum number of octets in one record, with its head.
pub(crate) const LONGEST: usize = 520;

/// The packed record of an entry, copied from a journal; or of no entry.
///
/// Contracts see the entry.
#[derive(Drop)]
pub struct Record {
    place: u32,
    octets: ArrayVec<u8, LONGEST>,
}

impl Model for Record {
    ghost use Rattle.std.specs.Prelude.{Option};
    ghost use Rattle.dp_audit.specs.declared.entry.Entry.{Entry};
    ghost use Rattle.dp_audit.specs.Unpacked.{entry_in};

    ghost Value = { Option Entry };

    ghost view = { λ r. entry_in r.place r.octets.items };
}

impl Record {
    /// Returns a record of no entry.
    #[tactic(auto, unfolding(crate::specs::Unpacked::entry_in))]
    pub fn blank() -> Record
        ensures { result ≡ None }
    {
        Record {
            place: 0,
            octets: ArrayVec::new(),
        }
    }

    /// Copies the octets of a record, whose entry has this place.
    pub(crate) fn copy(&mut self, place: u32, octets: &[u8])
        requires { length octets.now ≤ 520 }
        ensures { self.new ≡ entry_in place octets.now }
    {
        self.place = place;
        self.octets.clear();
        self.octets.try_extend_from_slice(octets).unwrap();
    }

    /// Clears the record, so that it is one of no entry.
    #[tactic(auto, unfolding(crate::specs::Unpacked::entry_in))]
    pub(crate) fn clear(&mut self)
        ensures { self.new ≡ None }
    {
        self.octets.clear();
    }

    /// Returns the entry, or None if there is none.
    pub fn entry(&self) -> Option<Entry>
        ensures { result ≡ self.now }
    {
        read_entry(self.place, &self.octets)
    }

    /// Sets a text to the line of the entry, with its LF, and returns true. If there is no entry, clears the
    /// text and returns false.
    pub fn set_line(&self, text: &mut Text) -> bool
        ensures { MatchOption self.now ((result ≡ false) × (text.new ≡ [])) (λ entry. (result ≡ true) × (text.new ≡ line_text (entry_text entry))) }
    {
        text.clear();
        self.put_line(text).is_some()
    }

    /// Sets an empty text to the line of the entry. If there is no entry, returns None and the text stays
    /// empty.
    #[tactic(auto, unfolding(crate::specs::Unpacked::entry_in))]
    fn put_line(&self, text: &mut Text) -> Option<()>
        requires { text.old ≡ [] }
        ensures { MatchOption self.now ((result ≡ None) × (text.new ≡ [])) (λ entry. (result ≡ Some tt) × (text.new ≡ line_text (entry_text entry))) }
    {
        let [_, _, octets @ ..] = self.octets.as_slice() else {
            return None;
        };
        put_parts(text, self.place, octets)
    }
}

/// Sets an empty text to the line of the entry in the octets after a record's head. If they are no entry,
/// returns None and the text stays empty.
fn put_parts(text: &mut Text, place: u32, octets: &[u8]) -> Option<()>
    requires { text.old ≡ [] }
    ensures { MatchOption (parts_in place octets.now) ((result ≡ None) × (text.new ≡ [])) (λ entry. (result ≡ Some tt) × (text.new ≡ line_text (entry_text entry))) }
{
    let (event, octets) = read_event(octets)?;
    let (facts, octets) = read_facts(octets)?;
    let (outcome, _) = read_outcome(octets)?;
    set_parts(text, place, &event, &facts, &outcome);
    Some(())
}
