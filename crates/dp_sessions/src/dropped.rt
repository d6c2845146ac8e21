//! Octets that a session drops.

ghost use Rattle.std.specs.Prelude.{◌≡◌, ◌-◌, ◌≤◌, ◌++◌, length, take};
ghost use Rattle.dp_sessions.specs.Dropped.{with_later, with_piece};

use arrayvec::ArrayVec;
use dp_telegram::{FrameFault, WrongEnd, wrong_end};

/// How many of the octets are kept at most.
const MOST_FIRST: usize = 16;

/// Octets of a master that are no frame and were dropped, with no frame between them (own). By default there are none.
#[derive(Debug, Default, Drop, PartialEq, Eq)]
pub struct DroppedOctets {
    /// The number of octets. It stops at 4,294,967,295.
    pub count: u32,
    /// An octet was dropped that starts no frame.
    pub no_start: bool,
    /// The first octet of a wrong head was dropped.
    pub bad_head: bool,
    /// A whole frame with a wrong check sequence or end delimiter was dropped.
    pub bad_end: bool,
    /// The first of the octets, at most 16.
    pub first: ArrayVec<u8, MOST_FIRST>,
    /// The end of the first frame that was dropped with a wrong end.
    pub wrong_end: Option<WrongEnd>,
}

impl DroppedOctets {
    /// Adds the octets of a piece, at most 255, that was dropped with this fault.
    pub fn add(&mut self, fault: FrameFault, octets: &[u8])
        requires { length octets.now ≤ 255 }
        ensures { self.new ≡ with_piece self.old fault octets.now }
    {
        self.count = self.count.saturating_add(octets.len() as u32);
        self.no_start |= fault == FrameFault::NoStart;
        self.bad_head |= fault == FrameFault::BadHead;
        self.bad_end |= fault == FrameFault::BadEnd;
        keep_first(&mut self.first, octets);
        self.wrong_end = self.wrong_end.or(wrong_end(octets));
    }

    /// Adds what was dropped later.
    pub fn add_later(&mut self, later: &DroppedOctets)
        ensures { self.new ≡ with_later self.old later.now }
    {
        self.count = self.count.saturating_add(later.count);
        self.no_start |= later.no_start;
        self.bad_head |= later.bad_head;
        self.bad_end |= later.bad_end;
        keep_first(&mut self.first, &later.first);
        self.wrong_end = self.wrong_end.or(later.wrong_end);
    }
}

/// Appends the octets, as far as there is room.
fn keep_first(first: &mut ArrayVec<u8, MOST_FIRST>, octets: &[u8])
    ensures { first.new.items ≡ first.old.items ++ take (16 - length first.old.items) octets.now }
{
    let room = MOST_FIRST.saturating_sub(first.len()).min(octets.len());
    let _ = first.try_extend_from_slice(&octets[..room]);
}
