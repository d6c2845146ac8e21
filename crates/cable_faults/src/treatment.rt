//! What becomes of a telegram.

ghost use Rattle.std.specs.Prelude.{◌≡◌, ◌≤◌, length, slice_set};
ghost use Rattle.cable_faults.specs.Treatments.{is_fault as is_fault_of, lateness as lateness_of, sent_of};

use arrayvec::ArrayVec;
use dp_telegram::Octets;

/// What becomes of a telegram on the cable (own).
#[derive(Clone, Copy, Debug, PartialEq, Eq)]
pub enum Treatment {
    /// It is passed on unchanged.
    Passed,
    /// It is a token that is not passed on, which is no fault.
    Withheld,
    /// It is lost.
    Lost,
    /// One of its octets is changed, and it has no right check sequence or no start delimiter any more.
    Spoilt {
        /// The place of the octet, from 0.
        place: u8,
        /// What it becomes.
        octet: u8,
    },
    /// Only its first octets are passed on.
    Cut {
        /// The number of these octets.
        count: u8,
    },
    /// It is passed on unchanged, but late.
    Late {
        /// The milliseconds for which it is late.
        milliseconds: u32,
    },
}

impl Treatment {
    /// Returns the octets that go out in place of these, at most 255.
    pub fn sent(self, octets: &[u8]) -> Octets
        requires { length octets.now ≤ 255 }
        ensures { result.items ≡ sent_of self octets.now }
    {
        match self {
            Treatment::Passed => copied(octets),
            Treatment::Withheld => ArrayVec::new(),
            Treatment::Lost => ArrayVec::new(),
            Treatment::Spoilt { place, octet } => replaced(octets, usize::from(place), octet),
            Treatment::Cut { count } => copied(&octets[..octets.len().min(usize::from(count))]),
            Treatment::Late { .. } => copied(octets),
        }
    }

    /// Returns whether this is a fault, of which the log has a row.
    pub fn is_fault(self) -> bool
        ensures { result ≡ is_fault_of self }
    {
        match self {
            Treatment::Passed => false,
            Treatment::Withheld => false,
            Treatment::Lost => true,
            Treatment::Spoilt { .. } => true,
            Treatment::Cut { .. } => true,
            Treatment::Late { .. } => true,
        }
    }

    /// Returns the milliseconds for which the telegram is late.
    pub fn lateness(self) -> u32
        ensures { result ≡ lateness_of self }
    {
        match self {
            Treatment::Passed => 0,
            Treatment::Withheld => 0,
            Treatment::Lost => 0,
            Treatment::Spoilt { .. } => 0,
            Treatment::Cut { .. } => 0,
            Treatment::Late { milliseconds } => milliseconds,
        }
    }
}

/// Returns a copy of octets.
pub(crate) fn copied(octets: &[u8]) -> Octets
    requires { length octets.now ≤ 255 }
    ensures { result.items ≡ octets.now }
{
    ArrayVec::try_from(octets).unwrap()
}

/// Returns a copy of octets with another octet at a place; a copy of all if they do not reach this place.
fn replaced(octets: &[u8], place: usize, octet: u8) -> Octets
    requires { length octets.now ≤ 255 }
    ensures { result.items ≡ slice_set octets.now place octet }
{
    let mut copy = copied(octets);
    set_octet(copy.as_mut_slice(), place, octet);
    copy
}

/// Replaces the octet at a place; does nothing if the octets do not reach this place.
fn set_octet(octets: &mut [u8], place: usize, octet: u8)
    ensures { octets.new ≡ slice_set octets.old place octet }
{
    if place < octets.len() {
        octets[place] = octet;
    }
}
