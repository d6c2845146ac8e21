//! Streams of octets into frames.
//!
//! The cutter lends a piece by two calls: [`Cutter::front`] lends it, and [`Cutter::pass`] drops
//! it. One call that returns a borrow of `&mut self` would need a contract about a value that is
//! still borrowed. [`Cutter::next`] is for a client that needs the piece as a value.

ghost use Rattle.std.specs.Prelude.{◌≡◌, ◌+◌, ◌-◌, ◌<◌, ◌≤◌, ◌↔◌, ℕ, List, [], ◌++◌, length, take, drop, min, slice_range, option_map, IfSome, OnSome, IfNone, IsNone, IsTrue, Some};
ghost use Rattle.dp_telegram.specs.declared.cutter.Cut.TheVariants as pieces;
ghost use Rattle.dp_telegram.specs.FrameText.{fault_of, delimiter, is_start, end_is_right, head_is_right, frame_length, frame_at};
ghost use Rattle.dp_telegram.specs.Stream.{piece_of, left_of, cut_lent, frame_in_front, cut_length, StartsWith, StartsWithNone, cuts_of, uncut, with_handed};

use crate::decoding::{fault_in, frame_size};
use crate::fault::FrameFault;
use crate::frame::{Frame, MOST_OCTETS, Octets};
use crate::lent::{WholeFrame, frame_in};
use arrayvec::ArrayVec;
use std::marker::Model;

/// The size of the buffer, twice the 255 octets that are held at most. The octets held, then at
/// most 254, move to the front only after at least 256 were handed out. So on average no octet
/// moves more than once.
const ROOM: usize = 510;

/// A piece of a stream.
#[derive(Clone, Debug, Drop, PartialEq, Eq)]
pub enum Cut {
    /// A frame.
    Frame {
        /// Its content.
        frame: Frame,
        /// Its octets, as received.
        octets: Octets,
    },
    /// Octets that are no frame and are dropped (own).
    Dropped {
        /// `NoStart`: one octet that starts no frame. `BadHead`: the first octet of a wrong SD2
        /// head. `BadEnd`: a whole frame with a wrong check sequence or end delimiter.
        fault: FrameFault,
        /// The number of octets, 1 to 255.
        count: u8,
    },
}

/// A piece of a stream whose octets are lent in place: the same piece as a [`Cut`], with nothing
/// copied and nothing decoded.
#[derive(Debug, Drop)]
pub enum Piece<'a> {
    /// A frame.
    Frame(WholeFrame<'a>),
    /// Octets that are no frame and are dropped, as in [`Cut::Dropped`].
    Dropped {
        /// The reason why they are dropped.
        fault: FrameFault,
        /// The number of octets, 1 to 255.
        count: u8,
    },
}

impl Piece<'_> {
    /// Returns the number of octets of the piece.
    pub fn size(&self) -> usize
        ensures { result ≡ cut_length (cut_lent self.now) }
    {
        match self {
            Piece::Frame(frame) => frame.octets().len(),
            Piece::Dropped { count, .. } => usize::from(*count),
        }
    }
}

/// A cutter of a stream into frames and dropped octets. The stream may be fed in pieces of any
/// size. Contracts see the octets held, 0 to 255 of them.
#[derive(Drop)]
pub struct Cutter {
    buffer: [u8; ROOM],
    start: usize,
    end: usize,
}

impl Model for Cutter {
    ghost Value = { List ℕ };

    ghost view = { λ c. slice_range c.buffer c.start c.end };

    ghost invariant = { λ c. (c.start ≤ c.end) × (c.end ≤ 510) × (c.end ≤ c.start + 255) };
}

impl Cutter {
    /// Returns a cutter that holds nothing.
    pub fn new() -> Cutter
        ensures { result ≡ [] }
    {
        Cutter {
            buffer: [0; ROOM],
            start: 0,
            end: 0,
        }
    }

    /// Takes as many octets as fit beside those held, 255 in all, and returns how many it took.
    pub fn feed(&mut self, octets: &[u8]) -> usize
        ensures taken { result ≡ min (length octets.now) (255 - length self.old) }
        ensures held { self.new ≡ self.old ++ take result octets.now }
        ensures most { length self.new ≤ 255 }
    {
        let held = self.end - self.start;
        let taken = octets.len().min(MOST_OCTETS - held);
        if self.end + taken > ROOM {
            self.buffer.copy_within(self.start..self.end, 0);
            self.start = 0;
            self.end = held;
        }
        self.buffer[self.end..self.end + taken].copy_from_slice(&octets[..taken]);
        self.end += taken;
        taken
    }

    /// Lends the octets held.
    pub fn held(&self) -> &[u8]
        ensures { result.now ≡ self.now }
    {
        &self.buffer[self.start..self.end]
    }

    /// Removes the first piece from the octets held and returns it.
    ///
    /// Returns `None` exactly if they begin with no piece. Then nothing changes, and `feed` has
    /// room.
    pub fn next(&mut self) -> Option<Cut>
        ensures cut { result ≡ piece_of self.old }
        ensures left { self.new ≡ left_of self.old }

        // What these two equations mean for a stream.
        ensures piece { IfSome result (λ cut. StartsWith self.old cut self.new) }
        ensures none { IsNone result ↔ StartsWithNone self.old }
        ensures room { IfNone result (length self.new < 255) }
        ensures fewer { OnSome result (length self.new < length self.old) }
        ensures most { length self.new ≤ 255 }
        ensures stream { (more : List ℕ) → cuts_of (self.old ++ more) ≡ with_handed result (cuts_of (self.new ++ more)) }
        ensures rest { IfNone result (cuts_of self.new ≡ uncut self.new) }
    {
        let start = self.start;
        let octets = &self.buffer[start..self.end];
        let fault = fault_in(octets);
        self.start += piece_size(fault, octets);
        first_piece(fault, &self.buffer[start..self.end])
    }

    /// Lends the first piece. The cutter holds its octets until [`Cutter::pass`] drops that number
    /// of octets.
    ///
    /// Returns `None` exactly if the octets held begin with no piece. Then `feed` has room.
    pub fn front(&self) -> Option<Piece<'_>>
        ensures cut { option_map cut_lent result ≡ piece_of self.now }
        ensures left { IfSome result (λ piece. left_of self.now ≡ drop (cut_length (cut_lent piece)) self.now) }

        // What these two equations mean for a stream.
        ensures piece { IfSome result (λ piece. StartsWith self.now (cut_lent piece) (left_of self.now)) }
        ensures none { IsNone result ↔ StartsWithNone self.now }
        ensures room { IfNone result (length self.now < 255) }
        ensures some { IfSome result (λ piece. 0 < cut_length (cut_lent piece)) }
        ensures held { IfSome result (λ piece. cut_length (cut_lent piece) ≤ length self.now) }
        ensures stream { (more : List ℕ) → cuts_of (self.now ++ more)
            ≡ with_handed (option_map cut_lent result) (cuts_of (left_of self.now ++ more)) }
        ensures rest { IfNone result (cuts_of self.now ≡ uncut self.now) }
    {
        let octets = &self.buffer[self.start..self.end];
        let fault = fault_in(octets);
        lent_piece(fault, octets)
    }

    /// Drops the first `count` octets held, those of a piece that was lent.
    pub fn pass(&mut self, count: usize)
        requires { count ≤ length self.old }
        ensures held { self.new ≡ drop count self.old }
        ensures most { length self.new ≤ 255 }
    {
        self.start += count;
    }
}

/// Returns the number of octets of the first piece, by the fault of all octets; 0 if there is no
/// piece.
fn piece_size(fault: Option<FrameFault>, octets: &[u8]) -> usize
    requires { fault ≡ fault_of octets.now }
    ensures piece { IfSome (piece_of octets.now) (λ cut. result ≡ cut_length cut) }
    ensures none { IfNone (piece_of octets.now) (result ≡ 0) }
{
    match fault {
        Some(FrameFault::Short) => 0,
        Some(FrameFault::NoStart) => 1,
        Some(FrameFault::BadHead) => 1,
        Some(FrameFault::BadEnd) => frame_size(octets),
        Some(FrameFault::Long) => frame_size(octets),
        None => frame_size(octets),
    }
}

/// Returns the first piece, by the fault of all octets; `None` if they begin with no piece.
///
/// The piece is built as the result itself, because moving a piece costs a copy of 530 bytes.
fn first_piece(fault: Option<FrameFault>, octets: &[u8]) -> Option<Cut>
    requires fault { fault ≡ fault_of octets.now }
    requires most { length octets.now ≤ 255 }
    ensures { result ≡ piece_of octets.now }
{
    match fault {
        Some(FrameFault::Short) => None,
        Some(fault @ FrameFault::NoStart) => dropped(fault, 1),
        Some(fault @ FrameFault::BadHead) => dropped(fault, 1),
        Some(fault @ FrameFault::BadEnd) => dropped(fault, frame_size(octets) as u8),
        Some(FrameFault::Long) => first_frame(octets),
        None => first_frame(octets),
    }
}

fn dropped(fault: FrameFault, count: u8) -> Option<Cut>
    ensures { result ≡ Some (pieces.Dropped fault count) }
{
    Some(Cut::Dropped { fault, count })
}

/// Lends the first piece, by the fault of all octets; `None` if they begin with no piece.
fn lent_piece(fault: Option<FrameFault>, octets: &[u8]) -> Option<Piece<'_>>
    requires fault { fault ≡ fault_of octets.now }
    requires most { length octets.now ≤ 255 }
    ensures { option_map cut_lent result ≡ piece_of octets.now }
{
    match fault {
        Some(FrameFault::Short) => None,
        Some(fault @ FrameFault::NoStart) => Some(Piece::Dropped { fault, count: 1 }),
        Some(fault @ FrameFault::BadHead) => Some(Piece::Dropped { fault, count: 1 }),
        Some(fault @ FrameFault::BadEnd) => Some(Piece::Dropped {
            fault,
            count: frame_size(octets) as u8,
        }),
        Some(FrameFault::Long) => Some(Piece::Frame(lent_frame(octets))),
        None => Some(Piece::Frame(lent_frame(octets))),
    }
}

/// Returns the octets of the frame in front. Its head must be right, and all of its octets must be
/// present.
fn lent_frame(octets: &[u8]) -> WholeFrame<'_>
    requires start { IsTrue (is_start (delimiter octets.now)) }
    requires right { IsTrue (head_is_right octets.now) }
    requires whole { frame_length octets.now ≤ length octets.now }
    requires ends { IsTrue (end_is_right octets.now) }
    ensures octets { result ≡ take (frame_length octets.now) octets.now }
    ensures same { frame_at result ≡ frame_at octets.now }
{
    WholeFrame::new(&octets[..frame_size(octets)])
}

/// Returns the frame in front as a piece. Its head must be right, and all of its octets must be
/// present.
fn first_frame(octets: &[u8]) -> Option<Cut>
    requires start { IsTrue (is_start (delimiter octets.now)) }
    requires right { IsTrue (head_is_right octets.now) }
    requires whole { frame_length octets.now ≤ length octets.now }
    requires most { length octets.now ≤ 255 }
    ensures { result ≡ Some (frame_in_front octets.now) }
{
    let size = frame_size(octets);
    Some(Cut::Frame {
        frame: frame_in(octets).copied(),
        octets: ArrayVec::try_from(&octets[..size]).unwrap(),
    })
}
