//! Octets that are judged once.

ghost use Rattle.std.specs.Prelude.{◌≡◌, option_map};
ghost use Rattle.dp_telegram.specs.FrameText.{frame_of};
ghost use Rattle.dp_telegram.specs.Lent.{frame_lent};

use dp_telegram::{FrameLent, WholeFrame};
use std::marker::Model;

/// Octets that are judged once, whether they are a frame. The frame is read in place: nothing is copied. Contracts see the
/// octets.
#[derive(Drop)]
pub struct ReadOctets<'a> {
    octets: &'a [u8],
    /// None if the octets are not the text of a frame.
    whole: Option<WholeFrame<'a>>,
}

impl<'a> Model for ReadOctets<'a> {
    ghost use Rattle.std.specs.Prelude.{◌≡◌, ℕ, List, is_none, if◌then◌else◌, Some, None};
    ghost use Rattle.dp_telegram.specs.FrameText.{fault_of};

    ghost Value = { List ℕ };

    ghost view = { λ read. read.octets.now };

    ghost invariant = { λ read. read.whole ≡ (if is_none (fault_of read.octets.now) then Some read.octets.now else None) };
}

impl<'a> ReadOctets<'a> {
    /// Judges any octets.
    pub fn new(octets: &'a [u8]) -> ReadOctets<'a>
        ensures { result ≡ octets.now }
    {
        ReadOctets {
            octets,
            whole: WholeFrame::read(octets),
        }
    }

    /// Returns the octets.
    pub fn octets(&self) -> &'a [u8]
        ensures { result.now ≡ self.now }
    {
        self.octets
    }

    /// Returns the content of the frame that the octets are the text of; None if they are not the text of a frame.
    pub fn frame(&self) -> Option<FrameLent<'a>>
        ensures { option_map frame_lent result ≡ frame_of self.now }
    {
        match &self.whole {
            Some(whole) => Some(whole.frame()),
            None => None,
        }
    }
}
