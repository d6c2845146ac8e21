//! Telegrams with a wrong end.

ghost use Rattle.std.specs.Prelude.{◌≡◌, ◌≤◌, ◌&&◌, length, IsTrue, Some};
ghost use Rattle.dp_telegram.specs.FrameText.{delimiter, fault_of, frame_length, head_is_right, head_length, is_checked, is_start};
ghost use Rattle.dp_telegram.specs.WrongEnd.{end_at, wrong_end_of};
ghost use Rattle.dp_telegram.specs.declared.fault.FrameFault.TheVariants.{BadEnd};

use crate::decoding::{fault_in, frame_size};
use crate::delimiter::{SD2, check_sum};
use crate::fault::FrameFault;

/// The end of a whole telegram whose check sequence or end delimiter is wrong (IEC 61158-4-3, frame check sequence).
#[derive(Clone, Copy, Debug, PartialEq, Eq)]
pub struct WrongEnd {
    /// The check sequence that the telegram has.
    pub check_sequence: u8,
    /// The check sequence that belongs to its octets from DA on.
    pub expected: u8,
    /// The end delimiter that the telegram has; 0x16 is the right one.
    pub end_delimiter: u8,
}

/// Returns the end of the telegram that the octets begin with, if its fault is `BadEnd` (own).
pub fn wrong_end(octets: &[u8]) -> Option<WrongEnd>
    ensures { result ≡ wrong_end_of octets.now }
{
    match fault_in(octets) {
        Some(FrameFault::BadEnd) => Some(end_in(octets)),
        Some(FrameFault::NoStart)
        | Some(FrameFault::BadHead)
        | Some(FrameFault::Short)
        | Some(FrameFault::Long)
        | None => None,
    }
}

/// Returns the end of the telegram in front, which is whole.
fn end_in(octets: &[u8]) -> WrongEnd
    requires { fault_of octets.now ≡ Some BadEnd }
    ensures { result ≡ end_at octets.now }
{
    let head = match octets {
        [SD2, ..] => 4,
        _ => 1,
    };
    let size = frame_size(octets);
    WrongEnd {
        check_sequence: octets[size - 2],
        expected: check_sum(&octets[head..size - 2]),
        end_delimiter: octets[size - 1],
    }
}
