//! Decodes octets into frames.

ghost use Rattle.std.specs.Prelude.{◌≡◌, ◌≤◌, ◌&&◌, ◌↔◌, not, length, IsTrue, Some};
ghost use Rattle.std.specs.Result.{result_ok};
ghost use Rattle.dp_telegram.specs.declared.fault.FrameFault.{FrameFault};
ghost use Rattle.dp_telegram.specs.declared.frame.Frame.{Frame};
ghost use Rattle.dp_telegram.specs.FrameText.{Spells, frame_of, reading_of, fault_of, is_start, is_checked, delimiter, head_length, head_is_right, frame_length, sd2};

use crate::delimiter::{ED, SC, SD1, SD2, SD3, SD4, check_sum};
use crate::fault::FrameFault;
use crate::frame::Frame;
use crate::lent::frame_in;

/// Returns the frame of which the slice is the whole text. An SD3 and an SD2 may spell the same
/// telegram.
///
/// Every slice gives a frame or an error. The error is the first fault in the order that
/// [`FrameFault`] states.
pub fn decode(octets: &[u8]) -> Result<Frame, FrameFault>
    ensures reading { result ≡ reading_of octets.now }
    ensures found { result_ok result ≡ frame_of octets.now }
    ensures frame { (frame : Frame) → (result ≡ Ok frame) ↔ Spells octets.now frame }
    ensures fault { (fault : FrameFault) → (result ≡ Err fault) ↔ (fault_of octets.now ≡ Some fault) }
{
    match fault_in(octets) {
        Some(fault) => Err(fault),
        None => Ok(frame_in(octets).copied()),
    }
}

/// Returns the first fault of the octets. The start delimiter determines the layout.
pub(crate) fn fault_in(octets: &[u8]) -> Option<FrameFault>
    ensures { result ≡ fault_of octets.now }
{
    let Some(&start) = octets.first() else {
        return Some(FrameFault::Short);
    };
    match start {
        SD1 => telegram_fault(octets, 1, 6),
        SD2 => variable_fault(octets),
        SD3 => telegram_fault(octets, 1, 14),
        SD4 => size_fault(octets, 3),
        SC => size_fault(octets, 1),
        _ => Some(FrameFault::NoStart),
    }
}

/// Returns the first fault of a telegram with a right head: DA stands at `head`, and the frame has
/// `size` octets.
fn telegram_fault(octets: &[u8], head: usize, size: usize) -> Option<FrameFault>
    requires start { IsTrue (is_start (delimiter octets.now) && is_checked octets.now) }
    requires head { head ≡ head_length octets.now }
    requires right { IsTrue (head_is_right octets.now) }
    requires whole { head ≤ length octets.now }
    requires size { size ≡ frame_length octets.now }
    ensures { result ≡ fault_of octets.now }
{
    if octets.len() < size {
        return Some(FrameFault::Short);
    }
    let body = &octets[head..size - 2];
    if octets[size - 2] != check_sum(body) || octets[size - 1] != ED {
        return Some(FrameFault::BadEnd);
    }
    if size < octets.len() {
        return Some(FrameFault::Long);
    }
    None
}

/// Returns the first fault of an SD2 telegram. Its length stands in its head.
fn variable_fault(octets: &[u8]) -> Option<FrameFault>
    requires { delimiter octets.now ≡ sd2 }
    ensures { result ≡ fault_of octets.now }
{
    let [_, le, again, start, ..] = octets else {
        return Some(FrameFault::Short);
    };
    if *le < 4 || *le > 249 || le != again || *start != SD2 {
        return Some(FrameFault::BadHead);
    }
    telegram_fault(octets, 4, usize::from(*le) + 6)
}

/// Returns the first fault of a token or a short acknowledgement. Only its size can be wrong.
fn size_fault(octets: &[u8], size: usize) -> Option<FrameFault>
    requires start { IsTrue (is_start (delimiter octets.now) && not (is_checked octets.now)) }
    requires there { 1 ≤ length octets.now }
    requires size { size ≡ frame_length octets.now }
    ensures { result ≡ fault_of octets.now }
{
    if octets.len() < size {
        return Some(FrameFault::Short);
    }
    if size < octets.len() {
        return Some(FrameFault::Long);
    }
    None
}

/// Returns the number of octets of the frame whose whole head is present.
pub(crate) fn frame_size(octets: &[u8]) -> usize
    requires { head_length octets.now ≤ length octets.now }
    ensures { result ≡ frame_length octets.now }
{
    match octets {
        [SD1, ..] => 6,
        [SD2, le, ..] => usize::from(*le) + 6,
        [SD3, ..] => 14,
        [SD4, ..] => 3,
        _ => 1,
    }
}
