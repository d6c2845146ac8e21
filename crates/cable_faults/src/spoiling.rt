//! How a telegram is spoilt or cut.

ghost use Rattle.std.specs.Prelude.{◌≡◌, ◌+◌, ◌≤◌, ℕ, length, true, false, IfNone, IfSome};
ghost use Rattle.cable_faults.specs.Whole.{HasNoFault};
ghost use Rattle.dp_telegram.specs.FrameText.{head_length, is_checked};
ghost use Rattle.cable_faults.specs.Treatments.{changed, cut_treatment, no_start, spoilt_treatment};

use crate::treatment::Treatment;
use dp_telegram::WholeFrame;

/// The start delimiters (IEC 61158-4-3, delimiters).
const SD1: u8 = 0x10;

const SD2: u8 = 0x68;

const SD3: u8 = 0xA2;

const SD4: u8 = 0xDC;

const SC: u8 = 0xE5;

/// Returns how a telegram is spoilt, by two random words: one chooses the place of an octet, the other what it becomes.
pub(crate) fn spoil(frame: &WholeFrame<'_>, place: u32, change: u32) -> Treatment
    ensures { result ≡ spoilt_treatment frame.now place change }
{
    let octets = whole_octets(frame);
    match checked_from(octets) {
        Some(head) => spoil_body(octets, head, place, change),
        None => spoil_start(octets, change),
    }
}

/// Returns the octets of a telegram, which have no fault.
fn whole_octets<'a>(frame: &WholeFrame<'a>) -> &'a [u8]
    ensures octets { result.now ≡ frame.now }
    ensures whole { HasNoFault result.now }
    ensures most { length result.now ≤ 255 }
{
    let _content = frame.frame();
    frame.octets()
}

/// Returns where the octets begin that the check sequence of a telegram covers; None if it has none.
fn checked_from(octets: &[u8]) -> Option<usize>
    requires { HasNoFault octets.now }
    ensures checked { IfSome result (λ head. (is_checked octets.now ≡ true) × (head ≡ head_length octets.now) × (head + 2 ≤ length octets.now)) }
    ensures unchecked { IfNone result (is_checked octets.now ≡ false) }
{
    match octets {
        [SD4, ..] => None,
        [SC, ..] => None,
        [SD2, ..] => Some(4),
        _ => Some(1),
    }
}

/// Returns how a telegram is spoilt whose first octet is its start delimiter and that has no check sequence.
fn spoil_start(octets: &[u8], change: u32) -> Treatment
    requires some { 1 ≤ length octets.now }
    requires start { is_checked octets.now ≡ false }
    ensures { (place : ℕ) → result ≡ spoilt_treatment octets.now place change }
{
    Treatment::Spoilt {
        place: 0,
        octet: without_start(change_octet(octets[0], change)),
    }
}

/// Returns how a telegram is spoilt whose check sequence covers the octets from `head` on.
fn spoil_body(octets: &[u8], head: usize, place: u32, change: u32) -> Treatment
    requires checked { is_checked octets.now ≡ true }
    requires head { head ≡ head_length octets.now }
    requires room { head + 2 ≤ length octets.now }
    requires most { length octets.now ≤ 255 }
    ensures { result ≡ spoilt_treatment octets.now place change }
{
    let place = head + place as usize % (octets.len() - 1 - head);
    Treatment::Spoilt {
        place: place as u8,
        octet: change_octet(octets[place], change),
    }
}

/// Returns another octet, which a random word chooses.
fn change_octet(octet: u8, change: u32) -> u8
    ensures { result ≡ changed octet change }
{
    octet.wrapping_add(1 + (change % 255) as u8)
}

/// Returns an octet that is no start delimiter: this one, or the next if it is one.
fn without_start(octet: u8) -> u8
    ensures { result ≡ no_start octet }
{
    match octet {
        SD1 => SD1 + 1,
        SD2 => SD2 + 1,
        SD3 => SD3 + 1,
        SD4 => SD4 + 1,
        SC => SC + 1,
        other => other,
    }
}

/// Returns how a telegram is cut, by a random word.
pub(crate) fn cut(frame: &WholeFrame<'_>, place: u32) -> Treatment
    ensures { result ≡ cut_treatment frame.now place }
{
    let size = whole_octets(frame).len();
    if size == 1 {
        return Treatment::Cut { count: 0 };
    }
    Treatment::Cut {
        count: 1 + (place as usize % (size - 1)) as u8,
    }
}
