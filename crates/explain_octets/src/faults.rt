//! Octets that are no frame, in words.

ghost use Rattle.std.specs.Prelude.{◌≡◌, Some, slice_index};
ghost use Rattle.std.specs.Fmt.{WritesOnOk};
ghost use Rattle.dp_telegram.specs.FrameText.{fault_of};
ghost use Rattle.dp_telegram.specs.declared.fault.FrameFault.TheVariants.{BadHead};
ghost use Rattle.explain_octets.specs.Faults.{fault_text, frame_fault_words, wrong_end_text, wrong_head_text};

use crate::words::HexPair;
use dp_telegram::{FrameFault, WrongEnd, wrong_end};
use std::fmt;

/// The start delimiter of a telegram with a variable length; it is repeated after the length octets (IEC 61158-4-3, start
/// delimiters).
pub(crate) const SD2: u8 = 0x68;

/// The wrong end of a telegram, in words (IEC 61158-4-3, frame check sequence).
///
/// Contracts see the text that its `Display` writes: `the check sequence is 4e, not 4f`, or
/// `the end delimiter is 17, not 16` if the check sequence is right.
#[derive(Clone, Copy)]
pub struct WrongEndWords(pub WrongEnd);

impl fmt::Display for WrongEndWords {
    ghost output = { λ words. Some (wrong_end_text words.0) };

    fn fmt<W: fmt::Write>(&self, f: &mut fmt::Formatter<W>) -> fmt::Result {
        let end = self.0;
        if end.check_sequence == end.expected {
            let delimiter = HexPair(end.end_delimiter);
            return write!(f, "the end delimiter is {delimiter}, not 16");
        }
        let sent = HexPair(end.check_sequence);
        let expected = HexPair(end.expected);
        write!(f, "the check sequence is {sent}, not {expected}")
    }
}

/// The wrong head of an SD2 telegram, in words (IEC 61158-4-3, length octets).
#[derive(Clone, Copy)]
struct WrongHead {
    lengths: (u8, u8),
    /// The second start delimiter.
    start: u8,
}

impl fmt::Display for WrongHead {
    ghost output = { λ head. Some (wrong_head_text head.lengths.0 head.lengths.1 head.start) };

    fn fmt<W: fmt::Write>(&self, f: &mut fmt::Formatter<W>) -> fmt::Result {
        let (length, repeated) = self.lengths;
        if length != repeated {
            let first = HexPair(length);
            let second = HexPair(repeated);
            return write!(f, "the length octets are {first} and {second}");
        }
        if self.start != SD2 {
            let start = HexPair(self.start);
            return write!(f, "the second start delimiter is {start}, not 68");
        }
        write!(f, "the length is {length}, of 4 to 249")
    }
}

/// Writes octets that are no frame: the name of their fault, and what is wrong.
pub(crate) fn write_fault<W: fmt::Write>(
    f: &mut fmt::Formatter<W>,
    octets: &[u8],
    fault: FrameFault,
) -> fmt::Result
    requires { fault_of octets.now ≡ Some fault }
    ensures { WritesOnOk W.Write.write_str_gives f.old result (fault_text fault octets.now) f.new }
{
    let name = fault.name();
    write!(f, "no telegram: {name}, ")?;
    write_wrong(f, octets, fault)
}

/// Writes what is wrong with octets that have this fault.
fn write_wrong<W: fmt::Write>(
    f: &mut fmt::Formatter<W>,
    octets: &[u8],
    fault: FrameFault,
) -> fmt::Result
    requires { fault_of octets.now ≡ Some fault }
    ensures { WritesOnOk W.Write.write_str_gives f.old result (frame_fault_words fault octets.now) f.new }
{
    match fault {
        FrameFault::NoStart => f.write_str("the first octet is no start delimiter"),
        FrameFault::BadHead => {
            let head = wrong_head(octets);
            write!(f, "{head}")
        }
        FrameFault::BadEnd => {
            let end = WrongEndWords(wrong_end(octets).unwrap());
            write!(f, "{end}")
        }
        FrameFault::Short => f.write_str("the frame is not whole"),
        FrameFault::Long => f.write_str("octets follow the frame"),
    }
}

/// Returns the head of octets whose head is wrong.
fn wrong_head(octets: &[u8]) -> WrongHead
    requires { fault_of octets.now ≡ Some BadHead }
    ensures lengths { result.lengths ≡ (slice_index octets.now 1, slice_index octets.now 2) }
    ensures start { result.start ≡ slice_index octets.now 3 }
{
    WrongHead {
        lengths: (octets[1], octets[2]),
        start: octets[3],
    }
}
