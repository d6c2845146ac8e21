//! Faults of octets that are no frame.

ghost use Rattle.std.specs.Prelude.{◌≡◌};
ghost use Rattle.dp_telegram.specs.FrameText.{fault_code};
ghost use Rattle.dp_telegram.specs.Names.{frame_fault_name};

use thiserror::Error;

/// The reason why octets are no frame. The first that applies is reported: `Short` if there is no
/// octet; then `NoStart`, `Short` if the head is not complete, `BadHead`, `Short` if the frame is
/// not complete, `BadEnd`, `Long`.
#[derive(Clone, Copy, Debug, PartialEq, Eq, Error)]
#[error("{}", self.name())]
pub enum FrameFault {
    /// The first octet is no start delimiter (IEC 61158-4-3, start delimiters).
    NoStart,
    /// The head of an SD2 telegram is wrong: LE and LEr differ, LE is not 4 to 249, or the second
    /// start delimiter is another octet (IEC 61158-4-3, length octets).
    BadHead,
    /// The check sequence or the end delimiter is wrong (IEC 61158-4-3, frame check sequence).
    BadEnd,
    /// The octets end before the frame does.
    Short,
    /// Octets follow the frame.
    Long,
}

impl FrameFault {
    /// Returns the number of the fault, 1 to 5 (own).
    pub const fn code(self) -> u8
        ensures { result ≡ fault_code self }
    {
        match self {
            FrameFault::NoStart => 1,
            FrameFault::BadHead => 2,
            FrameFault::BadEnd => 3,
            FrameFault::Short => 4,
            FrameFault::Long => 5,
        }
    }

    /// Returns its name in texts (own).
    pub const fn name(self) -> &'static str
        ensures { result.now ≡ frame_fault_name self }
    {
        match self {
            FrameFault::NoStart => "NoStart",
            FrameFault::BadHead => "BadHead",
            FrameFault::BadEnd => "BadEnd",
            FrameFault::Short => "Short",
            FrameFault::Long => "Long",
        }
    }
}
