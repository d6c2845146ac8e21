//! Chances.

ghost use Rattle.std.specs.Prelude.{◌≡◌, nat_le, if◌then◌else◌, None, Some};
ghost use Rattle.cable_faults.specs.Chances.{hits as is_hit};

/// The millionths of a chance that always comes true.
pub const CERTAIN: u32 = 1_000_000;

/// A chance in millionths, 0 to 1,000,000: one percent is 10,000.
#[derive(Clone, Copy, Debug, PartialEq, Eq)]
pub struct Chance {
    millionths: u32,
}

impl Chance {
    /// Returns the chance of this number of millionths, or None if the number is above 1,000,000.
    pub fn of_millionths(millionths: u32) -> Option<Chance>
        ensures { result ≡ (if nat_le millionths 1000000 then Some (record { millionths = millionths }) else None) }
    {
        if millionths <= CERTAIN {
            Some(Chance { millionths })
        } else {
            None
        }
    }

    /// Returns whether a random word comes under this chance.
    pub(crate) fn hits(self, word: u32) -> bool
        ensures { result ≡ is_hit self word }
    {
        u64::from(word) * u64::from(CERTAIN) < u64::from(self.millionths) << 32
    }
}
