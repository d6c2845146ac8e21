//! A text of bounded length that allocates no memory.

ghost use Rattle.std.specs.Prelude.{◌≡◌, ◌+◌, ◌*◌, ◌≤◌, ◌<◌, ℕ, List, [], ◌∷◌, ◌++◌, length, take};
ghost use Rattle.std.specs.Fmt.{decimal};
ghost use Rattle.hex.specs.Hex.{encode_lower};

use std::marker::Model;

/// The maximum number of octets in a text.
///
/// The longest text that contracts allow is the journal line
/// `4294967295 req 255 HEX | DataExch 255 | spread 255:ForeignSender ..`. With 510 digits for HEX and 64 pairs
/// of 18 octets it has 1,706 octets, its LF included.
pub const LONGEST: usize = 1_800;

/// A text of bounded length. Contracts see its octets. It is made once, and cleared before another text begins.
#[derive(Drop)]
pub struct Text {
    octets: [u8; LONGEST],
    length: usize,
}

impl Model for Text {
    ghost use Rattle.std.specs.Prelude.{ℕ, List, take, ◌≤◌};
    ghost use Rattle.dp_text.specs.declared.text.TheConstants.{LONGEST};

    ghost Value = { List ℕ };

    ghost view = { λ t. take t.length t.octets };

    ghost invariant = { λ t. t.length ≤ LONGEST };
}

impl Text {
    /// Returns the empty text.
    pub fn new() -> Text
        ensures { result ≡ [] }
    {
        Text {
            octets: [0; LONGEST],
            length: 0,
        }
    }

    /// Clears the text.
    pub fn clear(&mut self)
        ensures { self.new ≡ [] }
    {
        self.length = 0;
    }

    /// Returns the octets of the text.
    pub fn as_bytes(&self) -> &[u8]
        ensures { result.now ≡ self.now }
    {
        &self.octets[..self.length]
    }

    /// Appends an octet.
    pub fn push(&mut self, octet: u8)
        requires { length self.old < LONGEST }
        ensures text { self.new ≡ self.old ++ octet ∷ [] }
        ensures size { length self.new ≡ length self.old + 1 }
    {
        self.octets[self.length] = octet;
        self.length += 1;
    }

    /// Appends a text.
    pub fn push_str(&mut self, text: &str)
        requires { length self.old + length text.now ≤ LONGEST }
        ensures text { self.new ≡ self.old ++ text.now }
        ensures size { length self.new ≡ length self.old + length text.now }
    {
        let end = self.length + text.len();
        self.octets[self.length..end].copy_from_slice(text.as_bytes());
        self.length = end;
    }

    /// Appends octets as pairs of hex digits in lower case.
    #[tactic(auto, using(crate::proofs::Lengths::hex_length))]
    pub fn push_hex(&mut self, octets: &[u8])
        requires { length self.old + 2 * length octets.now ≤ LONGEST }
        ensures text { self.new ≡ self.old ++ encode_lower octets.now }
        ensures size { length self.new ≡ length self.old + 2 * length octets.now }
    {
        let end = self.length + 2 * octets.len();
        hex::encode_to_slice(octets, &mut self.octets[self.length..end]).unwrap();
        self.length = end;
    }

    /// Appends a 32-bit number in plain decimal.
    #[tactic(auto, using(crate::proofs::Decimals::are_short))]
    pub fn push_number(&mut self, number: u32)
        requires { length self.old + 10 ≤ LONGEST }
        ensures text { self.new ≡ self.old ++ decimal number }
        ensures most { length self.new ≤ length self.old + 10 }
    {
        self.push_decimal(u64::from(number));
    }

    /// Appends a number from 0 to 255 in plain decimal.
    #[tactic(auto, using(crate::proofs::Decimals::are_short))]
    pub fn push_octet(&mut self, number: u8)
        requires { length self.old + 3 ≤ LONGEST }
        ensures text { self.new ≡ self.old ++ decimal number }
        ensures most { length self.new ≤ length self.old + 3 }
    {
        self.push_decimal(u64::from(number));
    }

    /// Appends a 64-bit number in plain decimal.
    #[tactic(auto, using(crate::proofs::Decimals::are_short))]
    pub fn push_long(&mut self, number: u64)
        requires { length self.old + 20 ≤ LONGEST }
        ensures text { self.new ≡ self.old ++ decimal number }
        ensures most { length self.new ≤ length self.old + 20 }
    {
        self.push_decimal(number);
    }

    #[tactic(auto, using(crate::proofs::Decimals::by_last_digit))]
    fn push_decimal(&mut self, number: u64)
        requires { length self.old + length (decimal number) ≤ LONGEST }
        ensures text { self.new ≡ self.old ++ decimal number }
        ensures size { length self.new ≡ length self.old + length (decimal number) }
    {
        if number < 10 {
            self.push(b'0' + number as u8);
        } else {
            self.push_decimal(number / 10);
            self.push(b'0' + (number % 10) as u8);
        }
    }
}
