//! The values of JSON: numbers, truth values, and strings.

ghost use Rattle.std.specs.Prelude.{◌≡◌, Some};
ghost use Rattle.std.specs.List.{list_all};
ghost use Rattle.explain_texts.specs.JsonValues.{inside_json, is_plain, number_json, octet_json, string_json, truth_json};

use explain_octets::HexPair;
use std::fmt;

/// A number; `null` if there is none.
#[derive(Clone, Copy)]
pub struct NumberOrNull(pub Option<u64>);

impl fmt::Display for NumberOrNull {
    ghost output = { λ s. Some (number_json s.0) };

    fn fmt<W: fmt::Write>(&self, f: &mut fmt::Formatter<W>) -> fmt::Result {
        match self.0 {
            None => f.write_str("null"),
            Some(number) => write!(f, "{number}"),
        }
    }
}

/// Returns the name of a truth value.
pub fn truth_name(is_true: bool) -> &'static str
    ensures { result.now ≡ truth_json is_true }
{
    if is_true { "true" } else { "false" }
}

/// Returns whether an octet stands for itself in a string.
fn is_plain(octet: u8) -> bool
    ensures { result ≡ is_plain octet }
{
    32 <= octet && octet <= 126 && octet != b'"' && octet != b'\\'
}

/// Returns whether each octet stands for itself in a string.
fn are_plain(octets: &[u8]) -> bool
    ensures { result ≡ list_all is_plain octets.now }
{
    octets.iter().all(|octet| is_plain(*octet))
}

/// An octet within a string.
#[derive(Clone, Copy)]
struct StringOctet(u8);

impl fmt::Display for StringOctet {
    ghost output = { λ s. Some (octet_json s.0) };

    fn fmt<W: fmt::Write>(&self, f: &mut fmt::Formatter<W>) -> fmt::Result {
        if is_plain(self.0) {
            f.write_char(char::from(self.0))
        } else {
            let pair = HexPair(self.0);
            write!(f, "\\u00{pair}")
        }
    }
}

/// A text within the quotation marks of a string.
#[derive(Clone, Copy)]
struct Inside<'a>(&'a [u8]);

impl<'a> fmt::Display for Inside<'a> {
    ghost output = { λ s. Some (inside_json s.0.now) };

    fn fmt<W: fmt::Write>(&self, f: &mut fmt::Formatter<W>) -> fmt::Result {
        if are_plain(self.0) {
            if let Ok(text) = std::str::from_utf8(self.0) {
                return f.write_str(text);
            }
        }
        for octet in self.0 {
            let octet = StringOctet(*octet);
            write!(f, "{octet}")?;
        }
        Ok(())
    }
}

/// A text as a string. Each octet that is not printable ASCII is escaped, and so are quotation marks and backslashes.
#[derive(Clone, Copy)]
pub struct Quoted<'a>(pub &'a [u8]);

impl<'a> fmt::Display for Quoted<'a> {
    ghost output = { λ s. Some (string_json s.0.now) };

    #[tactic(auto, unfolding(crate::specs::JsonValues::string_json))]
    fn fmt<W: fmt::Write>(&self, f: &mut fmt::Formatter<W>) -> fmt::Result {
        let inside = Inside(self.0);
        write!(f, "\"{inside}\"")
    }
}
