//! The rows of a text, one after another.

ghost use Rattle.std.specs.Prelude.{◌≡◌, ◌+◌, ◌<◌, ◌==◌, length, position, Some, None, IfSome, MatchResult, MatchOption};
ghost use Rattle.audit_heads.specs.Rows.{first_row as first_row_of};

use std::marker::Model;

/// The octet that ends a row.
const LF: u8 = 10;

/// The rows of a text, one after another. Contracts see what is left: the number of the next row in the text, and
/// the octets.
#[derive(Drop)]
pub struct Rows<'a> {
    number: u64,
    text: &'a [u8],
}

impl<'a> Model for Rows<'a> {
    ghost use Rattle.std.specs.Prelude.{◌+◌, ◌<◌, ◌^◌, length};
    ghost use Rattle.audit_heads.specs.Rows.{Left};

    ghost Value = { Left };

    ghost view = { λ r. record { number = r.number; text = r.text.now } };

    ghost invariant = { λ r. r.number + length r.text.now < 2 ^ 64 };
}

impl<'a> Rows<'a> {
    /// Returns the rows of a text, numbered from 1.
    pub fn new(text: &'a [u8]) -> Rows<'a>
        ensures { result ≡ record { number = 1; text = text.now } }
    {
        Rows { number: 1, text }
    }

    /// Returns the next row without its LF, or its number if no LF is left.
    pub fn next(&mut self) -> Result<&'a [u8], u64>
        ensures { MatchResult result
            (λ row. (first_row_of self.old.text ≡ Some (row.now, self.new.text)) × (self.new.number ≡ self.old.number + 1))
            (λ number. (first_row_of self.old.text ≡ None) × (number ≡ self.old.number)) }
    {
        match first_row(self.text) {
            Some((row, rest)) => {
                self.number += 1;
                self.text = rest;
                Ok(row)
            }
            None => Err(self.number),
        }
    }

    /// Returns the number of the next row.
    pub fn number(&self) -> u64
        ensures { result ≡ self.now.number }
    {
        self.number
    }

    /// Returns the octets that are left.
    pub fn rest(&self) -> &'a [u8]
        ensures { result.now ≡ self.now.text }
    {
        self.text
    }
}

/// Returns the first row of a text without its LF, and what follows the LF; None if the text has no LF.
fn first_row(text: &[u8]) -> Option<(&[u8], &[u8])>
    ensures parts { MatchOption result (first_row_of text.now ≡ None) (λ parts. first_row_of text.now ≡ Some (parts.0.now, parts.1.now)) }
    ensures shorter { IfSome result (λ parts. length parts.1.now < length text.now) }
{
    match lf_in(text) {
        Some(index) => Some((&text[..index], &text[index + 1..])),
        None => None,
    }
}

/// Returns the index of the first LF.
fn lf_in(text: &[u8]) -> Option<usize>
    ensures index { result ≡ position (λ octet. octet == 10) text.now }
    ensures bound { IfSome result (λ index. index < length text.now) }
{
    text.iter().position(|octet| *octet == LF)
}
