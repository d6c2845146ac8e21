//! The lines of a text and the words of a line, borrowed and not copied.
//!
//! [`Lines`] and [`Words`] are two types of the same form, so that the lines of a text can't be mistaken for
//! the words of a line.

ghost use Rattle.std.specs.Prelude.{◌≡◌, ◌<◌, ◌==◌, [], ◌∷◌, length, position, MatchOption, IfSome};
ghost use Rattle.std.specs.List.{slice_split};
ghost use Rattle.dp_text.specs.Words.{lines_of, words_of, same_text, parts_left};

use memchr::memchr;
use std::marker::Model;

/// The octet that ends a line.
const LF: u8 = 10;

/// The octet that separates the words of a line.
pub(crate) const SPACE: u8 = 32;

/// The lines of a text, one after another. Contracts see those that are left.
#[derive(Drop)]
pub struct Lines<'a> {
    rest: Option<&'a [u8]>,
}

impl<'a> Model for Lines<'a> {
    ghost use Rattle.std.specs.Prelude.{ℕ, List};
    ghost use Rattle.dp_text.specs.Words.{lines_of, parts_left};

    ghost Value = { List (List ℕ) };

    ghost view = { λ l. parts_left lines_of l.rest };
}

impl<'a> Lines<'a> {
    /// Returns the lines of a text. Lines end in LF; what follows the last LF is a line too.
    pub fn new(text: &'a [u8]) -> Lines<'a>
        ensures { result ≡ lines_of text.now }
    {
        Lines { rest: Some(text) }
    }

    /// Returns the next line without its LF, or None if no line is left.
    pub fn next(&mut self) -> Option<&'a [u8]>
        ensures { MatchOption result ((self.old ≡ []) × (self.new ≡ [])) (λ line. self.old ≡ line.now ∷ self.new) }
    {
        let text = self.rest?;
        let (line, rest) = first_line(text);
        self.rest = rest;
        Some(line)
    }
}

/// The words of a line, one after another. Contracts see those that are left.
#[derive(Drop)]
pub struct Words<'a> {
    rest: Option<&'a [u8]>,
}

impl<'a> Model for Words<'a> {
    ghost use Rattle.std.specs.Prelude.{ℕ, List};
    ghost use Rattle.dp_text.specs.Words.{words_of, parts_left};

    ghost Value = { List (List ℕ) };

    ghost view = { λ w. parts_left words_of w.rest };
}

impl<'a> Words<'a> {
    /// Returns the words of a line. One space separates two words.
    pub fn new(line: &'a [u8]) -> Words<'a>
        ensures { result ≡ words_of line.now }
    {
        Words { rest: Some(line) }
    }

    /// Returns the next word, or None if no word is left.
    pub fn next(&mut self) -> Option<&'a [u8]>
        ensures { MatchOption result ((self.old ≡ []) × (self.new ≡ [])) (λ word. self.old ≡ word.now ∷ self.new) }
    {
        let line = self.rest?;
        let (word, rest) = first_part(line, SPACE);
        self.rest = rest;
        Some(word)
    }

    /// Returns the text of the words that are left, or None if no word is left.
    pub fn rest(&self) -> Option<&'a [u8]>
        ensures { self.now ≡ parts_left words_of result }
    {
        self.rest
    }
}

/// Returns the first line of a text, and the text after its LF, if it has an LF.
///
/// A line is long, so it is searched many octets at once; a word is short.
fn first_line(text: &[u8]) -> (&[u8], Option<&[u8]>)
    ensures { lines_of text.now ≡ result.0.now ∷ parts_left lines_of result.1 }
{
    match memchr(LF, text) {
        Some(index) => (&text[..index], Some(&text[index + 1..])),
        None => (text, None),
    }
}

/// Returns the text before the first octet of this value, and the text after that octet, if there is one.
fn first_part(text: &[u8], separator: u8) -> (&[u8], Option<&[u8]>)
    ensures { slice_split (λ octet. octet == separator) text.now
        ≡ result.0.now ∷ parts_left (slice_split (λ octet. octet == separator)) result.1 }
{
    match index_of(text, separator) {
        Some(index) => (&text[..index], Some(&text[index + 1..])),
        None => (text, None),
    }
}

/// Returns the index of the first octet of this value.
fn index_of(text: &[u8], value: u8) -> Option<usize>
    ensures index { result ≡ position (λ octet. octet == value) text.now }
    ensures bound { IfSome result (λ index. index < length text.now) }
{
    text.iter().position(|octet| *octet == value)
}

/// Returns whether the word is this text.
pub fn is_text(word: &[u8], text: &[u8]) -> bool
    ensures { result ≡ same_text word.now text.now }
{
    word == text
}
