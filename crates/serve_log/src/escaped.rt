//! Texts without characters that control or mislead a terminal.
//!
//! They are escaped where a row is written: in `row_of` for all rows of the queue, and in `main` of rackd for all other
//! rows on standard error. [`is_escaped`] decides which these are.

use std::fmt;
use std::fmt::Write;

/// Returns whether a character is escaped in what a terminal gets: a control character, and a character that is
/// invisible or changes the direction of the text around it. These are U+200B to U+200F, U+202A to U+202E, U+2066 to
/// U+2069, and U+FEFF (own).
pub fn is_escaped(character: char) -> bool {
    character.is_control()
        || ('\u{200b}' <= character && character <= '\u{200f}')
        || ('\u{202a}' <= character && character <= '\u{202e}')
        || ('\u{2066}' <= character && character <= '\u{2069}')
        || character == '\u{feff}'
}

/// A value whose text has each character of [`is_escaped`] escaped: an LF as `\n`, a CR as `\r`, a tab as `\t`, any other
/// one up to U+00FF by its number in hex, as `\x1b`, and any further one as `\u{202e}` (own).
#[derive(Clone, Copy)]
pub struct Escaped<D>(pub D);

impl<D: fmt::Display> fmt::Display for Escaped<D> {
    fn fmt<W: fmt::Write>(&self, f: &mut fmt::Formatter<W>) -> fmt::Result {
        let mut escaping = Escaping { inner: f };
        write!(escaping, "{}", self.0)
    }
}

/// A writer that escapes the characters of texts that [`is_escaped`] names.
#[derive(Drop)]
struct Escaping<'f, W> {
    inner: &'f mut W,
}

impl<W: fmt::Write> fmt::Write for Escaping<'_, W> {
    fn write_str(&mut self, text: &str) -> fmt::Result {
        for character in text.chars() {
            if is_escaped(character) {
                self.write_escaped(character)?;
            } else {
                self.inner.write_char(character)?;
            }
        }
        Ok(())
    }
}

impl<W: fmt::Write> Escaping<'_, W> {
    /// Writes a character escaped.
    fn write_escaped(&mut self, character: char) -> fmt::Result {
        match character {
            '\n' => self.inner.write_str("\\n"),
            '\r' => self.inner.write_str("\\r"),
            '\t' => self.inner.write_str("\\t"),
            other if other <= '\u{ff}' => write!(self.inner, "\\x{:02x}", u32::from(other)),
            other => write!(self.inner, "\\u{{{:x}}}", u32::from(other)),
        }
    }
}
