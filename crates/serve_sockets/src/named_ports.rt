//! Texts that name ports.

ghost use Rattle.std.specs.Prelude.{◌≡◌};
ghost use Rattle.serve_sockets.specs.PortFiles.{begins_with, begins_with_number, behind, is_row_of_cable, is_row_of_line, names_ports, names_row};

use dp_text::{Lines, Words, is_text, number_in};

/// The highest number of a line.
const MOST_LINE: u32 = 255;

/// The highest number of a port.
const MOST_PORT: u32 = 65_535;

/// Returns whether a text names ports, as `serve` and `cable` write them, or is empty.
pub(crate) fn names_ports(text: &[u8]) -> bool
    ensures { result ≡ names_ports text.now }
{
    let mut rows = Lines::new(text);
    while let Some(row) = rows.next() {
        if row.is_empty() {
            return rows.next().is_none();
        }
        if !names_row(row) {
            return false;
        }
    }
    false
}

/// Returns whether a row names the ports of a line: `line N listen PORT operator PORT`, or those of a cable: `cable PORT listen
/// PORT`.
fn names_row(row: &[u8]) -> bool
    ensures { result ≡ names_row row.now }
{
    is_row_of_line(&mut Words::new(row)) || is_row_of_cable(&mut Words::new(row))
}

/// Returns whether these are the words of the row of a line.
fn is_row_of_line(words: &mut Words<'_>) -> bool
    ensures { result ≡ is_row_of_line words.old }
{
    if !is_word(words, b"line") || !is_number(words, MOST_LINE) {
        return false;
    }
    if !is_word(words, b"listen") || !is_number(words, MOST_PORT) {
        return false;
    }
    if !is_word(words, b"operator") || !is_number(words, MOST_PORT) {
        return false;
    }
    words.next().is_none()
}

/// Returns whether these are the words of the row of a cable.
fn is_row_of_cable(words: &mut Words<'_>) -> bool
    ensures { result ≡ is_row_of_cable words.old }
{
    if !is_word(words, b"cable") || !is_number(words, MOST_PORT) {
        return false;
    }
    if !is_word(words, b"listen") || !is_number(words, MOST_PORT) {
        return false;
    }
    words.next().is_none()
}

/// Returns whether the next word is this text.
fn is_word(words: &mut Words<'_>, text: &[u8]) -> bool
    ensures word { result ≡ begins_with text.now words.old }
    ensures rest { words.new ≡ behind words.old }
{
    match words.next() {
        Some(word) => is_text(word, text),
        None => false,
    }
}

/// Returns whether the next word is a number of 0 to `most` in plain decimal.
fn is_number(words: &mut Words<'_>, most: u32) -> bool
    ensures word { result ≡ begins_with_number most words.old }
    ensures rest { words.new ≡ behind words.old }
{
    match words.next() {
        Some(word) => number_in(word, most).is_some(),
        None => false,
    }
}
