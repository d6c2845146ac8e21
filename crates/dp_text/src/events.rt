//! Reading the texts of events.

ghost use Rattle.std.specs.Prelude.{◌≡◌, option_map};
ghost use Rattle.dp_text.specs.Events.{octets_up_to, request_of, event_of_words, event_of};

use crate::number::octet_in;
use crate::ops::{HexCase, event_octets_in, octets_of, op_in};
use crate::words::{Words, is_text};
use dp_line::Event;
use dp_telegram::Octets;

/// Returns the event that has this text, exactly as [`crate::Text::push_event`] writes it, or None if no event
/// has it.
pub fn event_in(text: &[u8]) -> Option<Event>
    ensures { result ≡ event_of text.now }
{
    event_in_words(&mut Words::new(text))
}

/// Reads an event by its first word.
fn event_in_words(words: &mut Words<'_>) -> Option<Event>
    ensures { result ≡ event_of_words words.old }
{
    let kind = words.next()?;
    if is_text(kind, b"req") {
        return request_in(words);
    }
    Some(Event::Operator(op_in(HexCase::Lower, kind, words)?))
}

/// Reads a request: its master and its octets.
fn request_in(words: &mut Words<'_>) -> Option<Event>
    ensures { result ≡ request_of words.old }
{
    let master = words.next()?;
    let octets = words.next()?;
    if words.next().is_some() {
        return None;
    }
    Some(Event::Request {
        master: octet_in(master)?,
        octets: event_octets_in(HexCase::Lower, octets)?,
    })
}

/// Returns the octets of a word of whole pairs of hex digits in either case, 1 to 255 octets, or None for any
/// other word.
pub fn octets_in(word: &[u8]) -> Option<Octets>
    ensures { option_map (λ octets. octets.items) result ≡ octets_up_to 255 word.now }
{
    octets_of(word)
}
