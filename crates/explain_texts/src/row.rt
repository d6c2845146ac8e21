//! Reads the event in a line of an audit text.

ghost use Rattle.std.specs.Prelude.{◌≡◌, None, Some, option_map};
ghost use Rattle.dp_audit.specs.Check.{parted, placed_of};
ghost use Rattle.explain_texts.specs.Explained.{event_of_row};

use dp_line::Event;
use dp_text::{Words, event_in, number_in};
use memchr::memmem;

/// The separator of the parts of a text line.
const BAR: [u8; 3] = *b" | ";

/// Reads the event of a text line, which stands between the place and the first bar; None if there is none.
pub fn event_of_row(row: &[u8]) -> Option<Event>
    ensures { result ≡ event_of_row row.now }
{
    match before_bar(row) {
        Some(placed) => event_in_placed(placed),
        None => None,
    }
}

/// Returns the text before the first bar; None if there is no bar.
fn before_bar(text: &[u8]) -> Option<&[u8]>
    ensures { option_map (λ front. front.now) result ≡ option_map (λ parts. parts.0) (parted text.now) }
{
    match memmem::find(text, &BAR) {
        Some(index) => Some(&text[..index]),
        None => None,
    }
}

/// Reads the event of a text `PLACE EVENT`; None if the text isn't of this form.
fn event_in_placed(text: &[u8]) -> Option<Event>
    ensures { result ≡ option_map (λ placed. placed.event) (placed_of text.now) }
{
    let mut words = Words::new(text);
    let place = words.next()?;
    let event = words.rest()?;
    number_in(place, u32::MAX)?;
    event_in(event)
}
