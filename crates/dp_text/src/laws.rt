//! Laws of texts. Each law is what an empty function ensures.

ghost use Rattle.std.specs.Prelude.{◌≡◌, ◌≤◌, ◌<◌, ◌^◌, ℕ, List, Some};
ghost use Rattle.std.specs.Fmt.{decimal};
ghost use Rattle.dp_line.specs.declared.event.Event.{Event};
ghost use Rattle.dp_text.specs.Numbers.{number_to};
ghost use Rattle.dp_text.specs.declared.op_line.OpLine.{OpLine};
ghost use Rattle.dp_text.specs.OpLines.{IsOpLine, op_line_of};
ghost use Rattle.dp_text.specs.Texts.{event_text};
ghost use Rattle.dp_text.specs.Events.{IsWithinLimits, event_of};

/// A number is read from its text.
pub fn a_number_is_read_from_its_text()
    ensures { (number most : ℕ) → number < 2 ^ 64 → number ≤ most → number_to most (decimal number) ≡ Some number }
{}

/// An event within the limits of texts is read from its text.
pub fn an_event_is_read_from_its_text()
    ensures { (event : Event) → IsWithinLimits event → event_of (event_text event) ≡ Some event }
{}

/// A text that is read as an event is the text of that event.
pub fn only_its_text_is_read_as_an_event()
    ensures { (text : List ℕ) (event : Event) → event_of text ≡ Some event → event_text event ≡ text }
{}

/// A word that is read as a number is the text of that number.
pub fn only_its_text_is_read_as_a_number()
    ensures { (most : ℕ) (word : List ℕ) (number : ℕ) → most < 2 ^ 64 → number_to most word ≡ Some number → decimal number ≡ word }
{}

/// An event that is read is within the limits of texts.
pub fn an_event_read_is_within_limits()
    ensures { (text : List ℕ) (event : Event) → event_of text ≡ Some event → IsWithinLimits event }
{}

/// A text that is written as a line of an operator is read as that line.
pub fn a_line_is_read_as_it_is_written()
    ensures { (text : List ℕ) (line : OpLine) → IsOpLine text line → op_line_of text ≡ Some line }
{}

/// A text that is read as a line of an operator is written as that line: no other line is a command.
pub fn only_what_is_written_so_is_read_as_a_line()
    ensures { (text : List ℕ) (line : OpLine) → op_line_of text ≡ Some line → IsOpLine text line }
{}
