//! The row that the policy gives for an event.

ghost use Rattle.std.specs.Prelude.{◌≡◌};
ghost use Rattle.dp_audit.specs.AuditText.{entry_text};

use dp_line::{Event, Facts, Op, Outcome, Step};
use dp_text::Text;

/// Sets the text to the row that is recorded at this place for an event with this answer, without its LF: the event's, or
/// the halt's if the halt is recorded instead. The text is empty if nothing is recorded.
pub(crate) fn set_expected(text: &mut Text, place: u32, event: &Event, answer: &Step) {
    match (&answer.place, &answer.halted) {
        (Some(_), _) => set_row(text, place, event, &answer.facts, &answer.outcome),
        (None, Some(addresses)) => {
            let released = Outcome::Released(addresses.clone().unwrap());
            set_row(text, place, &Event::Operator(Op::Halt), &None, &released);
        }
        (None, None) => text.clear(),
    }
}

/// Sets the text to the row of an entry with these parts, without its LF.
fn set_row(text: &mut Text, place: u32, event: &Event, facts: &Facts, outcome: &Outcome)
    ensures { text.new ≡ entry_text (record { place = place; event = event.now; facts = facts.now; outcome = outcome.now }) }
{
    text.clear();
    text.push_number(place);
    text.push_str(" ");
    text.push_event(event);
    text.push_str(" | ");
    text.push_facts(facts);
    text.push_str(" | ");
    text.push_outcome(outcome);
}
