//! The rows that the cable writes.

ghost use Rattle.std.specs.Prelude.{◌≡◌, ◌+◌, ◌*◌, ◌≤◌, ◌++◌, length};
ghost use Rattle.dp_text.specs.Texts.{octets_text};
ghost use Rattle.cable_faults.specs.Rows.{answer_row, direction_text, done_row, treatment_text, fault_row, who_text};

use crate::line_text::push_line;
use crate::options::Direction;
use crate::order::{Answer, Line};
use crate::passing::Passage;
use crate::treatment::Treatment;
use dp_text::Text;

/// The row that answers a line that asks for nothing, with its LF.
pub const NOT_A_COMMAND: &str = "refused NotACommand\n";

/// Appends the row that answers a line, with its LF: `done LINE` if it is done, `refused TooMany` if too many orders wait,
/// and nothing if it waits for replies.
pub fn push_answer(text: &mut Text, answer: Answer, line: Line)
    requires { length text.old + 50 ≤ 1800 }
    ensures { text.new ≡ text.old ++ answer_row answer line }
{
    match answer {
        Answer::Done => push_done(text, line),
        Answer::Waits => {}
        Answer::TooMany => text.push_str("refused TooMany\n"),
    }
}

/// Appends the row `done LINE`, with its LF.
pub fn push_done(text: &mut Text, line: Line)
    requires { length text.old + 50 ≤ 1800 }
    ensures { text.new ≡ text.old ++ done_row line }
{
    text.push_str("done ");
    push_line(text, line);
    text.push(b'\n');
}

/// Appends the row of a fault, without an LF: `master M request A: FAULT BEFORE -> AFTER`, or `reply` in place of
/// `request`. M is the address of the master, A that of the slave or `-`, FAULT is `lost`, `spoilt`, `cut` or `late MS`,
/// and BEFORE and AFTER are the octets in hex, or `-` for none.
pub fn push_fault(text: &mut Text, master: u8, direction: Direction, passage: &Passage)
    requires { length text.old + 1100 ≤ 1800 }
    ensures { text.new ≡ text.old ++ fault_row master direction passage.now }
{
    push_who(text, master, direction, passage.decision.slave);
    push_treatment(text, passage.decision.treatment);
    push_octets(text, passage.before.as_slice());
    text.push_str(" -> ");
    push_octets(text, passage.sent().as_slice());
}

/// Appends whose telegram it is.
fn push_who(text: &mut Text, master: u8, direction: Direction, slave: Option<u8>)
    requires { length text.old + 30 ≤ 1800 }
    ensures text { text.new ≡ text.old ++ who_text master direction slave }
    ensures most { length text.new ≤ length text.old + 30 }
{
    text.push_str("master ");
    text.push_octet(master);
    text.push_str(direction_word(direction));
    match slave {
        Some(slave) => text.push_octet(slave),
        None => text.push(b'-'),
    }
    text.push_str(": ");
}

/// Returns the word of a direction, between spaces.
fn direction_word(direction: Direction) -> &'static str
    ensures word { result.now ≡ direction_text direction }
    ensures short { length result.now ≤ 9 }
{
    match direction {
        Direction::Request => " request ",
        Direction::Reply => " reply ",
    }
}

/// Appends the word of a fault, and a space; nothing if it is none.
fn push_treatment(text: &mut Text, treatment: Treatment)
    requires { length text.old + 20 ≤ 1800 }
    ensures text { text.new ≡ text.old ++ treatment_text treatment }
    ensures most { length text.new ≤ length text.old + 20 }
{
    match treatment {
        Treatment::Passed => {}
        Treatment::Withheld => {}
        Treatment::Lost => text.push_str("lost "),
        Treatment::Spoilt { .. } => text.push_str("spoilt "),
        Treatment::Cut { .. } => text.push_str("cut "),
        Treatment::Late { milliseconds } => {
            text.push_str("late ");
            text.push_number(milliseconds);
            text.push(b' ');
        }
    }
}

/// Appends octets as pairs of hex digits; `-` for none.
fn push_octets(text: &mut Text, octets: &[u8])
    requires { length text.old + 2 * length octets.now + 1 ≤ 1800 }
    ensures text { text.new ≡ text.old ++ octets_text octets.now }
    ensures most { length text.new ≤ length text.old + 2 * length octets.now + 1 }
{
    match octets {
        [] => text.push(b'-'),
        [_, ..] => text.push_hex(octets),
    }
}
