//! Reads a line of the operator into a buffer for its event.

ghost use Rattle.embedded_rack.specs.Asking.{IsAsked};
ghost use Rattle.dp_text.specs.OpLines.{op_line_of};

use dp_line::{Event, Op};
use dp_text::{OpLineKind, op_line_into};

/// Reads a line of the operator; None if it is no command. If the line asks for an event, `event` becomes that event.
/// If `event` already is one of the operator's, it is overwritten in place.
pub(crate) fn asked_in(line: &[u8], event: &mut Event) -> Option<OpLineKind>
    ensures { IsAsked (op_line_of line.now) result event.new }
{
    match event {
        Event::Operator(op) => op_line_into(line, op),
        Event::Request { .. } => asked_anew(line, event),
    }
}

/// Reads a line of the operator into an event that is a request. See [`asked_in`].
fn asked_anew(line: &[u8], event: &mut Event) -> Option<OpLineKind>
    ensures { IsAsked (op_line_of line.now) result event.new }
{
    let mut op = Op::Halt;
    let asked = op_line_into(line, &mut op);
    *event = Event::Operator(op);
    asked
}
