//! The time that passes on a line.

ghost use Rattle.std.specs.Prelude.{◌≡◌};
ghost use Rattle.dp_audit.specs.Lent.{event_lent};
ghost use Rattle.dp_audit.specs.Times.{time_after};

use crate::event_lent::EventLent;
use dp_line::{Event, Op};

/// Returns the sum of the ticks up to and including an event, in units of 10 ms: None before the first tick. It stops at
/// the largest number of 64 bits.
///
/// Leave out a tick that was refused, or instead of which the halt was recorded.
pub fn time_after(time: Option<u64>, event: &Event) -> Option<u64>
    ensures { result ≡ time_after time event.now }
{
    match event {
        Event::Operator(Op::Tick(units)) => {
            Some(time.unwrap_or(0).saturating_add(u64::from(*units)))
        }
        Event::Operator(Op::Input { .. }) => time,
        Event::Operator(Op::Diag { .. }) => time,
        Event::Operator(Op::Busy { .. }) => time,
        Event::Operator(Op::Halt) => time,
        Event::Request { .. } => time,
    }
}

/// Returns the sum of the ticks up to and including a borrowed event, as [`time_after`] does.
pub fn time_after_lent(time: Option<u64>, event: EventLent<'_>) -> Option<u64>
    ensures { result ≡ time_after time (event_lent event.entry) }
{
    match event {
        EventLent::Frame { .. } => time,
        EventLent::Event(event) => time_after(time, event),
    }
}
