//! One step of the devices of a line.

ghost use Rattle.std.specs.Prelude.{◌≡◌, ◌≤◌, if◌then◌else◌, length};
ghost use Rattle.dp_line.specs.declared.event.Event.TheVariants.{Operator};
ghost use Rattle.rack_devices.specs.declared.driven_slave.TheConstants.{MOST_DRIVEN};
ghost use Rattle.embedded_rack.specs.DeviceSteps.{fed_by, fed_once, fed_each};

use dp_audit::Book;
use dp_line::{Event, Op, Step};
use rack_devices::DrivenSlave;

/// Updates the inputs of these slaves by their devices, one after another. Returns how many inputs were recorded.
pub(crate) fn feed_each(book: &mut Book, driven: &[DrivenSlave]) -> u8
    requires { length driven.now ≤ MOST_DRIVEN }
    ensures { record { journal = book.new; recorded = result } ≡ fed_each book.old driven.now }
{
    let mut recorded = 0;
    let mut left = driven;
    while let [slave, rest @ ..] = left {
        if feed(book, *slave) {
            recorded += 1;
        }
        left = rest;
    }
    recorded
}

/// Updates the inputs of a slave by its device. Returns whether that was recorded.
fn feed(book: &mut Book, driven: DrivenSlave) -> bool
    ensures { record { journal = book.new; recorded = if result then 1 else 0 } ≡ fed_once book.old driven }
{
    match book.state().view(driven.address) {
        Some(slave) => take(book, driven.next_input(&slave)),
        None => false,
    }
}

/// Takes the event of a device. Returns whether it was recorded.
fn take(book: &mut Book, op: Op) -> bool
    ensures { record { journal = book.new; recorded = if result then 1 else 0 } ≡ fed_by book.old (Operator op) }
{
    let mut step = Step::blank();
    book.take_into(&Event::Operator(op), &mut step);
    step.place.is_some()
}
