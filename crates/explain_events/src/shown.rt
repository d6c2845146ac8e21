//! The slaves of a line, read where they lie.

ghost use Rattle.std.specs.Prelude.{◌≡◌};
ghost use Rattle.std.specs.Option.{option_copied};
ghost use Rattle.explain_events.specs.Shown.{shown_at, shown_if_any};

use dp_line::LineState;
use dp_slave::Slave;

/// Returns the slave of a line that has this address, 0 to 126, to read it where it lies; None if there is none.
pub fn slave_at(line: &LineState, address: u8) -> Option<&Slave>
    ensures { shown_if_any (option_copied result) ≡ shown_at line.now.world address }
{
    line.slave(address)
}
