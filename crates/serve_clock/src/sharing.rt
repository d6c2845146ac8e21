//! What threads may share. A function here is accepted only if threads may share its argument.

use crate::line_clock::LineClock;

/// Proves that threads may share the clock of a line.
pub fn a_clock_is_shared(clock: &LineClock<'_>) {
    is_shared(clock);
}

fn is_shared<T: Sync>(value: &T) {
    let _ = value;
}
