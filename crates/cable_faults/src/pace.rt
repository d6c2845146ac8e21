//! When telegrams go out.

ghost use Rattle.std.specs.Prelude.{◌≡◌};
ghost use Rattle.cable_faults.specs.Paces.{due_at, first_pace, pace_after};

/// The microseconds of one millisecond.
const MILLISECOND: u64 = 1_000;

/// The moments at which telegrams of one direction go out, in microseconds from any moment. None goes out before one
/// that came before it.
#[derive(Clone, Copy, Debug, PartialEq, Eq)]
pub struct Pace {
    last: u64,
}

impl Pace {
    /// Returns the pace of a direction in which nothing has come yet.
    pub fn new() -> Pace
        ensures { result ≡ first_pace }
    {
        Pace { last: 0 }
    }

    /// Returns the moment at which a telegram goes out that came at a moment and waits for some milliseconds: then, or
    /// as soon as the telegram before it has gone out.
    pub fn due(&mut self, moment: u64, wait: u64) -> u64
        ensures due { result ≡ due_at self.old moment wait }
        ensures after { self.new ≡ pace_after self.old moment wait }
    {
        let earliest = moment.saturating_add(wait.saturating_mul(MILLISECOND));
        self.last = self.last.max(earliest);
        self.last
    }
}
