//! What is due by the clock.

ghost use Rattle.std.specs.Prelude.{◌≡◌};
ghost use Rattle.serve_clock.specs.Moments.{due_at, first_schedule, is_taken, schedule_after, taken_after, wait_for_both};

use crate::beat::Beat;

/// What is due at a moment.
#[derive(Clone, Copy, Debug, PartialEq, Eq)]
pub struct Due {
    /// The time of the lines is advanced.
    pub tick: bool,
    /// The devices update the inputs of their slaves.
    pub step: bool,
}

/// A schedule of ticks and steps, of only one of them, or of neither.
#[derive(Clone, Copy, Debug, PartialEq, Eq)]
pub struct Schedule {
    tick: Option<Beat>,
    step: Option<Beat>,
}

impl Schedule {
    /// Returns a schedule at moment 0, with a tick and a step at each multiple of these milliseconds; None has none.
    pub fn new(tick: Option<u32>, step: Option<u32>) -> Schedule
        ensures { result ≡ first_schedule tick step }
    {
        Schedule {
            tick: tick.map(|every| Beat::new(every)),
            step: step.map(|every| Beat::new(every)),
        }
    }

    /// Returns what is due at a moment, and marks it as done.
    pub fn take(&mut self, moment: u64) -> Due
        ensures due { result ≡ due_at self.old moment }
        ensures after { self.new ≡ schedule_after self.old moment }
    {
        Due {
            tick: take_beat(&mut self.tick, moment),
            step: take_beat(&mut self.step, moment),
        }
    }

    /// Returns how many milliseconds are left at a moment until something is due; None if the schedule has neither
    /// ticks nor steps.
    pub fn wait(&self, moment: u64) -> Option<u64>
        ensures { result ≡ wait_for_both self.now moment }
    {
        let tick = self.tick.map(|beat| beat.wait(moment));
        let step = self.step.map(|beat| beat.wait(moment));
        match (tick, step) {
            (Some(tick), Some(step)) => Some(tick.min(step)),
            (Some(tick), None) => Some(tick),
            (None, step) => step,
        }
    }
}

/// Returns whether an action is due at a moment, and marks it as done; false if there is no action.
fn take_beat(beat: &mut Option<Beat>, moment: u64) -> bool
    ensures due { result ≡ is_taken beat.old moment }
    ensures after { beat.new ≡ taken_after beat.old moment }
{
    match beat {
        Some(beat) => beat.take(moment),
        None => false,
    }
}
