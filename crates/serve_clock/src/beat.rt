//! Actions that are due at regular times.

ghost use Rattle.std.specs.Prelude.{◌≡◌, ◌/◌};
ghost use Rattle.serve_clock.specs.Moments.{beat_after, first_beat, is_due as is_due_at, wait_at};

/// An action that is due at each multiple of `every` milliseconds, 1 or more, and the moment at which it was done last.
/// A late one delays none after it, and those that were missed aren't made up for. One with 0 milliseconds is never due.
#[derive(Clone, Copy, Debug, PartialEq, Eq)]
pub struct Beat {
    every: u32,
    last: u64,
}

impl Beat {
    /// Returns an action that is due at each multiple of `every` milliseconds, at moment 0.
    pub fn new(every: u32) -> Beat
        ensures { result ≡ first_beat every }
    {
        Beat { every, last: 0 }
    }

    /// Returns whether it is due at a moment: a multiple has passed since it was done last. If so, marks it as done.
    pub fn take(&mut self, moment: u64) -> bool
        ensures due { result ≡ is_due_at self.old moment }
        ensures after { self.new ≡ beat_after self.old moment }
    {
        let is_due = self.is_due(moment);
        if is_due {
            self.last = moment;
        }
        is_due
    }

    /// Returns how many milliseconds are left at a moment until it is due; 0 if it is due, and 0 for one with 0
    /// milliseconds.
    pub fn wait(&self, moment: u64) -> u64
        ensures { result ≡ wait_at self.now moment }
    {
        if self.is_due(moment) {
            return 0;
        }
        match moment.checked_rem(u64::from(self.every)) {
            Some(past) => u64::from(self.every) - past,
            None => 0,
        }
    }

    /// Returns whether it is due at a moment.
    fn is_due(&self, moment: u64) -> bool
        ensures { result ≡ is_due_at self.now moment }
    {
        self.rounds(self.last) < self.rounds(moment)
    }

    /// Returns how many multiples have passed by a moment; 0 for one with 0 milliseconds.
    fn rounds(&self, moment: u64) -> u64
        ensures { result ≡ moment / (self.now).every }
    {
        moment.checked_div(u64::from(self.every)).unwrap_or(0)
    }
}
