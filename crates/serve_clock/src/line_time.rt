//! The time that passes on a line.

ghost use Rattle.std.specs.Prelude.{◌≡◌};
ghost use Rattle.serve_clock.specs.Moments.{advance_at, first_time, time_after, units_passed as units_passed_at};

/// The milliseconds of one unit of a tick.
const UNIT: u64 = 10;

/// How far the time of a line advances at one moment, in units of 10 ms.
#[derive(Clone, Copy, Debug, PartialEq, Eq)]
pub struct Advance {
    /// The units that pass on the line.
    pub units: u32,
    /// The units that are cut off: they never pass on the line.
    pub cut_off: u64,
}

/// The time of a line, which ticks advance: the most units that one tick may have, and the units that have passed on the
/// line or were cut off.
///
/// A tick is late if the program was held up: stopped by a signal, or without a processor. Time in which nobody is
/// answered doesn't pass on the line, since a watchdog would release the slave of a master that never paused.
#[derive(Clone, Copy, Debug, PartialEq, Eq)]
pub struct LineTime {
    most: u32,
    counted: u64,
}

impl LineTime {
    /// Returns the time of a line at moment 0, with a tick at least each `tick` milliseconds, 10 or more. A tick has at
    /// most twice these milliseconds.
    pub fn new(tick: u32) -> LineTime
        ensures { result ≡ first_time tick }
    {
        LineTime {
            most: tick / 5,
            counted: 0,
        }
    }

    /// Advances the time to a moment. The units that have passed since it was advanced before pass on the line, as many as
    /// one tick may have, and the others are cut off. A moment before that one advances nothing.
    pub fn advance(&mut self, moment: u64) -> Advance
        ensures advance { result ≡ advance_at self.old moment }
        ensures after { self.new ≡ time_after self.old moment }
    {
        let since = units_passed(moment).saturating_sub(self.counted);
        let units = since.min(u64::from(self.most));
        self.counted += since;
        Advance {
            units: units as u32,
            cut_off: since - units,
        }
    }

    /// Returns the units that have passed on the line or were cut off.
    pub fn counted(&self) -> u64
        ensures { result ≡ (self.now).counted }
    {
        self.counted
    }
}

/// Returns the whole units of 10 ms that have passed by a moment.
pub fn units_passed(moment: u64) -> u64
    ensures { result ≡ units_passed_at moment }
{
    moment / UNIT
}
