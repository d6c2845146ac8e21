//! The units of time that were counted on a line, for a session to which they suffice.

ghost use Rattle.std.specs.Prelude.{◌≡◌};

use crate::line_time::units_passed;
use crate::ticker::Ticker;
use std::sync::atomic::AtomicU64;
use std::sync::atomic::Ordering::SeqCst;

/// The units of time that were counted on a line, which threads read without the lock of the ticker.
///
/// A session that finds all units counted that have passed exchanges its request without a tick. So a unit may be
/// counted here only when its tick is in the journal. [`CountedUnits::count`] requires the ticker that has counted
/// these units. By its type it has sent their ticks, and they are receipts of its pass, unless the line is halted.
#[derive(Drop)]
pub(crate) struct CountedUnits {
    units: AtomicU64,
}

impl CountedUnits {
    /// Returns the units of a line with ticks, none of which was counted yet.
    pub(crate) fn none() -> CountedUnits {
        CountedUnits {
            units: AtomicU64::new(0),
        }
    }

    /// Returns the units of a line without ticks: there is nothing to count.
    pub(crate) fn all() -> CountedUnits {
        CountedUnits {
            units: AtomicU64::new(u64::MAX),
        }
    }

    /// Returns whether all units were counted that have passed by a moment.
    pub(crate) fn include(&self, moment: u64) -> bool {
        units_passed(moment) <= self.units.load(SeqCst)
    }

    /// Counts these units: all that the ticker has counted, so that it has sent their ticks.
    pub(crate) fn count(&self, ticker: &Ticker<'_>, units: u64)
        requires { units ≡ (ticker.now.time).counted }
    {
        self.units.store(units, SeqCst);
    }
}
