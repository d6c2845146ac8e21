//! How much of a processor following takes.

use std::time::Duration;

/// How long it waits before it reads on if all that was written is read, in milliseconds.
const READ_INTERVAL_MS: u64 = 25;

/// How many times as long as a round took it waits after it, so that it takes a tenth of a processor.
const REST: u32 = 9;

/// How much of a processor following takes at the most.
#[derive(Clone, Copy, Debug, PartialEq, Eq)]
pub(crate) enum ProcessorShare {
    /// All of one, until all that was written is read.
    Whole,
    /// A tenth of one, so that a rack that is served beside it answers as fast as without it.
    Tenth,
}

impl ProcessorShare {
    /// Returns how long to wait after a round that took so long. `has_more` is whether there may be more to read.
    pub(crate) fn pause(self, took: Duration, has_more: bool) -> Duration {
        let least = if has_more {
            Duration::ZERO
        } else {
            Duration::from_millis(READ_INTERVAL_MS)
        };
        match self {
            ProcessorShare::Whole => least,
            ProcessorShare::Tenth => least.max(took.saturating_mul(REST)),
        }
    }
}
