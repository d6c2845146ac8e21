//! How far the reading of a long text is.

use std::io::Eprint;
use std::time::{Clock, Duration};

/// How long a text is read before anything is shown, in milliseconds.
const SILENT_MS: u64 = 2_000;

/// The least time between two rows that are shown, in milliseconds.
const INTERVAL_MS: u64 = 500;

/// What overwrites the row that was shown. It is longer than any of these rows.
const BLANK: &str = "\r                                                  \r";

/// How far the reading of a text is. It is shown on one row of standard error.
#[derive(Clone, Copy)]
pub(crate) struct Progress {
    /// The number of bytes of the text.
    total: u64,
    /// The number of bytes that were read.
    read: u64,
    /// The number of rows that were read.
    rows: u64,
    /// When the text was opened.
    started: Duration,
    /// When something is to be shown next.
    next: Duration,
    /// Whether a row is shown.
    is_shown: bool,
}

impl Progress {
    /// Returns the progress of a text of this many bytes of which nothing was read yet; None if there is no clock.
    pub(crate) fn start(clock: &impl Clock, total: u64) -> Option<Progress> {
        let started = clock.monotonic().ok()?;
        Some(Progress {
            total,
            read: 0,
            rows: 0,
            started,
            next: started.saturating_add(Duration::from_millis(SILENT_MS)),
            is_shown: false,
        })
    }

    /// Counts bytes that were read, and shows how far the text is, if that is due.
    pub(crate) fn pass<H: Clock + Eprint>(&mut self, host: &H, bytes: &[u8]) {
        self.read = self.read.saturating_add(bytes.len() as u64);
        self.rows = self.rows.saturating_add(rows_in(bytes));
        let Ok(now) = host.monotonic() else {
            return;
        };
        if now < self.next {
            return;
        }
        self.next = now.saturating_add(Duration::from_millis(INTERVAL_MS));
        self.is_shown = true;
        let passed = now.saturating_sub(self.started).as_millis();
        let (percent, rate) = (self.percent(), self.rate(passed));
        let _ = eprint!(host; "\r  {percent} %, {rate} entries a second ");
    }

    /// Clears the row that is shown, if there is one.
    pub(crate) fn clear(&self, errors: &impl Eprint) {
        if self.is_shown {
            let _ = errors.eprint(BLANK);
        }
    }

    /// Returns how many of 100 parts of the text were read.
    fn percent(&self) -> u128 {
        match (u128::from(self.read) * 100).checked_div(u128::from(self.total)) {
            Some(percent) => percent.min(100),
            None => 100,
        }
    }

    /// Returns how many rows were read in a second, if this many milliseconds have passed.
    fn rate(&self, passed: u128) -> u128 {
        match (u128::from(self.rows) * 1_000).checked_div(passed) {
            Some(rate) => rate,
            None => 0,
        }
    }
}

/// Returns the number of bytes that end a row.
fn rows_in(bytes: &[u8]) -> u64 {
    bytes.iter().filter(|byte| **byte == b'\n').count() as u64
}
