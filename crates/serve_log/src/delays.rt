//! Time that was discarded because the rack was delayed.

use arrayvec::ArrayVec;

/// The most lines of a rack.
const MOST_LINES: usize = rack_file::MOST_LINES as usize;

/// The time that a line has lost in this second.
#[derive(Clone, Copy, Default)]
struct LineDelay {
    line: u8,
    milliseconds: u64,
}

/// The time that the lines of a rack have lost in this second, and how much of it was reported.
///
/// A delay concerns all lines of a rack, and each reports its own: the rack has lost what the line lost that lost most. A second
/// has at most one report.
#[derive(Default, Drop)]
pub(crate) struct Delays {
    second: u64,
    lines: ArrayVec<LineDelay, MOST_LINES>,
    /// How much of what was lost in this second was reported.
    reported: u64,
    has_report: bool,
}

impl Delays {
    /// Adds the milliseconds that a line has lost in this second since 1970. Returns the milliseconds to report, with what an
    /// earlier second left; None if this second has its report.
    pub(crate) fn add(&mut self, second: u64, line: u8, milliseconds: u64) -> Option<u64> {
        let left = self.begin(second);
        self.add_to(line, milliseconds);
        if self.has_report {
            return None;
        }
        self.has_report = true;
        self.reported = milliseconds;
        Some(left.saturating_add(milliseconds))
    }

    /// Returns what an earlier second left to report in this second since 1970, if it left anything.
    pub(crate) fn left(&mut self, second: u64) -> Option<u64> {
        let left = self.begin(second);
        if left == 0 {
            return None;
        }
        self.has_report = true;
        Some(left)
    }

    /// Begins this second, unless it has begun. Returns what the one before left to report.
    fn begin(&mut self, second: u64) -> u64 {
        if second == self.second {
            return 0;
        }
        let left = self.most().saturating_sub(self.reported);
        self.second = second;
        self.lines.clear();
        self.reported = 0;
        self.has_report = false;
        left
    }

    /// Adds to what a line has lost in this second.
    fn add_to(&mut self, line: u8, milliseconds: u64) {
        for delay in &mut self.lines {
            if delay.line == line {
                delay.milliseconds = delay.milliseconds.saturating_add(milliseconds);
                return;
            }
        }
        let _ = self.lines.try_push(LineDelay { line, milliseconds });
    }

    /// Returns what the line has lost that has lost most in this second.
    fn most(&self) -> u64 {
        let mut most = 0;
        for delay in &self.lines {
            most = delay.milliseconds.max(most);
        }
        most
    }
}
