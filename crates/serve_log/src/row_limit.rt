//! How many rows about one thing are written in one second.

/// The most rows about one thing in one second.
const MOST_ROWS: u32 = 10;

/// The number of rows about one thing that were written in this second, and of those that were left out since the last one.
#[derive(Clone, Copy, Default)]
pub(crate) struct RowLimit {
    second: u64,
    rows: u32,
    left_out: u32,
}

impl RowLimit {
    /// Returns whether one more row may be written in this second since 1970.
    pub(crate) fn has_room(&mut self, second: u64) -> bool {
        if second != self.second {
            self.second = second;
            self.rows = 0;
        }
        self.rows < MOST_ROWS
    }

    /// Counts a row that is written. Returns how many were left out since the one before it.
    pub(crate) fn count_written(&mut self) -> u32 {
        self.rows = self.rows.saturating_add(1);
        self.take_left_out()
    }

    /// Counts a row that is left out.
    pub(crate) fn leave_out(&mut self) {
        self.left_out = self.left_out.saturating_add(1);
    }

    /// Returns how many rows were left out since the last one, and forgets them.
    pub(crate) fn take_left_out(&mut self) -> u32 {
        std::mem::take(&mut self.left_out)
    }
}
