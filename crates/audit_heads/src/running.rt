//! What the row of the line says.

/// What the row of the line says.
#[derive(Clone, Copy, Debug, PartialEq, Eq)]
pub struct Running {
    /// The line is halted.
    pub halted: bool,
    /// The sum of the ticks so far, in units of 10 ms; `None` before the first tick.
    pub time: Option<u64>,
}
