//! The description of a rack.

use dp_line::LineSpec;

/// A rack: its workers and its lines, in the order of the file.
#[derive(Debug, Drop)]
pub struct Rack {
    /// The number of workers that serve sessions, 1 to 32.
    pub workers: u8,
    /// The lines, 1 to 8 of them.
    pub lines: Vec<RackLine>,
}

/// A line of a rack, and the ports where it listens.
#[derive(Debug, Drop)]
pub struct RackLine {
    /// The description of the line.
    pub spec: LineSpec,
    /// The port for masters; None if the file names none.
    pub listen: Option<u16>,
    /// The port for operators; None if the file names none.
    pub operator: Option<u16>,
}
