//! A piece of a master's stream that was taken.

use dp_telegram::FrameFault;

/// A piece of a master's stream that was taken.
#[derive(Clone, Copy, Debug, PartialEq, Eq)]
pub enum TakenPiece {
    /// A frame. It was one event of the line.
    Frame,
    /// Octets that are no frame. They were dropped, and are no event.
    Dropped {
        /// The reason why they were dropped.
        fault: FrameFault,
        /// The number of octets, 1 to 255.
        count: u8,
    },
}
