//! The faults of a text that is no head.

use dp_line::RestoreFault;
use thiserror::Error;

/// The reason why a text isn't read as a head.
#[derive(Clone, Copy, Debug, PartialEq, Eq, Error)]
pub enum HeadFault {
    /// The row of this number, from 1, is wrong: it isn't there with its LF, or is no row of a head of the line, or the
    /// rows of a slave whose data have other lengths than its shape begin with it.
    #[error("row {0} is wrong")]
    WrongRow(u64),
    /// No line goes on from the world of the head.
    #[error("{0}")]
    Unsound(RestoreFault),
    /// Out of memory.
    #[error("out of memory")]
    OutOfMemory,
}
