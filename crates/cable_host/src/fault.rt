//! Why a cable is not served, or no longer.

use system_errors::Cause;
use thiserror::Error;

/// Why a cable is not served, or no longer.
#[derive(Clone, Copy, Debug, PartialEq, Eq, Error)]
pub enum CableFault {
    /// It cannot listen at its port.
    #[error("cannot listen")]
    CannotListen(Cause),
    /// A row cannot be written to standard output.
    #[error("cannot write")]
    WriteFault,
    /// Out of memory, or a thread could not be started.
    #[error("out of memory")]
    OutOfMemory,
}
