//! Why a rack is not followed, or no longer followed.

use rack_file::RackFault;
use std::alloc::{AllocError, AllocFailed};
use system_errors::Cause;
use thiserror::Error;

/// Why a rack is not followed, or no longer followed (own).
#[derive(Clone, Copy, Debug, Error)]
pub enum WatchFault {
    /// Memory was refused.
    #[error("out of memory")]
    OutOfMemory,
    /// A thread was refused.
    #[error("too few threads")]
    FewThreads,
    /// The address of the page cannot be written.
    #[error("cannot write")]
    WriteFault,
    /// The rack is not accepted.
    #[error("the rack is not accepted")]
    Rack(RackFault),
    /// This port cannot be listened at, or there are too few descriptors for its connections; 0 if the system was to
    /// choose a port.
    #[error("cannot listen on {0}")]
    CannotListen(u16, Cause),
}

impl From<AllocError> for WatchFault {
    fn from(_fault: AllocError) -> WatchFault {
        WatchFault::OutOfMemory
    }
}

impl<T: Drop> From<AllocFailed<T>> for WatchFault {
    fn from(_fault: AllocFailed<T>) -> WatchFault {
        WatchFault::OutOfMemory
    }
}
