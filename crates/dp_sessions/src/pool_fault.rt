//! Why a pool of workers did not serve.

ghost use Rattle.std.specs.Prelude.{◌≡◌};
ghost use Rattle.dp_sessions.specs.Codes.{pool_fault_code};

use thiserror::Error;

/// Why a pool of workers did not serve (own).
#[derive(Clone, Copy, Debug, PartialEq, Eq, Error)]
pub enum PoolFault {
    /// Out of memory, before a worker started.
    /// It never comes, because the caller has the lists of seats and a pool takes no memory. The variant stays,
    /// because the number 1 is assigned to it.
    #[error("out of memory")]
    OutOfMemory,
    /// A worker could not be started. Those that had started served jobs until the channel closed.
    #[error("no thread")]
    NoThread,
}

impl PoolFault {
    /// Returns the number of the fault, 1 or 2 (own).
    pub const fn code(self) -> u8
        ensures { result ≡ pool_fault_code self }
    {
        match self {
            PoolFault::OutOfMemory => 1,
            PoolFault::NoThread => 2,
        }
    }
}
