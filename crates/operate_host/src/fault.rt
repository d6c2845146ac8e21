//! Why a client ends early.

use system_errors::Cause;
use thiserror::Error;

/// Why a client ended early.
#[derive(Clone, Copy, Debug, PartialEq, Eq, Error)]
pub enum ClientFault {
    /// The client cannot connect to the port.
    #[error("cannot connect")]
    CannotConnect(Cause),
    /// The connection ended before the input did, or before a line of the input was answered.
    #[error("the connection ended")]
    PortEnded,
    /// An answer has more than 65,536 octets, without its LF.
    #[error("an answer is too long")]
    LongAnswer,
    /// The input cannot be read.
    #[error("cannot read")]
    CannotRead(Cause),
    /// An answer cannot be written.
    #[error("cannot write")]
    WriteFault,
    /// Out of memory, or a thread could not be started.
    #[error("out of memory")]
    OutOfMemory,
}
