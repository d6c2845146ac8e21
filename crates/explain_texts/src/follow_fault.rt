//! The reasons why a row of an audit text is not followed.

use crate::explain_fault::ExplainFault;
use dp_audit::AuditFault;
use thiserror::Error;

/// A reason why a row of an audit text is not followed.
#[derive(Clone, Copy, Debug, Error)]
pub enum FollowFault {
    /// The row, or one before it, is wrong: the fault of the first wrong row, with its number in the text.
    #[error("{0}")]
    Wrong(AuditFault),
    /// The row is right, and its event is taken, but what is written of it was not written, or not whole.
    #[error("{0}")]
    Explain(ExplainFault),
}
