//! The reasons why an explanation of rows that are read ends early.

use crate::explain_fault::ExplainFault;
use crate::read_fault::ReadFault;

/// A reason why an explanation of rows that are read ends early. What was written before stays written.
#[derive(Clone, Copy, Debug)]
pub enum RowsFault {
    /// The text was not read whole, or its wrong row is not UTF-8.
    Read(ReadFault),
    /// The explanation was not written whole.
    Explain(ExplainFault),
}
