//! The result of a call.

/// The result of a call.
#[derive(Clone, Copy, Debug, PartialEq, Eq)]
pub(crate) enum Answer {
    /// The call succeeded, and answered and wrote all that it has to.
    Whole,
    /// The call returned that memory, or a thread, was refused; what it wrote is the beginning of the whole.
    Refused,
    /// The call was refused, and what it wrote is not the beginning of the whole.
    NoBeginning,
    /// The call returned something else.
    Other,
    /// The arguments could not be prepared, and the call was not made.
    Unprepared,
    /// There is no such call.
    NoCall,
}
