//! What the text of a line was found to be.

/// What the text of a line was found to be so far.
#[derive(Clone, Copy, Debug, PartialEq, Eq)]
pub enum TextVerdict {
    /// Its header has not come yet.
    Empty,
    /// All rows so far are right.
    Legal,
    /// The row with this number is badly formed; the header is row 1.
    BadLine(u64),
    /// The row with this number is not what the policy gives.
    NotThePolicy(u64),
}
