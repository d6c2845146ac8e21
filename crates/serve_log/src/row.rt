//! One row.

use crate::escaped::Escaped;
use arrayvec::ArrayString;
use std::fmt::{Display, Write};

/// The most bytes of a row. A longer text is cut off.
const MOST_BYTES: usize = 2_048;

/// The text of a row, without its LF.
pub(crate) type Row = ArrayString<MOST_BYTES>;

/// Returns the text of a value as a row, with each character of `is_escaped` escaped.
pub(crate) fn row_of(value: impl Display + Drop) -> Row {
    let mut row = Row::new();
    let _ = write!(row, "{}", Escaped(value));
    row
}
