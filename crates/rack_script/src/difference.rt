//! The first row of an audit text that is not what the policy gives.

use crate::two_lines::TwoLines;
use dp_audit::AuditFault;
use dp_line::LineSpec;
use explain_texts::{ReadFault, TextRows};
use std::alloc::Global;
use std::io::BufRead;

/// A row of an audit text that is not what the policy gives.
#[derive(Drop)]
pub struct Difference {
    /// The number of the row in the text, from 1, the header. Rows of heads are not counted: each has the number of the next
    /// entry's row.
    pub row: u64,
    /// What is written there.
    pub written: String,
    /// What the policy gives; empty if it gives no entry.
    pub expected: String,
}

/// Returns the first row of an audit text that is not what the policy gives, if a check on this line says that there is one.
/// `front` is the header of the text with its LF, or the head with which it begins; the rows behind it are read up to this
/// one. It takes the memory of two lines, and of a head.
///
/// Returns `OutOfMemory` if memory runs out, and `CannotRead` if a read fails.
pub fn difference_in<R: BufRead>(
    alloc: Global,
    line: &LineSpec,
    front: &[u8],
    rows: &mut TextRows<R>,
) -> Result<Option<Difference>, ReadFault> {
    if line.fault().is_some() {
        return Ok(None);
    }
    let Some(mut lines) = TwoLines::open(alloc, line, front)? else {
        return Ok(None);
    };
    for _ in 0..u64::MAX {
        if !rows.read_row()? {
            return Ok(None);
        }
        match lines.take_row(rows.row()) {
            Ok(()) => {}
            Err(AuditFault::NotThePolicy(row)) => {
                return lines.difference(alloc, row, rows.row());
            }
            Err(AuditFault::BadLine(_) | AuditFault::OutOfMemory) => return Ok(None),
        }
    }
    Ok(None)
}

/// Returns the difference of the row of this number, in the place of which this row is expected.
pub(crate) fn row_difference(
    alloc: Global,
    number: u64,
    row: &[u8],
    expected: &[u8],
) -> Result<Option<Difference>, ReadFault> {
    let Ok(written) = String::from_utf8_lossy(alloc, row) else {
        return Err(ReadFault::OutOfMemory);
    };
    let Ok(expected) = String::from_utf8_lossy(alloc, expected) else {
        return Err(ReadFault::OutOfMemory);
    };
    Ok(Some(Difference {
        row: number,
        written,
        expected,
    }))
}
