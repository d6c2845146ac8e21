//! Answers in a form that may be printed on a terminal.

use crate::incoming::LF;
use std::alloc::{AllocError, Global};

/// Returns an answer with an LF. Each octet that is not printable ASCII is escaped by its number in hex, as `\x1b`,
/// because a port may send control sequences of a terminal. Returns an error if memory is refused.
pub(crate) fn printable(alloc: Global, answer: &[u8]) -> Result<Vec<u8>, AllocError> {
    let mut text = Vec::new(alloc);
    for octet in answer {
        if octet.is_ascii_graphic() || *octet == b' ' {
            text.push(*octet)?;
        } else {
            let escaped = format!(in alloc; "\\x{octet:02x}")?;
            text.extend_from_slice(escaped.as_bytes())?;
        }
    }
    text.push(LF)?;
    Ok(text)
}
