//! What is reported of how an audit text begins.

use crate::audit_text::{FirstRow, HEADER};
use std::process::ExitCode;

/// What is reported of a text that begins with a later part, where only a check and an explanation begin.
const LATER_PART: &str =
    "  row 1: the head of a later part; give the files of the text from the first part on";

/// What is reported of a text that is not legal and has no header.
const NO_HEADER: &str =
    "  row 1: expected a header, as \"rack-audit 2 line 1\"; leave out a row \"ready\" before it";

/// Returns the exit status of an audit text that was read from this first row on. If the text is not legal and lacks a header,
/// reports that.
pub(crate) fn noted_header(rt: &impl Eprint, first_row: FirstRow, status: u8) -> ExitCode {
    if status != 0 && first_row == FirstRow::Other {
        let _ = rt.eprintln(NO_HEADER);
    }
    ExitCode::from(status)
}

/// Reports that a text begins with a later part, but has to begin with its first part.
pub(crate) fn note_first_part(rt: &impl Eprint) {
    let _ = rt.eprintln(LATER_PART);
}

/// Reports that a text does not begin as an audit text, unless it does.
pub(crate) fn note_header(rt: &impl Eprint, text: &[u8]) {
    if !text.starts_with(HEADER) {
        let _ = rt.eprintln(NO_HEADER);
    }
}
