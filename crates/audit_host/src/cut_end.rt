//! Reports that an audit text ends within a row, as after a kill.

use crate::verdict::Verdict;
use serve_log::Escaped;

/// Reports the row within which the audit text of these files ends, if this is the verdict on it.
pub(crate) fn note_cut_row(errors: &impl Eprint, audit: &[&str], verdict: &Verdict) {
    let Some(row) = verdict.cut_row() else {
        return;
    };
    let Some((last, others)) = audit.split_last() else {
        return;
    };
    let of = place_words(others.len());
    let _ = eprintln!(errors;
        "  row {row} of {of}{}: the text ends within this row, as after a kill",
        Escaped(*last)
    );
}

/// Returns the words between `of` and the path of the file in which a row is, if the text has this number of other files. Rows
/// are counted from the beginning of the text.
pub(crate) fn place_words(others: usize) -> &'static str {
    if others == 0 { "" } else { "the text, in " }
}
