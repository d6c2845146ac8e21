//! The sentence in the rows of an explained entry.

ghost use Rattle.std.specs.Prelude.{◌≡◌, option_map};
ghost use Rattle.dp_text.specs.Words.{lines_of};
ghost use Rattle.embedded_rack.specs.EntryReasons.{first_result, result_of_row};

use dp_text::{Lines, is_text};

/// Returns the text of the first row with the result of an entry; nothing if there is none.
pub(crate) fn result_in(rows: &[u8]) -> &[u8]
    ensures { result.now ≡ first_result (lines_of rows.now) }
{
    let mut lines = Lines::new(rows);
    while let Some(row) = lines.next() {
        if let Some(text) = result_of_row(row) {
            return text;
        }
    }
    b""
}

/// Returns the text of a row with the result of an entry; None for another row.
fn result_of_row(row: &[u8]) -> Option<&[u8]>
    ensures { option_map (λ text. text.now) result ≡ result_of_row row.now }
{
    if row.len() < 19 {
        return None;
    }
    let (label, text) = row.split_at(19);
    if is_text(label, b"       result      ") {
        Some(text)
    } else {
        None
    }
}
