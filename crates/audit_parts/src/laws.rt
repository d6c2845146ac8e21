//! Laws of a check of parts: what empty functions ensure.

ghost use Rattle.std.specs.Prelude.{◌≡◌, ◌∷◌, ◌++◌, ◌<◌, ℕ, List, [], None, map};
ghost use Rattle.std.specs.List.{AllByRecursion};
ghost use Rattle.dp_line.specs.World.{Description};
ghost use Rattle.dp_text.specs.Words.{lines_of};
ghost use Rattle.dp_audit.specs.AuditText.{header_text, line_text};
ghost use Rattle.dp_audit.specs.Check.{checked, checked_lines};
ghost use Rattle.audit_heads.specs.Rows.{spaced};
ghost use Rattle.audit_heads.specs.Head.{Head, head_rows, place_of_row};
ghost use Rattle.audit_parts.specs.Parts.{PartsView, parts_checked, rows_checked};

/// The rows of the head that is due, between two entries or behind the last one, change nothing of a check: parts in a row
/// are checked as one text.
pub fn a_head_that_is_due_changes_nothing()
    ensures { (view : PartsView) (next : List ℕ) (others : List (List ℕ)) → view.awaited ≡ [] → view.line < 256 → view.head.world.count < 4294967296
        → rows_checked view (map spaced (head_rows view.line view.head) ++ next ∷ others) ≡ rows_checked view (next ∷ others) }
{}

/// Between two heads, or behind the last one, rows are checked as those of a text without heads behind as many entries.
pub fn rows_between_heads_are_checked_as_in_a_text()
    ensures { (line : ℕ) (head : Head) (rows : List (List ℕ)) → AllByRecursion (λ (row : List ℕ). place_of_row line row ≡ None) rows
        → rows_checked (record { line = line; head = head; awaited = [] }) rows ≡ checked_lines head.world head.world.count rows }
{}

/// A text from its header on, in which no part has a head, is checked as the text of a line whose places are not limited.
pub fn a_text_without_heads_is_checked_as_one_text()
    ensures { (line : Description) (rows : List ℕ) → AllByRecursion (λ (row : List ℕ). place_of_row line.number row ≡ None) (lines_of rows)
        → parts_checked line (line_text (header_text 3 line.number) ++ rows) ≡ checked line (line_text (header_text 3 line.number) ++ rows) }
{}
