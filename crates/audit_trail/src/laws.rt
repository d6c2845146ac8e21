//! Laws of trails. Each law is what an empty function ensures.

ghost use Rattle.std.specs.Prelude.{◌≡◌, ◌≤◌, ℕ, List, ◌∷◌, ◌++◌, None, Some, length, map, slice_get, take};
ghost use Rattle.dp_line.specs.World.{description_of, opening_fault};
ghost use Rattle.dp_line.specs.declared.description.LineSpec.{LineSpec};
ghost use Rattle.dp_audit.specs.declared.entry.Receipt.{Receipt};
ghost use Rattle.audit_heads.specs.Head.{Head};
ghost use Rattle.dp_shared.specs.Content.{Content, IsHistory, head_behind};
ghost use Rattle.dp_shared.specs.LineLock.{FitsPass, IsOf, IsPassAt, LineRule, Slotted, first_entries, world_after};
ghost use Rattle.dp_shared.specs.declared.line_view.Answer.{Answer};
ghost use Rattle.dp_shared.specs.declared.line_view.Look.{Look};
ghost use Rattle.dp_shared.specs.declared.line_view.Question.{Question};
ghost use Rattle.dp_shared.specs.declared.line_view.PassView.{PassView};
ghost use Rattle.audit_trail.specs.TextLines.{HasLineOf};
ghost use Rattle.audit_trail.specs.Trails.{AreFrom, HeadsFollow, MissedOne, SawAll, found, parts_text, seen_text, without_heads};

/// The entries that a pass saw at the places from 1 on are the first entries of its line's journal. This holds
/// at every moment: whenever the invariant of the line's lock holds, and so between any two steps of the lock, and
/// when the line is closed. So what a trail has written is a prefix of the line's audit text.
pub fn a_trail_has_the_first_entries()
    ensures always { (line : LineSpec) (state : Slotted) (rule : LineRule line state) (seat index : ℕ) (pass : PassView)
        → IsPassAt state seat index pass → AreFrom 1 (found pass.looks)
        → map (λ seen. seen.1) (found pass.looks) ≡ take (length (found pass.looks)) rule.content.book.entries }
    ensures closed { (content : Content) (pass : PassView) → FitsPass content pass → AreFrom 1 (found pass.looks)
        → map (λ seen. seen.1) (found pass.looks) ≡ take (length (found pass.looks)) content.book.entries }
{}

/// A trail that caught up has seen as many entries as the journal had at the trail's last look. They are the
/// first entries of the line's journal, and none of them is missing. This holds at every moment, as above.
pub fn a_trail_that_is_written_up_to_has_all()
    ensures always { (line : LineSpec) (state : Slotted) (rule : LineRule line state) (seat index : ℕ) (pass : PassView) (seen : ℕ)
        → IsPassAt state seat index pass → AreFrom 1 (found pass.looks) → length (found pass.looks) ≡ seen → (all : SawAll pass.looks seen)
        → (seen ≡ all.last.count) × (all.last.count ≤ length rule.content.book.entries)
        × (map (λ one. one.1) (found pass.looks) ≡ take all.last.count rule.content.book.entries) }
    ensures closed { (content : Content) (pass : PassView) (seen : ℕ)
        → FitsPass content pass → AreFrom 1 (found pass.looks) → length (found pass.looks) ≡ seen → (all : SawAll pass.looks seen)
        → (seen ≡ all.last.count) × (all.last.count ≤ length content.book.entries)
        × (map (λ one. one.1) (found pass.looks) ≡ take all.last.count content.book.entries) }
{}

/// The text of a trail has the text line of each event of the line that the trail has seen: if a pass of the line has a
/// receipt with a place that the trail's pass has seen, the text has the text line of the journal's entry at that place,
/// and the receipt is that of this entry. So the reply in a receipt is that of the text line. This holds at every
/// moment, as above; the premises of `closed` are what [`Line::close_with`](dp_shared::Line::close_with) ensures of its
/// journal and of both passes.
pub fn a_receipt_that_a_trail_saw_has_its_text_line()
    ensures always { (line : LineSpec) (state : Slotted) (rule : LineRule line state) (seat index trail_seat trail_index : ℕ) (pass tail : PassView) (version place at : ℕ) (receipt : Receipt)
        → IsPassAt state seat index pass → IsPassAt state trail_seat trail_index tail → AreFrom 1 (found tail.looks) → place ≤ length (found tail.looks)
        → slice_get pass.receipts at ≡ Some receipt → receipt.place ≡ Some place → HasLineOf rule.content version line.number place tail.looks receipt }
    ensures closed { (line : LineSpec) (content : Content) (pass tail : PassView) (version place at : ℕ) (receipt : Receipt)
        → IsOf line content.book → IsHistory content → FitsPass content pass → FitsPass content tail → AreFrom 1 (found tail.looks) → place ≤ length (found tail.looks)
        → slice_get pass.receipts at ≡ Some receipt → receipt.place ≡ Some place → HasLineOf content version line.number place tail.looks receipt }
{}

/// The trail of an ordinary line is never overtaken: no pass of such a line looks for an entry that is
/// forgotten. So a trail that breaks with `Overtaken` is one of an endless line. This holds at every moment, as above; the
/// premises of `closed` are what [`Line::close_with`](dp_shared::Line::close_with) ensures of its journal and of each pass.
pub fn no_trail_of_an_ordinary_line_is_overtaken()
    ensures always { (line : LineSpec) (state : Slotted) (rule : LineRule line state) (seat index : ℕ) (pass : PassView) (seen : ℕ)
        → opening_fault (description_of line) ≡ None → IsPassAt state seat index pass → MissedOne pass.looks seen → ⊥ }
    ensures closed { (line : LineSpec) (content : Content) (pass : PassView) (seen : ℕ)
        → opening_fault (description_of line) ≡ None → IsOf line content.book → IsHistory content → FitsPass content pass → MissedOne pass.looks seen → ⊥ }
{}

/// A text in parts has the header and the text line of each entry that its trail saw, and heads between them: without its
/// looks at heads, a trail would have written the audit text as far as it saw it.
pub fn parts_without_heads_are_the_text()
    ensures { (version number : ℕ) (looks : List Look) → parts_text version number (without_heads looks) ≡ seen_text version number looks }
{}

/// A head that a trail wrote stands behind the entries that it saw before, and says what the line is after them: its world,
/// and the sum of the ticks so far. This holds at every moment, as above.
pub fn a_head_is_that_of_the_entries_before_it()
    ensures always { (line : LineSpec) (state : Slotted) (rule : LineRule line state) (seat index : ℕ) (pass : PassView) (earlier later : List Look) (look : Look) (count : ℕ) (head : Head)
        → IsPassAt state seat index pass → HeadsFollow pass.looks → pass.looks ≡ earlier ++ look ∷ later → look.question ≡ Question.Head count → look.answer ≡ Answer.Head (Some head)
        → (count ≡ length (found earlier)) × (head ≡ head_behind (world_after rule.content count) (first_entries rule.content count)) }
    ensures closed { (content : Content) (pass : PassView) (earlier later : List Look) (look : Look) (count : ℕ) (head : Head)
        → FitsPass content pass → HeadsFollow pass.looks → pass.looks ≡ earlier ++ look ∷ later → look.question ≡ Question.Head count → look.answer ≡ Answer.Head (Some head)
        → (count ≡ length (found earlier)) × (head ≡ head_behind (world_after content count) (first_entries content count)) }
{}
