//! Laws of explanations: each is the contract of a function that does nothing.

ghost use Rattle.std.specs.Prelude.{◌≡◌, ◌≢◌, ◌==◌, ◌++◌, ℕ, true, false, List, [], ◌∷◌, map, Some, is_some};
ghost use Rattle.std.specs.List.{flat_map, list_any};
ghost use Rattle.std.specs.Option.{IsSomeAnd, option_and_then};
ghost use Rattle.arrayvec.specs.ArrayVec.{ArrayVec};
ghost use Rattle.dp_telegram.specs.declared.frame.Telegram.{Telegram};
ghost use Rattle.dp_telegram.specs.declared.access.Parts.{Parts};
ghost use Rattle.dp_telegram.specs.Access.{address_of, parts_of};
ghost use Rattle.dp_telegram.specs.FunctionCode.{frame_count_bit};
ghost use Rattle.dp_responder.specs.declared.rule.Rule.{Rule};
ghost use Rattle.dp_line.specs.declared.event.Event.{Event};
ghost use Rattle.dp_line.specs.declared.event.Outcome.{Outcome};
ghost use Rattle.dp_line.specs.World.{Description, address_of_slave, start_of};
ghost use Rattle.dp_line.specs.Hearing.{telegram_spelt};
ghost use Rattle.dp_audit.specs.declared.entry.Entry.{Entry};
ghost use Rattle.dp_audit.specs.Legal.{IsLegal, after_entries};
ghost use Rattle.explain_events.specs.Changes.{change_of, change_rows, touched};
ghost use Rattle.explain_events.specs.declared.notes.Noted.{Noted};
ghost use Rattle.explain_events.specs.Notes.{note_of};
ghost use Rattle.explain_events.specs.Refusals.{repeat_text};
ghost use Rattle.explain_events.specs.Results.{result_row, result_rows};
ghost use Rattle.explain_texts.specs.ExplainedRows.{DecidesAtWrongRow};
ghost use Rattle.explain_texts.specs.Followed.{HasTheVerdictOfItsRows, IsExplainedByItsRows};
ghost use Rattle.explain_texts.specs.Holds.{ended_at, holds_ended};
ghost use Rattle.explain_texts.specs.JournalReported.{IsExplainedByItsEntries, known_behind_entries};
ghost use Rattle.explain_texts.specs.Known.{first_known};
ghost use Rattle.explain_texts.specs.Repeats.{IsLastReplied};
ghost use Rattle.explain_texts.specs.StateAndHolder.{state_and_holder_at};

/// The explanation of a legal audit text is that of its journal: for each chosen entry, in their order, the rows of the
/// recorded place, event and outcome, and then the holds and counts of all entries.
pub fn a_legal_text_is_explained_by_its_entries()
    ensures { IsExplainedByItsEntries }
{
    dp_text::laws::a_number_is_read_from_its_text();
    dp_text::laws::an_event_is_read_from_its_text();
    dp_audit::laws::an_event_goes_one_of_four_ways();
    dp_audit::text_laws::every_legal_text_is_accepted();
}

/// Following the rows of a text one by one gives the same as explaining the whole text. The explanation of a text is what
/// is written of its rows after an accepted header until the first wrong one, then the summary of the right ones, and then
/// the verdict. The verdict on a text is the fault of its first wrong row, or the number of its rows.
pub fn a_text_is_explained_by_its_rows()
    ensures text { IsExplainedByItsRows }
    ensures verdict { HasTheVerdictOfItsRows }
{}

/// What follows the first wrong row of a text changes neither its check nor its explanation. So a text need not be read any
/// further: whole rows that are not legal decide both, whatever follows them.
pub fn a_wrong_row_decides()
    ensures { DecidesAtWrongRow }
{}

/// What has no row of changes is unchanged, at each entry of a legal journal since the line was opened. A slave that
/// the entry's event can't change has the same state and holder as before, and so has a slave without a row. The rows
/// that are written are those of all slaves of the line, in the order of their addresses.
pub fn a_slave_without_a_row_is_as_it_was()
    ensures untouched { (line : Description) (before : List Entry) (entry : Entry) (address : ℕ)
        → IsLegal (start_of line) (before ++ entry ∷ [])
        → list_any (λ other. other == address) (touched entry.event entry.outcome) ≡ false
        → state_and_holder_at (after_entries (start_of line) (before ++ entry ∷ [])) address ≡ state_and_holder_at (after_entries (start_of line) before) address }
    ensures no_row { (line : Description) (before : List Entry) (entry : Entry) (address : ℕ)
        → IsLegal (start_of line) (before ++ entry ∷ [])
        → change_of (after_entries (start_of line) before) (after_entries (start_of line) (before ++ entry ∷ [])) address ≡ []
        → state_and_holder_at (after_entries (start_of line) (before ++ entry ∷ [])) address ≡ state_and_holder_at (after_entries (start_of line) before) address }
    ensures all_rows { (line : Description) (before : List Entry) (entry : Entry)
        → IsLegal (start_of line) (before ++ entry ∷ [])
        → change_rows (after_entries (start_of line) before) (after_entries (start_of line) (before ++ entry ∷ [])) entry.event entry.outcome
        ≡ flat_map (change_of (after_entries (start_of line) before) (after_entries (start_of line) (before ++ entry ∷ [])))
        (map address_of_slave (after_entries (start_of line) before).slaves) }
{
    dp_audit::laws::an_event_goes_one_of_four_ways();
    dp_line::laws::every_line_has();
}

/// The holds that are written for an entry are those of all slaves of the line, in the order of their addresses, at each
/// entry of a legal journal since the line was opened: the entry ended no other hold.
pub fn every_hold_that_ended_is_written()
    ensures { (line : Description) (before : List Entry) (entry : Entry)
        → IsLegal (start_of line) (before ++ entry ∷ [])
        → holds_ended (after_entries (start_of line) before) (after_entries (start_of line) (before ++ entry ∷ [])) entry.place entry.event entry.outcome
        ≡ flat_map (ended_at (after_entries (start_of line) before) (after_entries (start_of line) (before ++ entry ∷ [])) entry.place entry.event)
        (map address_of_slave (after_entries (start_of line) before).slaves) }
{
    dp_audit::laws::an_event_goes_one_of_four_ways();
    dp_line::laws::every_line_has();
}

/// The request that is noted for a repeat is the one whose reply is sent again, at each entry of a legal journal since the
/// line was opened. It is the last SRD before the repeat from the same master to the same slave that the slave judged
/// and replied to, other than by a repeat. The note has its place, from 1, and its octets; it has the FCB of the repeat, and
/// its reply is the one that is sent again. The row of a repeat with the same octets is that of a retry of this place, and the
/// row of any other repeat is that of another telegram. A request that gets a reply, as a repeat does, always is a
/// telegram whose access points can be read. The line may have any number of places, as an endless line has.
pub fn a_repeat_names_the_place_of_its_request()
    ensures telegram { (line : Description) (places : ℕ) (before : List Entry) (entry : Entry) (master : ℕ) (octets reply : ArrayVec ℕ) (rule : Rule)
        → IsLegal (start_of (record line { capacity = places })) (before ++ entry ∷ [])
        → entry.event ≡ Event.Request master octets
        → entry.outcome ≡ Outcome.Reply reply rule
        → is_some (option_and_then parts_of (telegram_spelt octets.items)) ≡ true }
    ensures request { (line : Description) (places : ℕ) (before : List Entry) (entry : Entry) (master : ℕ) (octets reply : ArrayVec ℕ) (telegram : Telegram)
        → IsLegal (start_of (record line { capacity = places })) (before ++ entry ∷ [])
        → entry.event ≡ Event.Request master octets
        → telegram_spelt octets.items ≡ Some telegram
        → entry.outcome ≡ Outcome.Reply reply Rule.Repeat
        → IsSomeAnd (note_of (known_behind_entries (first_known line places) before).context.notes (address_of telegram.da) master)
        (λ noted. IsLastReplied before (address_of telegram.da) master noted.place noted.octets (frame_count_bit telegram.fc) reply.items) }
    ensures placed { (line : Description) (places : ℕ) (before : List Entry) (entry : Entry) (master : ℕ) (octets reply : ArrayVec ℕ) (telegram : Telegram) (noted : Noted)
        → IsLegal (start_of (record line { capacity = places })) (before ++ entry ∷ [])
        → entry.event ≡ Event.Request master octets
        → telegram_spelt octets.items ≡ Some telegram
        → entry.outcome ≡ Outcome.Reply reply Rule.Repeat
        → note_of (known_behind_entries (first_known line places) before).context.notes (address_of telegram.da) master ≡ Some noted
        → noted.place ≢ 0 }
    ensures retry { (line : Description) (places : ℕ) (before : List Entry) (entry : Entry) (master : ℕ) (octets reply : ArrayVec ℕ) (telegram : Telegram) (parts : Parts) (noted : Noted)
        → IsLegal (start_of (record line { capacity = places })) (before ++ entry ∷ [])
        → entry.event ≡ Event.Request master octets
        → telegram_spelt octets.items ≡ Some telegram
        → parts_of telegram ≡ Some parts
        → entry.outcome ≡ Outcome.Reply reply Rule.Repeat
        → note_of (known_behind_entries (first_known line places) before).context.notes (address_of telegram.da) master ≡ Some noted
        → noted.octets.items ≡ octets.items
        → result_rows (known_behind_entries (first_known line places) before).context entry.event entry.outcome
        ≡ result_row (repeat_text true noted.place parts.dsap parts.payload.items) }
    ensures other { (line : Description) (places : ℕ) (before : List Entry) (entry : Entry) (master : ℕ) (octets reply : ArrayVec ℕ) (telegram : Telegram) (parts : Parts) (noted : Noted)
        → IsLegal (start_of (record line { capacity = places })) (before ++ entry ∷ [])
        → entry.event ≡ Event.Request master octets
        → telegram_spelt octets.items ≡ Some telegram
        → parts_of telegram ≡ Some parts
        → entry.outcome ≡ Outcome.Reply reply Rule.Repeat
        → note_of (known_behind_entries (first_known line places) before).context.notes (address_of telegram.da) master ≡ Some noted
        → noted.octets.items ≢ octets.items
        → result_rows (known_behind_entries (first_known line places) before).context entry.event entry.outcome
        ≡ result_row (repeat_text false noted.place parts.dsap parts.payload.items) }
{}
