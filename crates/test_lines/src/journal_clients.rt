//! Clients of journals: what a program with books concludes of their entries from the contracts of [`Book`] and the
//! laws of journals only. The prover reads these functions, and nothing runs them.

ghost use Rattle.std.specs.Prelude.{◌≡◌, ◌<◌, ◌∷◌, ◌++◌, ℕ, List, length, map, true, false};
ghost use Rattle.std.specs.List.{AllByRecursion};
ghost use Rattle.arrayvec.specs.ArrayVec.{ArrayVec as Vectors};
ghost use Rattle.dp_telegram.specs.declared.frame.Frame.{Frame as Frames};
ghost use Rattle.dp_telegram.specs.declared.frame.Telegram.{Telegram as Telegrams};
ghost use Rattle.dp_telegram.specs.FrameText.{Spells};
ghost use Rattle.dp_telegram.specs.FunctionCode.{asks_srd, frame_count_is_valid, function_of};
ghost use Rattle.dp_responder.specs.declared.rule.Rule.{Rule as Rules};
ghost use Rattle.dp_line.specs.declared.event.Event.{Event as Events};
ghost use Rattle.dp_line.specs.declared.event.Outcome.{Outcome as Answered};
ghost use Rattle.dp_line.specs.World.{Description, start_of};
ghost use Rattle.dp_line.specs.Events.{is_request_of};
ghost use Rattle.dp_line.specs.Isolation.{Agrees, only_requests_of};
ghost use Rattle.dp_line.specs.Steps.{run};
ghost use Rattle.dp_audit.specs.declared.entry.Entry.{Entry as Entries};
ghost use Rattle.dp_audit.specs.JournalIsolation.{watched_in};
ghost use Rattle.dp_audit.specs.JournalRuns.{answer_of, events_of};
ghost use Rattle.dp_audit.specs.Legal.{after_entries};

use dp_audit::Book;

/// States that a book is the run of its events. Does nothing at run time.
pub fn a_book_is_a_run(book: &Book)
    ensures world { book.now.state.world ≡ (run book.now.opening (events_of book.now.entries)).world }
    ensures answers { (run book.now.opening (events_of book.now.entries)).answers ≡ map (answer_of book.now.opening.capacity) book.now.entries }
{
    book.prove_legal();
    dp_audit::journal_laws::a_legal_journal_is_a_run();
}

/// States what two books show to a master that holds a slave in both. They agree on it behind some first entries,
/// their other entries have the same events except for the requests of other masters, and neither book is full. Then
/// the master sees the same in both. Does nothing at run time.
pub fn the_holder_sees_the_same(one: &Book, other: &Book)
    ensures { (master address : ℕ) (line there : Description) (before before_there entries entries_there : List Entries)
        → one.now.opening ≡ start_of line
        → other.now.opening ≡ start_of there
        → one.now.entries ≡ before ++ entries
        → other.now.entries ≡ before_there ++ entries_there
        → length one.now.entries < line.capacity
        → length other.now.entries < there.capacity
        → Agrees master address (after_entries (start_of line) before) (after_entries (start_of there) before_there)
        → only_requests_of master (events_of entries) ≡ only_requests_of master (events_of entries_there)
        → watched_in master address (after_entries (start_of line) before) entries
        ≡ watched_in master address (after_entries (start_of there) before_there) entries_there }
{
    one.prove_legal();
    other.prove_legal();
    dp_audit::journal_laws::isolation_in_journals();
}

/// States that a book has the same octets for a repeat: of two entries with the same octets of a master, between
/// which it has no other request of this master. Does nothing at run time.
pub fn a_book_repeats_the_octets(book: &Book)
    ensures { (line : Description) (before between rest : List Entries) (first again : Entries) (master : ℕ) (octets reply : Vectors ℕ) (rule : Rules) (telegram : Telegrams)
        → book.now.opening ≡ start_of line
        → book.now.entries ≡ before ++ first ∷ (between ++ again ∷ rest)
        → first.event ≡ Events.Request master octets
        → again.event ≡ Events.Request master octets
        → Spells octets.items (Frames.Telegram telegram)
        → asks_srd (function_of telegram.fc) ≡ true
        → frame_count_is_valid telegram.fc ≡ true
        → first.outcome ≡ Answered.Reply reply rule
        → AllByRecursion (λ entry. is_request_of master entry.event ≡ false) between
        → again.outcome ≡ Answered.Reply reply Rules.Repeat }
{
    book.prove_legal();
    dp_audit::journal_laws::a_repeat_has_the_same_octets();
}
