//! Laws of legal journals, in terms of their entries. Each law is what a function that does nothing ensures.
//!
//! A legal journal is a run of its events. So the laws of a line (`dp_line::laws`) hold for the entries of a journal.
//! The entries of every [`Book`](crate::Book) are a legal journal from its opening
//! ([`Book::prove_legal`](crate::Book::prove_legal)).

ghost use Rattle.std.specs.Prelude.{◌≡◌, ◌+◌, ◌<◌, ◌==◌, ℕ, List, [], ◌∷◌, ◌++◌, true, false, length, map, None};
ghost use Rattle.std.specs.List.{AllByRecursion};
ghost use Rattle.arrayvec.specs.ArrayVec.{ArrayVec};
ghost use Rattle.dp_telegram.specs.declared.frame.Frame.{Frame as Frames};
ghost use Rattle.dp_telegram.specs.declared.frame.Telegram.{Telegram as Telegrams};
ghost use Rattle.dp_telegram.specs.FrameText.{Spells};
ghost use Rattle.dp_telegram.specs.FunctionCode.{asks_srd, frame_count_is_valid, function_of};
ghost use Rattle.dp_responder.specs.declared.rule.Rule.{Rule as Rules};
ghost use Rattle.dp_line.specs.declared.event.Event.{Event as Events};
ghost use Rattle.dp_line.specs.declared.event.Event.TheVariants.{Operator};
ghost use Rattle.dp_line.specs.declared.event.Op.TheVariants.{Halt};
ghost use Rattle.dp_line.specs.declared.event.Outcome.{Outcome as Answered};
ghost use Rattle.dp_line.specs.World.{Description, World, is_last_place, start_of};
ghost use Rattle.dp_line.specs.Events.{is_request_of, operator_fault};
ghost use Rattle.dp_line.specs.Effects.{facts_of, outcome_of};
ghost use Rattle.dp_line.specs.Isolation.{Agrees, only_requests_of, watched};
ghost use Rattle.dp_line.specs.Steps.{run, step};
ghost use Rattle.dp_audit.specs.declared.entry.Entry.{Entry as Entries};
ghost use Rattle.dp_audit.specs.Journal.{Journal};
ghost use Rattle.dp_audit.specs.JournalIsolation.{watched_in};
ghost use Rattle.dp_audit.specs.JournalRuns.{answer_of, entries_added, entries_reported, events_of, taken_each};
ghost use Rattle.dp_audit.specs.Legal.{IsLegal, after_entries};

/// A legal journal is the run of its events: the run leaves the world after the entries, and its answers are those
/// that the entries record (`answer_of`). An entry below the last place records the answer to its own event.
///
/// The entry at the last place is always the halt, and the line records it instead of any event that fits. So the
/// event that came is not in the journal, and every one that fits leaves the same world (`last`).
pub fn a_legal_journal_is_a_run()
    ensures world { (world : World) (entries : List Entries) → IsLegal world entries → after_entries world entries ≡ (run world (events_of entries)).world }
    ensures answers { (world : World) (entries : List Entries)
        → IsLegal world entries
        → (run world (events_of entries)).answers ≡ map (answer_of world.capacity) entries }
    ensures last { (world : World) (entries : List Entries) (halt : Entries) (event : Events)
        → IsLegal world (entries ++ halt ∷ [])
        → is_last_place (after_entries world entries) ≡ true
        → operator_fault (after_entries world entries) event ≡ None
        → (halt.event ≡ Operator Halt) × ((run world (events_of entries ++ event ∷ [])).world ≡ after_entries world (entries ++ halt ∷ [])) }
{}

/// The journal of a run is legal. It has exactly the entries that the answers of the run report, and results in the
/// world that the run leaves. A journal that takes these events grows by these entries.
pub fn the_journal_of_a_run_is_legal()
    ensures legal { (world : World) (events : List Events) → IsLegal world (entries_added world events) }
    ensures world { (world : World) (events : List Events) → after_entries world (entries_added world events) ≡ (run world events).world }
    ensures reported { (world : World) (events : List Events)
        → entries_added world events ≡ entries_reported (world.count + 1) events (run world events).answers }
    ensures entries { (journal : Journal) (events : List Events)
        → (taken_each journal events).entries ≡ journal.entries ++ entries_added journal.state.world events }
    ensures line { (journal : Journal) (events : List Events)
        → (taken_each journal events).state.world ≡ (run journal.state.world events).world }
{}

/// The headline for journals: an entry of a legal journal has the next place, and the facts and the outcome that the
/// policy gives in the world that the events before it left. It records the answer of the line's step, and results in the
/// world that this step leaves.
pub fn an_entry_has_the_answer_of_the_policy()
    ensures place { (world : World) (before rest : List Entries) (entry : Entries)
        → IsLegal world (before ++ entry ∷ rest)
        → entry.place ≡ world.count + length before + 1 }
    ensures facts { (world : World) (before rest : List Entries) (entry : Entries)
        → IsLegal world (before ++ entry ∷ rest)
        → entry.facts ≡ facts_of (run world (events_of before)).world entry.event }
    ensures outcome { (world : World) (before rest : List Entries) (entry : Entries)
        → IsLegal world (before ++ entry ∷ rest)
        → entry.outcome ≡ outcome_of (run world (events_of before)).world entry.event }
    ensures answer { (world : World) (before rest : List Entries) (entry : Entries)
        → IsLegal world (before ++ entry ∷ rest)
        → (step (run world (events_of before)).world entry.event).answer ≡ answer_of world.capacity entry }
    ensures request { (world : World) (before rest : List Entries) (entry : Entries) (sender : ℕ) (octets : ArrayVec ℕ)
        → IsLegal world (before ++ entry ∷ rest)
        → entry.event ≡ Events.Request sender octets
        → entry.outcome ≡ (step (run world (events_of before)).world (Events.Request sender octets)).answer.outcome }
    ensures world { (world : World) (before rest : List Entries) (entry : Entries)
        → IsLegal world (before ++ entry ∷ rest)
        → after_entries world (before ++ entry ∷ []) ≡ (step (run world (events_of before)).world entry.event).world }
{}

/// Isolation for journals: take legal journals of two lines, neither of which has an entry at its last place. The
/// lines agree on a master and on the slave of an address after some first entries of each. The entries behind these
/// have the same events, except for the requests of all other masters, which may differ. Then the master sees the
/// same of the slave in both journals (`watched_in`), up to and including the entry that ends its hold.
///
/// What it sees in a journal is what it sees in the run of the events (`run`).
pub fn isolation_in_journals()
    ensures run { (master address : ℕ) (world : World) (entries : List Entries)
        → IsLegal world entries
        → world.count + length entries < world.capacity
        → watched_in master address world entries ≡ watched master address world (events_of entries) }
    ensures journals { (master address : ℕ) (line other : Description) (before before_there entries entries_there : List Entries)
        → IsLegal (start_of line) (before ++ entries)
        → IsLegal (start_of other) (before_there ++ entries_there)
        → length (before ++ entries) < line.capacity
        → length (before_there ++ entries_there) < other.capacity
        → Agrees master address (after_entries (start_of line) before) (after_entries (start_of other) before_there)
        → only_requests_of master (events_of entries) ≡ only_requests_of master (events_of entries_there)
        → watched_in master address (after_entries (start_of line) before) entries
        ≡ watched_in master address (after_entries (start_of other) before_there) entries_there }
{
    dp_line::laws::isolation_since_the_opening();
}

/// Repeats in journals: if an entry is an SRD with FCV 1 that got a reply, and no entry after it is a request of the
/// same master until one with the same octets, that one records the same reply by the rule Repeat.
pub fn a_repeat_has_the_same_octets()
    ensures { (line : Description) (before between rest : List Entries) (first again : Entries) (master : ℕ) (octets reply : ArrayVec ℕ) (rule : Rules) (telegram : Telegrams)
        → IsLegal (start_of line) (before ++ first ∷ (between ++ again ∷ rest))
        → first.event ≡ Events.Request master octets
        → again.event ≡ Events.Request master octets
        → Spells octets.items (Frames.Telegram telegram)
        → asks_srd (function_of telegram.fc) ≡ true
        → frame_count_is_valid telegram.fc ≡ true
        → first.outcome ≡ Answered.Reply reply rule
        → AllByRecursion (λ entry. is_request_of master entry.event ≡ false) between
        → again.outcome ≡ Answered.Reply reply Rules.Repeat }
{
    dp_line::laws::a_repeat_gets_the_same_octets();
}
