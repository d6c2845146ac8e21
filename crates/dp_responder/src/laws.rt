//! Laws of frame memories and of the judgement: each is the contract of an empty function.

ghost use Rattle.std.specs.Prelude.{◌≡◌, ◌≢◌, ◌↔◌, ◌==◌, ◌||◌, ℕ, Bool, true, false, List, ◌∷◌, ◌++◌, Option, None, IsSome, filter, find};
ghost use Rattle.std.specs.List.{list_any};
ghost use Rattle.dp_telegram.specs.FunctionCode.{asks_srd, function_of, frame_count_bit, frame_count_is_valid};
ghost use Rattle.dp_telegram.specs.declared.access.Parts.{Parts};
ghost use Rattle.dp_sap.specs.AccessTable.{PointsView};
ghost use Rattle.dp_responder.specs.declared.rule.Rule.{Rule};
ghost use Rattle.dp_responder.specs.declared.judgement.Judged.{Judged};
ghost use Rattle.dp_responder.specs.Memory.{JudgedRequest, MasterMemory, Remembered, is_repeat, memory_after, no_memory, remembered_of, same_bit, with_remembered};
ghost use Rattle.dp_responder.specs.Rules.{first_row};
ghost use Rattle.dp_responder.specs.Judgement.{judgement, judgement_rows};

/// The first row that applies decides. A request passes exactly if no row applies.
pub fn the_first_row_that_applies_decides()
    ensures first { (before behind : List (Bool × Rule)) (row : Bool × Rule)
        → list_any (λ r. r.0) before ≡ false
        → row.0 ≡ true
        → first_row (before ++ row ∷ behind) ≡ row.1 }
    ensures pass { (points : PointsView) (last : Option Remembered) (sender fc : ℕ) (parts : Parts)
        → (judgement points last sender fc parts ≡ Judged.Pass)
        ↔ (list_any (λ row. row.0) (judgement_rows points last sender fc parts) ≡ false) }
{}

/// A repeat gets the reply that was last remembered for its sender. It is an SRD with FCV 1 and the
/// same FCB, whatever else it holds, and whatever the points are by then.
pub fn a_repeat_gets_the_last_reply()
    ensures { (memory : List MasterMemory) (sender fc again : ℕ) (reply : List ℕ) (points : PointsView) (parts : Parts)
        → IsSome (find (λ m. m.master == sender) memory)
        → asks_srd (function_of fc) ≡ true
        → (frame_count_is_valid fc || frame_count_bit fc) ≡ true
        → asks_srd (function_of again) ≡ true
        → frame_count_is_valid again ≡ true
        → same_bit (frame_count_bit fc) (frame_count_bit again) ≡ true
        → judgement points (remembered_of (with_remembered memory sender fc reply) sender) sender again parts
        ≡ Judged.Repeat (record { items = reply }) }
{}

/// What is remembered of a master depends only on its own requests: after any requests it is as if
/// the other masters had sent none.
pub fn a_memory_depends_on_own_requests_alone()
    ensures { (memory : List MasterMemory) (requests : List JudgedRequest) (sender : ℕ)
        → remembered_of (memory_after memory requests) sender
        ≡ remembered_of (memory_after memory (filter (λ request. request.sender == sender) requests)) sender }
{}

/// With FCV 0 nothing is a repeat.
pub fn with_fcv_0_nothing_is_a_repeat()
    ensures { (last : Option Remembered) (fc : ℕ) → frame_count_is_valid fc ≡ false → is_repeat last fc ≡ false }
{}

/// Before any request nothing is remembered of any sender.
pub fn at_first_nothing_is_remembered()
    ensures { (masters : List ℕ) (sender : ℕ) → remembered_of (no_memory masters) sender ≡ None }
{}
