//! Laws of the cable: each is the contract of an empty function.

ghost use Rattle.std.specs.Prelude.{◌≡◌, ◌<◌, ◌≤◌, ◌*◌, ◌^◌, ◌++◌, ◌∷◌, [], ℕ, List, All, None, Option, Some, false, length, true};
ghost use Rattle.dp_telegram.specs.FrameText.{fault_of, is_checked};
ghost use Rattle.dp_telegram.specs.declared.fault.FrameFault.TheVariants.{BadEnd, NoStart};
ghost use Rattle.cable_faults.specs.declared.cable.Cable.{Cable};
ghost use Rattle.cable_faults.specs.declared.chance.Chance.{Chance};
ghost use Rattle.cable_faults.specs.declared.random_words.Draw.{Draw};
ghost use Rattle.cable_faults.specs.declared.treatment.Treatment.{Treatment};
ghost use Rattle.cable_faults.specs.declared.treatment.Treatment.TheVariants.{Lost, Passed};
ghost use Rattle.cable_faults.specs.declared.options.Direction.{Direction};
ghost use Rattle.cable_faults.specs.declared.pace.Pace.{Pace};
ghost use Rattle.cable_faults.specs.Chances.{hits};
ghost use Rattle.cable_faults.specs.Decisions.{decision_of, waiting_after};
ghost use Rattle.cable_faults.specs.Treatments.{sent_of, spoilt_treatment};
ghost use Rattle.cable_faults.specs.Faultless.{IsFree};
ghost use Rattle.cable_faults.specs.Paces.{AreAtOnce, Coming, IsAscendingFrom, due_at, dues, first_pace, moment_after, moments_of};
ghost use Rattle.cable_faults.specs.Passing.{IsCutInto, all_passed, sent_for};

/// A spoilt telegram is none. One with a check sequence keeps its head and its size, and has a wrong check sequence; a
/// token or a short acknowledgement has no start delimiter.
pub fn a_spoilt_telegram_is_none()
    ensures checked { (octets : List ℕ) (place change : ℕ) → fault_of octets ≡ None → All (λ octet. octet < 256) octets
        → is_checked octets ≡ true → fault_of (sent_of (spoilt_treatment octets place change) octets) ≡ Some BadEnd }
    ensures unchecked { (octets : List ℕ) (place change : ℕ) → fault_of octets ≡ None → All (λ octet. octet < 256) octets
        → is_checked octets ≡ false → fault_of (sent_of (spoilt_treatment octets place change) octets) ≡ Some NoStart }
{}

/// A chance of 0 never comes true, and one of 1,000,000 millionths always does.
pub fn chances_have_their_ends()
    ensures never { (chance : Chance) (word : ℕ) → chance.millionths ≡ 0 → hits chance word ≡ false }
    ensures always { (chance : Chance) (word : ℕ) → chance.millionths ≡ 1000000 → word < 2 ^ 32 → hits chance word ≡ true }
{}

/// Without faults each telegram is passed on, and what goes out for the pieces of a stream, with the rest of it, is the
/// stream: each octet, in order.
pub fn a_cable_without_faults_changes_nothing()
    ensures treatment { (cable : Cable) (direction : Direction) (octets : List ℕ) (asked : Option ℕ) (draw : Draw) → IsFree cable
        → (decision_of cable direction octets asked draw).treatment ≡ Passed }
    ensures waiting { (cable : Cable) (direction : Direction) (octets : List ℕ) (asked : Option ℕ) → IsFree cable
        → waiting_after cable direction octets asked ≡ [] }
    ensures stream { (stream : List ℕ) (parts : List (List ℕ)) (rest : List ℕ) → IsCutInto stream parts rest
        → sent_for (all_passed parts) parts ++ rest ≡ stream }
{}

/// A lost telegram is left out, and nothing else is: whatever becomes of the other pieces, the same goes out for them.
pub fn a_lost_telegram_is_left_out()
    ensures { (treatments others : List Treatment) (parts : List (List ℕ)) (part : List ℕ) (more : List (List ℕ)) → length treatments ≡ length parts
        → sent_for (treatments ++ Lost ∷ others) (parts ++ part ∷ more) ≡ sent_for (treatments ++ others) (parts ++ more) }
{}

/// Telegrams of one direction go out in the order in which they came.
pub fn nothing_overtakes()
    ensures { (pace : Pace) (comings : List Coming) → IsAscendingFrom pace.last (dues pace comings) }
{}

/// No telegram goes out before its waiting time is over; and if none waits, each goes out at the moment at which it came.
pub fn only_what_waits_is_late()
    ensures waits { (pace : Pace) (moment wait : ℕ) → moment_after moment wait ≤ due_at pace moment wait }
    ensures goes { (comings : List Coming) → AreAtOnce 0 comings → dues first_pace comings ≡ moments_of comings }
{}
