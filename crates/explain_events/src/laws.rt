//! Laws of the sentences: each is the contract of a function without work.

ghost use Rattle.std.specs.Prelude.{◌≡◌, ◌≢◌, ℕ, List, [], true};
ghost use Rattle.explain_events.specs.Slots.{is_whole, slot_differences, slots_in};

use dp_cfg::laws::split_is_found;

/// Two different configurations differ in at least one slot, if neither ends within an identifier. So the sentence about
/// a wrong configuration names a slot (own).
pub fn other_configurations_differ()
    ensures { (sent own : List ℕ) → is_whole sent ≡ true → is_whole own ≡ true → sent ≢ own
        → slot_differences 1 (slots_in sent) (slots_in own) ≢ [] }
{
    split_is_found();
}
