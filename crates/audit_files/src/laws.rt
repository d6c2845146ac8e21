//! Laws of audit files: each is the contract of a function that does nothing.

ghost use Rattle.std.specs.Prelude.{◌≡◌, ◌+◌, ◌-◌, ◌<◌, ℕ, Some, length, slice_get};
ghost use Rattle.audit_files.specs.DueParts.{due_parts};

/// The parts of a text that are due to be deleted follow the one that was handed over last, each one behind the other, and the
/// newest `keep` parts are not among them.
pub fn due_parts_have_no_gap()
    ensures each { (keep newest handed_over index : ℕ) → index < newest - keep - handed_over → slice_get (due_parts keep newest handed_over) index ≡ Some (handed_over + 1 + index) }
    ensures count { (keep newest handed_over : ℕ) → length (due_parts keep newest handed_over) ≡ newest - keep - handed_over }
{}
