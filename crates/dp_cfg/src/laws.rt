//! Laws of configurations: each is the contract of an empty function.

ghost use Rattle.std.specs.Prelude.{◌≡◌, ◌≢◌, ℕ, ◌<◌, List, Some, None, ◌↔◌, slice_get};
ghost use Rattle.dp_cfg.specs.Choosing.{chosen};
ghost use Rattle.dp_cfg.specs.Identifiers.{Identifier, IsSplit, input_sum, output_sum};
ghost use Rattle.dp_cfg.specs.Reading.{split_of, input_octets, output_octets};

/// Octets split into identifiers in at most one way (IEC 61158-6-3, configuration identifiers).
pub fn split_is_unique()
    ensures { (octets : List ℕ) (these those : List Identifier)
        → IsSplit octets these → IsSplit octets those → these ≡ those }
{}

/// Reading from left to right finds the split exactly if there is one (own).
pub fn split_is_found()
    ensures { (octets : List ℕ) (identifiers : List Identifier)
        → IsSplit octets identifiers ↔ (split_of octets ≡ Some identifiers) }
{}

/// The lengths that reading computes are the sums over the split (own).
pub fn lengths_are_sums()
    ensures inputs { (octets : List ℕ) (identifiers : List Identifier)
        → IsSplit octets identifiers → input_octets octets ≡ input_sum identifiers }
    ensures outputs { (octets : List ℕ) (identifiers : List Identifier)
        → IsSplit octets identifiers → output_octets octets ≡ output_sum identifiers }
{}

/// The number that is chosen is that of the first configuration with the octets. None is chosen
/// exactly if no configuration has them (IEC 61158-6-3, Chk_Cfg request).
pub fn the_first_equal_one_is_chosen()
    ensures first { (configurations : List (List ℕ)) (octets : List ℕ) (number : ℕ)
        → (chosen configurations octets ≡ Some number) ↔ ((slice_get configurations number ≡ Some octets)
        × ((earlier : ℕ) → earlier < number → slice_get configurations earlier ≢ Some octets)) }
    ensures none { (configurations : List (List ℕ)) (octets : List ℕ)
        → (chosen configurations octets ≡ None) ↔ ((number : ℕ) → slice_get configurations number ≢ Some octets) }
{}
