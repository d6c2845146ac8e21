//! Laws of the cut of a stream: each is the contract of an empty function.

ghost use Rattle.std.specs.Prelude.{◌≡◌, ◌≢◌, ◌+◌, ◌≤◌, ◌↔◌, ℕ, List, ◌++◌, length, drop, sum_by, Some, None, false};
ghost use Rattle.dp_telegram.specs.FrameText.{end_is_right};
ghost use Rattle.dp_telegram.specs.declared.cutter.Cut.{Cut};
ghost use Rattle.dp_telegram.specs.Stream.{IsWhole, HasWrongEnd, StartsWith, StartsWithNone, CutsInto, cut_length, first_cut, cuts_of, with_cut, uncut};

/// A stream has one cut.
pub fn a_stream_has_one_cut()
    ensures { (stream : List ℕ) (cuts others : List Cut) (rest left : List ℕ) →
        CutsInto stream cuts rest → CutsInto stream others left → (cuts ≡ others) × (rest ≡ left) }
{}

/// The relations between a stream and its pieces agree with the computed definitions.
pub fn cut_and_computation_agree()
    ensures piece { (stream : List ℕ) (cut : Cut) (rest : List ℕ) →
        StartsWith stream cut rest ↔ (first_cut stream ≡ Some (cut, rest)) }
    ensures none { (stream : List ℕ) → StartsWithNone stream ↔ (first_cut stream ≡ None) }
    ensures whole { (stream : List ℕ) → CutsInto stream (cuts_of stream).cuts (cuts_of stream).rest }
{}

/// The pieces are cut off one after another.
pub fn pieces_come_one_after_another()
    ensures piece { (stream : List ℕ) (cut : Cut) (rest : List ℕ) →
        first_cut stream ≡ Some (cut, rest) → cuts_of stream ≡ with_cut cut (cuts_of rest) }
    ensures none { (stream : List ℕ) → first_cut stream ≡ None → cuts_of stream ≡ uncut stream }
{}

/// The cut does not depend on the pieces in which a stream arrives. Octets that arrive later change
/// no piece. Cutting the beginning, and then what it leaves with the later octets appended, gives
/// the pieces and the rest of the whole.
pub fn later_octets_change_no_piece()
    ensures piece { (stream : List ℕ) (cut : Cut) (rest more : List ℕ) →
        first_cut stream ≡ Some (cut, rest) → first_cut (stream ++ more) ≡ Some (cut, rest ++ more) }
    ensures cuts { (stream more : List ℕ) →
        (cuts_of (stream ++ more)).cuts ≡ (cuts_of stream).cuts ++ (cuts_of ((cuts_of stream).rest ++ more)).cuts }
    ensures rest { (stream more : List ℕ) →
        (cuts_of (stream ++ more)).rest ≡ (cuts_of ((cuts_of stream).rest ++ more)).rest }
{}

/// Any 255 octets begin with a piece, so a full cutter always has a piece to hand out.
pub fn longest_frame_is_judged()
    ensures { (stream : List ℕ) → 255 ≤ length stream → first_cut stream ≢ None }
{}

/// No octet is lost: the rest is the stream after its pieces, and the pieces have all other
/// octets.
pub fn pieces_and_rest_are_all_octets()
    ensures rest { (stream : List ℕ) (cuts : List Cut) (rest : List ℕ) →
        CutsInto stream cuts rest → rest ≡ drop (sum_by cut_length cuts) stream }
    ensures count { (stream : List ℕ) (cuts : List Cut) (rest : List ℕ) →
        CutsInto stream cuts rest → sum_by cut_length cuts + length rest ≡ length stream }
{}

/// A frame that is dropped whole has the layout of a frame, but a wrong check octet or end octet.
pub fn a_bad_end_is_a_wrong_octet()
    ensures { (octets : List ℕ) → (IsWhole octets × (end_is_right octets ≡ false)) ↔ HasWrongEnd octets }
{}
