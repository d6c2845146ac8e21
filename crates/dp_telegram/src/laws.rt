//! Laws of the frame texts: each is the contract of an empty function.

ghost use Rattle.std.specs.Prelude.{◌≡◌, ◌≢◌, ◌↔◌, ℕ, List, [], ◌++◌, Some};
ghost use Rattle.dp_telegram.specs.declared.frame.Frame.{Frame};
ghost use Rattle.dp_telegram.specs.declared.fault.FrameFault.{FrameFault};
ghost use Rattle.dp_telegram.specs.FrameText.{Spells, frame_of, fault_of, HasFrameAndMore};
ghost use Rattle.dp_telegram.specs.Stream.{StartsWithNone};

/// The relation between octets and frames agrees with the computed definition.
pub fn relation_and_computation_agree()
    ensures { (octets : List ℕ) (frame : Frame) → Spells octets frame ↔ (frame_of octets ≡ Some frame) }
{}

/// No text of a frame begins the text of another, so a stream has one reading.
pub fn no_text_begins_another()
    ensures { (text more : List ℕ) (frame other : Frame) →
        Spells text frame → Spells (text ++ more) other → more ≡ [] }
{}

/// Octets are `Long` exactly if they begin with the text of a frame and other octets follow.
pub fn long_octets_begin_with_a_frame()
    ensures { (octets : List ℕ) → (fault_of octets ≡ Some FrameFault.Long) ↔ HasFrameAndMore octets }
{}

/// Octets are `Short` exactly if nothing can be judged yet: they begin with no piece of a stream.
pub fn short_octets_begin_with_nothing()
    ensures { (octets : List ℕ) → (fault_of octets ≡ Some FrameFault.Short) ↔ StartsWithNone octets }
{}
