//! Laws of every accepted rack, and of every key that isn't accepted.

ghost use Rattle.std.specs.Prelude.{◌≡◌, ◌≤◌, ℕ, List, ◌≢◌, ◌⊎◌, ◌<◌, IsTrue, false, None, Some, Ok, Err, length, All};
ghost use Rattle.toml.specs.Data.{Members};
ghost use Rattle.toml.specs.Parse.{parse_document};
ghost use Rattle.dp_line.specs.World.{opening_fault, has_twice};
ghost use Rattle.rack_file.specs.Rack.{RackDescription};
ghost use Rattle.rack_file.specs.declared.fault.RackFault.TheVariants as faults;
ghost use Rattle.rack_file.specs.declared.misread.Misread.TheVariants as misreads;
ghost use Rattle.rack_file.specs.KeyFault.{KeyFault, IsWithin};
ghost use Rattle.rack_file.specs.Misreads.{shown, stands_for_itself};
ghost use Rattle.rack_file.specs.RackFile.{numbers, rack_of, rack_in};
ghost use Rattle.rack_file.specs.Causes.{ReportsCause};

/// An accepted rack has 1 to 8 lines.
pub fn accepted_racks_have_1_to_8_lines()
    ensures least { (text : List ℕ) (rack : RackDescription) → rack_in text ≡ Ok rack → 1 ≤ length rack.lines }
    ensures most { (text : List ℕ) (rack : RackDescription) → rack_in text ≡ Ok rack → length rack.lines ≤ 8 }
{}

/// An accepted rack has 1 to 32 workers.
pub fn accepted_racks_have_1_to_32_workers()
    ensures least { (text : List ℕ) (rack : RackDescription) → rack_in text ≡ Ok rack → 1 ≤ rack.workers }
    ensures most { (text : List ℕ) (rack : RackDescription) → rack_in text ≡ Ok rack → rack.workers ≤ 32 }
{}

/// No two lines of an accepted rack have the same number.
pub fn accepted_lines_differ_in_number()
    ensures { (text : List ℕ) (rack : RackDescription) → rack_in text ≡ Ok rack → has_twice (numbers rack.lines) ≡ false }
{}

/// Every line of an accepted rack can be opened.
pub fn accepted_lines_can_be_opened()
    ensures { (text : List ℕ) (rack : RackDescription) → rack_in text ≡ Ok rack
        → All (λ line. opening_fault line.line ≡ None) rack.lines }
{}

/// A text is refused as `BadKey` if and only if it is a document with a key that isn't accepted.
pub fn bad_keys_are_reported()
    ensures reported { (text : List ℕ) → rack_in text ≡ Err faults.BadKey
        → (file : Members) × (bad : KeyFault) × (parse_document text ≡ Some file) × (rack_of file ≡ Err (misreads.BadKey bad)) }
    ensures refused { (text : List ℕ) (file : Members) (bad : KeyFault) → parse_document text ≡ Some file
        → rack_of file ≡ Err (misreads.BadKey bad) → rack_in text ≡ Err faults.BadKey }
{}

/// A key that isn't accepted is one of the file itself, of its lines 1 to 8, or of a slave of such a line, from 1.
pub fn bad_keys_stand_in_lines_1_to_8()
    ensures { (file : Members) (bad : KeyFault) → rack_of file ≡ Err (misreads.BadKey bad) → IsWithin 8 bad.place }
{}

/// A cause is given exactly for the texts that are refused as `BadKey` or `NotToml`.
pub fn causes_are_reported_of_bad_keys_and_of_no_toml()
    ensures reported { (text cause : List ℕ) → ReportsCause text (parse_document text) (Some cause)
        → (rack_in text ≡ Err faults.BadKey) ⊎ (rack_in text ≡ Err faults.NotToml) }
    ensures unreported { (text : List ℕ) → ReportsCause text (parse_document text) None
        → (rack_in text ≢ Err faults.BadKey) × (rack_in text ≢ Err faults.NotToml) }
{}

/// A key or a message that is shown ends neither the text line nor the quotation: its octets are those that stand for
/// themselves, and `\`.
pub fn shown_texts_stay_in_their_row()
    ensures { (text : List ℕ) → All (λ octet. octet < 256) text
        → All (λ octet. IsTrue (stands_for_itself octet) ⊎ (octet ≡ 0x5C)) (shown text) }
{}
