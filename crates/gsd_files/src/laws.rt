//! What is written in a GSD file is read back.

ghost use Rattle.std.specs.Prelude.{◌≡◌, ◌≤◌, ◌<◌, ℕ, true, List, [], length, Some, Ok};
ghost use Rattle.std.specs.List.{AllByRecursion};
ghost use Rattle.std.specs.Fmt.{decimal};
ghost use Rattle.gsd_files.specs.Files.{lines_of};
ghost use Rattle.gsd_files.specs.Values.{number_of};
ghost use Rattle.gsd_files.specs.GsdText.{octets_text, module_text};
ghost use Rattle.gsd_files.specs.WrittenRows.{rows_within, with_lines};

/// The octets of a configuration are read back from the text of its module, over all of its rows.
pub fn octets_are_read_from_their_text()
    ensures { (octets : List ℕ) (room : ℕ) → AllByRecursion (λ octet. octet < 256) octets → length octets ≤ 244
        → with_lines [] (lines_of (octets_text room octets)) ≡ Ok octets }
{}

/// No row of a module has more than 80 octets with its CR.
pub fn no_row_of_a_module_is_long()
    ensures { (number : ℕ) (octets : List ℕ) → number < 10 → rows_within 80 0 (module_text number octets) ≡ true }
{}

/// A number up to 4,294,967,295 is read back from its decimal text.
pub fn a_number_is_read_from_its_text()
    ensures { (number : ℕ) → number ≤ 4294967295 → number_of (decimal number) ≡ Some number }
{}
