//! Laws of the diagnosis text: each is the contract of an empty function.

ghost use Rattle.std.specs.Prelude.{◌≡◌, ◌≤◌, length};
ghost use Rattle.dp_sap.specs.AccessTable.{most_data};
ghost use Rattle.dp_diag.specs.declared.facts.DiagFacts.{DiagFacts};
ghost use Rattle.dp_diag.specs.Diagnosis.{most_extended};
ghost use Rattle.dp_diag.specs.DiagnosisText.{diagnosis_text, shown, HolderIsStation};

/// A diagnosis has 6 to 244 octets if its extended octets are at most 238.
pub fn diagnosis_text_has_6_to_244_octets()
    ensures { (facts : DiagFacts) → length facts.diag.octets.items ≤ most_extended
        → (6 ≤ length (diagnosis_text facts)) × (length (diagnosis_text facts) ≤ most_data) }
{}

/// Each fact can be read back from the octets of a diagnosis, except whether it is unread: equal
/// octets of two slaves, each held by a station or by nobody, report the same facts.
pub fn diagnosis_text_shows_its_facts()
    ensures { (one another : DiagFacts) → HolderIsStation one → HolderIsStation another
        → diagnosis_text one ≡ diagnosis_text another → shown one ≡ shown another }
{}
