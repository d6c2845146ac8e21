//! Writing the words of a row.

ghost use Rattle.std.specs.Prelude.{◌≡◌, ◌+◌, ◌*◌, ◌≤◌, ◌<◌, [], ◌∷◌, ◌++◌, length, max, if◌then◌else◌};
ghost use Rattle.dp_text.specs.declared.text.TheConstants.{LONGEST};
ghost use Rattle.dp_text.specs.Texts.{octets_text};
ghost use Rattle.audit_heads.specs.FieldWords.{bit_word, halted_word, none_word, off_word, optional_word};

use dp_text::Text;

/// Appends a number, or `none` if there is none.
#[tactic(auto, using(crate::proofs::Lengths::lengths))]
pub(crate) fn push_octet_or_none(text: &mut Text, number: Option<u8>)
    requires { length text.old + 4 ≤ LONGEST }
    ensures text { text.new ≡ text.old ++ optional_word none_word number }
    ensures most { length text.new ≤ length text.old + 4 }
{
    match number {
        None => text.push_str("none"),
        Some(number) => text.push_octet(number),
    }
}

/// Appends a time in units of 10 ms, or `off` if there is none.
#[tactic(auto, using(crate::proofs::Lengths::lengths))]
pub(crate) fn push_time_or_off(text: &mut Text, units: Option<u32>)
    requires { length text.old + 10 ≤ LONGEST }
    ensures text { text.new ≡ text.old ++ optional_word off_word units }
    ensures most { length text.new ≤ length text.old + 10 }
{
    match units {
        None => text.push_str("off"),
        Some(units) => text.push_number(units),
    }
}

/// Appends a time in units of 10 ms, or `none` if there is none.
#[tactic(auto, using(crate::proofs::Lengths::lengths))]
pub(crate) fn push_time_or_none(text: &mut Text, units: Option<u64>)
    requires { length text.old + 20 ≤ LONGEST }
    ensures text { text.new ≡ text.old ++ optional_word none_word units }
    ensures most { length text.new ≤ length text.old + 20 }
{
    match units {
        None => text.push_str("none"),
        Some(units) => text.push_long(units),
    }
}

/// Appends the letter of a flag that is set, or `-` for one that is not.
#[tactic(auto, using(crate::proofs::Lengths::lengths))]
pub(crate) fn push_flag(text: &mut Text, flag: bool, letter: u8)
    requires { length text.old < LONGEST }
    ensures text { text.new ≡ text.old ++ (if flag then letter else 45) ∷ [] }
    ensures size { length text.new ≡ length text.old + 1 }
{
    text.push(if flag { letter } else { b'-' });
}

/// Appends a frame count bit: `1` or `0`.
#[tactic(auto, using(crate::proofs::Lengths::lengths))]
pub(crate) fn push_bit(text: &mut Text, bit: bool)
    requires { length text.old < LONGEST }
    ensures text { text.new ≡ text.old ++ bit_word bit }
    ensures most { length text.new ≤ length text.old + 1 }
{
    text.push_str(if bit { "1" } else { "0" });
}

/// Appends whether a line is halted: `halted` or `running`.
#[tactic(auto, using(crate::proofs::Lengths::lengths))]
pub(crate) fn push_halted(text: &mut Text, halted: bool)
    requires { length text.old + 7 ≤ LONGEST }
    ensures text { text.new ≡ text.old ++ halted_word halted }
    ensures most { length text.new ≤ length text.old + 7 }
{
    text.push_str(if halted { "halted" } else { "running" });
}

/// Appends octets as pairs of hex digits in lower case, or `-` for none.
#[tactic(auto, using(crate::proofs::Lengths::lengths))]
pub(crate) fn push_octets(text: &mut Text, octets: &[u8])
    requires { length text.old + max 1 (2 * length octets.now) ≤ LONGEST }
    ensures text { text.new ≡ text.old ++ octets_text octets.now }
    ensures most { length text.new ≤ length text.old + max 1 (2 * length octets.now) }
{
    match octets {
        [] => text.push_str("-"),
        [_, ..] => text.push_hex(octets),
    }
}
