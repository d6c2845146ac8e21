//! Reading the words of a row.

ghost use Rattle.std.specs.Prelude.{◌≡◌, ◌≤◌, ◌&&◌, nat_le, if◌then◌else◌, Some, None, option_map};
ghost use Rattle.std.specs.List.{list_any};
ghost use Rattle.std.specs.Char.{is_ascii_uppercase};
ghost use Rattle.std.specs.Str.{all_ascii_digits};
ghost use Rattle.std.specs.Str.Parse.{digits_value};
ghost use Rattle.dp_text.specs.declared.ops.HexCase.TheVariants.{Lower};
ghost use Rattle.dp_text.specs.Numbers.{number_to};
ghost use Rattle.dp_text.specs.Events.{event_octets, octets_up_to};
ghost use Rattle.audit_heads.specs.FieldWords.{bit_of_word, halted_of_word, is_letter as is_flag_letter, most_32, most_64, none_word, off_word, optional_of, state_of_word};
ghost use Rattle.audit_heads.specs.SlaveRows.{busy_of, three_of, two_of};

use arrayvec::ArrayVec;
use dp_sap::{BusyMarks, State};
use dp_text::{is_text, number_in, octet_in, octets_in};

/// Returns a number from 0 to 255, `Some(None)` for `none`, or None for any other word.
pub(crate) fn octet_or_none_in(word: &[u8]) -> Option<Option<u8>>
    ensures { result ≡ optional_of none_word 255 word.now }
{
    if is_text(word, b"none") {
        return Some(None);
    }
    Some(Some(octet_in(word)?))
}

/// Returns a time in units of 10 ms, `Some(None)` for `off`, or None for any other word.
pub(crate) fn time_or_off_in(word: &[u8]) -> Option<Option<u32>>
    ensures { result ≡ optional_of off_word most_32 word.now }
{
    if is_text(word, b"off") {
        return Some(None);
    }
    Some(Some(number_in(word, u32::MAX)?))
}

/// Returns a time in units of 10 ms, `Some(None)` for `none`, or None for any other word.
pub(crate) fn time_or_none_in(word: &[u8]) -> Option<Option<u64>>
    ensures { result ≡ optional_of none_word most_64 word.now }
{
    if is_text(word, b"none") {
        return Some(None);
    }
    Some(Some(long_in(word)?))
}

/// Returns the number below 2^64 that a word is in plain decimal, or None for any other word.
fn long_in(word: &[u8]) -> Option<u64>
    ensures { result ≡ number_to most_64 word.now }
{
    match word {
        [] => None,
        [b'0', _, ..] => None,
        [_, ..] => digits_in(word),
    }
}

/// Returns the state of this name, or None for any other word.
pub(crate) fn state_in(word: &[u8]) -> Option<State>
    ensures { result ≡ state_of_word word.now }
{
    if is_text(word, b"WaitPrm") {
        return Some(State::WaitPrm);
    }
    if is_text(word, b"WaitCfg") {
        return Some(State::WaitCfg);
    }
    if is_text(word, b"DataExch") {
        return Some(State::DataExch);
    }
    None
}

/// Returns a frame count bit, or None for any other word than `1` and `0`.
pub(crate) fn bit_in(word: &[u8]) -> Option<bool>
    ensures { result ≡ bit_of_word word.now }
{
    if is_text(word, b"1") {
        return Some(true);
    }
    if is_text(word, b"0") {
        return Some(false);
    }
    None
}

/// Returns whether a line is halted, or None for any other word than `halted` and `running`.
pub(crate) fn halted_in(word: &[u8]) -> Option<bool>
    ensures { result ≡ halted_of_word word.now }
{
    if is_text(word, b"halted") {
        return Some(true);
    }
    if is_text(word, b"running") {
        return Some(false);
    }
    None
}

/// Returns whether the octet is that of a flag that is set: any but `-`.
pub(crate) fn is_letter(octet: u8) -> bool
    ensures { result ≡ is_flag_letter octet }
{
    octet != b'-'
}

/// Returns two flags, or None for a word that does not have two octets.
pub(crate) fn two_in(word: &[u8]) -> Option<(bool, bool)>
    ensures { result ≡ two_of word.now }
{
    match word {
        [first, second] => Some((is_letter(*first), is_letter(*second))),
        _ => None,
    }
}

/// Returns three flags, or None for a word that does not have three octets.
pub(crate) fn three_in(word: &[u8]) -> Option<(bool, bool, bool)>
    ensures { result ≡ three_of word.now }
{
    match word {
        [first, second, third] => Some((is_letter(*first), is_letter(*second), is_letter(*third))),
        _ => None,
    }
}

/// Returns busy marks, or None for a word that does not have eight octets.
pub(crate) fn busy_in(word: &[u8]) -> Option<BusyMarks>
    ensures { result ≡ busy_of word.now }
{
    match word {
        [x, i, o, g, c, d, p, k] => Some(BusyMarks {
            data_exchange: is_letter(*x),
            rd_inp: is_letter(*i),
            rd_outp: is_letter(*o),
            global_control: is_letter(*g),
            get_cfg: is_letter(*c),
            slave_diag: is_letter(*d),
            set_prm: is_letter(*p),
            chk_cfg: is_letter(*k),
        }),
        _ => None,
    }
}

/// Returns the octets of a word: `-` for none, else pairs of hex digits in lower case, at most `MOST` octets.
/// Returns None for any other word.
pub(crate) fn octets_word_in<const MOST: usize>(word: &[u8]) -> Option<ArrayVec<u8, MOST>>
    requires { MOST ≤ 255 }
    ensures { option_map (λ octets. octets.items) result ≡ event_octets Lower MOST word.now }
{
    if is_text(word, b"-") {
        return Some(ArrayVec::new());
    }
    if has_upper_case(word) {
        return None;
    }
    within(word)
}

/// Returns the octets of a word of whole pairs of hex digits, 1 to `MOST` octets, or None for any other word.
fn within<const MOST: usize>(word: &[u8]) -> Option<ArrayVec<u8, MOST>>
    requires { MOST ≤ 255 }
    ensures { option_map (λ octets. octets.items) result ≡ octets_up_to MOST word.now }
{
    let octets = octets_in(word)?;
    match ArrayVec::try_from(octets.as_slice()) {
        Ok(octets) => Some(octets),
        Err(_) => None,
    }
}

fn has_upper_case(word: &[u8]) -> bool
    ensures { result ≡ list_any is_ascii_uppercase word.now }
{
    word.iter().any(|octet| octet.is_ascii_uppercase())
}

/// Returns the number below 2^64 that a word of digits is, or None for any other word.
fn digits_in(word: &[u8]) -> Option<u64>
    ensures { result ≡ (if all_ascii_digits word.now && nat_le (digits_value 10 word.now) most_64 then Some (digits_value 10 word.now) else None) }
{
    let limit = u128::from(u64::MAX);
    let mut value = 0u128;
    let mut left = word;
    while let [digit, rest @ ..] = left {
        if !digit.is_ascii_digit() {
            return None;
        }
        value = value * 10 + u128::from(*digit - b'0');
        if value > limit {
            return None;
        }
        left = rest;
    }
    Some(value as u64)
}
