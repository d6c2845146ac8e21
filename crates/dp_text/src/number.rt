//! Reading plain decimal numbers.

ghost use Rattle.std.specs.Prelude.{◌≡◌, ◌≤◌, ◌&&◌, nat_le, if◌then◌else◌, IfSome, Some, None};
ghost use Rattle.std.specs.Str.{all_ascii_digits};
ghost use Rattle.std.specs.Str.Parse.{digits_value};
ghost use Rattle.dp_text.specs.Numbers.{number_to, octet_number};
ghost use Rattle.dp_text.specs.OpLines.{only_octet};

use crate::words::Words;

/// Returns the number, 0 to `most`, that a word is in plain decimal: digits without a sign and without a
/// leading zero, except 0 itself. Returns None for any other word.
pub fn number_in(word: &[u8], most: u32) -> Option<u32>
    ensures number { result ≡ number_to most word.now }
    ensures bound { IfSome result (λ number. number ≤ most) }
{
    match word {
        [] => None,
        [b'0', _, ..] => None,
        [_, ..] => digits_in(word, most),
    }
}

/// Returns the number from 0 to 255 that a word is in plain decimal, or None for any other word.
pub fn octet_in(word: &[u8]) -> Option<u8>
    ensures { result ≡ octet_number word.now }
{
    match number_in(word, 255) {
        Some(number) => Some(number as u8),
        None => None,
    }
}

/// Returns the number from 0 to 255 that the only word is in plain decimal, or None for any other words.
pub fn only_octet_in(words: &mut Words<'_>) -> Option<u8>
    ensures { result ≡ only_octet words.old }
{
    let number = words.next()?;
    match words.next() {
        None => octet_in(number),
        Some(_) => None,
    }
}

/// Returns the number, 0 to `most`, that a word of digits is, or None for any other word.
fn digits_in(word: &[u8], most: u32) -> Option<u32>
    ensures number { result ≡ (if all_ascii_digits word.now && nat_le (digits_value 10 word.now) most then Some (digits_value 10 word.now) else None) }
    ensures bound { IfSome result (λ number. number ≤ most) }
{
    let limit = u64::from(most);
    let mut value = 0u64;
    let mut left = word;
    while let [digit, rest @ ..] = left {
        if !digit.is_ascii_digit() {
            return None;
        }
        value = value * 10 + u64::from(*digit - b'0');
        if value > limit {
            return None;
        }
        left = rest;
    }
    Some(value as u32)
}
