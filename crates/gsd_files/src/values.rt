//! The values of a GSD file: numbers, octets and names.

ghost use Rattle.std.specs.Prelude.{◌≡◌, ◌≤◌, ◌<◌, ◌==◌, ◌∷◌, position, IfSome, Some, length, MatchOption, []};
ghost use Rattle.std.specs.List.{slice_split};
ghost use Rattle.std.specs.Option.{option_map};
ghost use Rattle.gsd_files.specs.Steps.{seen};
ghost use Rattle.gsd_files.specs.Values.{digit_of, with_digit, with_digits, digits_number, has_hex_mark, number_of, negated, signed_of, last_of, span_of, number_to, is_separator, with_octet_more, with_word, with_octets, utf8_of, with_character, name_from, name_in};

use crate::cause::Cause;
use crate::rows::{is_blank, place_of};
use arrayvec::ArrayVec;
use dp_slave::Configuration;

/// The most octets of the name of a module, in UTF-8.
pub const MOST_NAME: usize = 128;

/// The largest number that a value may be: larger ones are read as this one.
const LARGEST: u64 = 4_294_967_295;

/// The name of a module, in UTF-8.
pub type Name = ArrayVec<u8, MOST_NAME>;

/// A number, or all numbers from the first to the last.
#[derive(Clone, Copy, Default)]
pub struct Span {
    /// The first one.
    pub first: u32,
    /// The last one.
    pub last: u32,
}

/// Returns the value of a digit to the base 10 or 16.
fn digit_of(base: u32, octet: u8) -> Option<u32>
    ensures digit { result ≡ digit_of base octet }
    ensures most { IfSome result (λ digit. digit < 16) }
{
    if b'0' <= octet && octet <= b'9' {
        return Some(u32::from(octet - b'0'));
    }
    if base == 16 && b'a' <= octet && octet <= b'f' {
        return Some(u32::from(octet - 87));
    }
    if base == 16 && b'A' <= octet && octet <= b'F' {
        return Some(u32::from(octet - 55));
    }
    None
}

/// Returns a number and one more digit.
fn with_digit(base: u32, number: u32, octet: u8) -> Option<u32>
    requires { base ≤ 16 }
    ensures { result ≡ with_digit base number (digit_of base octet) }
{
    let digit = digit_of(base, octet)?;
    let more = u64::from(number) * u64::from(base) + u64::from(digit);
    if more > LARGEST {
        Some(u32::MAX)
    } else {
        Some(more as u32)
    }
}

/// Returns a number and more digits.
fn with_digits(base: u32, number: u32, digits: &[u8]) -> Option<u32>
    requires { base ≤ 16 }
    ensures { result ≡ with_digits base (Some number) digits.now }
{
    match digits {
        [] => Some(number),
        [octet, octets @ ..] => match with_digit(base, number, *octet) {
            None => None,
            Some(more) => with_digits(base, more, octets),
        },
    }
}

/// Returns the number of these digits, of which there is one at least.
fn digits_number(base: u32, digits: &[u8]) -> Option<u32>
    requires { base ≤ 16 }
    ensures { result ≡ digits_number base digits.now }
{
    match digits {
        [] => None,
        [_octet, ..] => with_digits(base, 0, digits),
    }
}

/// Returns whether the word begins with `0x` or `0X`.
fn has_hex_mark(word: &[u8]) -> bool
    ensures mark { result ≡ has_hex_mark word.now }
{
    match word {
        [] => false,
        [_octet] => false,
        [octet, mark, ..] => *octet == b'0' && (*mark == b'x' || *mark == b'X'),
    }
}

/// Returns the number that a word is: hex digits behind `0x`, or decimal digits.
pub(crate) fn number_of(word: &[u8]) -> Option<u32>
    ensures { result ≡ number_of word.now }
{
    if word.len() >= 2 && has_hex_mark(word) {
        let (_mark, digits) = word.split_at(2);
        digits_number(16, digits)
    } else {
        digits_number(10, word)
    }
}

/// Returns a number that may have `-` before it, as its two's complement of 32 bits.
pub(crate) fn signed_of(word: &[u8]) -> Option<u32>
    ensures { result ≡ signed_of word.now }
{
    match word {
        [] => None,
        [octet, octets @ ..] => {
            if *octet == b'-' {
                let number = number_of(octets)?;
                if number == 0 {
                    Some(0)
                } else {
                    Some(u32::MAX - number + 1)
                }
            } else {
                number_of(word)
            }
        }
    }
}

/// Returns what follows the first octet of `rest`, or all of `word` if there is none.
fn last_of<'a>(word: &'a [u8], rest: &'a [u8]) -> &'a [u8]
    ensures { result.now ≡ last_of word.entry.now rest.entry.now }
{
    match rest {
        [] => word,
        [_octet, octets @ ..] => octets,
    }
}

/// Returns the number that a word is, or the two with `-` between them.
pub(crate) fn span_of(word: &[u8]) -> Option<Span>
    ensures { result ≡ span_of word.now }
{
    let (front, rest) = word.split_at(place_of(b'-', word));
    let first = number_of(front)?;
    let last = number_of(last_of(word, rest))?;
    Some(Span { first, last })
}

/// Returns the value as a number from 0 to `most`. `NoValue` if there is no value, `NoNumber` if it isn't one.
pub(crate) fn number_to(most: u32, value: Option<&[u8]>) -> Result<u32, Cause>
    ensures { result ≡ number_to most (option_map (λ word. word.now) value.entry) }
{
    match value {
        None => Err(Cause::NoValue),
        Some(word) => match number_of(word) {
            None => Err(Cause::NoNumber(most)),
            Some(number) => {
                if number <= most {
                    Ok(number)
                } else {
                    Err(Cause::NoNumber(most))
                }
            }
        },
    }
}

/// Returns whether octets may stand on both sides of this one.
fn is_separator(octet: u8) -> bool
    ensures { result ≡ is_separator octet }
{
    is_blank(octet) || octet == b','
}

/// Returns the octets and what a word adds to them.
fn with_word(octets: Configuration, word: &[u8]) -> Result<Configuration, Cause>
    ensures { seen (λ more. more.items) result ≡ with_word octets.items word.now }
{
    if word.is_empty() {
        return Ok(octets);
    }
    match number_of(word) {
        None => Err(Cause::NoOctet),
        Some(octet) => {
            if octet > 255 {
                return Err(Cause::NoOctet);
            }
            with_octet(octets, octet as u8)
        }
    }
}

/// Returns the octets and one more.
fn with_octet(octets: Configuration, octet: u8) -> Result<Configuration, Cause>
    ensures { seen (λ more. more.items) result ≡ with_octet_more octets.items (Some octet) }
{
    let mut more = octets;
    if more.is_full() {
        return Err(Cause::ManyOctets);
    }
    more.push(octet);
    Ok(more)
}

/// Returns the index of the first separator.
fn separator_in(text: &[u8]) -> Option<usize>
    ensures index { result ≡ position is_separator text.now }
    ensures bound { IfSome result (λ index. index < length text.now) }
{
    text.iter().position(|octet| is_separator(*octet))
}

/// Returns the text before the first separator, and the text after it, if there is one.
pub(crate) fn first_word(text: &[u8]) -> (&[u8], Option<&[u8]>)
    ensures words { MatchOption result.1 (slice_split is_separator text.now ≡ result.0.now ∷ [])
        (λ rest. slice_split is_separator text.now ≡ result.0.now ∷ slice_split is_separator rest.now) }
    ensures shorter { IfSome result.1 (λ rest. length rest.now < length text.now) }
{
    match separator_in(text) {
        Some(index) => (&text[..index], Some(&text[index + 1..])),
        None => (text, None),
    }
}

/// Returns the octets and those that a text adds to them. `NoOctet` if a word isn't a number from 0 to 255,
/// `ManyOctets` for more than 244.
pub(crate) fn with_octets(octets: Configuration, text: &[u8]) -> Result<Configuration, Cause>
    ensures { seen (λ more. more.items) result ≡ with_octets octets.items text.now }
{
    let (word, rest) = first_word(text);
    let more = with_word(octets, word)?;
    match rest {
        None => Ok(more),
        Some(rest) => with_octets(more, rest),
    }
}

/// Returns a name with one more character of ISO 8859-1. `LongName` if it has more than 128 octets then.
fn with_character(name: Name, octet: u8) -> Result<Name, Cause>
    ensures { seen (λ more. more.items) result ≡ with_character name.items (utf8_of octet) }
{
    let mut more = name;
    if octet < 128 {
        if more.len() >= MOST_NAME {
            return Err(Cause::LongName);
        }
        more.push(octet);
    } else {
        if more.len() + 2 > MOST_NAME {
            return Err(Cause::LongName);
        }
        more.push(192 + octet / 64);
        more.push(128 + octet % 64);
    }
    Ok(more)
}

/// Returns the name whose octets are these and those before the closing `"` of a text, and what follows that.
fn name_from(name: Name, text: &[u8]) -> Result<(Name, &[u8]), Cause>
    ensures { seen (λ named. (named.0.items, named.1.now)) result ≡ name_from name.items text.now }
{
    match text {
        [] => Err(Cause::NoName),
        [octet, octets @ ..] => {
            if *octet == b'"' {
                Ok((name, octets))
            } else {
                name_from(with_character(name, *octet)?, octets)
            }
        }
    }
}

/// Returns the name in quotes that a text begins with, in UTF-8, and what follows it. `NoName` if it begins with none.
pub(crate) fn name_in(text: &[u8]) -> Result<(Name, &[u8]), Cause>
    ensures { seen (λ named. (named.0.items, named.1.now)) result ≡ name_in text.now }
{
    match text {
        [] => Err(Cause::NoName),
        [octet, octets @ ..] => {
            if *octet == b'"' {
                name_from(ArrayVec::new(), octets)
            } else {
                Err(Cause::NoName)
            }
        }
    }
}
