//! Octets in words of hex digits, read in place.

ghost use Rattle.std.specs.Prelude.{◌≡◌, ◌<◌, ◌≤◌, ◌*◌, ◌%◌, false, nat_lt, if◌then◌else◌, [], ◌∷◌, ◌++◌, ◌&&◌, length, take, drop, min, is_some, None, option_map, IfSome};
ghost use Rattle.hex.specs.Hex.{is_hex_digit as is_digit_of_hex};
ghost use Rattle.dp_text.specs.Words.{words_of};
ghost use Rattle.dp_text.specs.HexWords.{octets_of_words, digit_value, pair_octet, spelt_behind, goes_on};

use crate::words::SPACE;
use std::marker::Model;

/// For each octet, 16 times its value as a hex digit in either case, or 16 times 255 if it is not a digit. Then
/// for each octet its value, or 511 if it is not a digit. So the sum of one value of each half is below 256 if
/// and only if both octets are digits. A second table would cost one more instruction per octet.
const VALUES: [u32; 512] = [
    4080, 4080, 4080, 4080, 4080, 4080, 4080, 4080, 4080, 4080, 4080, 4080, 4080, 4080, 4080, 4080,
    4080, 4080, 4080, 4080, 4080, 4080, 4080, 4080, 4080, 4080, 4080, 4080, 4080, 4080, 4080, 4080,
    4080, 4080, 4080, 4080, 4080, 4080, 4080, 4080, 4080, 4080, 4080, 4080, 4080, 4080, 4080, 4080,
    0, 16, 32, 48, 64, 80, 96, 112, 128, 144, 4080, 4080, 4080, 4080, 4080, 4080, 4080, 160, 176,
    192, 208, 224, 240, 4080, 4080, 4080, 4080, 4080, 4080, 4080, 4080, 4080, 4080, 4080, 4080,
    4080, 4080, 4080, 4080, 4080, 4080, 4080, 4080, 4080, 4080, 4080, 4080, 4080, 4080, 160, 176,
    192, 208, 224, 240, 4080, 4080, 4080, 4080, 4080, 4080, 4080, 4080, 4080, 4080, 4080, 4080,
    4080, 4080, 4080, 4080, 4080, 4080, 4080, 4080, 4080, 4080, 4080, 4080, 4080, 4080, 4080, 4080,
    4080, 4080, 4080, 4080, 4080, 4080, 4080, 4080, 4080, 4080, 4080, 4080, 4080, 4080, 4080, 4080,
    4080, 4080, 4080, 4080, 4080, 4080, 4080, 4080, 4080, 4080, 4080, 4080, 4080, 4080, 4080, 4080,
    4080, 4080, 4080, 4080, 4080, 4080, 4080, 4080, 4080, 4080, 4080, 4080, 4080, 4080, 4080, 4080,
    4080, 4080, 4080, 4080, 4080, 4080, 4080, 4080, 4080, 4080, 4080, 4080, 4080, 4080, 4080, 4080,
    4080, 4080, 4080, 4080, 4080, 4080, 4080, 4080, 4080, 4080, 4080, 4080, 4080, 4080, 4080, 4080,
    4080, 4080, 4080, 4080, 4080, 4080, 4080, 4080, 4080, 4080, 4080, 4080, 4080, 4080, 4080, 4080,
    4080, 4080, 4080, 4080, 4080, 4080, 4080, 4080, 4080, 4080, 4080, 4080, 4080, 4080, 4080, 4080,
    4080, 4080, 4080, 4080, 4080, 4080, 4080, 4080, 4080, 4080, 4080, 4080, 4080, 511, 511, 511,
    511, 511, 511, 511, 511, 511, 511, 511, 511, 511, 511, 511, 511, 511, 511, 511, 511, 511, 511,
    511, 511, 511, 511, 511, 511, 511, 511, 511, 511, 511, 511, 511, 511, 511, 511, 511, 511, 511,
    511, 511, 511, 511, 511, 511, 511, 0, 1, 2, 3, 4, 5, 6, 7, 8, 9, 511, 511, 511, 511, 511, 511,
    511, 10, 11, 12, 13, 14, 15, 511, 511, 511, 511, 511, 511, 511, 511, 511, 511, 511, 511, 511,
    511, 511, 511, 511, 511, 511, 511, 511, 511, 511, 511, 511, 511, 10, 11, 12, 13, 14, 15, 511,
    511, 511, 511, 511, 511, 511, 511, 511, 511, 511, 511, 511, 511, 511, 511, 511, 511, 511, 511,
    511, 511, 511, 511, 511, 511, 511, 511, 511, 511, 511, 511, 511, 511, 511, 511, 511, 511, 511,
    511, 511, 511, 511, 511, 511, 511, 511, 511, 511, 511, 511, 511, 511, 511, 511, 511, 511, 511,
    511, 511, 511, 511, 511, 511, 511, 511, 511, 511, 511, 511, 511, 511, 511, 511, 511, 511, 511,
    511, 511, 511, 511, 511, 511, 511, 511, 511, 511, 511, 511, 511, 511, 511, 511, 511, 511, 511,
    511, 511, 511, 511, 511, 511, 511, 511, 511, 511, 511, 511, 511, 511, 511, 511, 511, 511, 511,
    511, 511, 511, 511, 511, 511, 511, 511, 511, 511, 511, 511, 511, 511, 511, 511, 511, 511, 511,
    511, 511, 511, 511, 511, 511, 511, 511, 511, 511, 511, 511, 511, 511, 511, 511, 511, 511, 511,
];

/// The octets of words of hex digits, decoded when they are read. Contracts see the octets that are left.
#[derive(Debug, Drop)]
pub struct HexWords<'a> {
    digits: &'a [u8],
}

impl<'a> Model for HexWords<'a> {
    ghost use Rattle.std.specs.Prelude.{ℕ, List, None};
    ghost use Rattle.dp_text.specs.HexWords.{spelt_behind};

    ghost Value = { List ℕ };

    ghost view = { λ h. spelt_behind None h.digits.now };
}

impl<'a> HexWords<'a> {
    /// Returns the octets of a text of words, each of whole pairs of hex digits in either case. Returns None if
    /// one of the words is empty or is not whole pairs.
    pub fn new(text: &'a [u8]) -> Option<HexWords<'a>>
        ensures { result ≡ octets_of_words (words_of text.now) }
    {
        if are_hex_words(text) {
            Some(HexWords { digits: text })
        } else {
            None
        }
    }

    /// Looks at all of a text of words, as [`HexWords::new`] does, and decodes in the same pass as many octets as have
    /// room: how many these are, and the octets that are left.
    ///
    /// It is not inlined, for the same reason as [`HexWords::fill`].
    #[inline(never)]
    pub fn of_into(text: &'a [u8], octets: &mut [u8]) -> Option<(usize, HexWords<'a>)>
        ensures read { option_map (λ read. take read.0 octets.new ++ read.1) result ≡ octets_of_words (words_of text.now) }
        ensures most { IfSome result (λ read. read.0 ≤ length octets.new) }
        ensures rest { IfSome result (λ read. read.0 < length octets.new → read.1 ≡ []) }
    {
        let mut count = pairs_into(text, octets);
        // After the test of the count, this would cost one more instruction per octet.
        let (_, mut left) = text.split_at(2 * count);
        if count == 0 {
            return Some((0, HexWords::new(text)?));
        }
        while count < octets.len() {
            match left {
                [] => return Some((count, HexWords { digits: left })),
                [SPACE, word @ ..] => {
                    left = pair_into(word, &mut octets[count])?;
                    count += 1;
                }
                [_, ..] => {
                    left = pair_into(left, &mut octets[count])?;
                    count += 1;
                }
            }
        }
        if goes_on_in_words(left) {
            Some((count, HexWords { digits: left }))
        } else {
            None
        }
    }

    /// Decodes octets until none is left or the room is full, and returns the number of decoded octets.
    ///
    /// It is not inlined: its loop needs registers that a caller uses.
    #[inline(never)]
    pub fn fill(&mut self, octets: &mut [u8]) -> usize
        ensures count { result ≡ min (length self.old) (length octets.old) }
        ensures octets { self.old ≡ take result octets.new ++ self.new }
    {
        let mut digits = self.digits;
        let mut count = 0;
        while count < octets.len() {
            match digits {
                [SPACE, rest @ ..] => digits = rest,
                [high, low, rest @ ..] => {
                    octets[count] = octet_of(*high, *low);
                    count += 1;
                    digits = rest;
                }
                _ => break,
            }
        }
        self.digits = digits;
        count
    }
}

/// Decodes the pairs that the first word begins with, as many as there is room for, and returns their number.
///
/// It uses an index, so that one test covers both the room and the text: most texts are one word, and the time
/// per octet matters.
fn pairs_into(text: &[u8], octets: &mut [u8]) -> usize
    ensures room { result ≤ length octets.new }
    ensures within { 2 * result ≤ length text.now }
    ensures octets { spelt_behind None text.now ≡ take result octets.new ++ spelt_behind None (drop (2 * result) text.now) }
    ensures words { 0 < result → goes_on (drop (2 * result) text.now) ≡ is_some (octets_of_words (words_of text.now)) }
    ensures none { result ≡ 0 → 0 < length octets.new → octets_of_words (words_of text.now) ≡ None }
{
    let most = octets.len().min(text.len() / 2);
    let mut count = 0;
    while count < most {
        let high = text[2 * count];
        let low = text[2 * count + 1];
        if !is_pair(high, low) {
            return count;
        }
        octets[count] = octet_of(high, low);
        count += 1;
    }
    count
}

/// Decodes the pair that a text begins with, and returns the text after it, or None if the text does not begin
/// with a pair.
fn pair_into<'a>(text: &'a [u8], octet: &mut u8) -> Option<&'a [u8]>
    ensures octet { IfSome result (λ rest. spelt_behind None text.now ≡ octet.new ∷ spelt_behind None rest.now) }
    ensures words { IfSome result (λ rest. goes_on rest.now ≡ is_some (octets_of_words (words_of text.now))) }
    ensures none { result ≡ None → is_some (octets_of_words (words_of text.now)) ≡ false }
{
    let [high, low, rest @ ..] = text else {
        return None;
    };
    if !is_pair(*high, *low) {
        return None;
    }
    *octet = octet_of(*high, *low);
    Some(rest)
}

/// Returns whether this text may follow a pair: nothing, more digits of its word, or a space and more words.
fn goes_on_in_words(left: &[u8]) -> bool
    ensures { result ≡ goes_on left.now }
{
    match left {
        [] => true,
        [SPACE, more @ ..] => are_hex_words(more),
        [_, ..] => are_hex_words(left),
    }
}

/// Returns whether each word of the text is one or more whole pairs of hex digits. After a pair the text ends,
/// its word ends, or another pair follows.
fn are_hex_words(text: &[u8]) -> bool
    ensures { result ≡ is_some (octets_of_words (words_of text.now)) }
{
    let mut left = text;
    loop {
        let [high, low, rest @ ..] = left else {
            return false;
        };
        if !is_pair(*high, *low) {
            return false;
        }
        match rest {
            [] => return true,
            [SPACE, more @ ..] => left = more,
            [_, ..] => left = rest,
        }
    }
}

fn is_pair(high: u8, low: u8) -> bool
    ensures { result ≡ (is_digit_of_hex high && is_digit_of_hex low) }
{
    sum_of(high, low) < 256
}

/// Returns the octet of two hex digits.
fn octet_of(high: u8, low: u8) -> u8
    ensures { result ≡ pair_octet high low }
{
    (sum_of(high, low) % 256) as u8
}

/// Returns the octet of two hex digits, or at least 256 if one of them is not a digit: one test is enough for
/// both.
fn sum_of(high: u8, low: u8) -> u32
    ensures octet { result % 256 ≡ pair_octet high low }
    ensures digits { nat_lt result 256 ≡ (is_digit_of_hex high && is_digit_of_hex low) }
{
    high_of(high) + low_of(low)
}

fn high_of(digit: u8) -> u32
    ensures { result ≡ 16 * digit_value digit }
{
    VALUES[usize::from(digit)]
}

fn low_of(digit: u8) -> u32
    ensures { result ≡ (if is_digit_of_hex digit then digit_value digit else 511) }
{
    VALUES[256 + usize::from(digit)]
}
