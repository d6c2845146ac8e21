//! Reading what an operator does.

ghost use Rattle.std.specs.Prelude.{◌≡◌, [], ◌∷◌, ◌≤◌, ◌/◌, if◌then◌else◌, option_map, length, Some, None};
ghost use Rattle.std.specs.Result.{result_ok};
ghost use Rattle.hex.specs.Hex.{decode_of};
ghost use Rattle.std.specs.List.{list_any};
ghost use Rattle.std.specs.Char.{is_ascii_uppercase};
ghost use Rattle.dp_text.specs.Events.{octets_up_to, has_other_case, event_octets, flags_of, point_of, on_or_off, input_of, diag_of, busy_of, tick_of, halt_of, op_of_words};

use crate::number::{number_in, octet_in};
use crate::words::{Words, is_text};
use arrayvec::ArrayVec;
use dp_line::Op;
use dp_telegram::MOST_OCTETS;

/// The content of octets before they are decoded.
const BLANK: [u8; MOST_OCTETS] = [0; MOST_OCTETS];

/// The hex digits that a text may have.
#[derive(Clone, Copy, Debug, PartialEq, Eq)]
pub enum HexCase {
    /// Letters in lower case only, as in an audit text.
    Lower,
    /// Letters in either case, as in a script or an operator's line.
    Either,
}

/// Returns what an operator does, from the first word of a line and the words after it: `in A HEX`,
/// `diag A FLAGS HEX`, `busy A POINT on` or `off`, `tick N` or `halt`.
///
/// A is 0 to 255, POINT is 0 to 255 or `default`, and N is 0 to 4,294,967,295 units of 10 ms. HEX is `-` or
/// pairs of hex digits: at most 244 octets for inputs and 238 for a diagnosis. FLAGS are the letters of the
/// flags that are set, `e` (ext), `s` (stat) and `o` (overflow) in this order, or `-` for none. Returns None
/// for any other words.
pub fn op_in(case: HexCase, kind: &[u8], words: &mut Words<'_>) -> Option<Op>
    ensures { result ≡ op_of_words case (kind.now ∷ words.old) }
{
    let mut op = Op::Halt;
    op_into(case, kind, words, &mut op)?;
    Some(op)
}

/// Writes what an operator does to `op`, or returns None as [`op_in`] does. If `op` already has the same kind,
/// its room is reused, so that inputs and ticks, which come often, are not copied.
pub(crate) fn op_into(case: HexCase, kind: &[u8], words: &mut Words<'_>, op: &mut Op) -> Option<()>
    ensures { option_map (λ done. op.new) result ≡ op_of_words case (kind.now ∷ words.old) }
{
    if is_text(kind, b"in") {
        return input_into(case, words, op);
    }
    if is_text(kind, b"diag") {
        return diag_into(case, words, op);
    }
    if is_text(kind, b"busy") {
        return busy_into(words, op);
    }
    if is_text(kind, b"tick") {
        return tick_into(words, op);
    }
    if is_text(kind, b"halt") {
        return halt_into(words, op);
    }
    None
}

/// Reads the inputs of a slave's device: `A HEX`.
fn input_into(case: HexCase, words: &mut Words<'_>, op: &mut Op) -> Option<()>
    ensures { option_map (λ done. op.new) result ≡ input_of case words.old }
{
    let address = words.next()?;
    let octets = words.next()?;
    if words.next().is_some() {
        return None;
    }
    let address = octet_in(address)?;
    match op {
        Op::Input {
            address: at,
            octets: inputs,
        } => {
            *at = address;
            event_octets_into(case, octets, inputs)
        }
        _ => input_anew(case, address, octets, op),
    }
}

/// Replaces an `op` of another kind with the inputs of a slave's device.
fn input_anew(case: HexCase, address: u8, word: &[u8], op: &mut Op) -> Option<()>
    ensures { option_map (λ done. op.new) result
        ≡ option_map (λ items. Op.Input address (record { items = items })) (event_octets case 244 word.now) }
{
    *op = Op::Input {
        address,
        octets: event_octets_in(case, word)?,
    };
    Some(())
}

/// Reads a diagnosis: `A FLAGS HEX`.
fn diag_into(case: HexCase, words: &mut Words<'_>, op: &mut Op) -> Option<()>
    ensures { option_map (λ done. op.new) result ≡ diag_of case words.old }
{
    let address = words.next()?;
    let flags = words.next()?;
    let octets = words.next()?;
    if words.next().is_some() {
        return None;
    }
    let address = octet_in(address)?;
    let (ext, stat, overflow) = flags_in(flags)?;
    *op = Op::Diag {
        address,
        ext,
        stat,
        overflow,
        octets: event_octets_in(case, octets)?,
    };
    Some(())
}

/// Reads whether a point is busy: `A POINT on` or `A POINT off`.
fn busy_into(words: &mut Words<'_>, op: &mut Op) -> Option<()>
    ensures { option_map (λ done. op.new) result ≡ busy_of words.old }
{
    let address = words.next()?;
    let point = words.next()?;
    let state = words.next()?;
    if words.next().is_some() {
        return None;
    }
    *op = Op::Busy {
        address: octet_in(address)?,
        point: point_in(point)?,
        on: on_or_off_in(state)?,
    };
    Some(())
}

/// Reads a time: `N`, in units of 10 ms.
fn tick_into(words: &mut Words<'_>, op: &mut Op) -> Option<()>
    ensures { option_map (λ done. op.new) result ≡ tick_of words.old }
{
    let units = words.next()?;
    if words.next().is_some() {
        return None;
    }
    let units = number_in(units, u32::MAX)?;
    match op {
        Op::Tick(time) => *time = units,
        _ => tick_anew(units, op),
    }
    Some(())
}

/// Replaces an `op` of another kind with a time, in units of 10 ms.
fn tick_anew(units: u32, op: &mut Op)
    ensures { op.new ≡ Op.Tick units }
{
    *op = Op::Tick(units);
}

fn halt_into(words: &mut Words<'_>, op: &mut Op) -> Option<()>
    ensures { option_map (λ done. op.new) result ≡ halt_of words.old }
{
    if words.next().is_some() {
        return None;
    }
    *op = Op::Halt;
    Some(())
}

/// Returns the flags of a diagnosis (ext, stat and overflow), or None for any other word.
fn flags_in(word: &[u8]) -> Option<(bool, bool, bool)>
    ensures { result ≡ flags_of word.now }
{
    if is_text(word, b"-") {
        return Some((false, false, false));
    }
    if is_text(word, b"e") {
        return Some((true, false, false));
    }
    if is_text(word, b"s") {
        return Some((false, true, false));
    }
    if is_text(word, b"o") {
        return Some((false, false, true));
    }
    if is_text(word, b"es") {
        return Some((true, true, false));
    }
    if is_text(word, b"eo") {
        return Some((true, false, true));
    }
    if is_text(word, b"so") {
        return Some((false, true, true));
    }
    if is_text(word, b"eso") {
        return Some((true, true, true));
    }
    None
}

fn on_or_off_in(word: &[u8]) -> Option<bool>
    ensures { result ≡ on_or_off word.now }
{
    if is_text(word, b"on") {
        return Some(true);
    }
    if is_text(word, b"off") {
        return Some(false);
    }
    None
}

/// Returns a point, or None for any other word. `Some(None)` is the default point.
fn point_in(word: &[u8]) -> Option<Option<u8>>
    ensures { result ≡ point_of word.now }
{
    if is_text(word, b"default") {
        return Some(None);
    }
    Some(Some(octet_in(word)?))
}

/// Returns the octets of a word as texts write them: `-` for none, else pairs of hex digits in this case, at
/// most `MOST` octets. Returns None for any other word.
pub(crate) fn event_octets_in<const MOST: usize>(
    case: HexCase,
    word: &[u8],
) -> Option<ArrayVec<u8, MOST>>
    requires { MOST ≤ MOST_OCTETS }
    ensures { option_map (λ octets. octets.items) result ≡ event_octets case MOST word.now }
{
    let mut octets = ArrayVec::new();
    event_octets_into(case, word, &mut octets)?;
    Some(octets)
}

/// Replaces `octets` with the octets of a word, as [`event_octets_in`] reads them.
fn event_octets_into<const MOST: usize>(
    case: HexCase,
    word: &[u8],
    octets: &mut ArrayVec<u8, MOST>,
) -> Option<()>
    requires { MOST ≤ MOST_OCTETS }
    ensures { option_map (λ done. octets.new.items) result ≡ event_octets case MOST word.now }
{
    octets.clear();
    if is_text(word, b"-") {
        return Some(());
    }
    if is_in_other_case(case, word) {
        return None;
    }
    octets_into(word, octets)
}

/// Returns the octets of a word of whole pairs of hex digits in either case, 1 to `MOST` octets, or None for
/// any other word.
pub(crate) fn octets_of<const MOST: usize>(word: &[u8]) -> Option<ArrayVec<u8, MOST>>
    requires { MOST ≤ MOST_OCTETS }
    ensures { option_map (λ octets. octets.items) result ≡ octets_up_to MOST word.now }
{
    let mut octets = ArrayVec::new();
    octets_into(word, &mut octets)?;
    Some(octets)
}

/// Writes the octets of a word to the empty `octets`, as [`octets_of`] reads them.
fn octets_into<const MOST: usize>(word: &[u8], octets: &mut ArrayVec<u8, MOST>) -> Option<()>
    requires most { MOST ≤ MOST_OCTETS }
    requires empty { octets.old.items ≡ [] }
    ensures { option_map (λ done. octets.new.items) result ≡ octets_up_to MOST word.now }
{
    let count = word.len() / 2;
    if count == 0 {
        return None;
    }
    if count > MOST {
        return None;
    }
    octets.try_extend_from_slice(&BLANK[..count]).unwrap();
    if decodes(word, octets.as_mut_slice()) {
        Some(())
    } else {
        None
    }
}

/// Decodes a word into one octet for each of its pairs, and returns whether it is whole pairs of hex digits.
#[tactic(auto, using(crate::proofs::HexSpellings::in_its_room))]
fn decodes(word: &[u8], octets: &mut [u8]) -> bool
    requires { length octets.old ≡ length word.now / 2 }
    ensures { (if result then Some octets.new else None) ≡ result_ok (decode_of word.now) }
{
    hex::decode_to_slice(word, octets).is_ok()
}

/// Returns whether the word has letters of a case that is not accepted.
fn is_in_other_case(case: HexCase, word: &[u8]) -> bool
    ensures { result ≡ has_other_case case word.now }
{
    match case {
        HexCase::Lower => has_upper_case(word),
        HexCase::Either => false,
    }
}

fn has_upper_case(word: &[u8]) -> bool
    ensures { result ≡ list_any is_ascii_uppercase word.now }
{
    word.iter().any(|octet| octet.is_ascii_uppercase())
}
