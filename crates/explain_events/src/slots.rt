//! Two configurations, compared slot by slot. A slot is the place of an identifier in a configuration, from 1.

ghost use Rattle.std.specs.Prelude.{◌≡◌, ◌<◌, ◌+◌, ◌^◌, ◌∷◌, length, IfSome, MatchOption, Some, true, false};
ghost use Rattle.std.specs.Fmt.{WritesOnOk};
ghost use Rattle.explain_events.specs.PrivateWords.{each_behind};
ghost use Rattle.explain_events.specs.Slots.{compared_words, is_whole, other_slot, single_slot, single_slots, slot_differences, slots_in};

use crate::words::same_octets;
use explain_octets::{Hex, first_identifier};
use std::fmt;

/// Returns whether the octets of a configuration don't end within an identifier (IEC 61158-6-3, configuration
/// identifiers).
pub(crate) fn is_whole(octets: &[u8]) -> bool
    ensures { result ≡ is_whole octets.now }
{
    if octets.is_empty() {
        return true;
    }
    match first_slot(octets) {
        Some((_, others)) => is_whole(others),
        None => false,
    }
}

/// Writes the differences of a configuration in a request from that of the slave, separated by semicolons. Neither ends
/// within an identifier.
pub(crate) fn write_compared<W: fmt::Write>(
    f: &mut fmt::Formatter<W>,
    sent: &[u8],
    own: &[u8],
) -> fmt::Result
    requires sent_whole { is_whole sent.now ≡ true }
    requires own_whole { is_whole own.now ≡ true }
    ensures { WritesOnOk W.Write.write_str_gives f.old result (compared_words sent.now own.now) f.new }
{
    write_differences(f, "", 1, sent, own)
}

/// Writes the differences from the slot with this number on, the first one after this separator.
fn write_differences<W: fmt::Write>(
    f: &mut fmt::Formatter<W>,
    separator: &str,
    number: u64,
    sent: &[u8],
    own: &[u8],
) -> fmt::Result
    requires sent_whole { is_whole sent.now ≡ true }
    requires own_whole { is_whole own.now ≡ true }
    requires room { number + length sent.now + length own.now < 2 ^ 64 }
    ensures { WritesOnOk W.Write.write_str_gives f.old result (each_behind separator.now (slot_differences number (slots_in sent.now) (slots_in own.now))) f.new }
{
    if sent.is_empty() {
        return write_single(f, separator, "is missing", number, own);
    }
    if own.is_empty() {
        return write_single(f, separator, "is not in the slave", number, sent);
    }
    let Some((sent_slot, sent)) = first_slot(sent) else {
        return Ok(());
    };
    let Some((own_slot, own)) = first_slot(own) else {
        return Ok(());
    };
    if same_octets(sent_slot, own_slot) {
        return write_differences(f, separator, number + 1, sent, own);
    }
    let other = OtherSlot {
        number,
        sent: sent_slot,
        own: own_slot,
    };
    write!(f, "{separator}{other}")?;
    write_differences(f, "; ", number + 1, sent, own)
}

/// Writes slots that only one of two configurations has, from this number on, the first one after this separator.
fn write_single<W: fmt::Write>(
    f: &mut fmt::Formatter<W>,
    separator: &str,
    words: &str,
    number: u64,
    octets: &[u8],
) -> fmt::Result
    requires whole { is_whole octets.now ≡ true }
    requires room { number + length octets.now < 2 ^ 64 }
    ensures { WritesOnOk W.Write.write_str_gives f.old result (each_behind separator.now (single_slots words.now number (slots_in octets.now))) f.new }
{
    if octets.is_empty() {
        return Ok(());
    }
    let Some((slot, others)) = first_slot(octets) else {
        return Ok(());
    };
    let single = SingleSlot {
        number,
        slot,
        words,
    };
    write!(f, "{separator}{single}")?;
    write_single(f, "; ", words, number + 1, others)
}

/// A slot that both configurations have, with different identifiers.
#[derive(Clone, Copy)]
struct OtherSlot<'a> {
    number: u64,
    /// The octets of the identifier in the request.
    sent: &'a [u8],
    /// Those of the slave.
    own: &'a [u8],
}

impl<'a> fmt::Display for OtherSlot<'a> {
    ghost output = { λ s. Some (other_slot s.number s.sent.now s.own.now) };

    fn fmt<W: fmt::Write>(&self, f: &mut fmt::Formatter<W>) -> fmt::Result {
        let number = self.number;
        let sent = Hex(self.sent);
        let own = Hex(self.own);
        write!(f, "slot {number} is {sent}, the slave has {own}")
    }
}

/// A slot that only one of two configurations has.
#[derive(Clone, Copy)]
struct SingleSlot<'a> {
    number: u64,
    slot: &'a [u8],
    /// The words at the end, which say that the other configuration doesn't have it.
    words: &'a str,
}

impl<'a> fmt::Display for SingleSlot<'a> {
    ghost output = { λ s. Some (single_slot s.words.now s.number s.slot.now) };

    fn fmt<W: fmt::Write>(&self, f: &mut fmt::Formatter<W>) -> fmt::Result {
        let number = self.number;
        let slot = Hex(self.slot);
        let words = self.words;
        write!(f, "slot {number}, {slot}, {words}")
    }
}

/// Splits off the first slot: returns the octets of its identifier and those after it; None if it is cut.
fn first_slot(octets: &[u8]) -> Option<(&[u8], &[u8])>
    requires { 0 < length octets.now }
    ensures whole { MatchOption result (is_whole octets.now ≡ false) (λ p. is_whole p.1.now ≡ is_whole octets.now) }
    ensures slots { IfSome result (λ p. is_whole octets.now ≡ true → slots_in octets.now ≡ p.0.now ∷ slots_in p.1.now) }
    ensures behind { IfSome result (λ p. length p.1.now < length octets.now) }
{
    match first_identifier(octets) {
        Some((slot, others)) => Some((slot, others)),
        None => None,
    }
}
