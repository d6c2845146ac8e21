//! Configurations in words.

ghost use Rattle.std.specs.Prelude.{◌≡◌, ◌<◌, [], ◌∷◌, Some, None, length, IfNone, IfSome, option_map};
ghost use Rattle.std.specs.Fmt.{WritesOnOk};
ghost use Rattle.dp_cfg.specs.Identifiers.{maker_count as maker_of};
ghost use Rattle.dp_cfg.specs.Reading.{special_at, first_identifier as first_of};
ghost use Rattle.explain_octets.specs.Configurations.{amount_text, announced_amount, configuration_text, cut_text, general_amount, general_label, identifier_text, identifiers_of, maker_text, meaning_text, octets_and_rest, slots_of, special_text, unit_text, with_both, with_one};
ghost use Rattle.explain_octets.specs.PrivateWords.{each_behind, rest_behind};

use crate::words::Hex;
use std::fmt;

/// The octets of a configuration, in words.
#[derive(Drop)]
pub(crate) struct Configuration<'a>(pub(crate) &'a [u8]);

impl<'a> fmt::Display for Configuration<'a> {
    ghost output = { λ octets. Some (configuration_text octets.0.now) };

    #[tactic(auto, using(crate::proofs::Splitting::behind_is_joined))]
    fn fmt<W: fmt::Write>(&self, f: &mut fmt::Formatter<W>) -> fmt::Result {
        write_identifiers(f, self.0, "")
    }
}

/// Writes the identifiers that the octets hold, the first one after this separator.
fn write_identifiers<W: fmt::Write>(
    f: &mut fmt::Formatter<W>,
    octets: &[u8],
    separator: &str,
) -> fmt::Result
    ensures { WritesOnOk W.Write.write_str_gives f.old result (each_behind separator.now (identifiers_of octets.now)) f.new }
{
    if octets.is_empty() {
        return Ok(());
    }
    let Some((first, others)) = first_identifier(octets) else {
        let cut = Hex(octets);
        return write!(f, "{separator}{cut} ends within an identifier");
    };
    let first = OneIdentifier(first);
    write!(f, "{separator}{first}")?;
    write_identifiers(f, others, "; ")
}

/// Splits off the first identifier: returns its octets and those after it (IEC 61158-6-3, configuration identifiers). None
/// if the octets end within it, or if there are none.
pub fn first_identifier(octets: &[u8]) -> Option<(&[u8], &[u8])>
    ensures value { option_map (λ p. (p.0.now, p.1.now)) result ≡ option_map octets_and_rest (first_of octets.now) }
    ensures behind { IfSome result (λ p. length p.1.now < length octets.now) }
    ensures slots { IfSome result (λ p. slots_of octets.now ≡ option_map (λ others. p.0.now ∷ others) (slots_of p.1.now)) }
    ensures cut { IfNone result (0 < length octets.now → slots_of octets.now ≡ None) }
{
    let behind = behind_first(octets)?;
    let size = octets.len() - behind.len();
    Some((&octets[..size], behind))
}

/// Returns the octets after the first identifier; None if it is cut.
fn behind_first(octets: &[u8]) -> Option<&[u8]>
    ensures { option_map (λ rest. rest.now) result ≡ option_map (λ first. first.1) (first_of octets.now) }
{
    let (&head, rest) = octets.split_first()?;
    match head >> 4 & 0b11 {
        0 => behind_special(head, rest),
        _ => Some(rest),
    }
}

/// Returns the octets after an identifier of the special format; `rest` is what follows its head. None if it is cut.
fn behind_special(head: u8, rest: &[u8]) -> Option<&[u8]>
    ensures { option_map (λ rest. rest.now) result ≡ option_map (λ first. first.1) (special_at head rest.now) }
{
    match (head >> 6, rest) {
        (0, behind) => behind_maker(head, behind),
        (1, [_, behind @ ..]) => behind_maker(head, behind),
        (2, [_, behind @ ..]) => behind_maker(head, behind),
        (3, [_, _, behind @ ..]) => behind_maker(head, behind),
        _ => None,
    }
}

/// Returns the octets after the manufacturer's octets; None if there are too few.
fn behind_maker(head: u8, octets: &[u8]) -> Option<&[u8]>
    ensures { option_map (λ rest. rest.now) result ≡ rest_behind (maker_of head) octets.now }
{
    octets.get(maker_count(head)..)
}

/// Returns how many manufacturer's octets a special identifier has; 15 in the low half of its head stands for none.
fn maker_count(head: u8) -> usize
    ensures { result ≡ maker_of head }
{
    match head & 0x0F {
        15 => 0,
        count => usize::from(count),
    }
}

/// One identifier: its octets and their meaning.
#[derive(Drop)]
struct OneIdentifier<'a>(&'a [u8]);

impl<'a> fmt::Display for OneIdentifier<'a> {
    ghost output = { λ octets. Some (identifier_text octets.0.now) };

    fn fmt<W: fmt::Write>(&self, f: &mut fmt::Formatter<W>) -> fmt::Result {
        let octets = Hex(self.0);
        let meaning = Meaning(self.0);
        write!(f, "{octets} {meaning}")
    }
}

/// The meaning of the octets of one identifier.
#[derive(Drop)]
struct Meaning<'a>(&'a [u8]);

impl<'a> fmt::Display for Meaning<'a> {
    ghost output = { λ octets. Some (meaning_text octets.0.now) };

    #[tactic(auto, unfolding(crate::specs::Configurations::meaning_text))]
    fn fmt<W: fmt::Write>(&self, f: &mut fmt::Formatter<W>) -> fmt::Result {
        let [head, rest @ ..] = self.0 else {
            return Ok(());
        };
        let Some(label) = label(*head) else {
            let special = Special { head: *head, rest };
            return write!(f, "{special}");
        };
        let amount = Amount::general(*head);
        write!(f, "{label}{amount}")
    }
}

/// Returns the name of an identifier of the general format; None if its head is of the special format.
fn label(head: u8) -> Option<&'static str>
    ensures { option_map (λ label. label.now) result ≡ general_label head }
{
    match head >> 4 & 0b11 {
        1 => Some("inputs "),
        2 => Some("outputs "),
        3 => Some("inputs and outputs "),
        _ => None,
    }
}

/// The meaning of an identifier of the special format.
#[derive(Drop)]
struct Special<'a> {
    head: u8,
    rest: &'a [u8],
}

impl<'a> fmt::Display for Special<'a> {
    ghost output = { λ special. Some (special_text special.head special.rest.now) };

    #[tactic(auto, unfolding(crate::specs::Configurations::special_text))]
    fn fmt<W: fmt::Write>(&self, f: &mut fmt::Formatter<W>) -> fmt::Result {
        match self.head >> 6 {
            0 => {
                let maker = Maker(self.rest);
                write!(f, "empty slot{maker}")
            }
            1 => write_one(f, "inputs ", self.rest),
            2 => write_one(f, "outputs ", self.rest),
            _ => write_both(f, self.rest),
        }
    }
}

/// Writes the meaning of one length octet, and the manufacturer's octets.
fn write_one<W: fmt::Write>(f: &mut fmt::Formatter<W>, label: &str, rest: &[u8]) -> fmt::Result
    ensures { WritesOnOk W.Write.write_str_gives f.old result (with_one label.now rest.now) f.new }
{
    let [octet, maker @ ..] = rest else {
        return Ok(());
    };
    let amount = Amount::announced(*octet);
    let maker = Maker(maker);
    write!(f, "{label}{amount}{maker}")
}

/// Writes the meaning of two length octets, and the manufacturer's octets.
fn write_both<W: fmt::Write>(f: &mut fmt::Formatter<W>, rest: &[u8]) -> fmt::Result
    ensures { WritesOnOk W.Write.write_str_gives f.old result (with_both rest.now) f.new }
{
    let [outputs, inputs, maker @ ..] = rest else {
        return Ok(());
    };
    let outputs = Amount::announced(*outputs);
    let inputs = Amount::announced(*inputs);
    let maker = Maker(maker);
    write!(f, "outputs {outputs}, inputs {inputs}{maker}")
}

/// A number of octets, or of words of two octets each.
#[derive(Clone, Copy)]
struct Amount {
    words: u8,
    count: u8,
}

impl Amount {
    /// Reads the amount from a head of the general format: bits 3 to 0 are the length less one.
    fn general(head: u8) -> Amount
        ensures { amount_text result.words result.count ≡ general_amount head }
    {
        Amount {
            words: head >> 6 & 1,
            count: (head & 0x0F) + 1,
        }
    }

    /// Reads the amount from a length octet: bits 5 to 0 are the length less one.
    fn announced(octet: u8) -> Amount
        ensures { amount_text result.words result.count ≡ announced_amount octet }
    {
        Amount {
            words: octet >> 6 & 1,
            count: (octet & 0x3F) + 1,
        }
    }

    /// Returns the unit, singular or plural.
    fn unit(self) -> &'static str
        ensures { result.now ≡ unit_text self.words self.count }
    {
        match (self.words, self.count) {
            (1, 1) => " word",
            (1, _) => " words",
            (_, 1) => " octet",
            _ => " octets",
        }
    }
}

impl fmt::Display for Amount {
    ghost output = { λ amount. Some (amount_text amount.words amount.count) };

    #[tactic(auto, unfolding(crate::specs::Configurations::amount_text))]
    fn fmt<W: fmt::Write>(&self, f: &mut fmt::Formatter<W>) -> fmt::Result {
        let count = self.count;
        let unit = self.unit();
        write!(f, "{count}{unit}")
    }
}

/// The manufacturer's octets; writes nothing if there are none.
#[derive(Drop)]
struct Maker<'a>(&'a [u8]);

impl<'a> fmt::Display for Maker<'a> {
    ghost output = { λ octets. Some (maker_text octets.0.now) };

    fn fmt<W: fmt::Write>(&self, f: &mut fmt::Formatter<W>) -> fmt::Result {
        match self.0 {
            [] => Ok(()),
            octets => {
                let octets = Hex(octets);
                write!(f, ", vendor {octets}")
            }
        }
    }
}
