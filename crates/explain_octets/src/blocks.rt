//! The blocks of an extended diagnosis, in words.

ghost use Rattle.std.specs.Prelude.{◌≡◌, ◌+◌, ◌*◌, ◌<◌, ◌≤◌, true, [], ◌∷◌, Some, length, is_some, option_map, IfSome, MatchOption};
ghost use Rattle.std.specs.Fmt.{WritesOnOk};
ghost use Rattle.dp_cfg.specs.Identifiers.{bits_5_0, bits_7_6};
ghost use Rattle.explain_octets.specs.Blocks.{bits_4_0, bits_7_5, block, block_size as size_of_block, block_text, blocks_of, blocks_text, channel_data, channel_errors, channel_text, channel_types, device_text, directions, error_text, first_block as first_of, identifiers_text, identifiers_word, is_set_in as is_set_by, set_bits};
ghost use Rattle.explain_octets.specs.PrivateWords.{block_texts, each_behind, numbers_behind, set_from};
ghost use Rattle.explain_octets.specs.Words.{text_in};

use crate::words::{Hex, is_set};
use std::fmt;

/// The blocks that octets are, in words, after a space and in parentheses (IEC 61158-6-3, Ext_Diag_Data). Writes nothing
/// if the octets don't have the form of blocks.
#[derive(Drop)]
pub(crate) struct Blocks<'a>(pub(crate) &'a [u8]);

impl<'a> fmt::Display for Blocks<'a> {
    ghost output = { λ octets. Some (blocks_text (blocks_of octets.0.now)) };

    fn fmt<W: fmt::Write>(&self, f: &mut fmt::Formatter<W>) -> fmt::Result {
        if !are_blocks(self.0) {
            return Ok(());
        }
        f.write_str(" (")?;
        write_blocks(f, self.0, "")?;
        f.write_str(")")
    }
}

/// A block: its first octet, and the octets after that.
#[derive(Clone, Copy)]
struct Block<'a> {
    head: u8,
    octets: &'a [u8],
}

/// Splits off the first block: returns it and the octets after it. None if its size is 0, if it is cut off, or if there
/// are no octets.
fn first_block(octets: &[u8]) -> Option<(Block<'_>, &[u8])>
    ensures found { option_map (λ p. (block p.0.head p.0.octets.now, p.1.now)) result ≡ first_of octets.now }
    ensures whole { IfSome result (λ p. length p.0.octets.now + 1 ≡ size_of_block p.0.head) }
    ensures behind { IfSome result (λ p. length p.1.now < length octets.now) }
{
    let (&head, rest) = octets.split_first()?;
    let size = block_size(head);
    if size == 0 || rest.len() < size - 1 {
        return None;
    }
    let (own, behind) = rest.split_at(size - 1);
    Some((Block { head, octets: own }, behind))
}

/// Returns the size of a block with this head, 0 to 63 octets with the head (IEC 61158-6-3, Header_Octet).
fn block_size(head: u8) -> usize
    ensures { result ≡ size_of_block head }
{
    match head >> 6 {
        0 => usize::from(bits_5_0(head)),
        1 => usize::from(bits_5_0(head)),
        2 => 3,
        _ => 1,
    }
}

/// Returns whether octets are blocks, one after another.
fn are_blocks(octets: &[u8]) -> bool
    ensures { result ≡ is_some (blocks_of octets.now) }
{
    let mut rest = octets;
    while let Some((_, behind)) = first_block(rest) {
        rest = behind;
    }
    rest.is_empty()
}

/// Writes the blocks that the octets are, the first one after this separator.
fn write_blocks<W: fmt::Write>(
    f: &mut fmt::Formatter<W>,
    octets: &[u8],
    separator: &str,
) -> fmt::Result
    requires { is_some (blocks_of octets.now) ≡ true }
    ensures { WritesOnOk W.Write.write_str_gives f.old result (each_behind separator.now (block_texts octets.now)) f.new }
{
    let Some((block, behind)) = first_block(octets) else {
        return Ok(());
    };
    f.write_str(separator)?;
    write_block(f, block)?;
    write_blocks(f, behind, "; ")
}

/// Writes a block.
#[tactic(auto, unfolding(crate::specs::Blocks::block_text))]
fn write_block<W: fmt::Write>(f: &mut fmt::Formatter<W>, one: Block<'_>) -> fmt::Result
    requires { length one.octets.now + 1 ≡ size_of_block one.head }
    ensures { WritesOnOk W.Write.write_str_gives f.old result (block_text (block one.entry.head one.entry.octets.now)) f.new }
{
    match one.head >> 6 {
        0 => {
            let device = Device(one.octets);
            write!(f, "{device}")
        }
        1 => write_identifiers(f, one.octets),
        2 => {
            let channel = Channel {
                head: one.head,
                second: one.octets[0],
                third: one.octets[1],
            };
            write!(f, "{channel}")
        }
        _ => {
            let number = bits_5_0(one.head);
            write!(f, "revision {number}")
        }
    }
}

/// The octets of a device block after its head (IEC 61158-6-3, device related diagnosis).
#[derive(Drop)]
struct Device<'a>(&'a [u8]);

impl<'a> fmt::Display for Device<'a> {
    ghost output = { λ octets. Some (device_text octets.0.now) };

    fn fmt<W: fmt::Write>(&self, f: &mut fmt::Formatter<W>) -> fmt::Result {
        match self.0 {
            [] => f.write_str("device"),
            octets => {
                let octets = Hex(octets);
                write!(f, "device {octets}")
            }
        }
    }
}

/// Writes the octets of an identifier block after its head: the numbers of the bits that are 1 (IEC 61158-6-3,
/// identifier related diagnosis).
fn write_identifiers<W: fmt::Write>(f: &mut fmt::Formatter<W>, octets: &[u8]) -> fmt::Result
    requires { length octets.now ≤ 62 }
    ensures { WritesOnOk W.Write.write_str_gives f.old result (identifiers_text (set_bits octets.now)) f.new }
{
    let word = identifiers_word(octets);
    f.write_str(word)?;
    write_numbers(f, octets, 0, "")
}

/// Returns the word before the numbers of the bits that are 1.
fn identifiers_word(octets: &[u8]) -> &'static str
    requires { length octets.now ≤ 62 }
    ensures { result.now ≡ identifiers_word (set_bits octets.now) }
{
    let Some(number) = next_set(octets, 0) else {
        return "no identifier";
    };
    match next_set(octets, number + 1) {
        None => "identifier ",
        Some(_) => "identifiers ",
    }
}

/// Writes the numbers of the bits that are 1, from this number on, the first one after this separator.
fn write_numbers<W: fmt::Write>(
    f: &mut fmt::Formatter<W>,
    octets: &[u8],
    from: usize,
    separator: &str,
) -> fmt::Result
    requires { length octets.now ≤ 62 }
    ensures { WritesOnOk W.Write.write_str_gives f.old result (numbers_behind separator.now (set_from octets.now from)) f.new }
{
    let Some(number) = next_set(octets, from) else {
        return Ok(());
    };
    write!(f, "{separator}{number}")?;
    write_numbers(f, octets, number + 1, ", ")
}

/// Returns the number of the first bit that is 1, from this number on; None if there is none.
fn next_set(octets: &[u8], from: usize) -> Option<usize>
    requires { length octets.now ≤ 62 }
    ensures found { MatchOption result (set_from octets.now from ≡ [])
        (λ number. set_from octets.now from ≡ number ∷ set_from octets.now (number + 1)) }
    ensures within { IfSome result (λ number. (from ≤ number) × (number < length octets.now * 8)) }
{
    for number in from..octets.len() * 8 {
        if is_set_in(octets, number) {
            return Some(number);
        }
    }
    None
}

/// Returns whether the bit of this number is 1; the second octet begins with the number 8.
fn is_set_in(octets: &[u8], number: usize) -> bool
    requires { number < length octets.now * 8 }
    ensures { result ≡ is_set_by octets.now number }
{
    is_set((number % 8) as u32, octets[number / 8])
}

/// The three octets of a channel block, in words (IEC 61158-6-3, channel related diagnosis).
#[derive(Clone, Copy)]
struct Channel {
    head: u8,
    second: u8,
    third: u8,
}

impl fmt::Display for Channel {
    ghost output = { λ channel. Some (channel_text channel.head channel.second channel.third) };

    #[tactic(auto, unfolding(crate::specs::Blocks::channel_text))]
    fn fmt<W: fmt::Write>(&self, f: &mut fmt::Formatter<W>) -> fmt::Result {
        let number = bits_5_0(self.second);
        let identifier = bits_5_0(self.head);
        let data = ChannelData {
            direction: direction(self.second),
            size: channel_type(self.third),
        };
        let error = ChannelError(self.third);
        write!(
            f,
            "channel {number} of identifier {identifier}{data}: {error}"
        )
    }
}

/// Returns bits 5 to 0 of an octet.
fn bits_5_0(octet: u8) -> u8
    ensures { result ≡ bits_5_0 octet }
{
    octet & 0x3F
}

/// The direction and the type of a channel, in parentheses; writes nothing if there is neither.
#[derive(Clone, Copy)]
struct ChannelData {
    direction: Option<&'static str>,
    size: Option<&'static str>,
}

impl fmt::Display for ChannelData {
    ghost output = { λ form. Some (channel_data (option_map (λ name. name.now) form.direction) (option_map (λ name. name.now) form.size)) };

    fn fmt<W: fmt::Write>(&self, f: &mut fmt::Formatter<W>) -> fmt::Result {
        match (self.direction, self.size) {
            (None, None) => Ok(()),
            (None, Some(size)) => write!(f, " ({size})"),
            (Some(direction), None) => write!(f, " ({direction})"),
            (Some(direction), Some(size)) => write!(f, " ({direction}, {size})"),
        }
    }
}

/// Returns the direction of a channel by bits 7 and 6 of its second octet; None if the standard has none.
fn direction(second: u8) -> Option<&'static str>
    ensures { option_map (λ name. name.now) result ≡ text_in directions (bits_7_6 second) }
{
    match second >> 6 {
        1 => Some("input"),
        2 => Some("output"),
        3 => Some("input and output"),
        _ => None,
    }
}

/// Returns the type of a channel by bits 7 to 5 of its third octet; None if the standard has none.
fn channel_type(third: u8) -> Option<&'static str>
    ensures { option_map (λ name. name.now) result ≡ text_in channel_types (bits_7_5 third) }
{
    match third >> 5 {
        1 => Some("1 bit"),
        2 => Some("2 bits"),
        3 => Some("4 bits"),
        4 => Some("1 octet"),
        5 => Some("1 word"),
        6 => Some("2 words"),
        _ => None,
    }
}

/// The error of a channel, by bits 4 to 0 of its third octet.
#[derive(Clone, Copy)]
struct ChannelError(u8);

impl fmt::Display for ChannelError {
    ghost output = { λ third. Some (error_text (bits_4_0 third.0)) };

    fn fmt<W: fmt::Write>(&self, f: &mut fmt::Formatter<W>) -> fmt::Result {
        let number = self.0 & 0x1F;
        match error_name(number) {
            Some(name) => f.write_str(name),
            None => write!(f, "error {number}"),
        }
    }
}

/// Returns the standard's name of the error with this number; None if it has none.
fn error_name(number: u8) -> Option<&'static str>
    ensures { option_map (λ name. name.now) result ≡ text_in channel_errors number }
{
    match number {
        1 => Some("short circuit"),
        2 => Some("undervoltage"),
        3 => Some("overvoltage"),
        4 => Some("overload"),
        5 => Some("overtemperature"),
        6 => Some("line break"),
        7 => Some("upper limit exceeded"),
        8 => Some("lower limit exceeded"),
        9 => Some("error"),
        _ => None,
    }
}
