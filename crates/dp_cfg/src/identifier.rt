//! The identifier at the head of configuration octets.

ghost use Rattle.std.specs.Prelude.{◌≡◌, ◌<◌, ◌≤◌, length, IfSome};
ghost use Rattle.std.specs.Option.{option_map};
ghost use Rattle.dp_cfg.specs.Identifiers.{unit_octets as unit_of, general_octets as general_of, announced_octets as announced_by, maker_count as maker_of};
ghost use Rattle.dp_cfg.specs.PrivateWords.{lengths_and_rest};
ghost use Rattle.dp_cfg.specs.Reading.{special_at, first_identifier as first_of};

/// Inputs and outputs in octets.
#[derive(Clone, Copy)]
pub(crate) struct Lengths {
    pub(crate) inputs: u8,
    pub(crate) outputs: u8,
}

impl Lengths {
    pub(crate) const fn new(inputs: u8, outputs: u8) -> Self
        ensures { result ≡ record { inputs = inputs; outputs = outputs } }
    {
        Lengths { inputs, outputs }
    }
}

/// Returns the lengths of the first identifier, and the octets after it; `None` if it is cut (IEC
/// 61158-6-3, configuration identifiers).
pub(crate) fn first_identifier(octets: &[u8]) -> Option<(Lengths, &[u8])>
    ensures value { option_map (λ p. (p.0.inputs, p.0.outputs, p.1.now)) result
        ≡ option_map lengths_and_rest (first_of octets.now) }
    ensures behind { IfSome result (λ p. length p.1.now < length octets.now) }
    ensures most { IfSome result (λ p. (p.0.inputs ≤ 128) × (p.0.outputs ≤ 128)) }
{
    let (&head, rest) = octets.split_first()?;
    let length = general_octets(head);
    let lengths = match head >> 4 & 0b11 {
        1 => Lengths::new(length, 0),
        2 => Lengths::new(0, length),
        3 => Lengths::new(length, length),
        _ => return special(head, rest),
    };
    Some((lengths, rest))
}

/// Returns the lengths of an identifier of the special format, and the octets after it; `None` if
/// it is cut. `rest` is what follows its head.
fn special(head: u8, rest: &[u8]) -> Option<(Lengths, &[u8])>
    ensures value { option_map (λ p. (p.0.inputs, p.0.outputs, p.1.now)) result
        ≡ option_map lengths_and_rest (special_at head rest.now) }
    ensures most { IfSome result (λ p. (p.0.inputs ≤ 128) × (p.0.outputs ≤ 128)) }
{
    let (inputs, outputs, rest) = match (head >> 6, rest) {
        (0, rest) => (0, 0, rest),
        (1, [inputs, rest @ ..]) => (announced_octets(*inputs), 0, rest),
        (2, [outputs, rest @ ..]) => (0, announced_octets(*outputs), rest),
        (3, [outputs, inputs, rest @ ..]) => {
            (announced_octets(*inputs), announced_octets(*outputs), rest)
        }
        _ => return None,
    };
    let rest = rest.get(maker_count(head)..)?;
    Some((Lengths::new(inputs, outputs), rest))
}

/// Returns the octets that the head of a general identifier announces. Bits 3 to 0 are the length
/// less one, in units.
fn general_octets(head: u8) -> u8
    ensures value { result ≡ general_of head }
    ensures most { result ≤ 32 }
{
    ((head & 0x0F) + 1) * unit_octets(head)
}

/// Returns the octets that a length octet announces. Bits 5 to 0 are the length less one, in units.
fn announced_octets(octet: u8) -> u8
    ensures value { result ≡ announced_by octet }
    ensures most { result ≤ 128 }
{
    ((octet & 0x3F) + 1) * unit_octets(octet)
}

/// Returns the octets of a unit: bit 6 makes it a word of two octets.
fn unit_octets(octet: u8) -> u8
    ensures { result ≡ unit_of octet }
{
    if octet >> 6 & 1 == 1 { 2 } else { 1 }
}

/// Returns the number of the maker's octets of a special identifier. 15 means none.
fn maker_count(head: u8) -> usize
    ensures { result ≡ maker_of head }
{
    match head & 0x0F {
        15 => 0,
        count => usize::from(count),
    }
}
