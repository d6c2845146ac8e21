//! Parts of a block: numbers, options, and padding.

ghost use Rattle.std.specs.Prelude.{◌≡◌, ◌++◌, ◌<◌, ◌≤◌, length, OnOk};
ghost use Rattle.capture_texts.specs.Blocks.{end_of_options, four, framed, option_octets, padded, padding, two};

use std::alloc::AllocError;

/// Zeros that fill up to a multiple of 4 octets.
const ZEROS: [u8; 3] = [0; 3];

/// Appends a number of 16 bits. `AllocError` if memory runs out.
#[tactic(auto, unfolding(crate::specs::Blocks::two))]
pub(crate) fn push_two(body: &mut Vec<u8>, number: u16) -> Result<(), AllocError>
    ensures { OnOk result (body.new.items ≡ body.old.items ++ two number) }
{
    body.extend_from_slice(&number.to_le_bytes())
}

/// Appends a number of 32 bits. `AllocError` if memory runs out.
#[tactic(auto, unfolding(crate::specs::Blocks::four))]
pub(crate) fn push_four(body: &mut Vec<u8>, number: u32) -> Result<(), AllocError>
    ensures { OnOk result (body.new.items ≡ body.old.items ++ four number) }
{
    body.extend_from_slice(&number.to_le_bytes())
}

/// Appends octets, and zeros up to a multiple of 4 octets. `AllocError` if memory runs out.
#[tactic(auto, unfolding(crate::specs::Blocks::padded))]
pub(crate) fn push_padded(body: &mut Vec<u8>, octets: &[u8]) -> Result<(), AllocError>
    ensures { OnOk result (body.new.items ≡ body.old.items ++ padded octets.now) }
{
    body.extend_from_slice(octets)?;
    body.extend_from_slice(padding(octets.len()))
}

/// Returns the zeros that follow this number of octets, up to a multiple of 4.
#[tactic(auto, using(crate::proofs::Sizes::zeros_are), unfolding(crate::specs::Blocks::padding))]
pub(crate) fn padding(count: usize) -> &'static [u8]
    ensures { result.now ≡ padding count }
{
    &ZEROS[..(4 - count % 4) % 4]
}

/// Appends an option. `AllocError` if memory runs out.
#[tactic(auto, unfolding(crate::specs::Blocks::option_octets))]
pub(crate) fn push_option(body: &mut Vec<u8>, code: u16, value: &[u8]) -> Result<(), AllocError>
    requires { length value.now ≤ 65535 }
    ensures { OnOk result (body.new.items ≡ body.old.items ++ option_octets code value.now) }
{
    push_two(body, code)?;
    push_two(body, value.len() as u16)?;
    push_padded(body, value)
}

/// Appends the end of the options. `AllocError` if memory runs out.
#[tactic(auto, unfolding(crate::specs::Blocks::end_of_options, crate::specs::Blocks::two))]
pub(crate) fn end_options(body: &mut Vec<u8>) -> Result<(), AllocError>
    ensures text { OnOk result (body.new.items ≡ body.old.items ++ end_of_options) }
{
    body.extend_from_slice(&[0; 4])
}

/// Appends a block of this type with this body. `AllocError` if memory runs out.
#[tactic(auto, unfolding(crate::specs::Blocks::framed))]
pub(crate) fn push_framed(octets: &mut Vec<u8>, kind: u32, body: &[u8]) -> Result<(), AllocError>
    requires { length body.now < 262144 }
    ensures { OnOk result (octets.new.items ≡ octets.old.items ++ framed kind body.now) }
{
    let size = body.len() as u32 + 12;
    push_four(octets, kind)?;
    push_four(octets, size)?;
    octets.extend_from_slice(body)?;
    push_four(octets, size)
}
