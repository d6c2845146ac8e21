//! Octets of user parameters, and their defaults.

ghost use Rattle.std.specs.Prelude.{◌≡◌, ◌≤◌, ◌<◌, ◌+◌, ◌++◌, IfOk, length, take, drop, get_or};
ghost use Rattle.gsd_files.specs.Steps.{seen};
ghost use Rattle.gsd_files.specs.UserParameters.{padded, overlaid_within, bit_of, chosen_bit, with_bits, value_octets, default_with, defaulted};
ghost use Rattle.std.specs.Option.{option_map};

use crate::cause::Cause;
use crate::values::Span;
use arrayvec::ArrayVec;

/// The most octets of user parameters.
pub const MOST_PARAMETERS: usize = 237;

/// Octets of user parameters.
pub type UserParameters = ArrayVec<u8, MOST_PARAMETERS>;

/// The form of a user parameter.
#[derive(Clone, Copy)]
pub(crate) enum Form {
    /// One octet: `Unsigned8` or `Signed8`.
    One,
    /// Two octets: `Unsigned16` or `Signed16`.
    Two,
    /// Four octets: `Unsigned32` or `Signed32`.
    Four,
    /// These bits of an octet, 0 to 7: `Bit` or `BitArea`.
    Bits(Span),
}

/// The default of a user parameter.
#[derive(Clone, Copy)]
pub(crate) struct UserDefault {
    /// The reference of the user parameter.
    pub(crate) reference: u32,
    /// Its form.
    pub(crate) form: Form,
    /// The value, as its two's complement of 32 bits.
    pub(crate) value: u32,
}

/// Appends octets.
fn append(user: &mut UserParameters, octets: &[u8])
    requires { length user.old.items + length octets.now ≤ 237 }
    ensures { user.new.items ≡ user.old.items ++ octets.now }
{
    let _ = user.try_extend_from_slice(octets);
}

/// Appends zeros up to this number of octets.
fn pad(user: UserParameters, count: usize) -> UserParameters
    requires { count ≤ 237 }
    ensures { result.items ≡ padded count user.items }
{
    if user.len() >= count {
        return user;
    }
    let mut more = user;
    more.push(0);
    pad(more, count)
}

/// Returns the first octets, or all if there are fewer.
fn first_octets(octets: &[u8], count: usize) -> &[u8]
    ensures { result.now ≡ take count octets.now }
{
    if count >= octets.len() {
        return octets;
    }
    let (first, _others) = octets.split_at(count);
    first
}

/// Returns the octets behind the first ones.
fn other_octets(octets: &[u8], count: usize) -> &[u8]
    ensures { result.now ≡ drop count octets.now }
{
    if count >= octets.len() {
        return &[];
    }
    let (_first, others) = octets.split_at(count);
    others
}

/// Returns user parameters with zeros behind them, up to this number of octets.
pub(crate) fn padded(user: &[u8], count: usize) -> UserParameters
    requires count { count ≤ 237 }
    requires user { length user.now ≤ 237 }
    ensures { result.items ≡ padded count user.now }
{
    let mut all = ArrayVec::new();
    append(&mut all, user);
    pad(all, count)
}

/// Returns user parameters with these octets from a place that is counted from 0. `ManyParameters` for more than 237 octets.
pub(crate) fn overlaid(user: &[u8], place: usize, octets: &[u8]) -> Result<UserParameters, Cause>
    requires user { length user.now ≤ 237 }
    requires octets { length octets.now ≤ 244 }
    requires place { place < 4294967296 }
    ensures octets { seen (λ all. all.items) result ≡ overlaid_within place octets.now user.now }
    ensures room { IfOk result (λ all. place + length octets.now ≤ 237) }
{
    let end = place + octets.len();
    if end > MOST_PARAMETERS {
        return Err(Cause::ManyParameters);
    }
    let mut all = padded(first_octets(user, place), place);
    append(&mut all, octets);
    append(&mut all, other_octets(user, end));
    Ok(all)
}

/// Returns a bit of a number.
fn bit_of(bit: u32, number: u32) -> u8
    requires { bit < 32 }
    ensures bit { result ≡ bit_of bit number }
    ensures most { result ≤ 1 }
{
    ((number >> bit) % 2) as u8
}

/// Returns a bit of an octet: that of the value, if it is one of these bits.
fn chosen_bit(bits: Span, value: u32, old: u8, bit: u32) -> u8
    requires { bit < 8 }
    ensures bit { result ≡ chosen_bit bits value old bit }
    ensures most { result ≤ 1 }
{
    if bits.first <= bit && bit <= bits.last {
        bit_of(bit - bits.first, value)
    } else {
        bit_of(bit, u32::from(old))
    }
}

/// Returns an octet with a value in these bits.
fn with_bits(bits: Span, value: u32, old: u8) -> u8
    ensures { result ≡ with_bits bits value old }
{
    chosen_bit(bits, value, old, 0)
        + chosen_bit(bits, value, old, 1) * 2
        + chosen_bit(bits, value, old, 2) * 4
        + chosen_bit(bits, value, old, 3) * 8
        + chosen_bit(bits, value, old, 4) * 16
        + chosen_bit(bits, value, old, 5) * 32
        + chosen_bit(bits, value, old, 6) * 64
        + chosen_bit(bits, value, old, 7) * 128
}

/// Returns the octets of a value, high octet first. `old` is the octet that stands at its place.
fn value_octets(form: Form, value: u32, old: u8) -> ArrayVec<u8, 4>
    ensures { result.items ≡ value_octets form value old }
{
    let mut octets = ArrayVec::new();
    match form {
        Form::One => {}
        Form::Two => octets.push((value / 256 % 256) as u8),
        Form::Four => {
            octets.push((value / 16_777_216 % 256) as u8);
            octets.push((value / 65_536 % 256) as u8);
            octets.push((value / 256 % 256) as u8);
        }
        Form::Bits(bits) => {
            octets.push(with_bits(bits, value, old));
            return octets;
        }
    }
    octets.push((value % 256) as u8);
    octets
}

/// Returns the first default with this reference; None if there is none.
fn default_with(reference: u32, defaults: &[UserDefault]) -> Option<UserDefault>
    ensures { result ≡ default_with reference defaults.now }
{
    match defaults {
        [] => None,
        [first, others @ ..] => {
            if first.reference == reference {
                Some(*first)
            } else {
                default_with(reference, others)
            }
        }
    }
}

/// Returns the octet at a place, 0 if there is none.
fn octet_at(user: &[u8], place: usize) -> u8
    ensures { result ≡ get_or user.now place 0 }
{
    if place < user.len() { user[place] } else { 0 }
}

/// Returns user parameters with the default of this reference at a place. They stay as they are if there is no such default.
/// `ManyParameters` for more than 237 octets.
pub(crate) fn defaulted(
    defaults: &[UserDefault],
    reference: u32,
    place: usize,
    user: &[u8],
) -> Result<UserParameters, Cause>
    requires user { length user.now ≤ 237 }
    requires place { place < 4294967296 }
    ensures { seen (λ all. all.items) result ≡ defaulted place (default_with reference defaults.now) user.now }
{
    match default_with(reference, defaults) {
        None => Ok(padded(user, 0)),
        Some(default) => {
            let octets = value_octets(default.form, default.value, octet_at(user, place));
            overlaid(user, place, octets.as_slice())
        }
    }
}
