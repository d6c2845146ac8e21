//! Reads the defaults of user parameters, which stand in the blocks `ExtUserPrmData`.

ghost use Rattle.std.specs.Prelude.{◌≡◌, IfOk};
ghost use Rattle.gsd_files.specs.Defaults.{bits_by, form_named, default_of, reference_of, default_in, open_behind, with_default, row_in, defaults_of};
ghost use Rattle.gsd_files.specs.Files.{lines_of};

use crate::keys::same_key;
use crate::lines::first_line;
use crate::rows::{argument_of, body_of, key_of, rest_of, trimmed, value_of};
use crate::user::{Form, UserDefault};
use crate::values::{Span, number_of, signed_of, span_of};
use std::alloc::{AllocError, Global};

/// Returns the form of these bits of an octet; None if they aren't bits of one octet.
fn bits_by(bits: Span) -> Option<Form>
    ensures { result ≡ bits_by (Some bits) }
{
    if bits.first <= bits.last && bits.last <= 7 {
        Some(Form::Bits(bits))
    } else {
        None
    }
}

/// Returns the form with this name; None if there is none.
fn form_named(key: &[u8], argument: &[u8]) -> Option<Form>
    ensures { result ≡ form_named key.now argument.now }
{
    if same_key(key, b"unsigned8") || same_key(key, b"signed8") {
        return Some(Form::One);
    }
    if same_key(key, b"unsigned16") || same_key(key, b"signed16") {
        return Some(Form::Two);
    }
    if same_key(key, b"unsigned32") || same_key(key, b"signed32") {
        return Some(Form::Four);
    }
    if same_key(key, b"bit") || same_key(key, b"bitarea") {
        bits_by(span_of(argument)?)
    } else {
        None
    }
}

/// Returns the default of a row as `Unsigned8 10 0-100`; None for another row.
fn default_of(reference: u32, body: &[u8]) -> Option<UserDefault>
    ensures { result ≡ default_of reference body.now }
{
    let form = form_named(key_of(body), argument_of(body))?;
    let value = signed_of(key_of(rest_of(body)))?;
    Some(UserDefault {
        reference,
        form,
        value,
    })
}

/// Returns the reference of a row `ExtUserPrmData = 1 "NAME"`; None for another row.
fn reference_of(body: &[u8]) -> Option<u32>
    ensures { result ≡ reference_of body.now }
{
    if !same_key(key_of(body), b"extuserprmdata") {
        return None;
    }
    number_of(key_of(value_of(body)?))
}

/// Returns the default of a row in a block with this reference; None if the row has none, or no block is open.
fn default_in(block: Option<u32>, body: &[u8]) -> Option<UserDefault>
    ensures { result ≡ default_in block body.now }
{
    match block {
        None => None,
        Some(reference) => default_of(reference, body),
    }
}

/// Returns the reference of the block that is open behind a row with this default.
fn open_behind(block: Option<u32>, body: &[u8], default: Option<UserDefault>) -> Option<u32>
    ensures { result ≡ open_behind block body.now default }
{
    match default {
        Some(_default) => None,
        None => match reference_of(body) {
            Some(reference) => Some(reference),
            None => block,
        },
    }
}

/// Returns the row that a line has, if it is one of its own.
fn row_in(line: &[u8]) -> &[u8]
    ensures { result.now ≡ row_in line.now }
{
    body_of(trimmed(false, line))
}

/// Returns the defaults and one more, if there is one.
fn with_default(
    defaults: Vec<UserDefault>,
    default: Option<UserDefault>,
) -> Result<Vec<UserDefault>, AllocError>
    ensures { IfOk result (λ more. more.items ≡ with_default defaults.items default) }
{
    let mut more = defaults;
    match default {
        None => Ok(more),
        Some(default) => match more.push(default) {
            Ok(()) => Ok(more),
            Err(_) => Err(AllocError),
        },
    }
}

/// Returns the defaults of the user parameters of a file, wherever their blocks stand. `AllocError` if memory runs out.
pub(crate) fn defaults_of(alloc: Global, text: &[u8]) -> Result<Vec<UserDefault>, AllocError>
    ensures { IfOk result (λ defaults. defaults.items ≡ defaults_of (lines_of text.now)) }
{
    let mut defaults = Vec::new(alloc);
    let mut block = None;
    let mut left = Some(text);
    while let Some(rest) = left {
        let (line, behind) = first_line(rest);
        let row = row_in(line);
        let default = default_in(block, row);
        block = open_behind(block, row, default);
        defaults = with_default(defaults, default)?;
        left = behind;
    }
    Ok(defaults)
}
