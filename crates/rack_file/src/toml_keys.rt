//! Reads the keys of a TOML table. A value that isn't accepted gives its cause; a key of a table gives its cause and
//! its place.

ghost use Rattle.std.specs.Prelude.{◌≡◌, ◌≤◌, false, map, length, IfOk, option_map};
ghost use Rattle.std.specs.List.{list_any};
ghost use Rattle.std.specs.Str.{bytes_eq};
ghost use Rattle.toml.specs.Data.{get_member};
ghost use Rattle.toml.specs.View.{view, table_view};
ghost use Rattle.rack_file.specs.Gives.{Gives, wrong};
ghost use Rattle.rack_file.specs.TomlKeys.{seen, only, required_value, required, optional, at_key, elements_of, array_of, text_or_array_of, counted, table_of, flag_of, text_of, number_from, octets_of};

use crate::misread::{Cause, Misread, Place, Unread};
use std::alloc::Global;
use std::slice;
use toml::{Table, Value};

/// Adds the place and the key of a value to the cause if it wasn't accepted.
pub(crate) fn at_key<'a, T>(
    place: Place,
    key: &'a str,
    read: Result<T, Cause>,
) -> Result<T, Misread<'a>>
    ensures { result ≡ at_key place key.entry.now read }
{
    match read {
        Ok(value) => Ok(value),
        Err(cause) => Err(Misread::of_key(place, key, cause)),
    }
}

/// Checks that every key of the table in this place is a known one; `NoSuchKey` for the first that isn't.
pub(crate) fn only_keys<'a>(
    place: Place,
    table: &'a Table,
    known: &[&str],
) -> Result<(), Misread<'a>>
    ensures { result ≡ only place (map (λ key. key.now) known.now) (table_view table.now) }
{
    for (key, _value) in table.iter() {
        if !is_among(key, known) {
            return Err(Misread::of_key(place, key, Cause::NoSuchKey));
        }
    }
    Ok(())
}

/// Returns whether the key is one of these.
fn is_among(key: &str, known: &[&str]) -> bool
    ensures { result ≡ list_any (bytes_eq key.now) (map (λ key. key.now) known.now) }
{
    known.iter().any(|name| key == *name)
}

/// Returns the value at a key; None if the table doesn't have it.
pub(crate) fn value_at<'a>(table: &'a Table, key: &str) -> Option<&'a Value>
    ensures { option_map (λ value. view value.now) result ≡ get_member key.now (table_view table.now) }
{
    table.get(key)
}

/// Returns the value at a key of the table in this place; `Missing` if the table doesn't have it.
pub(crate) fn required_value<'a>(
    place: Place,
    table: &'a Table,
    key: &'a str,
) -> Result<&'a Value, Misread<'a>>
    ensures { seen (λ value. view value.now) result ≡ required_value place key.now (table_view table.now) }
{
    match value_at(table, key) {
        Some(value) => Ok(value),
        None => Err(Misread::of_key(place, key, Cause::Missing)),
    }
}

/// Reads the number from 0 to `most` at a key that the table in this place must have.
#[tactic(auto, unfolding(crate::specs::TomlKeys::required))]
pub(crate) fn required_number<'a>(
    place: Place,
    table: &'a Table,
    key: &'a str,
    most: u32,
) -> Result<u32, Misread<'a>>
    ensures number { result ≡ required (number_from 0 most) place key.now (table_view table.now) }
    ensures bound { IfOk result (λ number. number ≤ most) }
{
    let value = required_value(place, table, key)?;
    at_key(place, key, number_in(value, 0, most))
}

/// Reads the values of the array at a key that the table in this place must have.
#[tactic(auto, unfolding(crate::specs::TomlKeys::required))]
pub(crate) fn required_array<'a>(
    place: Place,
    table: &'a Table,
    key: &'a str,
) -> Result<&'a [Value], Misread<'a>>
    ensures { seen (λ values. map view values.now) result ≡ required array_of place key.now (table_view table.now) }
{
    let value = required_value(place, table, key)?;
    at_key(place, key, array_in(value))
}

/// Reads the truth value at a key; false if the table in this place doesn't have it.
#[tactic(auto, unfolding(crate::specs::TomlKeys::optional))]
pub(crate) fn optional_flag<'a>(
    place: Place,
    table: &'a Table,
    key: &'a str,
) -> Result<bool, Misread<'a>>
    ensures { result ≡ optional false flag_of place key.now (table_view table.now) }
{
    match value_at(table, key) {
        Some(value) => at_key(place, key, flag_in(value)),
        None => Ok(false),
    }
}

/// Reads a value as a table; `NoTable` if it isn't one.
pub(crate) fn table_in(value: &Value) -> Result<&Table, Cause>
    ensures { seen (λ table. table_view table.now) result ≡ table_of (view value.now) }
{
    match value.as_table() {
        Some(table) => Ok(table),
        None => Err(Cause::NoTable),
    }
}

/// Reads a value as an array and returns its values; this cause if it isn't one.
#[tactic(auto, unfolding(crate::specs::TomlKeys::elements_of))]
fn elements_in(value: &Value, cause: Cause) -> Result<&[Value], Cause>
    ensures { seen (λ values. map view values.now) result ≡ elements_of cause (view value.now) }
{
    match value.as_array() {
        Some(array) => Ok(array.as_slice()),
        None => Err(cause),
    }
}

/// Reads a value as an array and returns its values; `NoArray` if it isn't one.
pub(crate) fn array_in(value: &Value) -> Result<&[Value], Cause>
    ensures { seen (λ values. map view values.now) result ≡ array_of (view value.now) }
{
    elements_in(value, Cause::NoArray)
}

/// Reads a value as an array and returns its values; a text counts as an array of only this text. `NoTextOrArray` if it
/// is neither.
#[tactic(auto, unfolding(crate::specs::TomlKeys::text_or_array_of))]
pub(crate) fn text_or_array_in(value: &Value) -> Result<&[Value], Cause>
    ensures { seen (λ values. map view values.now) result ≡ text_or_array_of (view value.now) }
{
    if value.is_str() {
        return Ok(slice::from_ref(value));
    }
    elements_in(value, Cause::NoTextOrArray)
}

/// Checks that there are `least` to `most` values; `Count` if there aren't.
pub(crate) fn counted(values: &[Value], least: u8, most: u8) -> Result<&[Value], Cause>
    ensures values { seen (λ values. map view values.now) result ≡ counted least most (map view values.now) }
    ensures count { IfOk result (λ values. length values.now ≤ most) }
{
    if values.len() < least as usize || values.len() > most as usize {
        return Err(Cause::Count(least, most));
    }
    Ok(values)
}

/// Reads a value as a number from `least` to `most`; `NoNumber` if it isn't one.
#[tactic(auto, unfolding(crate::specs::TomlKeys::number_from))]
pub(crate) fn number_in(value: &Value, least: u32, most: u32) -> Result<u32, Cause>
    ensures number { result ≡ number_from least most (view value.now) }
    ensures bound { IfOk result (λ number. number ≤ most) }
{
    match value.as_integer() {
        Some(number) if least as i64 <= number && number <= most as i64 => Ok(number as u32),
        _ => Err(Cause::NoNumber(least, most)),
    }
}

/// Reads a value as a truth value; `NoFlag` if it isn't one.
fn flag_in(value: &Value) -> Result<bool, Cause>
    ensures { result ≡ flag_of (view value.now) }
{
    value.as_bool().ok_or(Cause::NoFlag)
}

/// Reads a value as a text; `NoText` if it isn't one.
pub(crate) fn text_in(value: &Value) -> Result<&str, Cause>
    ensures { seen (λ text. text.now) result ≡ text_of (view value.now) }
{
    value.as_str().ok_or(Cause::NoText)
}

/// Reads a value as a hex text and returns the octets. `NoText` if it isn't a text, `NoHex` if it isn't hex,
/// `OutOfMemory` if memory runs out.
#[tactic(auto, unfolding(crate::specs::TomlKeys::octets_of))]
pub(crate) fn octets_in(alloc: Global, value: &Value) -> Result<Vec<u8>, Unread>
    ensures { Gives wrong (λ octets. octets.items) result (octets_of (view value.now)) }
{
    match hex::decode(alloc, text_in(value)?) {
        Ok(octets) => Ok(octets),
        Err(hex::FromHexError::OutOfMemory) => Err(Unread::OutOfMemory),
        Err(_) => Err(Unread::Wrong(Cause::NoHex)),
    }
}
