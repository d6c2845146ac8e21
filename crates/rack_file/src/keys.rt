//! The keys of a rack file, and the one that an unknown key may stand for.

ghost use Rattle.std.specs.Prelude.{◌≡◌, map, IfOk, option_map};
ghost use Rattle.rack_file.specs.RackFile.{line_keys, rack_keys, slave_keys};
ghost use Rattle.rack_file.specs.Suggestions.{first_near, keys_at, nearest_key};

use crate::misread::Place;
use std::alloc::{AllocError, Global};
use strsim::osa_distance;

/// Returns the keys of the file itself.
pub(crate) fn rack_keys() -> &'static [&'static str]
    ensures { map (λ key. key.now) result.now ≡ rack_keys }
{
    &["workers", "line"]
}

/// Returns the keys of a line.
pub(crate) fn line_keys() -> &'static [&'static str]
    ensures { map (λ key. key.now) result.now ≡ line_keys }
{
    &[
        "number", "capacity", "masters", "listen", "operator", "slave",
    ]
}

/// Returns the keys of a slave.
pub(crate) fn slave_keys() -> &'static [&'static str]
    ensures { map (λ key. key.now) result.now ≡ slave_keys }
{
    &[
        "address", "ident", "cfg", "sync", "freeze", "user_max", "device", "lockers", "readers",
        "failsafe",
    ]
}

/// Returns the keys that the table in a place can have.
pub(crate) fn keys_at(place: Place) -> &'static [&'static str]
    ensures { map (λ key. key.now) result.now ≡ keys_at place }
{
    match place {
        Place::Rack => rack_keys(),
        Place::Line(_) => line_keys(),
        Place::Slave(_, _) => slave_keys(),
    }
}

/// The fewest octets of a key that may stand for one that is two edits away.
const LONG_KEY: usize = 6;

/// Returns the first of these names that is one edit away from a key; or else, for a key of at least six octets, the
/// first that is two edits away. An edit inserts, deletes or replaces a letter, or swaps two neighbours. None if there is
/// none. `AllocError` if memory runs out.
pub(crate) fn nearest_key(
    alloc: Global,
    key: &str,
    names: &[&'static str],
) -> Result<Option<&'static str>, AllocError>
    ensures { IfOk result (λ found. option_map (λ name. name.now) found ≡ nearest_key key.now (map (λ name. name.now) names.now)) }
{
    match first_near(alloc, 1, key, names)? {
        Some(name) => Ok(Some(name)),
        None => {
            if key.len() < LONG_KEY {
                return Ok(None);
            }
            first_near(alloc, 2, key, names)
        }
    }
}

/// Returns the first of these names that is at most `most` edits away from a key.
fn first_near(
    alloc: Global,
    most: usize,
    key: &str,
    names: &[&'static str],
) -> Result<Option<&'static str>, AllocError>
    ensures { IfOk result (λ found. option_map (λ name. name.now) found ≡ first_near most key.now (map (λ name. name.now) names.now)) }
{
    match names {
        [] => Ok(None),
        [name, others @ ..] => {
            if osa_distance(alloc, key, name)? <= most {
                return Ok(Some(*name));
            }
            first_near(alloc, most, key, others)
        }
    }
}
