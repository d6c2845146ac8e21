//! Shows where and why a rack text is refused.
//!
//! The second row on standard error is found by another reading of the text, after the fault: a fault is a small
//! value that is copied, and a user's key is a text of any length. One reading gives both ([`Misread`]).

ghost use Rattle.std.specs.Prelude.{◌≡◌, ◌≤◌, Some, codes, ◌++◌, length, IfOk, option_map, string_bytes};
ghost use Rattle.std.specs.Fmt.{decimal};
ghost use Rattle.toml.specs.Parse.{parse_document};
ghost use Rattle.toml.specs.View.{table_view};
ghost use Rattle.rack_file.specs.Misreads.{shown};
ghost use Rattle.rack_file.specs.RackFile.{rack_of};
ghost use Rattle.rack_file.specs.Suggestions.{reported_key};
ghost use Rattle.rack_file.specs.Causes.{ReportsCause, cause_of, row_at};

use crate::misread::{BadKey, Misread, Shown};
use crate::reading::rack_in_document;
use std::alloc::{AllocError, Global};
use toml::Table;

/// Returns where and why a rack text is refused as `BadKey` or `NotToml`, in one line of ASCII without its LF (own).
/// Returns None if the rack is accepted, or is refused for another fault, whose name and data say all.
///
/// - `BadKey`: the first key that isn't accepted, with its place: `key "KEY": CAUSE` for the file itself,
///   `line L, key "KEY": CAUSE` for the line at this position of the file, from 1, and
///   `line L, slave S, key "KEY": CAUSE` for the slave at this position, from 1, among those of that line. If
///   an unknown key is one edit away from a known one, or two and has six octets or more, `, perhaps "KEY"` follows.
///   An edit inserts, deletes or replaces a letter, or swaps two neighbours.
/// - `NotToml`: `row N: MESSAGE`, with the number of the text line, from 1, at which the text stops being TOML.
///
/// In a key and a message, `"`, `\` and each octet that isn't printable ASCII are written `\xNN`.
///
/// Returns `AllocError` if memory runs out, which may happen instead of each result. It reads the text to find the
/// cause.
pub fn cause_in(alloc: Global, text: &str) -> Result<Option<String>, AllocError>
    ensures { IfOk result (λ reported. ReportsCause text.now (parse_document text.now) (option_map string_bytes reported)) }
{
    match toml::table_from_str(alloc, text) {
        Ok(file) => cause_in_document(alloc, &file),
        Err(error) => match error.span() {
            Some(span) => {
                let row = row_at(text, span.start);
                Ok(Some(row_reported(alloc, row, error.message())?))
            }
            None => Err(AllocError),
        },
    }
}

/// Returns where and why a document is refused as `BadKey`; None if it is not. `AllocError` if memory runs out.
fn cause_in_document(alloc: Global, file: &Table) -> Result<Option<String>, AllocError>
    ensures { IfOk result (λ reported. option_map string_bytes reported ≡ cause_of (rack_of (table_view file.now))) }
{
    match rack_in_document(alloc, file) {
        Ok(_rack) => Ok(None),
        Err(Misread::OutOfMemory) => Err(AllocError),
        Err(Misread::BadKey(bad)) => Ok(Some(key_reported(alloc, &bad)?)),
        Err(Misread::TwiceLine) => Ok(None),
        Err(Misread::Open(_position, _fault)) => Ok(None),
    }
}

/// Returns the text for a key that isn't accepted, with the key that it may stand for. `AllocError` if memory runs out.
fn key_reported(alloc: Global, bad: &BadKey<'_>) -> Result<String, AllocError>
    ensures { IfOk result (λ reported. string_bytes reported ≡ reported_key bad.now) }
{
    match bad.suggested(alloc)? {
        Some(name) => format!(in alloc; "{bad}, perhaps \"{name}\""),
        None => format!(in alloc; "{bad}"),
    }
}

/// Returns the number of the text line, from 1, that has the octet at this offset.
fn row_at(text: &str, offset: usize) -> usize
    requires { offset ≤ length text.now }
    ensures { result ≡ row_at text.now offset }
{
    let before = &text.as_bytes()[..offset];
    before.iter().filter(|octet| **octet == b'\n').count() + 1
}

/// Returns the text `row N: MESSAGE` for a text line. `AllocError` if memory runs out.
fn row_reported(alloc: Global, row: usize, message: &str) -> Result<String, AllocError>
    ensures { IfOk result (λ reported. string_bytes reported ≡ codes "row " ++ decimal row ++ codes ": " ++ shown message.now) }
{
    let message = Shown(message);
    format!(in alloc; "row {row}: {message}")
}
