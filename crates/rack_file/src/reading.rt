//! Reads a rack file.

ghost use Rattle.std.specs.Prelude.{◌≡◌, ◌≤◌, ◌<◌, ◌+◌, ◌==◌, map, length, codes, vec_len, None, Ok, IfOk, IfErr};
ghost use Rattle.std.specs.List.{list_any};
ghost use Rattle.toml.specs.View.{view, table_view};
ghost use Rattle.dp_line.specs.World.{description_of, opening_fault, has_twice};
ghost use Rattle.rack_file.specs.Rack.{line_described, rack_described};
ghost use Rattle.rack_file.specs.Gives.{Gives, Fails, reported};
ghost use Rattle.rack_file.specs.TomlKeys.{seen, required, optional, number_from, each_from};
ghost use Rattle.rack_file.specs.Lines.{lines_in};
ghost use Rattle.rack_file.specs.RackFile.{masters_of, port_of, line_of, line_at, lines_of, numbers, opened, all_open, rack_of, with_fault, rack_in};

use crate::fault::RackFault;
use crate::keys::{line_keys, rack_keys};
use crate::misread::{Cause, Misread, Place};
use crate::rack::{Rack, RackLine};
use crate::slaves::{masters_in, required_slaves};
use crate::toml_keys::{
    at_key, counted, number_in, only_keys, required_array, required_number, required_value,
    table_in, value_at,
};
use arrayvec::ArrayVec;
use dp_line::{LineSpec, MOST_MASTERS};
use std::alloc::Global;
use toml::{Table, Value};

/// The number of workers of a rack if its file doesn't say how many.
const WORKERS: u8 = 4;

/// The largest number of workers of a rack.
pub const MOST_WORKERS: u32 = 32;

/// The largest number of lines of a rack.
pub const MOST_LINES: u8 = 8;

/// Reads the masters of a line.
#[tactic(auto, unfolding(crate::specs::TomlKeys::required))]
fn required_masters<'a>(
    place: Place,
    line: &'a Table,
) -> Result<ArrayVec<u8, MOST_MASTERS>, Misread<'a>>
    ensures { seen (λ masters. masters.items) result ≡ required masters_of place (codes "masters") (table_view line.now) }
{
    let value = required_value(place, line, "masters")?;
    at_key(place, "masters", masters_in(value))
}

/// Reads a port, 0 to 65,535.
///
/// Equal ports are accepted here: `serve` finds them when it listens.
#[tactic(auto, unfolding(crate::specs::RackFile::port_of))]
fn port_in(value: &Value) -> Result<Option<u16>, Cause>
    ensures { result ≡ port_of (view value.now) }
{
    Ok(Some(number_in(value, 0, 65_535)? as u16))
}

/// Reads the port at a key; None if the key is missing.
#[tactic(auto, unfolding(crate::specs::TomlKeys::optional))]
fn optional_port<'a>(
    place: Place,
    line: &'a Table,
    key: &'a str,
) -> Result<Option<u16>, Misread<'a>>
    ensures { result ≡ optional None port_of place key.now (table_view line.now) }
{
    match value_at(line, key) {
        Some(value) => at_key(place, key, port_in(value)),
        None => Ok(None),
    }
}

/// Reads the line that the table describes, at this position of the file.
#[tactic(auto, unfolding(crate::specs::RackFile::line_of))]
fn line_in<'a>(alloc: Global, position: u8, line: &'a Table) -> Result<RackLine, Misread<'a>>
    ensures { Gives reported line_described result (line_of position (table_view line.now)) }
{
    let place = Place::Line(position);
    only_keys(place, line, line_keys())?;
    let spec = LineSpec {
        number: required_number(place, line, "number", 255)? as u8,
        capacity: required_number(place, line, "capacity", u32::MAX)?,
        masters: required_masters(place, line)?,
        slaves: required_slaves(alloc, position, line)?,
    };
    Ok(RackLine {
        spec,
        listen: optional_port(place, line, "listen")?,
        operator: optional_port(place, line, "operator")?,
    })
}

/// Reads the line that an element of `line` describes, at this position of the file.
#[tactic(auto, unfolding(crate::specs::RackFile::line_at))]
fn line_at<'a>(alloc: Global, position: u8, value: &'a Value) -> Result<RackLine, Misread<'a>>
    ensures { Gives reported line_described result (line_at position (view value.now)) }
{
    let line = at_key(Place::Rack, "line", table_in(value))?;
    line_in(alloc, position, line)
}

/// Reads the lines of a rack.
fn lines_in<'a>(alloc: Global, values: &'a [Value]) -> Result<Vec<RackLine>, Misread<'a>>
    requires { length values.now ≤ 8 }
    ensures lines { Gives reported (λ lines. map line_described lines.items) result (each_from line_at 1 (map view values.now)) }
    ensures count { IfOk result (λ lines. vec_len lines ≡ length values.now) }
{
    let mut lines = Vec::new(alloc);
    for (index, value) in values.iter().enumerate() {
        let line = line_at(alloc, index as u8 + 1, value)?;
        lines.push(line).map_err(|_| Misread::OutOfMemory)?;
    }
    Ok(lines)
}

/// Reads the lines of a rack, 1 to 8.
#[tactic(auto, unfolding(crate::specs::RackFile::lines_of))]
fn required_lines<'a>(alloc: Global, file: &'a Table) -> Result<Vec<RackLine>, Misread<'a>>
    ensures lines { Gives reported (λ lines. map line_described lines.items) result (lines_of (table_view file.now)) }
    ensures few { IfOk result (λ lines. vec_len lines ≤ 8) }
{
    let all = required_array(Place::Rack, file, "line")?;
    let values = at_key(Place::Rack, "line", counted(all, 1, MOST_LINES))?;
    lines_in(alloc, values)
}

/// Reads the number of workers of a rack, 1 to 32; 4 if the key is missing.
#[tactic(auto, unfolding(crate::specs::TomlKeys::optional))]
fn optional_workers<'a>(file: &'a Table) -> Result<u8, Misread<'a>>
    ensures { result ≡ optional 4 (number_from 1 32) Place.Rack (codes "workers") (table_view file.now) }
{
    match value_at(file, "workers") {
        Some(value) => {
            Ok(at_key(Place::Rack, "workers", number_in(value, 1, MOST_WORKERS))? as u8)
        }
        None => Ok(WORKERS),
    }
}

/// Returns whether two of the lines have the same number.
fn has_number_twice(lines: &[RackLine]) -> bool
    ensures { result ≡ has_twice (numbers (map line_described lines.now)) }
{
    match lines {
        [] => false,
        [first, others @ ..] => has_number(others, first.spec.number) || has_number_twice(others),
    }
}

/// Returns whether one of the lines has this number.
fn has_number(lines: &[RackLine], number: u8) -> bool
    ensures { result ≡ list_any (λ y. number == y) (numbers (map line_described lines.now)) }
{
    lines.iter().any(|line| number == line.spec.number)
}

/// Checks that the line at this position of the file can be opened; `Open` with the reason if it can't.
fn check_opening<'a>(position: u8, line: &LineSpec) -> Result<(), Misread<'a>>
    ensures { result ≡ opened position (opening_fault (description_of line.now)) }
{
    match line.fault() {
        None => Ok(()),
        Some(fault) => Err(Misread::Open(position, fault)),
    }
}

/// Checks that every line can be opened; the first of them is at this position of the file. `Open` for the first line
/// that can't.
#[tactic(auto, unfolding(crate::specs::RackFile::all_open))]
fn check_openings<'a>(position: u8, lines: &[RackLine]) -> Result<(), Misread<'a>>
    requires { position + length lines.now < 256 }
    ensures { result ≡ all_open position (map line_described lines.now) }
{
    match lines {
        [] => Ok(()),
        [first, others @ ..] => {
            check_opening(position, &first.spec)?;
            check_openings(position + 1, others)
        }
    }
}

/// Reads the rack that a document describes; if it describes none, returns where and why.
#[tactic(auto, unfolding(crate::specs::RackFile::rack_of))]
pub(crate) fn rack_in_document<'a>(alloc: Global, file: &'a Table) -> Result<Rack, Misread<'a>>
    ensures { Gives reported rack_described result (rack_of (table_view file.now)) }
{
    only_keys(Place::Rack, file, rack_keys())?;
    let workers = optional_workers(file)?;
    let lines = required_lines(alloc, file)?;
    if has_number_twice(&lines) {
        return Err(Misread::TwiceLine);
    }
    check_openings(1, &lines)?;
    Ok(Rack { workers, lines })
}

/// Reads the rack that a document describes; if it describes none, returns the fault.
fn rack_or_fault(alloc: Global, file: &Table) -> Result<Rack, RackFault>
    ensures ok { IfOk result (λ rack. with_fault (rack_of (table_view file.now)) ≡ Ok (rack_described rack)) }
    ensures refused { IfErr result (λ fault. Fails fault (with_fault (rack_of (table_view file.now)))) }
{
    match rack_in_document(alloc, file) {
        Ok(rack) => Ok(rack),
        Err(misread) => Err(misread.fault()),
    }
}

/// Reads the rack that a text describes. The text is TOML with these keys and no others (own):
///
/// - `workers`, 1 to 32; 4 if it is missing.
/// - `[[line]]`, 1 to 8 of them: `number`, 0 to 255; `capacity`, below 2^32; `masters`, at most 16 numbers from 0 to
///   255; the tables `slave`; `listen` and `operator`, ports from 0 to 65,535, no port if they are missing.
/// - `[[line.slave]]`: `address`, 0 to 255; `ident`, 0 to 65,535; `cfg`, hex text of at most 244 octets, or an array of
///   1 to 4 such texts, which are the configurations from number 0 on; `sync`, `freeze` and `failsafe`, false if they
///   are missing; `user_max`, 0 to 255, 237 if it is missing; `device`, "still", "counter" or "mirror", still if it is
///   missing; `lockers` and `readers`, each at most 16 numbers from 0 to 255, no list if they are missing.
///
/// Returns the first fault that applies: `NotToml`; `BadKey` for an unknown or missing key, a wrong type, a text that
/// isn't hex, a text that isn't the name of a device, or a number, a list or an array of configurations outside its
/// range; `TwiceLine`; `Open` of the first line that can't be opened. `OutOfMemory` may come instead of each.
pub fn read_rack(alloc: Global, text: &str) -> Result<Rack, RackFault>
    // The rack is the one that the text describes.
    ensures ok { IfOk result (λ rack. rack_in text.now ≡ Ok (rack_described rack)) }
    // Every fault but `OutOfMemory` is one of the text.
    ensures refused { IfErr result (λ fault. Fails fault (rack_in text.now)) }
{
    match toml::table_from_str(alloc, text) {
        Ok(file) => rack_or_fault(alloc, &file),
        Err(error) if error.is_memory() => Err(RackFault::OutOfMemory),
        Err(_) => Err(RackFault::NotToml),
    }
}

/// Reads the lines that a document describes; if it describes none, returns the fault.
fn lines_or_fault(alloc: Global, file: &Table) -> Result<Vec<RackLine>, RackFault>
    ensures ok { IfOk result (λ lines. with_fault (lines_of (table_view file.now)) ≡ Ok (map line_described lines.items)) }
    ensures refused { IfErr result (λ fault. Fails fault (with_fault (lines_of (table_view file.now)))) }
{
    match required_lines(alloc, file) {
        Ok(lines) => Ok(lines),
        Err(misread) => Err(misread.fault()),
    }
}

/// Reads the lines that a rack text describes, 1 to 8 of them, whether or not they can be opened and have numbers of
/// their own (own). Of the file itself it looks at the key `line` only.
///
/// Returns the first fault that applies: `NotToml`, or `BadKey` for this key and those of the lines and slaves.
/// `OutOfMemory` may come instead of each.
pub fn read_lines(alloc: Global, text: &str) -> Result<Vec<RackLine>, RackFault>
    ensures ok { IfOk result (λ lines. lines_in text.now ≡ Ok (map line_described lines.items)) }
    ensures refused { IfErr result (λ fault. Fails fault (lines_in text.now)) }
{
    match toml::table_from_str(alloc, text) {
        Ok(file) => lines_or_fault(alloc, &file),
        Err(error) if error.is_memory() => Err(RackFault::OutOfMemory),
        Err(_) => Err(RackFault::NotToml),
    }
}
