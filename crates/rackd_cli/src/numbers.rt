//! The answer to a value that is no number, or one outside of its limits.

use crate::arguments::Argument;
use crate::commands::word_named;
use crate::invocation::{Invocation, WordsFault};
use crate::refusals::refuse;
use clap::Error;
use clap::builder::ValueParser;
use std::alloc::Global;

/// A value that `clap` refuses, and the argument or the option as its message names it.
#[derive(Clone, Copy)]
struct Refused<'t> {
    value: &'t str,
    shown: &'t str,
}

/// Returns the answer to words that `clap` refuses with this error, if it is about a number: which numbers the argument accepts.
/// None if it is about anything else. Returns `OutOfMemory` if memory is refused.
pub(crate) fn refused_number<'a>(
    alloc: Global,
    words: &[String],
    error: &Error,
) -> Result<Option<Invocation<'a>>, WordsFault> {
    let Ok(text) = format!(in alloc; "{error}") else {
        return Err(WordsFault::OutOfMemory);
    };
    let Some(command) = words.get(1) else {
        return Ok(None);
    };
    let Some(refused) = refused_in(text.as_str()) else {
        return Ok(None);
    };
    match limits_of(command.as_str(), refused.shown) {
        Some((least, most)) => Ok(Some(refuse_number(
            alloc,
            command.as_str(),
            refused,
            least,
            most,
        )?)),
        None => Ok(None),
    }
}

/// Returns the value that a message of `clap` is about.
fn refused_in(text: &str) -> Option<Refused<'_>> {
    let (value, behind) = text
        .strip_prefix("error: invalid value '")?
        .split_once("' for '")?;
    let (shown, _) = behind.split_once("': ")?;
    Some(Refused { value, shown })
}

/// Returns the limits of the argument of a word that messages name so, if it is a number.
fn limits_of(command: &str, shown: &str) -> Option<(u64, u64)> {
    let name = name_in(shown)?;
    limits_among(word_named(command)?.arguments, name)
}

/// Returns the limits of the argument of this name among these, if it is a number.
fn limits_among(arguments: &[Argument], name: &str) -> Option<(u64, u64)> {
    for argument in arguments {
        if argument.name == name {
            return limits(argument);
        }
    }
    None
}

/// Returns the name of an argument or an option, of `<NAME>` or `--NAME <VALUE>`.
fn name_in(shown: &str) -> Option<&str> {
    match shown.strip_prefix("--") {
        Some(option) => Some(option.split_once(' ')?.0),
        None => shown.strip_prefix('<')?.strip_suffix('>'),
    }
}

/// Returns the least and the greatest number that an argument accepts, if it is a number.
fn limits(argument: &Argument) -> Option<(u64, u64)> {
    if let ValueParser::Unsigned(least, most) = argument.value {
        Some((least, most))
    } else {
        None
    }
}

/// Returns the answer to a value that is no number from `least` to `most`.
fn refuse_number<'a>(
    alloc: Global,
    command: &str,
    refused: Refused<'_>,
    least: u64,
    most: u64,
) -> Result<Invocation<'a>, WordsFault> {
    let Refused { value, shown } = refused;
    let (of, digits) = unit_of(shown);
    let message = format!(in alloc;
        "invalid value '{value}' for '{shown}': expected a number{of} from {least} to {most}{digits}"
    );
    match message {
        Ok(message) => refuse(alloc, command, message.as_str()),
        Err(_) => Err(WordsFault::OutOfMemory),
    }
}

/// Returns what is said of the unit of a number, before and behind its limits.
fn unit_of(shown: &str) -> (&'static str, &'static str) {
    if shown.ends_with("<MS>") {
        (" of milliseconds", ", without a unit")
    } else if shown.ends_with("<MB>") {
        (" of megabytes", ", without a unit")
    } else {
        ("", "")
    }
}
