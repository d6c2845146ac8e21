//! The answer to a value that `clap` accepts and a word does not.

use crate::commands::command_named;
use crate::invocation::{Invocation, WordsFault};
use clap::error::ErrorKind;
use std::alloc::Global;

/// A value that a word does not accept.
pub(crate) struct BadValue<'a> {
    /// The argument or the option, as messages name it.
    pub(crate) shown: &'static str,
    /// The value.
    pub(crate) value: &'a str,
    /// Why it is not accepted.
    pub(crate) reason: &'static str,
}

/// Returns the answer of the word of this name to a value that it does not accept. Returns `OutOfMemory` if memory is refused.
pub(crate) fn refuse_value<'a>(
    alloc: Global,
    word: &str,
    bad: BadValue<'_>,
) -> Result<Invocation<'a>, WordsFault> {
    let BadValue {
        shown,
        value,
        reason,
    } = bad;
    match format!(in alloc; "invalid value '{value}' for '{shown}': {reason}") {
        Ok(message) => refuse(alloc, word, message.as_str()),
        Err(_) => Err(WordsFault::OutOfMemory),
    }
}

/// Returns the answer of the word of this name, with this message. Returns `OutOfMemory` if memory is refused.
pub(crate) fn refuse<'a>(
    alloc: Global,
    word: &str,
    message: &str,
) -> Result<Invocation<'a>, WordsFault> {
    let Ok(mut command) = command_named(alloc, word) else {
        return Err(WordsFault::OutOfMemory);
    };
    match command.error(ErrorKind::ValueValidation, message) {
        Ok(error) => Ok(Invocation::Answer(error)),
        Err(_) => Err(WordsFault::OutOfMemory),
    }
}
