//! The fields of an object of JSON whose values are facts.

use explain_events::{Lengths, Release};

/// The most fields that an object of facts has besides its kind.
pub(crate) const MOST_FIELDS: usize = 5;

/// The value of a field.
#[derive(Clone, Copy)]
pub(crate) enum Value {
    Null,
    Number(u64),
    Truth(bool),
    /// A word of printable ASCII without quotation marks and backslashes.
    Word(&'static str),
    /// The place and the way of a release.
    Release(Release),
    /// The numbers of octets that a point takes.
    Takes(Lengths),
}

/// A field of an object: its key, and its value.
#[derive(Clone, Copy)]
pub(crate) struct Field {
    pub(crate) key: &'static str,
    pub(crate) value: Value,
}

/// The fields of an object, in their order.
pub(crate) type Fields = [Option<Field>; MOST_FIELDS];

/// Returns a field with this value.
pub(crate) fn with(key: &'static str, value: Value) -> Option<Field> {
    Some(Field { key, value })
}

/// Returns a field with an octet, or a number of at most 255.
pub(crate) fn octet(key: &'static str, number: u8) -> Option<Field> {
    with(key, Value::Number(u64::from(number)))
}

/// Returns a field with an octet; `null` if there is none.
pub(crate) fn octet_or_null(key: &'static str, number: Option<u8>) -> Option<Field> {
    match number {
        Some(number) => octet(key, number),
        None => with(key, Value::Null),
    }
}

/// Returns a field with a long number.
pub(crate) fn number(key: &'static str, number: u64) -> Option<Field> {
    with(key, Value::Number(number))
}

/// Returns a field with a long number; `null` if there is none.
pub(crate) fn number_or_null(key: &'static str, number: Option<u64>) -> Option<Field> {
    match number {
        Some(number) => with(key, Value::Number(number)),
        None => with(key, Value::Null),
    }
}

/// Returns a field with a truth value.
pub(crate) fn truth(key: &'static str, is_true: bool) -> Option<Field> {
    with(key, Value::Truth(is_true))
}

/// Returns a field with a word.
pub(crate) fn word(key: &'static str, word: &'static str) -> Option<Field> {
    with(key, Value::Word(word))
}

/// Returns a field with a word; `null` if there is none.
pub(crate) fn word_or_null(key: &'static str, word: Option<&'static str>) -> Option<Field> {
    match word {
        Some(word) => with(key, Value::Word(word)),
        None => with(key, Value::Null),
    }
}
