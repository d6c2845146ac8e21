//! Lines of JSON that are made one value after another.
//!
//! A call that runs out of memory leaves its value out and is remembered, so that what makes a line needs no `?`: only
//! [`JsonText::octets`] says whether the lines are whole.

use crate::explain_fault::ExplainFault;
use crate::json_field::{Field, Fields, Value};
use crate::json_names::ending_name;
use crate::json_values::{Quoted, truth_name};
use dp_text::Words;
use explain_events::{Lengths, Release};
use std::alloc::Global;
use std::fmt::Display;

/// Lines of JSON.
#[derive(Drop)]
pub(crate) struct JsonText {
    text: String,
    /// A buffer for the words of one string.
    words: String,
    /// Whether the next value is the first one of its object or its array.
    is_first: bool,
    ran_out: bool,
}

impl JsonText {
    /// Returns the empty text. It takes no memory yet.
    pub(crate) fn new(alloc: Global) -> JsonText {
        JsonText {
            text: String::new(alloc),
            words: String::new(alloc),
            is_first: true,
            ran_out: false,
        }
    }

    /// Clears the text, whose memory is used again. What follows is in an object that has a field already.
    pub(crate) fn clear(&mut self) {
        self.text.clear();
        self.is_first = false;
        self.ran_out = false;
    }

    /// Returns the text, or `OutOfMemory` if it is not whole.
    pub(crate) fn octets(&self) -> Result<&[u8], ExplainFault> {
        if self.ran_out {
            Err(ExplainFault::OutOfMemory)
        } else {
            Ok(self.text.as_bytes())
        }
    }

    fn push(&mut self, text: &str) {
        if self.text.push_str(text).is_err() {
            self.ran_out = true;
        }
    }

    /// Appends what this displays.
    fn push_shown<D: Display>(&mut self, shown: &D) {
        match write!(self.text, "{shown}") {
            Ok(()) => {}
            Err(_) => self.ran_out = true,
        }
    }

    /// Appends an octet as two hex digits.
    fn push_pair(&mut self, octet: u8) {
        match write!(self.text, "{octet:02x}") {
            Ok(()) => {}
            Err(_) => self.ran_out = true,
        }
    }

    /// Stores what this displays as the words of the next string.
    fn store_words<D: Display>(&mut self, shown: &D) {
        self.words.clear();
        match write!(self.words, "{shown}") {
            Ok(()) => {}
            Err(_) => self.ran_out = true,
        }
    }

    /// Appends a comma, unless the next value is the first one.
    fn separate(&mut self) {
        if !self.is_first {
            self.push(",");
        }
        self.is_first = false;
    }

    fn key(&mut self, key: &str) {
        self.separate();
        self.push("\"");
        self.push(key);
        self.push("\":");
    }

    // ---- objects and arrays

    /// Begins a line of this kind, with the version.
    pub(crate) fn begin_line(&mut self, kind: &str) {
        self.push("{\"version\":2,\"kind\":\"");
        self.push(kind);
        self.push("\"");
        self.is_first = false;
    }

    /// Ends a line.
    pub(crate) fn end_line(&mut self) {
        self.push("}\n");
    }

    /// Begins an object with this key.
    pub(crate) fn open(&mut self, key: &str) {
        self.key(key);
        self.push("{");
        self.is_first = true;
    }

    /// Begins an object of an array.
    pub(crate) fn open_element(&mut self) {
        self.separate();
        self.push("{");
        self.is_first = true;
    }

    /// Ends an object.
    pub(crate) fn close(&mut self) {
        self.push("}");
        self.is_first = false;
    }

    /// Begins an array with this key.
    pub(crate) fn open_list(&mut self, key: &str) {
        self.key(key);
        self.push("[");
        self.is_first = true;
    }

    /// Ends an array.
    pub(crate) fn close_list(&mut self) {
        self.push("]");
        self.is_first = false;
    }

    // ---- fields

    /// Appends these fields.
    pub(crate) fn fields(&mut self, fields: &Fields) {
        for field in fields {
            if let Some(field) = field {
                self.field(*field);
            }
        }
    }

    /// Appends a field, if there is one.
    pub(crate) fn one(&mut self, field: Option<Field>) {
        if let Some(field) = field {
            self.field(field);
        }
    }

    /// Appends a field with `null`.
    pub(crate) fn null(&mut self, key: &str) {
        self.key(key);
        self.push("null");
    }

    fn field(&mut self, field: Field) {
        self.key(field.key);
        match field.value {
            Value::Null => self.push("null"),
            Value::Number(number) => self.push_shown(&number),
            Value::Truth(is_true) => self.push(truth_name(is_true)),
            Value::Word(word) => self.push_word(word),
            Value::Release(release) => self.push_release(release),
            Value::Takes(lengths) => self.push_lengths(lengths),
        }
    }

    fn push_word(&mut self, word: &str) {
        self.push("\"");
        self.push(word);
        self.push("\"");
    }

    fn push_release(&mut self, release: Release) {
        self.push("{\"place\":");
        self.push_shown(&release.place);
        self.push(",\"ending\":");
        self.push_word(ending_name(release.ending));
        self.push("}");
    }

    fn push_lengths(&mut self, lengths: Lengths) {
        self.push("[");
        match lengths {
            Lengths::Nothing => self.push("0"),
            Lengths::Exactly(count) => self.push_shown(&count),
            Lengths::OrNothing(count) => {
                self.push("0,");
                self.push_shown(&count);
            }
            Lengths::UpTo(_) => {}
        }
        self.push("]");
    }

    /// Appends a field with octets in hex.
    pub(crate) fn hex(&mut self, key: &str, octets: &[u8]) {
        self.key(key);
        self.push("\"");
        for octet in octets {
            self.push_pair(*octet);
        }
        self.push("\"");
    }

    /// Appends a field with what this displays, as a string.
    pub(crate) fn words<D: Display>(&mut self, key: &str, shown: &D) {
        self.words_behind(key, 0, shown);
    }

    /// Appends a field with what this displays but for its first octets, as a string.
    pub(crate) fn words_behind<D: Display>(&mut self, key: &str, count: usize, shown: &D) {
        self.store_words(shown);
        self.key(key);
        let quoted = Quoted(behind(self.words.as_bytes(), count));
        match write!(self.text, "{quoted}") {
            Ok(()) => {}
            Err(_) => self.ran_out = true,
        }
    }

    /// Appends a field with the first word that this displays, as a string.
    pub(crate) fn first_word<D: Display>(&mut self, key: &str, shown: &D) {
        self.store_words(shown);
        self.key(key);
        let quoted = Quoted(first_word(self.words.as_bytes()));
        match write!(self.text, "{quoted}") {
            Ok(()) => {}
            Err(_) => self.ran_out = true,
        }
    }
}

/// Returns the octets of a text after the first `count`; nothing if it has fewer.
fn behind(text: &[u8], count: usize) -> &[u8] {
    if count <= text.len() {
        text.split_at(count).1
    } else {
        b""
    }
}

/// Returns what stands before the first space of a text.
fn first_word(text: &[u8]) -> &[u8] {
    match Words::new(text).next() {
        Some(word) => word,
        None => b"",
    }
}
