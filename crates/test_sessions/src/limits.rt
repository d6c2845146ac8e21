//! Readers that pass few octets at once, and the limits of sessions.

use dp_sessions::SessionEnd;
use std::alloc::{AllocError, Global};
use std::io::Read;
use std::test::Fail;

/// The limits of a session.
#[derive(Clone, Copy)]
pub(crate) struct Limits {
    /// The most reads that the session may make.
    pub(crate) turns: u32,
    /// The most octets that one read returns.
    most: usize,
}

impl Limits {
    /// Reads `turns=N` and `by=N`, separated by spaces. A limit that is not named is 100 reads or 100,000 octets.
    pub(crate) fn new(text: &str) -> Result<Limits, Fail> {
        let mut limits = Limits {
            turns: 100,
            most: 100_000,
        };
        for word in text.split_whitespace() {
            limits.set(word)?;
        }
        Ok(limits)
    }

    /// Sets the limit that a word names.
    fn set(&mut self, word: &str) -> Result<(), Fail> {
        let (name, number) = word.split_once('=').ok_or("no limit")?;
        let number = number.parse::<u32>()?;
        match name {
            "turns" => self.turns = number,
            "by" => self.most = number as usize,
            _ => return Err(Fail::new("no limit")),
        }
        Ok(())
    }

    /// Returns a reader of these octets.
    pub(crate) fn reader<'a>(&self, octets: &'a [u8]) -> Coming<'a> {
        Coming {
            left: octets,
            most: self.most,
        }
    }
}

/// A reader that returns its octets, at most `most` in one read, and then ends.
#[derive(Drop)]
pub(crate) struct Coming<'a> {
    left: &'a [u8],
    most: usize,
}

impl Read for Coming<'_> {
    fn read(&mut self, buf: &mut [u8]) -> std::io::Result<usize> {
        let count = self.left.len().min(self.most).min(buf.len());
        let (front, rest) = self.left.split_at(count);
        buf[..count].copy_from_slice(front);
        self.left = rest;
        Ok(count)
    }
}

/// Returns how a session ended, with its number, and `left N` if the reader has octets that were not read.
pub(crate) fn end_of(
    alloc: Global,
    end: SessionEnd,
    reader: &Coming<'_>,
) -> Result<String, AllocError> {
    let code = end.code();
    let left = reader.left.len();
    if left == 0 {
        return format!(in alloc; "{end:?} {code}");
    }
    format!(in alloc; "{end:?} {code} left {left}")
}
