//! A reader of the entries of an audit text.

use audit_parts::{EntryRows, PartsCheck};
use std::alloc::Global;
use std::io::{self, BufRead, Read};

/// A reader of an audit text without the rows of heads. It gives what [`EntryRows`] gives.
#[derive(Drop)]
pub(crate) struct EntryReader<B: BufRead + Drop> {
    rows: EntryRows<B>,
}

impl<B: BufRead + Drop> EntryReader<B> {
    /// Returns the reader of a text, as [`EntryRows::new`] takes it.
    pub(crate) fn new(
        alloc: Global,
        check: Option<PartsCheck>,
        first: Vec<u8>,
        reader: B,
    ) -> EntryReader<B> {
        EntryReader {
            rows: EntryRows::new(alloc, check, first, reader),
        }
    }

    /// Returns the reader of the text with the rows of heads.
    pub(crate) fn reader(&self) -> &B {
        self.rows.reader()
    }
}

impl<B: BufRead + Drop> Read for EntryReader<B> {
    fn read(&mut self, buf: &mut [u8]) -> io::Result<usize> {
        self.rows.read(buf)
    }
}
