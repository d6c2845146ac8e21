//! A writer that knows what the whole call writes.

use std::io::{self, ErrorKind, Write};
use std::sync::atomic::AtomicU64;
use std::sync::atomic::Ordering::SeqCst;

/// What was written.
#[derive(Drop)]
pub(crate) struct Written {
    /// The number of octets that were the next ones of the whole.
    taken: AtomicU64,
    /// The number of pieces that were not.
    wrong: AtomicU64,
}

impl Written {
    /// Returns a record of nothing written yet.
    pub(crate) fn nothing() -> Written {
        Written {
            taken: AtomicU64::new(0),
            wrong: AtomicU64::new(0),
        }
    }

    /// Returns whether what was written is the beginning of the whole.
    pub(crate) fn is_beginning(&self) -> bool {
        self.wrong.load(SeqCst) == 0
    }

    /// Returns whether what was written is the whole.
    pub(crate) fn is_whole(&self, whole: &[u8]) -> bool {
        self.is_beginning() && self.taken.load(SeqCst) == whole.len() as u64
    }
}

/// A writer that accepts the octets of the whole in their order, and no others.
#[derive(Drop)]
pub(crate) struct Expecting<'a> {
    /// The octets that are still expected.
    left: &'a [u8],
    written: &'a Written,
}

impl<'a> Expecting<'a> {
    /// Returns a writer for this whole, which records what is written.
    pub(crate) fn new(whole: &'a [u8], written: &'a Written) -> Expecting<'a> {
        Expecting {
            left: whole,
            written,
        }
    }
}

impl Write for Expecting<'_> {
    fn write(&mut self, buf: &[u8]) -> io::Result<usize> {
        match self.left.strip_prefix(buf) {
            Some(left) => {
                self.left = left;
                self.written.taken.fetch_add(buf.len() as u64, SeqCst);
                Ok(buf.len())
            }
            None => {
                self.written.wrong.fetch_add(1, SeqCst);
                Err(ErrorKind::InvalidData.into())
            }
        }
    }

    fn flush(&mut self) -> io::Result<()> {
        Ok(())
    }
}
