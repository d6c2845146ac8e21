//! The rows of an endless audit text without those of heads, as a reader gives them.

ghost use Rattle.std.specs.Prelude.{◌≡◌, ◌++◌, [], OnOk, is_some, option_map, true};
ghost use Rattle.std.specs.Io.{StopsAt};
ghost use Rattle.std.specs.Io.KnownBytes.{IsAtEnd, Keeps};
ghost use Rattle.audit_parts.specs.EntryText.{entries_given};
ghost use Rattle.audit_parts.specs.Filtering.{still_given, waiting_of};

use crate::entry_filter::EntryFilter;
use crate::parts_check::PartsCheck;
use std::alloc::Global;
use std::io::{self, BufRead, ErrorKind, Read};
use std::snapshot::Snapshot;

/// A reader of an audit text without the rows of heads, for callers that take the rows of entries.
///
/// It checks each row of a text in parts, and so each head. What it gives is the text `entries_given` of what its reader has,
/// if that is known: the row of each entry as it is, in order, and nothing of a head. It replaces a row that is not what the
/// policy gives by [`NOT_THE_POLICY`](crate::NOT_THE_POLICY), and appends the beginning of a row to a text that ends within a
/// head. So a check of the rows that it gives finds the fault that a check of the parts finds, with its number: tests show
/// that, and no law says it.
///
/// A read that fails loses nothing: the next one goes on. It takes memory for two rows, and what [`PartsCheck`] takes.
#[derive(Drop)]
pub struct EntryRows<R: BufRead + Drop> {
    reader: R,
    filter: EntryFilter,
    /// The reader at first: what is given is known if it is known what it had then.
    opened: Snapshot<R>,
    ghost one: { StopsAt filter.row.items 10 },
    ghost known: { is_some (R.remaining opened.value) ≡ true → is_some (R.remaining reader) ≡ true },
}

impl<R: BufRead + Drop> EntryRows<R> {
    /// Returns the rows of a text, of which the reader has those that were not read. `first` is given before them; `check`
    /// is the check of the parts behind the rows that were read, or None for a text that has no parts.
    pub fn new(alloc: Global, check: Option<PartsCheck>, first: Vec<u8>, reader: R) -> EntryRows<R>
        ensures left { still_given (R.remaining result.opened.value) result.filter (R.remaining result.reader) ≡ option_map (λ text. first.items ++ entries_given check text) (R.remaining reader) }
        ensures reader { result.reader ≡ reader }
    {
        let opened = Snapshot::of(&reader);
        EntryRows {
            reader,
            filter: EntryFilter::new(alloc, check, first),
            opened,
        }
    }

    /// Returns the reader.
    pub fn reader(&self) -> &R
        ensures { result.now ≡ self.now.reader }
    {
        &self.reader
    }

    /// Takes rows up to the next one of which something is given. If nothing waits then, the text has ended.
    fn next_row(&mut self) -> io::Result<()>
        requires { waiting_of self.old.filter ≡ [] }
        ensures opened { self.new.opened ≡ self.old.opened }
        ensures kept { Keeps (still_given (R.remaining self.old.opened.value) self.old.filter (R.remaining self.old.reader)) (still_given (R.remaining self.old.opened.value) self.new.filter (R.remaining self.new.reader)) }
        ensures end { OnOk result (waiting_of self.new.filter ≡ [] → IsAtEnd (still_given (R.remaining self.old.opened.value) self.new.filter (R.remaining self.new.reader))) }
    {
        for _ in 0..u64::MAX {
            self.filter.read_on(&mut self.reader)?;
            if self.filter.take_row()? {
                return Ok(());
            }
        }
        Err(io::Error::from(ErrorKind::Other))
    }
}

impl<R: BufRead + Drop> Read for EntryRows<R> {
    ghost remaining = { λ rows. still_given (R.remaining rows.opened.value) rows.filter (R.remaining rows.reader) };

    fn read(&mut self, buf: &mut [u8]) -> io::Result<usize> {
        if self.filter.is_empty() {
            self.next_row()?;
        }
        Ok(self.filter.hand_on(buf))
    }
}
