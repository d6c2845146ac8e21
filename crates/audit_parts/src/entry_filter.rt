//! The text of entries that is given of the rows of an endless text, row by row.

ghost use Rattle.std.specs.Prelude.{◌≡◌, ◌<◌, ◌++◌, ℕ, List, [], None, Ok, codes, false, true, drop, if◌then◌else◌, length, min, take, IfOk, IfSome, MatchOption, OnErr, OnOk};
ghost use Rattle.std.specs.Io.{StopsAt};
ghost use Rattle.std.specs.Io.KnownBytes.{Keeps, prepend_known};
ghost use Rattle.dp_audit.specs.AuditText.{line_text};
ghost use Rattle.dp_audit.specs.FirstWrong.{HasNoLf};
ghost use Rattle.audit_parts.specs.EntryText.{end_given, row_given};
ghost use Rattle.audit_parts.specs.Filtering.{EndsKnown, EndsRow, given_with, text_given, waiting_of};

use crate::parts_check::PartsCheck;
use dp_audit::AuditFault;
use dp_line::Step;
use dp_text::Text;
use std::alloc::Global;
use std::io::{self, BufRead, ErrorKind};
use std::mem;

/// A row that no line ever gives, since its place is 0; without its LF.
pub const NOT_THE_POLICY: &[u8] = b"0 halt | none | done";

/// [`NOT_THE_POLICY`] with its LF.
const WRONG_ROW: &[u8] = b"0 halt | none | done\n";

/// The beginning of a row.
const BEGUN_ROW: &[u8] = b"0";

/// What is given.
#[derive(Clone, Copy)]
enum Given {
    /// The row that was taken last.
    Row,
    /// [`WRONG_ROW`], in place of a wrong row.
    WrongRow,
    /// [`BEGUN_ROW`], behind a text that ends within a head.
    BegunRow,
}

/// The rows of an endless text that are given, one after another.
#[derive(Drop)]
pub(crate) struct EntryFilter {
    /// The check of the parts; `None` if the text has no parts, and behind a wrong row.
    check: Option<PartsCheck>,
    /// The next row, as far as it was read, with its LF.
    row: Vec<u8>,
    /// The row that was taken last.
    last: Vec<u8>,
    kind: Given,
    /// The number of bytes that were given of what `kind` says.
    given: usize,
    answer: Step,
    buffer: Text,
}

impl EntryFilter {
    /// Returns the filter of a text of which no row was read. `first` is given before it.
    pub(crate) fn new(alloc: Global, check: Option<PartsCheck>, first: Vec<u8>) -> EntryFilter
        ensures check { result.check ≡ check }
        ensures row { result.row.items ≡ [] }
        ensures first { waiting_of result ≡ first.items }
    {
        EntryFilter {
            check,
            row: Vec::new(alloc),
            last: first,
            kind: Given::Row,
            given: 0,
            answer: Step::blank(),
            buffer: Text::new(),
        }
    }

    /// Returns whether nothing waits to be given.
    pub(crate) fn is_empty(&self) -> bool
        ensures none { result ≡ true → waiting_of self.now ≡ [] }
        ensures some { result ≡ false → 0 < length (waiting_of self.now) }
    {
        self.given >= given_text(self.kind, self.last.as_slice()).len()
    }

    /// Copies bytes that wait to `buf`, as many as it takes. Returns their number.
    pub(crate) fn hand_on(&mut self, buf: &mut [u8]) -> usize
        ensures check { self.new.check ≡ self.old.check }
        ensures row { self.new.row ≡ self.old.row }
        ensures waiting { waiting_of self.new ≡ drop result (waiting_of self.old) }
        ensures count { result ≡ min (length (waiting_of self.old)) (length buf.new) }
        ensures bytes { take result buf.new ≡ take result (waiting_of self.old) }
    {
        let text = given_text(self.kind, self.last.as_slice());
        if self.given >= text.len() {
            return 0;
        }
        let (_, waiting) = text.split_at(self.given);
        let count = waiting.len().min(buf.len());
        buf[..count].copy_from_slice(&waiting[..count]);
        self.given += count;
        count
    }

    /// Reads on to the end of the next row, or of what the reader has. Returns the error of a read that fails; what was read
    /// before belongs to the row then.
    pub(crate) fn read_on<R: BufRead>(&mut self, reader: &mut R) -> io::Result<()>
        requires { StopsAt self.old.row.items 10 }
        ensures one { StopsAt self.new.row.items 10 }
        ensures check { self.new.check ≡ self.old.check }
        ensures waiting { waiting_of self.new ≡ waiting_of self.old }
        ensures kept { Keeps (prepend_known self.old.row.items (R.remaining reader.old)) (prepend_known self.new.row.items (R.remaining reader.new)) }
        ensures end { OnOk result (EndsKnown (R.remaining reader.old) (R.remaining reader.new) self.new.row.items) }
    {
        let None = without_lf(self.row.as_slice()) else {
            return Ok(());
        };
        match reader.read_until(b'\n', &mut self.row) {
            Ok(_) => Ok(()),
            Err(error) => Err(error),
        }
    }

    /// Takes the row that was read, or what follows the last LF of the text. Returns false if it is a row of a head, of which
    /// nothing is given. If it returns true and nothing waits, the text has ended.
    ///
    /// Returns `OutOfMemory` at the header of a part only, and takes nothing then.
    pub(crate) fn take_row(&mut self) -> io::Result<bool>
        requires none { waiting_of self.old ≡ [] }
        requires one { StopsAt self.old.row.items 10 }
        ensures one { StopsAt self.new.row.items 10 }
        ensures given { (behind : List ℕ) → EndsRow self.old.row.items behind → given_with self.new behind ≡ given_with self.old behind }
        ensures end { (behind : List ℕ) → EndsRow self.old.row.items behind → result ≡ Ok true → waiting_of self.new ≡ [] → given_with self.new behind ≡ [] }
        ensures head { result ≡ Ok false → waiting_of self.new ≡ [] }
    {
        let Some(row) = without_lf(self.row.as_slice()) else {
            self.take_end();
            return Ok(true);
        };
        match given_of(&mut self.check, row, &mut self.answer, &mut self.buffer)? {
            Some(kind) => {
                self.give(kind);
                Ok(true)
            }
            None => {
                self.row.clear();
                Ok(false)
            }
        }
    }

    /// Takes what follows the last LF of the text.
    fn take_end(&mut self)
        requires none { waiting_of self.old ≡ [] }
        ensures given { waiting_of self.new ++ end_given self.new.check ≡ self.old.row.items ++ end_given self.old.check }
        ensures row { self.new.row.items ≡ [] }
        ensures end { waiting_of self.new ≡ [] → end_given self.new.check ≡ [] }
    {
        if !self.row.is_empty() {
            self.give(Given::Row);
        } else if is_cut(&self.check) {
            self.check = None;
            self.give(Given::BegunRow);
        }
    }

    /// Gives this in place of the row that was read.
    fn give(&mut self, kind: Given)
        ensures check { self.new.check ≡ self.old.check }
        ensures row { self.new.row.items ≡ [] }
        ensures waiting { waiting_of self.new ≡ text_given kind self.old.row.items }
    {
        mem::swap(&mut self.row, &mut self.last);
        self.row.clear();
        self.kind = kind;
        self.given = 0;
    }
}

/// Returns what is given, if the row that was taken last is this one.
fn given_text(kind: Given, row: &[u8]) -> &[u8]
    ensures { result.now ≡ text_given kind row.now }
{
    match kind {
        Given::Row => row,
        Given::WrongRow => WRONG_ROW,
        Given::BegunRow => BEGUN_ROW,
    }
}

/// Returns a row without its LF, or `None` if it has none.
fn without_lf(row: &[u8]) -> Option<&[u8]>
    ensures whole { IfSome result (λ front. row.now ≡ line_text front.now) }
    ensures no_lf { StopsAt row.now 10 → MatchOption result (HasNoLf row.now) (λ front. HasNoLf front.now) }
{
    let count = row.len();
    if count == 0 {
        return None;
    }
    let (front, last) = row.split_at(count - 1);
    if last[0] == b'\n' { Some(front) } else { None }
}

/// Takes a whole row, without its LF, and returns what is given of it, or `None` if it is a row of a head.
fn given_of(
    check: &mut Option<PartsCheck>,
    row: &[u8],
    answer: &mut Step,
    buffer: &mut Text,
) -> io::Result<Option<Given>>
    ensures some { IfOk result (λ given. IfSome given (λ kind. row_given check.old row.now ≡ (text_given kind (line_text row.now), check.new))) }
    ensures none { result ≡ Ok None → row_given check.old row.now ≡ ([], check.new) }
    ensures err { OnErr result (check.new ≡ check.old) }
{
    let Some(parts) = check else {
        return Ok(Some(Given::Row));
    };
    match parts.take_row(row, answer, buffer) {
        Ok(Some(_)) => Ok(Some(Given::Row)),
        Ok(None) => Ok(None),
        Err(AuditFault::BadLine(_)) => {
            *check = None;
            Ok(Some(Given::Row))
        }
        Err(AuditFault::NotThePolicy(_)) => {
            *check = None;
            Ok(Some(Given::WrongRow))
        }
        Err(AuditFault::OutOfMemory) => Err(io::Error::from(ErrorKind::OutOfMemory)),
    }
}

/// Returns whether a text that ends here ends within a head.
fn is_cut(check: &Option<PartsCheck>) -> bool
    ensures { end_given check.now ≡ (if result then codes "0" else []) }
{
    match check {
        Some(parts) => parts.end(b"").is_err(),
        None => false,
    }
}
