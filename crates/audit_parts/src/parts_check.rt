//! The check of an endless audit text, row by row.

ghost use Rattle.std.specs.Prelude.{◌≡◌, ◌≢◌, ◌≤◌, [], is_some, drop, length, None, true, Ok, Err, IfOk, IfErr, OnOk, Some};
ghost use Rattle.dp_line.specs.World.{description_of, opening_fault};
ghost use Rattle.dp_audit.specs.Check.{judged_line};
ghost use Rattle.audit_parts.specs.Parts.{begins_head, end_checked, entry_taken, parts_begun, parts_checked, row_taken, rows_checked};

use crate::beginning;
use crate::head_rows::HeadRows;
use dp_audit::{AuditFault, take_row, time_after};
use dp_line::{Event, LineSpec, LineState, Step};
use dp_text::{Lines, Text};
use std::alloc::Global;
use std::marker::Model;

/// The check of an endless audit text, row by row. Contracts see what it knows behind the rows so far.
///
/// It takes memory for one line, and for one head if a text has several parts: at most 733,960 octets.
#[derive(Drop)]
pub struct PartsCheck {
    /// The line behind the entries so far.
    state: LineState,
    /// The sum of the ticks so far, in units of 10 ms; `None` before the first tick.
    time: Option<u64>,
    /// The number of the line.
    line: u8,
    /// The rows of heads.
    heads: HeadRows,
}

impl Model for PartsCheck {
    ghost use Rattle.audit_parts.specs.Parts.{PartsView, check_of};

    ghost Value = { PartsView };

    ghost view = { λ c. check_of c.line (record { world = c.state.world; time = c.time }) c.heads };
}

impl PartsCheck {
    /// Begins the check of a text, which begins with the header of an endless line's text or with the head of a later part.
    /// Returns the check behind these rows, and the text that is left. `buffer` is a buffer. Requires that a line can be
    /// opened from the description.
    ///
    /// Otherwise returns `BadLine` with the first row that is none of a head of the line, or `NotThePolicy` with the row of
    /// a head that says what no line can be: the first row of a slave, row 1 if two slaves were locked at one place, row 2
    /// for the count; or `OutOfMemory`.
    pub fn begin<'a>(
        alloc: Global,
        line: &LineSpec,
        text: &'a [u8],
        buffer: &mut Text,
    ) -> Result<(PartsCheck, &'a [u8]), AuditFault>
        requires { opening_fault (description_of line.now) ≡ None }
        ensures ok { IfOk result (λ begun. parts_begun (description_of line.now) text.now ≡ Ok (begun.0, begun.1.now)) }
        ensures err { IfErr result (λ fault. fault ≢ AuditFault.OutOfMemory → parts_begun (description_of line.now) text.now ≡ Err fault) }
    {
        beginning::begin(alloc, line, text, buffer)
    }

    /// Returns the check behind the beginning of a text, before its first entry.
    pub(crate) fn behind_beginning(
        alloc: Global,
        state: LineState,
        time: Option<u64>,
        line: u8,
    ) -> PartsCheck
        ensures { result ≡ record { line = line; head = record { world = state.world; time = time }; awaited = [] } }
    {
        PartsCheck {
            state,
            time,
            line,
            heads: HeadRows::new(alloc),
        }
    }

    /// Takes the next row of the text, without its LF. Returns its event if it is an entry, and `None` if it is a row of a head.
    /// `answer` gets the answer of the line to the event; `buffer` is a buffer.
    ///
    /// Otherwise returns the fault of the row: `BadLine` if it is badly formed, `NotThePolicy` if it is another than the
    /// policy gives, or not the row of the head that is due; or `OutOfMemory`, at the header of a part only. The number of
    /// a row does not count those of heads: the entry of place P has row P + 1, and a row of a head has the number of the
    /// next entry's. After `OutOfMemory` the check is unchanged, and after another fault it is of no use.
    #[tactic(auto, using(crate::proofs::Taking::of_head, crate::proofs::Taking::of_entry, crate::proofs::Taking::entry_keeps))]
    pub fn take_row(
        &mut self,
        row: &[u8],
        answer: &mut Step,
        buffer: &mut Text,
    ) -> Result<Option<Event>, AuditFault>
        ensures ok { IfOk result (λ event. row_taken self.old row.now ≡ Ok (self.new, event)) }
        ensures err { IfErr result (λ fault. fault ≢ AuditFault.OutOfMemory → row_taken self.old row.now ≡ Err fault) }
        ensures memory { IfErr result (λ fault. fault ≡ AuditFault.OutOfMemory → begins_head self.old row.now ≡ true) }
        ensures unchanged { result ≡ Err AuditFault.OutOfMemory → self.new ≡ self.old }
    {
        match self
            .heads
            .take_row(self.line, &self.state, self.time, row, buffer)
        {
            Ok(true) => Ok(None),
            Ok(false) => self.take_entry(row, answer, buffer),
            Err(fault) => Err(fault),
        }
    }

    /// Takes the row of an entry.
    #[tactic(auto, using(crate::proofs::Taking::entry_right, crate::proofs::Taking::entry_wrong))]
    fn take_entry(
        &mut self,
        row: &[u8],
        answer: &mut Step,
        buffer: &mut Text,
    ) -> Result<Option<Event>, AuditFault>
        ensures ok { IfOk result (λ event. entry_taken self.old (judged_line self.old.head.world row.now) ≡ Ok (self.new, event)) }
        ensures err { IfErr result (λ fault. entry_taken self.old (judged_line self.old.head.world row.now) ≡ Err fault) }
    {
        match take_row(&mut self.state, row, answer, buffer) {
            Ok(event) => {
                self.time = time_after(self.time, &event);
                Ok(Some(event))
            }
            Err(fault) => Err(fault),
        }
    }

    /// Checks what follows the last LF of the text. Returns the place of the last entry, or `BadLine` if there is something,
    /// or if a head lacks rows.
    pub fn end(&self, last: &[u8]) -> Result<u32, AuditFault>
        ensures { result ≡ end_checked self.now last.now }
    {
        if last.is_empty() && self.heads.is_between() {
            Ok(self.state.count())
        } else {
            Err(AuditFault::BadLine(u64::from(self.state.count()) + 2))
        }
    }
}

/// Checks an endless audit text from one of its parts on: the text of a part, or of several in a row. Returns the place of
/// its last entry. Requires that a line can be opened from the description.
///
/// Otherwise returns the fault of the first wrong row, as [`PartsCheck`] does, or `OutOfMemory`.
#[tactic(auto, unfolding(crate::specs::Parts::parts_checked))]
pub fn check_parts(alloc: Global, line: &LineSpec, text: &[u8]) -> Result<u32, AuditFault>
    requires { opening_fault (description_of line.now) ≡ None }
    ensures ok { IfOk result (λ place. parts_checked (description_of line.now) text.now ≡ Ok place) }
    ensures err { IfErr result (λ fault. fault ≢ AuditFault.OutOfMemory → parts_checked (description_of line.now) text.now ≡ Err fault) }
{
    let mut buffer = Text::new();
    let (mut check, rest) = match PartsCheck::begin(alloc, line, text, &mut buffer) {
        Ok(begun) => begun,
        Err(fault) => return Err(fault),
    };
    check_rows(&mut check, &mut Lines::new(rest), &mut buffer)
}

/// Checks the rows that are left of a text.
fn check_rows(
    check: &mut PartsCheck,
    rows: &mut Lines<'_>,
    buffer: &mut Text,
) -> Result<u32, AuditFault>
    ensures ok { IfOk result (λ place. rows_checked check.old rows.old ≡ Ok place) }
    ensures err { IfErr result (λ fault. fault ≢ AuditFault.OutOfMemory → rows_checked check.old rows.old ≡ Err fault) }
{
    let mut answer = Step::blank();
    let Some(first) = rows.next() else {
        return check.end(b"");
    };
    let mut row = first;
    while let Some(next) = rows.next() {
        check.take_row(row, &mut answer, buffer)?;
        row = next;
    }
    check.end(row)
}
