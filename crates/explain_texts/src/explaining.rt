//! The explanation of an audit text that is read row by row, from its header or from a later entry on.
//!
//! The rows of the text are followed one after another, and each is checked before its entry is explained, so the
//! explanation of a text that isn't legal stops where the check does. One pass goes over the text. The holds that ended
//! are stored meanwhile, because they are reported after the last entry.
//!
//! The summary is always of the whole text, whatever is chosen: someone who asks for the entries of one slave sees
//! its holds there.

ghost use Rattle.std.specs.Prelude.{◌≡◌, true, false, ◌∷◌, [], None, unwrap_or, is_err, IfOk, IfSome, OnOk};
ghost use Rattle.std.specs.Io.KnownBytes.{Keeps};
ghost use Rattle.dp_line.specs.World.{description_of, opening_fault};
ghost use Rattle.dp_audit.specs.Check.{checked};
ghost use Rattle.explain_texts.specs.Explained.{explained};
ghost use Rattle.explain_texts.specs.Followed.{ending_facts, first_follower};
ghost use Rattle.explain_texts.specs.FollowedText.{FollowsEntries, FollowsText};
ghost use Rattle.explain_texts.specs.TextRows.{Begins, known_text, octets_read};
ghost use Rattle.explain_texts.specs.ExplainedRows.{Decides, ExplainsRows};
ghost use Rattle.explain_texts.specs.Entries.{is_between_rows, ExplainsEntries};

use crate::choice::Choice;
use crate::ended_holds::EndedHolds;
use crate::explain::report_end;
use crate::follow_fault::FollowFault;
use crate::follower::Follower;
use crate::read_fault::ReadFault;
use crate::rows_fault::RowsFault;
use crate::takes_facts::TakesFacts;
use crate::text_rows::TextRows;
use crate::verdict::{Verdict, readable, verdict_at_end};
use dp_audit::{AuditFault, is_header_of};
use dp_line::LineSpec;
use std::alloc::Global;
use std::io::BufRead;

/// Explains an audit text of a line that can be opened. Only its first row was read; the rows behind it are read one after
/// another, up to the first wrong one. Reports each chosen entry, up to the first row of the text that differs from what
/// the line would have written, then a summary, and then the verdict. Returns the exit status: 0 if the text is legal,
/// else 1.
///
/// It takes memory for two lines, for the counts of 128 addresses, for one row of the text, and for each hold. Returns
/// `OutOfMemory` if memory runs out, `CannotRead` if a read fails, `NotText` if the first wrong row is not UTF-8, or a fault
/// of the receiver; each leaves a first part of the facts.
pub fn explain_rows<R: BufRead, T: TakesFacts>(
    alloc: Global,
    line: &LineSpec,
    rows: &mut TextRows<R>,
    choice: &Choice,
    receiver: &mut T,
) -> Result<u8, RowsFault>
    requires opens { opening_fault (description_of line.now) ≡ None }
    requires first { rows.old.text.past ≡ [] }
    ensures explained { ExplainsRows T.takes (checked (description_of line.now) (octets_read rows.new.text)) rows.new.text.row (explained (description_of line.now) (octets_read rows.new.text) choice.now) receiver.old receiver.new result }
    ensures decided { rows.old.text.whole ≡ true → OnOk result (IfSome (known_text rows.old.text (R.remaining rows.old.reader)) (Decides (description_of line.now) (octets_read rows.new.text))) }
    ensures unread { rows.old.text.whole ≡ false → rows.new.text ≡ rows.old.text }
    ensures begins { Begins (octets_read rows.old.text) (octets_read rows.new.text) }
{
    let Ok(header) = std::str::from_utf8(rows.row()) else {
        return Err(RowsFault::Read(ReadFault::NotText));
    };
    let mut follower = match Follower::open(alloc, line, header) {
        Ok(follower) => follower,
        Err(fault) => return Err(RowsFault::Explain(fault)),
    };
    let mut ended = EndedHolds::stored(alloc);
    match follow_text(&mut follower, line, rows, choice, &mut ended, receiver) {
        Ok(verdict) => end_rows(&mut follower, line, &ended, verdict, rows.row(), receiver),
        Err(fault) => Err(fault),
    }
}

/// Explains rows of entries from a follower on that has taken all entries before them, or was opened behind a head. The
/// current row is whole, or nothing of it was read. Reads the rows behind it one after another, up to the first wrong one,
/// and reports each chosen entry, a summary and the verdict, as [`explain_rows`] does. Returns the exit status.
/// The summary has the holds that ended in these rows, and counts all entries that the follower has taken.
///
/// It counts the holds that last to the end, so don't use the follower after it. The faults are those of [`explain_rows`].
pub fn explain_entries<R: BufRead, T: TakesFacts>(
    follower: &mut Follower<'_>,
    line: &LineSpec,
    rows: &mut TextRows<R>,
    choice: &Choice,
    receiver: &mut T,
) -> Result<u8, RowsFault>
    requires right { follower.old.fault ≡ None }
    requires between { is_between_rows rows.old.text ≡ true }
    ensures { ExplainsEntries T.takes choice.now (description_of line.now) follower.old rows.old.text rows.new.text receiver.old receiver.new result }
{
    let mut ended = follower.stored_holds();
    match follow_entries(follower, rows, choice, &mut ended, receiver) {
        Ok(verdict) => end_rows(follower, line, &ended, verdict, rows.row(), receiver),
        Err(fault) => Err(fault),
    }
}

/// Follows the rows of a text, until the first wrong one, and stores the holds that they ended. Returns the verdict on
/// the text.
fn follow_text<R: BufRead, T: TakesFacts>(
    follower: &mut Follower<'_>,
    line: &LineSpec,
    rows: &mut TextRows<R>,
    choice: &Choice,
    ended: &mut EndedHolds,
    receiver: &mut T,
) -> Result<Verdict, RowsFault>
    requires opened { follower.old ≡ first_follower (description_of line.now) (rows.old.text.row ∷ []) }
    requires first { rows.old.text.past ≡ [] }
    ensures followed { FollowsText T.takes choice.now (description_of line.now) (octets_read rows.new.text) follower.new ended.old ended.new receiver.old receiver.new result }
    ensures decided { rows.old.text.whole ≡ true → OnOk result (IfSome (known_text rows.old.text (R.remaining rows.old.reader)) (Decides (description_of line.now) (octets_read rows.new.text))) }
    ensures unread { rows.old.text.whole ≡ false → rows.new.text ≡ rows.old.text }
    ensures begins { Begins (octets_read rows.old.text) (octets_read rows.new.text) }
{
    if !rows.is_whole() {
        return Ok(Err(AuditFault::BadLine(1)));
    }
    if !is_header_of(rows.row(), line) {
        return Ok(Err(AuditFault::BadLine(1)));
    }
    follow_entries(follower, rows, choice, ended, receiver)
}

/// Follows the rows behind those that were read, until the first wrong one, and stores the holds that they ended. Returns
/// the verdict on them.
fn follow_entries<R: BufRead, T: TakesFacts>(
    follower: &mut Follower<'_>,
    rows: &mut TextRows<R>,
    choice: &Choice,
    ended: &mut EndedHolds,
    receiver: &mut T,
) -> Result<Verdict, RowsFault>
    requires right { follower.old.fault ≡ None }
    requires between { is_between_rows rows.old.text ≡ true }
    ensures followed { FollowsEntries T.takes choice.now follower.old rows.old.text rows.new.text follower.new ended.old ended.new receiver.old receiver.new result }
    ensures kept { Keeps (known_text rows.old.text (R.remaining rows.old.reader)) (known_text rows.new.text (R.remaining rows.new.reader)) }
    ensures end { OnOk result (rows.new.text.whole ≡ false → IfSome (known_text rows.old.text (R.remaining rows.old.reader)) (λ text. text ≡ octets_read rows.new.text)) }
    ensures wrong { IfOk result (λ verdict. rows.new.text.whole ≡ true → is_err verdict ≡ true) }
{
    loop {
        let count = follower.count();
        match rows.read_row() {
            Ok(true) => {}
            Ok(false) => return Ok(verdict_at_end(count, rows.row())),
            Err(fault) => return Err(RowsFault::Read(fault)),
        }
        match follower.follow_row(rows.row(), choice, ended, receiver) {
            Ok(()) => {}
            Err(FollowFault::Wrong(fault)) => return Ok(Err(fault)),
            Err(FollowFault::Explain(fault)) => return Err(RowsFault::Explain(fault)),
        }
    }
}

/// Reports what follows the last entry of a text with this verdict, whose last row is `row`. Returns the exit status, or
/// `NotText` if the text is not legal and the row is not UTF-8; then nothing is reported.
fn end_rows<T: TakesFacts>(
    follower: &mut Follower<'_>,
    line: &LineSpec,
    ended: &EndedHolds,
    verdict: Verdict,
    row: &[u8],
    receiver: &mut T,
) -> Result<u8, RowsFault>
    ensures { ExplainsRows T.takes verdict row.now (ending_facts (description_of line.now) (unwrap_or ended.now []) follower.old.known verdict) receiver.old receiver.new result }
{
    match readable(verdict, row) {
        Ok(_) => {}
        Err(fault) => return Err(RowsFault::Read(fault)),
    }
    match report_end(follower, line, ended, verdict, receiver) {
        Ok(status) => Ok(status),
        Err(fault) => Err(RowsFault::Explain(fault)),
    }
}
