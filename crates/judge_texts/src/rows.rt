//! Judges the rows of an audit text of a line, one after another.

ghost use Rattle.std.specs.Prelude.{◌≡◌, Err, None, true, false, [], OnOk, IfSome};
ghost use Rattle.dp_line.specs.World.{description_of, opening_fault};
ghost use Rattle.dp_audit.specs.Check.{places_of_header};
ghost use Rattle.explain_texts.specs.Followed.{verdict_by};
ghost use Rattle.explain_texts.specs.Known.{first_world};
ghost use Rattle.explain_texts.specs.TextRows.{Begins, known_text, octets_read};
ghost use Rattle.judge_findings.specs.Lines.{first_line_judge};
ghost use Rattle.judge_texts.specs.Judging.{judged, judged_by, judged_masters};
ghost use Rattle.judge_texts.specs.RowsJudged.{DecidesJudged, JudgesEntries, JudgesRows};

use crate::choice::JudgeChoice;
use crate::ending::write_end;
use crate::events::judge_event;
use dp_audit::{AuditFault, is_header_of, open_line, take_row};
use dp_line::{LineSpec, LineState, Step};
use dp_text::Text;
use explain_texts::{ExplainFault, ReadFault, RowsFault, TextRows, readable};
use judge_findings::LineJudge;
use std::alloc::Global;
use std::io::{BufRead, Write};

/// Judges the masters of an audit text of a line that can be opened. Only its first row was read; the rows behind it are
/// read one after another, up to the first wrong one. Writes the findings of each entry before it, a summary, and the
/// verdict on the text. Returns the exit status: 0 if the text is legal and no rule whose severity is error was broken,
/// else 1.
///
/// Returns `OutOfMemory` if memory runs out, `CannotRead` if a read fails, `NotText` if the first wrong row is not UTF-8,
/// `WriteFault` if a write fails; each leaves a prefix of the output.
pub(crate) fn judge_rows<R: BufRead, W: Write>(
    alloc: Global,
    line: &LineSpec,
    rows: &mut TextRows<R>,
    choice: &JudgeChoice<'_>,
    writer: &mut W,
) -> Result<u8, RowsFault>
    requires opens { opening_fault (description_of line.now) ≡ None }
    requires first { rows.old.text.past ≡ [] }
    ensures judged { JudgesRows (judged choice.now (description_of line.now) (octets_read rows.new.text)) rows.new.text.row (W.contents writer.old) (W.contents writer.new) result }
    ensures decided { rows.old.text.whole ≡ true → OnOk result (IfSome (known_text rows.old.text (R.remaining rows.old.reader)) (DecidesJudged choice.now (description_of line.now) (octets_read rows.new.text))) }
    ensures unread { rows.old.text.whole ≡ false → rows.new.text ≡ rows.old.text }
    ensures begins { Begins (octets_read rows.old.text) (octets_read rows.new.text) }
{
    let Ok(header) = std::str::from_utf8(rows.row()) else {
        return Err(RowsFault::Read(ReadFault::NotText));
    };
    let Ok(mut state) = open_line(alloc, line, header) else {
        return Err(RowsFault::Explain(ExplainFault::OutOfMemory));
    };
    let masters = judged_of(choice, line.masters.as_slice());
    let Ok(mut judge) = LineJudge::new(alloc, masters, choice.retries) else {
        return Err(RowsFault::Explain(ExplainFault::OutOfMemory));
    };
    let mut buffer = String::new(alloc);
    match judge_entries(
        &mut state,
        &mut judge,
        line,
        rows,
        choice,
        &mut buffer,
        writer,
    ) {
        Ok(verdict) => end_rows(&judge, verdict, rows.row(), choice, &mut buffer, writer),
        Err(fault) => Err(fault),
    }
}

/// Returns the masters that are judged, of a line with these masters.
fn judged_of<'a>(choice: &'a JudgeChoice<'_>, masters: &'a [u8]) -> &'a [u8]
    ensures { result.now ≡ judged_masters choice.now.master masters.now }
{
    match &choice.master {
        Some(master) => std::slice::from_ref(master),
        None => masters,
    }
}

/// Judges the rows behind the header, up to the first wrong one, and writes their findings. Returns the verdict on the
/// text.
fn judge_entries<R: BufRead, W: Write>(
    state: &mut LineState,
    judge: &mut LineJudge,
    line: &LineSpec,
    rows: &mut TextRows<R>,
    choice: &JudgeChoice<'_>,
    buffer: &mut String,
    writer: &mut W,
) -> Result<Result<u32, AuditFault>, RowsFault>
    requires opened { state.old.world ≡ first_world (description_of line.now) (places_of_header (description_of line.now) rows.old.text.row) }
    requires unused { judge.old ≡ first_line_judge (judged_masters choice.now.master (description_of line.now).masters) choice.now.retries }
    requires first { rows.old.text.past ≡ [] }
    ensures judged { JudgesEntries choice.now (description_of line.now) (octets_read rows.new.text) judge.new (W.contents writer.old) (W.contents writer.new) result }
    ensures decided { rows.old.text.whole ≡ true → OnOk result (IfSome (known_text rows.old.text (R.remaining rows.old.reader)) (DecidesJudged choice.now (description_of line.now) (octets_read rows.new.text))) }
    ensures unread { rows.old.text.whole ≡ false → rows.new.text ≡ rows.old.text }
    ensures begins { Begins (octets_read rows.old.text) (octets_read rows.new.text) }
{
    if !rows.is_whole() {
        return Ok(Err(AuditFault::BadLine(1)));
    }
    if !is_header_of(rows.row(), line) {
        return Ok(Err(AuditFault::BadLine(1)));
    }
    let mut answer = Step::blank();
    let mut written = Text::new();
    loop {
        let count = state.count();
        match rows.read_row() {
            Ok(true) => {}
            Ok(false) => return Ok(verdict_at_end(count, rows.row())),
            Err(fault) => return Err(RowsFault::Read(fault)),
        }
        let place = u64::from(count) + 1;
        match take_row(state, rows.row(), &mut answer, &mut written) {
            Ok(event) => {
                let outcome = &answer.outcome;
                match judge_event(judge, place, &event, outcome, choice, buffer, writer) {
                    Ok(()) => {}
                    Err(fault) => return Err(RowsFault::Explain(fault)),
                }
            }
            Err(fault) => return Ok(Err(fault)),
        }
    }
}

/// Returns the verdict on a text of this many right entries, with this text behind the last LF.
fn verdict_at_end(count: u32, last: &[u8]) -> Result<u32, AuditFault>
    ensures { result ≡ verdict_by None count last.now }
{
    if last.is_empty() {
        Ok(count)
    } else {
        Err(AuditFault::BadLine(u64::from(count) + 2))
    }
}

/// Writes what follows the findings of a text with this verdict, whose last row is `row`. Returns the exit status, or
/// `NotText` if the text is not legal and the row is not UTF-8; then nothing is written.
pub(crate) fn end_rows<W: Write>(
    judge: &LineJudge,
    verdict: Result<u32, AuditFault>,
    row: &[u8],
    choice: &JudgeChoice<'_>,
    buffer: &mut String,
    writer: &mut W,
) -> Result<u8, RowsFault>
    ensures { JudgesRows (judged_by choice.now [] judge.now.seats verdict) row.now (W.contents writer.old) (W.contents writer.new) result }
{
    match readable(verdict, row) {
        Ok(_) => {}
        Err(fault) => return Err(RowsFault::Read(fault)),
    }
    match write_end(judge, verdict, choice, buffer, writer) {
        Ok(status) => Ok(status),
        Err(fault) => Err(RowsFault::Explain(fault)),
    }
}
