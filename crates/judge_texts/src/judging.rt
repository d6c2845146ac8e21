//! Judges an audit text that is read row by row, on the line of a rack that its header names.

ghost use Rattle.std.specs.Prelude.{◌≡◌, None, All, IfSome, OnOk, [], Err};
ghost use Rattle.dp_line.specs.World.{description_of, opening_fault};
ghost use Rattle.rack_file.specs.RackFile.{rack_in};
ghost use Rattle.rack_file.specs.Rack.{rack_described};
ghost use Rattle.dp_audit.specs.declared.fault.AuditFault.{AuditFault as Fault};
ghost use Rattle.explain_texts.specs.TextRows.{known_text, octets_read};
ghost use Rattle.judge_texts.specs.Judging.{judged_by, judged_on};
ghost use Rattle.judge_texts.specs.RowsJudged.{JudgesRows};
ghost use Rattle.judge_texts.specs.Runs.{DecidesJudgement, RunsJudge};

use crate::choice::JudgeChoice;
use crate::rows::{end_rows, judge_rows};
use dp_audit::AuditFault;
use explain_texts::{ExplainFault, RowsFault, TextRows};
use judge_findings::LineJudge;
use rack_file::laws::accepted_lines_can_be_opened;
use rack_file::{Rack, RackFault, read_rack};
use rack_script::{RunFault, line_named};
use std::alloc::Global;
use std::io::{BufRead, Write};

/// Judges the masters of an audit text, on the line of the rack that its header names. Writes the findings of each entry,
/// up to the first line of the text that is wrong, a summary, and the verdict on the text. Returns the exit status: 0 if
/// the text is legal and no rule whose severity is error was broken, else 1. What JUnit XML contains is open.
///
/// The rows are read one after another, up to the first wrong one; the first row may have been read before. It takes the
/// memory of one line, of its judges, and of one row.
///
/// Returns `Rack` if the rack isn't accepted, and then nothing is written. `OutOfMemory`, `WriteFault`, `CannotRead` if a
/// read fails, and `NotText` if the first wrong row is not UTF-8, leave a prefix of the output. It never returns `Script`.
pub fn run_judge<R: BufRead, W: Write>(
    alloc: Global,
    rack: &str,
    rows: &mut TextRows<R>,
    choice: &JudgeChoice<'_>,
    writer: &mut W,
) -> Result<u8, RunFault>
    requires { rows.old.text.past ≡ [] }
    ensures judged { RunsJudge (rack_in rack.now) rows.new.text choice.now (W.contents writer.old) (W.contents writer.new) result }
    ensures decided { OnOk result (IfSome (known_text rows.old.text (R.remaining rows.old.reader)) (DecidesJudgement (rack_in rack.now) choice.now (octets_read rows.new.text))) }
{
    accepted_lines_can_be_opened();
    match read_rack(alloc, rack) {
        Ok(rack) => match judge_on(alloc, &rack, rows, choice, writer) {
            Ok(status) => Ok(status),
            Err(fault) => Err(RunFault::of_rows(fault)),
        },
        Err(RackFault::OutOfMemory) => Err(RunFault::OutOfMemory),
        Err(fault) => Err(RunFault::Rack(fault)),
    }
}

/// Judges an audit text on the line of the rack that its header names. If it names none, its first line is bad.
fn judge_on<R: BufRead, W: Write>(
    alloc: Global,
    rack: &Rack,
    rows: &mut TextRows<R>,
    choice: &JudgeChoice<'_>,
    writer: &mut W,
) -> Result<u8, RowsFault>
    requires opens { All (λ line. opening_fault (description_of line.spec) ≡ None) rack.now.lines.items }
    requires first { rows.old.text.past ≡ [] }
    ensures judged { JudgesRows (judged_on choice.now (rack_described rack.now) (octets_read rows.new.text)) rows.new.text.row (W.contents writer.old) (W.contents writer.new) result }
    ensures decided { OnOk result (IfSome (known_text rows.old.text (R.remaining rows.old.reader))
        (λ text. judged_on choice.now (rack_described rack.now) text ≡ judged_on choice.now (rack_described rack.now) (octets_read rows.new.text))) }
{
    match rows.complete_row() {
        Ok(_) => {}
        Err(fault) => return Err(RowsFault::Read(fault)),
    }
    match line_named(&rack.lines, rows.row()) {
        Some(line) => judge_rows(alloc, &line.spec, rows, choice, writer),
        None => judge_no_line(alloc, rows.row(), choice, writer),
    }
}

/// Judges an audit text that names no line, whose first row is `row`: its first line is bad.
fn judge_no_line<W: Write>(
    alloc: Global,
    row: &[u8],
    choice: &JudgeChoice<'_>,
    writer: &mut W,
) -> Result<u8, RowsFault>
    ensures { JudgesRows (judged_by choice.now [] [] (Err (Fault.BadLine 1))) row.now (W.contents writer.old) (W.contents writer.new) result }
{
    let Ok(judge) = LineJudge::new(alloc, &[], choice.retries) else {
        return Err(RowsFault::Explain(ExplainFault::OutOfMemory));
    };
    let mut buffer = String::new(alloc);
    end_rows(
        &judge,
        Err(AuditFault::BadLine(1)),
        row,
        choice,
        &mut buffer,
        writer,
    )
}
