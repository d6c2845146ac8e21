//! The check of an audit text on a rack.

ghost use Rattle.std.specs.Prelude.{◌≡◌, ℕ, List, [], Result, Err, None, All, IfErr, IfOk, IfSome, IsOk, OnOk, find, option_copied};
ghost use Rattle.dp_line.specs.World.{description_of, opening_fault};
ghost use Rattle.rack_file.specs.RackFile.{rack_in};
ghost use Rattle.rack_file.specs.Rack.{rack_described};
ghost use Rattle.dp_audit.specs.declared.fault.AuditFault.{AuditFault as Fault};
ghost use Rattle.dp_audit.specs.Check.{is_accepted_header};
ghost use Rattle.explain_texts.specs.Explained.{verdict_status};
ghost use Rattle.explain_texts.specs.ExplainedRows.{Reads};
ghost use Rattle.explain_texts.specs.TextRows.{known_text, octets_read};
ghost use Rattle.rack_script.specs.Checks.{checked_on};
ghost use Rattle.rack_script.specs.Explanations.{DecidesOn, DecidesOnRack};
ghost use Rattle.rack_script.specs.Runs.{Checks, RunsCheck, Reports, ReportsText};

use crate::run_fault::RunFault;
use dp_audit::{AuditFault, is_header_of};
use dp_text::{Text, write_whole};
use explain_texts::{ReadFault, TextRows, check_rows, readable, set_verdict};
use rack_file::laws::accepted_lines_can_be_opened;
use rack_file::{Rack, RackFault, RackLine, read_rack};
use std::alloc::Global;
use std::io::{BufRead, Write};

/// Checks an audit text on the line of the rack that its header names, and writes the verdict: `legal N` with the
/// number of entries, `bad line N` or `not the policy N` with the number of the text line, from 1. Returns the exit
/// status: 0 if the text is legal, else 1.
///
/// The rows are read one after another, up to the first wrong one; the first row may have been read before.
///
/// Returns `Rack` if the rack isn't accepted, `OutOfMemory` if memory runs out, `CannotRead` if a read fails, and `NotText`
/// if the first wrong row is not UTF-8; then nothing is written. `WriteFault` leaves a prefix of the verdict. It never
/// returns `Script`.
pub fn run_check<R: BufRead, W: Write>(
    alloc: Global,
    rack: &str,
    rows: &mut TextRows<R>,
    writer: &mut W,
) -> Result<u8, RunFault>
    requires { rows.old.text.past ≡ [] }
    ensures reported { RunsCheck (rack_in rack.now) rows.new.text (W.contents writer.old) (W.contents writer.new) result }
    ensures decided { OnOk result (IfSome (known_text rows.old.text (R.remaining rows.old.reader)) (DecidesOn (rack_in rack.now) (octets_read rows.new.text))) }
{
    accepted_lines_can_be_opened();
    match read_rack(alloc, rack) {
        Ok(rack) => report_rows(verdict_on(alloc, &rack, rows), writer),
        Err(RackFault::OutOfMemory) => Err(RunFault::OutOfMemory),
        Err(fault) => Err(RunFault::Rack(fault)),
    }
}

/// Returns the verdict on an audit text on a rack, or why it is not known.
fn verdict_on<R: BufRead>(
    alloc: Global,
    rack: &Rack,
    rows: &mut TextRows<R>,
) -> Result<Result<u32, AuditFault>, ReadFault>
    requires opens { All (λ line. opening_fault (description_of line.spec) ≡ None) rack.now.lines.items }
    requires first { rows.old.text.past ≡ [] }
    ensures verdict { Reads (checked_on (rack_described rack.now) (octets_read rows.new.text)) rows.new.text.row result }
    ensures decided { OnOk result (IfSome (known_text rows.old.text (R.remaining rows.old.reader)) (DecidesOnRack (rack_described rack.now) (octets_read rows.new.text))) }
{
    match rows.complete_row() {
        Ok(_) => {}
        Err(fault) => return Err(fault),
    }
    match line_named(&rack.lines, rows.row()) {
        Some(line) => check_rows(alloc, &line.spec, rows),
        None => readable(Err(AuditFault::BadLine(1)), rows.row()),
    }
}

/// Returns the first line that accepts this header; None if there is none.
pub fn line_named<'a>(lines: &'a [RackLine], header: &[u8]) -> Option<&'a RackLine>
    ensures { option_copied result ≡ find (λ line. is_accepted_header (description_of line.spec) header.now) lines.now }
{
    lines.iter().find(|line| is_header_of(header, &line.spec))
}

/// Writes a verdict, if it is known, and returns the exit status; or returns why it is not.
pub(crate) fn report_rows<W: Write>(
    verdict: Result<Result<u32, AuditFault>, ReadFault>,
    writer: &mut W,
) -> Result<u8, RunFault>
    ensures reported { (known : Result ℕ Fault) (row : List ℕ) → Reads known row verdict → Checks known row (W.contents writer.old) (W.contents writer.new) result }
    ensures read { OnOk result (IsOk verdict) }
{
    match verdict {
        Ok(verdict) => report_verdict(verdict, writer),
        Err(fault) => Err(RunFault::of_read(fault)),
    }
}

/// Writes the verdict on an audit text, and returns the exit status: 0 if it is legal, else 1. Returns `OutOfMemory` if
/// that is the verdict, and `WriteFault` if the write fails.
fn report_verdict<W: Write>(
    verdict: Result<u32, AuditFault>,
    writer: &mut W,
) -> Result<u8, RunFault>
    ensures reported { Reports verdict (W.contents writer.old) (W.contents writer.new) result }
    ensures memory { verdict ≡ Err AuditFault.OutOfMemory → result ≡ Err RunFault.OutOfMemory }
{
    let mut text = Text::new();
    set_verdict(&mut text, verdict);
    report_text(text.as_bytes(), verdict, writer)
}

/// Writes the text of a verdict, and returns the exit status: 0 if the verdict is that a text is legal, else 1. Returns
/// `OutOfMemory` if that is the verdict, which has no text, and `WriteFault` if the write fails.
pub(crate) fn report_text<W: Write>(
    text: &[u8],
    verdict: Result<u32, AuditFault>,
    writer: &mut W,
) -> Result<u8, RunFault>
    ensures reported { ReportsText text.now verdict (W.contents writer.old) (W.contents writer.new) result }
    ensures memory { verdict ≡ Err AuditFault.OutOfMemory → result ≡ Err RunFault.OutOfMemory }
{
    let status = match status_of(verdict) {
        Ok(status) => status,
        Err(fault) => return Err(fault),
    };
    match write_whole(writer, text) {
        Ok(()) => Ok(status),
        Err(_) => Err(RunFault::WriteFault),
    }
}

/// Returns the exit status for a verdict: 0 if it is that a text is legal, else 1. Returns `OutOfMemory` if that is the
/// verdict.
pub(crate) fn status_of(verdict: Result<u32, AuditFault>) -> Result<u8, RunFault>
    ensures ok { IfOk result (λ status. status ≡ verdict_status verdict) }
    ensures err { IfErr result (λ fault. fault ≡ RunFault.OutOfMemory) }
    ensures memory { verdict ≡ Err AuditFault.OutOfMemory → result ≡ Err RunFault.OutOfMemory }
{
    match verdict {
        Ok(_) => Ok(0),
        Err(AuditFault::OutOfMemory) => Err(RunFault::OutOfMemory),
        Err(AuditFault::BadLine(_)) => Ok(1),
        Err(AuditFault::NotThePolicy(_)) => Ok(1),
    }
}
