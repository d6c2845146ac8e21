//! The explanation of an audit text on a rack.

ghost use Rattle.std.specs.Prelude.{◌≡◌, ℕ, List, Result, Err, true, false, [], ◌∷◌, None, All, IfSome, IsOk, OnOk};
ghost use Rattle.dp_line.specs.World.{description_of, opening_fault};
ghost use Rattle.rack_file.specs.RackFile.{rack_in};
ghost use Rattle.rack_file.specs.Rack.{rack_described};
ghost use Rattle.dp_audit.specs.Check.{checked};
ghost use Rattle.dp_audit.specs.declared.fault.AuditFault.{AuditFault as Fault};
ghost use Rattle.explain_texts.specs.Explained.{explained};
ghost use Rattle.explain_texts.specs.ExplainedRows.{Decides, Reads};
ghost use Rattle.explain_texts.specs.Reported.{reports_verdict};
ghost use Rattle.explain_texts.specs.TextRows.{Begins, known_text, octets_read};
ghost use Rattle.rack_script.specs.Checks.{checked_on};
ghost use Rattle.rack_script.specs.Explanations.{DecidesOn, DecidesOnRack, Explains, ReportsVerdict, RunsExplain, explained_on};

use crate::check::{line_named, status_of};
use crate::run_fault::RunFault;
use dp_audit::AuditFault;
use dp_line::LineSpec;
use explain_texts::{Choice, ReadFault, RowsFault, TakesFacts, TextRows, explain_rows, readable};
use rack_file::laws::accepted_lines_can_be_opened;
use rack_file::{Rack, RackFault, read_rack};
use std::alloc::Global;
use std::io::BufRead;

/// Explains an audit text, on the line of the rack that its header names. Reports the chosen entries, up to the first line
/// of the text that is wrong, a summary of all entries, and then the verdict. Returns the exit status: 0 if the text is
/// legal, else 1.
///
/// The rows are read one after another, up to the first wrong one; the first row may have been read before.
///
/// Returns `Rack` if the rack isn't accepted, and then nothing is reported. `OutOfMemory`, `WriteFault`, `CannotRead` if a
/// read fails, and `NotText` if the first wrong row is not UTF-8, leave a first part of the facts. It never returns
/// `Script`.
pub fn run_explain<R: BufRead, T: TakesFacts>(
    alloc: Global,
    rack: &str,
    rows: &mut TextRows<R>,
    choice: &Choice,
    receiver: &mut T,
) -> Result<u8, RunFault>
    requires { rows.old.text.past ≡ [] }
    ensures reported { RunsExplain T.takes (rack_in rack.now) rows.new.text choice.now receiver.old receiver.new result }
    ensures decided { OnOk result (IfSome (known_text rows.old.text (R.remaining rows.old.reader)) (DecidesOn (rack_in rack.now) (octets_read rows.new.text))) }
{
    accepted_lines_can_be_opened();
    match read_rack(alloc, rack) {
        Ok(rack) => explain_on(alloc, &rack, rows, choice, receiver),
        Err(RackFault::OutOfMemory) => Err(RunFault::OutOfMemory),
        Err(fault) => Err(RunFault::Rack(fault)),
    }
}

/// Explains an audit text on the line of the rack that its header names. If it names none, its first line is bad.
fn explain_on<R: BufRead, T: TakesFacts>(
    alloc: Global,
    rack: &Rack,
    rows: &mut TextRows<R>,
    choice: &Choice,
    receiver: &mut T,
) -> Result<u8, RunFault>
    requires opens { All (λ line. opening_fault (description_of line.spec) ≡ None) rack.now.lines.items }
    requires first { rows.old.text.past ≡ [] }
    ensures explained { Explains T.takes (checked_on (rack_described rack.now) (octets_read rows.new.text)) rows.new.text.row (explained_on (rack_described rack.now) (octets_read rows.new.text) choice.now) receiver.old receiver.new result }
    ensures decided { OnOk result (IfSome (known_text rows.old.text (R.remaining rows.old.reader)) (DecidesOnRack (rack_described rack.now) (octets_read rows.new.text))) }
{
    match rows.complete_row() {
        Ok(_) => {}
        Err(fault) => return Err(RunFault::of_read(fault)),
    }
    match line_named(&rack.lines, rows.row()) {
        Some(line) => explain_line(alloc, &line.spec, rows, choice, receiver),
        None => report_rows_to(readable(Err(AuditFault::BadLine(1)), rows.row()), receiver),
    }
}

/// Explains an audit text on a line.
fn explain_line<R: BufRead, T: TakesFacts>(
    alloc: Global,
    line: &LineSpec,
    rows: &mut TextRows<R>,
    choice: &Choice,
    receiver: &mut T,
) -> Result<u8, RunFault>
    requires opens { opening_fault (description_of line.now) ≡ None }
    requires first { rows.old.text.past ≡ [] }
    ensures explained { Explains T.takes (checked (description_of line.now) (octets_read rows.new.text)) rows.new.text.row (explained (description_of line.now) (octets_read rows.new.text) choice.now) receiver.old receiver.new result }
    ensures decided { rows.old.text.whole ≡ true → OnOk result (IfSome (known_text rows.old.text (R.remaining rows.old.reader)) (Decides (description_of line.now) (octets_read rows.new.text))) }
    ensures unread { rows.old.text.whole ≡ false → rows.new.text ≡ rows.old.text }
    ensures begins { Begins (octets_read rows.old.text) (octets_read rows.new.text) }
{
    match explain_rows(alloc, line, rows, choice, receiver) {
        Ok(status) => Ok(status),
        Err(fault) => Err(RunFault::of_rows(fault)),
    }
}

/// Reports a verdict, if it is known, and returns the exit status; or returns why it is not.
fn report_rows_to<T: TakesFacts>(
    verdict: Result<Result<u32, AuditFault>, ReadFault>,
    receiver: &mut T,
) -> Result<u8, RunFault>
    ensures reported { (known : Result ℕ Fault) (row : List ℕ) → Reads known row verdict
        → Explains T.takes known row (reports_verdict known ∷ []) receiver.old receiver.new result }
    ensures read { OnOk result (IsOk verdict) }
{
    match verdict {
        Ok(verdict) => report_verdict_to(verdict, receiver),
        Err(fault) => Err(RunFault::of_read(fault)),
    }
}

/// Reports the verdict on an audit text. Returns the exit status: 0 if the text is legal, else 1. Returns `OutOfMemory` if
/// that is the verdict, and then nothing is reported, or the fault of the receiver.
pub fn report_verdict_to<T: TakesFacts>(
    verdict: Result<u32, AuditFault>,
    receiver: &mut T,
) -> Result<u8, RunFault>
    ensures reported { ReportsVerdict T.takes verdict receiver.old receiver.new result }
    ensures memory { verdict ≡ Err AuditFault.OutOfMemory → result ≡ Err RunFault.OutOfMemory }
{
    let status = match status_of(verdict) {
        Ok(status) => status,
        Err(fault) => return Err(fault),
    };
    match receiver.take_verdict(verdict) {
        Ok(()) => Ok(status),
        Err(fault) => Err(RunFault::of_rows(RowsFault::Explain(fault))),
    }
}
