//! The check of an endless audit text behind its beginning, which is its header or the head of a later part.

ghost use Rattle.std.specs.Prelude.{◌≡◌, Err, IfOk, IfSome, OnOk};
ghost use Rattle.dp_text.specs.Words.{lines_of};
ghost use Rattle.explain_texts.specs.ExplainedRows.{Reads};
ghost use Rattle.explain_texts.specs.TextRows.{nothing_read, octets_read};
ghost use Rattle.audit_parts.specs.Parts.{rows_checked};
ghost use Rattle.rack_script.specs.Runs.{Checks};

use crate::check::report_rows;
use crate::run_fault::RunFault;
use audit_parts::PartsCheck;
use dp_audit::AuditFault;
use dp_line::Step;
use dp_text::Text;
use explain_texts::{ReadFault, TextRows, readable};
use std::io::{BufRead, Write};

/// Checks an endless audit text behind its beginning, and writes the verdict, as [`run_check`](crate::run_check) does. `check`
/// is the check of its parts behind the beginning, and `rows` are those of which nothing was read.
///
/// Returns `OutOfMemory` if memory runs out, `CannotRead` if a read fails, and `NotText` if the first wrong row is not UTF-8;
/// then nothing is written. `WriteFault` leaves a prefix of the verdict. It returns no other fault.
pub fn run_parts_check<R: BufRead, W: Write>(
    check: &mut PartsCheck,
    rows: &mut TextRows<R>,
    writer: &mut W,
) -> Result<u8, RunFault>
    requires { rows.old.text ≡ nothing_read }
    ensures reported { Checks (rows_checked check.old (lines_of (octets_read rows.new.text))) rows.new.text.row (W.contents writer.old) (W.contents writer.new) result }
    ensures decided { OnOk result (IfSome (R.remaining rows.old.reader) (λ text. rows_checked check.old (lines_of text) ≡ rows_checked check.old (lines_of (octets_read rows.new.text)))) }
{
    report_rows(verdict_on_parts(check, rows), writer)
}

/// Returns the verdict on the rows of a text, or why it is not known.
fn verdict_on_parts<R: BufRead>(
    check: &mut PartsCheck,
    rows: &mut TextRows<R>,
) -> Result<Result<u32, AuditFault>, ReadFault>
    requires { rows.old.text ≡ nothing_read }
    ensures verdict { Reads (rows_checked check.old (lines_of (octets_read rows.new.text))) rows.new.text.row result }
    ensures decided { OnOk result (IfSome (R.remaining rows.old.reader) (λ text. rows_checked check.old (lines_of text) ≡ rows_checked check.old (lines_of (octets_read rows.new.text)))) }
{
    match check_parts(check, rows) {
        Ok(verdict) => readable(verdict, rows.row()),
        Err(fault) => Err(fault),
    }
}

/// Checks the rows of a text, up to the first wrong one. Returns the verdict on them.
fn check_parts<R: BufRead>(
    check: &mut PartsCheck,
    rows: &mut TextRows<R>,
) -> Result<Result<u32, AuditFault>, ReadFault>
    requires { rows.old.text ≡ nothing_read }
    ensures verdict { IfOk result (λ verdict. verdict ≡ rows_checked check.old (lines_of (octets_read rows.new.text))) }
    ensures decided { OnOk result (IfSome (R.remaining rows.old.reader) (λ text. rows_checked check.old (lines_of text) ≡ rows_checked check.old (lines_of (octets_read rows.new.text)))) }
    ensures named { result ≡ Err ReadFault.NotText → ⊥ }
{
    let mut answer = Step::blank();
    let mut buffer = Text::new();
    for _ in 0..u64::MAX {
        match rows.read_row() {
            Ok(true) => {}
            Ok(false) => return Ok(check.end(rows.row())),
            Err(fault) => return Err(fault),
        }
        match check.take_row(rows.row(), &mut answer, &mut buffer) {
            Ok(_) => {}
            Err(AuditFault::OutOfMemory) => return Err(ReadFault::OutOfMemory),
            Err(AuditFault::BadLine(row)) => return Ok(Err(AuditFault::BadLine(row))),
            Err(AuditFault::NotThePolicy(row)) => return Ok(Err(AuditFault::NotThePolicy(row))),
        }
    }
    Err(ReadFault::CannotRead)
}
