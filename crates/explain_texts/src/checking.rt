//! The check of an audit text that is read row by row.
//!
//! It is that of `check_text` of dp_audit, but the text need not lie in memory: only a line and one row of the text do.

ghost use Rattle.std.specs.Prelude.{◌≡◌, true, false, [], None, Err, OnOk, IfOk, IfSome};
ghost use Rattle.dp_line.specs.World.{description_of, opening_fault};
ghost use Rattle.dp_audit.specs.Check.{checked, places_of_header};
ghost use Rattle.explain_texts.specs.Known.{first_world};
ghost use Rattle.explain_texts.specs.TextRows.{Begins, known_text, octets_read};
ghost use Rattle.explain_texts.specs.ExplainedRows.{Decides, Reads};

use crate::read_fault::ReadFault;
use crate::text_rows::TextRows;
use crate::verdict::{Verdict, readable, verdict_at_end};
use dp_audit::{AuditFault, is_header_of, open_line, take_row};
use dp_line::{LineSpec, LineState, Step};
use dp_text::Text;
use std::alloc::Global;
use std::io::BufRead;

/// Checks that an audit text is the text of a legal journal: of the line, or of the endless line if its header names
/// version 3. Only its first row was read; the rows behind it are read one after another, up to the first wrong one. Returns
/// the number of entries, or the fault of the first wrong row.
///
/// It takes the memory of one line and of one row. Returns `OutOfMemory` if memory runs out, `CannotRead` if a read fails,
/// and `NotText` if the first wrong row is not UTF-8.
pub fn check_rows<R: BufRead>(
    alloc: Global,
    line: &LineSpec,
    rows: &mut TextRows<R>,
) -> Result<Result<u32, AuditFault>, ReadFault>
    requires opens { opening_fault (description_of line.now) ≡ None }
    requires first { rows.old.text.past ≡ [] }
    ensures verdict { Reads (checked (description_of line.now) (octets_read rows.new.text)) rows.new.text.row result }
    ensures decided { rows.old.text.whole ≡ true → OnOk result (IfSome (known_text rows.old.text (R.remaining rows.old.reader)) (Decides (description_of line.now) (octets_read rows.new.text))) }
    ensures unread { rows.old.text.whole ≡ false → rows.new.text ≡ rows.old.text }
    ensures begins { Begins (octets_read rows.old.text) (octets_read rows.new.text) }
{
    let Ok(header) = std::str::from_utf8(rows.row()) else {
        return Err(ReadFault::NotText);
    };
    let Ok(mut state) = open_line(alloc, line, header) else {
        return Err(ReadFault::OutOfMemory);
    };
    match check_on(&mut state, line, rows) {
        Ok(verdict) => readable(verdict, rows.row()),
        Err(fault) => Err(fault),
    }
}

/// Checks a text on the opened line, whose description is `line`. Returns the verdict on it.
fn check_on<R: BufRead>(
    state: &mut LineState,
    line: &LineSpec,
    rows: &mut TextRows<R>,
) -> Result<Verdict, ReadFault>
    requires opened { state.old.world ≡ first_world (description_of line.now) (places_of_header (description_of line.now) rows.old.text.row) }
    requires first { rows.old.text.past ≡ [] }
    ensures verdict { IfOk result (λ verdict. verdict ≡ checked (description_of line.now) (octets_read rows.new.text)) }
    ensures decided { rows.old.text.whole ≡ true → OnOk result (IfSome (known_text rows.old.text (R.remaining rows.old.reader)) (Decides (description_of line.now) (octets_read rows.new.text))) }
    ensures unread { rows.old.text.whole ≡ false → rows.new.text ≡ rows.old.text }
    ensures begins { Begins (octets_read rows.old.text) (octets_read rows.new.text) }
    ensures named { result ≡ Err ReadFault.NotText → ⊥ }
{
    if !rows.is_whole() {
        return Ok(Err(AuditFault::BadLine(1)));
    }
    if !is_header_of(rows.row(), line) {
        return Ok(Err(AuditFault::BadLine(1)));
    }
    let mut answer = Step::blank();
    let mut written = Text::new();
    loop {
        let count = state.count();
        match rows.read_row() {
            Ok(true) => {}
            Ok(false) => return Ok(verdict_at_end(count, rows.row())),
            Err(fault) => return Err(fault),
        }
        match take_row(state, rows.row(), &mut answer, &mut written) {
            Ok(_) => {}
            Err(fault) => return Ok(Err(fault)),
        }
    }
}
