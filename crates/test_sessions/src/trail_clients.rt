//! A client that serves a session while a trail writes the line's audit text, and then finds the text line of each of
//! the session's receipts in that text.

ghost use Rattle.std.specs.Prelude.{◌≡◌, ◌≢◌, ◌≤◌, ℕ, [], ◌∷◌, Some, IfOk, length, slice_get};
ghost use Rattle.dp_audit.specs.declared.entry.Receipt.{Receipt};
ghost use Rattle.dp_shared.specs.Passes.{line_of, table_of};
ghost use Rattle.dp_shared.specs.declared.line_view.PassView.{PassView};
ghost use Rattle.dp_sessions.specs.Sessions.{HasExchanged};
ghost use Rattle.dp_sessions.specs.declared.session_end.SessionEnd.{SessionEnd as End};
ghost use Rattle.audit_trail.specs.TextLines.{HasLineOf};
ghost use Rattle.audit_trail.specs.Trails.{IsWhole, found, parts_text};

use audit_trail::laws::a_receipt_that_a_trail_saw_has_its_text_line;
use audit_trail::{Tail, WriteParts};
use dp_sessions::{OpenGate, serve_pass};
use dp_shared::{Closed, Line, Pass};
use std::alloc::{AllocError, Global};
use std::io::{Read, Write};
use std::sync::Wait;
use std::test::Fail;

/// Returns this pass as a list.
fn listed<P: Drop>(alloc: Global, pass: P) -> Result<Vec<P>, AllocError>
    ensures { IfOk result (λ v. v.items ≡ pass ∷ []) }
{
    let mut passes = Vec::with_capacity(alloc, 1)?;
    passes.push_reserved(pass);
    Ok(passes)
}

/// Serves a master's session by a pass, writes the line's audit text, and closes the line. Returns the journal and the
/// writer of the text. Fails if memory is refused, the text cannot be written, or another pass is out.
///
/// The session exchanged the frames of its stream. The writer has what it had before, and then the whole text of the
/// line as far as the trail saw it. For each receipt of the session whose place the trail saw, this text has the text line
/// of the journal's entry at that place, and the receipt is that of the entry.
pub fn serve_with_a_trail<T: Wait, R: Read, W: Write, A: WriteParts + Drop>(
    rt: &T,
    alloc: Global,
    line: Line,
    pass: Pass,
    text: A,
    reader: &mut R,
    writer: &mut W,
    turns: u32,
) -> Result<(Closed, A), Fail>
    requires ours { pass.table ≡ table_of line }
    requires master { pass.view.address ≢ 127 }
    ensures answered { IfOk result (λ done. (after tail : PassView) × (end : End) × (version : ℕ)
        × HasExchanged turns
        (record { left = R.remaining reader.old; left_after = R.remaining reader.new; written = W.contents writer.old; written_after = W.contents writer.new })
        pass.view after end
        × IsWhole (A.contents text) (A.contents done.1) (parts_text version (line_of line).number tail.looks)
        × ((place at : ℕ) (receipt : Receipt) → place ≤ length (found tail.looks) → slice_get after.receipts at ≡ Some receipt → receipt.place ≡ Some place
        → HasLineOf done.0 version (line_of line).number place tail.looks receipt)) }
{
    a_receipt_that_a_trail_saw_has_its_text_line();
    let mut pass = pass;
    let Ok(mut tail) = Tail::open(rt, alloc, &line, text) else {
        return Err(Fail::new("no trail"));
    };
    serve_pass(rt, reader, writer, &line, &mut pass, &OpenGate, turns);
    let Ok(()) = tail.catch_up(rt) else {
        return Err(Fail::new("a broken trail"));
    };
    let (text, returned_pass) = tail.close(rt);
    let mut returned = listed(alloc, returned_pass)?;
    match line.close_with(listed(alloc, pass)?, &mut returned) {
        Ok(closed) => Ok((closed, text)),
        Err(_) => Err(Fail::new("a pass is out")),
    }
}
