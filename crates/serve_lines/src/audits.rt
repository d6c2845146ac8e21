//! The audit texts of lines on standard output, after serving has ended.
//!
//! A line is closed once every thread has ended, so no pass is out, and `close_with` is tried once. If it fails, a pass is still
//! out, and the program ends with status 3. That can't happen, but no clause states it. The passes that were handed back and kept
//! are given to it, so that the contracts state which entries of the audit text their sessions wrote.

ghost use Rattle.std.specs.Prelude.{◌≡◌, map};
ghost use Rattle.std.specs.List.{AllByRecursion};
ghost use Rattle.std.specs.Vec.Iter.{into_iter_items};
ghost use Rattle.dp_shared.specs.Passes.{line_of, table_of};
ghost use Rattle.serve_lines.specs.AuditTexts.{WritesAudit, WritesAudits, line_at};
ghost use Rattle.serve_lines.specs.ReturnedPasses.{AllPaired, AreOfPort, IsNextList};

use dp_sessions::{LineAndClaims, Port};
use dp_shared::{Line, ReturnedPass};
use serve_faults::OutputFault;
use std::alloc::Global;
use std::io::Write;
use std::vec::IntoIter;

/// Closes the lines with the passes that were handed back at each, and writes the audit text of each, in their order.
///
/// `passes` has a list for each line, in their order; a line without a list is closed with no passes.
///
/// Returns `WriteFault` if a write fails, or `OutOfMemory` if a line still has a pass. A session returns its pass when it ends.
pub fn write_audits<W: Write>(
    alloc: Global,
    ports: Vec<Port>,
    passes: Vec<Vec<ReturnedPass>>,
    writer: &mut W,
) -> Result<(), OutputFault>
    requires { AllPaired AreOfPort ports.items passes.items }
    ensures { WritesAudits (map line_at ports.items) passes.items (W.contents writer.old) (W.contents writer.new) result }
{
    let mut lists = passes.into_iter();
    for port in ports {
        let LineAndClaims { line, .. } = port;
        let passes = next_list(alloc, &mut lists);
        match write_audit(alloc, line, passes, writer) {
            Ok(()) => {}
            Err(fault) => return Err(fault),
        }
    }
    Ok(())
}

/// Takes the next list. Returns an empty list if there is no other.
fn next_list(alloc: Global, lists: &mut IntoIter<Vec<ReturnedPass>>) -> Vec<ReturnedPass>
    ensures { IsNextList (into_iter_items lists.old) (into_iter_items lists.new) result }
{
    match lists.next() {
        Some(passes) => passes,
        None => Vec::new(alloc),
    }
}

/// Closes a line with these passes and writes its audit text.
fn write_audit<W: Write>(
    alloc: Global,
    line: Line,
    mut passes: Vec<ReturnedPass>,
    writer: &mut W,
) -> Result<(), OutputFault>
    requires { AllByRecursion (λ pass. pass.table ≡ table_of line) passes.items }
    ensures { WritesAudit (line_of line) passes (W.contents writer.old) (W.contents writer.new) result }
{
    let Ok(closed) = line.close_with(Vec::new(alloc), &mut passes) else {
        return Err(OutputFault::OutOfMemory);
    };
    match closed.book().write_text(writer) {
        Ok(()) => Ok(()),
        Err(_) => Err(OutputFault::WriteFault),
    }
}
