//! Writes texts on a writer.

ghost use Rattle.std.specs.Prelude.{IfSome};
ghost use Rattle.explain_texts.specs.Explained.{Leaves};
ghost use Rattle.explain_texts.specs.Written.{LeavesFrom};

use crate::explain_fault::ExplainFault;
use dp_text::{Text, write_whole};
use std::fmt::Display;
use std::io::Write;

/// Writes a text.
pub(crate) fn write_text<W: Write>(text: &Text, writer: &mut W) -> Result<(), ExplainFault>
    ensures { Leaves text.now (W.contents writer.old) (W.contents writer.new) result }
{
    write_octets(text.as_bytes(), writer)
}

/// Writes octets.
fn write_octets<W: Write>(octets: &[u8], writer: &mut W) -> Result<(), ExplainFault>
    ensures { Leaves octets.now (W.contents writer.old) (W.contents writer.new) result }
{
    match write_whole(writer, octets) {
        Ok(()) => Ok(()),
        Err(_) => Err(ExplainFault::WriteFault),
    }
}

/// Formats a text into `rows`, and then writes it. Returns `OutOfMemory` if memory runs out, and `WriteFault` if the
/// write fails.
pub(crate) fn write_rows<W: Write, D: Display>(
    reported: &D,
    rows: &mut String,
    writer: &mut W,
) -> Result<(), ExplainFault>
    ensures { IfSome (D.output reported.now) (λ text. Leaves text (W.contents writer.old) (W.contents writer.new) result) }
{
    rows.clear();
    match write!(rows, "{reported}") {
        Ok(()) => {}
        Err(_) => return Err(ExplainFault::OutOfMemory),
    }
    write_octets(rows.as_bytes(), writer)
}

/// Writes `front`, and then a text, which is formatted into `rows` before. The faults are those of [`write_rows`].
pub(crate) fn write_fronted<W: Write, D: Display>(
    front: &str,
    reported: &D,
    rows: &mut String,
    writer: &mut W,
) -> Result<(), ExplainFault>
    ensures { LeavesFrom front.now (W.contents writer.old) (W.contents writer.new) result }
{
    rows.clear();
    match write!(rows, "{reported}") {
        Ok(()) => {}
        Err(_) => return Err(ExplainFault::OutOfMemory),
    }
    write_after(front.as_bytes(), rows.as_bytes(), writer)
}

/// Writes `front`, and then these octets.
pub(crate) fn write_after<W: Write>(
    front: &[u8],
    octets: &[u8],
    writer: &mut W,
) -> Result<(), ExplainFault>
    ensures { LeavesFrom front.now (W.contents writer.old) (W.contents writer.new) result }
{
    match write_octets(front, writer) {
        Ok(()) => write_octets(octets, writer),
        Err(fault) => Err(fault),
    }
}
