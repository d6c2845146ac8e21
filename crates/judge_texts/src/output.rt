//! Writes texts.

ghost use Rattle.std.specs.Prelude.{IfSome};
ghost use Rattle.explain_texts.specs.Explained.{Leaves};

use dp_text::write_whole;
use explain_texts::ExplainFault;
use std::fmt::Display;
use std::io::Write;

/// Formats a text into `buffer`, and then writes it. Returns `OutOfMemory` if memory runs out, and `WriteFault` if the
/// write fails.
pub(crate) fn write_text<W: Write, D: Display>(
    text: &D,
    buffer: &mut String,
    writer: &mut W,
) -> Result<(), ExplainFault>
    ensures { IfSome (D.output text.now) (λ written. Leaves written (W.contents writer.old) (W.contents writer.new) result) }
{
    buffer.clear();
    match write!(buffer, "{text}") {
        Ok(()) => {}
        Err(_) => return Err(ExplainFault::OutOfMemory),
    }
    write_bytes(buffer.as_bytes(), writer)
}

/// Writes these bytes. Returns `WriteFault` if the write fails.
pub(crate) fn write_bytes<W: Write>(bytes: &[u8], writer: &mut W) -> Result<(), ExplainFault>
    ensures { Leaves bytes.now (W.contents writer.old) (W.contents writer.new) result }
{
    match write_whole(writer, bytes) {
        Ok(()) => Ok(()),
        Err(_) => Err(ExplainFault::WriteFault),
    }
}
