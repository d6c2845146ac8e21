//! Writes an answer whole.

ghost use Rattle.std.specs.Prelude.{◌≡◌, OnOk, OnErr, IfErr};
ghost use Rattle.std.specs.Io.KnownBytes.{Appends};
ghost use Rattle.dp_text.specs.Writes.{WritesPrefix};

use crate::obey_fault::ObeyFault;
use std::io::Write;

/// Writes all of the bytes; `WriteFault` if a write fails or takes no bytes, which leaves a prefix of them.
pub fn write_whole<W: Write>(writer: &mut W, bytes: &[u8]) -> Result<(), ObeyFault>
    ensures ok { OnOk result (Appends (W.contents writer.old) (W.contents writer.new) bytes.now) }
    ensures err { OnErr result (WritesPrefix (W.contents writer.old) (W.contents writer.new) bytes.now) }
    ensures fault { IfErr result (λ stop. stop ≡ ObeyFault.WriteFault) }
{
    dp_text::write_whole(writer, bytes).map_err(|_| ObeyFault::WriteFault)
}
