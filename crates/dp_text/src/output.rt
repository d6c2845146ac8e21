//! Writing a whole text.

ghost use Rattle.std.specs.Prelude.{◌≡◌, OnOk, OnErr};
ghost use Rattle.std.specs.Io.KnownBytes.{Appends};
ghost use Rattle.dp_text.specs.Writes.{WritesPrefix, write_fault_code};

use std::io::{ErrorKind, Write};
use thiserror::Error;

/// The fault of a write that failed or accepted no byte. A prefix of the text may have been written.
#[derive(Clone, Copy, Debug, PartialEq, Eq, Error)]
#[error("cannot write")]
pub struct WriteFault;

impl WriteFault {
    /// Returns the number of the fault, 1 (own).
    pub const fn code(self) -> u8
        ensures { result ≡ write_fault_code }
    {
        1
    }
}

/// Writes all of the bytes, or returns `WriteFault` if a write fails or accepts no byte. A prefix of the bytes
/// is then written. An interrupted write is repeated.
///
/// It replaces std's `write_all`, whose contract doesn't say what was written if it fails.
pub fn write_whole<W: Write>(writer: &mut W, bytes: &[u8]) -> Result<(), WriteFault>
    ensures ok { OnOk result (Appends (W.contents writer.old) (W.contents writer.new) bytes.now) }
    ensures err { OnErr result (WritesPrefix (W.contents writer.old) (W.contents writer.new) bytes.now) }
{
    let mut rest = bytes;
    for _ in 0..u64::MAX {
        if rest.is_empty() {
            return Ok(());
        }
        match writer.write(rest) {
            Ok(0) => return Err(WriteFault),
            Ok(count) => (_, rest) = rest.split_at(count),
            Err(error) => {
                if error.kind() != ErrorKind::Interrupted {
                    return Err(WriteFault);
                }
            }
        }
    }
    Err(WriteFault)
}
