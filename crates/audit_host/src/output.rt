//! Standard output.

use crate::fault::TextFault;
use rack_script::RunFault;
use std::alloc::Global;
use std::io::{self, BufWriter, ErrorKind, Printer, Write};

/// Returns standard output with a buffer.
pub fn buffered<H: Print>(rt: &H, alloc: Global) -> Result<BufWriter<Printer<'_, H>>, RunFault> {
    BufWriter::new(alloc, io::writer(rt)).map_err(|_| RunFault::OutOfMemory)
}

/// Writes what is left in the buffer. Its fault takes precedence over any other.
pub fn flushed<W: Write + Drop>(mut output: BufWriter<W>) -> Result<(), RunFault> {
    output.flush().map_err(|_| RunFault::WriteFault)
}

/// Writes what is left in the buffer, and returns the exit status of what was done; None if standard output has no reader any
/// more. Any fault of standard output other than a missing reader takes precedence over any other.
pub(crate) fn written<'a, W: Write + Drop>(
    mut output: BufWriter<W>,
    done: Result<u8, TextFault<'a>>,
) -> Result<Option<u8>, TextFault<'a>> {
    if reaches_reader(&mut output)? {
        Ok(Some(done?))
    } else {
        Ok(None)
    }
}

/// Writes what is in the buffer, and returns whether standard output still has a reader.
pub(crate) fn reaches_reader<W: Write>(output: &mut W) -> Result<bool, RunFault> {
    match output.flush() {
        Ok(()) => Ok(true),
        Err(error) => match error.kind() {
            ErrorKind::BrokenPipe => Ok(false),
            _ => Err(RunFault::WriteFault),
        },
    }
}
