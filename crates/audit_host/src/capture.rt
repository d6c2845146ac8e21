//! Writes the telegrams of audit texts for Wireshark.

use crate::audit_text::{AuditText, FirstRow, entries_from_header, files_of, open_text};
use crate::fault::TextFault;
use crate::notes::note_first_part;
use crate::output::{buffered, written};
use crate::reasons::noted_reason;
use capture_texts::run_capture;
use std::alloc::Global;
use std::fs::Files;
use std::io::{Read, Write};
use std::process::ExitCode;
use std::rt::Runtime;

/// Writes the telegrams of the audit text of these files, on the rack that `rack` describes, to standard output. If its reader
/// ends before, the rest is not written, and that is no fault. `shows` is whether the progress of a long text is shown on
/// standard error.
///
/// Returns the exit status: 0 if the text is legal, else 1.
pub fn capture_text<'a, H: Runtime + AllocGlobal>(
    rt: &H,
    rack: &str,
    audit: &[&'a str],
    shows: bool,
) -> Result<ExitCode, TextFault<'a>> {
    let (described, text) = open_text(rt, rack, audit, shows)?;
    let first_row = text.first_row();
    let Some(status) = capture_out(rt, rack, text)? else {
        return Ok(ExitCode::SUCCESS);
    };
    if first_row == FirstRow::PartHeader {
        note_first_part(rt);
        return Ok(ExitCode::from(status));
    }
    noted_reason(rt, rack, &described, audit, first_row, status)
}

/// Writes the telegrams of an audit text to standard output, and returns the exit status; None if standard output has no reader
/// any more.
fn capture_out<'a, H: Runtime + AllocGlobal + Files<File = R>, R: Read + Drop>(
    rt: &H,
    rack: &str,
    text: AuditText<'a, '_, H, R>,
) -> Result<Option<u8>, TextFault<'a>> {
    let mut output = buffered(rt, rt.alloc())?;
    let captured = capture_rows(rt.alloc(), rack, text, &mut output);
    written(output, captured)
}

/// Writes the telegrams of an audit text, and returns the exit status.
fn capture_rows<'a, H: Runtime + AllocGlobal + Files<File = R>, R: Read + Drop, W: Write>(
    alloc: Global,
    rack: &str,
    text: AuditText<'a, '_, H, R>,
    output: &mut W,
) -> Result<u8, TextFault<'a>> {
    let mut rows = entries_from_header(alloc, text)?;
    let captured = run_capture(alloc, rack, &mut rows, output);
    files_of(&rows).ended(captured)
}
