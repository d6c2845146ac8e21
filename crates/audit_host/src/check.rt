//! Checks audit texts.

use crate::audit_text::{FirstRow, open_text};
use crate::fault::TextFault;
use crate::notes::noted_header;
use crate::reasons::note_verdict;
use crate::text_files::are_ordinary;
use crate::verdict::{Verdict, verdict_of};
use rack_file::Rack;
use rack_script::RunFault;
use std::io::{self, Write};
use std::process::ExitCode;
use std::rt::Runtime;

/// Checks the audit text of these files on the rack that `rack` describes, and writes the verdict on standard output.
/// `shows` is whether the progress of a long text is shown on standard error.
///
/// Returns the exit status: 0 if the text is legal, else 1, and then reports on standard error what is wrong.
pub fn check_text<'a, H: Runtime + AllocGlobal>(
    rt: &H,
    rack: &str,
    audit: &[&'a str],
    shows: bool,
) -> Result<ExitCode, TextFault<'a>> {
    let (described, text) = open_text(rt, rack, audit, shows)?;
    let first_row = text.first_row();
    let verdict = verdict_of(rt.alloc(), rack, text)?;
    Ok(end_check(rt, &described, audit, first_row, &verdict)?)
}

/// Writes the verdict of a check on standard output, and returns its exit status. If the text is not legal, reports the row
/// that is wrong, and why. Of files that cannot be read again, as a pipe, only a header that is missing is reported.
fn end_check<H: Runtime + AllocGlobal>(
    rt: &H,
    rack: &Rack,
    audit: &[&str],
    first_row: FirstRow,
    verdict: &Verdict,
) -> Result<ExitCode, RunFault> {
    write_verdict(rt, verdict.row.as_slice())?;
    if !are_ordinary(rt, audit) {
        return Ok(noted_header(rt, first_row, verdict.status));
    }
    note_verdict(rt, rack, audit, verdict)?;
    Ok(ExitCode::from(verdict.status))
}

/// Writes the row of a verdict on standard output.
fn write_verdict(rt: &impl Print, row: &[u8]) -> Result<(), RunFault> {
    let mut output = io::writer(rt);
    match output.write_all(row).and_then(|_| output.flush()) {
        Ok(()) => Ok(()),
        Err(_) => Err(RunFault::WriteFault),
    }
}
