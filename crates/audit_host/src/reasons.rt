//! Reports why an audit text is not legal.

use crate::audit_text::{AuditText, FirstRow};
use crate::bad_rows::note_bad_row;
use crate::cut_end::note_cut_row;
use crate::differences::note_difference;
use crate::fault::TextFault;
use crate::notes::noted_header;
use crate::text_files::{AuditFiles, are_ordinary};
use crate::verdict::{Verdict, verdict_of};
use rack_file::Rack;
use rack_script::RunFault;
use std::process::ExitCode;
use std::rt::Runtime;

/// Returns the exit status of what was done with the audit text of these files, which begins with this first row. If the status
/// is 1, the text is checked again, and if it is not legal, reports why. Of files that cannot be read again, as a pipe, only a
/// header that is missing is reported.
///
/// Returns `OutOfMemory` if memory runs out.
pub(crate) fn noted_reason<'a, H: Runtime + AllocGlobal>(
    rt: &H,
    rack: &str,
    described: &Rack,
    audit: &[&'a str],
    first_row: FirstRow,
    status: u8,
) -> Result<ExitCode, TextFault<'a>> {
    if !are_ordinary(rt, audit) {
        return Ok(noted_header(rt, first_row, status));
    }
    if status == 1 {
        match check_again(rt, rack, described, audit) {
            Ok(verdict) => note_verdict(rt, described, audit, &verdict)?,
            Err(TextFault::Run(RunFault::OutOfMemory)) => {
                return Err(TextFault::Run(RunFault::OutOfMemory));
            }
            Err(_) => {}
        }
    }
    Ok(ExitCode::from(status))
}

/// Opens the files of an audit text again, and checks it on a rack, which `rack` describes as text.
fn check_again<'a, H: Runtime + AllocGlobal>(
    rt: &H,
    rack: &str,
    described: &Rack,
    audit: &[&'a str],
) -> Result<Verdict, TextFault<'a>> {
    let files = AuditFiles::open(rt, audit)?;
    let text = AuditText::read(rt.alloc(), described, files)?;
    verdict_of(rt.alloc(), rack, text)
}

/// Reports the row of the audit text of these files that is wrong, and why, if this verdict on it is that one is.
pub(crate) fn note_verdict<H: Runtime + AllocGlobal>(
    rt: &H,
    rack: &Rack,
    audit: &[&str],
    verdict: &Verdict,
) -> Result<(), RunFault> {
    if verdict.cut_row().is_some() {
        note_cut_row(rt, audit, verdict);
        return Ok(());
    }
    match verdict.bad_row() {
        Some(row) => note_bad_row(rt, rack, audit, row, verdict.is_of_head),
        None if verdict.status != 0 && !verdict.is_of_head => note_difference(rt, rack, audit),
        None => Ok(()),
    }
}
