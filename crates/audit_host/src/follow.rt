//! Explains an audit text while a rack writes it.

use crate::audit_text::rack_of;
use crate::explain::choice_of;
use crate::fault::TextFault;
use crate::followed_parts::FollowedParts;
use crate::notes::note_header;
use crate::output::{buffered, reaches_reader};
use crate::stations::{check_line, line_of};
use crate::text_files::{AuditFiles, FileRows, rows_of};
use audit_parts::{is_part_header, rows_behind_header};
use dp_audit::AuditFault;
use dp_line::LineSpec;
use explain_texts::{Choice, ExplainFault, FactWriter, FollowFault, TextRows};
use rack_file::Rack;
use rack_script::{RunFault, report_verdict_to};
use rackd_cli::Entries;
use std::alloc::Global;
use std::fs::Files;
use std::io::{BufRead, Read, Write};
use std::process::ExitCode;
use std::rt::Runtime;
use std::sync::Wait;
use std::thread;
use std::time::{Clock, Duration};

/// How long it waits at the end of the text before it reads on, in milliseconds.
const READ_INTERVAL_MS: u64 = 100;

/// Explains the audit text of these files on the rack that `rack` describes. A rack may still be writing the last file, or a later
/// part of the same text: each entry is explained once its row is there. It ends at the first wrong row with the row of a
/// check, or when nobody reads standard output any more.
pub fn follow_text<'a, H: Runtime + AllocGlobal + Wait + Clock>(
    rt: &H,
    rack: &str,
    audit: &[&'a str],
    entries: Entries,
) -> Result<ExitCode, TextFault<'a>> {
    let files = AuditFiles::open(rt, audit)?;
    let rack = rack_of(rt.alloc(), rack)?;
    let mut rows = rows_of(files.followed())?;
    match follow_rows(rt, &rack, entries, &mut rows) {
        Err(TextFault::Run(fault)) => rows.reader().get_ref().ended(Err(fault)),
        followed => followed,
    }
}

/// Follows a text on the line of the rack that its first row names.
fn follow_rows<'a, H: Runtime + AllocGlobal + Files<File = R> + Wait + Clock, R: Read + Drop>(
    rt: &H,
    rack: &Rack,
    entries: Entries,
    rows: &mut FileRows<'_, '_, H, R>,
) -> Result<ExitCode, TextFault<'a>> {
    let mut output = buffered(rt, rt.alloc())?;
    if !read_next(rt, rows, &mut output)? {
        return Ok(ExitCode::SUCCESS);
    }
    match line_of(rack, rows.row()) {
        Some(line) => {
            check_line(line, entries)?;
            follow_line(rt, line, rows, entries, &mut output)
        }
        None => end_at_header(rt, rows.row(), entries, &mut output),
    }
}

/// Follows a text on its line, from its header or the header of a later part on.
fn follow_line<'a, H: Runtime + AllocGlobal + Wait + Clock, R: BufRead, W: Write>(
    rt: &H,
    line: &LineSpec,
    rows: &mut TextRows<R>,
    entries: Entries,
    output: &mut W,
) -> Result<ExitCode, TextFault<'a>> {
    let choice = choice_of(entries);
    let mut front = Vec::new(rt.alloc());
    if !read_front(rt, line, rows, &mut front, output)? {
        return Ok(ExitCode::SUCCESS);
    }
    let mut parts = match FollowedParts::open(rt.alloc(), line, front.as_slice()) {
        Ok(parts) => parts,
        Err(AuditFault::OutOfMemory) => return Err(TextFault::Run(RunFault::OutOfMemory)),
        Err(fault) => return end_at(rt.alloc(), fault, entries, output),
    };
    for _ in rt.forever() {
        if !read_next(rt, rows, output)? {
            return Ok(ExitCode::SUCCESS);
        }
        match explain_row(rt.alloc(), &mut parts, rows.row(), entries, &choice, output) {
            Ok(()) => {}
            Err(FollowFault::Wrong(fault)) => return end_at(rt.alloc(), fault, entries, output),
            Err(FollowFault::Explain(fault)) => return end_early(fault, output),
        }
    }
    unreachable!()
}

/// Takes the next row of a text, and explains it on this writer.
fn explain_row<W: Write>(
    alloc: Global,
    parts: &mut FollowedParts<'_>,
    row: &[u8],
    entries: Entries,
    choice: &Choice,
    output: &mut W,
) -> Result<(), FollowFault> {
    let mut receiver = FactWriter::new(alloc, entries.as_json, output);
    parts.take_row(row, choice, &mut receiver)
}

/// Appends the first row of a text, which was read, and the other rows of a head if it is the header of a later part. Returns
/// whether they are there: they are not if standard output has no reader any more.
fn read_front<H: Wait + Clock, R: BufRead, W: Write>(
    rt: &H,
    line: &LineSpec,
    rows: &mut TextRows<R>,
    front: &mut Vec<u8>,
    output: &mut W,
) -> Result<bool, RunFault> {
    push_row(front, rows.row())?;
    // No line of an accepted rack has a fault.
    if !is_part_header(line, rows.row()) || line.fault().is_some() {
        return Ok(true);
    }
    for _ in 0..rows_behind_header(line) {
        if !read_next(rt, rows, output)? {
            return Ok(false);
        }
        push_row(front, rows.row())?;
    }
    Ok(true)
}

/// Appends a row, with its LF.
fn push_row(text: &mut Vec<u8>, row: &[u8]) -> Result<(), RunFault> {
    if text.extend_from_slice(row).is_err() || text.push(b'\n').is_err() {
        return Err(RunFault::OutOfMemory);
    }
    Ok(())
}

/// Reads the next row. At the end of the text it writes out what was written to `output`, and waits for more of the text.
/// Returns whether there is a row: there is none if standard output has no reader any more.
fn read_next<H: Wait + Clock, R: BufRead, W: Write>(
    rt: &H,
    rows: &mut TextRows<R>,
    output: &mut W,
) -> Result<bool, RunFault> {
    for _ in rt.forever() {
        match rows.read_row() {
            Ok(true) => return Ok(true),
            Ok(false) => {}
            Err(fault) => return Err(RunFault::of_read(fault)),
        }
        if !reaches_reader(output)? {
            return Ok(false);
        }
        thread::sleep(rt, Duration::from_millis(READ_INTERVAL_MS));
    }
    unreachable!()
}

/// Writes the row of a check of a text whose first row is no header of the rack.
fn end_at_header<'a, W: Write>(
    rt: &(impl Eprint + AllocGlobal),
    row: &[u8],
    entries: Entries,
    output: &mut W,
) -> Result<ExitCode, TextFault<'a>> {
    note_header(rt, row);
    end_at(rt.alloc(), AuditFault::BadLine(1), entries, output)
}

/// Writes the row of a check that found this fault, or its line of JSON, and returns its exit status.
fn end_at<'a, W: Write>(
    alloc: Global,
    fault: AuditFault,
    entries: Entries,
    output: &mut W,
) -> Result<ExitCode, TextFault<'a>> {
    let status = write_verdict(alloc, fault, entries, output)?;
    if reaches_reader(output)? {
        Ok(ExitCode::from(status))
    } else {
        Ok(ExitCode::SUCCESS)
    }
}

/// Writes the verdict on a text that has this fault on this writer, and returns its exit status.
fn write_verdict<W: Write>(
    alloc: Global,
    fault: AuditFault,
    entries: Entries,
    output: &mut W,
) -> Result<u8, RunFault> {
    let mut receiver = FactWriter::new(alloc, entries.as_json, output);
    report_verdict_to(Err(fault), &mut receiver)
}

/// Returns the fault for rows that were not written. That nobody reads standard output any more is none.
fn end_early<'a, W: Write>(fault: ExplainFault, output: &mut W) -> Result<ExitCode, TextFault<'a>> {
    match fault {
        ExplainFault::OutOfMemory => Err(TextFault::Run(RunFault::OutOfMemory)),
        ExplainFault::WriteFault => {
            if reaches_reader(output)? {
                Err(TextFault::Run(RunFault::WriteFault))
            } else {
                Ok(ExitCode::SUCCESS)
            }
        }
    }
}
