//! Explains audit texts.

ghost use Rattle.std.specs.Prelude.{◌≡◌};
ghost use Rattle.explain_texts.specs.TextRows.{nothing_read};

use crate::audit_text::{AuditText, Beginning, FileEntries, entries_of, files_of, open_text};
use crate::fault::TextFault;
use crate::output::{buffered, flushed, written};
use crate::reasons::noted_reason;
use crate::stations::check_stations;
use audit_parts::fault_of_head;
use dp_audit::AuditFault;
use dp_line::LineSpec;
use dp_text::Text;
use explain_texts::{Choice, FactWriter, Follower, TakesFacts, TextRows, explain_entries};
use rack_file::Rack;
use rack_script::{RunFault, report_verdict_to, run_explain};
use rackd_cli::Entries;
use std::alloc::Global;
use std::fs::Files;
use std::io::{BufRead, Read};
use std::process::ExitCode;
use std::rt::Runtime;

/// Explains the audit text of these files on the rack that `rack` describes, and writes the explanation on standard output. If
/// its reader ends before, the rest is not written, and that is no fault. `shows` is whether the progress of a long text is
/// shown on standard error.
///
/// Returns the exit status: 0 if the text is legal, else 1.
pub fn explain_text<'a, H: Runtime + AllocGlobal>(
    rt: &H,
    rack: &str,
    audit: &[&'a str],
    entries: Entries,
    shows: bool,
) -> Result<ExitCode, TextFault<'a>> {
    let (described, text) = open_text(rt, rack, audit, shows)?;
    check_stations(&described, text.front.as_slice(), entries)?;
    let first_row = text.first_row();
    match explain_from(rt, rack, &described, entries, text)? {
        Some(status) => noted_reason(rt, rack, &described, audit, first_row, status),
        None => Ok(ExitCode::SUCCESS),
    }
}

/// Explains an audit text on a rack, which `rack` describes as text. Returns the exit status; None if standard output has no reader
/// any more.
fn explain_from<'a, H: Runtime + AllocGlobal + Files<File = R>, R: Read + Drop>(
    rt: &H,
    rack: &str,
    described: &Rack,
    entries: Entries,
    text: AuditText<'a, '_, H, R>,
) -> Result<Option<u8>, TextFault<'a>> {
    let alloc = rt.alloc();
    let AuditText {
        beginning,
        front,
        reader,
    } = text;
    let (check, first, head) = match beginning {
        Beginning::NoPart => (None, front, None),
        Beginning::FirstPart(check) => (Some(check), front, None),
        Beginning::LaterPart(index, check) => (Some(check), Vec::new(alloc), Some((index, front))),
        Beginning::WrongHead(fault) => return Ok(Some(end_at(rt, fault, entries)?)),
    };
    let rows = entries_of(alloc, check, first, reader)?;
    let Some((index, head)) = head else {
        return explain_rows(rt, rack, Start::Header, entries, rows);
    };
    match described.lines.get(index) {
        Some(line) => {
            let start = Start::Head(&line.spec, head.as_slice());
            explain_rows(rt, rack, start, entries, rows)
        }
        None => Err(TextFault::Run(RunFault::CannotRead)),
    }
}

/// Where an explanation begins.
#[derive(Clone, Copy)]
enum Start<'l> {
    /// At the header of the text.
    Header,
    /// Behind the head of a part of this line, of which these are the rows.
    Head(&'l LineSpec, &'l [u8]),
}

/// Explains the rows of an audit text, and writes the explanation on standard output. Returns the exit status; None if standard
/// output has no reader any more.
fn explain_rows<'a, H: Runtime + AllocGlobal + Files<File = R>, R: Read + Drop>(
    rt: &H,
    rack: &str,
    start: Start<'_>,
    entries: Entries,
    rows: FileEntries<'a, '_, H, R>,
) -> Result<Option<u8>, TextFault<'a>>
    requires { rows.text ≡ nothing_read }
{
    let alloc = rt.alloc();
    let mut receiver = FactWriter::new(alloc, entries.as_json, buffered(rt, alloc)?);
    let choice = choice_of(entries);
    let explained = explain_out(alloc, rack, start, &choice, rows, &mut receiver);
    written(receiver.into_writer(), explained)
}

/// Explains the rows of an audit text, and returns the exit status.
fn explain_out<'a, H: Runtime + AllocGlobal + Files<File = R>, R: Read + Drop, T: TakesFacts>(
    alloc: Global,
    rack: &str,
    start: Start<'_>,
    choice: &Choice,
    rows: FileEntries<'a, '_, H, R>,
    receiver: &mut T,
) -> Result<u8, TextFault<'a>>
    requires { rows.text ≡ nothing_read }
{
    let mut rows = rows;
    let explained = explain_from_start(alloc, rack, start, choice, &mut rows, receiver);
    files_of(&rows).ended(explained)
}

/// Explains rows from this start on, and returns the exit status.
fn explain_from_start<R: BufRead, T: TakesFacts>(
    alloc: Global,
    rack: &str,
    start: Start<'_>,
    choice: &Choice,
    rows: &mut TextRows<R>,
    receiver: &mut T,
) -> Result<u8, RunFault>
    requires { rows.old.text ≡ nothing_read }
{
    match start {
        Start::Header => run_explain(alloc, rack, rows, choice, receiver),
        Start::Head(line, head) => explain_behind(alloc, line, head, choice, rows, receiver),
    }
}

/// Explains the rows behind the head of a part of this line, and returns the exit status.
fn explain_behind<R: BufRead, T: TakesFacts>(
    alloc: Global,
    line: &LineSpec,
    head: &[u8],
    choice: &Choice,
    rows: &mut TextRows<R>,
    receiver: &mut T,
) -> Result<u8, RunFault>
    requires { rows.old.text ≡ nothing_read }
{
    // No line of an accepted rack has a fault.
    if line.fault().is_some() {
        return Err(RunFault::CannotRead);
    }
    match Follower::open_behind(alloc, line, head, &mut Text::new()) {
        Ok(follower) => {
            let mut follower = follower;
            match explain_entries(&mut follower, line, rows, choice, receiver) {
                Ok(status) => Ok(status),
                Err(fault) => Err(RunFault::of_rows(fault)),
            }
        }
        Err(fault) => report_verdict_to(Err(fault_of_head(line, fault)), receiver),
    }
}

/// Writes the verdict on a text that has this fault on standard output, and returns its exit status.
fn end_at(
    rt: &(impl Runtime + AllocGlobal),
    fault: AuditFault,
    entries: Entries,
) -> Result<u8, RunFault> {
    let alloc = rt.alloc();
    let mut receiver = FactWriter::new(alloc, entries.as_json, buffered(rt, alloc)?);
    let status = report_verdict_to(Err(fault), &mut receiver)?;
    flushed(receiver.into_writer())?;
    Ok(status)
}

/// Returns the entries that the words choose.
pub(crate) fn choice_of(entries: Entries) -> Choice {
    Choice {
        from: entries.from,
        to: entries.to,
        slave: entries.slave,
        master: entries.master,
        faults: entries.are_faults,
        refused: entries.are_refused,
        summary: entries.only_summary,
    }
}
