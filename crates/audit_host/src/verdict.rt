//! The verdict of a check of an audit text.

ghost use Rattle.std.specs.Prelude.{◌≡◌};
ghost use Rattle.explain_texts.specs.TextRows.{nothing_read};

use crate::audit_text::{AuditText, Beginning, entries_of, files_of};
use crate::fault::TextFault;
use crate::text_files::FileReader;
use audit_parts::PartsCheck;
use dp_audit::AuditFault;
use explain_texts::{RowWriter, TextRows};
use rack_script::{RunFault, report_verdict_to, run_check, run_parts_check};
use std::alloc::Global;
use std::fs::Files;
use std::io::{BufRead, Read};
use std::rt::Runtime;
use std::str::from_utf8;

/// The most bytes of the row of a verdict.
const LONGEST: usize = 64;

/// The verdict of a check of an audit text.
#[derive(Drop)]
pub(crate) struct Verdict {
    /// The exit status.
    pub(crate) status: u8,
    /// The row of the verdict, with its LF.
    pub(crate) row: Vec<u8>,
    /// Whether it is about the head with which the text begins.
    pub(crate) is_of_head: bool,
    /// Whether the text ends within the last row that was read.
    is_cut: bool,
}

impl Verdict {
    /// Returns the number of the row within which the text ends, in digits; None if another row is wrong, or none.
    pub(crate) fn cut_row(&self) -> Option<&str> {
        if self.is_cut { self.bad_line() } else { None }
    }

    /// Returns the number of the row that is badly formed; None if there is none.
    pub(crate) fn bad_row(&self) -> Option<usize> {
        self.bad_line()?.parse().ok()
    }

    /// Returns the number of the row that is badly formed, in digits; None if there is none.
    fn bad_line(&self) -> Option<&str> {
        let Ok(row) = from_utf8(self.row.as_slice()) else {
            return None;
        };
        row.strip_prefix("bad line ")?.strip_suffix('\n')
    }
}

/// Checks an audit text that has no parts.
fn check_rows<R: BufRead>(
    alloc: Global,
    rack: &str,
    rows: &mut TextRows<R>,
) -> Result<Verdict, RunFault>
    requires { rows.old.text ≡ nothing_read }
{
    let mut row = new_row(alloc)?;
    let status = run_check(alloc, rack, rows, &mut row)?;
    let is_cut = !rows.is_whole() && !rows.row().is_empty();
    Ok(Verdict {
        status,
        row,
        is_of_head: false,
        is_cut,
    })
}

/// Checks the rows of an audit text behind its beginning. A text that ends within the head of a part ends within a row.
fn check_part_rows<R: BufRead>(
    alloc: Global,
    check: PartsCheck,
    rows: &mut TextRows<R>,
) -> Result<Verdict, RunFault>
    requires { rows.old.text ≡ nothing_read }
{
    let mut check = check;
    let mut row = new_row(alloc)?;
    let status = run_parts_check(&mut check, rows, &mut row)?;
    let is_cut = !rows.is_whole();
    Ok(Verdict {
        status,
        row,
        is_of_head: false,
        is_cut,
    })
}

/// Returns the verdict on a text that begins with a head that has this fault. `front` has the rows of the head that were read.
fn verdict_on_head(alloc: Global, front: &[u8], fault: AuditFault) -> Result<Verdict, RunFault> {
    let mut row = new_row(alloc)?;
    let status = report_verdict_to(Err(fault), &mut RowWriter::new(alloc, &mut row))?;
    let is_cut = !front.ends_with(b"\n");
    Ok(Verdict {
        status,
        row,
        is_of_head: true,
        is_cut,
    })
}

/// Checks an audit text on the rack that `rack` describes.
pub(crate) fn verdict_of<'a, H: Runtime + AllocGlobal + Files<File = R>, R: Read + Drop>(
    alloc: Global,
    rack: &str,
    text: AuditText<'a, '_, H, R>,
) -> Result<Verdict, TextFault<'a>> {
    let AuditText {
        beginning,
        front,
        reader,
    } = text;
    match beginning {
        Beginning::NoPart => check_whole(alloc, rack, front, reader),
        Beginning::FirstPart(check) => check_parts(alloc, check, reader),
        Beginning::LaterPart(_, check) => check_parts(alloc, check, reader),
        Beginning::WrongHead(fault) => Ok(verdict_on_head(alloc, front.as_slice(), fault)?),
    }
}

/// Checks an audit text that has no parts. `first` is its first row.
fn check_whole<'a, H: Runtime + AllocGlobal + Files<File = R>, R: Read + Drop>(
    alloc: Global,
    rack: &str,
    first: Vec<u8>,
    reader: FileReader<'a, '_, H, R>,
) -> Result<Verdict, TextFault<'a>> {
    let mut rows = entries_of(alloc, None, first, reader)?;
    let checked = check_rows(alloc, rack, &mut rows);
    files_of(&rows).ended(checked)
}

/// Checks an audit text in parts behind its beginning.
fn check_parts<'a, H: Runtime + AllocGlobal + Files<File = R>, R: Read + Drop>(
    alloc: Global,
    check: PartsCheck,
    reader: FileReader<'a, '_, H, R>,
) -> Result<Verdict, TextFault<'a>> {
    let mut rows = TextRows::new(alloc, reader);
    let checked = check_part_rows(alloc, check, &mut rows);
    rows.reader().get_ref().ended(checked)
}

/// Returns an empty row with room for a verdict.
fn new_row(alloc: Global) -> Result<Vec<u8>, RunFault> {
    match Vec::with_capacity(alloc, LONGEST) {
        Ok(row) => Ok(row),
        Err(_) => Err(RunFault::OutOfMemory),
    }
}
