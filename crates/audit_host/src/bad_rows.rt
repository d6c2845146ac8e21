//! Reports the row of an audit text that is badly formed.

use crate::audit_text::HEADER;
use crate::cut_end::place_words;
use crate::text_files::{AuditFiles, rows_of};
use audit_parts::is_part_header;
use dp_audit::{set_header_line, version_of};
use dp_text::Text;
use explain_texts::{ReadFault, TextRows};
use rack_file::Rack;
use rack_script::RunFault;
use serve_log::Escaped;
use std::io::{BufRead, Eprint};
use std::rt::Runtime;
use std::str::from_utf8;

/// What is reported of a row that ends in CR LF.
const CRLF: &str =
    "  it ends in CR LF; the rows of an audit text end in LF only, as 'dos2unix' writes them";

/// What is reported of a row for which nothing else is.
const BADLY_FORMED: &str = "the row is badly formed";

/// What is reported of a text that begins as the output of `serve`.
const READY: &str = "  leave out the row \"ready\", with which the output of 'rackd serve' begins";

/// Reports the row with this number, from 1, of the audit text of these files, which is badly formed. `is_of_head` is whether it
/// is one of the head with which the text begins. The files are opened and read again. Nothing is reported if that fails.
pub(crate) fn note_bad_row<H: Runtime + AllocGlobal>(
    rt: &H,
    rack: &Rack,
    audit: &[&str],
    number: usize,
    is_of_head: bool,
) -> Result<(), RunFault> {
    let Ok(files) = AuditFiles::open(rt, audit) else {
        return Ok(());
    };
    let mut rows = rows_of(files)?;
    let others = audit.len().saturating_sub(1);
    match find_row(rack, &mut rows, number, is_of_head) {
        Ok(true) => {
            let place = Place {
                number,
                others,
                path: rows.reader().get_ref().path(),
            };
            if rows.is_whole() || !rows.row().is_empty() {
                report_row(rt, &place, rows.row());
            } else {
                let _ = eprintln!(rt; "  {} is empty", Escaped(place.path));
            }
            report_expected(rt, rack, number, rows.row());
        }
        Ok(false) => {
            let _ = eprintln!(rt; "  row {number} of the text: {BADLY_FORMED}");
        }
        Err(ReadFault::OutOfMemory) => return Err(RunFault::OutOfMemory),
        Err(ReadFault::CannotRead | ReadFault::NotText) => {}
    }
    Ok(())
}

/// A row of a text, by its number, from 1, the number of files that the text has beside this one, and the path of its file.
#[derive(Clone, Copy)]
struct Place<'a> {
    number: usize,
    others: usize,
    path: &'a str,
}

/// Reads on to the row of a text with this number. Returns whether it is the current row then: behind the head of a part, rows
/// are not counted here.
fn find_row<R: BufRead>(
    rack: &Rack,
    rows: &mut TextRows<R>,
    number: usize,
    is_of_head: bool,
) -> Result<bool, ReadFault> {
    for before in 0..number {
        let is_whole = rows.read_row()?;
        let ends_here = before + 1 == number;
        if !is_whole || ends_here {
            return Ok(ends_here);
        }
        if begins_part(rack, before, rows.row()) && !is_of_head {
            return Ok(false);
        }
    }
    Ok(false)
}

/// Returns whether a row of a text, which has this number of rows before it, begins the head of a part.
fn begins_part(rack: &Rack, before: usize, row: &[u8]) -> bool {
    if before > 0 {
        return row.starts_with(HEADER);
    }
    rack.lines
        .iter()
        .any(|line| is_part_header(&line.spec, row))
}

/// Reports what is found in a row that is badly formed.
fn report_row(errors: &impl Eprint, place: &Place<'_>, row: &[u8]) {
    let Place {
        number,
        others,
        path,
    } = *place;
    let of = place_words(others);
    if row.is_empty() {
        let _ = eprintln!(errors; "  row {number} of {of}{}: the row is empty", Escaped(path));
        return;
    }
    match from_utf8(row) {
        Ok(row) => {
            let _ = eprintln!(errors;
                "  row {number} of {of}{}: found \"{}\"",
                Escaped(path),
                Escaped(row)
            );
        }
        Err(_) => {
            let _ = eprintln!(errors; "  row {number} of {of}{}: it is not UTF-8", Escaped(path));
        }
    }
}

/// Reports what was expected in place of a row that is badly formed.
fn report_expected(errors: &impl Eprint, rack: &Rack, number: usize, row: &[u8]) {
    if number == 1 {
        report_header(errors, rack);
    }
    if row.ends_with(b"\r") {
        let _ = errors.eprintln(CRLF);
    } else if row == b"ready".as_slice() {
        let _ = errors.eprintln(READY);
    } else if number > 1 {
        let _ = eprintln!(errors; "  {BADLY_FORMED}");
    }
}

/// Reports which header an audit text of a rack begins with.
fn report_header(errors: &impl Eprint, rack: &Rack) {
    let Some(line) = rack.lines.first() else {
        return;
    };
    let mut text = Text::new();
    set_header_line(&mut text, version_of(0), line.spec.number);
    let Ok(header) = from_utf8(text.as_bytes()) else {
        return;
    };
    let header = header.trim_end();
    if rack.lines.len() > 1 {
        let _ = eprintln!(errors;
            "  expected \"{header}\", or the header of another line of the rack"
        );
    } else {
        let _ = eprintln!(errors; "  expected \"{header}\"");
    }
}
