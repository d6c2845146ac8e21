//! Reports the row of an audit text that is not what the policy gives.

use crate::audit_text::AuditText;
use crate::cut_end::place_words;
use crate::fault::TextFault;
use crate::stations::line_of;
use crate::text_files::AuditFiles;
use explain_texts::{ReadFault, TextRows};
use rack_file::Rack;
use rack_script::{Difference, RunFault, difference_in};
use serve_log::Escaped;
use std::fs::Files;
use std::io::Read;
use std::rt::Runtime;

/// What is reported behind a row that is not what the policy gives.
const ANOTHER_RACK: &str = "  a check on another rack file than the line's own finds this too";

/// Reports the first row of an audit text that is not what the policy gives on a rack, and what it gives. The files of the
/// text are opened and read again. Nothing is reported if that fails.
pub(crate) fn note_difference<R: Read + Drop, H: Runtime + AllocGlobal + Files<File = R>>(
    rt: &H,
    rack: &Rack,
    audit: &[&str],
) -> Result<(), RunFault> {
    let Ok(files) = AuditFiles::open(rt, audit) else {
        return Ok(());
    };
    let text = match AuditText::read(rt.alloc(), rack, files) {
        Ok(text) => text,
        Err(TextFault::Run(RunFault::OutOfMemory)) => return Err(RunFault::OutOfMemory),
        Err(_) => return Ok(()),
    };
    let Some(line) = line_of(rack, text.front.as_slice()) else {
        return Ok(());
    };
    let mut rows = TextRows::new(rt.alloc(), text.reader);
    match difference_in(rt.alloc(), line, text.front.as_slice(), &mut rows) {
        Ok(Some(difference)) => {
            let others = audit.len().saturating_sub(1);
            report_difference(rt, &difference, others, rows.reader().get_ref().path());
        }
        Ok(None) => {}
        Err(ReadFault::OutOfMemory) => return Err(RunFault::OutOfMemory),
        Err(ReadFault::CannotRead | ReadFault::NotText) => {}
    }
    Ok(())
}

/// Reports a row that is not what the policy gives. `path` is the path of its file, and `others` is how many other files the text
/// has.
fn report_difference(errors: &impl Eprint, difference: &Difference, others: usize, path: &str) {
    let (row, written) = (difference.row, difference.written.as_str());
    let expected = difference.expected.as_str();
    let of = place_words(others);
    let _ = eprintln!(errors;
        "  row {row} of {of}{}: written \"{}\"",
        Escaped(path),
        Escaped(written)
    );
    if expected.is_empty() {
        let _ = eprintln!(errors; "  the policy gives no entry there");
    } else {
        let _ = eprintln!(errors; "  the policy gives \"{}\"", Escaped(expected));
    }
    let _ = errors.eprintln(ANOTHER_RACK);
}
