//! The calls that allocate memory, except the pool.

ghost use Rattle.std.specs.Prelude.{◌≡◌, None};
ghost use Rattle.dp_line.specs.World.{description_of, opening_fault};

use crate::answer::Answer;
use crate::described::{ANSWERS, AUDIT, RACK, SCRIPT, VERDICT, described};
use crate::expecting::{Expecting, Written};
use dp_audit::{AuditFault, Book, check_text};
use dp_line::{LineSpec, LineState, OpenFault};
use dp_shared::{Claims, ClaimsFault, Line};
use rack_file::{RackFault, read_rack};
use rack_script::{RunFault, TextRows, run_check, run_text};
use std::alloc::Global;

/// Makes the call with this word.
pub(crate) fn made(alloc: Global, line: &LineSpec, word: &str) -> Answer
    requires { opening_fault (description_of line.now) ≡ None }
{
    match word {
        "line" => opened(LineState::open(alloc, line)),
        "book" => opened(Book::open(alloc, line)),
        "endless-book" => opened(Book::open_endless(alloc, line)),
        "shared-line" => opened(Line::open(alloc, line)),
        "endless-line" => endless_opened(alloc),
        "claims" => claims(alloc, line),
        "check-text" => text_checked(alloc, line),
        "rack" => rack_read(alloc),
        "script" => script_run(alloc),
        "check" => check_run(alloc),
        _ => Answer::NoCall,
    }
}

/// Returns the result of opening something.
fn opened<T: Drop>(ended: Result<T, OpenFault>) -> Answer {
    match ended {
        Ok(_) => Answer::Whole,
        Err(OpenFault::OutOfMemory) => Answer::Refused,
        Err(_) => Answer::Other,
    }
}

/// Opens the line as an endless one, which changes its description.
fn endless_opened(alloc: Global) -> Answer {
    match described(alloc) {
        Ok(mut line) => opened(Line::open_endless(alloc, &mut line)),
        Err(_) => Answer::Unprepared,
    }
}

/// Opens the claims of a line, with seats for four workers.
fn claims(alloc: Global, line: &LineSpec) -> Answer
    requires { opening_fault (description_of line.now) ≡ None }
{
    match Claims::open(alloc, line, 4) {
        Ok(opened) if opened.1.len() == 4 => Answer::Whole,
        Ok(_) => Answer::Other,
        Err(ClaimsFault::NoTable) => Answer::Refused,
    }
}

/// Checks the audit text on a line.
fn text_checked(alloc: Global, line: &LineSpec) -> Answer
    requires { opening_fault (description_of line.now) ≡ None }
{
    match check_text(alloc, line, AUDIT) {
        Ok(1) => Answer::Whole,
        Err(AuditFault::OutOfMemory) => Answer::Refused,
        _ => Answer::Other,
    }
}

/// Reads the rack.
fn rack_read(alloc: Global) -> Answer {
    match read_rack(alloc, RACK) {
        Ok(rack) if rack.lines.len() == 2 => Answer::Whole,
        Err(RackFault::OutOfMemory) => Answer::Refused,
        _ => Answer::Other,
    }
}

/// Runs the script on the rack.
fn script_run(alloc: Global) -> Answer {
    let written = Written::nothing();
    match run_text(alloc, RACK, SCRIPT, &mut Expecting::new(ANSWERS, &written)) {
        Ok(()) if written.is_whole(ANSWERS) => Answer::Whole,
        Err(RunFault::OutOfMemory) => refused(&written),
        _ => Answer::Other,
    }
}

/// Checks the audit text on the rack.
fn check_run(alloc: Global) -> Answer {
    let written = Written::nothing();
    let mut rows = TextRows::new(alloc, AUDIT.as_bytes());
    match run_check(
        alloc,
        RACK,
        &mut rows,
        &mut Expecting::new(VERDICT, &written),
    ) {
        Ok(0) if written.is_whole(VERDICT) => Answer::Whole,
        Err(RunFault::OutOfMemory) => refused(&written),
        _ => Answer::Other,
    }
}

/// Returns the result of a call that was refused and wrote this.
pub(crate) fn refused(written: &Written) -> Answer {
    if written.is_beginning() {
        Answer::Refused
    } else {
        Answer::NoBeginning
    }
}
