//! Reports faults on standard error, and returns exit statuses.

use crate::ending::{Fault, cause, status};
use crate::rack_cause::rack_cause;
use crate::rack_rows::{FoundRow, found_row};
use audit_files::AuditPath;
use rack_file::RackFault;
use rack_script::RunFault;
use serve_faults::ServeFault;
use serve_log::Escaped;
use std::alloc::Global;
use std::process::ExitCode;
use system_errors::Cause;

/// How the path of a file on the command line names standard input.
const STANDARD_INPUT: &str = "-";

/// What an audit text begins with.
const AUDIT_HEADER: &str = "rack-audit ";

/// Returns the exit status of what was done, and reports a fault.
pub fn ended(errors: &impl Eprint, done: Result<ExitCode, Fault<'_>>) -> ExitCode {
    match done {
        Ok(code) => code,
        Err(fault) => report(errors, fault),
    }
}

/// Reports a fault on standard error, and its cause in a second row, and returns its exit status.
pub fn report(errors: &impl Eprint, fault: Fault<'_>) -> ExitCode {
    // A closed or full standard error changes no status.
    let _ = errors.eprintln(Escaped(fault));
    if let Some(hint) = hint_of(fault) {
        let _ = errors.eprintln(hint);
    } else if let Some(cause) = cause(fault) {
        let _ = errors.eprintln(cause);
    }
    if let Fault::OtherText(_, first) = fault {
        let _ = eprintln!(errors;
            "  it belongs to another text than {first}; give the files of one text"
        );
    }
    ExitCode::from(status(fault))
}

/// Returns what is reported in place of the cause of a fault, if that says more.
fn hint_of(fault: Fault<'_>) -> Option<&'static str> {
    match fault {
        Fault::Serve(ServeFault::CannotMake(AuditPath::Folder(_), Cause::IsThere)) => {
            Some("  this is a file; '--audit' expects a folder, which may be missing")
        }
        Fault::CannotMake(_, Cause::NotThere) => {
            Some("  the folder of this file does not exist")
        }
        Fault::CannotMake(_, Cause::IsThere) => {
            Some(
                "  a file of this name exists; '--ports' only replaces one that names ports or is empty",
            )
        }
        _ => None,
    }
}

/// Returns the exit status of what was done with a rack, whose file has this path. If the rack is not accepted, reports this
/// here, with the reason in a second row, and the row of the file that it is about in a third.
pub fn reported<'a>(
    errors: &impl Eprint,
    alloc: Global,
    path: &str,
    rack: &str,
    done: Result<ExitCode, Fault<'a>>,
) -> Result<ExitCode, Fault<'a>> {
    let refused = match done {
        Err(Fault::Run(RunFault::Rack(refused))) => refused,
        Err(Fault::Serve(ServeFault::Rack(refused))) => refused,
        _ => return done,
    };
    let Ok(cause) = rack_cause(alloc, rack, refused) else {
        return Err(Fault::Run(RunFault::OutOfMemory));
    };
    let code = report(errors, Fault::Run(RunFault::Rack(refused)));
    if let Some(cause) = cause {
        report_cause(errors, path, rack, cause.as_str());
    }
    if refused == RackFault::NotToml && rack.starts_with(AUDIT_HEADER) {
        let _ = eprintln!(errors;
            "  {} is an audit text; the rack file comes first: rackd check RACK AUDIT..",
            Escaped(path)
        );
    }
    Ok(code)
}

/// Reports the cause for which a rack is not accepted, and the row of the file that it is about.
fn report_cause(errors: &impl Eprint, path: &str, rack: &str, cause: &str) {
    let _ = eprintln!(errors; "  {}", Escaped(cause));
    if let Some(found) = found_row(rack, cause) {
        report_row(errors, path, found);
    }
}

/// Reports a row of a rack file that is not accepted.
fn report_row(errors: &impl Eprint, path: &str, found: FoundRow<'_>) {
    let FoundRow {
        number,
        row,
        is_header,
        address,
    } = found;
    let path = if path == STANDARD_INPUT {
        "standard input"
    } else {
        path
    };
    let what = if is_header { "table" } else { "found" };
    if address.is_empty() {
        let _ = eprintln!(errors;
            "  row {number} of {}: {what} \"{}\"",
            Escaped(path),
            Escaped(row)
        );
    } else {
        let _ = eprintln!(errors;
            "  row {number} of {}, slave {}: {what} \"{}\"",
            Escaped(path),
            Escaped(address),
            Escaped(row)
        );
    }
}
