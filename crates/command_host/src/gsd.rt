//! Writes GSD files of slaves, and slaves of GSD files.

use crate::files::{read_fault, read_file};
use audit_host::{buffered, flushed};
use gsd_files::PlugFault;
use gsd_slaves::{GsdFault, SlaveFault, list_modules, run_gsd, run_slave};
use rack_script::RunFault;
use rackd_cli::DescribedSlave;
use rackd_faults::{Fault, report, reported};
use serve_log::Escaped;
use std::fmt::Display;
use std::fs;
use std::process::ExitCode;
use std::rt::Runtime;

/// What is reported of a GSD file in UTF-16.
const UTF_16: &str = "the file is in UTF-16; save it as ISO 8859-1, or as ASCII";

/// Writes the GSD file of a slave of the rack of this file to standard output.
pub(crate) fn write_gsd<'a>(
    rt: &(impl Runtime + AllocGlobal),
    rack: &'a str,
    slave: DescribedSlave<'_>,
) -> Result<ExitCode, Fault<'a>> {
    let text = read_file(rt, rack)?;
    let mut output = buffered(rt, rt.alloc())?;
    let written = run_gsd(
        rt.alloc(),
        text.as_str(),
        slave.line,
        slave.address,
        slave.vendor,
        slave.model,
        &mut output,
    );
    flushed(output)?;
    let done = match written {
        Ok(()) => Ok(ExitCode::SUCCESS),
        Err(fault) => gsd_refused(rt, fault),
    };
    reported(rt, rt.alloc(), rack, text.as_str(), done)
}

/// Returns the fault of a GSD file that is not written. If a name is not accepted, reports this here, with the reason in a
/// second row, and returns the exit status.
fn gsd_refused<'a>(errors: &impl Eprint, fault: GsdFault) -> Result<ExitCode, Fault<'a>> {
    match fault {
        GsdFault::OutOfMemory => Err(Fault::Run(RunFault::OutOfMemory)),
        GsdFault::WriteFault => Err(Fault::Run(RunFault::WriteFault)),
        GsdFault::Rack(fault) => Err(Fault::Run(RunFault::Rack(fault))),
        GsdFault::NoLine(number) => Err(Fault::NoLine(number)),
        GsdFault::NoSlave(_, address) => Err(Fault::NoSlave(address)),
        GsdFault::Vendor(_) | GsdFault::Model(_) => Ok(report_reason(
            errors,
            Fault::BadName,
            fault,
        )),
    }
}

/// Writes the slave of this GSD file, with these modules plugged, to standard output.
pub(crate) fn write_slave<'a>(
    rt: &(impl Runtime + AllocGlobal),
    path: &'a str,
    modules: &[&str],
) -> Result<ExitCode, Fault<'a>> {
    let gsd = read_gsd_file(rt, path)?;
    if is_utf_16(gsd.as_slice()) {
        return Ok(report_reason(rt, Fault::BadGsd(path), UTF_16));
    }
    let mut output = buffered(rt, rt.alloc())?;
    let written = run_slave(
        rt.alloc(),
        without_mark(gsd.as_slice()),
        modules,
        &mut output,
    );
    flushed(output)?;
    match written {
        Ok(()) => Ok(ExitCode::SUCCESS),
        Err(fault) => slave_refused(rt, path, fault),
    }
}

/// Writes a row for each module and each slot of this GSD file to standard output.
pub(crate) fn write_modules<'a>(
    rt: &(impl Runtime + AllocGlobal),
    path: &'a str,
) -> Result<ExitCode, Fault<'a>> {
    let gsd = read_gsd_file(rt, path)?;
    if is_utf_16(gsd.as_slice()) {
        return Ok(report_reason(rt, Fault::BadGsd(path), UTF_16));
    }
    let mut output = buffered(rt, rt.alloc())?;
    let written = list_modules(rt.alloc(), without_mark(gsd.as_slice()), &mut output);
    flushed(output)?;
    match written {
        Ok(()) => Ok(ExitCode::SUCCESS),
        Err(fault) => slave_refused(rt, path, fault),
    }
}

/// Returns the bytes of a GSD file.
fn read_gsd_file<'a>(
    rt: &(impl Runtime + AllocGlobal),
    path: &'a str,
) -> Result<Vec<u8>, Fault<'a>> {
    fs::read(rt, path).map_err(|error| read_fault(error, path))
}

/// Returns whether a file begins with the mark of UTF-16.
fn is_utf_16(gsd: &[u8]) -> bool {
    gsd.starts_with(b"\xff\xfe") || gsd.starts_with(b"\xfe\xff")
}

/// Returns a file without the mark of UTF-8 at its front, which some editors write.
fn without_mark(gsd: &[u8]) -> &[u8] {
    match gsd {
        [0xEF, 0xBB, 0xBF, rest @ ..] => rest,
        _ => gsd,
    }
}

/// Returns the fault of a slave that is not written. If its GSD file or its modules are not accepted, reports this here, with
/// the reason in a second row, and returns the exit status.
fn slave_refused<'a>(
    errors: &impl Eprint,
    path: &'a str,
    fault: SlaveFault,
) -> Result<ExitCode, Fault<'a>> {
    match fault {
        SlaveFault::OutOfMemory => Err(Fault::Run(RunFault::OutOfMemory)),
        SlaveFault::WriteFault => Err(Fault::Run(RunFault::WriteFault)),
        SlaveFault::Row(reason) => Ok(report_reason(errors, Fault::BadGsd(path), reason)),
        SlaveFault::Modules(reason) => {
            let code = report_reason(errors, Fault::BadGsd(path), reason);
            if reason == PlugFault::ChooseModules {
                report_list(errors, path);
            }
            Ok(code)
        }
        SlaveFault::UnknownModule(reason) | SlaveFault::WrongModule(_, reason) => {
            let code = report_reason(errors, Fault::BadGsd(path), reason.as_str());
            report_list(errors, path);
            Ok(code)
        }
    }
}

/// Reports which command lists the modules and slots of a GSD file.
fn report_list(errors: &impl Eprint, path: &str) {
    let _ = eprintln!(errors;
        "  'rackd slave {} --list' lists the modules",
        Escaped(path)
    );
}

/// Reports a fault, and its reason in a second row. Returns the exit status.
fn report_reason<R: Display + Drop>(errors: &impl Eprint, fault: Fault<'_>, reason: R) -> ExitCode {
    let code = report(errors, fault);
    let _ = eprintln!(errors; "  {}", Escaped(reason));
    code
}
