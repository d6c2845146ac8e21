//! Runs scripts.

use crate::files::{read_fault, read_file};
use crate::script_form::form_in;
use audit_host::{buffered, flushed};
use rack_script::{RunFault, run_text, split_input};
use rackd_faults::{Fault, report, reported};
use std::alloc::Global;
use std::io;
use std::process::ExitCode;
use std::rt::Runtime;

/// How faults name standard input.
const STANDARD_INPUT: &str = "-";

/// Runs the script of standard input on the rack of standard input.
pub fn run_input<'a>(rt: &(impl Runtime + AllocGlobal)) -> Result<ExitCode, Fault<'a>> {
    let text = io::read_to_string(rt.alloc(), rt.reader()).map_err(|error| read_fault(
        error,
        STANDARD_INPUT,
    ))?;
    let (rack, script) = split_input(text.as_str());
    let ran = run_out(rt, rack, script);
    let ran = reported_script(rt, script, ran);
    reported(rt, rt.alloc(), STANDARD_INPUT, rack, ran)
}

/// Runs the script of one file on the rack of another.
pub(crate) fn run_files<'a>(
    rt: &(impl Runtime + AllocGlobal),
    rack: &'a str,
    script: &'a str,
) -> Result<ExitCode, Fault<'a>> {
    let text = read_file(rt, rack)?;
    let script = read_file(rt, script)?;
    let ran = run_out(rt, text.as_str(), script.as_str());
    let ran = reported_script(rt, script.as_str(), ran);
    reported(rt, rt.alloc(), rack, text.as_str(), ran)
}

/// Returns the exit status of a script. If one of its lines is not accepted, reports this here, with the form of its command
/// in a second row.
fn reported_script<'a>(
    errors: &impl Eprint,
    script: &str,
    ran: Result<ExitCode, Fault<'a>>,
) -> Result<ExitCode, Fault<'a>> {
    let Err(Fault::Run(RunFault::Script(number))) = ran else {
        return ran;
    };
    let code = report(errors, Fault::Run(RunFault::Script(number)));
    let _ = eprintln!(errors; "  {}", form_in(script, number));
    Ok(code)
}

/// Runs a script on a rack, and writes the answers on standard output.
fn run_out<'a>(
    rt: &(impl Runtime + AllocGlobal),
    rack: &str,
    script: &str,
) -> Result<ExitCode, Fault<'a>> {
    let mut output = buffered(rt, rt.alloc())?;
    let ran = run_text(rt.alloc(), rack, script, &mut output);
    flushed(output)?;
    ran?;
    Ok(ExitCode::SUCCESS)
}
