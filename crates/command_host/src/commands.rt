//! The commands that read files and write to standard output.

use crate::files::read_file;
use crate::gsd::{write_gsd, write_modules, write_slave};
use crate::scripts::run_files;
use audit_host::{TextFault, capture_text, check_text, explain_text, follow_text, judge_text};
use rackd_cli::{AuditCommand, FileCommand};
use rackd_faults::{Fault, reported};
use std::process::ExitCode;
use std::rt::Runtime;
use std::sync::Wait;
use std::time::Clock;

/// Which standard streams are terminals.
#[derive(Clone, Copy)]
pub struct Terminals {
    /// Whether standard input is one.
    pub input: bool,
    /// Whether standard output is one.
    pub output: bool,
    /// Whether standard error is one.
    pub errors: bool,
}

/// Runs a command that reads files.
pub fn run_command<'a, H: Runtime + AllocGlobal + Wait + Clock>(
    rt: &H,
    command: FileCommand<'a>,
    terminals: Terminals,
) -> Result<ExitCode, Fault<'a>> {
    match command {
        FileCommand::Run { rack, script } => run_files(rt, rack, script),
        FileCommand::Audit {
            rack,
            audit,
            command,
        } => run_audit_command(rt, rack, audit.as_slice(), command, terminals),
        FileCommand::Gsd { rack, described } => write_gsd(rt, rack, described),
        FileCommand::Slave { gsd, modules } => write_slave(rt, gsd, modules.as_slice()),
        FileCommand::Modules { gsd } => write_modules(rt, gsd),
    }
}

/// Runs a command on the audit text of these files, on the rack of another. A capture is not written to a terminal.
fn run_audit_command<'a, H: Runtime + AllocGlobal + Wait + Clock>(
    rt: &H,
    rack: &'a str,
    audit: &[&'a str],
    command: AuditCommand<'_>,
    terminals: Terminals,
) -> Result<ExitCode, Fault<'a>> {
    if terminals.output && matches!(command, AuditCommand::Capture) {
        return Err(Fault::OutputIsTerminal);
    }
    let text = read_file(rt, rack)?;
    let done = audit_command_done(rt, text.as_str(), audit, command, terminals);
    reported(
        rt,
        rt.alloc(),
        rack,
        text.as_str(),
        done.map_err(Fault::from),
    )
}

/// Does what a command does with an audit text, and returns the exit status. What is written for each entry shows the progress
/// itself if it goes to a terminal.
fn audit_command_done<'a, H: Runtime + AllocGlobal + Wait + Clock>(
    rt: &H,
    rack: &str,
    audit: &[&'a str],
    command: AuditCommand<'_>,
    terminals: Terminals,
) -> Result<ExitCode, TextFault<'a>> {
    let (output, errors) = (terminals.output, terminals.errors);
    match command {
        AuditCommand::Check => check_text(rt, rack, audit, errors),
        AuditCommand::Explain(entries) => {
            let shows = errors && (entries.only_summary || !output);
            explain_text(rt, rack, audit, entries, shows)
        }
        AuditCommand::Follow(entries) => follow_text(rt, rack, audit, entries),
        AuditCommand::Judge(judging) => judge_text(rt, rack, audit, judging, errors && !output),
        AuditCommand::Capture => capture_text(rt, rack, audit, errors),
    }
}
