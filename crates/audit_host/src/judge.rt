//! Judges the masters of audit texts.

use crate::audit_text::{AuditText, FirstRow, entries_from_header, files_of, open_text};
use crate::fault::TextFault;
use crate::notes::note_first_part;
use crate::output::{buffered, written};
use crate::reasons::noted_reason;
use crate::stations::check_stations;
use judge_rules::JudgeRule;
use judge_texts::{Form, JudgeChoice, Least, run_judge};
use rack_script::RunFault;
use rackd_cli::{Entries, Findings, Judging};
use std::alloc::{AllocError, Global};
use std::fs::Files;
use std::io::{Read, Write};
use std::process::ExitCode;
use std::rt::Runtime;

/// Judges the masters of the audit text of these files on the rack that `rack` describes, and writes the findings on standard
/// output. If its reader ends before, the rest is not written, and that is no fault. `shows` is whether the progress of a long
/// text is shown on standard error.
///
/// Returns the exit status: 0 if the text is legal and no master broke a rule, else 1.
pub fn judge_text<'a, H: Runtime + AllocGlobal>(
    rt: &H,
    rack: &str,
    audit: &[&'a str],
    judging: Judging<'_>,
    shows: bool,
) -> Result<ExitCode, TextFault<'a>> {
    let Ok(rules) = rules_of(rt.alloc(), &judging) else {
        return Err(TextFault::Run(RunFault::OutOfMemory));
    };
    let choice = JudgeChoice {
        rules: rules.as_slice(),
        master: judging.master,
        retries: judging.retries,
        form: form_of(judging.findings),
        least: Least {
            requests: u64::from(judging.requests),
            exchanges: u64::from(judging.exchanges),
        },
        allows_untested: judging.allows_untested,
    };
    judge_by(rt, rack, audit, &choice, shows)
}

/// Judges the masters as this choice says.
fn judge_by<'a, H: Runtime + AllocGlobal>(
    rt: &H,
    rack: &str,
    audit: &[&'a str],
    choice: &JudgeChoice<'_>,
    shows: bool,
) -> Result<ExitCode, TextFault<'a>> {
    let (described, text) = open_text(rt, rack, audit, shows)?;
    check_stations(
        &described,
        text.front.as_slice(),
        only_master(choice.master),
    )?;
    let first_row = text.first_row();
    let Some(status) = judge_out(rt, rack, text, choice)? else {
        return Ok(ExitCode::SUCCESS);
    };
    if first_row == FirstRow::PartHeader {
        note_first_part(rt);
        return Ok(ExitCode::from(status));
    }
    noted_reason(rt, rack, &described, audit, first_row, status)
}

/// Judges an audit text, and writes the findings on standard output. Returns the exit status; None if standard output has no
/// reader any more.
fn judge_out<'a, H: Runtime + AllocGlobal + Files<File = R>, R: Read + Drop>(
    rt: &H,
    rack: &str,
    text: AuditText<'a, '_, H, R>,
    choice: &JudgeChoice<'_>,
) -> Result<Option<u8>, TextFault<'a>> {
    let mut output = buffered(rt, rt.alloc())?;
    let judged = judge_rows(rt.alloc(), rack, text, choice, &mut output);
    written(output, judged)
}

/// Judges an audit text, and returns the exit status.
fn judge_rows<'a, H: Runtime + AllocGlobal + Files<File = R>, R: Read + Drop, W: Write>(
    alloc: Global,
    rack: &str,
    text: AuditText<'a, '_, H, R>,
    choice: &JudgeChoice<'_>,
    output: &mut W,
) -> Result<u8, TextFault<'a>> {
    let mut rows = entries_from_header(alloc, text)?;
    let judged = run_judge(alloc, rack, &mut rows, choice, output);
    files_of(&rows).ended(judged)
}

/// Returns the choice of all entries of this master, which has to be a master of the line.
fn only_master(master: Option<u8>) -> Entries {
    Entries {
        from: None,
        to: None,
        slave: None,
        master,
        are_faults: false,
        are_refused: false,
        only_summary: false,
        as_json: false,
    }
}

/// Returns the rules that are judged by, in their order: those that are named, or all if none are, but for those that are
/// left out. `AllocError` if memory runs out.
fn rules_of(alloc: Global, judging: &Judging<'_>) -> Result<Vec<JudgeRule>, AllocError> {
    let mut rules = Vec::new(alloc);
    for rule in JudgeRule::ALL {
        if is_named(judging.rules, rule, true) && !is_named(judging.without, rule, false) {
            rules.push(rule)?;
        }
    }
    Ok(rules)
}

/// Returns whether a rule is among these names, separated by commas; without names, `otherwise`.
fn is_named(names: Option<&str>, rule: JudgeRule, otherwise: bool) -> bool {
    match names {
        Some(names) => names.split(',').any(|name| name == rule.name()),
        None => otherwise,
    }
}

/// Returns how findings are written.
fn form_of(findings: Findings) -> Form {
    match findings {
        Findings::Rows => Form::Rows,
        Findings::Json => Form::Json,
        Findings::Junit => Form::Junit,
    }
}
