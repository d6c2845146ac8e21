//! What follows the findings: the summary, and the verdict on the text.

ghost use Rattle.std.specs.Prelude.{◌≡◌, ◌++◌, Some, IfSome};
ghost use Rattle.explain_texts.specs.Explained.{Leaves, verdict_text};
ghost use Rattle.explain_texts.specs.Json.{verdict_json};
ghost use Rattle.judge_texts.specs.Judging.{ending_in, exit_status, fails, least_if, summary_lines, summary_rows};
ghost use Rattle.judge_texts.specs.RowsJudged.{EndsText};

use crate::choice::{Form, JudgeChoice};
use crate::output::{write_bytes, write_text};
use dp_audit::AuditFault;
use dp_text::Text;
use explain_texts::{ExplainFault, set_json_verdict, set_verdict};
use judge_findings::{
    CountLines, CountRows, Junit, JunitVerdict, Least, LineJudge, Seat, UntestedLines, UntestedRows,
};
use judge_rules::JudgeRule;
use std::fmt;
use std::io::Write;

/// Writes the summary of a text with this verdict, and the verdict. Returns the exit status: 0 if the text is legal, no
/// master broke a rule whose severity is error, and nothing is untested or that is allowed; else 1.
pub(crate) fn write_end<W: Write>(
    judge: &LineJudge,
    verdict: Result<u32, AuditFault>,
    choice: &JudgeChoice<'_>,
    buffer: &mut String,
    writer: &mut W,
) -> Result<u8, ExplainFault>
    ensures { EndsText (exit_status (fails choice.now judge.now.seats) verdict) (ending_in choice.now.form choice.now.rules.now choice.now.least judge.now.seats verdict)
        (W.contents writer.old) (W.contents writer.new) result }
{
    match write_ending(judge.seats(), verdict, choice, buffer, writer) {
        Ok(()) => Ok(status_of(fails(judge, choice), verdict)),
        Err(fault) => Err(fault),
    }
}

/// Writes the summary and the verdict in the chosen form.
fn write_ending<W: Write>(
    seats: &[Seat],
    verdict: Result<u32, AuditFault>,
    choice: &JudgeChoice<'_>,
    buffer: &mut String,
    writer: &mut W,
) -> Result<(), ExplainFault>
    ensures { IfSome (ending_in choice.now.form choice.now.rules.now choice.now.least seats.now verdict) (λ ending. Leaves ending (W.contents writer.old) (W.contents writer.new) result) }
{
    let summary = Summary {
        seats,
        rules: choice.rules,
        least: least_if(verdict, choice.least),
    };
    match choice.form {
        Form::Rows => write_rows_end(summary, verdict, buffer, writer),
        Form::Json => write_lines_end(summary, verdict, buffer, writer),
        Form::Junit => write_junit(seats, choice, verdict, buffer, writer),
    }
}

/// Returns how much must be done, if the text is legal: what is untested is only written of a legal text.
fn least_if(verdict: Result<u32, AuditFault>, least: Least) -> Option<Least>
    ensures { result ≡ least_if verdict least }
{
    match verdict {
        Ok(_) => Some(least),
        Err(_) => None,
    }
}

/// Returns whether a master broke a rule whose severity is error, or something is untested and that is not allowed.
fn fails(judge: &LineJudge, choice: &JudgeChoice<'_>) -> bool
    ensures { result ≡ fails choice.now judge.now.seats }
{
    judge.has_error(choice.rules) || (!choice.allows_untested && judge.is_untested(choice.least))
}

/// What a summary is made of: the masters, the rules, and how much must be done, if the text is legal.
#[derive(Clone, Copy)]
struct Summary<'a> {
    seats: &'a [Seat],
    rules: &'a [JudgeRule],
    least: Option<Least>,
}

/// Writes the summary and the verdict as rows.
fn write_rows_end<W: Write>(
    summary: Summary<'_>,
    verdict: Result<u32, AuditFault>,
    buffer: &mut String,
    writer: &mut W,
) -> Result<(), ExplainFault>
    ensures { Leaves (summary_rows summary.entry.rules.now summary.entry.least summary.entry.seats.now ++ verdict_text verdict) (W.contents writer.old) (W.contents writer.new) result }
{
    match write_text(&SummaryRows(summary), buffer, writer) {
        Ok(()) => write_verdict_row(verdict, writer),
        Err(fault) => Err(fault),
    }
}

/// Writes the summary and the verdict as lines of JSON.
fn write_lines_end<W: Write>(
    summary: Summary<'_>,
    verdict: Result<u32, AuditFault>,
    buffer: &mut String,
    writer: &mut W,
) -> Result<(), ExplainFault>
    ensures { Leaves (summary_lines summary.entry.rules.now summary.entry.least summary.entry.seats.now ++ verdict_json verdict) (W.contents writer.old) (W.contents writer.new) result }
{
    match write_text(&SummaryLines(summary), buffer, writer) {
        Ok(()) => write_verdict_line(verdict, writer),
        Err(fault) => Err(fault),
    }
}

/// The summary of the findings, as rows.
#[derive(Clone, Copy)]
struct SummaryRows<'a>(Summary<'a>);

impl<'a> fmt::Display for SummaryRows<'a> {
    ghost output = { λ s. Some (summary_rows s.0.rules.now s.0.least s.0.seats.now) };

    fn fmt<W: fmt::Write>(&self, f: &mut fmt::Formatter<W>) -> fmt::Result {
        let Summary {
            seats,
            rules,
            least,
        } = self.0;
        let counts = CountRows { seats, rules };
        let untested = UntestedRows { seats, least };
        write!(f, "findings\n{counts}{untested}")
    }
}

/// The summary of the findings, as lines of JSON.
#[derive(Clone, Copy)]
struct SummaryLines<'a>(Summary<'a>);

impl<'a> fmt::Display for SummaryLines<'a> {
    ghost output = { λ s. Some (summary_lines s.0.rules.now s.0.least s.0.seats.now) };

    fn fmt<W: fmt::Write>(&self, f: &mut fmt::Formatter<W>) -> fmt::Result {
        let Summary {
            seats,
            rules,
            least,
        } = self.0;
        let counts = CountLines { seats, rules };
        let untested = UntestedLines { seats, least };
        write!(f, "{counts}{untested}")
    }
}

/// Writes the findings as JUnit XML. Its text is only tested.
fn write_junit<W: Write>(
    seats: &[Seat],
    choice: &JudgeChoice<'_>,
    verdict: Result<u32, AuditFault>,
    buffer: &mut String,
    writer: &mut W,
) -> Result<(), ExplainFault> {
    let verdict = match verdict {
        Ok(_) => JunitVerdict::Legal,
        Err(AuditFault::BadLine(row)) => JunitVerdict::BadLine(row),
        Err(AuditFault::NotThePolicy(row)) => JunitVerdict::NotThePolicy(row),
        Err(AuditFault::OutOfMemory) => return Err(ExplainFault::OutOfMemory),
    };
    let junit = Junit {
        seats,
        rules: choice.rules,
        verdict,
        least: choice.least,
    };
    write_text(&junit, buffer, writer)
}

/// Writes the verdict on a text, as a check writes it.
fn write_verdict_row<W: Write>(
    verdict: Result<u32, AuditFault>,
    writer: &mut W,
) -> Result<(), ExplainFault>
    ensures { Leaves (verdict_text verdict) (W.contents writer.old) (W.contents writer.new) result }
{
    let mut text = Text::new();
    set_verdict(&mut text, verdict);
    write_bytes(text.as_bytes(), writer)
}

/// Writes the verdict on a text, as an explanation writes it as a line of JSON.
fn write_verdict_line<W: Write>(
    verdict: Result<u32, AuditFault>,
    writer: &mut W,
) -> Result<(), ExplainFault>
    ensures { Leaves (verdict_json verdict) (W.contents writer.old) (W.contents writer.new) result }
{
    let mut text = Text::new();
    set_json_verdict(&mut text, verdict);
    write_bytes(text.as_bytes(), writer)
}

/// Returns the exit status of a text with this verdict. `fails` is whether there is an error, or something is untested
/// and that is not allowed.
fn status_of(fails: bool, verdict: Result<u32, AuditFault>) -> u8
    ensures { result ≡ exit_status fails verdict }
{
    if fails {
        return 1;
    }
    match verdict {
        Ok(_) => 0,
        Err(_) => 1,
    }
}
