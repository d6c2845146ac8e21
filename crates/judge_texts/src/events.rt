//! Judges the events of a line, one after another.

ghost use Rattle.std.specs.Prelude.{◌≡◌, find, OnOk};
ghost use Rattle.explain_texts.specs.Explained.{Leaves};
ghost use Rattle.judge_rules.specs.Reading.{entry_read};
ghost use Rattle.judge_findings.specs.Lines.{is_seat_of, taken_at};
ghost use Rattle.judge_texts.specs.Judging.{findings_by, findings_in, findings_of, judges_after};

use crate::choice::{Form, JudgeChoice};
use crate::output::write_text;
use dp_line::{Event, Outcome};
use explain_texts::ExplainFault;
use judge_findings::{FindingLines, FindingRows, Judged, LineJudge};
use judge_rules::{Entry, entry_read};
use std::io::Write;

/// Judges an event that the line took at this place with this outcome, and writes its findings.
pub(crate) fn judge_event<W: Write>(
    judge: &mut LineJudge,
    place: u64,
    event: &Event,
    outcome: &Outcome,
    choice: &JudgeChoice<'_>,
    buffer: &mut String,
    writer: &mut W,
) -> Result<(), ExplainFault>
    ensures judges { OnOk result (judge.new ≡ judges_after choice.now judge.old place event.now (entry_read event.now outcome.now judge.old.time)) }
    ensures findings { Leaves (findings_of choice.now judge.old place (entry_read event.now outcome.now judge.old.time)) (W.contents writer.old) (W.contents writer.new) result }
{
    match entry_read(event, outcome, judge.time()) {
        Some((master, entry)) => {
            judge_entry(judge, master, &entry, place, choice, buffer, writer)
        }
        None => {
            judge.pass_time(event);
            Ok(())
        }
    }
}

/// Writes the findings of the next entry of a master, and takes the entry.
fn judge_entry<W: Write>(
    judge: &mut LineJudge,
    master: u8,
    entry: &Entry,
    place: u64,
    choice: &JudgeChoice<'_>,
    buffer: &mut String,
    writer: &mut W,
) -> Result<(), ExplainFault>
    ensures judges { OnOk result (judge.new ≡ record judge.old { seats = taken_at master entry.now place choice.now.rules.now judge.old.seats }) }
    ensures findings { Leaves (findings_by choice.now (find (is_seat_of master) judge.old.seats) entry.now place master) (W.contents writer.old) (W.contents writer.new) result }
{
    match write_findings(judge, master, entry, place, choice, buffer, writer) {
        Ok(()) => {
            judge.take(master, entry, place, choice.rules);
            Ok(())
        }
        Err(fault) => Err(fault),
    }
}

/// Writes the findings of the next entry of a master; none if the master is not judged.
fn write_findings<W: Write>(
    judge: &LineJudge,
    master: u8,
    entry: &Entry,
    place: u64,
    choice: &JudgeChoice<'_>,
    buffer: &mut String,
    writer: &mut W,
) -> Result<(), ExplainFault>
    ensures { Leaves (findings_by choice.now (find (is_seat_of master) judge.now.seats) entry.now place master) (W.contents writer.old) (W.contents writer.new) result }
{
    match judge.seat_of(master) {
        Some(seat) => {
            let judged = Judged {
                judge: seat.judge(),
                entry,
                place,
                master,
            };
            write_judged(judged, choice, buffer, writer)
        }
        None => Ok(()),
    }
}

/// Writes the findings of an entry in the chosen form; JUnit XML has none before its summary.
fn write_judged<W: Write>(
    judged: Judged<'_>,
    choice: &JudgeChoice<'_>,
    buffer: &mut String,
    writer: &mut W,
) -> Result<(), ExplainFault>
    ensures { Leaves (findings_in choice.now.form choice.now.rules.now judged.entry.judge.now judged.entry.entry.now judged.entry.place judged.entry.master) (W.contents writer.old) (W.contents writer.new) result }
{
    let rules = choice.rules;
    match choice.form {
        Form::Rows => write_text(&FindingRows { judged, rules }, buffer, writer),
        Form::Json => write_text(&FindingLines { judged, rules }, buffer, writer),
        Form::Junit => Ok(()),
    }
}
