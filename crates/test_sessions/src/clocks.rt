//! The clock of a line: how far the time advances, and what the journal has of it.

ghost use Rattle.std.specs.Prelude.{◌≡◌};
ghost use Rattle.dp_shared.specs.Passes.{line_of};

use dp_line::{Device, LineSpec};
use dp_sessions::{OpenGate, Port};
use serve_clock::LineClock;
use std::alloc::Global;
use std::sync::Wait;
use std::test::Fail;
use test_fixtures::line_specs::ample_line;
use test_fixtures::place::{Place, fresh_place};
use test_fixtures::rows::{ARROW, closed_with, is_reported};

/// Advances the time of a line to the moment of a row, or has its devices step. Returns the units that passed and those
/// that were cut off.
fn play<R: Wait>(rt: &R, alloc: Global, clock: &LineClock<'_>, row: &str) -> Result<String, Fail> {
    if row == "step" {
        clock.step_devices(rt, &OpenGate);
        return Ok(String::from_str(alloc, "done")?);
    }
    let advance = clock.advance(rt, &OpenGate, row.parse::<u64>()?);
    let (units, cut_off) = (advance.units, advance.cut_off);
    Ok(format!(in alloc; "{units} and {cut_off}")?)
}

/// Carries out each line of a transcript that has an arrow. Returns each line with its result.
fn played_by<R: Wait>(
    rt: &R,
    alloc: Global,
    clock: &LineClock<'_>,
    rows: &str,
) -> Result<String, Fail> {
    let mut played = String::new(alloc);
    for row in rows.lines() {
        if let Some((what, _)) = row.split_once(ARROW) {
            let result = play(rt, alloc, clock, what)?;
            played.push_str(&format!(in alloc; "{what}{ARROW}{result}\n")?)?;
        }
    }
    Ok(played)
}

/// Carries out a transcript with a new clock. Returns each line with its result.
fn play_rows<R: Wait>(
    rt: &R,
    alloc: Global,
    port: &Port,
    spec: &LineSpec,
    tick: u32,
    rows: &str,
) -> Result<String, Fail>
    requires described { line_of port.now.line ≡ spec.now }
{
    let Some(clock) = LineClock::open(rt, port, spec, Some(tick)) else {
        return Err(Fail::new("no pass"));
    };
    let played = played_by(rt, alloc, &clock, rows)?;
    clock.close(rt);
    Ok(played)
}

/// Checks the transcript of a new clock and its line: in each line with an arrow a moment or `step`, and the result; then
/// the audit text of the line, which closes because the clock has handed its pass back.
fn check_clock<R: Wait>(rt: &R, alloc: Global, tick: u32, transcript: &str) -> Result<(), Fail> {
    let spec = ample_line(alloc, 1, Device::Counter)?;
    let Place { port, .. } = fresh_place(alloc, &spec)?;
    let mut played = play_rows(rt, alloc, &port, &spec, tick, transcript)?;
    played.push_str(&closed_with(alloc, port.line, Vec::new(alloc))?)?;
    is_reported(played, transcript)
}

/// At each moment the whole units pass that weren't counted, at most twice the 100 ms; the others are cut off.
#[test]
fn time_passes_to_the_unit(rt: HostRuntime) -> Result<(), Fail> {
    check_clock(
        &rt,
        rt.alloc(),
        100,
        "\
9 -> 0 and 0
25 -> 2 and 0
29 -> 0 and 0
step -> done
31 -> 1 and 0
1000 -> 20 and 77
999 -> 0 and 0
1010 -> 1 and 0
rack-audit 2 line 1
1 tick 2 | none | released
2 in 5 0001 | WaitPrm none | done
3 tick 1 | none | released
4 tick 20 | none | released
5 tick 1 | none | released
",
    )
}
