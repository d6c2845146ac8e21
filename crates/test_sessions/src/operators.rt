//! Limits of the sessions of operators that no connection meets: passes that are all out, and reads that may not be made.

ghost use Rattle.std.specs.Prelude.{◌≡◌};
ghost use Rattle.dp_shared.specs.Passes.{line_of};

use crate::limits::{Limits, end_of};
use dp_line::{Device, LineSpec};
use dp_sessions::{Port, serve_operator};
use std::alloc::Global;
use std::sync::Wait;
use std::test::Fail;
use test_fixtures::line_specs::ample_line;
use test_fixtures::place::{Place, fresh_place};
use test_fixtures::rows::{closed_with, is_reported, many_passes};

/// Runs an operator's session at this port. Returns how it ended, what was written, and a bar.
fn session_at<T: Wait>(
    rt: &T,
    alloc: Global,
    port: &Port,
    spec: &LineSpec,
    limits: &Limits,
    octets: &[u8],
) -> Result<String, Fail>
    requires described { line_of port.now.line ≡ spec.now }
{
    let mut reader = limits.reader(octets);
    let mut writer = Vec::new(alloc);
    let end = serve_operator(rt, &mut reader, &mut writer, port, spec, limits.turns);
    let end = end_of(alloc, end, &reader)?;
    let written = String::from_utf8(writer)?;
    Ok(format!(in alloc; "{end}\n{written}|\n")?)
}

/// Runs an operator's session at a new port, while `out` passes of master 2 are out. Checks how it ended, what was written,
/// and, after a bar, the journal.
fn operates<T: Wait>(
    rt: &T,
    alloc: Global,
    out: usize,
    limits: &str,
    octets: &[u8],
    expected: &str,
) -> Result<(), Fail> {
    let spec = ample_line(alloc, 1, Device::Still)?;
    let Place { port, .. } = fresh_place(alloc, &spec)?;
    let passes = many_passes(rt, alloc, &port.line, 2, out)?;
    let limits = Limits::new(limits)?;
    let mut reported = session_at(rt, alloc, &port, &spec, &limits, octets)?;
    reported.push_str(&closed_with(alloc, port.line, passes)?)?;
    is_reported(reported, expected)
}

#[test]
fn no_pass(rt: HostRuntime) -> Result<(), Fail> {
    operates(
        &rt,
        rt.alloc(),
        64,
        "",
        b"tick 1\n",
        "\
NoPass 7 left 7
|
rack-audit 2 line 1
",
    )
}

#[test]
fn no_turn(rt: HostRuntime) -> Result<(), Fail> {
    operates(
        &rt,
        rt.alloc(),
        0,
        "turns=0",
        b"owned 1\n",
        "\
TurnLimit 6 left 8
|
rack-audit 2 line 1
",
    )
}

#[test]
fn turns(rt: HostRuntime) -> Result<(), Fail> {
    operates(
        &rt,
        rt.alloc(),
        0,
        "turns=1",
        b"owned 1\n",
        "\
TurnLimit 6
owned
|
rack-audit 2 line 1
",
    )
}
