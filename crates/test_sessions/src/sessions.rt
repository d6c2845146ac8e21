//! Limits of the sessions of masters that no connection meets: passes that are all out, and reads that may not be made.

ghost use Rattle.std.specs.Prelude.{◌≡◌, None};

use crate::limits::{Limits, end_of};
use dp_line::Device;
use dp_sessions::{OpenGate, Port, serve};
use dp_shared::WorkerSeat;
use std::alloc::Global;
use std::sync::Wait;
use std::test::Fail;
use test_fixtures::line_specs::ample_line;
use test_fixtures::place::{Place, fresh_place};
use test_fixtures::rows::{ARROW, closed_with, hex_of, is_reported, many_passes, octets_of};

/// A worker's seat at a port, and the results of its sessions.
#[derive(Drop)]
struct Worker<'a> {
    port: &'a Port,
    seat: WorkerSeat,
    reported: String,
    ghost ours: { seat.table ≡ port.now.claims.table },
    ghost free: { seat.view.held ≡ None },
}

impl Worker<'_> {
    /// Serves the session of a row `HEX LIMITS`, and adds the row with how it ended and what was written.
    fn serve<T: Wait>(&mut self, rt: &T, alloc: Global, text: &str) -> Result<(), Fail> {
        let (octets, limits) = text.split_once(' ').unwrap_or((text, ""));
        let octets = octets_of(octets)?;
        let limits = Limits::new(limits)?;
        let mut reader = limits.reader(octets.as_slice());
        let mut writer = Vec::new(alloc);
        let end = serve(
            rt,
            &mut reader,
            &mut writer,
            self.port,
            &mut self.seat,
            &OpenGate,
            limits.turns,
        );
        let end = end_of(alloc, end, &reader)?;
        let written = hex_of(alloc, writer.as_slice())?;
        let row = format!(in alloc; "{text}{ARROW}{end} {written}\n")?;
        self.reported.push_str(&row)?;
        Ok(())
    }

    /// Serves the sessions of the rows that have an arrow, one after another.
    fn serve_all<T: Wait>(&mut self, rt: &T, alloc: Global, rows: &str) -> Result<(), Fail> {
        for row in rows.lines() {
            if let Some((text, _)) = row.split_once(ARROW) {
                self.serve(rt, alloc, text)?;
            }
        }
        Ok(())
    }
}

/// Serves the sessions of the rows that have an arrow by a new worker. Returns each row with its result.
fn reported_at<T: Wait>(
    rt: &T,
    alloc: Global,
    port: &Port,
    seat: WorkerSeat,
    rows: &str,
) -> Result<String, Fail>
    requires ours { seat.table ≡ port.now.claims.table }
    requires free { seat.view.held ≡ None }
{
    let mut worker = Worker {
        port,
        seat,
        reported: String::new(alloc),
    };
    worker.serve_all(rt, alloc, rows)?;
    Ok(worker.reported)
}

/// Checks the transcript of a new port, while `out` passes of master 2 are out: sessions one after another, and the journal.
fn serves<T: Wait>(rt: &T, alloc: Global, out: usize, transcript: &str) -> Result<(), Fail> {
    let Place { port, first, .. } = fresh_place(alloc, &ample_line(alloc, 1, Device::Still)?)?;
    let passes = many_passes(rt, alloc, &port.line, 2, out)?;
    let mut reported = reported_at(rt, alloc, &port, first, transcript)?;
    reported.push_str(&closed_with(alloc, port.line, passes)?)?;
    is_reported(reported, transcript)
}

/// Each read counts, whether it returns the address, one octet or two. Without a read nothing is read.
#[test]
fn turns(rt: HostRuntime) -> Result<(), Fail> {
    serves(
        &rt,
        rt.alloc(),
        0,
        "\
01 turns=0 -> TurnLimit 6 left 1 -
01 turns=1 -> TurnLimit 6 e5
01 -> EndOfInput 1 e5
02100502495016 turns=3 by=2 -> TurnLimit 6 left 2 e5
02100502495016 turns=4 by=2 -> TurnLimit 6 e5100205000716
02100502495016 turns=5 by=2 -> EndOfInput 1 e5100205000716
rack-audit 2 line 1
1 req 2 100502495016 | WaitPrm none | reply 100205000716 Status
2 req 2 100502495016 | WaitPrm none | reply 100205000716 Status
",
    )
}

#[test]
fn no_pass(rt: HostRuntime) -> Result<(), Fail> {
    serves(
        &rt,
        rt.alloc(),
        64,
        "\
01 -> NoPass 7 -
rack-audit 2 line 1
",
    )
}
