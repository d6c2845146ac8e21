//! The gate of the sessions of a rack.

use audit_trail::RecordEntries;
use dp_audit::Receipt;
use dp_line::{Op, Step};
use dp_sessions::{DroppedOctets, Gate, NotRecorded, SessionEnd};
use dp_telegram::WholeFrame;
use log::Log;
use serve_clock::{Advance, LineClock};
use serve_log::{LineNumbers, Notes};
use std::sync::Wait;
use std::time::{Clock, Instant};

/// The milliseconds of a unit of time.
const UNIT: u64 = 10;

/// The clock of a line. Functions that start threads are generic over this trait, since the check derives from such a bound
/// that threads may share a clock.
pub trait KeepTime {
    /// Returns the number of the line.
    fn line(&self) -> u8;

    /// Advances the time of the line to a moment.
    fn advance<W: Wait, G: Gate>(&self, rt: &W, gate: &G, moment: u64) -> Advance;

    /// Has the devices of the line update the inputs of their slaves.
    fn step_devices<W: Wait, G: Gate>(&self, rt: &W, gate: &G);
}

impl KeepTime for LineClock<'_> {
    fn line(&self) -> u8 {
        self.line()
    }

    fn advance<W: Wait, G: Gate>(&self, rt: &W, gate: &G, moment: u64) -> Advance {
        self.advance(rt, gate, moment)
    }

    fn step_devices<W: Wait, G: Gate>(&self, rt: &W, gate: &G) {
        self.step_devices(rt, gate)
    }
}

/// A gate that keeps the time of lines. Functions that start threads are generic over it, as over [`KeepTime`].
pub trait TimedGate: Gate {
    /// Returns the milliseconds since the clocks were started, or 0 if the clock cannot be read.
    fn moment(&self) -> u64;

    /// Advances the time of all lines, and records their ticks.
    fn tick_all<W: Wait>(&self, rt: &W);

    /// Has the devices of all lines update the inputs of their slaves, and records these events.
    fn step_all<W: Wait>(&self, rt: &W);
}

/// The gate of the sessions of a rack: it reports what sessions do, records the entries of their lines, and advances the time
/// of a line before each exchange. The tick is recorded with the entry of the exchange.
#[derive(Drop)]
pub struct SessionGate<'a, H, C, D> {
    /// The host.
    pub host: &'a H,
    /// The reports on standard error.
    pub notes: &'a Notes<'a, H>,
    /// When the clocks were started.
    pub start: Option<Instant>,
    /// The clocks of the lines; none if the rack keeps no time.
    pub clocks: &'a [D],
    /// The numbers of the lines.
    pub numbers: LineNumbers,
    /// The recorders of the lines, in the same order.
    pub recorders: &'a [C],
}

impl<H: Wait + Log + Clock, C: RecordEntries, D: KeepTime> SessionGate<'_, H, C, D> {
    /// Advances the time of a line to this moment, and reports what was cut off.
    fn tick<W: Wait>(&self, rt: &W, clock: &D) {
        let Advance { cut_off, .. } = clock.advance(rt, self.notes, self.moment());
        if cut_off > 0 {
            let milliseconds = cut_off.saturating_mul(UNIT);
            self.notes.discarded(rt, clock.line(), milliseconds);
        }
    }
}

impl<H: Wait + Log + Clock, C: RecordEntries, D: KeepTime> TimedGate for SessionGate<'_, H, C, D> {
    fn moment(&self) -> u64 {
        let Some(start) = self.start else {
            return 0;
        };
        match start.elapsed(self.host) {
            Ok(passed) => u64::try_from(passed.as_millis()).unwrap_or(u64::MAX),
            Err(_) => 0,
        }
    }

    fn tick_all<W: Wait>(&self, rt: &W) {
        for clock in self.clocks {
            self.tick(rt, clock);
            // A recorder that fails stops serving.
            let _ = self.record(rt, clock.line(), None);
        }
        self.notes.report_delays(rt);
    }

    fn step_all<W: Wait>(&self, rt: &W) {
        for clock in self.clocks {
            clock.step_devices(rt, self);
        }
    }
}

impl<H: Wait + Log + Clock, C: RecordEntries, D: KeepTime> Gate for SessionGate<'_, H, C, D> {
    /// A recorder says that the entry is recorded.
    ghost recorded = { λ gate line place. (recorder : C) × C.recorded recorder line place };

    fn enter<W: Wait>(&self, rt: &W, line: u8, _master: u8) {
        for clock in self.clocks {
            if clock.line() == line {
                self.tick(rt, clock);
            }
        }
    }

    fn record<W: Wait>(&self, rt: &W, line: u8, place: Option<u32>) -> Result<(), NotRecorded> {
        let found = self.numbers.iter().position(|number| *number == line);
        let Some(index) = found else {
            return Err(NotRecorded);
        };
        let Some(recorder) = self.recorders.get(index) else {
            return Err(NotRecorded);
        };
        match recorder.record(rt, line, place) {
            Ok(()) => Ok(()),
            Err(_) => Err(NotRecorded),
        }
    }

    fn accepted<W: Wait>(&self, rt: &W, line: u8, master: u8) {
        self.notes.accepted(rt, line, master);
    }

    fn answered<W: Wait>(
        &self,
        rt: &W,
        line: u8,
        master: u8,
        frame: &WholeFrame<'_>,
        answer: &Step,
    ) {
        self.notes.answered(rt, line, master, frame, answer);
    }

    fn dropped<W: Wait>(&self, rt: &W, line: u8, master: u8, dropped: &DroppedOctets) {
        self.notes.dropped(rt, line, master, dropped);
    }

    fn ended<W: Wait>(&self, rt: &W, line: u8, master: u8, end: SessionEnd) {
        self.notes.ended(rt, line, master, end);
    }

    fn rejected<W: Wait>(&self, rt: &W, port: u8, address: Option<u8>, end: SessionEnd) {
        self.notes.rejected(rt, port, address, end);
    }

    fn operates<W: Wait>(&self, rt: &W, line: u8, op: &Op) {
        self.notes.operates(rt, line, op);
    }

    fn operated<W: Wait>(&self, rt: &W, line: u8, receipt: &Receipt) {
        self.notes.operated(rt, line, receipt);
    }
}
