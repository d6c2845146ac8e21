//! The clock of a line that threads share.
//!
//! A session that is about to exchange a request advances the time first. It takes the lock only if a unit has passed
//! that was not counted yet, and the lock is held only while the line takes a tick. So a session waits for another one,
//! or for the thread of the clock, only while the tick is taken that it needs itself.

ghost use Rattle.std.specs.Prelude.{◌≡◌, ◌≤◌, ◌+◌};
ghost use Rattle.dp_shared.specs.Passes.{line_of};
ghost use Rattle.serve_clock.specs.Advances.{IsTickOf};
ghost use Rattle.serve_clock.specs.Moments.{units_passed};

use crate::counted_units::CountedUnits;
use crate::line_time::Advance;
use crate::ticker::{Ticked, Ticker};
use dp_line::LineSpec;
use dp_sessions::{Gate, Port, serve_operator_at};
use std::io;
use std::sync::{Mutex, Wait};

/// The line of an operator that updates the inputs of the devices.
const STEP: &[u8] = b"step\n";

/// The most reads of a step: one that returns the line, and one that returns the end.
const STEP_READS: u32 = 2;

/// A clock that has not advanced.
const NOTHING: Advance = Advance {
    units: 0,
    cut_off: 0,
};

/// The clock of a line.
#[derive(Drop)]
pub struct LineClock<'l> {
    port: &'l Port,
    spec: &'l LineSpec,
    /// The units of time that were counted, for a session to which they suffice.
    counted: CountedUnits,
    /// What sends ticks; None if the line has no ticks.
    ticker: Mutex<Option<Ticker<'l>>>,
    ghost described: { line_of port.now.line ≡ spec.now },
}

impl<'l> LineClock<'l> {
    /// Returns the clock of the line of a port at moment 0, with a tick at least each `tick` milliseconds, 10 or more, or
    /// with no ticks if it is None. The description is that of the line. It waits for the line.
    ///
    /// Returns None if the line gives no pass.
    pub fn open<T: Wait>(
        rt: &T,
        port: &'l Port,
        spec: &'l LineSpec,
        tick: Option<u32>,
    ) -> Option<LineClock<'l>>
        requires described { line_of port.now.line ≡ spec.now }
    {
        let Some(tick) = tick else {
            return Some(LineClock {
                port,
                spec,
                counted: CountedUnits::all(),
                ticker: Mutex::new(None),
            });
        };
        let ticker = Ticker::open(rt, &port.line, tick)?;
        Some(LineClock {
            port,
            spec,
            counted: CountedUnits::none(),
            ticker: Mutex::new(Some(ticker)),
        })
    }

    /// Returns the number of the line.
    pub fn line(&self) -> u8
        ensures { result ≡ (self.now.spec).now.number }
    {
        self.spec.number
    }

    /// Advances the time of the line to a moment, and reports the tick to the gate. When it returns, all units that have
    /// passed by the moment are counted. It waits for the line, and for another call that takes a tick.
    pub fn advance<T: Wait, G: Gate>(&self, rt: &T, gate: &G, moment: u64) -> Advance
        ensures { result.units + result.cut_off ≤ units_passed moment }
    {
        if self.counted.include(moment) {
            return NOTHING;
        }
        let Ticked { advance, receipt } = self.tick(rt, moment);
        if let Some(receipt) = &receipt {
            gate.operated(rt, self.spec.number, receipt);
        }
        advance
    }

    /// Has the line take the tick of a moment, and then counts its units. In the other order a session to which they suffice
    /// could exchange before the tick is in the journal.
    fn tick<T: Wait>(&self, rt: &T, moment: u64) -> Ticked
        ensures within { result.advance.units + result.advance.cut_off ≤ units_passed moment }
        ensures receipt { IsTickOf result.advance.units result.receipt }
    {
        let mut ticker = self.ticker.lock(rt);
        match &mut *ticker {
            Some(ticker) => {
                let ticked = ticker.advance(rt, moment);
                self.counted.count(ticker, ticker.counted());
                ticked
            }
            None => Ticked {
                advance: NOTHING,
                receipt: None,
            },
        }
    }

    /// Has each device update the inputs of its slave once, and reports this to the gate, as a session of an operator does
    /// that sends `step`. It waits for the line.
    pub fn step_devices<T: Wait, G: Gate>(&self, rt: &T, gate: &G) {
        let mut reader = STEP;
        let mut writer = io::sink();
        let _ = serve_operator_at(
            rt,
            &mut reader,
            &mut writer,
            self.port,
            self.spec,
            gate,
            STEP_READS,
        );
    }

    /// Hands the pass of the clock back, so that the line can be closed. It waits for the line.
    pub fn close<T: Wait>(self, rt: &T) {
        let LineClock { ticker, .. } = self;
        if let Some(ticker) = ticker.into_inner() {
            let _ = ticker.close(rt);
        }
    }
}
