//! The ticks of a line.

ghost use Rattle.std.specs.Prelude.{◌≡◌, [], ◌∷◌, ◌++◌, IfSome};
ghost use Rattle.serve_clock.specs.Moments.{advance_at, first_time, time_after};
ghost use Rattle.dp_shared.specs.Passes.{new_pass, table_of};
ghost use Rattle.serve_clock.specs.Advances.{HasTicked, IsAdvanced};

use crate::line_time::{Advance, LineTime};
use dp_audit::Receipt;
use dp_line::Op;
use dp_shared::laws::only_a_halted_line_refuses_a_tick;
use dp_shared::{Line, Pass, ReturnedPass};
use dp_telegram::GLOBAL_ADDRESS;
use ghost_lists::Past;
use std::sync::Wait;

/// How far the time of a line has advanced, and the receipt of the tick if a unit has passed.
#[derive(Drop)]
pub struct Ticked {
    /// How far it has advanced.
    pub advance: Advance,
    /// The receipt of the tick.
    pub receipt: Option<Receipt>,
}

/// The time of a line, and the operator's pass that sends its ticks.
///
/// The receipts of the pass are exactly the ticks of the moments to which the time was advanced, unless an answer to the pass
/// said that the line is halted.
#[derive(Drop)]
pub struct Ticker<'l> {
    line: &'l Line,
    pass: Pass,
    time: LineTime,
    /// The moments to which the time was advanced. They are ghost data, since no code reads them.
    moments: Past<u64>,
    ghost ours: { pass.table ≡ table_of line.now },
    ghost operator: { pass.view.address ≡ 127 },
    ghost ticked: { HasTicked time moments.items pass.view },
}

impl<'l> Ticker<'l> {
    /// Returns the time of a line at moment 0, with a tick at least each `tick` milliseconds, 10 or more. It waits for the
    /// line. Returns None if the line gives no pass.
    pub fn open<T: Wait>(rt: &T, line: &'l Line, tick: u32) -> Option<Ticker<'l>>
        ensures time { IfSome result (λ ticker. ticker.time ≡ first_time tick) }
        ensures moments { IfSome result (λ ticker. ticker.moments.items ≡ []) }
        ensures pass { IfSome result (λ ticker. (ticker.pass.table ≡ table_of line.now) × (ticker.pass.view ≡ new_pass ticker.pass.view.number 127)) }
    {
        let Ok(pass) = line.open_pass(rt, GLOBAL_ADDRESS) else {
            return None;
        };
        Some(Ticker {
            line,
            pass,
            time: LineTime::new(tick),
            moments: Past::new(),
        })
    }

    /// Advances the time to a moment: sends a tick of the units that pass, if there are any. It waits for the line.
    ///
    /// A receipt of a tick has a place, so the units pass on the line, or it says that the line is halted.
    pub fn advance<T: Wait>(&mut self, rt: &T, moment: u64) -> Ticked
        ensures advance { result.advance ≡ advance_at self.old.time moment }
        ensures time { self.new.time ≡ time_after self.old.time moment }
        ensures moments { self.new.moments.items ≡ self.old.moments.items ++ moment ∷ [] }
        ensures table { self.new.pass.table ≡ self.old.pass.table }
        ensures pass { IsAdvanced result.advance.units result.receipt self.old.pass.view self.new.pass.view }
    {
        only_a_halted_line_refuses_a_tick();
        let advance = self.time.advance(moment);
        self.moments = self.moments.followed_by(&moment);
        if advance.units == 0 {
            return Ticked {
                advance,
                receipt: None,
            };
        }
        let op = Op::Tick(advance.units);
        let receipt = self.line.operate(rt, &mut self.pass, op);
        Ticked {
            advance,
            receipt: Some(receipt),
        }
    }

    /// Returns the units of 10 ms that have passed on the line or were cut off.
    pub fn counted(&self) -> u64
        ensures { result ≡ (self.now.time).counted }
    {
        self.time.counted()
    }

    /// Proves facts of the type: the receipts of the pass are the ticks of the moments to which the time was advanced.
    pub fn prove_ticked(&self)
        ensures { HasTicked self.now.time self.now.moments.items self.now.pass.view }
    {}

    /// Hands the pass back, so that the line can be closed. It waits for the line.
    pub fn close<T: Wait>(self, rt: &T) -> ReturnedPass
        ensures { result ≡ self.entry.pass }
    {
        let Ticker { line, pass, .. } = self;
        line.hand_back(rt, pass)
    }
}
