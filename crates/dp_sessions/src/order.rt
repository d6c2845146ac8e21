//! The order in which a session calls its gate, its line and its claims.
//!
//! A contract does not compare moments. So a call that has to come first returns a value here, and the call that has to
//! come after it takes that value: the other order has a wrong type.

ghost use Rattle.std.specs.Prelude.{◌≡◌, ◌≢◌, false, None, IfNone, IfSome, IsTrue, is_some};
ghost use Rattle.dp_line.specs.declared.event.Event.TheVariants.{Request};
ghost use Rattle.dp_line.specs.declared.event.Outcome.TheVariants.{Silence};
ghost use Rattle.dp_responder.specs.declared.rule.Rule.TheVariants.{Halted};
ghost use Rattle.dp_audit.specs.Journal.{receipt_of};
ghost use Rattle.dp_shared.specs.Claims.{released};
ghost use Rattle.dp_shared.specs.Passes.{table_of, with_receipt};

use crate::gate::Gate;
use dp_line::Step;
use dp_shared::{Claims, Line, Pass, ReturnedPass, WorkerSeat};
use dp_telegram::WholeFrame;
use std::sync::Wait;

/// Shows that the gate was called before an exchange. Only [`enter`] makes one, and one exchange takes it.
#[derive(Drop)]
pub(crate) struct Entered {
    entered: (),
}

/// Calls the gate before an exchange of a master with a line.
pub(crate) fn enter<T: Wait, G: Gate>(rt: &T, gate: &G, line: u8, master: u8) -> Entered {
    gate.enter(rt, line, master);
    Entered { entered: () }
}

impl Entered {
    /// Exchanges one frame, for which the gate was called.
    pub(crate) fn exchange_frame<T: Wait>(
        self,
        rt: &T,
        line: &Line,
        pass: &mut Pass,
        frame: &WholeFrame<'_>,
        answer: &mut Step,
    )
        requires ours { pass.old.table ≡ table_of line.now }
        requires master { pass.old.view.address ≢ 127 }
        ensures ours { pass.new.table ≡ pass.old.table }
        ensures line { pass.new.line ≡ pass.old.line }
        ensures address { pass.new.view.address ≡ pass.old.view.address }
        ensures pass { pass.new.view ≡ with_receipt pass.old.view (receipt_of (Request pass.old.view.address (record { items = frame.now })) answer.new) answer.new.place }
        ensures halted { IfNone answer.new.place ((answer.new.facts ≡ None) × (answer.new.outcome ≡ Silence Halted)) }
        ensures running { IfSome answer.new.place (λ _. pass.old.view.saw_halt ≡ false) }
    {
        line.exchange_frame(rt, pass, frame, answer);
    }
}

/// Releases the address that a seat holds. The pass of its session was handed back.
pub(crate) fn release(claims: &Claims, seat: &mut WorkerSeat, _returned_pass: &ReturnedPass)
    requires ours { seat.old.table ≡ claims.now.table }
    requires holds { IsTrue (is_some seat.old.view.held) }
    ensures ours { seat.new.table ≡ seat.old.table }
    ensures released { seat.new.view ≡ released seat.old.view }
{
    claims.release(seat);
}
