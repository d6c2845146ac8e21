//! The facts of the result of an event of the operator.

ghost use Rattle.std.specs.Prelude.{◌≡◌};
ghost use Rattle.std.specs.Option.{option_and_then, option_copied};
ghost use Rattle.explain_events.specs.OpResults.{expired_at, full_time_of, op_result, release_result};
ghost use Rattle.explain_events.specs.Shown.{shown_if_any};

use crate::operations::is_halt;
use crate::shown::slave_at;
use crate::ways::is_at_last_place;
use dp_line::{LineState, Op, OperatorFault, Outcome};
use dp_slave::Slave;

/// The result of an event of the operator (own).
#[derive(Clone, Copy)]
pub enum OpResult {
    /// It was done.
    Done,
    /// It was refused.
    Refused(OperatorFault),
    /// Time passed. The outcome has the slaves whose watchdog ran out; [`expired_at`] shows each.
    Ticked,
    /// The line halted; true if it did so because its journal is full. The outcome has the slaves that were released.
    Halted(bool),
}

/// A slave that a tick released (own).
#[derive(Clone, Copy)]
pub struct Expired {
    /// The address of the slave, 0 to 126.
    pub address: u8,
    /// The master that held it, and was silent for the whole time of the watchdog.
    pub holder: Option<u8>,
    /// The time of its watchdog, in units of 10 ms.
    pub watchdog: Option<u32>,
}

/// Returns the result of an event of the operator; None for an outcome that only a request has. `before` is the line before
/// the event.
pub fn op_result(before: &LineState, op: &Op, outcome: &Outcome) -> Option<OpResult>
    ensures { result ≡ op_result before.now.world op.now outcome.now }
{
    match outcome {
        Outcome::Released(_) => Some(release_result(before, op)),
        Outcome::Done => Some(OpResult::Done),
        Outcome::Refused(fault) => Some(OpResult::Refused(*fault)),
        Outcome::Reply { .. } => None,
        Outcome::Silence(_) => None,
        Outcome::Spread(_) => None,
    }
}

/// Returns the result of an event of the operator that released slaves.
fn release_result(before: &LineState, op: &Op) -> OpResult
    ensures { result ≡ release_result before.now.world op.now }
{
    if is_halt(op) {
        OpResult::Halted(is_at_last_place(before))
    } else {
        OpResult::Ticked
    }
}

/// Returns how a tick released the slave at this address. `before` is the line before the tick.
pub fn expired_at(before: &LineState, address: u8) -> Expired
    ensures { result ≡ expired_at before.now.world address }
{
    let slave = slave_at(before, address);
    Expired {
        address,
        holder: holder_of(slave),
        watchdog: full_time_of(slave),
    }
}

/// Returns the master that holds a slave.
fn holder_of(slave: Option<&Slave>) -> Option<u8>
    ensures { result ≡ option_and_then (λ s. s.holder) (shown_if_any (option_copied slave.entry)) }
{
    match slave {
        Some(slave) => slave.holder(),
        None => None,
    }
}

/// Returns the full time of a slave's watchdog in units of 10 ms, by the parameters of its holder; None if it is off,
/// or if there are no parameters.
fn full_time_of(slave: Option<&Slave>) -> Option<u32>
    ensures { result ≡ full_time_of (shown_if_any (option_copied slave.entry)) }
{
    match slave {
        Some(slave) => match slave.parameters() {
            Some(prm) => prm.watchdog,
            None => None,
        },
        None => None,
    }
}
