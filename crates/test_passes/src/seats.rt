//! The claims of a line, and one of their seats.

ghost use Rattle.std.specs.Prelude.{◌≡◌, IfOk, None};
ghost use Rattle.dp_line.specs.World.{description_of, opening_fault};
ghost use Rattle.dp_sessions.specs.Pools.{IsSeatAt};

use dp_line::LineSpec;
use dp_shared::{Claims, WorkerSeat};
use std::alloc::Global;
use std::test::Fail;

/// Opens the claims of a line for one worker.
pub(crate) fn one_seat(alloc: Global, spec: &LineSpec) -> Result<(Claims, WorkerSeat), Fail>
    requires { opening_fault (description_of spec.now) ≡ None }
    ensures { IfOk result (λ r. IsSeatAt r.0 r.1) }
{
    let (claims, mut seats) = Claims::open(alloc, spec, 1)?;
    let seat = seats.pop().unwrap();
    Ok((claims, seat))
}
