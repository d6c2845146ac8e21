//! The clocks of the lines of a rack.

ghost use Rattle.serve_lines.specs.ServingLines.{AreServedLines};

use crate::server_context::ServerContext;
use serve_clock::{LineClock, Schedule};
use serve_lines::ServedLines;
use std::alloc::AllocError;
use std::sync::Wait;

/// Returns when ticks and steps are due.
pub fn schedule_of<H>(context: &ServerContext<'_, H>) -> Schedule {
    Schedule::new(context.tick, context.step)
}

/// Returns the clock of each line, in their order, or no clocks if the rack keeps no time.
///
/// Returns an error if memory is refused or a line gives no pass.
pub fn open_clocks<'l, H: Wait>(
    context: &ServerContext<'_, H>,
    served: ServedLines<'l>,
) -> Result<Vec<LineClock<'l>>, AllocError>
    requires { AreServedLines served }
{
    let ServedLines { lines, ports } = served;
    let mut clocks = Vec::new(context.alloc);
    if context.tick.is_none() && context.step.is_none() {
        return Ok(clocks);
    }
    for line in lines {
        let port = &ports[clocks.len()];
        let Some(clock) = LineClock::open(context.sockets.rt, port, &line.spec, context.tick) else {
            return Err(AllocError);
        };
        clocks.push(clock)?;
    }
    Ok(clocks)
}

/// Hands the passes of the clocks back, so that the lines can be closed.
pub fn close_clocks<T: Wait>(rt: &T, clocks: Vec<LineClock<'_>>) {
    for clock in clocks {
        clock.close(rt);
    }
}
