//! The lines of a rack that can be served, in the order of their numbers.

ghost use Rattle.std.specs.Prelude.{◌≡◌};
ghost use Rattle.serve_lines.specs.ServedLines.{ArePutInOrder, all_served, served_line};

use dp_line::LineSpec;
use rack_file::{RackFault, RackLine};
use std::alloc::Global;

/// A line with both its ports.
#[derive(Drop)]
pub struct ServedLine {
    /// The description of the line.
    pub spec: LineSpec,
    /// The port for masters.
    pub listen: u16,
    /// The port for the operator.
    pub operator: u16,
}

/// Returns the lines of a rack in ascending order of their numbers. They are served in that order.
///
/// Returns `BadKey` exactly if a line has no port for masters or no port for its operator, or `OutOfMemory`.
pub fn lines_to_serve(alloc: Global, lines: Vec<RackLine>) -> Result<Vec<ServedLine>, RackFault>
    ensures { ArePutInOrder (all_served lines.items) result }
{
    let mut served = Vec::new(alloc);
    for line in lines {
        let Some(line) = with_ports(line) else {
            return Err(RackFault::BadKey);
        };
        served.push(line).map_err(|_| RackFault::OutOfMemory)?;
    }
    served.sort_unstable_by_key(|line| line.spec.number);
    Ok(served)
}

/// Returns a line with its ports, if it has both.
fn with_ports(line: RackLine) -> Option<ServedLine>
    ensures { result ≡ served_line line }
{
    let RackLine {
        spec,
        listen,
        operator,
    } = line;
    Some(ServedLine {
        spec,
        listen: listen?,
        operator: operator?,
    })
}
