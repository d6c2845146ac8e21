//! The lines of a rack, opened for threads.

ghost use Rattle.std.specs.Prelude.{◌≡◌, [], ◌∷◌, ◌++◌, All, IfOk, None, length, map};
ghost use Rattle.dp_sessions.specs.Pools.{HasSeats};
ghost use Rattle.dp_line.specs.World.{description_of, opening_fault};
ghost use Rattle.dp_shared.specs.Passes.{line_of};
ghost use Rattle.serve_lines.specs.ServedLines.{as_opened};
ghost use Rattle.serve_lines.specs.OpenedLines.{AreOpened, IsOneMore};

use crate::served_line::ServedLine;
use dp_sessions::Port;
use dp_shared::{Claims, Line, WorkerSeat};
use std::alloc::{AllocError, Global};

/// The minimum number of entries that an endless line stores.
///
/// An endless line always keeps at least half of its entries, 8,208. Each session has its entry recorded before it takes the
/// next event, so between two looks of a trail come at most a tick and a request of each of 16 masters, and an event each of
/// the operator and of the clock. So the trail is not overtaken.
const LEAST_WINDOW: u32 = 16_416;

/// Lines that threads share, and for each worker a seat at each of them, in the same order.
#[derive(Drop)]
pub struct OpenedLines {
    /// The lines with the number of places with which they were opened.
    pub lines: Vec<ServedLine>,
    /// What was opened for each line.
    pub ports: Vec<Port>,
    /// The seats of each worker.
    pub seats: Vec<Vec<WorkerSeat>>,
}

/// The lines of a rack while it is served, and what was opened for each, in the same order. A rack has at most 8 lines.
#[derive(Clone, Copy, Drop)]
pub struct ServedLines<'l> {
    /// The lines.
    pub lines: &'l [ServedLine],
    /// What was opened for each line.
    pub ports: &'l [Port],
}

/// The workers of a rack, 1 to 32: each has a seat at each port, in the order of the ports.
#[derive(Drop)]
pub struct SeatedWorkers<'l> {
    /// The ports.
    pub ports: &'l [Port],
    /// The seats of each worker.
    pub seats: Vec<Vec<WorkerSeat>>,
}

/// Opens lines in their initial state, for this number of workers.
///
/// Returns an error if memory or a table is refused.
pub fn open_lines(
    alloc: Global,
    lines: Vec<ServedLine>,
    are_endless: bool,
    workers: u8,
) -> Result<OpenedLines, AllocError>
    requires { All (λ line. opening_fault (description_of line.spec) ≡ None) lines.items }
    ensures lines { IfOk result (λ opened. opened.lines.items ≡ map (as_opened are_endless) lines.items) }
    ensures opened { IfOk result (λ opened. AreOpened opened.lines.items opened.ports.items) }
    ensures workers { IfOk result (λ opened. length opened.seats.items ≡ workers) }
    ensures seats { IfOk result (λ opened. All (λ own. HasSeats opened.ports.items own.items) opened.seats.items) }
{
    let mut opened = OpenedLines::none(alloc, workers)?;
    for line in lines {
        opened = opened.with_line(alloc, line, are_endless, workers)?;
    }
    Ok(opened)
}

/// Opens a line, and changes its description to that of the opened line.
///
/// Returns an error if memory or a table is refused.
fn open_line(alloc: Global, line: &mut ServedLine, is_endless: bool) -> Result<Line, AllocError>
    requires { opening_fault (description_of line.old.spec) ≡ None }
    ensures { IfOk result (λ opened. (line.new ≡ as_opened is_endless line.old) × (line_of opened ≡ line.new.spec)) }
{
    let opened = if is_endless {
        line.spec.capacity = line.spec.capacity.max(LEAST_WINDOW);
        Line::open_endless(alloc, &mut line.spec)
    } else {
        Line::open(alloc, &line.spec)
    };
    opened.map_err(|_| AllocError)
}

impl OpenedLines {
    /// Returns no lines, and this number of workers without seats.
    fn none(alloc: Global, workers: u8) -> Result<OpenedLines, AllocError>
        ensures lines { IfOk result (λ opened. opened.lines.items ≡ []) }
        ensures ports { IfOk result (λ opened. opened.ports.items ≡ []) }
        ensures workers { IfOk result (λ opened. length opened.seats.items ≡ workers) }
        ensures seats { IfOk result (λ opened. All (λ own. HasSeats opened.ports.items own.items) opened.seats.items) }
    {
        let mut seats = Vec::new(alloc);
        for _ in 0..workers {
            seats.push(Vec::new(alloc))?;
        }
        Ok(OpenedLines {
            lines: Vec::new(alloc),
            ports: Vec::new(alloc),
            seats,
        })
    }

    /// Opens one more line, and adds it with a seat for each worker.
    fn with_line(
        self,
        alloc: Global,
        line: ServedLine,
        is_endless: bool,
        workers: u8,
    ) -> Result<OpenedLines, AllocError>
        requires accepted { opening_fault (description_of line.spec) ≡ None }
        requires workers { length self.seats.items ≡ workers }
        requires seats { All (λ own. HasSeats self.ports.items own.items) self.seats.items }
        ensures lines { IfOk result (λ opened. opened.lines.items ≡ self.lines.items ++ as_opened is_endless line ∷ []) }
        ensures line { IfOk result (λ opened. IsOneMore (as_opened is_endless line).spec self.ports.items opened.ports.items) }
        ensures workers { IfOk result (λ opened. length opened.seats.items ≡ workers) }
        ensures seats { IfOk result (λ opened. All (λ own. HasSeats opened.ports.items own.items) opened.seats.items) }
    {
        let OpenedLines {
            mut lines,
            mut ports,
            seats,
        } = self;
        let Ok((claims, mut fresh)) = Claims::open(alloc, &line.spec, workers) else {
            return Err(AllocError);
        };
        let mut described = line;
        let line = open_line(alloc, &mut described, is_endless)?;
        lines.push(described)?;
        ports.push(Port { line, claims })?;
        let mut more = Vec::new(alloc);
        for mut own in seats {
            let Some(seat) = fresh.pop() else {
                unreachable!()
            };
            own.push(seat)?;
            more.push(own)?;
        }
        Ok(OpenedLines {
            lines,
            ports,
            seats: more,
        })
    }
}
