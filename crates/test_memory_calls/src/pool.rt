//! The pool of workers: two workers at one port, and a session.

ghost use Rattle.std.specs.Prelude.{◌≡◌, ◌∷◌, [], IfOk, None};
ghost use Rattle.dp_line.specs.World.{description_of, opening_fault};
ghost use Rattle.dp_sessions.specs.Pools.{IsSeatAt};

use crate::answer::Answer;
use crate::calls::refused;
use crate::expecting::{Expecting, Written};
use crate::{status_at_once, status_behind};
use crossbeam_channel::{Receiver, bounded};
use dp_line::LineSpec;
use dp_sessions::{
    Job, OpenGate, PoolFault, Port, ServedSessions, Workers, count_served, run_pool,
};
use dp_shared::{Claims, Line, WorkerSeat};
use std::alloc::{AllocError, Global};
use std::sync::Wait;
use std::thread::Threads;

/// Master 1, and its request for the diagnosis of slave 5.
const ASKS: &[u8] = &[
    0x01, 0x68, 0x05, 0x05, 0x68, 0x85, 0x81, 0x6D, 0x3C, 0x3E, 0xED, 0x16,
];

/// The acceptance, and the diagnosis of a slave that nobody holds.
const ANSWERED: &[u8] = &[
    0xE5, 0x68, 0x0B, 0x0B, 0x68, 0x81, 0x85, 0x08, 0x3E, 0x3C, 0x02, 0x05, 0x00, 0xFF, 0x80, 0xA1,
    0xAF, 0x16,
];

/// A port, and the seats of four workers at it.
#[derive(Drop)]
struct Place {
    port: Port,
    first: WorkerSeat,
    second: WorkerSeat,
    third: WorkerSeat,
    fourth: WorkerSeat,
    ghost first_is_ours: { IsSeatAt port.claims first },
    ghost second_is_ours: { IsSeatAt port.claims second },
    ghost third_is_ours: { IsSeatAt port.claims third },
    ghost fourth_is_ours: { IsSeatAt port.claims fourth },
}

/// Opens a line and its claims by this description, with four seats.
fn fresh_place(alloc: Global, spec: &LineSpec) -> Result<Place, AllocError>
    requires { opening_fault (description_of spec.now) ≡ None }
{
    let (claims, first, second, third, fourth) = four_seats(alloc, spec)?;
    let Ok(line) = Line::open(alloc, spec) else {
        return Err(AllocError);
    };
    Ok(Place {
        port: Port { line, claims },
        first,
        second,
        third,
        fourth,
    })
}

/// Opens the claims of a line, with four seats.
fn four_seats(
    alloc: Global,
    spec: &LineSpec,
) -> Result<(Claims, WorkerSeat, WorkerSeat, WorkerSeat, WorkerSeat), AllocError>
    requires { opening_fault (description_of spec.now) ≡ None }
    ensures { IfOk result (λ r. IsSeatAt r.0 r.1 × IsSeatAt r.0 r.2 × IsSeatAt r.0 r.3 × IsSeatAt r.0 r.4) }
{
    let Ok((claims, mut seats)) = Claims::open(alloc, spec, 4) else {
        return Err(AllocError);
    };
    let first = seats.pop().unwrap();
    let second = seats.pop().unwrap();
    let third = seats.pop().unwrap();
    let fourth = seats.pop().unwrap();
    Ok((claims, first, second, third, fourth))
}

/// Returns a list of this element only.
fn alone<T: Drop>(alloc: Global, first: T) -> Result<Vec<T>, AllocError>
    ensures { IfOk result (λ v. v.items ≡ first ∷ []) }
{
    let mut list = Vec::with_capacity(alloc, 1)?;
    list.push_reserved(first);
    Ok(list)
}

/// Returns a list of these two elements.
fn both<T: Drop>(alloc: Global, first: T, second: T) -> Result<Vec<T>, AllocError>
    ensures { IfOk result (λ v. v.items ≡ first ∷ second ∷ []) }
{
    let mut list = Vec::with_capacity(alloc, 2)?;
    list.push_reserved(first);
    list.push_reserved(second);
    Ok(list)
}

/// Returns a channel that has the one session at the first port, and no sender any more.
fn one_job<'a, H: Wait>(
    rt: &H,
    alloc: Global,
    written: &'a Written,
) -> Result<Receiver<Job<&'a [u8], Expecting<'a>>>, AllocError> {
    let (sender, receiver) = bounded(alloc, 1)?;
    let job = Job {
        port: 0,
        reader: ASKS,
        writer: Expecting::new(ANSWERED, written),
    };
    match sender.send(rt, job) {
        Ok(()) => Ok(receiver),
        Err(_) => Err(AllocError),
    }
}

/// Runs the pool, and runs it again at the same port if a start was refused. Returns the exit status.
pub(crate) fn status<H: Threads + Wait + Sync>(
    rt: &H,
    alloc: Global,
    line: &LineSpec,
) -> Result<u8, AllocError>
    requires { opening_fault (description_of line.now) ≡ None }
{
    let place = fresh_place(alloc, line)?;
    let (written, behind) = (Written::nothing(), Written::nothing());
    let jobs = one_job(rt, alloc, &written)?;
    let jobs_behind = one_job(rt, alloc, &behind)?;
    let seats = both(
        alloc,
        alone(alloc, place.first)?,
        alone(alloc, place.second)?,
    )?;
    let seats_behind = both(
        alloc,
        alone(alloc, place.third)?,
        alone(alloc, place.fourth)?,
    )?;
    let workers = Workers::new(alloc, seats, 1)?;
    let workers_behind = Workers::new(alloc, seats_behind, 1)?;
    let ports = [place.port];
    let ended = run_pool(rt, &ports, workers, jobs, &OpenGate, 100);
    match answer_of(ended, &written) {
        Answer::Refused => {
            let ended = run_pool(rt, &ports, workers_behind, jobs_behind, &OpenGate, 100);
            Ok(status_behind(answer_of(ended, &behind)))
        }
        answer => Ok(status_at_once(answer)),
    }
}

/// Returns the result of a pool that ended so, after this was written.
fn answer_of<R: Drop, W: Drop>(
    ended: Result<Vec<ServedSessions<R, W>>, PoolFault>,
    written: &Written,
) -> Answer {
    match ended {
        Ok(all) if count_served(&all) == 1 && written.is_whole(ANSWERED) => Answer::Whole,
        Err(PoolFault::NoThread) => refused(written),
        _ => Answer::Other,
    }
}
