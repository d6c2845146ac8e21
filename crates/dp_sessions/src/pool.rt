//! A pool of workers that serve sessions at the ports of a rack.

ghost use Rattle.std.specs.Prelude.{◌≡◌, ◌≤◌, ◌+◌, true, All, IfErr, IfNone, IfOk, IfSome, is_some, length, nat_lt, vec_capacity, vec_len};
ghost use Rattle.std.specs.Iterator.{IsFinite};
ghost use Rattle.std.specs.List.{AllZip};
ghost use Rattle.dp_shared.specs.Passes.{line_of, table_of};
ghost use Rattle.dp_sessions.specs.Ended.{end_of};
ghost use Rattle.dp_sessions.specs.KeptAt.{IsKept};
ghost use Rattle.dp_sessions.specs.KeptSessions.{AreServed, HasRoom, IsServed};
ghost use Rattle.dp_sessions.specs.Pools.{HasSeats};
ghost use Rattle.dp_sessions.specs.ServedJobs.{IsPortSession};

use crate::gate::Gate;
use crate::jobs::{Job, Keep, ServedJob, ServedSessions, TakenJob, TakenJobs, Workers};
use crate::pool_fault::PoolFault;
use crate::port::Port;
use crate::reads::{Reads, Uncounted};
use crate::serve_at::ServeAt;
use crate::session::Session;
use crate::session_end::SessionEnd;
use crossbeam_channel::Receiver;
use dp_shared::WorkerSeat;
use std::io::{Read, Write};
use std::marker::PhantomData;
use std::snapshot::Snapshot;
use std::sync::Wait;
use std::thread;
use std::thread::{Promise, PromisedHandle, Scope, Threads};

/// Serves sessions with one worker for each list of seats until every sender of jobs is gone. Returns what each worker
/// served. A rack has 1 to 32 workers, and each has a seat at every port, in the order of the ports (own).
///
/// Each session is one of [`serve_session`](crate::serve_session), at the port of its job. Each job that a worker takes is
/// served and counted, unless its port does not exist; then it is dropped and not counted. Each worker keeps the first
/// sessions that were accepted, at most as many as its room, with the passes that served them. If the line of a port is
/// closed with these passes ([`Line::close_with`](dp_shared::Line::close_with)), the law
/// [`a_master_has_its_entries`](crate::laws::a_master_has_its_entries) states which entries of the journal each of these
/// sessions wrote.
///
/// The call waits for jobs and for its workers. Only the start of a thread allocates memory.
///
/// Returns `NoThread` if a worker cannot be started. The workers that have started serve jobs until every sender is
/// gone, and are joined first. Never returns `OutOfMemory`, because nothing here allocates memory.
pub fn run_pool<
    H: Threads + Wait + Sync,
    R: Read + Send + Drop,
    W: Write + Send + Drop,
    G: Gate + Sync,
>(
    rt: &H,
    ports: &[Port],
    workers: Workers<R, W>,
    jobs: Receiver<Job<R, W>>,
    gate: &G,
    turns: u32,
) -> Result<Vec<ServedSessions<R, W>>, PoolFault>
    requires workers { (1 ≤ length workers.seats.items) × (length workers.seats.items ≤ 32) }
    requires seats { All (λ own. HasSeats ports.now own.items) workers.seats.items }
    ensures err { IfErr result (λ fault. fault ≡ PoolFault.NoThread) }
    ensures each { IfOk result (λ all. vec_len all ≡ vec_len workers.seats) }
    ensures served { IfOk result (λ all. All (AreServed
        (λ port taken left. IsPortSession (table_of port.line) (line_of port.line).number port.claims.masters (G.recorded gate.now) turns
        (record { left = R.remaining taken.reader; left_after = R.remaining left.reader; written = W.contents taken.writer; written_after = W.contents left.writer }))
        ports.now workers.room) all.items) }
    ensures kept { IfOk result (λ all. All (λ sessions. All (IsKept
        (λ port taken left. IsPortSession (table_of port.line) (line_of port.line).number port.claims.masters (G.recorded gate.now) turns
        (record { left = R.remaining taken.reader; left_after = R.remaining left.reader; written = W.contents taken.writer; written_after = W.contents left.writer }))
        ports.now) sessions.kept.items) all.items) }
{
    let Workers { seats, room, rooms } = workers;
    match start_all(rt, ports, seats, room, rooms, &jobs, gate, turns) {
        Some(all) => Ok(all),
        None => Err(PoolFault::NoThread),
    }
}

/// Starts the workers and joins them. Returns None if a worker could not be started.
fn start_all<
    P: ServeAt + Sync,
    S: Keep<R, W> + Send + Drop,
    H: Threads + Wait + Sync,
    R: Read + Send + Drop,
    W: Write + Send + Drop,
    G: Gate + Sync,
>(
    rt: &H,
    ports: &[P],
    seats: Vec<Vec<WorkerSeat>>,
    room: usize,
    rooms: Vec<S>,
    jobs: &Receiver<Job<R, W>>,
    gate: &G,
    turns: u32,
) -> Option<Vec<S>>
    requires seats { All (λ own. AllZip P.ours ports.now own.items) seats.items }
    requires each { vec_len rooms ≡ vec_len seats }
    requires rooms { All (λ sessions. HasRoom room (S.sessions sessions)) rooms.items }
    ensures each { IfSome result (λ all. vec_len all ≡ vec_len seats) }
    ensures served { IfSome result (λ all. All (λ sessions. AreServed
        (λ port taken left. P.serves port (G.recorded gate.now) turns
        (record { left = R.remaining taken.reader; left_after = R.remaining left.reader; written = W.contents taken.writer; written_after = W.contents left.writer }))
        ports.now room (S.sessions sessions)) all.items) }
{
    thread::scope(
        thread::scope_env(),
        rt,
        |scope| -> Option<Vec<S>>
            requires seats { All (λ own. AllZip P.ours ports.now own.items) seats.items }
            requires each { vec_len rooms ≡ vec_len seats }
            requires rooms { All (λ sessions. HasRoom room (S.sessions sessions)) rooms.items }
            ensures each { IfSome result (λ all. vec_len all ≡ vec_len seats) }
            ensures served { IfSome result (λ all. All (λ sessions. AreServed
                (λ port taken left. P.serves port (G.recorded gate.entry.now) turns
                (record { left = R.remaining taken.reader; left_after = R.remaining left.reader; written = W.contents taken.writer; written_after = W.contents left.writer }))
                ports.entry.now room (S.sessions sessions)) all.items) }
        { start_and_join(scope, rt, ports, seats, room, rooms, jobs, gate, turns) },
    )
}

/// Starts a worker for each list of seats, and joins them. Returns None if a worker could not be started.
fn start_and_join<
    's,
    E,
    P: ServeAt + Sync,
    S: Keep<R, W> + Send + Drop + 's,
    H: Threads + Wait + Sync,
    R: Read + Send + Drop + 's,
    W: Write + Send + Drop + 's,
    G: Gate + Sync,
>(
    scope: &Scope<'s, E>,
    rt: &'s H,
    ports: &'s [P],
    mut seats: Vec<Vec<WorkerSeat>>,
    room: usize,
    mut rooms: Vec<S>,
    jobs: &'s Receiver<Job<R, W>>,
    gate: &'s G,
    turns: u32,
) -> Option<Vec<S>>
    requires seats { All (λ own. AllZip P.ours ports.now own.items) seats.items }
    requires each { vec_len rooms ≡ vec_len seats }
    requires rooms { All (λ sessions. HasRoom room (S.sessions sessions)) rooms.items }
    ensures each { IfSome result (λ all. vec_len all ≡ vec_len seats) }
    ensures room { IfSome result (λ all. vec_capacity all ≡ vec_capacity rooms) }
    ensures served { IfSome result (λ all. All (λ sessions. AreServed
        (λ port taken left. P.serves port (G.recorded gate.now) turns
        (record { left = R.remaining taken.reader; left_after = R.remaining left.reader; written = W.contents taken.writer; written_after = W.contents left.writer }))
        ports.now room (S.sessions sessions)) all.items) }
{
    let Some(own) = seats.pop() else {
        return Some(rooms);
    };
    let Some(sessions) = rooms.pop() else {
        unreachable!()
    };
    let handle = start_worker(scope, rt, ports, own, room, sessions, jobs, gate, turns)?;
    let mut all = start_and_join(scope, rt, ports, seats, room, rooms, jobs, gate, turns)?;
    all.push_reserved(handle.join(rt));
    Some(all)
}

/// What a worker promises to leave: it served its sessions at these ports.
#[derive(Drop)]
struct Serving<'a, P, G, R, W> {
    ports: &'a [P],
    gate: &'a G,
    turns: u32,
    room: usize,
    of: PhantomData<(R, W)>,
}

impl<'a, P: ServeAt, G: Gate, R: Read, W: Write, S: Keep<R, W>> Promise<S>
    for Serving<'a, P, G, R, W> {
    ghost use Rattle.dp_sessions.specs.KeptSessions.{AreServed};

    ghost kept_by = { λ promise sessions. AreServed
        (λ port taken left. P.serves port (G.recorded promise.gate.now) promise.turns
        (record { left = R.remaining taken.reader; left_after = R.remaining left.reader; written = W.contents taken.writer; written_after = W.contents left.writer }))
        promise.ports.now promise.room (S.sessions sessions) };
}

/// Starts a worker with these seats. Returns None if it could not be started.
fn start_worker<
    's,
    E,
    P: ServeAt + Sync,
    S: Keep<R, W> + Send + Drop + 's,
    H: Threads + Wait + Sync,
    R: Read + Send + Drop + 's,
    W: Write + Send + Drop + 's,
    G: Gate + Sync,
>(
    scope: &Scope<'s, E>,
    rt: &'s H,
    ports: &'s [P],
    own: Vec<WorkerSeat>,
    room: usize,
    sessions: S,
    jobs: &'s Receiver<Job<R, W>>,
    gate: &'s G,
    turns: u32,
) -> Option<PromisedHandle<S, Serving<'s, P, G, R, W>>>
    requires own { AllZip P.ours ports.now own.items }
    requires sessions { HasRoom room (S.sessions sessions) }
    ensures { IfSome result (λ handle. (handle.promise.ports ≡ ports.entry) × (handle.promise.gate ≡ gate.entry) × (handle.promise.turns ≡ turns) × (handle.promise.room ≡ room)) }
{
    let serving = Serving {
        ports,
        gate,
        turns,
        room,
        of: PhantomData,
    };
    let worker = move || -> S
        requires own { AllZip P.ours ports.now own.items }
        requires sessions { HasRoom room (S.sessions sessions) }
        ensures { AreServed
            (λ port taken left. P.serves port (G.recorded gate.entry.now) turns
            (record { left = R.remaining taken.reader; left_after = R.remaining left.reader; written = W.contents taken.writer; written_after = W.contents left.writer }))
            ports.entry.now room (S.sessions result) }
    {
        let taken = TakenJobs {
            jobs: jobs.iter(rt),
        };
        work(rt, ports, own, room, sessions, taken, gate, turns)
    };
    match scope.spawn_with(serving, worker) {
        Ok(handle) => Some(handle),
        Err(_) => None,
    }
}

/// Serves these jobs, and returns what it served. A job that it takes has no `Drop`, and it cannot reach their queue.
fn work<
    P: ServeAt,
    S: Keep<R, W>,
    H: Wait,
    R: Read + Drop,
    W: Write + Drop,
    Q: Iterator<Item = TakenJob<Job<R, W>>>,
    G: Gate,
>(
    rt: &H,
    ports: &[P],
    mut seats: Vec<WorkerSeat>,
    room: usize,
    mut sessions: S,
    jobs: Q,
    gate: &G,
    turns: u32,
) -> S
    requires seats { AllZip P.ours ports.now seats.items }
    requires sessions { HasRoom room (S.sessions sessions) }
    requires ready { Q.can_next jobs }
    requires end { IsFinite (Q.remaining jobs) }
    ensures { AreServed
        (λ port taken left. P.serves port (G.recorded gate.now) turns
        (record { left = R.remaining taken.reader; left_after = R.remaining left.reader; written = W.contents taken.writer; written_after = W.contents left.writer }))
        ports.now room (S.sessions result) }
{
    for job in jobs {
        let served = serve_job::<P, H, R, Uncounted, W, G>(rt, ports, &mut seats, job, gate, turns);
        if let Some(job) = served {
            sessions.keep(room, job);
        }
    }
    sessions
}

/// Serves a job at its port, with the worker's seat there. Returns None if there is no such port; the job is then
/// dropped, and the seats are unchanged.
fn serve_job<P: ServeAt, H: Wait, R: Read + Drop, C: Reads<R>, W: Write + Drop, G: Gate>(
    rt: &H,
    ports: &[P],
    seats: &mut [WorkerSeat],
    job: TakenJob<Job<R, W>>,
    gate: &G,
    turns: u32,
) -> Option<ServedJob<R, W>>
    requires ours { AllZip P.ours ports.now seats.old }
    ensures ours { AllZip P.ours ports.now seats.new }
    ensures known { is_some result ≡ nat_lt job.job.port (length ports.now) }
    ensures unserved { IfNone result (seats.new ≡ seats.old) }
    ensures taken { IfSome result (λ served. served.taken.value ≡ job.job) }
    ensures reads { IfSome result (λ served. C.reads served.left.value.reader ≤ C.reads job.job.reader + turns) }
    ensures failed { IfSome result (λ served. end_of served.session ≡ SessionEnd.ReadFault → C.failed served.left.value.reader ≡ true) }
    ensures served { IfSome result (IsServed
        (λ port taken left. P.serves port (G.recorded gate.now) turns
        (record { left = R.remaining taken.reader; left_after = R.remaining left.reader; written = W.contents taken.writer; written_after = W.contents left.writer }))
        ports.now) }
{
    let TakenJob { mut job } = job;
    let taken = Snapshot::of(&job);
    let index = usize::from(job.port);
    let Some(here) = ports.get(index) else {
        return None;
    };
    let session = here.serve::<H, R, C, W, G>(
        rt,
        &mut seats[index],
        &mut job.reader,
        &mut job.writer,
        gate,
        turns,
    );
    if let Session::Rejected { address, end } = &session {
        gate.rejected(rt, job.port, *address, *end);
    }
    Some(ServedJob {
        port: job.port,
        session,
        taken,
        left: Snapshot::of(&job),
    })
}
