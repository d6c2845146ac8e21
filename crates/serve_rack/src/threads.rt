//! The threads that serve a rack.

ghost use Rattle.std.specs.Prelude.{IfOk, OnOk, map};
ghost use Rattle.serve_lines.specs.MasterSessions.{HasServed, place_at};
ghost use Rattle.serve_lines.specs.ServingLines.{HaveSeats};
ghost use Rattle.serve_rack.specs.Serving.{most_reads};

use audit_files::{NewFiles, OldParts, TimesWriter};
use crossbeam_channel::{Receiver, RecvTimeoutError, bounded};
use dp_sessions::PoolFault;
use log::Log;
use serve_clock::Schedule;
use serve_lines::{MasterPool, ServedMasters, serve_masters};
use serve_sessions::{
    Acceptors, Host, MAX_READS, OperatedLine, OperatorWorker, ServeConnections, ServerContext,
    TimedGate,
};
use serve_sockets::{
    Accept, ConnectionReader, ConnectionWriter, Phase, ServePhase, stop_with_input,
};
use std::alloc::Global;
use std::sync::{Mutex, Wait};
use std::thread;
use std::thread::{Scope, Threads};
use std::time::{Clock, Duration};

/// Returns whether this number of threads can run at one time. It starts them, and they end.
///
/// It is called before `ready`, so that a machine that refuses threads is found before connections are accepted. A thread may
/// still be refused later; then the audit texts are written before the program ends.
pub(crate) fn can_start<H: Threads + Wait + Sync>(rt: &H, count: usize) -> bool {
    let mutex = Mutex::new(());
    let waited = &mutex;
    thread::scope(thread::scope_env(), rt, |scope| {
        let _held = waited.lock(rt);
        for _ in 0..count {
            let waiter = move || drop(waited.lock(rt));
            if scope.spawn(waiter).is_err() {
                return false;
            }
        }
        true
    })
}

/// The workers of the masters of a rack, and the sessions that wait for them.
pub(crate) type Masters<'a, H> = MasterPool<'a, ConnectionReader<'a, H>, ConnectionWriter<'a, H>>;

/// What serves the sessions of a rack.
#[derive(Drop)]
pub(crate) struct Sessions<'a, H: Wait, G> {
    /// Accept the connections.
    pub(crate) acceptors: Acceptors<'a, H>,
    /// Serve the operators.
    pub(crate) operator_workers: Vec<OperatorWorker<'a, OperatedLine<'a>, H, G>>,
    /// Serve the masters.
    pub(crate) pool: Masters<'a, H>,
}

/// Ends sessions that are not served: no connection of theirs was accepted.
pub(crate) fn end_unserved<H: Host + Sync, G>(sessions: Sessions<'_, H, G>) {
    let Sessions {
        acceptors: _acceptors,
        operator_workers: _operator_workers,
        pool,
    } = sessions;
    end_pool(pool);
}

/// Ends workers that have served nothing.
fn end_pool<R: Drop, W: Drop>(pool: MasterPool<'_, R, W>) {
    drop(pool);
}

/// Starts a thread for each acceptor and each worker of operators, and then serves the sessions of masters by the workers. It
/// ends when each acceptor has accepted its number of connections and their sessions have ended. Meanwhile a thread keeps the
/// time of the lines, if the schedule has ticks or steps, another deletes old parts of audit texts, if parts are deleted, and another
/// writes the times of entries, if there are audit texts.
///
/// If there is an input, another thread waits for its end and stops serving then.
///
/// Returns what the workers left. If the thread of a worker cannot be started, no connection is accepted once the workers that
/// started have ended. If any other thread cannot be started, no connection is accepted.
pub(crate) fn accept_and_serve<'a, H: Host + Sync, G: TimedGate + Sync>(
    context: &'a ServerContext<'a, H>,
    session_gate: &'a G,
    schedule: Schedule,
    sessions: Sessions<'a, H, G>,
) -> Result<ServedMasters, PoolFault>
    requires { HaveSeats sessions.pool.ports.now sessions.pool.workers.seats.items }
    ensures { IfOk result (λ served. HasServed most_reads (map place_at sessions.entry.pool.ports.now) served.count served.passes.items) }
{
    let (rt, serve_phase) = (context.sockets.rt, context.sockets.serve_phase);
    let Some(input) = context.input else {
        return serve_sessions(context, session_gate, schedule, sessions);
    };
    let served = stop_with_input(
        rt,
        serve_phase,
        input,
        || -> Result<ServedMasters, PoolFault>
            requires { HaveSeats sessions.pool.ports.now sessions.pool.workers.seats.items }
            ensures { IfOk result (λ served. HasServed most_reads (map place_at sessions.entry.pool.ports.now) served.count served.passes.items) }
        { serve_sessions(context, session_gate, schedule, sessions) },
    );
    match served {
        Some(served) => served,
        None => Err(PoolFault::NoThread),
    }
}

/// Starts the threads of all sessions, and serves those of masters, as [`accept_and_serve`] does.
fn serve_sessions<'a, H: Host + Sync, G: TimedGate + Sync>(
    context: &'a ServerContext<'a, H>,
    session_gate: &'a G,
    schedule: Schedule,
    sessions: Sessions<'a, H, G>,
) -> Result<ServedMasters, PoolFault>
    requires { HaveSeats sessions.pool.ports.now sessions.pool.workers.seats.items }
    ensures { IfOk result (λ served. HasServed most_reads (map place_at sessions.entry.pool.ports.now) served.count served.passes.items) }
{
    let Sessions {
        acceptors,
        operator_workers,
        pool,
    } = sessions;
    let Acceptors { masters, operators } = acceptors;
    let accepting = Accepting {
        masters,
        operators,
        operator_workers,
        sessions: context.sessions,
    };
    let (rt, serve_phase) = (context.sockets.rt, context.sockets.serve_phase);
    serve_in_threads(
        rt,
        context.alloc,
        serve_phase,
        session_gate,
        schedule,
        context.old_parts,
        context.times,
        accepting,
        || -> Result<ServedMasters, PoolFault>
            requires { HaveSeats pool.ports.now pool.workers.seats.items }
            ensures { IfOk result (λ served. HasServed most_reads (map place_at pool.entry.ports.now) served.count served.passes.items) }
        { serve_masters(rt, serve_phase, pool, session_gate, MAX_READS) },
    )
}

/// What accepts connections, this number at each port, and serves the operators.
#[derive(Drop)]
struct Accepting<M, O, P> {
    masters: Vec<M>,
    operators: Vec<O>,
    operator_workers: Vec<P>,
    sessions: u64,
}

/// Runs `serve` while threads of their own accept connections, serve operators, keep the time of the lines if the schedule has
/// ticks or steps, delete old parts of audit texts if parts are deleted, and write the times of entries if there are audit texts. The
/// last three end after all others, so that operators see the time pass after the last master has left.
///
/// Returns `OutOfMemory` or `NoThread` if memory or a thread is refused; `serve` is not run then.
fn serve_in_threads<
    M: Accept + Send + Drop,
    O: Accept + Send + Drop,
    P: ServeConnections + Send + Drop,
    G: TimedGate + Sync,
    H: NewFiles + Threads + Wait + Log + Clock + Sync,
    T,
    S: FnOnce() -> Result<T, PoolFault>,
>(
    rt: &H,
    alloc: Global,
    serve_phase: &ServePhase,
    session_gate: &G,
    schedule: Schedule,
    old_parts: Option<&OldParts<'_, H>>,
    times: Option<&TimesWriter<'_, H>>,
    accepting: Accepting<M, O, P>,
    serve: S,
) -> Result<T, PoolFault>
    requires { S.pre serve }
    ensures { OnOk result (S.post serve result) }
{
    let Ok((ending, ended)) = bounded(alloc, 1) else {
        return Err(PoolFault::OutOfMemory);
    };
    let Ok(times_ended) = ended.clone() else {
        return Err(PoolFault::OutOfMemory);
    };
    thread::scope(
        thread::scope_env(),
        rt,
        |scope| -> Result<T, PoolFault>
            requires { S.pre serve }
            ensures { OnOk result (S.post serve result) }
        {
            let have_started = start_clock(scope, rt, session_gate, schedule, ended)
                && start_deleting(scope, old_parts)
                && start_times(scope, times, times_ended);
            let served = if have_started {
                serve_while_accepting(rt, serve_phase, accepting, serve)
            } else {
                Err(PoolFault::NoThread)
            };
            drop(ending);
            if let Some(old_parts) = old_parts {
                old_parts.end();
            }
            served
        },
    )
}

/// Runs `serve` while threads of their own accept connections and serve operators, and waits until these threads have ended.
///
/// Returns `NoThread` if a thread is refused; `serve` is not run then.
fn serve_while_accepting<
    M: Accept + Send + Drop,
    O: Accept + Send + Drop,
    P: ServeConnections + Send + Drop,
    H: Threads + Wait + Clock + Sync,
    T,
    S: FnOnce() -> Result<T, PoolFault>,
>(rt: &H, serve_phase: &ServePhase, accepting: Accepting<M, O, P>, serve: S) -> Result<T, PoolFault>
    requires { S.pre serve }
    ensures { OnOk result (S.post serve result) }
{
    thread::scope(
        thread::scope_env(),
        rt,
        |scope| -> Result<T, PoolFault>
            requires { S.pre serve }
            ensures { OnOk result (S.post serve result) }
        {
            if !start_accepting(scope, rt, serve_phase, accepting) {
                return Err(PoolFault::NoThread);
            }
            serve()
        },
    )
}

/// Starts a thread that keeps the time of the lines until the sender of `ended` is dropped, if the schedule has ticks or steps.
/// Returns whether it was started or is not needed.
fn start_clock<'s, E, G: TimedGate + Sync, H: Wait + Clock + Sync>(
    scope: &Scope<'s, E>,
    rt: &'s H,
    session_gate: &'s G,
    schedule: Schedule,
    ended: Receiver<()>,
) -> bool {
    if schedule.wait(0).is_none() {
        return true;
    }
    let keeping = move || keep_time(rt, session_gate, schedule, ended);
    scope.spawn(keeping).is_ok()
}

/// Advances the time of the lines and has their devices step, whenever that is due, until the sender of `ended` is dropped.
fn keep_time<G: TimedGate, H: Wait + Clock>(
    rt: &H,
    session_gate: &G,
    mut schedule: Schedule,
    ended: Receiver<()>,
) {
    for _ in rt.forever() {
        let due = schedule.take(session_gate.moment());
        if due.tick {
            session_gate.tick_all(rt);
        }
        if due.step {
            session_gate.step_all(rt);
        }
        let Some(milliseconds) = schedule.wait(session_gate.moment()) else {
            return;
        };
        match ended.recv_timeout(rt, Duration::from_millis(milliseconds)) {
            Err(RecvTimeoutError::Timeout) => {}
            Ok(()) => return,
            Err(RecvTimeoutError::Disconnected) => return,
        }
    }
    unreachable!()
}

/// Starts a thread that deletes old parts of audit texts, if parts are deleted. Returns whether it was started or is not needed.
fn start_deleting<'s, E, H: NewFiles + Wait + Log + Clock + Sync>(
    scope: &Scope<'s, E>,
    old_parts: Option<&'s OldParts<'_, H>>,
) -> bool {
    let Some(old_parts) = old_parts else {
        return true;
    };
    let deleting = move || old_parts.delete_each();
    scope.spawn(deleting).is_ok()
}

/// Starts a thread that writes the times of entries until the sender of `ended` is dropped, if there are audit texts. Returns
/// whether it was started or is not needed.
fn start_times<'s, E, H: NewFiles + Wait + Log + Clock + Sync>(
    scope: &Scope<'s, E>,
    times: Option<&'s TimesWriter<'_, H>>,
    ended: Receiver<()>,
) -> bool {
    let Some(times) = times else {
        return true;
    };
    let writing = move || times.write_each(&ended);
    scope.spawn(writing).is_ok()
}

/// Starts a thread for each acceptor and each worker of operators. Connections are accepted once all these threads have started.
/// Returns whether all were started.
fn start_accepting<
    's,
    E,
    M: Accept + Send + Drop + 's,
    O: Accept + Send + Drop + 's,
    P: ServeConnections + Send + Drop + 's,
    H: Wait + Clock + Sync,
>(
    scope: &Scope<'s, E>,
    rt: &'s H,
    serve_phase: &'s ServePhase,
    accepting: Accepting<M, O, P>,
) -> bool {
    let Accepting {
        masters,
        operators,
        operator_workers,
        sessions,
    } = accepting;
    let mut phase = serve_phase.lock(rt);
    if !start_workers(scope, rt, operator_workers)
        || !start_acceptors(scope, rt, serve_phase, masters, sessions)
        || !start_acceptors(scope, rt, serve_phase, operators, sessions)
    {
        return false;
    }
    // Serving may have stopped before.
    if *phase == Phase::Starting {
        *phase = Phase::Accepting;
    }
    true
}

/// Starts a thread for each acceptor. Returns whether all were started.
fn start_acceptors<'s, E, A: Accept + Send + Drop + 's, H: Wait + Clock + Sync>(
    scope: &Scope<'s, E>,
    rt: &'s H,
    serve_phase: &'s ServePhase,
    acceptors: Vec<A>,
    sessions: u64,
) -> bool {
    for acceptor in acceptors {
        let accepting = move || acceptor.accept_all(rt, serve_phase, sessions);
        if scope.spawn(accepting).is_err() {
            return false;
        }
    }
    true
}

/// Starts a thread for each worker. Returns whether all were started.
fn start_workers<'s, E, P: ServeConnections + Send + Drop + 's, H: Wait + Sync>(
    scope: &Scope<'s, E>,
    rt: &'s H,
    workers: Vec<P>,
) -> bool {
    for worker in workers {
        let serving = move || worker.serve_each(rt);
        if scope.spawn(serving).is_err() {
            return false;
        }
    }
    true
}
