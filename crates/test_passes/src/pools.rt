//! A pool of workers at one port, and what the journal of the closed line shows of each session that a worker kept.

ghost use Rattle.std.specs.Prelude.{◌≡◌, ◌≤◌, ◌∷◌, ◌++◌, [], All, IfOk, OnOk, length, map};
ghost use Rattle.std.specs.List.{flat_map};
ghost use Rattle.dp_sessions.specs.Pools.{HasSeats};
ghost use Rattle.test_passes.specs.Pools.{ArePoolSessions};

use crate::seats::one_seat;
use crate::tied::listed;
use crossbeam_channel::{Receiver, bounded};
use dp_line::Device;
use dp_sessions::laws::a_master_has_its_entries;
use dp_sessions::{
    Gate, Job, KeptSession, OpenGate, Port, ServedSessions, Workers, count_served, run_pool,
};
use dp_shared::{Closed, Line, ReturnedPass};
use std::alloc::{AllocError, Global};
use std::io::{Read, Write};
use std::slice;
use std::sync::Wait;
use std::test::Fail;
use std::thread::Threads;
use test_fixtures::line_specs::ample_line;
use test_fixtures::rows::octets_of;

/// Adds the passes of these sessions to the list, in order.
fn add_passes<R: Drop, W: Drop>(
    passes: &mut Vec<ReturnedPass>,
    kept: Vec<KeptSession<R, W>>,
) -> Result<(), AllocError>
    ensures { OnOk result (passes.new.items ≡ passes.old.items ++ map (λ session. session.returned_pass) kept.items) }
{
    for session in kept {
        passes.push(session.returned_pass)?;
    }
    Ok(())
}

/// Returns the passes of the sessions that these workers kept, in order.
fn passes_of<R: Drop, W: Drop>(
    alloc: Global,
    workers: Vec<ServedSessions<R, W>>,
) -> Result<Vec<ReturnedPass>, AllocError>
    ensures { IfOk result (λ passes. passes.items ≡ flat_map (λ worker. map (λ session. session.returned_pass) worker.kept.items) workers.items) }
{
    let mut passes = Vec::new(alloc);
    for worker in workers {
        add_passes(&mut passes, worker.kept)?;
    }
    Ok(passes)
}

/// Serves jobs by a pool at one port, and closes the line with the passes of the sessions that are kept. Fails if memory
/// or a thread is refused or another pass is out.
///
/// Returns how many sessions were served. By the journal of the closed line, each session that a worker kept wrote E5 and
/// then the replies of the entries under the number of its pass, in order.
fn serve_and_close<
    H: Threads + Wait + Sync,
    R: Read + Send + Drop,
    W: Write + Send + Drop,
    G: Gate + Sync,
>(
    rt: &H,
    alloc: Global,
    port: Port,
    workers: Workers<R, W>,
    jobs: Receiver<Job<R, W>>,
    gate: &G,
    turns: u32,
) -> Result<(Closed, u32), Fail>
    requires workers { (1 ≤ length workers.seats.items) × (length workers.seats.items ≤ 32) }
    requires seats { All (λ own. HasSeats (port ∷ []) own.items) workers.seats.items }
    ensures { IfOk result (λ r. ArePoolSessions
        (λ taken left. record { left = R.remaining taken.reader; left_after = R.remaining left.reader; written = W.contents taken.writer; written_after = W.contents left.writer })
        (G.recorded gate.now) turns workers.room port r.0 r.1) }
{
    a_master_has_its_entries();
    let ports = slice::from_ref(&port);
    let served = run_pool(rt, ports, workers, jobs, gate, turns)?;
    let count = count_served(&served);
    let mut passes = passes_of(alloc, served)?;
    match port.line.close_with(Vec::new(alloc), &mut passes) {
        Ok(closed) => Ok((closed, count)),
        Err(_) => Err(Fail::new("a pass is out")),
    }
}

/// Returns the end of a channel that has a job at the first port for each stream of octets, and takes no others.
fn queue_of<'a, H: Wait>(
    rt: &H,
    alloc: Global,
    streams: &[&'a [u8]],
) -> Result<Receiver<Job<&'a [u8], Vec<u8>>>, Fail> {
    let (sender, jobs) = bounded(alloc, streams.len())?;
    for octets in streams {
        let job = Job {
            port: 0,
            reader: *octets,
            writer: Vec::new(alloc),
        };
        if sender.send(rt, job).is_err() {
            return Err(Fail::new("no receiver"));
        }
    }
    Ok(jobs)
}

/// The numbers of sessions that were served, of passes that were opened, and of the entries of the closed line.
#[derive(Drop)]
struct Counts {
    served: u32,
    opened: u32,
    entries: u32,
}

/// Serves these streams on a fresh line by a pool of one worker, which keeps two sessions.
fn counts_of_pool<H: Threads + Wait + Sync>(
    rt: &H,
    alloc: Global,
    streams: &[&[u8]],
) -> Result<Counts, Fail> {
    let spec = ample_line(alloc, 1, Device::Still)?;
    let (claims, seat) = one_seat(alloc, &spec)?;
    let line = Line::open(alloc, &spec)?;
    let port = Port { line, claims };
    let jobs = queue_of(rt, alloc, streams)?;
    let seats = listed(alloc, listed(alloc, seat)?)?;
    let workers = Workers::new(alloc, seats, 2)?;
    let (closed, served) = serve_and_close(rt, alloc, port, workers, jobs, &OpenGate, 9)?;
    Ok(Counts {
        served,
        opened: closed.opened(),
        entries: closed.book().count(),
    })
}

/// The frames of three sessions are answered, of which two are kept, and a session whose address is no master's is
/// rejected.
#[test]
fn sessions_of_a_pool(rt: HostRuntime) -> Result<(), Fail> {
    let first = octets_of("016805056885816d3c3eed16")?;
    let second = octets_of("02100902495416100502495016")?;
    let rejected = octets_of("09100502495016")?;
    let streams: [&[u8]; 4] = [&first, &rejected, &second, &first];
    let counts = counts_of_pool(&rt, rt.alloc(), &streams)?;
    assert!(rt; counts.served == 4 && counts.opened == 3 && counts.entries == 4);
    Ok(())
}
