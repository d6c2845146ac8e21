//! Pools of workers.

ghost use Rattle.std.specs.Prelude.{◌≡◌, ◌∷◌, [], IfOk};
ghost use Rattle.dp_sessions.specs.Pools.{IsSeatAt};

use crossbeam_channel::{Receiver, unbounded};
use dp_line::Device;
use dp_sessions::{Job, OpenGate, Port, Workers, count_served, run_pool};
use dp_shared::WorkerSeat;
use dp_telegram::Octets;
use std::alloc::{AllocError, Global};
use std::io::{ErrorKind, Read, Write};
use std::sync::Wait;
use std::sync::atomic::AtomicU64;
use std::sync::atomic::Ordering::SeqCst;
use std::test::Fail;
use std::thread::Threads;
use test_fixtures::line_specs::ample_line;
use test_fixtures::place::{Place, fresh_place};
use test_fixtures::rows::{is_reported, octets_of};

/// The address of master 2, and its request for the diagnosis of slave 5.
const ASKS_2: &str = "026805056885826d3c3eee16";

const ANSWERED_2: &str = "e5680b0b688285083e3c020500ff80a1b016";

/// A writer that takes the expected octets and no others, and counts them in `taken`.
#[derive(Drop)]
struct Expecting<'a> {
    expected: &'a [u8],
    taken: &'a AtomicU64,
}

impl Write for Expecting<'_> {
    fn write(&mut self, buf: &[u8]) -> std::io::Result<usize> {
        let Some((front, rest)) = self.expected.split_at_checked(buf.len()) else {
            return Err(ErrorKind::StorageFull.into());
        };
        if front != buf {
            return Err(ErrorKind::InvalidData.into());
        }
        self.expected = rest;
        self.taken.fetch_add(buf.len() as u64, SeqCst);
        Ok(buf.len())
    }

    fn flush(&mut self) -> std::io::Result<()> {
        Ok(())
    }
}

/// Returns a list of these two elements.
fn both<T: Drop>(alloc: Global, first: T, second: T) -> Result<Vec<T>, AllocError>
    ensures { IfOk result (λ v. v.items ≡ first ∷ second ∷ []) }
{
    let mut list = Vec::with_capacity(alloc, 2)?;
    list.push_reserved(first);
    list.push_reserved(second);
    Ok(list)
}

/// Returns whether a seat that served no session can claim the addresses of both masters, one after the other.
fn are_free(port: &Port, seat: WorkerSeat) -> bool
    requires { IsSeatAt port.now.claims seat }
{
    let mut seat = seat;
    if port.claims.claim(&mut seat, 1).is_err() {
        return false;
    }
    port.claims.release(&mut seat);
    port.claims.claim(&mut seat, 2).is_ok()
}

/// Returns the end of a queue that has these jobs, and takes no others.
fn queue_of<H: Wait, R: Read + Send + Drop, W: Write + Send + Drop>(
    rt: &H,
    alloc: Global,
    jobs: Vec<Job<R, W>>,
) -> Result<Receiver<Job<R, W>>, Fail> {
    let (sender, receiver) = unbounded(alloc)?;
    for job in jobs {
        if sender.send(rt, job).is_err() {
            return Err(Fail::new("no receiver"));
        }
    }
    Ok(receiver)
}

/// Opens the line with this number, with three seats.
fn place_at(alloc: Global, line: u8) -> Result<Place, Fail> {
    fresh_place(alloc, &ample_line(alloc, line, Device::Still)?)
}

/// Serves these jobs by two workers at lines 1 and 2. Returns how many jobs they served, and whether the addresses of
/// both lines are free afterwards.
fn served<H: Threads + Wait + Sync, R: Read + Send + Drop, W: Write + Send + Drop>(
    rt: &H,
    alloc: Global,
    jobs: Vec<Job<R, W>>,
) -> Result<String, Fail> {
    let one = place_at(alloc, 1)?;
    let two = place_at(alloc, 2)?;
    let queue = queue_of(rt, alloc, jobs)?;
    let seats = both(
        alloc,
        both(alloc, one.first, two.first)?,
        both(alloc, one.second, two.second)?,
    )?;
    let ports = [one.port, two.port];
    let workers = Workers::new(alloc, seats, 1)?;
    let all = run_pool(rt, &ports, workers, queue, &OpenGate, 100)?;
    let count = count_served(&all);
    let free = are_free(&ports[0], one.third) && are_free(&ports[1], two.third);
    Ok(format!(in alloc; "{count} served, free {free}")?)
}

/// Returns a job at the port with this place: a session that reads the octets `asks`, and to which `answers` are
/// written.
fn job<'a>(
    port: u8,
    asks: &'a Octets,
    answers: &'a Octets,
    taken: &'a AtomicU64,
) -> Job<&'a [u8], Expecting<'a>> {
    Job {
        port,
        reader: asks.as_slice(),
        writer: Expecting {
            expected: answers.as_slice(),
            taken,
        },
    }
}

/// Serves jobs of master 2 at these ports. Returns the counts of [`served`] and how many octets were written.
fn served_at<H: Threads + Wait + Sync>(
    rt: &H,
    alloc: Global,
    ports: &[u8],
) -> Result<String, Fail> {
    let (asks, answers) = (octets_of(ASKS_2)?, octets_of(ANSWERED_2)?);
    let taken = AtomicU64::new(0);
    let mut jobs = Vec::new(alloc);
    for port in ports {
        jobs.push(job(*port, &asks, &answers, &taken))?;
    }
    let pool = served(rt, alloc, jobs)?;
    Ok(format!(in alloc; "{pool}, octets {}", taken.load(SeqCst))?)
}

#[test]
fn jobs_of_no_port_are_dropped(rt: HostRuntime) -> Result<(), Fail> {
    is_reported(
        served_at(&rt, rt.alloc(), &[2, 0, 33, 255, 1])?,
        "2 served, free true, octets 36",
    )
}
