//! What a pool of workers takes and leaves: the jobs, and the sessions that were served.

ghost use Rattle.std.specs.Prelude.{◌≡◌, ◌≤◌, ◌+◌, ◌-◌, ◌^◌, ◌++◌, All, IfOk, length, min, option_to_list, sum_by, take, vec_capacity, vec_len};
ghost use Rattle.dp_sessions.specs.KeptSessions.{HasRoom, kept_of};
ghost use Rattle.dp_sessions.specs.declared.jobs.ServedSessions.{ServedSessions as TheSessions};

use crate::session::Session;
use crate::session_end::SessionEnd;
use dp_shared::{ReturnedPass, WorkerSeat};
use std::alloc::{AllocError, Global};
use std::snapshot::Snapshot;

/// A session to serve (own).
#[derive(Drop)]
pub struct Job<R, W> {
    /// The place of its port among those of the pool, from 0.
    pub port: u8,
    /// The reader of its octets.
    pub reader: R,
    /// The writer for its answers.
    pub writer: W,
}

/// A session that was accepted, with the pass that served it (own).
#[derive(Drop)]
pub struct KeptSession<R, W> {
    /// The place of its port among those of the pool, from 0.
    pub port: u8,
    /// How it ended.
    pub end: SessionEnd,
    /// The pass that served it.
    pub returned_pass: ReturnedPass,
    /// Its job as the worker took it, which only contracts see.
    pub taken: Snapshot<Job<R, W>>,
    /// Its job after the session, which only contracts see.
    pub left: Snapshot<Job<R, W>>,
}

/// What a worker leaves of the sessions that it served (own).
#[derive(Drop)]
pub struct ServedSessions<R, W> {
    /// How many sessions it served, whatever their ends; the count saturates at 2^32 - 1.
    pub served: u32,
    /// The first sessions that were accepted, in the order in which it served them.
    pub kept: Vec<KeptSession<R, W>>,
}

/// The workers of a pool: the seats of each, and the room in which it keeps sessions (own).
///
/// The room is bounded, because a pool may serve for weeks: what is kept is only the pass of a session with its port and its
/// end, which the laws about the journal need, but of millions of sessions even these would fill the memory.
#[derive(Drop)]
pub struct Workers<R, W> {
    /// The seats of each worker.
    pub seats: Vec<Vec<WorkerSeat>>,
    /// How many sessions each worker keeps at most.
    pub room: usize,
    /// What each worker has served: nothing yet.
    pub rooms: Vec<ServedSessions<R, W>>,
    pub ghost each: { vec_len rooms ≡ vec_len seats },
    pub ghost empty: { All (HasRoom room) rooms.items },
}

impl<R: Drop, W: Drop> Workers<R, W> {
    /// Returns workers with these seats, and reserves the memory in which each keeps at most `room` sessions.
    ///
    /// Returns an error if the memory is refused.
    pub fn new(
        alloc: Global,
        seats: Vec<Vec<WorkerSeat>>,
        room: usize,
    ) -> Result<Workers<R, W>, AllocError>
        ensures seats { IfOk result (λ workers. workers.seats ≡ seats) }
        ensures room { IfOk result (λ workers. workers.room ≡ room) }
    {
        let mut rooms = Vec::with_capacity(alloc, seats.len())?;
        while rooms.len() < seats.len() {
            rooms.push_reserved(ServedSessions::with_room(alloc, room)?);
        }
        Ok(Workers { seats, room, rooms })
    }
}

impl<R: Drop, W: Drop> ServedSessions<R, W> {
    /// Returns that no session was served, with memory in which this number of sessions is kept.
    ///
    /// Returns an error if the memory is refused.
    fn with_room(alloc: Global, room: usize) -> Result<ServedSessions<R, W>, AllocError>
        ensures { IfOk result (HasRoom room) }
    {
        Ok(ServedSessions {
            served: 0,
            kept: Vec::with_capacity(alloc, room)?,
        })
    }
}

/// Something that keeps the sessions that a worker served. It stands for [`ServedSessions`] when threads start, because
/// the checker does not find by itself that these may go to another thread.
pub(crate) trait Keep<R, W> {
    /// What is kept.
    ghost sessions: { Self → TheSessions R W };

    /// Counts a job that was served, and keeps its session if it was accepted and fewer than `room` are kept.
    fn keep(&mut self, room: usize, job: ServedJob<R, W>)
        requires few { length (Self.sessions self.old).kept.items ≤ room }
        requires room { room ≤ vec_capacity (Self.sessions self.old).kept }
        ensures served { (Self.sessions self.new).served ≡ min ((Self.sessions self.old).served + 1) (2 ^ 32 - 1) }
        ensures kept { (Self.sessions self.new).kept.items ≡ take room ((Self.sessions self.old).kept.items ++ option_to_list (kept_of job)) }
        ensures room { vec_capacity (Self.sessions self.new).kept ≡ vec_capacity (Self.sessions self.old).kept };
}

impl<R: Drop, W: Drop> Keep<R, W> for ServedSessions<R, W> {
    ghost sessions = { λ sessions. sessions };

    fn keep(&mut self, room: usize, job: ServedJob<R, W>)
        requires few { length self.old.kept.items ≤ room }
        requires room { room ≤ vec_capacity self.old.kept }
        ensures served { self.new.served ≡ min (self.old.served + 1) (2 ^ 32 - 1) }
        ensures kept { self.new.kept.items ≡ take room (self.old.kept.items ++ option_to_list (kept_of job)) }
        ensures room { vec_capacity self.new.kept ≡ vec_capacity self.old.kept }
    {
        self.served = self.served.saturating_add(1);
        let ServedJob {
            port,
            session,
            taken,
            left,
        } = job;
        let Session::Accepted { end, returned_pass } = session else {
            return;
        };
        if self.kept.len() < room {
            self.kept.push_reserved(KeptSession {
                port,
                end,
                returned_pass,
                taken,
                left,
            });
        }
    }
}

/// Returns how many sessions these workers served, whatever their ends; the count saturates at 2^32 - 1.
pub fn count_served<R, W>(workers: &[ServedSessions<R, W>]) -> u32
    ensures { result ≡ min (sum_by (λ worker. worker.served) workers.now) (2 ^ 32 - 1) }
{
    let mut count = 0_u32;
    for worker in workers {
        count = count.saturating_add(worker.served);
    }
    count
}

/// A job that a worker took. It has no `Drop`, so that a worker has to serve it or say that its port does not exist.
pub(crate) struct TakenJob<J> {
    pub(crate) job: J,
}

/// A job that was served. It has no `Drop`, so that a worker has to count it.
pub(crate) struct ServedJob<R, W> {
    pub(crate) port: u8,
    pub(crate) session: Session,
    pub(crate) taken: Snapshot<Job<R, W>>,
    pub(crate) left: Snapshot<Job<R, W>>,
}

/// The jobs that a worker takes from a queue, in the order in which they come. A worker gets nothing else of the queue.
///
/// What a job is, is not known here. So no job that comes out of the queue can be dropped, and each is passed on.
#[derive(Drop)]
pub(crate) struct TakenJobs<Q> {
    pub(crate) jobs: Q,
}

impl<Q: Iterator> Iterator for TakenJobs<Q> {
    type Item = TakenJob<Q::Item>;

    ghost can_next = { λ taken. Q.can_next taken.jobs };

    ghost remaining = { λ taken. Q.remaining taken.jobs };

    fn next(&mut self) -> Option<TakenJob<Q::Item>> {
        match self.jobs.next() {
            Some(job) => Some(TakenJob { job }),
            None => None,
        }
    }
}
