//! Telegrams that go out later than they came.
//!
//! A thread for each direction writes them, so that the thread that reads sees each telegram at the moment at which it
//! comes. While any of them is left, all that comes after it goes the same way. Their number is bounded: while as many
//! are left, the next one is read once one of them has gone out.

use crate::link::{Link, send};
use cable_faults::Direction;
use crossbeam_channel::{Receiver, Sender};
use dp_telegram::Octets;
use std::alloc::Global;
use std::sync::atomic::AtomicU32;
use std::sync::atomic::Ordering::SeqCst;
use std::sync::{Arc, Wait};
use std::thread;
use std::time::{Clock, Duration, Instant};

/// The most telegrams of one direction of a connection that are left.
pub(crate) const MOST_DELAYED: usize = 4_096;

/// Octets that go out at a moment.
#[derive(Drop)]
pub(crate) struct Delayed {
    /// The moment, in microseconds from the start of the connection.
    pub(crate) due: u64,
    pub(crate) octets: Octets,
}

/// The way to the thread that writes what is late.
#[derive(Drop)]
pub(crate) struct DelayedSender {
    sender: Sender<Delayed>,
    /// The number of those that were sent and have not gone out.
    left: Arc<AtomicU32, Global>,
}

impl DelayedSender {
    /// Returns the sender of a channel and of its count.
    pub(crate) fn new(sender: Sender<Delayed>, left: Arc<AtomicU32, Global>) -> DelayedSender {
        DelayedSender { sender, left }
    }

    /// Returns whether all have gone out.
    pub(crate) fn is_empty(&self) -> bool {
        self.left.load(SeqCst) == 0
    }

    /// Sends octets, and waits until there is room for them. Returns false if the connection has ended.
    pub(crate) fn put(&self, rt: &impl Wait, delayed: Delayed) -> bool {
        self.left.fetch_add(1, SeqCst);
        self.sender.send(rt, delayed).is_ok()
    }
}

/// Writes what is late, each at its moment, until the sender is dropped; then ends the direction. So what came before the
/// end of a connection goes out before the other one is closed.
pub(crate) fn write_delayed<H: Wait + Clock + Drop>(
    rt: H,
    link: Arc<Link, Global>,
    direction: Direction,
    start: Instant,
    delayed: Receiver<Delayed>,
    left: Arc<AtomicU32, Global>,
) {
    for _ in rt.forever() {
        let Ok(next) = delayed.recv(&rt) else {
            break;
        };
        let now = microseconds(&rt, start);
        thread::sleep(&rt, Duration::from_micros(next.due.saturating_sub(now)));
        if !send(link.target(direction), &next.octets) {
            break;
        }
        left.fetch_sub(1, SeqCst);
    }
    link.end(direction);
}

/// Returns the microseconds since the start; 0 if the clock can't be read.
pub(crate) fn microseconds(clock: &impl Clock, start: Instant) -> u64 {
    match start.elapsed(clock) {
        Ok(elapsed) => elapsed
            .as_secs()
            .saturating_mul(1_000_000)
            .saturating_add(u64::from(elapsed.subsec_micros())),
        Err(_) => 0,
    }
}
