//! The queue of rows, and the thread that writes them.
//!
//! The queue is the log of the host (the sink of a `Logged` of the crate `log`), so no code that reports or serves
//! knows of it. A row has fixed room, so none takes memory.
//!
//! The thread is started by `thread::spawn`, and not in a scope: a thread that writes to a full pipe can't be ended,
//! and the program ends without it. `main` starts it, because the check proves that threads may share such a host
//! only if its type is fixed.

use crate::row::{Row, row_of};
use crossbeam_channel::{Receiver, Sender, bounded};
use log::kv::Source;
use log::span::Spans;
use log::{Line, Log, Metadata, Record};
use std::alloc::Global;
use std::fmt::Display;
use std::sync::Wait;
use std::sync::atomic::AtomicU32;
use std::sync::atomic::Ordering::SeqCst;
use std::thread::Threads;
use std::time::{Clock, Duration};
use std::{io, thread};

/// The most rows that wait to be written.
const WAITING: usize = 1_024;

/// The most milliseconds for which the end waits for standard error.
const PATIENCE: u64 = 5_000;

/// Why a queue was not started (own).
#[derive(Clone, Copy, Debug, PartialEq, Eq)]
pub enum QueueFault {
    /// Out of memory, or the thread could not be started.
    OutOfMemory,
}

/// A queue of rows that wait to be written to standard error. It can be used as a log and as standard error itself.
/// Threads share it, and none waits for it: if there is no room for a row, the row is lost and counted. The number of
/// lost rows becomes a row of its own when there is room again (own).
#[derive(Drop)]
pub struct RowQueue<R> {
    rt: R,
    sender: Sender<Row>,
    /// The channel for one row after all others.
    last: Sender<Row>,
    lost: AtomicU32,
}

/// Shows whether all rows have been written (own).
#[derive(Drop)]
pub struct Written {
    ended: Receiver<()>,
}

/// Starts a queue, and the thread that writes its rows to standard error. The program can end while that thread writes.
///
/// Returns `OutOfMemory` if memory or the thread is refused (own).
pub fn start<R: Threads + Wait + Eprint + Copy + Send + 'static>(
    rt: R,
    alloc: Global,
) -> Result<(RowQueue<R>, Written), QueueFault> {
    let Ok((sender, rows)) = bounded(alloc, WAITING) else {
        return Err(QueueFault::OutOfMemory);
    };
    let Ok((last, last_row)) = bounded(alloc, 1) else {
        return Err(QueueFault::OutOfMemory);
    };
    let Ok((ending, ended)) = bounded(alloc, 1) else {
        return Err(QueueFault::OutOfMemory);
    };
    let writing = move || write_rows(rt, rows, last_row, ending);
    if thread::spawn(&rt, writing).is_err() {
        return Err(QueueFault::OutOfMemory);
    }
    let queue = RowQueue {
        rt,
        sender,
        last,
        lost: AtomicU32::new(0),
    };
    Ok((queue, Written { ended }))
}

/// Writes each row in turn until the queue is dropped, and then the last row, if there is one. If a write fails, its
/// row is lost.
fn write_rows<R: Wait + Eprint + Drop>(
    rt: R,
    rows: Receiver<Row>,
    last: Receiver<Row>,
    _ending: Sender<()>,
) {
    for _ in rt.forever() {
        let Ok(row) = rows.recv(&rt) else {
            if let Ok(row) = last.try_recv(&rt) {
                let _ = rt.eprintln(row.as_str());
            }
            return;
        };
        let _ = rt.eprintln(row.as_str());
    }
    unreachable!()
}

impl<R: Wait> RowQueue<R> {
    /// Appends a row, after the number of lost rows if any were lost. If there is no room, the row is lost and counted.
    fn put(&self, row: impl Display + Drop) {
        if !self.put_lost() || self.sender.try_send(&self.rt, row_of(row)).is_err() {
            self.lost.fetch_add(1, SeqCst);
        }
    }

    /// Appends the number of lost rows, if any were lost. Returns false if there is no room for it.
    fn put_lost(&self) -> bool {
        let lost = self.lost.swap(0, SeqCst);
        if lost == 0 {
            return true;
        }
        let is_put = self.sender.try_send(&self.rt, lost_row(lost)).is_ok();
        if !is_put {
            self.lost.fetch_add(lost, SeqCst);
        }
        is_put
    }
}

/// Returns the row that reports how many rows were lost.
fn lost_row(lost: u32) -> Row {
    row_of(format_args!("[WARN rackd] {lost} rows lost"))
}

impl<R: Wait + Clock + Drop> RowQueue<R> {
    /// Ends the queue, and waits for at most five seconds until all rows are written.
    pub fn end(self, written: Written) {
        let RowQueue {
            rt,
            sender,
            last,
            lost,
        } = self;
        let lost = lost.into_inner();
        if lost > 0 {
            let _ = last.try_send(&rt, lost_row(lost));
        }
        drop(sender);
        let _ = written
            .ended
            .recv_timeout(&rt, Duration::from_millis(PATIENCE));
    }
}

impl<R: Wait> Log for RowQueue<R> {
    fn enabled(&self, _metadata: &Metadata<'_>) -> bool {
        true
    }

    fn log<D: Display, K: Source, S: Spans>(&self, record: &Record<'_, D, K, S>) {
        self.put(Line::new(record));
    }

    fn flush(&self) {}

    fn target(&self) -> &str {
        ""
    }
}

impl<R: Wait> Eprint for RowQueue<R> {
    fn eprint<D: Display + Drop>(&self, value: D) -> io::Result<()> {
        self.put(value);
        Ok(())
    }

    fn eprintln<D: Display + Drop>(&self, value: D) -> io::Result<()> {
        self.put(value);
        Ok(())
    }
}
