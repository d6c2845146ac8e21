//! The rows that threads write: answers for standard output, and reports for standard error.
//!
//! Both wait in queues of a fixed size. No answer is dropped: each line of standard input takes a place before it is
//! read, and the place is free again once the answer is written. So an answer always has room, and an input whose
//! answers nobody reads is not read on. A report waits for nothing: if there is no room for it, it is lost and counted.

use crossbeam_channel::{Receiver, Sender, bounded};
use dp_text::Text;
use std::alloc::{AllocError, Global};
use std::io::Eprint;
use std::sync::atomic::AtomicU32;
use std::sync::atomic::Ordering::SeqCst;
use std::sync::{Arc, Wait};

/// The most lines of standard input whose answers are not written. At most 64 of them wait for replies.
const MOST_ANSWERS: usize = 256;

/// The most reports that wait to be written.
const MOST_REPORTS: usize = 1_024;

/// The ends of the queues at which rows are put. Threads share it.
#[derive(Drop)]
pub(crate) struct Rows {
    answers: Sender<Text>,
    /// A message for each place that is taken.
    taken: Sender<()>,
    given_back: Receiver<()>,
    reports: Sender<Text>,
    lost: Arc<AtomicU32, Global>,
}

/// The end of the queue of answers.
#[derive(Drop)]
pub(crate) struct Answers {
    answers: Receiver<Text>,
    given_back: Receiver<()>,
}

/// The end of the queue of reports.
#[derive(Drop)]
pub(crate) struct Reports {
    reports: Receiver<Text>,
    lost: Arc<AtomicU32, Global>,
}

/// Returns the ends of both queues. Allocates all the room that they ever have.
pub(crate) fn open_rows(alloc: Global) -> Result<(Rows, Answers, Reports), AllocError> {
    let (answers, answers_end) = bounded(alloc, MOST_ANSWERS)?;
    let (taken, given_back) = bounded(alloc, MOST_ANSWERS)?;
    let (reports, reports_end) = bounded(alloc, MOST_REPORTS)?;
    let lost = Arc::new(alloc, AtomicU32::new(0))?;
    let answers_end = Answers {
        answers: answers_end,
        given_back: given_back.clone()?,
    };
    let reports_end = Reports {
        reports: reports_end,
        lost: Arc::try_clone(&lost)?,
    };
    let rows = Rows {
        answers,
        taken,
        given_back,
        reports,
        lost,
    };
    Ok((rows, answers_end, reports_end))
}

impl Rows {
    /// Takes a place for an answer, and waits for one.
    pub(crate) fn take_place(&self, rt: &impl Wait) {
        let _ = self.taken.send(rt, ());
    }

    /// Gives back places that no answer needs.
    pub(crate) fn give_back(&self, rt: &impl Wait, places: usize) {
        for _ in 0..places {
            let _ = self.given_back.recv(rt);
        }
    }

    /// Puts the answer to a line, with its LF. It has the place that was taken for it, so this doesn't wait for standard
    /// output.
    pub(crate) fn answer(&self, rt: &impl Wait, answer: Text) {
        let _ = self.answers.send(rt, answer);
    }

    /// Puts a report, without an LF, after the number of lost reports if any were lost. If there is no room, the report is
    /// lost and counted.
    pub(crate) fn report(&self, rt: &impl Wait, report: Text) {
        if !self.put_lost(rt) || self.reports.try_send(rt, report).is_err() {
            self.lost.fetch_add(1, SeqCst);
        }
    }

    /// Puts the number of lost reports, if any were lost. Returns false if there is no room for it.
    fn put_lost(&self, rt: &impl Wait) -> bool {
        let lost = self.lost.swap(0, SeqCst);
        if lost == 0 {
            return true;
        }
        let is_put = self.reports.try_send(rt, lost_row(lost)).is_ok();
        if !is_put {
            self.lost.fetch_add(lost, SeqCst);
        }
        is_put
    }
}

impl Answers {
    /// Returns the next answer, and waits for it; None if there will be none.
    pub(crate) fn next(&self, rt: &impl Wait) -> Option<Text> {
        self.answers.recv(rt).ok()
    }

    /// Gives back the place of an answer that was written.
    pub(crate) fn give_back(&self, rt: &impl Wait) {
        let _ = self.given_back.recv(rt);
    }
}

/// Writes reports to standard error until all threads that may put one have ended. A row that can't be written is lost.
pub(crate) fn write_reports<H: Wait + Eprint + Drop>(rt: H, reports: Reports) {
    for _ in rt.forever() {
        let Some(row) = reports.next(&rt) else {
            return;
        };
        if let Ok(row) = std::str::from_utf8(row.as_bytes()) {
            let _ = rt.eprintln(row);
        }
    }
}

impl Reports {
    /// Returns the next row, and waits for it; None if there will be none. Once no report waits, that is the number of
    /// lost reports, if any were lost.
    fn next(&self, rt: &impl Wait) -> Option<Text> {
        if let Ok(row) = self.reports.try_recv(rt) {
            return Some(row);
        }
        let lost = self.lost.swap(0, SeqCst);
        if lost > 0 {
            return Some(lost_row(lost));
        }
        self.reports.recv(rt).ok()
    }
}

/// Returns the row that reports how many reports were lost, without an LF.
fn lost_row(lost: u32) -> Text {
    let mut row = Text::new();
    row.push_str("[WARN rackd] ");
    row.push_number(lost);
    row.push_str(" rows lost");
    row
}
