//! One direction of a connection.

use crate::delayed::{Delayed, DelayedSender, microseconds};
use crate::link::{Link, Received, receive, send};
use crate::shared::Shared;
use crate::source::Source;
use cable_faults::{Direction, Line, Pace, Passage, RandomWords, Treatment, push_done, push_fault};
use dp_telegram::Cutter;
use dp_text::Text;
use std::alloc::Global;
use std::sync::{Arc, Wait};
use std::time::{Clock, Duration, Instant};

/// The octets that a read takes at the most.
const CHUNK: usize = 512;

/// One direction of a connection: from where its telegrams come to where they go.
#[derive(Drop)]
pub(crate) struct Way {
    pub(crate) shared: Arc<Shared, Global>,
    pub(crate) link: Arc<Link, Global>,
    /// The address of the master.
    pub(crate) address: u8,
    pub(crate) direction: Direction,
    pub(crate) source: Source,
    pub(crate) random_words: RandomWords,
    pub(crate) delayed: DelayedSender,
    /// The moment from which microseconds are counted.
    pub(crate) start: Instant,
    pub(crate) pace: Pace,
    pub(crate) cutter: Cutter,
    /// Whether a read ends after the milliseconds of `--resync`.
    pub(crate) has_limit: bool,
}

/// Passes on the telegrams of a direction until a connection ends, or is closed because a web page has made it.
pub(crate) fn pass_all<H: Wait + Clock + Drop>(rt: H, mut way: Way) {
    let mut buffer = [0; CHUNK];
    for _ in rt.forever() {
        way.limit_read();
        let goes_on = match receive(&rt, &mut way.source, &mut buffer) {
            Received::Octets(count) => way.take(&rt, &buffer[..count.min(CHUNK)]),
            Received::Silence => way.drop_held(&rt),
            Received::End => false,
            Received::WebRequest => {
                way.shared.report_web_request(&rt);
                way.link.close();
                return;
            }
        };
        if !goes_on {
            break;
        }
    }
    way.pass_held(&rt);
}

impl Way {
    /// Has the next read end after the milliseconds of `--resync` if octets are held that are no whole telegram.
    fn limit_read(&mut self) {
        let Some(milliseconds) = self.shared.resync else {
            return;
        };
        let limits = !self.cutter.held().is_empty();
        if limits == self.has_limit {
            return;
        }
        let limit = if limits {
            Some(Duration::from_millis(u64::from(milliseconds)))
        } else {
            None
        };
        if self
            .link
            .source(self.direction)
            .set_read_timeout(limit)
            .is_ok()
        {
            self.has_limit = limits;
        }
    }

    /// Passes on what has come, piece by piece. Returns false if the connection has ended.
    fn take<H: Wait + Clock>(&mut self, rt: &H, octets: &[u8]) -> bool {
        let mut rest = octets;
        for _ in 0..=octets.len() {
            let taken = self.cutter.feed(rest);
            (_, rest) = rest.split_at(taken.min(rest.len()));
            if !self.pass_pieces(rt) {
                return false;
            }
            if rest.is_empty() {
                return true;
            }
        }
        true
    }

    /// Passes on each whole piece that the cutter holds. Returns false if the connection has ended.
    fn pass_pieces<H: Wait + Clock>(&mut self, rt: &H) -> bool {
        for _ in rt.forever() {
            let Some(passage) = self.decide(rt) else {
                return true;
            };
            if !self.pass(rt, &passage) {
                return false;
            }
        }
        unreachable!()
    }

    /// Decides what becomes of the next piece, and writes the rows about it, in the order in which pieces are decided.
    fn decide<H: Wait>(&mut self, rt: &H) -> Option<Passage> {
        let asked = self.link.asked();
        let mut state = self.shared.state.lock(rt);
        let passage = state.cable.take_piece(
            &mut self.cutter,
            self.direction,
            asked,
            &mut self.random_words,
        )?;
        if self.shared.logs && passage.decision.treatment.is_fault() {
            let row = fault_row(self.address, self.direction, &passage);
            self.shared.rows.report(rt, row);
        }
        if let Some(order) = passage.decision.done {
            let mut row = Text::new();
            push_done(&mut row, Line::Faults(order));
            state.count_done();
            self.shared.rows.answer(rt, row);
        }
        Some(passage)
    }

    /// Passes on a piece. Returns false if the connection has ended.
    fn pass<H: Wait + Clock>(&mut self, rt: &H, passage: &Passage) -> bool {
        let decision = &passage.decision;
        if let (Direction::Request, Some(slave)) = (self.direction, decision.slave) {
            self.link.ask(slave);
        }
        let octets = passage.sent();
        let moment = microseconds(rt, self.start);
        let due = self.pace.due(moment, decision.wait);
        if octets.is_empty() {
            return true;
        }
        if due <= moment && self.delayed.is_empty() {
            return send(self.link.target(self.direction), &octets);
        }
        self.delayed.put(rt, Delayed { due, octets })
    }

    /// Drops the octets that are held, which are no whole telegram. Always returns true: the connection goes on.
    fn drop_held<H: Wait>(&mut self, rt: &H) -> bool {
        let lost = Passage::of_rest(&mut self.cutter, Treatment::Lost);
        if self.shared.logs {
            let row = fault_row(self.address, self.direction, &lost);
            self.shared.rows.report(rt, row);
        }
        true
    }

    /// Passes on the octets that are held at the end of a connection, which are no whole telegram.
    fn pass_held<H: Wait + Clock>(&mut self, rt: &H) {
        let rest = Passage::of_rest(&mut self.cutter, Treatment::Passed);
        self.pass(rt, &rest);
    }
}

/// Returns the row of a fault, without an LF.
fn fault_row(master: u8, direction: Direction, passage: &Passage) -> Text {
    let mut text = Text::new();
    push_fault(&mut text, master, direction, passage);
    text
}
