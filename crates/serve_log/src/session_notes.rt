//! Reports of the sessions of masters and operators.

use crate::client::Client;
use crate::dropped_rows::DroppedRows;
use crate::noted::{MasterSession, Subject};
use crate::notes::Notes;
use crate::time_of_day::TimeOfDay;
use arrayvec::ArrayVec;
use dp_audit::Receipt;
use dp_line::{Event, Op, OperatorFault, Outcome, Rule, Step, is_refused_request};
use dp_sessions::{DroppedOctets, Gate, NotRecorded, SessionEnd};
use dp_telegram::WholeFrame;
use dp_text::Text;
use log::{Log, info, warn};
use serve_options::LogDetail;
use std::sync::Wait;
use std::time::Clock;

/// The cause of a halt that an operator has sent.
const BY_OPERATOR: &str = "by its operator";

impl<L: Log + Clock> Notes<'_, L> {
    /// Reports once that a line is halted, with the cause. While a halt of an operator is not answered yet, an answer that only
    /// says that the line is halted doesn't show the cause: it may have come after the operator's halt.
    fn report_halt<W: Wait>(&self, rt: &W, line: u8, is_halt: bool, outcome: &Outcome) {
        let Some(cause) = cause_of_halt(is_halt, outcome) else {
            return;
        };
        let mut noted = self.noted.lock(rt);
        if is_halt && let Some(place) = noted.halting.iter().position(|halting| *halting == line) {
            let _ = noted.halting.swap_remove(place);
        }
        let is_known = cause == BY_OPERATOR || !noted.halting.contains(&line);
        if is_known && !noted.halted.contains(&line) {
            let _ = noted.halted.try_push(line);
            let time = TimeOfDay::now(self.log);
            warn!(self.log; target: "rackd", "{time} line {line}: halted, {cause}");
        }
    }

    /// Reports an event and its answer.
    fn report_answer<W: Wait>(&self, rt: &W, line: u8, event: &Event, outcome: &Outcome) {
        let mut text = Text::new();
        text.push_event(event);
        text.push_str(" -> ");
        text.push_outcome(outcome);
        if let Ok(row) = std::str::from_utf8(text.as_bytes()) {
            self.log_row(rt, format_args!("line {line}: {row}"));
        }
    }

    /// Counts a request of a session, and whether it was refused.
    fn count<W: Wait>(&self, rt: &W, line: u8, master: u8, is_refused: bool) {
        let mut noted = self.noted.lock(rt);
        for session in &mut noted.sessions {
            if session.line == line && session.master == master {
                session.requests = session.requests.saturating_add(1);
                if is_refused {
                    session.refused = session.refused.saturating_add(1);
                }
                self.write_dropped(session, false);
            }
        }
    }

    /// Writes the row about what a session has dropped, if it may have one more in this second, or if it has ended.
    fn write_dropped(&self, session: &mut MasterSession, has_ended: bool) {
        if session.dropped.is_empty() {
            return;
        }
        let second = self.second();
        let (line, master) = (session.line, session.master);
        if let Some(row) = session.dropped.next_row(second, has_ended) {
            let time = TimeOfDay::now(self.log);
            info!(self.log; target: "rackd", "{time} line {line} master {master}: {row}");
        }
    }

    /// Adds a session in progress, which has sent no request yet.
    fn begin<W: Wait>(&self, rt: &W, line: u8, master: u8) {
        let _ = self.noted.lock(rt).sessions.try_push(MasterSession {
            line,
            master,
            requests: 0,
            refused: 0,
            dropped: DroppedRows::default(),
        });
    }

    /// Removes a session in progress, and returns its requests.
    fn finish<W: Wait>(&self, rt: &W, line: u8, master: u8) -> MasterSession {
        let mut noted = self.noted.lock(rt);
        let place = noted
            .sessions
            .iter()
            .position(|session| session.line == line && session.master == master);
        let mut session = match place {
            Some(place) => noted.sessions.swap_remove(place),
            None => MasterSession::default(),
        };
        self.write_dropped(&mut session, true);
        session
    }
}

impl<L: Log + Clock> Gate for Notes<'_, L> {
    ghost recorded = { λ notes line place. Unit {0} };

    fn enter<W: Wait>(&self, _rt: &W, _line: u8, _master: u8) {}

    /// Records nothing: reports are no record.
    fn record<W: Wait>(&self, _rt: &W, _line: u8, place: Option<u32>) -> Result<(), NotRecorded> {
        match place {
            Some(_) => Ok(()),
            None => Ok(()),
        }
    }

    fn accepted<W: Wait>(&self, rt: &W, line: u8, master: u8) {
        if self.log_detail != LogDetail::Warnings {
            self.begin(rt, line, master);
            self.log_row(rt, format_args!("line {line}: master {master} connected"));
        }
    }

    fn answered<W: Wait>(
        &self,
        rt: &W,
        line: u8,
        master: u8,
        frame: &WholeFrame<'_>,
        answer: &Step,
    ) {
        self.report_halt(rt, line, false, &answer.outcome);
        if self.log_detail != LogDetail::Warnings {
            let is_refused = is_refused_request(frame.octets(), &answer.outcome);
            self.count(rt, line, master, is_refused);
        }
        if self.log_detail == LogDetail::Requests
            && let Ok(octets) = ArrayVec::try_from(frame.octets())
        {
            let event = Event::Request { master, octets };
            self.report_answer(rt, line, &event, &answer.outcome);
        }
    }

    fn dropped<W: Wait>(&self, rt: &W, line: u8, master: u8, dropped: &DroppedOctets) {
        if self.log_detail == LogDetail::Warnings {
            return;
        }
        let mut noted = self.noted.lock(rt);
        for session in &mut noted.sessions {
            if session.line == line && session.master == master {
                session.dropped.add(dropped);
                self.write_dropped(session, false);
            }
        }
    }

    fn ended<W: Wait>(&self, rt: &W, line: u8, master: u8, end: SessionEnd) {
        self.leaves(rt);
        if self.log_detail != LogDetail::Warnings {
            let MasterSession {
                requests,
                refused,
                ..
            } = self.finish(rt, line, master);
            let end = end.name();
            self.log_row(
                rt,
                format_args!(
                    "line {line}: master {master} ended: {end}, {requests} requests, {refused} refused"
                ),
            );
        }
    }

    fn rejected<W: Wait>(&self, rt: &W, port: u8, address: Option<u8>, end: SessionEnd) {
        self.leaves(rt);
        let (line, end) = (self.line_at(port), end.name());
        match address {
            Some(master) => self.log_limited(
                rt,
                line,
                Subject::Port(Client::Master),
                format_args!("master {master} refused: {end}"),
            ),
            None => self.log_limited(
                rt,
                line,
                Subject::Port(Client::Master),
                format_args!("no address came: {end}"),
            ),
        }
    }

    fn operates<W: Wait>(&self, rt: &W, line: u8, op: &Op) {
        if let Op::Halt = op {
            let _ = self.noted.lock(rt).halting.try_push(line);
        }
    }

    fn operated<W: Wait>(&self, rt: &W, line: u8, receipt: &Receipt) {
        self.report_halt(rt, line, is_halt(&receipt.event), &receipt.outcome);
        if self.log_detail == LogDetail::Requests {
            self.report_answer(rt, line, &receipt.event, &receipt.outcome);
        }
    }
}

/// Returns whether the event is the operator's halt of the line.
fn is_halt(event: &Event) -> bool {
    matches!(event, Event::Operator(Op::Halt))
}

/// Returns why a line is halted, if the answer shows it: its operator halted it, or the answer says that it is halted.
/// `is_halt` is whether the answer is to the operator's halt.
fn cause_of_halt(is_halt: bool, outcome: &Outcome) -> Option<&'static str> {
    match outcome {
        Outcome::Released(_) if is_halt => Some(BY_OPERATOR),
        Outcome::Silence(Rule::Halted) | Outcome::Refused(OperatorFault::Halted) => {
            Some("its journal is full; '--endless' lets a line continue")
        }
        Outcome::Reply { .. }
        | Outcome::Silence(_)
        | Outcome::Spread(_)
        | Outcome::Released(_)
        | Outcome::Done
        | Outcome::Refused(_) => None,
    }
}
