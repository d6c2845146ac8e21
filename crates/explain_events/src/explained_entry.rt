//! All rows of an entry.

ghost use Rattle.std.specs.Prelude.{Some};
ghost use Rattle.explain_events.specs.Results.{result_rows};
ghost use Rattle.explain_events.specs.ExplainedEntries.{contents_row, reply_row, explained_entry_text};

use crate::changes::ChangeRows;
use crate::context::EventContext;
use crate::head::Head;
use crate::operations::OpWords;
use crate::read_event::ReadEvent;
use crate::requests::RequestRows;
use crate::telegram_rows::{ReplyRow, SentRow};
use crate::ways::answered;
use dp_line::{Event, LineState, Outcome};
use std::fmt;

/// The row that shows the data of a request; writes nothing for an event of the operator.
#[derive(Clone, Copy)]
struct Contents<'a>(&'a ReadEvent<'a>);

impl<'a> fmt::Display for Contents<'a> {
    ghost output = { λ s. Some (contents_row s.0.now) };

    fn fmt<W: fmt::Write>(&self, f: &mut fmt::Formatter<W>) -> fmt::Result {
        match self.0.event() {
            Event::Request { .. } => {
                let row = SentRow(self.0.request());
                write!(f, "{row}")
            }
            Event::Operator(_) => Ok(()),
        }
    }
}

/// The rows that show the result of an event.
#[derive(Clone, Copy)]
struct ResultRows<'a> {
    context: &'a EventContext<'a>,
    event: &'a ReadEvent<'a>,
    outcome: &'a Outcome,
}

impl<'a> fmt::Display for ResultRows<'a> {
    ghost output = { λ s. Some (result_rows s.context.now s.event.now s.outcome.now) };

    fn fmt<W: fmt::Write>(&self, f: &mut fmt::Formatter<W>) -> fmt::Result {
        match self.event.event() {
            Event::Request { master, .. } => {
                let rows = RequestRows {
                    context: self.context,
                    master: *master,
                    request: self.event.request(),
                    outcome: self.outcome,
                };
                write!(f, "{rows}")
            }
            Event::Operator(op) => {
                let context = self.context;
                let words = OpWords {
                    before: context.before,
                    op,
                    outcome: self.outcome,
                };
                write!(f, "       result      {words}\n")
            }
        }
    }
}

/// The row that shows the reply to a request; writes nothing if there is no reply.
#[derive(Clone, Copy)]
struct ReplyRows<'a> {
    context: &'a EventContext<'a>,
    event: &'a ReadEvent<'a>,
    outcome: &'a Outcome,
}

impl<'a> fmt::Display for ReplyRows<'a> {
    ghost output = { λ s. Some (reply_row s.context.now s.event.now s.outcome.now) };

    fn fmt<W: fmt::Write>(&self, f: &mut fmt::Formatter<W>) -> fmt::Result {
        match self.event.event() {
            Event::Request { master, .. } => match self.outcome {
                Outcome::Reply {
                    octets: reply,
                    rule,
                } => {
                    let request = self.event.request();
                    let way = answered(self.context, *master, request, *rule);
                    let row = ReplyRow {
                        request,
                        reply: reply.as_slice(),
                        is_judged_afterwards: way.is_judged_afterwards(),
                    };
                    write!(f, "{row}")
                }
                Outcome::Silence(_) => Ok(()),
                Outcome::Spread(_) => Ok(()),
                Outcome::Released(_) => Ok(()),
                Outcome::Done => Ok(()),
                Outcome::Refused(_) => Ok(()),
            },
            Event::Operator(_) => Ok(()),
        }
    }
}

/// All rows of one event.
#[derive(Clone, Copy)]
pub struct ExplainedEntry<'a> {
    /// The description, the line, the notes and the time before the event.
    pub context: &'a EventContext<'a>,
    /// The line after the event.
    pub after: &'a LineState,
    /// The place of the event, from 1.
    pub place: u64,
    pub event: &'a Event,
    pub outcome: &'a Outcome,
}

impl<'a> fmt::Display for ExplainedEntry<'a> {
    ghost output = { λ s. Some (explained_entry_text s.context.now s.after.now.world s.place s.event.now s.outcome.now) };

    fn fmt<W: fmt::Write>(&self, f: &mut fmt::Formatter<W>) -> fmt::Result {
        let context = self.context;
        let event = ReadEvent::new(self.event);
        let head = Head {
            time: context.time,
            place: self.place,
            event: &event,
        };
        let contents = Contents(&event);
        let results = ResultRows {
            context,
            event: &event,
            outcome: self.outcome,
        };
        let reply = ReplyRows {
            context,
            event: &event,
            outcome: self.outcome,
        };
        let changes = ChangeRows {
            before: context.before,
            after: self.after,
            event: &event,
            outcome: self.outcome,
        };
        write!(f, "{head}{contents}{results}{reply}{changes}")
    }
}
