//! The result of an event in one sentence, for texts that are no rows.

use crate::context::{EventContext, SlaveRequest};
use crate::frames::telegram_in;
use crate::operations::OpWords;
use crate::read_event::ReadEvent;
use crate::requests::{OfOne, OfSlave};
use crate::spread::SpreadWords;
use dp_line::{Event, Outcome};
use dp_responder::Rule;
use dp_telegram::TelegramLent;
use explain_octets::ReadOctets;
use std::fmt;

/// The result of a request in one sentence.
#[derive(Clone, Copy)]
struct RequestSentence<'a> {
    context: &'a EventContext<'a>,
    /// The address of the sender.
    master: u8,
    request: &'a ReadOctets<'a>,
    outcome: &'a Outcome,
}

impl<'a> RequestSentence<'a> {
    /// Returns the result of this request at one slave, or by a rule of the line.
    fn of_one(&self, silent: bool, rule: Rule) -> OfOne<'a> {
        OfOne {
            context: self.context,
            master: self.master,
            request: self.request,
            silent,
            rule,
        }
    }
}

impl<'a> fmt::Display for RequestSentence<'a> {
    fn fmt<W: fmt::Write>(&self, f: &mut fmt::Formatter<W>) -> fmt::Result {
        match self.outcome {
            Outcome::Reply { rule, .. } => write!(f, "{}", self.of_one(false, *rule)),
            Outcome::Silence(rule) => write!(f, "{}", self.of_one(true, *rule)),
            Outcome::Done => write!(f, "{}", self.of_one(true, Rule::Done)),
            Outcome::Spread(pairs) => {
                let words = SpreadWords {
                    context: self.context,
                    master: self.master,
                    request: self.request,
                    pairs: pairs.as_slice(),
                };
                write!(f, "{words}")
            }
            Outcome::Released(_) => Ok(()),
            Outcome::Refused(_) => Ok(()),
        }
    }
}

/// The result of an event in the sentence that the rows of its entry have. A request to all slaves has a sentence of each
/// slave besides ([`SlaveSentence`]).
#[derive(Clone, Copy)]
pub struct ResultSentence<'a> {
    /// What is known before the event.
    pub context: &'a EventContext<'a>,
    pub event: &'a ReadEvent<'a>,
    pub outcome: &'a Outcome,
}

impl<'a> fmt::Display for ResultSentence<'a> {
    fn fmt<W: fmt::Write>(&self, f: &mut fmt::Formatter<W>) -> fmt::Result {
        match self.event.event() {
            Event::Request { master, .. } => {
                let words = RequestSentence {
                    context: self.context,
                    master: *master,
                    request: self.event.request(),
                    outcome: self.outcome,
                };
                write!(f, "{words}")
            }
            Event::Operator(op) => {
                let context = self.context;
                let words = OpWords {
                    before: context.before,
                    op,
                    outcome: self.outcome,
                };
                write!(f, "{words}")
            }
        }
    }
}

/// The answer of one slave to a request to all slaves, in the sentence that the rows of the entry have.
#[derive(Clone, Copy)]
pub struct SlaveSentence<'a> {
    /// What is known before the request.
    pub context: &'a EventContext<'a>,
    /// The address of the sender.
    pub master: u8,
    pub request: &'a ReadOctets<'a>,
    /// The address of the slave, and the rule by which it answered.
    pub pair: (u8, Rule),
}

impl<'a> fmt::Display for SlaveSentence<'a> {
    fn fmt<W: fmt::Write>(&self, f: &mut fmt::Formatter<W>) -> fmt::Result {
        let Some(telegram) = telegram_in(self.request) else {
            return Ok(());
        };
        let words = SlaveOfTelegram {
            context: self.context,
            master: self.master,
            octets: self.request.octets(),
            pair: self.pair,
            telegram: &telegram,
        };
        write!(f, "{words}")
    }
}

/// The answer of one slave to a telegram that goes to all slaves; writes nothing if its access points cannot be read.
#[derive(Clone, Copy)]
struct SlaveOfTelegram<'a> {
    context: &'a EventContext<'a>,
    master: u8,
    octets: &'a [u8],
    pair: (u8, Rule),
    telegram: &'a TelegramLent<'a>,
}

impl<'a> fmt::Display for SlaveOfTelegram<'a> {
    fn fmt<W: fmt::Write>(&self, f: &mut fmt::Formatter<W>) -> fmt::Result {
        let Some(parts) = self.telegram.parts() else {
            return Ok(());
        };
        let asked = SlaveRequest {
            master: self.master,
            octets: self.octets,
            telegram: self.telegram,
            parts,
        };
        let (address, rule) = self.pair;
        let words = OfSlave {
            context: self.context,
            asked: &asked,
            address,
            silent: true,
            rule,
        };
        write!(f, "{words}")
    }
}
