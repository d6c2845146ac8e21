//! The result of a request.

ghost use Rattle.std.specs.Prelude.{◌≡◌, Some};
ghost use Rattle.dp_telegram.specs.FrameText.{frame_of};
ghost use Rattle.dp_line.specs.Verdict.{concerns_a_slave};
ghost use Rattle.explain_events.specs.Results.{reported_of_slave, reported_of_telegram, reported_of_one, request_rows};

use crate::at_slave::RequestAtSlave;
use crate::context::{EventContext, SlaveRequest};
use crate::frames::telegram_in;
use crate::line_reasons::line_reason;
use crate::line_words::LineWords;
use crate::releases::release_of;
use crate::sentences::SlaveWords;
use crate::shown::slave_at;
use crate::spread::{SpreadRows, SpreadWords};
use dp_line::{Outcome, described};
use dp_responder::Rule;
use dp_telegram::TelegramLent;
use explain_octets::ReadOctets;
use std::fmt;

/// The answer of a slave to a request, in one sentence.
#[derive(Clone, Copy)]
pub(crate) struct OfSlave<'a> {
    pub(crate) context: &'a EventContext<'a>,
    pub(crate) asked: &'a SlaveRequest<'a>,
    /// The address of the slave.
    pub(crate) address: u8,
    /// Whether nobody replies.
    pub(crate) silent: bool,
    pub(crate) rule: Rule,
}

impl<'a> fmt::Display for OfSlave<'a> {
    ghost output = { λ s. Some (reported_of_slave s.context.now s.asked.now s.address s.silent s.rule) };

    fn fmt<W: fmt::Write>(&self, f: &mut fmt::Formatter<W>) -> fmt::Result {
        let context = self.context;
        let asked = self.asked;
        let Some(description) = described(context.line.slaves.as_slice(), self.address) else {
            return Ok(());
        };
        let Some(slave) = slave_at(context.before, self.address) else {
            return Ok(());
        };
        let at_slave = RequestAtSlave {
            master: asked.master,
            octets: asked.octets,
            telegram: asked.telegram,
            parts: &asked.parts,
            description,
            slave,
            address: self.address,
            notes: context.notes,
            release: release_of(context.releases, self.address),
        };
        let words = SlaveWords {
            at_slave: &at_slave,
            silent: self.silent,
            rule: self.rule,
        };
        write!(f, "{words}")
    }
}

/// The answer of the slave that a telegram is sent to.
#[derive(Clone, Copy)]
struct OfTelegram<'a> {
    context: &'a EventContext<'a>,
    master: u8,
    octets: &'a [u8],
    silent: bool,
    rule: Rule,
    telegram: &'a TelegramLent<'a>,
}

impl<'a> fmt::Display for OfTelegram<'a> {
    ghost output = { λ s. Some (reported_of_telegram s.context.now s.master s.octets.now s.silent s.rule (Some s.telegram.now)) };

    fn fmt<W: fmt::Write>(&self, f: &mut fmt::Formatter<W>) -> fmt::Result {
        let Some(parts) = self.telegram.parts() else {
            return Ok(());
        };
        let asked = SlaveRequest {
            master: self.master,
            octets: self.octets,
            telegram: self.telegram,
            parts,
        };
        let words = OfSlave {
            context: self.context,
            asked: &asked,
            address: self.telegram.destination(),
            silent: self.silent,
            rule: self.rule,
        };
        write!(f, "{words}")
    }
}

/// The answer of one slave, or the result by a rule of the line.
#[derive(Clone, Copy)]
pub(crate) struct OfOne<'a> {
    pub(crate) context: &'a EventContext<'a>,
    pub(crate) master: u8,
    pub(crate) request: &'a ReadOctets<'a>,
    pub(crate) silent: bool,
    pub(crate) rule: Rule,
}

impl<'a> fmt::Display for OfOne<'a> {
    ghost output = { λ s. Some (reported_of_one s.context.now s.master s.request.now (frame_of s.request.now) s.silent s.rule) };

    fn fmt<W: fmt::Write>(&self, f: &mut fmt::Formatter<W>) -> fmt::Result {
        if concerns_a_slave(self.rule) {
            let Some(telegram) = telegram_in(self.request) else {
                return Ok(());
            };
            let words = OfTelegram {
                context: self.context,
                master: self.master,
                octets: self.request.octets(),
                silent: self.silent,
                rule: self.rule,
                telegram: &telegram,
            };
            write!(f, "{words}")
        } else {
            let context = self.context;
            let masters = context.line.masters.as_slice();
            let words = LineWords {
                masters,
                reason: line_reason(masters, self.master, self.request, self.rule),
            };
            write!(f, "{words}")
        }
    }
}

/// Returns whether a rule concerns one slave, and not the line.
fn concerns_a_slave(rule: Rule) -> bool
    ensures { result ≡ concerns_a_slave rule }
{
    match rule {
        Rule::Halted => false,
        Rule::NoFrame => false,
        Rule::NoMaster => false,
        Rule::ForeignSender => false,
        Rule::Token => false,
        Rule::NotRequest => false,
        Rule::BadFunction => false,
        Rule::BadExtension => false,
        Rule::BadBroadcast => false,
        Rule::NoStation => false,
        Rule::Status => true,
        Rule::NoService => true,
        Rule::Repeat => true,
        Rule::NotActive => true,
        Rule::NotHolder => true,
        Rule::NotListed => true,
        Rule::Busy => true,
        Rule::Length => true,
        Rule::NotSelected => true,
        Rule::Done => true,
    }
}

/// The rows that show the result of a request.
#[derive(Clone, Copy)]
pub(crate) struct RequestRows<'a> {
    pub(crate) context: &'a EventContext<'a>,
    /// The address of the sender.
    pub(crate) master: u8,
    pub(crate) request: &'a ReadOctets<'a>,
    pub(crate) outcome: &'a Outcome,
}

impl<'a> fmt::Display for RequestRows<'a> {
    ghost output = { λ s. Some (request_rows s.context.now s.master s.request.now (frame_of s.request.now) s.outcome.now) };

    fn fmt<W: fmt::Write>(&self, f: &mut fmt::Formatter<W>) -> fmt::Result {
        match self.outcome {
            Outcome::Reply { rule, .. } => {
                let words = self.of_one(false, *rule);
                write!(f, "       result      {words}\n")
            }
            Outcome::Silence(rule) => {
                let words = self.of_one(true, *rule);
                write!(f, "       result      {words}\n")
            }
            Outcome::Done => {
                let words = self.of_one(true, Rule::Done);
                write!(f, "       result      {words}\n")
            }
            Outcome::Spread(pairs) => {
                let words = SpreadWords {
                    context: self.context,
                    master: self.master,
                    request: self.request,
                    pairs: pairs.as_slice(),
                };
                let rows = SpreadRows {
                    context: self.context,
                    master: self.master,
                    request: self.request,
                    pairs: pairs.as_slice(),
                };
                write!(f, "       result      {words}\n{rows}")
            }
            Outcome::Released(_) => Ok(()),
            Outcome::Refused(_) => Ok(()),
        }
    }
}

impl<'a> RequestRows<'a> {
    /// Returns the result of this request at one slave, or by a rule of the line.
    fn of_one(&self, silent: bool, rule: Rule) -> OfOne<'a>
        ensures { result ≡ record { context = self.now.context; master = self.now.master; request = self.now.request; silent = silent; rule = rule } }
    {
        OfOne {
            context: self.context,
            master: self.master,
            request: self.request,
            silent,
            rule,
        }
    }
}
