//! The answer of a slave in words, by a rule that concerns one slave.

ghost use Rattle.std.specs.Prelude.{Some};
ghost use Rattle.explain_events.specs.Sentences.{slave_text};

use crate::at_slave::RequestAtSlave;
use crate::reason_words::ReasonWords;
use dp_responder::Rule;
use std::fmt;

/// The answer of a slave; writes nothing for a rule that concerns the line.
#[derive(Clone, Copy)]
pub(crate) struct SlaveWords<'a> {
    pub(crate) at_slave: &'a RequestAtSlave<'a>,
    /// Whether nobody replies.
    pub(crate) silent: bool,
    pub(crate) rule: Rule,
}

impl<'a> fmt::Display for SlaveWords<'a> {
    ghost output = { λ s. Some (slave_text s.silent s.at_slave.now s.rule) };

    fn fmt<W: fmt::Write>(&self, f: &mut fmt::Formatter<W>) -> fmt::Result {
        let at_slave = self.at_slave;
        match at_slave.reason(self.rule) {
            Some(reason) => {
                let words = ReasonWords {
                    reason,
                    silent: self.silent,
                    at_slave,
                };
                write!(f, "{words}")
            }
            None => Ok(()),
        }
    }
}
