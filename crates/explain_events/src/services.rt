//! The result of a service that was done, in words.

ghost use Rattle.std.specs.Prelude.{◌≡◌, Some};
ghost use Rattle.explain_events.specs.DoneWords.{diagnosis_text, done_words};

use crate::at_slave::RequestAtSlave;
use crate::chk_cfg::CfgWords;
use crate::control::ControlWords;
use crate::done::Done;
use crate::set_prm::PrmWords;
use std::fmt;

/// The result of a service that was done.
#[derive(Clone, Copy)]
pub(crate) struct DoneWords<'a> {
    pub(crate) done: Done,
    /// The request, which lends its data and the description of the slave.
    pub(crate) at_slave: &'a RequestAtSlave<'a>,
}

impl<'a> fmt::Display for DoneWords<'a> {
    ghost output = { λ s. Some (done_words s.at_slave.now s.done) };

    fn fmt<W: fmt::Write>(&self, f: &mut fmt::Formatter<W>) -> fmt::Result {
        let at_slave = self.at_slave;
        match self.done {
            Done::OutputsTaken => f.write_str("done."),
            Done::OutputsWait => f.write_str("done: the data wait for Sync."),
            Done::NoOutputs => f.write_str("done: no data, for zeros; the slave stays cleared."),
            Done::Diagnosis(by_holder) => f.write_str(diagnosed(by_holder)),
            Done::Control(controlled) => {
                let words = ControlWords(controlled);
                write!(f, "{words}")
            }
            Done::Parameters(done) => {
                let words = PrmWords { done, at_slave };
                write!(f, "{words}")
            }
            Done::Configuration(done) => {
                let words = CfgWords { done, at_slave };
                write!(f, "{words}")
            }
            Done::Other => f.write_str("done."),
        }
    }
}

/// Returns the result of a Slave_Diag, of the holder or of another master.
fn diagnosed(by_holder: bool) -> &'static str
    ensures { result.now ≡ diagnosis_text by_holder }
{
    if by_holder {
        "done: read by the holder."
    } else {
        "done."
    }
}
