//! The results of the operator's events.

ghost use Rattle.std.specs.Prelude.{◌≡◌, Some};
ghost use Rattle.std.specs.List.{flat_map};
ghost use Rattle.dp_line.specs.declared.event.Event.TheVariants.{Operator};
ghost use Rattle.dp_line.specs.Events.{is_halt};
ghost use Rattle.explain_events.specs.Results.{not_restarted_words, watchdog_words, expired_words, expired_behind, tick_text, halted_words, halt_text, released_text, op_text};

use crate::op_results::expired_at;
use crate::ways::is_at_last_place;
use crate::words::{NumbersWords, TimeWords};
use dp_line::{LineState, Op, Outcome};
use std::fmt;

/// The master that held a slave, by which its watchdog was not restarted; writes nothing if there is none.
#[derive(Clone, Copy)]
struct NotRestarted(Option<u8>);

impl fmt::Display for NotRestarted {
    ghost output = { λ s. Some (not_restarted_words s.0) };

    fn fmt<W: fmt::Write>(&self, f: &mut fmt::Formatter<W>) -> fmt::Result {
        match self.0 {
            None => Ok(()),
            Some(master) => write!(f, ": master {master} sent nothing that restarts it"),
        }
    }
}

/// The full time of a watchdog that ran out, in units of 10 ms; writes nothing if there is none.
#[derive(Clone, Copy)]
struct WatchdogWords {
    holder: Option<u8>,
    watchdog: Option<u32>,
}

impl fmt::Display for WatchdogWords {
    ghost output = { λ s. Some (watchdog_words s.holder s.watchdog) };

    fn fmt<W: fmt::Write>(&self, f: &mut fmt::Formatter<W>) -> fmt::Result {
        match self.watchdog {
            None => Ok(()),
            Some(units) => {
                let time = TimeWords(u64::from(units));
                let holder = NotRestarted(self.holder);
                write!(f, " (its watchdog of {time} ran out{holder})")
            }
        }
    }
}

/// A slave that a tick released.
#[derive(Clone, Copy)]
struct ExpiredWords<'a> {
    before: &'a LineState,
    address: u8,
}

impl<'a> fmt::Display for ExpiredWords<'a> {
    ghost output = { λ s. Some (expired_words s.before.now.world s.address) };

    fn fmt<W: fmt::Write>(&self, f: &mut fmt::Formatter<W>) -> fmt::Result {
        let address = self.address;
        let expired = expired_at(self.before, address);
        let watchdog = WatchdogWords {
            holder: expired.holder,
            watchdog: expired.watchdog,
        };
        write!(f, "{address}{watchdog}")
    }
}

/// Slaves that a tick released, each after a comma.
#[derive(Clone, Copy)]
struct ExpiredBehind<'a> {
    before: &'a LineState,
    addresses: &'a [u8],
}

impl<'a> fmt::Display for ExpiredBehind<'a> {
    ghost output = { λ s. Some (flat_map (expired_behind s.before.now.world) s.addresses.now) };

    fn fmt<W: fmt::Write>(&self, f: &mut fmt::Formatter<W>) -> fmt::Result {
        for address in self.addresses {
            let expired = ExpiredWords {
                before: self.before,
                address: *address,
            };
            write!(f, ", {expired}")?;
        }
        Ok(())
    }
}

/// All slaves that a tick released.
#[derive(Clone, Copy)]
struct TickWords<'a> {
    before: &'a LineState,
    addresses: &'a [u8],
}

impl<'a> fmt::Display for TickWords<'a> {
    ghost output = { λ s. Some (tick_text s.before.now.world s.addresses.now) };

    fn fmt<W: fmt::Write>(&self, f: &mut fmt::Formatter<W>) -> fmt::Result {
        match self.addresses {
            [] => f.write_str("no watchdog ran out."),
            [first, others @ ..] => {
                let first = ExpiredWords {
                    before: self.before,
                    address: *first,
                };
                let others = ExpiredBehind {
                    before: self.before,
                    addresses: others,
                };
                write!(f, "released: {first}{others}.")
            }
        }
    }
}

/// Returns the words for a halt, which comes by itself if the journal has at most the place of the halt left.
fn halted_words(is_full: bool) -> &'static str
    ensures { result.now ≡ halted_words is_full }
{
    if is_full {
        "halted, the journal is full; "
    } else {
        "halted; "
    }
}

/// All slaves that the halt released.
#[derive(Clone, Copy)]
struct HaltWords<'a> {
    is_full: bool,
    addresses: &'a [u8],
}

impl<'a> fmt::Display for HaltWords<'a> {
    ghost output = { λ s. Some (halt_text s.is_full s.addresses.now) };

    fn fmt<W: fmt::Write>(&self, f: &mut fmt::Formatter<W>) -> fmt::Result {
        let halted = halted_words(self.is_full);
        match self.addresses {
            [] => write!(f, "{halted}nobody held a slave."),
            [_, ..] => {
                let addresses = NumbersWords(self.addresses);
                write!(f, "{halted}released: {addresses}.")
            }
        }
    }
}

/// The slaves that an event of the operator released.
#[derive(Clone, Copy)]
struct ReleasedSlaves<'a> {
    before: &'a LineState,
    op: &'a Op,
    addresses: &'a [u8],
}

impl<'a> fmt::Display for ReleasedSlaves<'a> {
    ghost output = { λ s. Some (released_text s.before.now.world s.op.now s.addresses.now) };

    fn fmt<W: fmt::Write>(&self, f: &mut fmt::Formatter<W>) -> fmt::Result {
        if is_halt(self.op) {
            let words = HaltWords {
                is_full: is_at_last_place(self.before),
                addresses: self.addresses,
            };
            write!(f, "{words}")
        } else {
            let words = TickWords {
                before: self.before,
                addresses: self.addresses,
            };
            write!(f, "{words}")
        }
    }
}

/// Returns whether the event is the halt.
pub(crate) fn is_halt(op: &Op) -> bool
    ensures { result ≡ is_halt (Operator op.now) }
{
    match op {
        Op::Halt => true,
        Op::Input { .. } => false,
        Op::Diag { .. } => false,
        Op::Busy { .. } => false,
        Op::Tick(_) => false,
    }
}

/// The result of an event of the operator.
#[derive(Clone, Copy)]
pub(crate) struct OpWords<'a> {
    pub(crate) before: &'a LineState,
    pub(crate) op: &'a Op,
    pub(crate) outcome: &'a Outcome,
}

impl<'a> fmt::Display for OpWords<'a> {
    ghost output = { λ s. Some (op_text s.before.now.world s.op.now s.outcome.now) };

    fn fmt<W: fmt::Write>(&self, f: &mut fmt::Formatter<W>) -> fmt::Result {
        match self.outcome {
            Outcome::Released(addresses) => {
                let words = ReleasedSlaves {
                    before: self.before,
                    op: self.op,
                    addresses: addresses.as_slice(),
                };
                write!(f, "{words}")
            }
            Outcome::Done => f.write_str("done."),
            Outcome::Refused(fault) => {
                let name = fault.name();
                write!(f, "refused: {name}.")
            }
            Outcome::Reply { .. } => Ok(()),
            Outcome::Silence(_) => Ok(()),
            Outcome::Spread(_) => Ok(()),
        }
    }
}
