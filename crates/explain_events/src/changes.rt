//! The changes of slaves that an event caused.

ghost use Rattle.std.specs.Prelude.{◌≡◌, Some};
ghost use Rattle.std.specs.List.{flat_map};
ghost use Rattle.explain_events.specs.Shown.{shown};
ghost use Rattle.explain_events.specs.Changes.{same_state, same_holder, state_and_holder_words, changed_words, changed_row, change_of, asked_addresses, touched, change_rows};

use crate::read_event::ReadEvent;
use crate::sender_and_receiver::Receiver;
use crate::shown::slave_at;
use crate::words::{HolderWords, state_name};
use dp_line::{Event, LineState, Outcome};
use dp_sap::State;
use dp_slave::Slave;
use std::fmt;

/// The state and the holder of a slave.
#[derive(Clone, Copy)]
struct StateAndHolderWords<'a>(&'a Slave);

impl<'a> fmt::Display for StateAndHolderWords<'a> {
    ghost output = { λ s. Some (state_and_holder_words (shown s.0.now)) };

    fn fmt<W: fmt::Write>(&self, f: &mut fmt::Formatter<W>) -> fmt::Result {
        let slave = self.0;
        let state = state_name(slave.state());
        let holder = HolderWords(slave.holder());
        write!(f, "{state}, {holder}")
    }
}

pub(crate) fn same_state(before: State, after: State) -> bool
    ensures { result ≡ same_state before after }
{
    match (before, after) {
        (State::WaitPrm, State::WaitPrm) => true,
        (State::WaitCfg, State::WaitCfg) => true,
        (State::DataExch, State::DataExch) => true,
        (State::WaitPrm, State::WaitCfg) => false,
        (State::WaitPrm, State::DataExch) => false,
        (State::WaitCfg, State::WaitPrm) => false,
        (State::WaitCfg, State::DataExch) => false,
        (State::DataExch, State::WaitPrm) => false,
        (State::DataExch, State::WaitCfg) => false,
    }
}

/// Returns whether the same master holds the slave before and after, or nobody does.
pub fn same_holder(before: Option<u8>, after: Option<u8>) -> bool
    ensures { result ≡ same_holder before after }
{
    match (before, after) {
        (None, None) => true,
        (Some(before), Some(after)) => before == after,
        (None, Some(_)) => false,
        (Some(_), None) => false,
    }
}

/// The state and the holder of a slave, before and after an event.
#[derive(Clone, Copy)]
struct ChangedWords<'a> {
    address: u8,
    before: &'a Slave,
    after: &'a Slave,
}

impl<'a> fmt::Display for ChangedWords<'a> {
    ghost output = { λ s. Some (changed_words s.address (shown s.before.now) (shown s.after.now)) };

    fn fmt<W: fmt::Write>(&self, f: &mut fmt::Formatter<W>) -> fmt::Result {
        let address = self.address;
        let before = StateAndHolderWords(self.before);
        let after = StateAndHolderWords(self.after);
        write!(f, "slave {address}: {before} -> {after}")
    }
}

/// A change as a row.
#[derive(Clone, Copy)]
struct ChangedRow<'a>(ChangedWords<'a>);

impl<'a> fmt::Display for ChangedRow<'a> {
    ghost output = { λ s. Some (changed_row s.0.address (shown s.0.before.now) (shown s.0.after.now)) };

    fn fmt<W: fmt::Write>(&self, f: &mut fmt::Formatter<W>) -> fmt::Result {
        let words = self.0;
        write!(f, "       change      {words}\n")
    }
}

/// The change of one slave; writes nothing if its state and its holder are unchanged.
#[derive(Clone, Copy)]
struct ChangeRow<'a> {
    address: u8,
    before: &'a LineState,
    after: &'a LineState,
}

impl<'a> fmt::Display for ChangeRow<'a> {
    ghost output = { λ s. Some (change_of s.before.now.world s.after.now.world s.address) };

    fn fmt<W: fmt::Write>(&self, f: &mut fmt::Formatter<W>) -> fmt::Result {
        let address = self.address;
        let Some(before) = slave_at(self.before, address) else {
            return Ok(());
        };
        let Some(after) = slave_at(self.after, address) else {
            return Ok(());
        };
        if same_state(before.state(), after.state())
            && same_holder(before.holder(), after.holder())
        {
            return Ok(());
        }
        let row = ChangedRow(ChangedWords {
            address,
            before,
            after,
        });
        write!(f, "{row}")
    }
}

/// The changes of these slaves.
#[derive(Clone, Copy)]
struct SlaveChanges<'a> {
    before: &'a LineState,
    after: &'a LineState,
    addresses: &'a [u8],
}

impl<'a> fmt::Display for SlaveChanges<'a> {
    ghost output = { λ s. Some (flat_map (change_of s.before.now.world s.after.now.world) s.addresses.now) };

    fn fmt<W: fmt::Write>(&self, f: &mut fmt::Formatter<W>) -> fmt::Result {
        for address in self.addresses {
            let row = ChangeRow {
                address: *address,
                before: self.before,
                after: self.after,
            };
            write!(f, "{row}")?;
        }
        Ok(())
    }
}

/// The change of the slave that a request is sent to.
#[derive(Clone, Copy)]
struct AskedChange<'a> {
    before: &'a LineState,
    after: &'a LineState,
    receiver: Receiver,
}

impl<'a> fmt::Display for AskedChange<'a> {
    ghost output = { λ s. Some (flat_map (change_of s.before.now.world s.after.now.world) (asked_addresses s.receiver)) };

    fn fmt<W: fmt::Write>(&self, f: &mut fmt::Formatter<W>) -> fmt::Result {
        match self.receiver {
            Receiver::Slave(address) => {
                let row = ChangeRow {
                    address,
                    before: self.before,
                    after: self.after,
                };
                write!(f, "{row}")
            }
            Receiver::AllSlaves => Ok(()),
            Receiver::Station(_) => Ok(()),
            Receiver::Nobody => Ok(()),
        }
    }
}

/// All changes that an event caused.
#[derive(Clone, Copy)]
pub(crate) struct ChangeRows<'a> {
    pub(crate) before: &'a LineState,
    pub(crate) after: &'a LineState,
    pub(crate) event: &'a ReadEvent<'a>,
    pub(crate) outcome: &'a Outcome,
}

impl<'a> fmt::Display for ChangeRows<'a> {
    ghost output = { λ s. Some (change_rows s.before.now.world s.after.now.world s.event.now s.outcome.now) };

    fn fmt<W: fmt::Write>(&self, f: &mut fmt::Formatter<W>) -> fmt::Result {
        match self.event.event() {
            Event::Request { .. } => {
                let change = AskedChange {
                    before: self.before,
                    after: self.after,
                    receiver: Receiver::of_request(self.event.request()),
                };
                write!(f, "{change}")
            }
            Event::Operator(_) => {
                let changes = ReleasedSlaves {
                    before: self.before,
                    after: self.after,
                    outcome: self.outcome,
                };
                write!(f, "{changes}")
            }
        }
    }
}

/// The changes of the slaves that a tick or the halt released.
#[derive(Clone, Copy)]
struct ReleasedSlaves<'a> {
    before: &'a LineState,
    after: &'a LineState,
    outcome: &'a Outcome,
}

impl<'a> fmt::Display for ReleasedSlaves<'a> {
    ghost use Rattle.explain_events.specs.Changes.{released_addresses};

    ghost output = { λ s. Some (flat_map (change_of s.before.now.world s.after.now.world) (released_addresses s.outcome.now)) };

    fn fmt<W: fmt::Write>(&self, f: &mut fmt::Formatter<W>) -> fmt::Result {
        match self.outcome {
            Outcome::Released(addresses) => {
                let changes = SlaveChanges {
                    before: self.before,
                    after: self.after,
                    addresses: addresses.as_slice(),
                };
                write!(f, "{changes}")
            }
            Outcome::Reply { .. } => Ok(()),
            Outcome::Silence(_) => Ok(()),
            Outcome::Spread(_) => Ok(()),
            Outcome::Done => Ok(()),
            Outcome::Refused(_) => Ok(()),
        }
    }
}
