//! The facts of a change of a slave.

ghost use Rattle.std.specs.Prelude.{◌≡◌};
ghost use Rattle.explain_events.specs.Changes.{asked_addresses, released_addresses, touched};
ghost use Rattle.explain_events.specs.Shown.{shown};
ghost use Rattle.explain_events.specs.StateChanges.{change_at, state_and_holder_of};

use crate::changes::{same_holder, same_state};
use crate::read_event::ReadEvent;
use crate::sender_and_receiver::Receiver;
use crate::shown::slave_at;
use arrayvec::ArrayVec;
use dp_line::{Event, LineState, MOST_SLAVES, Outcome};
use dp_sap::State;
use dp_slave::Slave;

/// The state of a slave and the master that holds it; None if nobody does.
#[derive(Clone, Copy)]
pub struct StateAndHolder {
    pub state: State,
    pub holder: Option<u8>,
}

/// A slave whose state or holder differs after an event from before it (own).
#[derive(Clone, Copy)]
pub struct Change {
    /// The address of the slave, 0 to 126.
    pub address: u8,
    pub before: StateAndHolder,
    pub after: StateAndHolder,
}

impl StateAndHolder {
    fn of(slave: &Slave) -> StateAndHolder
        ensures { result ≡ state_and_holder_of (shown slave.now) }
    {
        StateAndHolder {
            state: slave.state(),
            holder: slave.holder(),
        }
    }
}

/// Returns how an event changed the slave at this address; None if its state and its holder are unchanged, or if there is no
/// such slave. `before` and `after` are the line before and after the event.
pub fn change_at(before: &LineState, after: &LineState, address: u8) -> Option<Change>
    ensures { result ≡ change_at before.now.world after.now.world address }
{
    let before = slave_at(before, address)?;
    let after = slave_at(after, address)?;
    if same_state(before.state(), after.state()) && same_holder(before.holder(), after.holder()) {
        return None;
    }
    Some(Change {
        address,
        before: StateAndHolder::of(before),
        after: StateAndHolder::of(after),
    })
}

/// Returns the addresses of the slaves whose state and holder an event can change: the one that a request is sent to, or
/// those that a tick or the halt released.
pub fn touched(event: &ReadEvent<'_>, outcome: &Outcome) -> ArrayVec<u8, MOST_SLAVES>
    ensures { result.items ≡ touched event.now outcome.now }
{
    match event.event() {
        Event::Request { .. } => asked_addresses(Receiver::of_request(event.request())),
        Event::Operator(_) => released_addresses(outcome),
    }
}

/// Returns the address of the slave that a request is sent to.
fn asked_addresses(receiver: Receiver) -> ArrayVec<u8, MOST_SLAVES>
    ensures { result.items ≡ asked_addresses receiver }
{
    let mut addresses = ArrayVec::new();
    match receiver {
        Receiver::Slave(address) => addresses.push(address),
        Receiver::AllSlaves => {}
        Receiver::Station(_) => {}
        Receiver::Nobody => {}
    }
    addresses
}

/// Returns the addresses of the slaves that an event of the operator released.
fn released_addresses(outcome: &Outcome) -> ArrayVec<u8, MOST_SLAVES>
    ensures { result.items ≡ released_addresses outcome.now }
{
    let mut addresses = ArrayVec::new();
    match outcome {
        Outcome::Released(released) => {
            addresses
                .try_extend_from_slice(released.as_slice())
                .unwrap()
        }
        Outcome::Reply { .. } => {}
        Outcome::Silence(_) => {}
        Outcome::Spread(_) => {}
        Outcome::Done => {}
        Outcome::Refused(_) => {}
    }
    addresses
}
