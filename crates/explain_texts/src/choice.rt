//! The choice of the entries that are explained.

ghost use Rattle.std.specs.Prelude.{◌≡◌, ◌==◌, ◌&&◌, ◌||◌, not};
ghost use Rattle.std.specs.List.{list_any};
ghost use Rattle.dp_line.specs.Refusals.{is_refused_event};
ghost use Rattle.explain_events.specs.Heads.{sender_and_receiver_of};
ghost use Rattle.explain_events.specs.Ways.{is_fault};
ghost use Rattle.explain_texts.specs.Choices.{is_from, is_to, goes_to, is_about, is_of_slave, comes_from, is_of_master, is_chosen};

use dp_line::{Event, Outcome, is_refused};
use dp_responder::Rule;
use explain_events::{EventContext, Receiver, SenderAndReceiver, is_fault};

/// A choice of entries: those that pass every field.
#[derive(Clone, Copy)]
pub struct Choice {
    /// The first place, from 1; None starts at the first entry of the text.
    pub from: Option<u32>,
    /// The last place; None ends at the last entry of the text.
    pub to: Option<u32>,
    /// The address of the slave that the entry is about; None chooses the entries of every slave and of the line.
    pub slave: Option<u8>,
    /// The address of the master that sent the request; None chooses every master, and the operator.
    pub master: Option<u8>,
    /// Chooses only events that were refused. A request to all slaves is refused if at least one of them refuses it by
    /// another rule than NotSelected. A live-list poll, which is an FDL status to an address without a slave, is not.
    pub refused: bool,
    /// Chooses only the faults of the bus: requests that were answered in a way that is a fault, refused events of the
    /// operator, ticks that release a slave, and the halt.
    pub faults: bool,
    /// Chooses no entry at all: only the summary is reported.
    pub summary: bool,
}

/// Returns whether the choice includes the entry. The context is that before its event.
///
/// A refusal is decided by the rule. So a wrong Set_Prm or Chk_Cfg, which is Done, is no refusal: the slave took it and
/// was released. It is a fault.
pub(crate) fn is_chosen(
    choice: &Choice,
    context: &EventContext<'_>,
    place: u64,
    event: &Event,
    outcome: &Outcome,
) -> bool
    ensures { result ≡ is_chosen choice.now context.now place event.now outcome.now }
{
    if choice.summary {
        return false;
    }
    if !is_in_range(choice, place) {
        return false;
    }
    is_of_stations(choice, event, outcome) && is_of_kind(choice, context, event, outcome)
}

/// Returns whether the place is chosen.
fn is_in_range(choice: &Choice, place: u64) -> bool
    ensures { result ≡ (is_from choice.now.from place && is_to choice.now.to place) }
{
    is_from(choice.from, place) && is_to(choice.to, place)
}

/// Returns whether the slave and the master of an entry are chosen. Decodes the telegram only if one of them is given.
fn is_of_stations(choice: &Choice, event: &Event, outcome: &Outcome) -> bool
    ensures { result ≡ (is_of_slave choice.now.slave (sender_and_receiver_of event.now) outcome.now && is_of_master choice.now.master (sender_and_receiver_of event.now)) }
{
    if choice.slave.is_none() && choice.master.is_none() {
        return true;
    }
    let sender_and_receiver = SenderAndReceiver::from_event(event);
    is_of_slave(choice.slave, sender_and_receiver, outcome)
        && is_of_master(choice.master, sender_and_receiver)
}

/// Returns whether the entry is of a chosen kind: refused, or a fault, if only these are chosen.
fn is_of_kind(choice: &Choice, context: &EventContext<'_>, event: &Event, outcome: &Outcome) -> bool
    ensures { result ≡ ((not choice.now.refused || is_refused_event event.now outcome.now) && (not choice.now.faults || is_fault context.now event.now outcome.now)) }
{
    (!choice.refused || is_refused(event, outcome))
        && (!choice.faults || is_fault(context, event, outcome))
}

fn is_from(first: Option<u32>, place: u64) -> bool
    ensures { result ≡ is_from first place }
{
    match first {
        None => true,
        Some(first) => u64::from(first) <= place,
    }
}

fn is_to(last: Option<u32>, place: u64) -> bool
    ensures { result ≡ is_to last place }
{
    match last {
        None => true,
        Some(last) => place <= u64::from(last),
    }
}

/// Returns whether the event goes only to this slave.
fn goes_to(address: u8, sender_and_receiver: SenderAndReceiver) -> bool
    ensures { result ≡ goes_to address sender_and_receiver }
{
    match sender_and_receiver {
        SenderAndReceiver::Master(_, Receiver::Slave(other)) => other == address,
        SenderAndReceiver::Master(_, Receiver::AllSlaves) => false,
        SenderAndReceiver::Master(_, Receiver::Station(_)) => false,
        SenderAndReceiver::Master(_, Receiver::Nobody) => false,
        SenderAndReceiver::Operator(Some(other)) => other == address,
        SenderAndReceiver::Operator(None) => false,
    }
}

fn is_of_slave(slave: Option<u8>, sender_and_receiver: SenderAndReceiver, outcome: &Outcome) -> bool
    ensures { result ≡ is_of_slave slave sender_and_receiver outcome.now }
{
    match slave {
        None => true,
        Some(address) => is_about(address, sender_and_receiver, outcome),
    }
}

/// Returns whether the entry is about this slave.
fn is_about(address: u8, sender_and_receiver: SenderAndReceiver, outcome: &Outcome) -> bool
    ensures { result ≡ is_about address sender_and_receiver outcome.now }
{
    match outcome {
        Outcome::Spread(pairs) => has_pair(pairs.as_slice(), address),
        Outcome::Released(addresses) => has(addresses.as_slice(), address),
        Outcome::Reply { .. } => goes_to(address, sender_and_receiver),
        Outcome::Silence(_) => goes_to(address, sender_and_receiver),
        Outcome::Done => goes_to(address, sender_and_receiver),
        Outcome::Refused(_) => goes_to(address, sender_and_receiver),
    }
}

fn has_pair(pairs: &[(u8, Rule)], address: u8) -> bool
    ensures { result ≡ list_any (λ pair. pair.0 == address) pairs.now }
{
    pairs.iter().any(|pair| pair.0 == address)
}

fn has(addresses: &[u8], address: u8) -> bool
    ensures { result ≡ list_any (λ other. other == address) addresses.now }
{
    addresses.iter().any(|other| *other == address)
}

fn is_of_master(master: Option<u8>, sender_and_receiver: SenderAndReceiver) -> bool
    ensures { result ≡ is_of_master master sender_and_receiver }
{
    match master {
        None => true,
        Some(master) => match sender_and_receiver {
            SenderAndReceiver::Master(sender, _) => sender == master,
            SenderAndReceiver::Operator(_) => false,
        },
    }
}
