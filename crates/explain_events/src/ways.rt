//! The way in which a request was answered, and the events that show a fault of the bus.

ghost use Rattle.std.specs.Prelude.{◌≡◌, ◌||◌, Some};
ghost use Rattle.std.specs.Option.{option_copied};
ghost use Rattle.dp_sap.specs.AccessTable.{same_point, chk_cfg, global_control, set_prm};
ghost use Rattle.dp_line.specs.Hearing.{telegram_spelt};
ghost use Rattle.dp_line.specs.World.{described_at, is_last_place};
ghost use Rattle.explain_events.specs.Shown.{shown_at};
ghost use Rattle.explain_events.specs.Ways.{answered_as, first_fault, has_fault, is_fault, is_fault_of_op, is_fault_of_release, is_fault_of_request, is_selected, some_selected, way_of_control, way_of_done, way_of_pair, way_of_parts, way_of_repeat, way_of_service, way_where_asked, way_without_station};

use crate::chk_cfg::has_wrong_configuration;
use crate::context::EventContext;
use crate::control::is_not_asked_for;
use crate::frames::{is_fdl_status, telegram_in};
use crate::notes::{Noted, note_of};
use crate::prm_fault::has_wrong_parameters;
use crate::shown::slave_at;
use crate::surprises::is_surprising_answer;
use crate::way::Answered;
use dp_line::{Event, LineState, Op, Outcome, described};
use dp_responder::Rule;
use dp_sap::{CHK_CFG, GLOBAL_CONTROL, SET_PRM};
use dp_slave::SlaveSpec;
use dp_telegram::{PartsLent, TelegramLent};
use explain_octets::ReadOctets;

/// Returns the way in which a request of a master with these octets was answered by this rule. The context is that before
/// the request.
pub fn answered(
    context: &EventContext<'_>,
    master: u8,
    request: &ReadOctets<'_>,
    rule: Rule,
) -> Answered
    ensures { result ≡ answered_as context.now master request.now rule }
{
    match rule {
        Rule::NoStation => way_without_station(request),
        Rule::Repeat => way_of_repeat(context.notes, master, request),
        Rule::Done => way_where_asked(context, request),
        Rule::NotSelected => Answered::NoneSelected,
        Rule::Halted
        | Rule::NoFrame
        | Rule::NoMaster
        | Rule::ForeignSender
        | Rule::Token
        | Rule::NotRequest
        | Rule::BadFunction
        | Rule::BadExtension
        | Rule::BadBroadcast
        | Rule::Status
        | Rule::NoService
        | Rule::NotActive
        | Rule::NotHolder
        | Rule::NotListed
        | Rule::Busy
        | Rule::Length => Answered::ByRule(rule),
    }
}

/// Returns the way in which a request was answered by NoStation.
fn way_without_station(request: &ReadOctets<'_>) -> Answered
    ensures { result ≡ way_without_station request.now }
{
    match telegram_in(request) {
        Some(telegram) => {
            if is_fdl_status(&telegram) {
                Answered::LiveListPoll
            } else {
                Answered::ByRule(Rule::NoStation)
            }
        }
        None => Answered::ByRule(Rule::NoStation),
    }
}

/// Returns the way in which a request was answered by Repeat.
fn way_of_repeat(notes: &[Noted], master: u8, request: &ReadOctets<'_>) -> Answered
    ensures { result ≡ way_of_repeat notes.now master request.now (telegram_spelt request.now) }
{
    let Some(telegram) = telegram_in(request) else {
        return Answered::OtherRepeat;
    };
    match note_of(notes, telegram.destination(), master) {
        Some(noted) => {
            if noted.is_retried_by(request.octets()) {
                Answered::Retry
            } else {
                Answered::OtherRepeat
            }
        }
        None => Answered::Retry,
    }
}

/// Returns the way in which a request to one slave was answered by Done.
fn way_where_asked(context: &EventContext<'_>, request: &ReadOctets<'_>) -> Answered
    ensures { result ≡ way_where_asked context.now (telegram_spelt request.now) }
{
    match telegram_in(request) {
        Some(telegram) => way_of_done(context, telegram.destination(), &telegram),
        None => Answered::ByRule(Rule::Done),
    }
}

/// Returns the way in which the slave at this address answered a telegram by Done.
fn way_of_done(context: &EventContext<'_>, address: u8, telegram: &TelegramLent<'_>) -> Answered
    ensures { result ≡ way_of_done context.now address (Some telegram.now) }
{
    match telegram.parts() {
        Some(parts) => way_of_parts(context, address, &parts),
        None => Answered::ByRule(Rule::Done),
    }
}

/// Returns the way in which the slave at this address answered a telegram with these parts by Done. Looks for the slave
/// only if more than the rule may be known.
fn way_of_parts(context: &EventContext<'_>, address: u8, parts: &PartsLent<'_>) -> Answered
    ensures { result ≡ way_of_parts (described_at context.now.description.slaves address) (shown_at context.now.world address) (Some parts.now) }
{
    if !is_judged_by(parts.dsap()) {
        return Answered::ByRule(Rule::Done);
    }
    let Some(description) = described(context.line.slaves.as_slice(), address) else {
        return Answered::ByRule(Rule::Done);
    };
    if parts.dsap() == Some(GLOBAL_CONTROL) {
        way_of_control(context.before, address, parts.payload())
    } else {
        way_of_service(description, parts.dsap(), parts.payload())
    }
}

/// Returns whether more than the rule may be known of a service of this point that was done.
fn is_judged_by(point: Option<u8>) -> bool
    ensures { result ≡ (same_point point set_prm || (same_point point chk_cfg || same_point point global_control)) }
{
    match point {
        Some(SET_PRM) => true,
        Some(CHK_CFG) => true,
        Some(GLOBAL_CONTROL) => true,
        Some(_) => false,
        None => false,
    }
}

/// Returns the way in which the slave at this address answered a Global_Control by Done; `octets` are its data.
fn way_of_control(before: &LineState, address: u8, octets: &[u8]) -> Answered
    ensures { result ≡ way_of_control (shown_at before.now.world address) octets.now }
{
    match slave_at(before, address) {
        Some(slave) => {
            if is_not_asked_for(slave, octets) {
                Answered::NotAskedFor
            } else {
                Answered::ByRule(Rule::Done)
            }
        }
        None => Answered::ByRule(Rule::Done),
    }
}

/// Returns whether a request to all slaves selects one of these, which it reached.
pub fn some_selected(pairs: &[(u8, Rule)]) -> bool
    ensures { result ≡ some_selected pairs.now }
{
    pairs.iter().any(|pair| is_selected(pair.1))
}

/// Returns whether the rule is not that of a slave of another group.
fn is_selected(rule: Rule) -> bool
    ensures { result ≡ is_selected rule }
{
    rule.code() != Rule::NotSelected.code()
}

/// Returns the way in which a slave answered a request to all slaves, by its address and its rule. `some` is whether the
/// request selects any slave that it reached; the context is that before the request.
pub fn way_of_pair(
    context: &EventContext<'_>,
    request: &ReadOctets<'_>,
    some: bool,
    pair: (u8, Rule),
) -> Answered
    ensures { result ≡ way_of_pair context.now request.now some pair }
{
    let (address, rule) = pair;
    match rule {
        Rule::NotSelected => {
            if some {
                Answered::ByRule(rule)
            } else {
                Answered::NoneSelected
            }
        }
        Rule::Done => match telegram_in(request) {
            Some(telegram) => way_of_done(context, address, &telegram),
            None => Answered::ByRule(rule),
        },
        Rule::Halted
        | Rule::NoFrame
        | Rule::NoMaster
        | Rule::ForeignSender
        | Rule::Token
        | Rule::NotRequest
        | Rule::BadFunction
        | Rule::BadExtension
        | Rule::BadBroadcast
        | Rule::NoStation
        | Rule::Status
        | Rule::NoService
        | Rule::Repeat
        | Rule::NotActive
        | Rule::NotHolder
        | Rule::NotListed
        | Rule::Busy
        | Rule::Length => Answered::ByRule(rule),
    }
}

/// Returns the way in which a service was answered by Done; `octets` are its data.
fn way_of_service(slave: &SlaveSpec, point: Option<u8>, octets: &[u8]) -> Answered
    ensures { result ≡ way_of_service slave.now point octets.now }
{
    match point {
        Some(SET_PRM) => {
            if has_wrong_parameters(octets, slave) {
                Answered::WrongSetPrm
            } else {
                Answered::ByRule(Rule::Done)
            }
        }
        Some(CHK_CFG) => {
            if has_wrong_configuration(octets, slave) {
                Answered::WrongChkCfg
            } else {
                Answered::ByRule(Rule::Done)
            }
        }
        Some(_) => Answered::ByRule(Rule::Done),
        None => Answered::ByRule(Rule::Done),
    }
}

/// Returns whether an event shows a fault of the bus: a request that was answered in such a way, by one slave at least if
/// it was sent to all, or that was sent to all and reached no slave; a Set_Prm that surprises, as [`crate::Done::is_surprising`]
/// says; a refused event of the operator; a tick that releases a slave; the halt, also one that
/// was recorded instead of the event. The context is that before the event (own).
pub fn is_fault(context: &EventContext<'_>, event: &Event, outcome: &Outcome) -> bool
    ensures { result ≡ is_fault context.now event.now outcome.now }
{
    match event {
        Event::Request { master, octets } => {
            let request = ReadOctets::new(octets.as_slice());
            is_fault_of_request(context, *master, &request, outcome)
        }
        Event::Operator(op) => is_fault_of_op(context.before, op, outcome),
    }
}

/// Returns whether a request shows a fault of the bus.
fn is_fault_of_request(
    context: &EventContext<'_>,
    master: u8,
    request: &ReadOctets<'_>,
    outcome: &Outcome,
) -> bool
    ensures { result ≡ is_fault_of_request context.now master request.now outcome.now }
{
    match outcome {
        Outcome::Reply { rule, .. } => {
            answered(context, master, request, *rule).is_fault()
                || is_surprising_answer(context, master, request, *rule)
        }
        Outcome::Silence(rule) => answered(context, master, request, *rule).is_fault(),
        Outcome::Done => answered(context, master, request, Rule::Done).is_fault(),
        Outcome::Spread(pairs) => {
            pairs.is_empty() || has_fault(context, request, pairs.as_slice())
        }
        Outcome::Released(_) => true,
        Outcome::Refused(_) => false,
    }
}

/// Returns whether the way in which one of these slaves answered a request to all slaves shows a fault of the bus.
fn has_fault(context: &EventContext<'_>, request: &ReadOctets<'_>, pairs: &[(u8, Rule)]) -> bool
    ensures { result ≡ has_fault context.now request.now pairs.now }
{
    let some = some_selected(pairs);
    pairs.iter().any(|pair| way_of_pair(context, request, some, *pair).is_fault())
}

/// Returns the first of these slaves that answered a request to all slaves in a way that shows a fault of the bus; None
/// if none did.
pub(crate) fn first_fault<'a>(
    context: &EventContext<'_>,
    request: &ReadOctets<'_>,
    pairs: &'a [(u8, Rule)],
) -> Option<&'a (u8, Rule)>
    ensures { option_copied result ≡ first_fault context.now request.now pairs.now }
{
    let some = some_selected(pairs);
    pairs.iter().find(|pair| way_of_pair(context, request, some, **pair).is_fault())
}

/// Returns whether an event of the operator is a fault, or shows one.
fn is_fault_of_op(before: &LineState, op: &Op, outcome: &Outcome) -> bool
    ensures { result ≡ is_fault_of_op before.now.world op.now outcome.now }
{
    match outcome {
        Outcome::Released(addresses) => is_fault_of_release(before, op, addresses.as_slice()),
        Outcome::Refused(_) => true,
        Outcome::Reply { .. } => false,
        Outcome::Silence(_) => false,
        Outcome::Spread(_) => false,
        Outcome::Done => false,
    }
}

/// Returns whether the release of these slaves by an event of the operator shows a fault of the bus, or is the halt.
fn is_fault_of_release(before: &LineState, op: &Op, addresses: &[u8]) -> bool
    ensures { result ≡ is_fault_of_release before.now.world op.now addresses.now }
{
    match op {
        Op::Tick(_) => is_at_last_place(before) || !addresses.is_empty(),
        Op::Input { .. } => true,
        Op::Diag { .. } => true,
        Op::Busy { .. } => true,
        Op::Halt => true,
    }
}

/// Returns whether the journal has at most the place of the halt left.
pub(crate) fn is_at_last_place(before: &LineState) -> bool
    ensures { result ≡ is_last_place before.now.world }
{
    u64::from(before.capacity()) <= u64::from(before.count()) + 1
}
