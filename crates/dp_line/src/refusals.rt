//! Which events are refused, by their answers.

ghost use Rattle.std.specs.Prelude.{◌≡◌, false};
ghost use Rattle.std.specs.List.{list_any};
ghost use Rattle.std.specs.Option.{option_map_or};
ghost use Rattle.dp_line.specs.Hearing.{telegram_spelt};
ghost use Rattle.dp_line.specs.Verdict.{is_fdl_status};
ghost use Rattle.dp_line.specs.Refusals.{is_live_list_poll, is_refused_event, is_refused_op, is_refused_request, refuses_broadcast, refuses_request};

use crate::event::{Event, Outcome};
use dp_responder::Rule;
use dp_telegram::{Frame, Function, decode};

/// Returns whether an event with this answer is refused (own). A request is refused by a rule that refuses
/// ([`Rule::is_refusal`]), except an FDL status to an address that no slave has ([`is_live_list_poll`]); to all slaves it
/// is refused if at least one slave refuses it by another rule than NotSelected.
pub fn is_refused(event: &Event, outcome: &Outcome) -> bool
    ensures { result ≡ is_refused_event event.now outcome.now }
{
    match event {
        Event::Request { octets, .. } => is_refused_request(octets.as_slice(), outcome),
        Event::Operator(_) => is_refused_op(outcome),
    }
}

/// Returns whether a request with these octets and this answer is refused (own). See [`is_refused`].
pub fn is_refused_request(octets: &[u8], outcome: &Outcome) -> bool
    ensures { result ≡ is_refused_request octets.now outcome.now }
{
    match outcome {
        Outcome::Reply { rule, .. } => refuses_request(octets, *rule),
        Outcome::Silence(rule) => refuses_request(octets, *rule),
        Outcome::Spread(pairs) => is_refused_by_one(pairs.as_slice()),
        Outcome::Released(_) => false,
        Outcome::Done => false,
        Outcome::Refused(_) => true,
    }
}

/// Returns whether an operator's event with this answer is refused.
fn is_refused_op(outcome: &Outcome) -> bool
    ensures { result ≡ is_refused_op outcome.now }
{
    match outcome {
        Outcome::Refused(_) => true,
        Outcome::Reply { .. } => false,
        Outcome::Silence(_) => false,
        Outcome::Spread(_) => false,
        Outcome::Released(_) => false,
        Outcome::Done => false,
    }
}

/// Returns whether this rule refuses a request with these octets.
fn refuses_request(octets: &[u8], rule: Rule) -> bool
    ensures { result ≡ refuses_request octets.now rule }
{
    rule.is_refusal() && !is_live_list_poll(octets, rule)
}

/// Returns whether one of the slaves of a broadcast refuses it, by its own rule.
fn is_refused_by_one(pairs: &[(u8, Rule)]) -> bool
    ensures { result ≡ list_any (λ pair. refuses_broadcast pair.1) pairs.now }
{
    pairs.iter().any(|pair| refuses_broadcast(pair.1))
}

fn refuses_broadcast(rule: Rule) -> bool
    ensures { result ≡ refuses_broadcast rule }
{
    rule.is_refusal() && rule.code() != Rule::NotSelected.code()
}

/// Returns whether these are the octets of an FDL status that nobody answers by this rule: NoStation. In this way a
/// master looks for stations (own).
pub fn is_live_list_poll(octets: &[u8], rule: Rule) -> bool
    ensures { result ≡ is_live_list_poll octets.now rule }
{
    rule.code() == Rule::NoStation.code() && is_fdl_status(octets)
}

/// Returns whether the octets are a telegram with the function FDL status.
fn is_fdl_status(octets: &[u8]) -> bool
    ensures { result ≡ option_map_or is_fdl_status (telegram_spelt octets.now) false }
{
    match decode(octets) {
        Ok(Frame::Telegram(telegram)) => matches!(telegram.function(), Function::FdlStatus),
        Ok(Frame::Token { .. }) => false,
        Ok(Frame::Ack) => false,
        Err(_) => false,
    }
}
