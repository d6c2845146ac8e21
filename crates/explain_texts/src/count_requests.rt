//! What a request counts in the statistics.

ghost use Rattle.std.specs.Prelude.{◌≡◌, None, Some, option_and_then};
ghost use Rattle.explain_texts.specs.Statistics.{done_item, rule_item, way_item, item_counted, telegram_counted, answer_counted, broadcast_item, spread_counted, request_counted, event_counted};

use crate::statistics::{AddressCounts, Count, Item, count_at, count_at_both};
use dp_line::{Event, Outcome};
use dp_responder::Rule;
use dp_sap::SLAVE_DIAG;
use dp_telegram::{FrameLent, PartsLent, TelegramLent};
use explain_events::{Answered, EventContext, ReadEvent, ReadOctets, answered};

/// Returns the item of a request to this access point that was answered by Done.
fn done_item(point: Option<u8>) -> Option<Item>
    ensures { result ≡ done_item point }
{
    match point {
        None => Some(Item::Exchange),
        Some(SLAVE_DIAG) => Some(Item::Diagnosis),
        Some(_) => None,
    }
}

/// Returns the item of a request with these parts that was answered by this rule.
fn rule_item(parts: &Option<PartsLent<'_>>, rule: Rule) -> Option<Item>
    ensures { result ≡ rule_item parts.now rule }
{
    if rule.is_refusal() {
        return Some(Item::Refused(rule));
    }
    if let Rule::Status = rule {
        return Some(Item::Poll);
    }
    if let Rule::Done = rule {
        return parts_item(parts);
    }
    None
}

/// Returns the item of a request with these parts that was answered by Done.
fn parts_item(parts: &Option<PartsLent<'_>>) -> Option<Item>
    ensures { result ≡ option_and_then (λ parts. done_item parts.dsap) parts.now }
{
    match parts {
        Some(parts) => done_item(parts.dsap()),
        None => None,
    }
}

/// Returns the item of a request with these parts that was answered in this way; None if it has none.
fn way_item(parts: &Option<PartsLent<'_>>, way: Answered) -> Option<Item>
    ensures { result ≡ way_item parts.now way }
{
    match way {
        Answered::ByRule(rule) => rule_item(parts, rule),
        Answered::LiveListPoll => Some(Item::Poll),
        Answered::Retry => Some(Item::Retry),
        Answered::OtherRepeat => None,
        Answered::WrongSetPrm => None,
        Answered::WrongChkCfg => None,
        Answered::NotAskedFor => None,
        Answered::NoneSelected => Some(Item::Refused(Rule::NotSelected)),
    }
}

/// Counts the item of a request at its sender, and at its receiver if there is one.
fn count_item(
    statistics: &mut [AddressCounts],
    receiver: Option<u8>,
    master: u8,
    item: Option<Item>,
)
    ensures { statistics.new ≡ item_counted receiver master item statistics.old }
{
    let Some(item) = item else {
        return;
    };
    match receiver {
        Some(receiver) => count_at_both(statistics, receiver, master, item, 0),
        None => count_at(statistics, master, Count::Sent(item, 0)),
    }
}

/// Counts a telegram that was answered in this way.
fn count_telegram(
    statistics: &mut [AddressCounts],
    master: u8,
    telegram: &TelegramLent<'_>,
    way: Answered,
)
    ensures { statistics.new ≡ telegram_counted master (Some telegram.now) way statistics.old }
{
    let parts = telegram.parts();
    let item = way_item(&parts, way);
    count_item(statistics, Some(telegram.destination()), master, item);
}

/// Counts octets that are no telegram, by the way in which they were answered.
fn count_other(statistics: &mut [AddressCounts], master: u8, way: Answered)
    ensures { statistics.new ≡ telegram_counted master None way statistics.old }
{
    let item = way_item(&None, way);
    count_item(statistics, None, master, item);
}

/// Counts a request that was answered by this rule.
fn count_answered(
    statistics: &mut [AddressCounts],
    context: &EventContext<'_>,
    master: u8,
    request: &ReadOctets<'_>,
    rule: Rule,
)
    ensures { statistics.new ≡ answer_counted context.now master request.now rule statistics.old }
{
    let way = answered(context, master, request, rule);
    match request.frame() {
        Some(FrameLent::Telegram(telegram)) => count_telegram(statistics, master, &telegram, way),
        Some(FrameLent::Token { .. }) => count_other(statistics, master, way),
        Some(FrameLent::Ack) => count_other(statistics, master, way),
        None => count_other(statistics, master, way),
    }
}

/// Returns the item of a request to all slaves for one of them, by its own rule; None if it has none.
fn broadcast_item(rule: Rule) -> Option<Item>
    ensures { result ≡ broadcast_item rule }
{
    if rule.is_refusal() && rule.code() != Rule::NotSelected.code() {
        Some(Item::Refused(rule))
    } else {
        None
    }
}

/// Counts a request to all slaves once for each slave that refused it.
fn count_spread(statistics: &mut [AddressCounts], master: u8, pairs: &[(u8, Rule)])
    ensures { statistics.new ≡ spread_counted master pairs.now statistics.old }
{
    let mut left = pairs;
    while let [pair, others @ ..] = left {
        let item = broadcast_item(pair.1);
        count_item(statistics, Some(pair.0), master, item);
        left = others;
    }
}

/// Counts a request by its outcome.
fn count_request(
    statistics: &mut [AddressCounts],
    context: &EventContext<'_>,
    master: u8,
    request: &ReadOctets<'_>,
    outcome: &Outcome,
)
    ensures { statistics.new ≡ request_counted context.now master request.now outcome.now statistics.old }
{
    match outcome {
        Outcome::Reply { rule, .. } => count_answered(statistics, context, master, request, *rule),
        Outcome::Silence(rule) => count_answered(statistics, context, master, request, *rule),
        Outcome::Done => count_answered(statistics, context, master, request, Rule::Done),
        Outcome::Spread(pairs) => count_spread(statistics, master, pairs.as_slice()),
        Outcome::Released(_) => {}
        Outcome::Refused(_) => {}
    }
}

/// Counts an event that is a request, by the context before it and its outcome.
pub(crate) fn count_event_in(
    statistics: &mut [AddressCounts],
    context: &EventContext<'_>,
    event: &ReadEvent<'_>,
    outcome: &Outcome,
)
    ensures { statistics.new ≡ event_counted context.now event.now outcome.now statistics.old }
{
    match event.event() {
        Event::Request { master, .. } => {
            count_request(statistics, context, *master, event.request(), outcome)
        }
        Event::Operator(_) => {}
    }
}
