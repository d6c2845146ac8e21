//! The number of requests of each master that were answered in each way.

ghost use Rattle.std.specs.Prelude.{◌≡◌, ◌<◌, [], IfOk, Some};
ghost use Rattle.explain_events.specs.Ways.{answered_as};
ghost use Rattle.explain_texts.specs.Tallies.{way_number, uncounted, count_of, one_more, first_tally, is_for_sender, counted, counted_each, counted_spread, counted_answer, tally_after};

use dp_line::{Event, Outcome};
use dp_responder::Rule;
use explain_events::{
    Answered, EventContext, ReadEvent, ReadOctets, answered, some_selected, way_of_pair,
};
use std::alloc::{AllocError, Global};

/// The number of counts of a sender.
const WAYS: usize = 28;

/// The number of requests of one sender that were answered in each way.
///
/// Senders that are no master of the line are counted together, because they may have any of 256 addresses.
#[derive(Drop)]
pub struct SenderCounts {
    /// A master of the line, 0 to 126; None stands for all other senders.
    pub sender: Option<u8>,
    /// For each way, at its number, the number of requests, which stops at the largest number of 64 bits.
    pub(crate) by_way: [u64; WAYS],
}

impl SenderCounts {
    /// Returns the counts of a sender before the first event.
    fn new(sender: Option<u8>) -> SenderCounts
        ensures { result ≡ uncounted sender }
    {
        SenderCounts {
            sender,
            by_way: [0; WAYS],
        }
    }

    /// Returns whether it counts requests of this master. The counts of the others count requests of any.
    fn is_for(&self, master: u8) -> bool
        ensures { result ≡ is_for_sender master self.now }
    {
        match self.sender {
            Some(sender) => sender == master,
            None => true,
        }
    }

    /// Returns the number of requests that were answered in this way.
    pub(crate) fn count_of(&self, way: Option<Answered>) -> u64
        ensures { result ≡ count_of self.now way }
    {
        self.by_way[way_number(way)]
    }

    /// Counts one more request that was answered in this way.
    fn add(&mut self, way: Option<Answered>)
        ensures { self.new ≡ one_more way self.old }
    {
        let number = way_number(way);
        self.by_way[number] = self.by_way[number].saturating_add(1);
    }
}

/// Returns the number of a way among the counts of a sender.
fn way_number(way: Option<Answered>) -> usize
    ensures number { result ≡ way_number way }
    ensures few { result < 28 }
{
    match way {
        None => 0,
        Some(Answered::ByRule(rule)) => usize::from(rule.code()),
        Some(Answered::LiveListPoll) => 21,
        Some(Answered::Retry) => 22,
        Some(Answered::OtherRepeat) => 23,
        Some(Answered::WrongSetPrm) => 24,
        Some(Answered::WrongChkCfg) => 25,
        Some(Answered::NotAskedFor) => 26,
        Some(Answered::NoneSelected) => 27,
    }
}

/// Counts a request of a sender that was answered in this way.
fn count(tally: &mut [SenderCounts], master: u8, way: Option<Answered>)
    ensures { tally.new ≡ counted master way tally.old }
{
    for counts in tally.iter_mut() {
        if counts.is_for(master) {
            counts.add(way);
            return;
        }
    }
}

/// Counts a request to all slaves once for each of these slaves, of those that it reached. `some` is whether it selects
/// any of those.
fn count_each(
    tally: &mut [SenderCounts],
    context: &EventContext<'_>,
    master: u8,
    request: &ReadOctets<'_>,
    some: bool,
    pairs: &[(u8, Rule)],
)
    ensures { tally.new ≡ counted_each context.now master request.now some pairs.now tally.old }
{
    let mut left = pairs;
    while let [pair, others @ ..] = left {
        count(
            tally,
            master,
            Some(way_of_pair(context, request, some, *pair)),
        );
        left = others;
    }
}

/// Counts a request to all slaves, also one that reached no slave.
fn count_spread(
    tally: &mut [SenderCounts],
    context: &EventContext<'_>,
    master: u8,
    request: &ReadOctets<'_>,
    pairs: &[(u8, Rule)],
)
    ensures { tally.new ≡ counted_spread context.now master request.now pairs.now tally.old }
{
    match pairs {
        [] => count(tally, master, None),
        [_, ..] => {
            let some = some_selected(pairs);
            count_each(tally, context, master, request, some, pairs);
        }
    }
}

/// Counts a request by the way in which it was answered.
fn count_answered(
    tally: &mut [SenderCounts],
    context: &EventContext<'_>,
    master: u8,
    request: &ReadOctets<'_>,
    rule: Rule,
)
    ensures { tally.new ≡ counted master (Some (answered_as context.now master request.now rule)) tally.old }
{
    let way = answered(context, master, request, rule);
    count(tally, master, Some(way));
}

/// Counts an event that is a request, by the context before it and its outcome.
pub(crate) fn count_event(
    tally: &mut Vec<SenderCounts>,
    context: &EventContext<'_>,
    event: &ReadEvent<'_>,
    outcome: &Outcome,
)
    ensures { tally.new.items ≡ tally_after tally.old.items context.now event.now outcome.now }
{
    count_in(tally.as_mut_slice(), context, event, outcome);
}

/// Counts an event in this slice of counts. See [`count_event`].
fn count_in(
    tally: &mut [SenderCounts],
    context: &EventContext<'_>,
    event: &ReadEvent<'_>,
    outcome: &Outcome,
)
    ensures { tally.new ≡ tally_after tally.old context.now event.now outcome.now }
{
    match event.event() {
        Event::Request { master, .. } => {
            count_answer(tally, context, *master, event.request(), outcome)
        }
        Event::Operator(_) => {}
    }
}

/// Counts a request by its outcome.
fn count_answer(
    tally: &mut [SenderCounts],
    context: &EventContext<'_>,
    master: u8,
    request: &ReadOctets<'_>,
    outcome: &Outcome,
)
    ensures { tally.new ≡ counted_answer context.now master request.now outcome.now tally.old }
{
    match outcome {
        Outcome::Reply { rule, .. } => count_answered(tally, context, master, request, *rule),
        Outcome::Silence(rule) => count_answered(tally, context, master, request, *rule),
        Outcome::Done => count_answered(tally, context, master, request, Rule::Done),
        Outcome::Spread(pairs) => count_spread(tally, context, master, request, pairs.as_slice()),
        Outcome::Released(_) => {}
        Outcome::Refused(_) => {}
    }
}

/// Returns the counts before the first event: 0 for each master and for the other senders, in each way. `AllocError`
/// if memory runs out.
pub(crate) fn first_tally(alloc: Global, masters: &[u8]) -> Result<Vec<SenderCounts>, AllocError>
    ensures { IfOk result (λ tally. tally.items ≡ first_tally masters.now) }
{
    let mut tally = Vec::new(alloc);
    for master in masters {
        tally.push(SenderCounts::new(Some(*master)))?;
    }
    tally.push(SenderCounts::new(None))?;
    Ok(tally)
}
