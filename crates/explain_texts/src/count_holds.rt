//! What the beginnings and ends of holds count in the statistics.

ghost use Rattle.std.specs.Prelude.{◌≡◌};
ghost use Rattle.explain_events.specs.Changes.{asked_addresses, released_addresses, touched};
ghost use Rattle.explain_events.specs.Shown.{shown_at};
ghost use Rattle.explain_texts.specs.Behind.{all_holds_begun, shown_hold_begun};
ghost use Rattle.explain_texts.specs.Statistics.{moment, began_at, hold_counted, hold_begun, change_counted, changes_counted, lasting_counted, all_lasting_counted};

use crate::statistics::{AddressCounts, Count, Item, count_at, count_at_both};
use dp_line::{Event, LineState, Outcome, SlaveSpec};
use explain_events::{Ending, ReadEvent, Receiver, same_holder, slave_at};

/// An event that the line took: the line before and after it, and the time after it.
#[derive(Clone, Copy)]
pub(crate) struct Passed<'a> {
    pub(crate) event: &'a ReadEvent<'a>,
    pub(crate) before: &'a LineState,
    pub(crate) after: &'a LineState,
    /// The sum of the ticks, in units of 10 ms.
    pub(crate) time: u64,
}

/// Returns a time as a number of units of 10 ms: 0 before the first tick.
pub(crate) fn moment(time: Option<u64>) -> u64
    ensures { result ≡ moment time }
{
    time.unwrap_or(0)
}

/// Returns the time at which the last hold of a slave began.
fn began_at(statistics: &[AddressCounts], slave: u8) -> u64
    ensures { result ≡ began_at statistics.now slave }
{
    match statistics.get(usize::from(slave)) {
        Some(counts) => counts.began,
        None => 0,
    }
}

/// Counts the hold of a slave that ends at this time; counts nothing if nobody held it.
fn count_hold(
    statistics: &mut [AddressCounts],
    time: u64,
    ending: Ending,
    slave: u8,
    holder: Option<u8>,
)
    ensures { statistics.new ≡ hold_counted time ending slave holder statistics.old }
{
    let Some(master) = holder else {
        return;
    };
    let units = time.saturating_sub(began_at(statistics, slave));
    count_at_both(statistics, slave, master, Item::Released(ending), units);
}

/// Notes that a hold of a slave begins at this time, if somebody holds it.
fn begin_hold(statistics: &mut [AddressCounts], time: u64, slave: u8, holder: Option<u8>)
    ensures { statistics.new ≡ hold_begun time slave holder statistics.old }
{
    match holder {
        Some(_) => count_at(statistics, slave, Count::Began(time)),
        None => {}
    }
}

/// Counts the hold of a slave that an event ended, and notes the one that it began.
fn count_change(statistics: &mut [AddressCounts], passed: &Passed<'_>, slave: u8)
    ensures { statistics.new ≡ change_counted passed.now.time passed.now.event.now slave (shown_at passed.now.before.now.world slave) (shown_at passed.now.after.now.world slave) statistics.old }
{
    let Some(before) = slave_at(passed.before, slave) else {
        return;
    };
    let Some(after) = slave_at(passed.after, slave) else {
        return;
    };
    if same_holder(before.holder(), after.holder()) {
        return;
    }
    let ending = Ending::by(passed.event.event());
    count_hold(statistics, passed.time, ending, slave, before.holder());
    begin_hold(statistics, passed.time, slave, after.holder());
}

/// Counts the holds of these slaves that an event ended or began.
fn count_changes(statistics: &mut [AddressCounts], passed: &Passed<'_>, slaves: &[u8])
    ensures { statistics.new ≡ changes_counted passed.now.before.now.world passed.now.after.now.world passed.now.time passed.now.event.now slaves.now statistics.old }
{
    let mut left = slaves;
    while let [slave, others @ ..] = left {
        count_change(statistics, passed, *slave);
        left = others;
    }
}

/// Counts the hold of the receiver of a request that the request ended or began.
fn count_asked(statistics: &mut [AddressCounts], passed: &Passed<'_>, receiver: Receiver)
    ensures { statistics.new ≡ changes_counted passed.now.before.now.world passed.now.after.now.world passed.now.time passed.now.event.now (asked_addresses receiver) statistics.old }
{
    match receiver {
        Receiver::Slave(slave) => count_change(statistics, passed, slave),
        Receiver::AllSlaves => {}
        Receiver::Station(_) => {}
        Receiver::Nobody => {}
    }
}

/// Counts the holds that a tick or the halt ended.
fn count_released(statistics: &mut [AddressCounts], passed: &Passed<'_>, outcome: &Outcome)
    ensures { statistics.new ≡ changes_counted passed.now.before.now.world passed.now.after.now.world passed.now.time passed.now.event.now (released_addresses outcome.now) statistics.old }
{
    match outcome {
        Outcome::Released(slaves) => count_changes(statistics, passed, slaves.as_slice()),
        Outcome::Reply { .. } => {}
        Outcome::Silence(_) => {}
        Outcome::Spread(_) => {}
        Outcome::Done => {}
        Outcome::Refused(_) => {}
    }
}

/// Counts the holds that an event with this outcome ended or began, at the time after it. Reads only slaves whose
/// holder the event can change.
pub(crate) fn count_holds(statistics: &mut [AddressCounts], passed: &Passed<'_>, outcome: &Outcome)
    ensures { statistics.new ≡ changes_counted passed.now.before.now.world passed.now.after.now.world passed.now.time passed.now.event.now (touched passed.now.event.now outcome.now) statistics.old }
{
    match passed.event.event() {
        Event::Request { .. } => {
            let receiver = Receiver::of_request(passed.event.request());
            count_asked(statistics, passed, receiver)
        }
        Event::Operator(_) => count_released(statistics, passed, outcome),
    }
}

/// Notes that the hold of a slave begins at this time, if somebody holds it.
fn begin_shown_hold(statistics: &mut [AddressCounts], line: &LineState, time: u64, slave: u8)
    ensures { statistics.new ≡ shown_hold_begun time slave (shown_at line.now.world slave) statistics.old }
{
    match slave_at(line, slave) {
        Some(shown) => begin_hold(statistics, time, slave, shown.holder()),
        None => {}
    }
}

/// Notes that the holds of these slaves begin at this time.
pub(crate) fn begin_all_holds(
    statistics: &mut Vec<AddressCounts>,
    line: &LineState,
    time: u64,
    slaves: &[SlaveSpec],
)
    ensures { statistics.new.items ≡ all_holds_begun line.now.world time slaves.now statistics.old.items }
{
    begin_all_holds_in(statistics.as_mut_slice(), line, time, slaves);
}

/// Notes that the holds of these slaves begin, in this slice of counts. See [`begin_all_holds`].
fn begin_all_holds_in(
    statistics: &mut [AddressCounts],
    line: &LineState,
    time: u64,
    slaves: &[SlaveSpec],
)
    ensures { statistics.new ≡ all_holds_begun line.now.world time slaves.now statistics.old }
{
    let mut left = slaves;
    while let [slave, others @ ..] = left {
        begin_shown_hold(statistics, line, time, slave.address);
        left = others;
    }
}

/// Counts the hold of a slave that lasts to the end; counts nothing if nobody holds it.
fn count_lasting(statistics: &mut [AddressCounts], line: &LineState, time: u64, slave: u8)
    ensures { statistics.new ≡ lasting_counted time slave (shown_at line.now.world slave) statistics.old }
{
    match slave_at(line, slave) {
        Some(shown) => count_hold(statistics, time, Ending::Lasts, slave, shown.holder()),
        None => {}
    }
}

/// Counts the holds of these slaves that last to the end.
pub(crate) fn count_all_lasting(
    statistics: &mut Vec<AddressCounts>,
    line: &LineState,
    time: u64,
    slaves: &[SlaveSpec],
)
    ensures { statistics.new.items ≡ all_lasting_counted line.now.world time slaves.now statistics.old.items }
{
    count_all_lasting_in(statistics.as_mut_slice(), line, time, slaves);
}

/// Counts the holds of these slaves in this slice of counts. See [`count_all_lasting`].
fn count_all_lasting_in(
    statistics: &mut [AddressCounts],
    line: &LineState,
    time: u64,
    slaves: &[SlaveSpec],
)
    ensures { statistics.new ≡ all_lasting_counted line.now.world time slaves.now statistics.old }
{
    let mut left = slaves;
    while let [slave, others @ ..] = left {
        count_lasting(statistics, line, time, slave.address);
        left = others;
    }
}
