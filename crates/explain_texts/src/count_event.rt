//! What an event counts in the statistics.

ghost use Rattle.std.specs.Prelude.{◌≡◌};
ghost use Rattle.explain_texts.specs.Statistics.{statistics_after};

use crate::count_holds::{Passed, count_holds, moment};
use crate::count_requests::count_event_in;
use crate::statistics::AddressCounts;
use dp_audit::time_after;
use dp_line::{LineState, Outcome};
use explain_events::{EventContext, ReadEvent};

/// Counts an event, by the context before it, the line after it and its outcome.
pub(crate) fn count_statistics(
    statistics: &mut Vec<AddressCounts>,
    context: &EventContext<'_>,
    after: &LineState,
    event: &ReadEvent<'_>,
    outcome: &Outcome,
)
    ensures { statistics.new.items ≡ statistics_after statistics.old.items context.now after.now.world event.now outcome.now }
{
    count_statistics_in(statistics.as_mut_slice(), context, after, event, outcome);
}

/// Counts an event in this slice of counts. See [`count_statistics`].
fn count_statistics_in(
    statistics: &mut [AddressCounts],
    context: &EventContext<'_>,
    after: &LineState,
    event: &ReadEvent<'_>,
    outcome: &Outcome,
)
    ensures { statistics.new ≡ statistics_after statistics.old context.now after.now.world event.now outcome.now }
{
    count_event_in(statistics, context, event, outcome);
    let passed = Passed {
        event,
        before: context.before,
        after,
        time: moment(time_after(context.time, event.event())),
    };
    count_holds(statistics, &passed, outcome);
}
