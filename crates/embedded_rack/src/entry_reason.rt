//! The reason of an entry: its facts, and the faults of asking for them.

ghost use Rattle.std.specs.Prelude.{◌≡◌};
ghost use Rattle.explain_events.specs.OpResults.{op_result};
ghost use Rattle.embedded_rack.specs.EntryReasons.{reason_of_event, reason_of_op, reason_of_receiver, reason_of_request, reason_of_rule, reason_of_slave};

use dp_line::{Event, Op, Outcome};
use dp_responder::Rule;
use explain_events::{
    EventContext, LineReason, OpResult, ReadEvent, ReadOctets, Reason, Receiver, line_reason,
    op_result, reason_at,
};

/// The facts of the reason for the outcome of an entry, as explain_events has them.
#[derive(Clone, Copy)]
pub enum EntryReason {
    /// A rule of the line decided: nobody replies.
    Line(LineReason),
    /// A rule of the slave decided that the request was sent to.
    Slave(Reason),
    /// A Global_Control to all slaves, each of which has its own rule.
    ToAll,
    /// The result of an event of the operator.
    Operator(OpResult),
    /// No facts; no entry of a journal has this.
    Unknown,
}

/// A reason why the reason of an entry is not given.
#[derive(Clone, Copy, Debug, PartialEq, Eq)]
pub enum ReasonFault {
    /// The rack has no line of this number.
    NoLine,
    /// The journal has no entry at this place, or it has forgotten an entry up to it.
    NoEntry,
    /// Memory ran out.
    OutOfMemory,
}

/// Returns the facts of an event with this outcome. The context is that before the event.
pub(crate) fn reason_of_event(
    context: &EventContext<'_>,
    event: &ReadEvent<'_>,
    outcome: &Outcome,
) -> EntryReason
    ensures { result ≡ reason_of_event context.now event.now outcome.now }
{
    match event.event() {
        Event::Request { master, .. } => {
            reason_of_request(context, *master, event.request(), outcome)
        }
        Event::Operator(op) => reason_of_op(context, op, outcome),
    }
}

/// Returns the facts of a request.
fn reason_of_request(
    context: &EventContext<'_>,
    master: u8,
    request: &ReadOctets<'_>,
    outcome: &Outcome,
) -> EntryReason
    ensures { result ≡ reason_of_request context.now master request.now outcome.now }
{
    match outcome {
        Outcome::Reply { rule, .. } => reason_of_rule(context, master, request, *rule),
        Outcome::Silence(rule) => reason_of_rule(context, master, request, *rule),
        Outcome::Done => reason_of_rule(context, master, request, Rule::Done),
        Outcome::Spread(_) => EntryReason::ToAll,
        Outcome::Released(_) => EntryReason::Unknown,
        Outcome::Refused(_) => EntryReason::Unknown,
    }
}

/// Returns the facts of a request that this rule answered.
fn reason_of_rule(
    context: &EventContext<'_>,
    master: u8,
    request: &ReadOctets<'_>,
    rule: Rule,
) -> EntryReason
    ensures { result ≡ reason_of_rule context.now master request.now rule }
{
    match line_reason(masters_of(context), master, request, rule) {
        Some(reason) => EntryReason::Line(reason),
        None => reason_of_receiver(
            context,
            master,
            request,
            Receiver::of_request(request),
            rule,
        ),
    }
}

/// Returns the masters of the line.
fn masters_of<'a>(context: &EventContext<'a>) -> &'a [u8]
    ensures { result.now ≡ context.now.description.masters }
{
    let line = context.line;
    line.masters.as_slice()
}

/// Returns the facts of a request to this receiver that a rule of a slave answered.
fn reason_of_receiver(
    context: &EventContext<'_>,
    master: u8,
    request: &ReadOctets<'_>,
    receiver: Receiver,
    rule: Rule,
) -> EntryReason
    ensures { result ≡ reason_of_receiver context.now master request.now receiver rule }
{
    match receiver {
        Receiver::Slave(address) => { of_slave(reason_at(context, master, request, address, rule)) }
        Receiver::AllSlaves => EntryReason::Unknown,
        Receiver::Station(_) => EntryReason::Unknown,
        Receiver::Nobody => EntryReason::Unknown,
    }
}

/// Returns the facts of the answer of a slave.
fn of_slave(reason: Option<Reason>) -> EntryReason
    ensures { result ≡ reason_of_slave reason }
{
    match reason {
        Some(reason) => EntryReason::Slave(reason),
        None => EntryReason::Unknown,
    }
}

/// Returns the facts of an event of the operator.
fn reason_of_op(context: &EventContext<'_>, op: &Op, outcome: &Outcome) -> EntryReason
    ensures { result ≡ reason_of_op (op_result context.now.world op.now outcome.now) }
{
    match op_result(context.before, op, outcome) {
        Some(result) => EntryReason::Operator(result),
        None => EntryReason::Unknown,
    }
}
