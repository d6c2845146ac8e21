//! What surprises in a request that was done.

ghost use Rattle.std.specs.Prelude.{◌≡◌};
ghost use Rattle.dp_line.specs.Hearing.{telegram_spelt};
ghost use Rattle.explain_events.specs.Surprises.{is_surprising, is_surprising_answer, is_surprising_prm, is_surprising_reason, is_surprising_telegram, surprises_of_holder};

use crate::context::EventContext;
use crate::done::{Done, PrmDone, is_low_tsdr};
use crate::frames::telegram_in;
use crate::reason::{Reason, reason_at};
use dp_responder::Rule;
use explain_octets::ReadOctets;

impl PrmDone {
    /// Returns whether a Set_Prm surprises: it has no Lock_Req, and nobody holds the slave; it has Lock_Req beside Unlock_Req;
    /// or its min TSDR is below 11 (own).
    fn is_surprising(self) -> bool
        ensures { result ≡ is_surprising_prm self }
    {
        match self {
            PrmDone::Wrong { .. } => false,
            PrmDone::Unlocked { locks, .. } => locks,
            PrmDone::Locked { min_tsdr, .. } => is_low_tsdr(min_tsdr),
            PrmDone::LockedAgain { min_tsdr, .. } => is_low_tsdr(min_tsdr),
            PrmDone::MinTsdrSet {
                holder,
                min_tsdr,
                ..
            } => surprises_of_holder(holder, min_tsdr),
            PrmDone::MinTsdrStays { holder, .. } => surprises_of_holder(holder, 0),
        }
    }
}

/// Returns whether a Set_Prm without Lock_Req surprises, by the holder of the slave and the octet for min TSDR.
fn surprises_of_holder(holder: Option<u8>, min_tsdr: u8) -> bool
    ensures { result ≡ surprises_of_holder holder min_tsdr }
{
    match holder {
        None => true,
        Some(_) => is_low_tsdr(min_tsdr),
    }
}

impl Done {
    /// Returns whether what a slave did surprises, although nothing refused it (own).
    pub fn is_surprising(self) -> bool
        ensures { result ≡ is_surprising self }
    {
        match self {
            Done::Parameters(done) => done.is_surprising(),
            Done::OutputsTaken => false,
            Done::OutputsWait => false,
            Done::NoOutputs => false,
            Done::Diagnosis(_) => false,
            Done::Control(_) => false,
            Done::Configuration(_) => false,
            Done::Other => false,
        }
    }
}

/// Returns whether the facts of an answer show something surprising that was done.
fn is_surprising_reason(reason: Option<Reason>) -> bool
    ensures { result ≡ is_surprising_reason reason }
{
    match reason {
        Some(Reason::Done(done)) => done.is_surprising(),
        Some(Reason::Status { .. }) => false,
        Some(Reason::NoService { .. }) => false,
        Some(Reason::Repeat(_)) => false,
        Some(Reason::NoPoint { .. }) => false,
        Some(Reason::PointOff { .. }) => false,
        Some(Reason::NotHolder { .. }) => false,
        Some(Reason::NotListed { .. }) => false,
        Some(Reason::Busy { .. }) => false,
        Some(Reason::Length { .. }) => false,
        Some(Reason::NotSelected { .. }) => false,
        None => false,
    }
}

/// Returns whether a slave did something surprising by a request of a master that it answered by this rule. The context is
/// that before the request.
pub(crate) fn is_surprising_answer(
    context: &EventContext<'_>,
    master: u8,
    request: &ReadOctets<'_>,
    rule: Rule,
) -> bool
    ensures { result ≡ is_surprising_answer context.now master request.now rule }
{
    match rule {
        Rule::Done => is_surprising_telegram(context, master, request),
        Rule::Halted
        | Rule::NoFrame
        | Rule::NoMaster
        | Rule::ForeignSender
        | Rule::Token
        | Rule::NotRequest
        | Rule::BadFunction
        | Rule::BadExtension
        | Rule::BadBroadcast
        | Rule::NoStation
        | Rule::Status
        | Rule::NoService
        | Rule::Repeat
        | Rule::NotActive
        | Rule::NotHolder
        | Rule::NotListed
        | Rule::Busy
        | Rule::Length
        | Rule::NotSelected => false,
    }
}

/// Returns whether a slave did something surprising by a request of a master that it did.
fn is_surprising_telegram(context: &EventContext<'_>, master: u8, request: &ReadOctets<'_>) -> bool
    ensures { result ≡ is_surprising_telegram context.now master request.now (telegram_spelt request.now) }
{
    match telegram_in(request) {
        Some(telegram) => {
            let address = telegram.destination();
            is_surprising_reason(reason_at(context, master, request, address, Rule::Done))
        }
        None => false,
    }
}
