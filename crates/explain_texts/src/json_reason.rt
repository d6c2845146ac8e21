//! The facts of an answer as an object of JSON: its kind, and the fields of that kind.

use crate::json_done::done_facts;
use crate::json_field::{Fields, Value, number, octet, octet_or_null, with, word, word_or_null};
use crate::json_names::{list_name, taken_name};
use crate::json_text::JsonText;
use dp_sap::State;
use explain_events::{
    Lengths, LineReason, Listing, OpResult, Reason, Release, Repeat, TakenService, state_name,
};

/// The facts of an answer.
#[derive(Clone, Copy)]
pub(crate) struct FactsOfKind {
    pub(crate) kind: &'static str,
    pub(crate) fields: Fields,
}

/// No fields.
pub(crate) const NONE: Fields = [None, None, None, None, None];

/// Returns facts of this kind.
pub(crate) fn of(kind: &'static str, fields: Fields) -> FactsOfKind {
    FactsOfKind { kind, fields }
}

impl JsonText {
    /// Appends a field with the facts of an answer; `null` if there are none.
    pub(crate) fn reason(&mut self, facts: Option<FactsOfKind>) {
        match facts {
            Some(facts) => {
                self.open("reason");
                self.one(word("kind", facts.kind));
                self.fields(&facts.fields);
                self.close();
            }
            None => self.null("reason"),
        }
    }
}

/// Returns the facts of the answer of a slave.
pub(crate) fn slave_facts(reason: Reason) -> FactsOfKind {
    match reason {
        Reason::Status { state, .. } => of("Status", status(state)),
        Reason::NoService { takes, point } => of("NoService", no_service(takes, point)),
        Reason::Repeat(repeat) => repeat_facts(repeat),
        Reason::NoPoint { point, .. } => of("NoPoint", point_alone(point)),
        Reason::PointOff {
            state,
            since,
            point,
            ..
        } => of("PointOff", point_off(state, since, point)),
        Reason::NotHolder { holder, since, .. } => of("NotHolder", not_holder(holder, since)),
        Reason::NotListed { list, .. } => of("NotListed", not_listed(list)),
        Reason::Busy { point } => of("Busy", point_alone(point)),
        Reason::Length { sent, takes } => of("Length", wrong_length(sent, takes)),
        Reason::NotSelected { select, group, .. } => of("NotSelected", not_selected(select, group)),
        Reason::Done(done) => done_facts(done),
    }
}

fn status(state: State) -> Fields {
    [word("state", state_name(state)), None, None, None, None]
}

fn no_service(takes: Option<TakenService>, point: Option<u8>) -> Fields {
    let taken = match takes {
        Some(service) => Some(taken_name(service)),
        None => None,
    };
    [
        octet_or_null("point", point),
        word_or_null("takes", taken),
        None,
        None,
        None,
    ]
}

fn point_alone(point: Option<u8>) -> Fields {
    [octet_or_null("point", point), None, None, None, None]
}

fn point_off(state: State, since: Option<Release>, point: Option<u8>) -> Fields {
    let release = match since {
        Some(release) => with("release", Value::Release(release)),
        None => with("release", Value::Null),
    };
    [
        octet_or_null("point", point),
        word("state", state_name(state)),
        release,
        None,
        None,
    ]
}

fn not_holder(holder: Option<u8>, since: u32) -> Fields {
    let since = match holder {
        Some(_) => number("since", u64::from(since)),
        None => with("since", Value::Null),
    };
    [octet_or_null("holder", holder), since, None, None, None]
}

fn not_listed(list: Listing) -> Fields {
    [word("list", list_name(list)), None, None, None, None]
}

fn wrong_length(sent: usize, takes: Lengths) -> Fields {
    let most = match takes {
        Lengths::UpTo(most) => number("most", most as u64),
        Lengths::Nothing => with("most", Value::Null),
        Lengths::Exactly(_) => with("most", Value::Null),
        Lengths::OrNothing(_) => with("most", Value::Null),
    };
    [
        number("sent", sent as u64),
        with("takes", Value::Takes(takes)),
        most,
        None,
        None,
    ]
}

fn not_selected(select: u8, group: u8) -> Fields {
    [
        octet("select", select),
        octet("group", group),
        None,
        None,
        None,
    ]
}

fn repeat_facts(repeat: Repeat) -> FactsOfKind {
    match repeat {
        Repeat::Unknown => of("UnknownRepeat", NONE),
        Repeat::Retry { of: place } => of("Retry", [number("of", place), None, None, None, None]),
        Repeat::Other { of: place, point } => of("OtherRepeat", other_repeat(place, point)),
    }
}

fn other_repeat(place: u64, point: Option<u8>) -> Fields {
    [
        number("of", place),
        octet_or_null("point", point),
        None,
        None,
        None,
    ]
}

/// Returns the reason why nobody replies to a request, by a rule that concerns the line.
pub(crate) fn line_facts(reason: LineReason) -> FactsOfKind {
    match reason {
        LineReason::Halted => of("Halted", NONE),
        LineReason::NoFrame => of("NoFrame", NONE),
        LineReason::NoMaster(_) => of("NoMaster", NONE),
        LineReason::ForeignSender(station) => of("ForeignSender", station_alone(station)),
        LineReason::Token => of("Token", NONE),
        LineReason::NotRequest => of("NotRequest", NONE),
        LineReason::BadFunction => of("BadFunction", NONE),
        LineReason::BadExtension => of("BadExtension", NONE),
        LineReason::BadBroadcast => of("BadBroadcast", NONE),
        LineReason::NoStation => of("NoStation", NONE),
        LineReason::MasterStation(station) => of("MasterStation", station_alone(Some(station))),
        LineReason::LiveListPoll => of("LiveListPoll", NONE),
    }
}

fn station_alone(station: Option<u8>) -> Fields {
    [octet_or_null("station", station), None, None, None, None]
}

/// Returns the result of an event of the operator.
pub(crate) fn operator_facts(done: OpResult) -> FactsOfKind {
    match done {
        OpResult::Done => of("OperatorDone", NONE),
        OpResult::Refused(fault) => of(
            "OperatorRefused",
            [word("fault", fault.name()), None, None, None, None],
        ),
        OpResult::Ticked => of("Ticked", NONE),
        OpResult::Halted(is_full) => of("LineHalted", journal_full(is_full)),
    }
}

fn journal_full(is_full: bool) -> Fields {
    [
        with("is_full", Value::Truth(is_full)),
        None,
        None,
        None,
        None,
    ]
}

/// Returns the name of the outcome of an event of the operator.
pub(crate) fn operator_outcome(done: OpResult) -> &'static str {
    match done {
        OpResult::Done => "done",
        OpResult::Refused(_) => "refused",
        OpResult::Ticked => "ticked",
        OpResult::Halted(_) => "halted",
    }
}
