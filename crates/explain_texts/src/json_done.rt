//! What a slave did, as an object of JSON.

use crate::json_field::{Fields, number, octet, octet_or_null, truth, word};
use crate::json_names::mode_act_name;
use crate::json_reason::{FactsOfKind, NONE, of};
use explain_events::{CfgDone, Controlled, Done, PrmDone};

/// Returns what a slave did.
pub(crate) fn done_facts(done: Done) -> FactsOfKind {
    match done {
        Done::OutputsTaken => of("OutputsTaken", NONE),
        Done::OutputsWait => of("OutputsWait", NONE),
        Done::NoOutputs => of("NoOutputs", NONE),
        Done::Diagnosis(by_holder) => of(
            "Diagnosis",
            [truth("by_holder", by_holder), None, None, None, None],
        ),
        Done::Control(controlled) => of("Control", control_fields(controlled)),
        Done::Parameters(done) => prm_facts(done),
        Done::Configuration(done) => cfg_facts(done),
        Done::Other => of("Read", NONE),
    }
}

fn control_fields(controlled: Controlled) -> Fields {
    [
        truth("clear", controlled.clears),
        truth("unsync", controlled.unsyncs),
        word("sync", mode_act_name(controlled.sync)),
        truth("unfreeze", controlled.unfreezes),
        word("freeze", mode_act_name(controlled.freeze)),
    ]
}

fn prm_facts(done: PrmDone) -> FactsOfKind {
    match done {
        PrmDone::Wrong { released } => of("WrongParameters", released_alone(released)),
        PrmDone::Unlocked { holder, locks, .. } => of("Unlocked", unlocked(holder, locks)),
        PrmDone::Locked { min_tsdr, .. } => of(
            "Locked",
            [octet("min_tsdr", min_tsdr), None, None, None, None],
        ),
        PrmDone::LockedAgain {
            since,
            min_tsdr,
            ..
        } => of("LockedAgain", locked_again(since, min_tsdr)),
        PrmDone::MinTsdrSet {
            holder,
            min_tsdr,
            ..
        } => of("MinTsdrSet", min_tsdr_of(holder, min_tsdr)),
        PrmDone::MinTsdrStays {
            holder,
            min_tsdr,
            ..
        } => of("MinTsdrStays", min_tsdr_of(holder, min_tsdr)),
    }
}

fn released_alone(released: Option<u8>) -> Fields {
    [octet_or_null("released", released), None, None, None, None]
}

fn unlocked(holder: Option<u8>, locks: bool) -> Fields {
    [
        octet_or_null("released", holder),
        truth("lock_req", locks),
        None,
        None,
        None,
    ]
}

fn locked_again(since: u32, min_tsdr: u8) -> Fields {
    [
        number("since", u64::from(since)),
        octet("min_tsdr", min_tsdr),
        None,
        None,
        None,
    ]
}

fn min_tsdr_of(holder: Option<u8>, min_tsdr: u8) -> Fields {
    [
        octet_or_null("holder", holder),
        octet("min_tsdr", min_tsdr),
        None,
        None,
        None,
    ]
}

fn cfg_facts(done: CfgDone) -> FactsOfKind {
    match done {
        CfgDone::Wrong { released } => of("WrongConfiguration", released_alone(released)),
        CfgDone::Good {
            number: chosen,
            before,
        } => of(
            "Configured",
            [
                number("number", chosen as u64),
                octet("before", before),
                None,
                None,
                None,
            ],
        ),
    }
}
