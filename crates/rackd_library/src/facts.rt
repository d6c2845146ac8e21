//! The facts of a reason, for C.

ghost use Rattle.std.specs.Prelude.{◌≡◌};
ghost use Rattle.rackd_library.specs.BlankFacts.{blank_facts};
ghost use Rattle.rackd_library.specs.ReasonFacts.{ending_number, facts_of_entry, facts_of_lengths, facts_of_line, facts_of_op, facts_of_reason, facts_of_release, facts_of_repeat, list_number, service_number, state_number};

use crate::done_facts::facts_of_done;
use dp_sap::State;
use embedded_rack::EntryReason;
use explain_events::{
    Ending, Lengths, LineReason, Listing, OpResult, Reason, Release, Repeat, TakenService,
};

/// An address, a point, a state or a detail that a reason does not have.
const NONE: u8 = 255;

/// The facts of the reason for the outcome of an entry. `include/rackd.h` says which of them each reason has; the others are
/// 255, or 0 if they have more than one octet.
#[repr(C)]
#[derive(Clone, Copy)]
pub struct Facts {
    /// The place of the entry since which a master holds the slave, that released it, or that is repeated; from 1.
    pub since: u64,
    /// A number that the request has.
    pub value: usize,
    /// A number that the slave has.
    pub limit: usize,
    /// The number of the reason.
    pub reason: u8,
    /// The address of the slave.
    pub slave: u8,
    /// The access point of the request (DSAP).
    pub point: u8,
    /// The master that holds the slave, or the station that the reason is about.
    pub master: u8,
    /// The state of the slave.
    pub state: u8,
    /// Details that the reason counts.
    pub detail: u8,
}

/// Returns the facts of a reason that has none beside its number.
pub(crate) fn blank_facts(reason: u8) -> Facts
    ensures { result ≡ blank_facts reason }
{
    Facts {
        since: 0,
        value: 0,
        limit: 0,
        reason,
        slave: NONE,
        point: NONE,
        master: NONE,
        state: NONE,
        detail: NONE,
    }
}

/// Returns the facts of the reason of an entry.
pub(crate) fn facts_of_entry(reason: EntryReason) -> Facts
    ensures { result ≡ facts_of_entry reason }
{
    match reason {
        EntryReason::Unknown => blank_facts(0),
        EntryReason::Line(reason) => facts_of_line(reason),
        EntryReason::Slave(reason) => facts_of_reason(reason),
        EntryReason::ToAll => blank_facts(39),
        EntryReason::Operator(done) => facts_of_op(done),
    }
}

/// Returns the facts of a rule of the line.
fn facts_of_line(reason: LineReason) -> Facts
    ensures { result ≡ facts_of_line reason }
{
    match reason {
        LineReason::Halted => blank_facts(1),
        LineReason::NoFrame => blank_facts(2),
        LineReason::NoMaster(master) => Facts {
            master,
            ..blank_facts(3)
        },
        LineReason::ForeignSender(station) => Facts {
            master: station.unwrap_or(NONE),
            ..blank_facts(4)
        },
        LineReason::Token => blank_facts(5),
        LineReason::NotRequest => blank_facts(6),
        LineReason::BadFunction => blank_facts(7),
        LineReason::BadExtension => blank_facts(8),
        LineReason::BadBroadcast => blank_facts(9),
        LineReason::NoStation => blank_facts(10),
        LineReason::MasterStation(master) => Facts {
            master,
            ..blank_facts(11)
        },
        LineReason::LiveListPoll => blank_facts(12),
    }
}

/// Returns the facts of the answer of a slave.
fn facts_of_reason(reason: Reason) -> Facts
    ensures { result ≡ facts_of_reason reason }
{
    match reason {
        Reason::Status { address, state } => Facts {
            slave: address,
            state: state_number(state),
            ..blank_facts(13)
        },
        Reason::NoService { takes, point } => Facts {
            point: point.unwrap_or(NONE),
            detail: service_number(takes),
            ..blank_facts(14)
        },
        Reason::Repeat(repeat) => facts_of_repeat(repeat),
        Reason::NoPoint { address, point } => Facts {
            slave: address,
            point: point.unwrap_or(NONE),
            ..blank_facts(18)
        },
        Reason::PointOff {
            address,
            state,
            since,
            point,
        } => Facts {
            slave: address,
            point: point.unwrap_or(NONE),
            state: state_number(state),
            ..facts_of_release(since)
        },
        Reason::NotHolder {
            address,
            holder,
            since,
        } => Facts {
            slave: address,
            master: holder.unwrap_or(NONE),
            since: u64::from(since),
            ..blank_facts(20)
        },
        Reason::NotListed { master, list } => Facts {
            master,
            detail: list_number(list),
            ..blank_facts(21)
        },
        Reason::Busy { point } => Facts {
            point: point.unwrap_or(NONE),
            ..blank_facts(22)
        },
        Reason::Length { sent, takes } => facts_of_lengths(sent, takes),
        Reason::NotSelected {
            address,
            select,
            group,
        } => Facts {
            slave: address,
            value: usize::from(select),
            limit: usize::from(group),
            ..blank_facts(24)
        },
        Reason::Done(done) => facts_of_done(done),
    }
}

/// Returns the facts of a repeat.
fn facts_of_repeat(repeat: Repeat) -> Facts
    ensures { result ≡ facts_of_repeat repeat }
{
    match repeat {
        Repeat::Unknown => blank_facts(15),
        Repeat::Retry { of } => Facts {
            since: of,
            ..blank_facts(16)
        },
        Repeat::Other { of, point } => Facts {
            since: of,
            point: point.unwrap_or(NONE),
            ..blank_facts(17)
        },
    }
}

/// Returns the facts of a point that is off, beside those of the slave: the entry that released it, and how.
fn facts_of_release(since: Option<Release>) -> Facts
    ensures { result ≡ facts_of_release since }
{
    match since {
        Some(release) => Facts {
            since: release.place,
            detail: ending_number(release.ending),
            ..blank_facts(19)
        },
        None => blank_facts(19),
    }
}

/// Returns the facts of a wrong number of octets.
fn facts_of_lengths(sent: usize, takes: Lengths) -> Facts
    ensures { result ≡ facts_of_lengths sent takes }
{
    let facts = Facts {
        value: sent,
        ..blank_facts(23)
    };
    match takes {
        Lengths::Nothing => Facts { detail: 0, ..facts },
        Lengths::Exactly(limit) => Facts {
            detail: 1,
            limit,
            ..facts
        },
        Lengths::OrNothing(limit) => Facts {
            detail: 2,
            limit,
            ..facts
        },
        Lengths::UpTo(limit) => Facts {
            detail: 3,
            limit,
            ..facts
        },
    }
}

/// Returns the facts of the result of an event of the operator.
fn facts_of_op(done: OpResult) -> Facts
    ensures { result ≡ facts_of_op done }
{
    match done {
        OpResult::Done => blank_facts(40),
        OpResult::Refused(fault) => Facts {
            detail: fault.code(),
            ..blank_facts(41)
        },
        OpResult::Ticked => blank_facts(42),
        OpResult::Halted(full) => Facts {
            detail: u8::from(full),
            ..blank_facts(43)
        },
    }
}

/// Returns the number of a state.
fn state_number(state: State) -> u8
    ensures { result ≡ state_number state }
{
    match state {
        State::WaitPrm => 0,
        State::WaitCfg => 1,
        State::DataExch => 2,
    }
}

/// Returns the number of a service that a point takes.
fn service_number(service: Option<TakenService>) -> u8
    ensures { result ≡ service_number service }
{
    match service {
        Some(TakenService::Sdn) => 1,
        Some(TakenService::Srd) => 2,
        None => NONE,
    }
}

/// Returns the number of a list of masters.
fn list_number(list: Listing) -> u8
    ensures { result ≡ list_number list }
{
    match list {
        Listing::Lockers => 1,
        Listing::Readers => 2,
    }
}

/// Returns the number of the way in which a hold ended.
fn ending_number(ending: Ending) -> u8
    ensures { result ≡ ending_number ending }
{
    match ending {
        Ending::WrongConfiguration => 1,
        Ending::WrongParameters => 2,
        Ending::Unlocked => 3,
        Ending::Halted => 4,
        Ending::Watchdog => 5,
        Ending::Lasts => 6,
    }
}
