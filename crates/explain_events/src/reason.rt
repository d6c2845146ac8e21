//! The facts of the answer of a slave: why it refused a request, which request it repeated, or what it did.

ghost use Rattle.std.specs.Prelude.{◌≡◌, Some};
ghost use Rattle.std.specs.Option.{option_and_then};
ghost use Rattle.dp_line.specs.World.{described_at};
ghost use Rattle.explain_events.specs.Shown.{shown_at};
ghost use Rattle.explain_events.specs.Notes.{has_octets, place_of_note};
ghost use Rattle.explain_events.specs.Reasons.{at_slave_by, lengths_at, list_at, other_service, point_off, reason_at, reason_of, repeated, since_release};

use crate::at_slave::{RequestAtSlave, at_slave};
use crate::context::{EventContext, SlaveRequest};
use crate::done::Done;
use crate::frames::telegram_in;
use crate::notes::note_of;
use crate::releases::Release;
use crate::words::octet_at;
use dp_responder::Rule;
use dp_sap::{CHK_CFG, GLOBAL_CONTROL, SET_PRM, State, is_point};
use dp_telegram::Function;
use explain_octets::ReadOctets;

/// The facts of the answer of a slave to a request, by its rule (own). One rule has one fact, but for `NotActive`, which has
/// two.
#[derive(Clone, Copy)]
pub enum Reason {
    /// `Status`: the slave exists and is in this state.
    Status {
        address: u8,
        state: State,
    },
    /// `NoService`: the point takes this service alone; None if no slave has the function.
    NoService {
        takes: Option<TakenService>,
        point: Option<u8>,
    },
    /// `Repeat`: the request is treated as a repeat.
    Repeat(Repeat),
    /// `NotActive`: no slave has the point.
    NoPoint {
        address: u8,
        point: Option<u8>,
    },
    /// `NotActive`: the point is off in this state. `since` is the last release of a slave in Wait_Prm.
    PointOff {
        address: u8,
        state: State,
        since: Option<Release>,
        point: Option<u8>,
    },
    /// `NotHolder`: this master holds the slave since the entry at this place; None if nobody does.
    NotHolder {
        address: u8,
        holder: Option<u8>,
        since: u32,
    },
    /// `NotListed`: this list of the slave lacks the master.
    NotListed {
        master: u8,
        list: Listing,
    },
    /// `Busy`: the operator has marked the point busy.
    Busy {
        point: Option<u8>,
    },
    /// `Length`: this many octets were sent, and the point takes others.
    Length {
        sent: usize,
        takes: Lengths,
    },
    /// `NotSelected`: Group_Select and the groups of the slave have no bit in common.
    NotSelected {
        address: u8,
        select: u8,
        group: u8,
    },
    /// `Done`: the slave did this.
    Done(Done),
}

/// A service that a point takes.
#[derive(Clone, Copy)]
pub enum TakenService {
    Sdn,
    Srd,
}

/// A list of the masters that may use a point.
#[derive(Clone, Copy)]
pub enum Listing {
    /// For Set_Prm.
    Lockers,
    /// For RD_Inp and RD_Outp.
    Readers,
}

/// The numbers of octets that a point takes.
#[derive(Clone, Copy)]
pub enum Lengths {
    Nothing,
    Exactly(usize),
    OrNothing(usize),
    UpTo(usize),
}

/// Which request a repeat repeats, by its place.
#[derive(Clone, Copy)]
pub enum Repeat {
    /// The request is not known.
    Unknown,
    /// The same octets as at this place.
    Retry { of: u64 },
    /// Other octets than at this place; what was sent to this point is not done.
    Other { of: u64, point: Option<u8> },
}

impl<'a> RequestAtSlave<'a> {
    /// Returns the facts of the answer by this rule; None for a rule that concerns the line.
    pub(crate) fn reason(&self, rule: Rule) -> Option<Reason>
        ensures { result ≡ reason_of self.now rule }
    {
        let slave = self.slave;
        let point = self.parts.dsap();
        let reason = match rule {
            Rule::Status => Reason::Status {
                address: slave.address(),
                state: slave.state(),
            },
            Rule::NoService => Reason::NoService {
                takes: other_service(Function::from_fc(self.telegram.fc())),
                point,
            },
            Rule::Repeat => Reason::Repeat(self.repeat()),
            Rule::NotActive => self.point_off(),
            Rule::NotHolder => Reason::NotHolder {
                address: slave.address(),
                holder: slave.holder(),
                since: slave.since(),
            },
            Rule::NotListed => Reason::NotListed {
                master: self.master,
                list: list_at(point),
            },
            Rule::Busy => Reason::Busy { point },
            Rule::Length => Reason::Length {
                sent: self.parts.payload().len(),
                takes: lengths_at(point, slave.rd_outp().len(), slave.is_cleared()),
            },
            Rule::NotSelected => Reason::NotSelected {
                address: slave.address(),
                select: octet_at(self.parts.payload(), 1),
                group: slave.group(),
            },
            Rule::Done => Reason::Done(self.done()),
            Rule::Halted
            | Rule::NoFrame
            | Rule::NoMaster
            | Rule::ForeignSender
            | Rule::Token
            | Rule::NotRequest
            | Rule::BadFunction
            | Rule::BadExtension
            | Rule::BadBroadcast
            | Rule::NoStation => return None,
        };
        Some(reason)
    }

    /// Returns which request a repeat repeats.
    fn repeat(&self) -> Repeat
        ensures { result ≡ repeated (has_octets self.now.noted self.now.octets) (place_of_note self.now.noted) self.now.parts.dsap }
    {
        let point = self.parts.dsap();
        match note_of(self.notes, self.address, self.master) {
            Some(noted) => repeat_of(noted.has_octets(self.octets), noted.place, point),
            None => Repeat::Unknown,
        }
    }

    /// Returns why the point is off.
    fn point_off(&self) -> Reason
        ensures { result ≡ point_off self.now.slave.address self.now.slave.state self.now.release self.now.parts.dsap }
    {
        let address = self.slave.address();
        let state = self.slave.state();
        let point = self.parts.dsap();
        if is_point(point) {
            Reason::PointOff {
                address,
                state,
                since: since_release(state, self.release),
                point,
            }
        } else {
            Reason::NoPoint { address, point }
        }
    }
}

/// Returns which request is repeated; place 0 is that of a request that is not known.
fn repeat_of(is_same: bool, place: u64, point: Option<u8>) -> Repeat
    ensures { result ≡ repeated is_same place point }
{
    if place == 0 {
        Repeat::Unknown
    } else if is_same {
        Repeat::Retry { of: place }
    } else {
        Repeat::Other { of: place, point }
    }
}

/// Returns the last release of a slave that is in Wait_Prm.
fn since_release(state: State, release: Option<Release>) -> Option<Release>
    ensures { result ≡ since_release state release }
{
    match state {
        State::WaitPrm => release,
        State::WaitCfg => None,
        State::DataExch => None,
    }
}

/// Returns the list of those who may use the point.
fn list_at(point: Option<u8>) -> Listing
    ensures { result ≡ list_at point }
{
    match point {
        Some(SET_PRM) => Listing::Lockers,
        Some(_) => Listing::Readers,
        None => Listing::Readers,
    }
}

/// Returns the service that a point takes instead of this function; None if no slave has the function.
fn other_service(function: Function) -> Option<TakenService>
    ensures { result ≡ other_service function }
{
    match function {
        Function::SdaLow => None,
        Function::SdaHigh => None,
        Function::Ident => None,
        Function::LsapStatus => None,
        Function::SdnLow => Some(TakenService::Srd),
        Function::SdnHigh => Some(TakenService::Srd),
        Function::SrdLow => Some(TakenService::Sdn),
        Function::SrdHigh => Some(TakenService::Sdn),
        Function::FdlStatus => Some(TakenService::Sdn),
        Function::Reserved => Some(TakenService::Sdn),
    }
}

/// Returns how many octets a point takes.
fn lengths_at(point: Option<u8>, outputs: usize, cleared: bool) -> Lengths
    ensures { result ≡ lengths_at point outputs cleared }
{
    match point {
        None => {
            if outputs == 0 {
                Lengths::Nothing
            } else if cleared {
                Lengths::OrNothing(outputs)
            } else {
                Lengths::Exactly(outputs)
            }
        }
        Some(GLOBAL_CONTROL) => Lengths::Exactly(2),
        Some(SET_PRM) => Lengths::UpTo(244),
        Some(CHK_CFG) => Lengths::UpTo(244),
        Some(_) => Lengths::Nothing,
    }
}

/// Returns the facts of the answer of the slave at this address to a request of a master, by this rule. None for a rule
/// that concerns the line, if the line has no such slave, or if the octets are no telegram whose access points can be read.
/// The context is that before the request.
pub fn reason_at(
    context: &EventContext<'_>,
    master: u8,
    request: &ReadOctets<'_>,
    address: u8,
    rule: Rule,
) -> Option<Reason>
    ensures { result ≡ reason_at context.now master request.now address rule }
{
    let telegram = telegram_in(request)?;
    let asked = SlaveRequest {
        master,
        octets: request.octets(),
        telegram: &telegram,
        parts: telegram.parts()?,
    };
    reason_by(context, &asked, address, rule)
}

/// Returns the facts of the answer of the slave at this address. See [`reason_at`].
fn reason_by(
    context: &EventContext<'_>,
    asked: &SlaveRequest<'_>,
    address: u8,
    rule: Rule,
) -> Option<Reason>
    ensures { result ≡ option_and_then (λ at_slave. reason_of at_slave rule) (at_slave_by context.now asked.now.master asked.now.octets address
        asked.now.telegram (Some asked.now.parts) (described_at context.now.description.slaves address) (shown_at context.now.world address)) }
{
    at_slave(context, asked, address)?.reason(rule)
}
