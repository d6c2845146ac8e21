//! The answer of a slave in words: one sentence for each fact.

ghost use Rattle.std.specs.Prelude.{◌≡◌, Some};
ghost use Rattle.explain_events.specs.Refusals.{busy_text, grouped_words, holds_words, length_text, lengths_words, listed_words, no_point_text, no_service_text, not_holder_text, not_listed_text, not_named_text, not_selected_text, other_telegram_text, point_off_text, released_words, repeat_words, selecting_words, service_words, status_text, undone_words};
ghost use Rattle.explain_events.specs.Sentences.{reason_text, refused_words};

use crate::at_slave::RequestAtSlave;
use crate::reason::{Lengths, Listing, Reason, Repeat, TakenService};
use crate::releases::Release;
use crate::services::DoneWords;
use crate::words::{CountWords, NumbersWords, PointWords, SinceWords, state_name};
use arrayvec::ArrayVec;
use dp_sap::{Lists, MOST_LISTED, State};
use explain_octets::{Groups, Hex, HexPair};
use std::fmt;

/// Returns the words for a refusal, which a slave sends in a reply or makes in silence.
fn refused_name(silent: bool) -> &'static str
    ensures { result.now ≡ refused_words silent }
{
    if silent {
        "refused in silence"
    } else {
        "refused"
    }
}

/// The answer of a slave, by its facts.
#[derive(Clone, Copy)]
pub(crate) struct ReasonWords<'a> {
    pub(crate) reason: Reason,
    /// Whether nobody replies.
    pub(crate) silent: bool,
    /// The request, which lends the lists of the slave and the data.
    pub(crate) at_slave: &'a RequestAtSlave<'a>,
}

impl<'a> fmt::Display for ReasonWords<'a> {
    ghost output = { λ s. Some (reason_text s.silent s.at_slave.now s.reason) };

    fn fmt<W: fmt::Write>(&self, f: &mut fmt::Formatter<W>) -> fmt::Result {
        let at_slave = self.at_slave;
        let refused = refused_name(self.silent);
        match self.reason {
            Reason::Status { address, state } => {
                write!(f, "answered: Status. {}", Status { address, state })
            }
            Reason::NoService { takes, point } => {
                write!(f, "{refused}: NoService. {}", NoService { takes, point })
            }
            Reason::Repeat(repeat) => write!(f, "{}", at_slave.repeated(repeat)),
            Reason::NoPoint { address, point } => {
                write!(f, "{refused}: NotActive. {}", NoPoint { address, point })
            }
            Reason::PointOff {
                address,
                state,
                since,
                point,
            } => {
                let words = PointOff {
                    address,
                    state,
                    since,
                    point,
                };
                write!(f, "{refused}: NotActive. {words}")
            }
            Reason::NotHolder {
                address,
                holder,
                since,
            } => {
                let words = NotHolder {
                    address,
                    holder,
                    since,
                };
                write!(f, "{refused}: NotHolder. {words}")
            }
            Reason::NotListed { master, list } => {
                write!(
                    f,
                    "{refused}: NotListed. {}",
                    at_slave.not_listed(master, list)
                )
            }
            Reason::Busy { point } => write!(f, "{refused}: Busy. {}", Busy(point)),
            Reason::Length { sent, takes } => {
                write!(f, "{refused}: Length. {}", WrongLength { sent, takes })
            }
            Reason::NotSelected {
                address,
                select,
                group,
            } => {
                let words = NotSelected {
                    address,
                    select,
                    group,
                };
                write!(f, "silence: NotSelected. {words}")
            }
            Reason::Done(done) => write!(f, "{}", DoneWords { done, at_slave }),
        }
    }
}

impl<'a> RequestAtSlave<'a> {
    fn repeated(&self, repeat: Repeat) -> Repeated<'a>
        ensures repeat { result.repeat ≡ repeat }
        ensures octets { result.octets.now ≡ self.now.parts.payload.items }
    {
        Repeated {
            repeat,
            octets: self.parts.payload(),
        }
    }

    fn not_listed(&self, master: u8, list: Listing) -> NotListed<'a>
        ensures master { result.master ≡ master }
        ensures list { result.list ≡ list }
        ensures lists { result.lists.now ≡ self.now.description.lists }
    {
        NotListed {
            master,
            list,
            lists: &self.description.lists,
        }
    }
}

/// The point is off in this state of the slave.
#[derive(Clone, Copy)]
struct PointOff {
    address: u8,
    state: State,
    /// The last release of the slave.
    since: Option<Release>,
    point: Option<u8>,
}

impl fmt::Display for PointOff {
    ghost output = { λ s. Some (point_off_text s.address s.state s.since s.point) };

    fn fmt<W: fmt::Write>(&self, f: &mut fmt::Formatter<W>) -> fmt::Result {
        let address = self.address;
        let state = state_name(self.state);
        let since = SinceRelease(self.since);
        let point = PointWords(self.point);
        write!(
            f,
            "Slave {address} is in {state}{since}, where {point} is off."
        )
    }
}

/// The last release of a slave; writes nothing if there is none.
#[derive(Clone, Copy)]
struct SinceRelease(Option<Release>);

impl fmt::Display for SinceRelease {
    ghost output = { λ since. Some (released_words since.0) };

    fn fmt<W: fmt::Write>(&self, f: &mut fmt::Formatter<W>) -> fmt::Result {
        match self.0 {
            Some(release) => {
                let place = release.place;
                let ending = release.ending.name();
                write!(f, " since entry {place} ({ending})")
            }
            None => Ok(()),
        }
    }
}

/// No slave has the point.
#[derive(Clone, Copy)]
struct NoPoint {
    address: u8,
    point: Option<u8>,
}

impl fmt::Display for NoPoint {
    ghost output = { λ s. Some (no_point_text s.address s.point) };

    fn fmt<W: fmt::Write>(&self, f: &mut fmt::Formatter<W>) -> fmt::Result {
        let address = self.address;
        let point = PointWords(self.point);
        write!(f, "Slave {address} has no {point}.")
    }
}

/// The reason that another master holds the slave, or nobody does.
#[derive(Clone, Copy)]
struct NotHolder {
    address: u8,
    holder: Option<u8>,
    /// The place of the entry at which the holder locked the slave.
    since: u32,
}

impl fmt::Display for NotHolder {
    ghost output = { λ s. Some (not_holder_text s.address s.holder s.since) };

    fn fmt<W: fmt::Write>(&self, f: &mut fmt::Formatter<W>) -> fmt::Result {
        let address = self.address;
        match self.holder {
            None => write!(f, "Nobody holds slave {address}."),
            Some(holder) => {
                let words = Holds {
                    address,
                    holder,
                    since: self.since,
                };
                write!(f, "{words}")
            }
        }
    }
}

/// The words that a master holds a slave, at the start of a sentence.
#[derive(Clone, Copy)]
struct HoldsSlave {
    address: u8,
    holder: u8,
}

impl fmt::Display for HoldsSlave {
    ghost output = { λ s. Some (holds_words s.address s.holder) };

    fn fmt<W: fmt::Write>(&self, f: &mut fmt::Formatter<W>) -> fmt::Result {
        let address = self.address;
        let holder = self.holder;
        write!(f, "Master {holder} holds slave {address}")
    }
}

/// The sentence that a master holds a slave since an entry.
#[derive(Clone, Copy)]
struct Holds {
    address: u8,
    holder: u8,
    since: u32,
}

impl fmt::Display for Holds {
    ghost output = { λ s. Some (not_holder_text s.address (Some s.holder) s.since) };

    fn fmt<W: fmt::Write>(&self, f: &mut fmt::Formatter<W>) -> fmt::Result {
        let holds = HoldsSlave {
            address: self.address,
            holder: self.holder,
        };
        let since = SinceWords(self.since);
        write!(f, "{holds}{since}")
    }
}

/// The masters of a list; no list stands for all masters.
#[derive(Clone, Copy)]
struct Listed<'a>(&'a Option<ArrayVec<u8, MOST_LISTED>>);

impl<'a> fmt::Display for Listed<'a> {
    ghost output = { λ listed. Some (listed_words listed.0.now) };

    fn fmt<W: fmt::Write>(&self, f: &mut fmt::Formatter<W>) -> fmt::Result {
        match self.0 {
            None => f.write_str("all"),
            Some(masters) => {
                let masters = NumbersWords(masters.as_slice());
                write!(f, "{masters}")
            }
        }
    }
}

/// The sentence that a list doesn't name the master.
#[derive(Clone, Copy)]
struct NotNamed<'a> {
    master: u8,
    /// What the masters of the list are called.
    of: &'a str,
    list: &'a Option<ArrayVec<u8, MOST_LISTED>>,
}

impl<'a> fmt::Display for NotNamed<'a> {
    ghost output = { λ s. Some (not_named_text s.master s.of.now s.list.now) };

    fn fmt<W: fmt::Write>(&self, f: &mut fmt::Formatter<W>) -> fmt::Result {
        let master = self.master;
        let of = self.of;
        let masters = Listed(self.list);
        write!(f, "Master {master} is none of its {of} ({masters}).")
    }
}

/// The reason that a list of the slave doesn't name the master.
#[derive(Clone, Copy)]
struct NotListed<'a> {
    master: u8,
    list: Listing,
    lists: &'a Lists,
}

impl<'a> fmt::Display for NotListed<'a> {
    ghost output = { λ s. Some (not_listed_text s.master s.list s.lists.now) };

    fn fmt<W: fmt::Write>(&self, f: &mut fmt::Formatter<W>) -> fmt::Result {
        let master = self.master;
        match self.list {
            Listing::Lockers => {
                let words = NotNamed {
                    master,
                    of: "lockers",
                    list: &self.lists.lockers,
                };
                write!(f, "{words}")
            }
            Listing::Readers => {
                let words = NotNamed {
                    master,
                    of: "readers",
                    list: &self.lists.readers,
                };
                write!(f, "{words}")
            }
        }
    }
}

/// The reason that no slave has the function, or that the point takes the other service.
#[derive(Clone, Copy)]
struct NoService {
    takes: Option<TakenService>,
    point: Option<u8>,
}

impl fmt::Display for NoService {
    ghost output = { λ s. Some (no_service_text s.takes s.point) };

    fn fmt<W: fmt::Write>(&self, f: &mut fmt::Formatter<W>) -> fmt::Result {
        match self.takes {
            None => f.write_str("No slave has this function."),
            Some(service) => {
                let point = PointWords(self.point);
                let service = service_name(service);
                write!(f, "{point} takes {service} alone.")
            }
        }
    }
}

/// Returns the name of a service.
fn service_name(service: TakenService) -> &'static str
    ensures { result.now ≡ service_words service }
{
    match service {
        TakenService::Sdn => "SDN",
        TakenService::Srd => "SRD",
    }
}

/// The reason that the point is marked busy.
#[derive(Clone, Copy)]
struct Busy(Option<u8>);

impl fmt::Display for Busy {
    ghost output = { λ s. Some (busy_text s.0) };

    fn fmt<W: fmt::Write>(&self, f: &mut fmt::Formatter<W>) -> fmt::Result {
        let point = PointWords(self.0);
        write!(f, "The operator has marked {point} busy.")
    }
}

impl fmt::Display for Lengths {
    ghost output = { λ takes. Some (lengths_words takes) };

    fn fmt<W: fmt::Write>(&self, f: &mut fmt::Formatter<W>) -> fmt::Result {
        match self {
            Lengths::Nothing => f.write_str("none"),
            Lengths::Exactly(count) => write!(f, "{count}"),
            Lengths::OrNothing(count) => write!(f, "{count} or none"),
            Lengths::UpTo(count) => write!(f, "up to {count}"),
        }
    }
}

/// The reason that the point takes another number of octets.
#[derive(Clone, Copy)]
struct WrongLength {
    sent: usize,
    takes: Lengths,
}

impl fmt::Display for WrongLength {
    ghost output = { λ s. Some (length_text s.sent s.takes) };

    fn fmt<W: fmt::Write>(&self, f: &mut fmt::Formatter<W>) -> fmt::Result {
        let sent = CountWords(self.sent);
        let takes = self.takes;
        write!(f, "{sent}, the slave takes {takes}.")
    }
}

/// The reason that a Global_Control doesn't select the slave.
#[derive(Clone, Copy)]
struct NotSelected {
    address: u8,
    /// The Group_Select of the command.
    select: u8,
    /// The Group_Ident of the slave.
    group: u8,
}

impl fmt::Display for NotSelected {
    ghost output = { λ s. Some (not_selected_text s.address s.select s.group) };

    fn fmt<W: fmt::Write>(&self, f: &mut fmt::Formatter<W>) -> fmt::Result {
        let selecting = Selecting(self.select);
        let grouped = Grouped {
            address: self.address,
            group: self.group,
        };
        write!(f, "{selecting}, {grouped}.")
    }
}

/// The slaves that a Global_Control selects, by its Group_Select.
#[derive(Clone, Copy)]
struct Selecting(u8);

impl fmt::Display for Selecting {
    ghost output = { λ select. Some (selecting_words select.0) };

    fn fmt<W: fmt::Write>(&self, f: &mut fmt::Formatter<W>) -> fmt::Result {
        let groups = Groups {
            octet: self.0,
            none: "every slave",
        };
        let octet = HexPair(self.0);
        write!(f, "The command is for {groups} (Group_Select {octet})")
    }
}

/// The groups of a slave.
#[derive(Clone, Copy)]
struct Grouped {
    address: u8,
    group: u8,
}

impl fmt::Display for Grouped {
    ghost output = { λ s. Some (grouped_words s.address s.group) };

    fn fmt<W: fmt::Write>(&self, f: &mut fmt::Formatter<W>) -> fmt::Result {
        let address = self.address;
        let groups = Groups {
            octet: self.group,
            none: "no group",
        };
        let octet = HexPair(self.group);
        write!(f, "slave {address} is in {groups} (Group_Ident {octet})")
    }
}

/// The answer to an FDL status request: the slave exists and is in this state.
#[derive(Clone, Copy)]
struct Status {
    address: u8,
    state: State,
}

impl fmt::Display for Status {
    ghost output = { λ s. Some (status_text s.address s.state) };

    fn fmt<W: fmt::Write>(&self, f: &mut fmt::Formatter<W>) -> fmt::Result {
        let address = self.address;
        let state = state_name(self.state);
        write!(f, "Slave {address} is there, in {state}.")
    }
}

/// What is not done because the request is treated as a repeat.
#[derive(Clone, Copy)]
struct Undone<'a> {
    point: Option<u8>,
    octets: &'a [u8],
}

impl<'a> fmt::Display for Undone<'a> {
    ghost output = { λ s. Some (undone_words s.point s.octets.now) };

    fn fmt<W: fmt::Write>(&self, f: &mut fmt::Formatter<W>) -> fmt::Result {
        match (self.point, self.octets) {
            (None, [_, ..]) => {
                let octets = Hex(self.octets);
                write!(f, "outputs {octets} not taken")
            }
            (None, []) => f.write_str("Data_Exchange not done"),
            (Some(_), _) => {
                let point = PointWords(self.point);
                write!(f, "{point} not done")
            }
        }
    }
}

/// The answer to a request that is treated as a repeat, but has other octets than the request whose reply it gets.
#[derive(Clone, Copy)]
struct OtherTelegram<'a> {
    /// The place of the request whose reply it gets.
    place: u64,
    point: Option<u8>,
    octets: &'a [u8],
}

impl<'a> fmt::Display for OtherTelegram<'a> {
    ghost output = { λ s. Some (other_telegram_text s.place s.point s.octets.now) };

    fn fmt<W: fmt::Write>(&self, f: &mut fmt::Formatter<W>) -> fmt::Result {
        let place = self.place;
        let undone = Undone {
            point: self.point,
            octets: self.octets,
        };
        write!(
            f,
            "repeat: FCB as in entry {place}, but another telegram: {undone}."
        )
    }
}

/// The answer to a request that is treated as a repeat; `octets` are its data.
#[derive(Clone, Copy)]
struct Repeated<'a> {
    repeat: Repeat,
    octets: &'a [u8],
}

impl<'a> fmt::Display for Repeated<'a> {
    ghost output = { λ s. Some (repeat_words s.repeat s.octets.now) };

    fn fmt<W: fmt::Write>(&self, f: &mut fmt::Formatter<W>) -> fmt::Result {
        match self.repeat {
            Repeat::Unknown => f.write_str(
                "repeat: the reply to an earlier request is sent again.",
            ),
            Repeat::Retry { of } => write!(f, "retry of entry {of}: its reply is sent again."),
            Repeat::Other { of, point } => {
                let other = OtherTelegram {
                    place: of,
                    point,
                    octets: self.octets,
                };
                write!(f, "{other}")
            }
        }
    }
}
