//! What the requests of a master to one station left.

ghost use Rattle.std.specs.Prelude.{◌≡◌, option_map};
ghost use Rattle.judge_rules.specs.Before.{octets_stored};
ghost use Rattle.judge_rules.specs.Stations.{is_acknowledged_prm, last_of, new_station, station_after, wrong_length_after, unread_after, watchdog_after, watchdog_asked, one_more};

use crate::entry::{Answer, Asked, Parameters, Request};
use crate::stage::Stage;
use dp_telegram::Octets;

/// The most exchanges after a DH that are counted.
const MOST_EXCHANGES: u8 = 4;

/// An SRD of the past.
#[derive(Debug, Drop)]
pub(crate) struct Last {
    pub(crate) fcb: bool,
    pub(crate) fcv: bool,
    /// Whether there was a reply.
    pub(crate) answered: bool,
    /// The sum of the ticks before it, in units of 10 ms.
    pub(crate) time: u64,
    /// The octets of the whole frame.
    pub(crate) octets: Octets,
}

/// What the requests of a master to one station left.
#[derive(Debug, Drop)]
pub(crate) struct Station {
    /// The last SRD to the station.
    pub(crate) last: Option<Last>,
    pub(crate) stage: Stage,
    /// Whether a Data_Exchange was refused by UE since the last Set_Prm that was acknowledged.
    pub(crate) wrong_length: bool,
    /// The number of exchanges since the first DH that no Slave_Diag has followed, 0 to 4; None if there is no such DH.
    pub(crate) unread: Option<u8>,
    /// The watchdog time of the last Set_Prm that was acknowledged, in units of 10 ms.
    pub(crate) watchdog: Option<u32>,
    /// Whether the station has answered a request.
    pub(crate) has_answered: bool,
}

impl Last {
    /// Returns what is stored of a request.
    pub(crate) fn of(request: &Request) -> Last
        ensures { result ≡ last_of request.now }
    {
        Last {
            fcb: request.fcb,
            fcv: request.fcv,
            answered: request.answer.is_answered(),
            time: request.time,
            octets: request.octets.clone().unwrap(),
        }
    }
}

impl Station {
    /// Returns what no request left.
    pub(crate) fn new() -> Station
        ensures { result ≡ new_station }
    {
        Station {
            last: None,
            stage: Stage::Unseen,
            wrong_length: false,
            unread: None,
            watchdog: None,
            has_answered: false,
        }
    }

    /// Returns the octets of the last SRD to the station; None if there was none.
    pub(crate) fn last_octets(&self) -> Option<&[u8]>
        ensures { option_map (λ octets. octets.now) result ≡ octets_stored self.now.last }
    {
        match &self.last {
            Some(last) => Some(last.octets.as_slice()),
            None => None,
        }
    }

    /// Takes the next request to the station.
    pub(crate) fn take(&mut self, request: &Request)
        ensures { self.new ≡ station_after self.old request.now }
    {
        self.wrong_length = wrong_length_after(self.wrong_length, request);
        self.unread = unread_after(self.unread, request);
        self.watchdog = watchdog_after(self.watchdog, request);
        self.stage = self.stage.after(request);
        self.has_answered = self.has_answered || request.answer.is_answered();
        if request.is_srd() {
            self.last = Some(Last::of(request));
        }
    }
}

/// Returns whether a Data_Exchange was refused by UE since the last Set_Prm that was acknowledged, after a request.
fn wrong_length_after(wrong: bool, request: &Request) -> bool
    ensures { result ≡ wrong_length_after wrong request.now }
{
    if is_acknowledged_prm(request) {
        return false;
    }
    wrong || request.asks_exchange() && request.answer.is_ue()
}

/// Returns whether it is a Set_Prm that was acknowledged.
fn is_acknowledged_prm(request: &Request) -> bool
    ensures { result ≡ is_acknowledged_prm request.now }
{
    request.asks_prm().is_some() && request.answer.is_done()
}

/// Returns the number of exchanges since the first DH that no Slave_Diag has followed, after a request.
fn unread_after(unread: Option<u8>, request: &Request) -> Option<u8>
    ensures { result ≡ unread_after unread request.now }
{
    if request.reads_diag() {
        return None;
    }
    if is_acknowledged_prm(request) {
        return None;
    }
    if request.asks_exchange() {
        return one_more(unread, request.answer);
    }
    unread
}

/// Returns the number of exchanges since the first DH, after a Data_Exchange that was answered so.
fn one_more(unread: Option<u8>, answer: Answer) -> Option<u8>
    ensures { result ≡ one_more unread answer }
{
    match unread {
        Some(exchanges) => {
            if exchanges < MOST_EXCHANGES {
                Some(exchanges + 1)
            } else {
                Some(MOST_EXCHANGES)
            }
        }
        None => { if answer.is_dh() { Some(0) } else { None } }
    }
}

/// Returns the watchdog time after a request.
fn watchdog_after(watchdog: Option<u32>, request: &Request) -> Option<u32>
    ensures { result ≡ watchdog_after watchdog request.now }
{
    match request.asks_prm() {
        Some(parameters) => {
            if request.answer.is_done() {
                watchdog_asked(watchdog, parameters)
            } else {
                watchdog
            }
        }
        None => watchdog,
    }
}

/// Returns the watchdog time after a Set_Prm that was acknowledged.
fn watchdog_asked(watchdog: Option<u32>, parameters: Parameters) -> Option<u32>
    ensures { result ≡ watchdog_asked watchdog parameters }
{
    match parameters.asked {
        Asked::Lock => parameters.watchdog,
        Asked::Unlock => None,
        Asked::MinTsdr => watchdog,
        Asked::Short => None,
    }
}
