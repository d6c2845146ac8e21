//! The judge of one master.

ghost use Rattle.std.specs.Prelude.{◌≡◌, ◌++◌, ◌∷◌, [], List, length, option_map, IfOk};
ghost use Rattle.judge_rules.specs.declared.entry.Entry.{Entry as Entries};
ghost use Rattle.judge_rules.specs.Before.{srd_before};
ghost use Rattle.judge_rules.specs.Judges.{all_stations};
ghost use Rattle.judge_rules.specs.Stations.{station_of};
ghost use Rattle.judge_rules.specs.Rules.{breaks};

use crate::broken::{broken_by, broken_by_stray, broken_by_token};
use crate::bus::Bus;
use crate::entry::Entry;
use crate::rule::JudgeRule;
use crate::station::Station;
use ghost_lists::Past;
use std::alloc::{AllocError, Global};
use std::marker::Model;

/// The number of stations, one for each value of an octet.
const STATIONS: usize = 256;

/// The judge of one master. Contracts see how many retries are allowed, and the entries of the master so far.
#[derive(Drop)]
pub struct MasterJudge {
    retries: u8,
    past: Past<Entry>,
    bus: Bus,
    /// What the entries left of each station, at its address.
    stations: Vec<Station>,
}

impl Model for MasterJudge {
    ghost use Rattle.std.specs.Prelude.{◌≡◌};
    ghost use Rattle.judge_rules.specs.Judges.{JudgeView, all_stations};
    ghost use Rattle.judge_rules.specs.BusFacts.{bus_of};

    ghost Value = { JudgeView };

    ghost view = { λ j. record { retries = j.retries; past = j.past.items } };

    ghost invariant = { λ j. (j.bus ≡ bus_of j.past.items) × (j.stations.items ≡ all_stations j.past.items) };
}

impl MasterJudge {
    /// Returns the judge before the first entry of a master, which may send a request again this many times. `AllocError`
    /// if memory runs out.
    pub fn new(alloc: Global, retries: u8) -> Result<MasterJudge, AllocError>
        ensures { IfOk result (λ judge. judge ≡ record { retries = retries; past = [] }) }
    {
        let stations = new_stations(alloc)?;
        Ok(MasterJudge {
            retries,
            past: Past::new(),
            bus: Bus::new(),
            stations,
        })
    }

    /// Returns whether the next entry breaks the rule.
    pub fn breaks(&self, entry: &Entry, rule: JudgeRule) -> bool
        ensures { result ≡ breaks self.now.retries self.now.past entry.now rule }
    {
        match entry {
            Entry::Request(request) => {
                let station = station_in(self.stations.as_slice(), request.address);
                broken_by(self.retries, &self.bus, station, request, rule)
            }
            Entry::PassedToken(to) => {
                let receiver = station_in(self.stations.as_slice(), *to);
                broken_by_token(receiver, rule)
            }
            Entry::Stray => broken_by_stray(&self.bus, rule),
        }
    }

    /// Returns the octets of the last SRD to the same station, with which the next entry is compared; None if there was
    /// none, or the entry is no request.
    pub fn srd_before(&self, entry: &Entry) -> Option<&[u8]>
        ensures { option_map (λ octets. octets.now) result ≡ srd_before self.now.past entry.now }
    {
        match entry {
            Entry::Request(request) => {
                station_in(self.stations.as_slice(), request.address).last_octets()
            }
            Entry::PassedToken(_) => None,
            Entry::Stray => None,
        }
    }

    /// Takes the next entry.
    pub fn take(&mut self, entry: &Entry)
        ensures { self.new ≡ record self.old { past = self.old.past ++ entry.now ∷ [] } }
    {
        self.past = self.past.followed_by(entry);
        self.bus.take(entry);
        take_at(self.stations.as_mut_slice(), entry);
    }
}

/// Returns what no entry left of each station. `AllocError` if memory runs out.
#[tactic(auto, unfolding(crate::specs::Judges::all_stations))]
fn new_stations(alloc: Global) -> Result<Vec<Station>, AllocError>
    ensures { IfOk result (λ stations. stations.items ≡ all_stations []) }
{
    let mut stations = Vec::with_capacity(alloc, STATIONS)?;
    for _address in 0..STATIONS {
        stations.push(Station::new())?;
    }
    Ok(stations)
}

/// Returns what the entries left of the station with this address.
fn station_in(stations: &[Station], address: u8) -> &Station
    requires { length stations.now ≡ 256 }
    ensures { (past : List Entries) → stations.now ≡ all_stations past → result.now ≡ station_of address past }
{
    &stations[usize::from(address)]
}

/// Takes the next entry at the station that it is sent to.
fn take_at(stations: &mut [Station], entry: &Entry)
    requires { length stations.old ≡ 256 }
    ensures { (past : List Entries) → stations.old ≡ all_stations past → stations.new ≡ all_stations (past ++ entry.now ∷ []) }
{
    match entry {
        Entry::Request(request) => stations[usize::from(request.address)].take(request),
        Entry::PassedToken(_) => {}
        Entry::Stray => {}
    }
}
