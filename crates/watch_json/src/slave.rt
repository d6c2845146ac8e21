//! A slave as JSON.

ghost use Rattle.std.specs.Prelude.{◌≡◌, ◌++◌, [], codes, map, filter, Some};
ghost use Rattle.std.specs.Fmt.{WritesOnOk};
ghost use Rattle.dp_sap.specs.AccessTable.{is_busy};
ghost use Rattle.dp_slave.specs.SlaveRecord.{group_of};
ghost use Rattle.explain_texts.specs.JsonValues.{each_behind, number_json};
ghost use Rattle.watch_json.specs.Slaves.{abilities_json, access_json, all_points, busy_json, full_time, hold_json, ident_json, release_json, slave_json, state_json, station_json};

use crate::slave_data::Content;
use crate::values::{MasterList, long};
use dp_sap::{
    CHK_CFG, GET_CFG, GLOBAL_CONTROL, Lists, Points, RD_INP, RD_OUTP, SET_PRM, SLAVE_DIAG,
};
use dp_slave::{Slave, SlaveSpec, SlaveView};
use explain_events::{IdentWords, Release, state_name};
use explain_texts::{NumberOrNull, Quoted, truth_name};
use std::fmt;

/// The points that may be marked busy, in the order of the access table.
const ALL_POINTS: [Option<u8>; 8] = [
    None,
    Some(RD_INP),
    Some(RD_OUTP),
    Some(GLOBAL_CONTROL),
    Some(GET_CFG),
    Some(SLAVE_DIAG),
    Some(SET_PRM),
    Some(CHK_CFG),
];

/// The end of the last hold of a slave; `null` if no entry that was taken released it.
#[derive(Clone, Copy)]
struct ReleaseOrNull(Option<Release>);

impl fmt::Display for ReleaseOrNull {
    ghost output = { λ s. Some (release_json s.0) };

    fn fmt<W: fmt::Write>(&self, f: &mut fmt::Formatter<W>) -> fmt::Result {
        match self.0 {
            None => f.write_str("null"),
            Some(release) => {
                let place = release.place;
                let ending = Quoted(release.ending.name().as_bytes());
                write!(f, "{{\"place\":{place},\"ending\":{ending}}}")
            }
        }
    }
}

/// An ident number, as a string of four hex digits.
#[derive(Clone, Copy)]
struct Ident(u16);

impl fmt::Display for Ident {
    ghost output = { λ s. Some (ident_json s.0) };

    #[tactic(auto, unfolding(crate::specs::Slaves::ident_json))]
    fn fmt<W: fmt::Write>(&self, f: &mut fmt::Formatter<W>) -> fmt::Result {
        let ident = IdentWords(self.0);
        write!(f, "\"{ident}\"")
    }
}

/// The address, the ident number, the state and the holder.
#[derive(Clone, Copy)]
struct Station<'a> {
    spec: &'a SlaveSpec,
    slave: &'a SlaveView,
}

impl<'a> fmt::Display for Station<'a> {
    ghost output = { λ s. Some (station_json s.spec.now s.slave.now) };

    #[tactic(auto, unfolding(crate::specs::Slaves::station_json))]
    fn fmt<W: fmt::Write>(&self, f: &mut fmt::Formatter<W>) -> fmt::Result {
        let address = self.slave.address;
        let ident = Ident(self.spec.ident);
        let state = Quoted(state_name(self.slave.state).as_bytes());
        let holder = NumberOrNull(long(self.slave.holder));
        let since = self.slave.since;
        write!(
            f,
            "\"address\":{address},\"ident\":{ident},\"state\":{state},\"holder\":{holder},\"since\":{since}"
        )
    }
}

/// Returns a time as a number of JSON.
fn long_time(units: Option<u32>) -> Option<u64>
    ensures { result ≡ units }
{
    match units {
        Some(units) => Some(u64::from(units)),
        None => None,
    }
}

/// Returns the full time of the watchdog of a slave, in units of 10 ms; None if it has no parameters, or its watchdog is off.
fn full_time(slave: &SlaveView) -> Option<u32>
    ensures { result ≡ full_time slave.now }
{
    match &slave.prm {
        Some(prm) => prm.watchdog,
        None => None,
    }
}

/// The last release, the watchdog and the parameters.
#[derive(Clone, Copy)]
struct Hold<'a> {
    release: Option<Release>,
    group: u8,
    slave: &'a SlaveView,
}

impl<'a> fmt::Display for Hold<'a> {
    ghost output = { λ s. Some (hold_json s.release s.group s.slave.now) };

    #[tactic(auto, unfolding(crate::specs::Slaves::hold_json))]
    fn fmt<W: fmt::Write>(&self, f: &mut fmt::Formatter<W>) -> fmt::Result {
        let release = ReleaseOrNull(self.release);
        let left = NumberOrNull(long_time(self.slave.left));
        let full = NumberOrNull(long_time(full_time(self.slave)));
        let min_tsdr = self.slave.min_tsdr;
        let group = self.group;
        write!(
            f,
            "\"release\":{release},\"left\":{left},\"full\":{full},\"min_tsdr\":{min_tsdr},\"group\":{group}"
        )
    }
}

/// The state of a slave, and what follows from its parameters.
#[derive(Clone, Copy)]
struct State<'a> {
    release: Option<Release>,
    spec: &'a SlaveSpec,
    slave: &'a Slave,
}

impl<'a> fmt::Display for State<'a> {
    ghost output = { λ s. Some (state_json s.release s.spec.now s.slave.now.slave) };

    #[tactic(auto, unfolding(crate::specs::Slaves::state_json))]
    fn fmt<W: fmt::Write>(&self, f: &mut fmt::Formatter<W>) -> fmt::Result {
        let view = self.slave.view();
        let station = Station {
            spec: self.spec,
            slave: &view,
        };
        let hold = Hold {
            release: self.release,
            group: self.slave.group(),
            slave: &view,
        };
        write!(f, "{station},{hold}")
    }
}

/// The points that are marked busy, with commas between; the default point is `null`.
#[derive(Clone, Copy)]
struct EachBusy<'a>(&'a Points);

impl<'a> fmt::Display for EachBusy<'a> {
    ghost output = { λ s. Some (each_behind [] (map number_json (filter (is_busy s.0.now.busy) all_points))) };

    fn fmt<W: fmt::Write>(&self, f: &mut fmt::Formatter<W>) -> fmt::Result {
        write_busy(f, "", self.0, &ALL_POINTS)
    }
}

/// Writes those of these points that are marked busy, the first one after this separator.
fn write_busy<W: fmt::Write>(
    f: &mut fmt::Formatter<W>,
    separator: &str,
    points: &Points,
    numbers: &[Option<u8>],
) -> fmt::Result
    ensures { WritesOnOk W.Write.write_str_gives f.old result
        (each_behind separator.now (map number_json (filter (is_busy points.now.busy) numbers.now))) f.new }
{
    let [number, others @ ..] = numbers else {
        return Ok(());
    };
    if !points.find(*number).busy {
        return write_busy(f, separator, points, others);
    }
    let number = NumberOrNull(long(*number));
    write!(f, "{separator}{number}")?;
    write_busy(f, ",", points, others)
}

/// The points that are marked busy, as an array.
#[derive(Clone, Copy)]
struct Busy<'a>(&'a Points);

impl<'a> fmt::Display for Busy<'a> {
    ghost output = { λ s. Some (busy_json s.0.now.busy) };

    #[tactic(auto, unfolding(crate::specs::Slaves::busy_json, explain_texts::specs::JsonValues::array_json))]
    fn fmt<W: fmt::Write>(&self, f: &mut fmt::Formatter<W>) -> fmt::Result {
        let points = EachBusy(self.0);
        write!(f, "[{points}]")
    }
}

/// SenderAndReceiver may use a slave.
#[derive(Clone, Copy)]
struct Access<'a> {
    points: &'a Points,
    lists: &'a Lists,
}

impl<'a> fmt::Display for Access<'a> {
    ghost output = { λ s. Some (access_json s.points.now.busy s.lists.now) };

    #[tactic(auto, unfolding(crate::specs::Slaves::access_json))]
    fn fmt<W: fmt::Write>(&self, f: &mut fmt::Formatter<W>) -> fmt::Result {
        let busy = Busy(self.points);
        let lockers = MasterList(&self.lists.lockers);
        let readers = MasterList(&self.lists.readers);
        write!(
            f,
            "\"busy\":{busy},\"lockers\":{lockers},\"readers\":{readers}"
        )
    }
}

/// What a slave can do.
#[derive(Clone, Copy)]
struct Abilities<'a>(&'a SlaveSpec);

impl<'a> fmt::Display for Abilities<'a> {
    ghost output = { λ s. Some (abilities_json s.0.now) };

    #[tactic(auto, unfolding(crate::specs::Slaves::abilities_json))]
    fn fmt<W: fmt::Write>(&self, f: &mut fmt::Formatter<W>) -> fmt::Result {
        let sync = truth_name(self.0.sync);
        let freeze = truth_name(self.0.freeze);
        let failsafe = truth_name(self.0.failsafe);
        write!(
            f,
            "\"has_sync\":{sync},\"has_freeze\":{freeze},\"failsafe\":{failsafe}"
        )
    }
}

/// A slave of a line.
#[derive(Clone, Copy)]
pub(crate) struct SlaveJson<'a> {
    /// Its last release; None if no entry that was taken released it.
    pub(crate) release: Option<Release>,
    pub(crate) spec: &'a SlaveSpec,
    pub(crate) slave: &'a Slave,
}

impl<'a> fmt::Display for SlaveJson<'a> {
    ghost output = { λ s. Some (slave_json s.release s.spec.now s.slave.now.slave) };

    #[tactic(auto, unfolding(crate::specs::Slaves::slave_json))]
    fn fmt<W: fmt::Write>(&self, f: &mut fmt::Formatter<W>) -> fmt::Result {
        let view = self.slave.view();
        let state = State {
            release: self.release,
            spec: self.spec,
            slave: self.slave,
        };
        let content = Content(&view);
        let access = Access {
            points: self.slave.points(),
            lists: &self.spec.lists,
        };
        let abilities = Abilities(self.spec);
        write!(f, "{{{state},{content},{access},{abilities}}}")
    }
}
