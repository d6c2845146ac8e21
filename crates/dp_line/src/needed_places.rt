//! Whether the places of a line are enough for the holds of its slaves.

ghost use Rattle.std.specs.Prelude.{◌≡◌};
ghost use Rattle.std.specs.List.{list_all};
ghost use Rattle.dp_line.specs.NeededPlaces.{has_room_from, have_places, have_room, needs_from};
ghost use Rattle.dp_line.specs.Stations.{slaves_of};

use dp_sap::State;
use dp_slave::Slave;

/// Returns whether from each lock on there are enough places, up to this one, for the locks of the slaves and for the
/// Chk_Cfg that each slave in Data_Exch had after its lock.
pub(crate) fn have_places(count: u32, slaves: &[Slave]) -> bool
    ensures { result ≡ have_places count (slaves_of slaves.now) }
{
    all_have_room(count, slaves, slaves)
}

/// Returns whether from the lock of each of these slaves on there are enough places for all slaves.
fn all_have_room(count: u32, all: &[Slave], slaves: &[Slave]) -> bool
    ensures { result ≡ list_all (has_room_from count (slaves_of all.now)) (slaves_of slaves.now) }
{
    match slaves {
        [] => true,
        [first, others @ ..] => {
            has_room_from(count, all, first) && all_have_room(count, all, others)
        }
    }
}

/// Returns whether nobody holds the slave, or from its lock on there are enough places for all slaves.
fn has_room_from(count: u32, slaves: &[Slave], slave: &Slave) -> bool
    ensures { result ≡ has_room_from count (slaves_of slaves.now) slave.now.slave }
{
    let since = slave.since();
    slave.holder().is_none()
        || since <= count && have_room(since, u64::from(count - since) + 1, slaves)
}

/// Returns whether this number of places, of which the first is `place`, is enough for the slaves.
fn have_room(place: u32, room: u64, slaves: &[Slave]) -> bool
    ensures { result ≡ have_room place room (slaves_of slaves.now) }
{
    match slaves {
        [] => true,
        [first, others @ ..] => {
            let needed = needs_from(place, first);
            needed <= room && have_room(place, room - needed, others)
        }
    }
}

/// Returns how many places the slave needs from this one on.
fn needs_from(place: u32, slave: &Slave) -> u64
    ensures { result ≡ needs_from place slave.now.slave }
{
    if slave.holder().is_none() || slave.since() < place {
        return 0;
    }
    match slave.state() {
        State::WaitPrm => 1,
        State::WaitCfg => 1,
        State::DataExch => 2,
    }
}
