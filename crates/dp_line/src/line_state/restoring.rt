//! A line that goes on from a world.

ghost use Rattle.std.specs.Prelude.{◌≡◌, ◌==◌, ℕ, List, true, is_some, map, not, find, None, IfSome, MatchResult};
ghost use Rattle.std.specs.List.{list_any};
ghost use Rattle.std.specs.Option.{option_copied, option_map_or};
ghost use Rattle.dp_slave.specs.SlaveRecord.{is_held};
ghost use Rattle.dp_slave.specs.Sound.{agree};
ghost use Rattle.dp_line.specs.World.{ascending, description_of, opening_fault};
ghost use Rattle.dp_line.specs.SoundWorld.{have_own_places, has_place_of_chk_cfg, has_sound_count, has_sound_end, is_reachable_on, is_slave_on, is_sound_on, restore_fault};
ghost use Rattle.dp_line.specs.Stations.{restored_world, slaves_of};

use super::LineState;
use crate::description::LineSpec;
use crate::fault::RestoreFault;
use crate::needed_places::have_places;
use crate::remembered::is_memory_of;
use crate::stations::Stations;
use dp_sap::State;
use dp_slave::Slave;
use std::alloc::Global;

impl LineState {
    /// Returns an endless line of a description that goes on from a world: `count` events are recorded, it is halted
    /// or not, and these are its slaves in ascending order of address, whatever lists they are in. Requires that a
    /// line can be opened from the description, and that each of its slaves is there.
    ///
    /// Returns `UnsoundSlave` exactly if a slave isn't one of such a line; else `SharedPlace` exactly if two were
    /// locked at one place; else `UnsoundCount` exactly if the places so far are too few for the holds, or the halt
    /// doesn't agree with slaves and count; else
    /// `OutOfMemory` if there is not enough memory (own).
    pub fn restore(
        alloc: Global,
        line: &LineSpec,
        count: u32,
        halted: bool,
        slaves: &[Slave],
    ) -> Result<LineState, RestoreFault>
        requires opens { opening_fault (description_of line.now) ≡ None }
        requires slaves { map (λ p. p.slave.description) slaves.now ≡ ascending (description_of line.now).slaves }
        ensures refused { IfSome (restore_fault (restored_world line.now.masters.items count halted slaves.now)) (λ fault. result ≡ Err fault) }
        ensures restored { restore_fault (restored_world line.now.masters.items count halted slaves.now) ≡ None
            → MatchResult result (λ state. state ≡ record { world = restored_world line.now.masters.items count halted slaves.now; last_walk = 0 })
            (λ fault. fault ≡ RestoreFault.OutOfMemory) }
    {
        if let Some(fault) = restore_fault(&line.masters, count, halted, slaves) {
            return Err(fault);
        }
        let stations = Stations::restore(alloc, line, slaves).map_err(
            |_| RestoreFault::OutOfMemory,
        )?;
        Ok(LineState {
            capacity: u32::MAX,
            count,
            halted,
            last_walk: 0,
            stations,
        })
    }
}

/// Returns why no line goes on from a world; `None` if one does.
fn restore_fault(masters: &[u8], count: u32, halted: bool, slaves: &[Slave]) -> Option<RestoreFault>
    ensures { result ≡ restore_fault (restored_world masters.now count halted slaves.now) }
{
    if let Some(slave) = unsound(masters, count, slaves) {
        return Some(RestoreFault::UnsoundSlave(slave.address()));
    }
    if !have_own_places(slaves) {
        return Some(RestoreFault::SharedPlace);
    }
    if !has_sound_count(count, halted, slaves) {
        return Some(RestoreFault::UnsoundCount);
    }
    None
}

/// Returns the first slave that isn't one of a line with these masters, behind this place.
fn unsound<'a>(masters: &[u8], count: u32, slaves: &'a [Slave]) -> Option<&'a Slave>
    ensures { option_copied result ≡ find (λ p. not (is_slave_on masters.now count p.slave)) slaves.now }
{
    slaves
        .iter()
        .find(|slave| !is_slave_on(masters, count, slave))
}

/// Returns whether a slave is one of a line with these masters, behind this place.
fn is_slave_on(masters: &[u8], count: u32, slave: &Slave) -> bool
    ensures { result ≡ is_slave_on masters.now count slave.now.slave }
{
    is_sound_on(masters, count, slave) && is_reachable_on(masters, count, slave)
}

/// Returns whether the events of a line with these masters, up to this place, can have led to a slave, as far as
/// single fields show it.
fn is_reachable_on(masters: &[u8], count: u32, slave: &Slave) -> bool
    ensures { result ≡ is_reachable_on masters.now count slave.now.slave }
{
    slave.is_reachable()
        && has_place_of_chk_cfg(count, slave)
        && is_memory_of(masters, slave, slave.memory().entries())
}

/// Returns whether a slave is outside Data_Exch or its lock is before this place, which is the last one so far.
fn has_place_of_chk_cfg(count: u32, slave: &Slave) -> bool
    ensures { result ≡ has_place_of_chk_cfg count slave.now.slave }
{
    match slave.state() {
        State::WaitPrm => true,
        State::WaitCfg => true,
        State::DataExch => slave.since() < count,
    }
}

/// Returns whether state, hold and data of a slave agree, its holder is one of the masters, and the place of its lock
/// is not behind this one.
fn is_sound_on(masters: &[u8], count: u32, slave: &Slave) -> bool
    ensures { result ≡ is_sound_on masters.now count slave.now.slave }
{
    slave.is_sound()
        && is_master_or_none(masters, slave.holder())
        && slave.since() <= count
        && agree(slave.since() == 0, slave.holder().is_none())
}

/// Returns whether the address is that of a master, if there is one.
fn is_master_or_none(masters: &[u8], address: Option<u8>) -> bool
    ensures { result ≡ option_map_or (λ holder. list_any (λ other. other == holder) masters.now) address true }
{
    match address {
        Some(address) => has_address(masters, address),
        None => true,
    }
}

fn has_address(masters: &[u8], address: u8) -> bool
    ensures { result ≡ list_any (λ other. other == address) masters.now }
{
    masters.iter().any(|other| *other == address)
}

fn agree(one: bool, other: bool) -> bool
    ensures { result ≡ agree one other }
{
    if one { other } else { !other }
}

/// Returns whether no two slaves were locked at one place.
fn have_own_places(slaves: &[Slave]) -> bool
    ensures { result ≡ have_own_places (slaves_of slaves.now) }
{
    match slaves {
        [] => true,
        [first, others @ ..] => {
            (first.since() == 0 || !has_place(others, first.since())) && have_own_places(others)
        }
    }
}

/// Returns whether one of the slaves was locked at this place.
fn has_place(slaves: &[Slave], place: u32) -> bool
    ensures { result ≡ list_any (λ other. other.since == place) (slaves_of slaves.now) }
{
    any_locked_at(slaves, place)
}

fn any_locked_at(slaves: &[Slave], place: u32) -> bool
    ensures { result ≡ list_any (λ p. p.slave.since == place) slaves.now }
{
    slaves.iter().any(|slave| slave.since() == place)
}

/// Returns whether the places are enough for the holds of the slaves, and the halt agrees with the slaves and the count.
fn has_sound_count(count: u32, halted: bool, slaves: &[Slave]) -> bool
    ensures { (masters : List ℕ) → result ≡ has_sound_count (restored_world masters count halted slaves.now) }
{
    have_places(count, slaves) && has_sound_end(count, halted, slaves)
}

/// Returns whether the halt agrees with the slaves and the count.
fn has_sound_end(count: u32, halted: bool, slaves: &[Slave]) -> bool
    ensures { (masters : List ℕ) → result ≡ has_sound_end (restored_world masters count halted slaves.now) }
{
    if halted {
        !is_one_held(slaves) && count >= 1
    } else {
        count < u32::MAX
    }
}

/// Returns whether a master holds one of the slaves.
fn is_one_held(slaves: &[Slave]) -> bool
    ensures { result ≡ list_any is_held (slaves_of slaves.now) }
{
    any_held(slaves)
}

fn any_held(slaves: &[Slave]) -> bool
    ensures { result ≡ list_any (λ p. is_some p.slave.holder) slaves.now }
{
    slaves.iter().any(|slave| slave.holder().is_some())
}
