//! Whether a slave is one to which acts can have led, by fields that a sound slave leaves open.

ghost use Rattle.std.specs.Prelude.{◌≡◌, ◌≤◌, ◌==◌, true};
ghost use Rattle.std.specs.List.{list_any};
ghost use Rattle.std.specs.Option.{option_map_or};
ghost use Rattle.dp_cfg.specs.Choosing.{same_octets};
ghost use Rattle.dp_cfg.specs.Reading.{input_octets, output_octets};
ghost use Rattle.dp_sap.specs.States.{is_in_wait_prm};
ghost use Rattle.dp_slave.specs.SlaveRecord.{full_time};
ghost use Rattle.dp_slave.specs.Fields.{freeze_is_asked, sync_is_asked};
ghost use Rattle.dp_slave.specs.Reachable.{has_asked_modes, has_choosable_shape, has_configuration, has_factor, has_faults, has_inputs, has_listed_holder, has_min_tsdr, has_outputs, has_put_out, has_reachable_data, has_reachable_hold, has_sound_faults, has_sound_frozen_inputs, has_taken_prm, has_time_left, has_unsupported, is_factor, is_left_of, is_reachable, is_watchdog_time, takes};

use crate::description::SlaveSpec;
use crate::slave::Slave;
use crate::soundness::are_zero;
use dp_cfg::{CfgIds, choose};
use dp_diag::Diag;
use dp_prm::Prm;
use dp_sap::SET_PRM;

/// The largest factor of a watchdog time (IEC 61158-6-3, Set_Prm request, WD_Fact_1 and WD_Fact_2).
const MOST_FACTOR: u32 = 255;

impl Slave {
    /// Returns whether one of its configurations has this number of inputs.
    pub fn has_inputs(&self, count: usize) -> bool
        ensures { result ≡ has_inputs self.now.slave.description count }
    {
        have_inputs(&self.configurations, count)
    }

    /// Returns whether one of its configurations has this number of outputs.
    pub fn has_outputs(&self, count: usize) -> bool
        ensures { result ≡ has_outputs self.now.slave.description count }
    {
        have_outputs(&self.configurations, count)
    }

    /// Returns whether these are the octets of one of its configurations.
    pub fn has_configuration(&self, octets: &[u8]) -> bool
        ensures { result ≡ has_configuration self.now.slave.description octets.now }
    {
        choose(&self.configurations, octets).is_some()
    }

    /// Returns whether acts can have led to the slave, as far as single fields show it: its holder may lock it, it
    /// takes its parameters, its watchdog has time left, a mode that is on was asked for, it has put out its data, its
    /// frozen inputs and its faults are possible, and a master can choose its shape. Every slave to which acts led
    /// from its start passes (see [`laws`](crate::laws)). [`Slave::is_sound`] checks the other fields.
    pub fn is_reachable(&self) -> bool
        ensures { result ≡ is_reachable self.now.slave }
    {
        self.has_reachable_hold()
            && self.has_reachable_data()
            && self.has_sound_faults()
            && self.has_choosable_shape()
    }

    /// Returns whether holder, parameters, watchdog and min TSDR can have come from Set_Prm.
    fn has_reachable_hold(&self) -> bool
        ensures { result ≡ has_reachable_hold self.now.slave }
    {
        self.has_listed_holder()
            && self.has_taken_prm()
            && self.has_time_left()
            && self.min_tsdr >= 1
    }

    /// Returns whether its holder is a master that may lock it.
    fn has_listed_holder(&self) -> bool
        ensures { result ≡ has_listed_holder self.now.slave }
    {
        match self.points.holder() {
            Some(holder) => self.points.listed(Some(SET_PRM), holder),
            None => true,
        }
    }

    /// Returns whether it takes the parameters that it has.
    fn has_taken_prm(&self) -> bool
        ensures { result ≡ has_taken_prm self.now.slave }
    {
        match &self.prm {
            Some(prm) => takes(&self.description, prm),
            None => true,
        }
    }

    /// Returns whether a watchdog that runs has at least one unit left and at most its full time.
    fn has_time_left(&self) -> bool
        ensures { result ≡ has_time_left self.now.slave }
    {
        match self.left {
            Some(left) => is_left_of(left, self.full_time()),
            None => true,
        }
    }

    /// Returns the full time of its watchdog, in units of 10 ms.
    fn full_time(&self) -> Option<u32>
        ensures { result ≡ full_time self.now.slave }
    {
        match &self.prm {
            Some(prm) => prm.watchdog,
            None => None,
        }
    }

    /// Returns whether modes, outputs and frozen inputs can have come from data and Global_Control.
    fn has_reachable_data(&self) -> bool
        ensures { result ≡ has_reachable_data self.now.slave }
    {
        self.has_asked_modes() && self.has_put_out() && self.has_sound_frozen_inputs()
    }

    /// Returns whether its parameters asked for each mode that is on.
    fn has_asked_modes(&self) -> bool
        ensures { result ≡ has_asked_modes self.now.slave }
    {
        (!self.sync_mode || self.sync_is_asked()) && (!self.freeze_mode || self.freeze_is_asked())
    }

    /// Returns whether its parameters ask for Sync.
    fn sync_is_asked(&self) -> bool
        ensures { result ≡ sync_is_asked self.now.slave }
    {
        match &self.prm {
            Some(prm) => prm.sync_req,
            None => false,
        }
    }

    /// Returns whether its parameters ask for Freeze.
    fn freeze_is_asked(&self) -> bool
        ensures { result ≡ freeze_is_asked self.now.slave }
    {
        match &self.prm {
            Some(prm) => prm.freeze_req,
            None => false,
        }
    }

    /// Returns whether it is in sync mode or its outputs are the data that came last.
    fn has_put_out(&self) -> bool
        ensures { result ≡ has_put_out self.now.slave }
    {
        self.sync_mode || are_equal(self.outputs.as_slice(), self.latest.as_slice())
    }

    /// Returns whether it has a freeze mode or its frozen inputs are zero.
    fn has_sound_frozen_inputs(&self) -> bool
        ensures { result ≡ has_sound_frozen_inputs self.now.slave }
    {
        self.description.freeze || are_zero(self.frozen_inputs.as_slice())
    }

    /// Returns whether its diagnosis shows only faults that it can have in its state, and no two that exclude each
    /// other.
    fn has_sound_faults(&self) -> bool
        ensures { result ≡ has_sound_faults self.now.slave }
    {
        (self.is_waiting() || !has_faults(&self.diag))
            && !(self.diag.prm_fault && self.diag.cfg_fault)
            && (!self.diag.not_supported || self.has_unsupported())
    }

    /// Returns whether it shows a parameter fault and lacks Sync or Freeze.
    fn has_unsupported(&self) -> bool
        ensures { result ≡ has_unsupported self.now.slave }
    {
        self.diag.prm_fault && !(self.description.sync && self.description.freeze)
    }

    /// Returns whether Chk_Cfg with the octets of its shape chooses its shape.
    fn has_choosable_shape(&self) -> bool
        ensures { result ≡ has_choosable_shape self.now.slave }
    {
        choose(&self.configurations, self.get_cfg()) == Some(self.shape)
    }
}

fn have_inputs(configurations: &[CfgIds], count: usize) -> bool
    ensures { result ≡ list_any (λ octets. input_octets octets == count) configurations.now }
{
    configurations.iter().any(|configuration| usize::from(configuration.input_len()) == count)
}

fn have_outputs(configurations: &[CfgIds], count: usize) -> bool
    ensures { result ≡ list_any (λ octets. output_octets octets == count) configurations.now }
{
    configurations.iter().any(|configuration| usize::from(configuration.output_len()) == count)
}

/// Returns whether a slave of this description takes the parameters.
fn takes(description: &SlaveSpec, prm: &Prm) -> bool
    ensures { result ≡ takes description.now prm.now }
{
    is_watchdog_time_or_none(prm.watchdog)
        && (!prm.sync_req || description.sync)
        && (!prm.freeze_req || description.freeze)
        && prm.user.len() <= usize::from(description.user_max)
}

/// Returns whether the time, if there is one, is a watchdog time.
fn is_watchdog_time_or_none(time: Option<u32>) -> bool
    ensures { result ≡ option_map_or is_watchdog_time time true }
{
    match time {
        Some(units) => units >= 1 && has_factor(units, MOST_FACTOR),
        None => true,
    }
}

/// Returns whether one of the factors from 1 to `most` divides the time, with a quotient of at most 255.
#[tactic(auto, unfolding(crate::specs::Reachable::has_factor))]
fn has_factor(units: u32, most: u32) -> bool
    ensures { result ≡ has_factor units most }
{
    most != 0 && (is_factor(units, most) || has_factor(units, most - 1))
}

/// Returns whether the factor divides the time, with a quotient of at most 255.
fn is_factor(units: u32, factor: u32) -> bool
    requires { 1 ≤ factor }
    ensures { result ≡ is_factor units factor }
{
    units % factor == 0 && units / factor <= MOST_FACTOR
}

/// Returns whether this is at least one unit, and at most the full time.
fn is_left_of(left: u32, full: Option<u32>) -> bool
    ensures { result ≡ is_left_of left full }
{
    match full {
        Some(units) => left >= 1 && left <= units,
        None => false,
    }
}

/// Returns whether the diagnosis shows a parameter fault or a configuration fault.
fn has_faults(diag: &Diag) -> bool
    ensures { result ≡ has_faults diag.now }
{
    diag.prm_fault || diag.cfg_fault
}

fn are_equal(octets: &[u8], others: &[u8]) -> bool
    ensures { result ≡ same_octets octets.now others.now }
{
    octets == others
}
