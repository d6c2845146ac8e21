//! Whether a slave is one to which acts can have led.

ghost use Rattle.std.specs.Prelude.{◌≡◌, ◌==◌, is_some};
ghost use Rattle.dp_sap.specs.States.{is_in_data_exch, is_in_wait_prm};
ghost use Rattle.dp_slave.specs.SlaveRecord.{full_time};
ghost use Rattle.dp_slave.specs.Sound.{agree, are_zero, has_sound_data, has_sound_lock, has_sound_shape, has_zero_outputs, is_sound};

use crate::slave::Slave;
use dp_sap::State;

impl Slave {
    /// Returns whether state, holder, parameters and watchdog agree, its shape is one of its configurations and the
    /// one that its holder sent, and outputs and modes are as its state and its clearing say. A slave that acts made
    /// from its start is sound (see [`laws`](crate::laws)); one that was restored may not be.
    pub fn is_sound(&self) -> bool
        ensures { result ≡ is_sound self.now.slave }
    {
        self.has_sound_lock() && self.has_sound_shape() && self.has_sound_data()
    }

    /// Returns whether state, holder, parameters and watchdog agree.
    fn has_sound_lock(&self) -> bool
        ensures { result ≡ has_sound_lock self.now.slave }
    {
        let holder = self.points.holder();
        agree(self.is_waiting(), holder.is_none())
            && agree(self.prm.is_some(), holder.is_some())
            && agree(self.left.is_some(), self.has_watchdog())
    }

    /// Returns whether it is in Wait_Prm.
    pub(crate) fn is_waiting(&self) -> bool
        ensures { result ≡ is_in_wait_prm self.now.slave.state }
    {
        match self.points.state() {
            State::WaitPrm => true,
            State::WaitCfg => false,
            State::DataExch => false,
        }
    }

    /// Returns whether it is in Data_Exch.
    fn is_exchanging(&self) -> bool
        ensures { result ≡ is_in_data_exch self.now.slave.state }
    {
        match self.points.state() {
            State::WaitPrm => false,
            State::WaitCfg => false,
            State::DataExch => true,
        }
    }

    /// Returns whether its parameters ask for a watchdog.
    fn has_watchdog(&self) -> bool
        ensures { result ≡ is_some (full_time self.now.slave) }
    {
        match &self.prm {
            Some(prm) => prm.watchdog.is_some(),
            None => false,
        }
    }

    /// Returns whether the shape is one of its configurations, and the one that its holder sent if it sent one.
    fn has_sound_shape(&self) -> bool
        ensures { result ≡ has_sound_shape self.now.slave }
    {
        let sent = if self.is_exchanging() {
            Some(self.shape)
        } else {
            None
        };
        usize::from(self.shape) < self.configurations.len() && self.cfg == sent
    }

    /// Returns whether outputs and modes are as its state and its clearing say.
    fn has_sound_data(&self) -> bool
        ensures { result ≡ has_sound_data self.now.slave }
    {
        let (exchanging, zero) = (self.is_exchanging(), self.has_zero_outputs());
        let cleared = self.points.empty();
        (exchanging || zero && !self.sync_mode && !self.freeze_mode)
            && (!cleared || self.description.failsafe && exchanging && zero)
    }

    /// Returns whether outputs and the data that came last are zero.
    fn has_zero_outputs(&self) -> bool
        ensures { result ≡ has_zero_outputs self.now.slave }
    {
        are_zero(self.outputs.as_slice()) && are_zero(self.latest.as_slice())
    }
}

fn agree(one: bool, other: bool) -> bool
    ensures { result ≡ agree one other }
{
    if one { other } else { !other }
}

pub(crate) fn are_zero(octets: &[u8]) -> bool
    ensures { result ≡ are_zero octets.now }
{
    octets.iter().all(|octet| *octet == 0)
}
