//! The fields of a slave, read without a copy of it.

ghost use Rattle.std.specs.Prelude.{◌≡◌, ◌≤◌, length};
ghost use Rattle.std.specs.Option.{option_copied};
ghost use Rattle.dp_sap.specs.AccessTable.{most_data};

use crate::description::SlaveSpec;
use crate::slave::Slave;
use dp_diag::Diag;
use dp_prm::Prm;
use dp_sap::State;

impl Slave {
    /// Returns its description.
    pub fn description(&self) -> &SlaveSpec
        ensures { result.now ≡ self.now.slave.description }
    {
        &self.description
    }

    /// Returns its state.
    pub fn state(&self) -> State
        ensures { result ≡ self.now.slave.state }
    {
        self.points.state()
    }

    /// Returns the address of the master that holds it, 0 to 126, if one does.
    pub fn holder(&self) -> Option<u8>
        ensures { result ≡ self.now.slave.holder }
    {
        self.points.holder()
    }

    /// Returns the place of the event that began its holder's hold; 0 if nobody holds it (own).
    pub fn since(&self) -> u32
        ensures { result ≡ self.now.slave.since }
    {
        self.since
    }

    /// Returns its min TSDR in bit times.
    pub fn min_tsdr(&self) -> u8
        ensures { result ≡ self.now.slave.min_tsdr }
    {
        self.min_tsdr
    }

    /// Returns the parameters of its holder.
    pub fn parameters(&self) -> Option<&Prm>
        ensures { option_copied result ≡ self.now.slave.prm }
    {
        self.prm.as_ref()
    }

    /// Returns the number of the configuration whose lengths are in force, also while no master has sent one.
    pub fn shape(&self) -> u8
        ensures { result ≡ self.now.slave.shape }
    {
        self.shape
    }

    /// Returns the number of the configuration that its holder sent.
    pub fn configuration(&self) -> Option<u8>
        ensures { result ≡ self.now.slave.cfg }
    {
        self.cfg
    }

    /// Returns the inputs of its device, 0 to 244 octets.
    pub fn inputs(&self) -> &[u8]
        ensures value { result.now ≡ self.now.slave.inputs }
        ensures most { length result.now ≤ most_data }
    {
        self.inputs.as_slice()
    }

    /// Returns the frozen inputs, as the last Freeze took them, 0 to 244 octets.
    pub fn frozen_inputs(&self) -> &[u8]
        ensures value { result.now ≡ self.now.slave.frozen_inputs }
        ensures most { length result.now ≤ most_data }
    {
        self.frozen_inputs.as_slice()
    }

    /// Returns the data that came last, 0 to 244 octets, which differ from the outputs in sync mode.
    pub fn latest(&self) -> &[u8]
        ensures value { result.now ≡ self.now.slave.latest }
        ensures most { length result.now ≤ most_data }
    {
        self.latest.as_slice()
    }

    /// Returns the time that its watchdog has left, in units of 10 ms; `None` if it is off.
    pub fn left(&self) -> Option<u32>
        ensures { result ≡ self.now.slave.left }
    {
        self.left
    }

    /// Returns its diagnosis.
    pub fn diag(&self) -> &Diag
        ensures { result.now ≡ self.now.slave.diag }
    {
        &self.diag
    }

    /// Returns whether it is in freeze mode.
    pub fn is_in_freeze_mode(&self) -> bool
        ensures { result ≡ self.now.slave.freeze_mode }
    {
        self.freeze_mode
    }

    /// Returns whether it is in sync mode.
    pub fn is_in_sync_mode(&self) -> bool
        ensures { result ≡ self.now.slave.sync_mode }
    {
        self.sync_mode
    }

    /// Returns whether it is fail-safe and its data were cleared (see [`SlaveView::cleared`](crate::SlaveView)).
    pub fn is_cleared(&self) -> bool
        ensures { result ≡ self.now.slave.cleared }
    {
        self.points.empty()
    }
}
