//! The parts of a Global_Control (IEC 61158-6-3, Global_Control request).

ghost use Rattle.std.specs.Prelude.{◌≡◌};
ghost use Rattle.dp_slave.specs.SlaveParts.{with_slave};
ghost use Rattle.dp_slave.specs.Controls.{emptied, frozen, retriggered, synced, unfrozen, unsynced};

use crate::slave::Slave;

impl Slave {
    /// Does Clear_Data: sets outputs and latest data to zero. A fail-safe slave takes an empty
    /// Data_Exchange from now on.
    pub fn clear_data(&mut self)
        ensures { self.new ≡ with_slave self.old (emptied self.old.slave) }
    {
        self.outputs.clear();
        self.latest.clear();
        if self.description.failsafe {
            self.mark_cleared(true);
        }
    }

    /// Does Unsync: ends sync mode, and puts out the latest data.
    pub fn unsync(&mut self)
        ensures { self.new ≡ with_slave self.old (unsynced self.old.slave) }
    {
        self.sync_mode = false;
        self.outputs.set(self.latest.as_slice());
    }

    /// Does Sync, if the parameters asked for Sync: puts out the latest data, and starts sync mode.
    pub fn sync(&mut self)
        ensures { self.new ≡ with_slave self.old (synced self.old.slave) }
    {
        if self.prm.as_ref().is_some_and(|prm| prm.sync_req) {
            self.sync_mode = true;
            self.outputs.set(self.latest.as_slice());
        }
    }

    /// Does Unfreeze: ends freeze mode.
    pub fn unfreeze(&mut self)
        ensures { self.new ≡ with_slave self.old (unfrozen self.old.slave) }
    {
        self.freeze_mode = false;
    }

    /// Does Freeze, if the parameters asked for Freeze: copies the inputs, and starts freeze mode.
    pub fn freeze(&mut self)
        ensures { self.new ≡ with_slave self.old (frozen self.old.slave) }
    {
        if self.prm.as_ref().is_some_and(|prm| prm.freeze_req) {
            self.freeze_mode = true;
            self.frozen_inputs.set(self.inputs.as_slice());
        }
    }

    /// Sets the watchdog, if it runs, to its full time again.
    pub fn retrigger(&mut self)
        ensures { self.new ≡ with_slave self.old (retriggered self.old.slave) }
    {
        self.left = self.left_again();
    }
}
