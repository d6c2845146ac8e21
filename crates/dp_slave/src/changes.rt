//! What the slave's device, its application, an operator and time change.

ghost use Rattle.std.specs.Prelude.{◌≡◌, ◌↔◌, is_ok, length, IfErr, IsOk, OnOk, OnErr};
ghost use Rattle.dp_sap.specs.AccessTable.{is_in_table};
ghost use Rattle.dp_sap.specs.declared.fault.SapFault.{SapFault as PointFault};
ghost use Rattle.dp_slave.specs.SlaveRecord.{input_length};
ghost use Rattle.dp_slave.specs.SlaveParts.{with_slave};
ghost use Rattle.dp_slave.specs.Acts.{is_fed, is_marked, reports, runs_out, ticks};
ghost use Rattle.dp_slave.specs.Fields.{acted};

use crate::fault::InputFault;
use crate::slave::Slave;
use arrayvec::ArrayVec;
use dp_diag::MOST_EXTENDED;
use dp_sap::SapFault;

impl Slave {
    /// Sets the inputs, as the device does. Returns `WrongLength` exactly if the number of octets
    /// isn't the slave's number of inputs, and then nothing changes.
    #[tactic(auto, unfolding(crate::specs::Fields::acted))]
    pub fn input(&mut self, octets: &[u8]) -> Result<(), InputFault>
        ensures fits { IsOk result ↔ (length octets.now ≡ input_length self.old.slave) }
        ensures ok { OnOk result (self.new ≡ with_slave self.old (acted self.old.slave (is_fed octets.now))) }
        ensures err { OnErr result (self.new ≡ self.old) }
        ensures fault { IfErr result (λ fault. fault ≡ InputFault.WrongLength) }
    {
        if octets.len() != self.inputs.as_slice().len() {
            return Err(InputFault::WrongLength);
        }
        self.inputs.set(octets);
        Ok(())
    }

    /// Updates the diagnosis with what the application reports: Ext_Diag, Stat_Diag,
    /// Ext_Diag_Overflow and 0 to 238 extended octets. See [`dp_diag::Diag::update`].
    #[tactic(auto, unfolding(crate::specs::Fields::acted))]
    pub fn update_diag(
        &mut self,
        ext: bool,
        stat: bool,
        overflow: bool,
        octets: &ArrayVec<u8, MOST_EXTENDED>,
    )
        ensures { self.new ≡ with_slave self.old (acted self.old.slave (reports ext stat overflow octets.now.items)) }
    {
        self.diag.update(ext, stat, overflow, octets);
    }

    /// Marks a point as busy or as not busy; `None` is the default point. Returns `UnknownPoint`
    /// exactly for a point that is not in the access table, and then nothing changes.
    #[tactic(auto, unfolding(crate::specs::Fields::acted))]
    pub fn set_busy(&mut self, point: Option<u8>, busy: bool) -> Result<(), SapFault>
        ensures known { is_ok result ≡ is_in_table point }
        ensures ok { OnOk result (self.new ≡ with_slave self.old (acted self.old.slave (is_marked point busy))) }
        ensures err { OnErr result (self.new ≡ self.old) }
        ensures fault { IfErr result (λ fault. fault ≡ PointFault.UnknownPoint) }
    {
        self.points.set_busy(point, busy)
    }

    /// Advances time, in units of 10 ms. If its watchdog has no more than this time left, the slave
    /// is released; a watchdog with more loses this time. Returns true if the slave was released.
    #[tactic(auto, unfolding(crate::specs::Fields::acted, crate::specs::SlaveRecord::released))]
    pub fn tick(&mut self, time: u32) -> bool
        ensures slave { self.new ≡ with_slave self.old (acted self.old.slave (ticks time)) }
        ensures is_released { result ≡ runs_out time self.old.slave.left }
    {
        let Some(left) = self.left else {
            return false;
        };
        if left <= time {
            self.release();
            return true;
        }
        self.left = Some(left - time);
        false
    }
}
