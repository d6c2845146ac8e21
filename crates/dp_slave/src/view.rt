//! A slave as it is shown.

ghost use Rattle.std.specs.Prelude.{◌≡◌};
ghost use Rattle.dp_slave.specs.View.{view_of};

use crate::data_octets::DataOctets;
use crate::slave::Slave;
use arrayvec::ArrayVec;
use dp_diag::Diag;
use dp_prm::Prm;
use dp_sap::{MOST_DATA, State};

/// A slave as it is shown.
#[derive(Clone, Debug, Drop, PartialEq, Eq)]
pub struct SlaveView {
    /// Station address, 0 to 126.
    pub address: u8,
    /// Its state.
    pub state: State,
    /// The address of the master that holds it, 0 to 126, if one does.
    pub holder: Option<u8>,
    /// The place of the event that began its holder's hold; 0 if nobody holds it.
    pub since: u32,
    /// Min TSDR in bit times.
    pub min_tsdr: u8,
    /// The parameters of its holder.
    pub prm: Option<Prm>,
    /// The number of the configuration that its holder sent.
    pub cfg: Option<u8>,
    /// The number of the configuration whose lengths are in force, also while no master has sent one.
    pub shape: u8,
    /// The inputs of its device, 0 to 244 octets.
    pub inputs: ArrayVec<u8, MOST_DATA>,
    /// The inputs that a master sees.
    pub shown: ArrayVec<u8, MOST_DATA>,
    /// The outputs, 0 to 244 octets.
    pub outputs: ArrayVec<u8, MOST_DATA>,
    /// The data that came last, which differ from the outputs in sync mode.
    pub latest: ArrayVec<u8, MOST_DATA>,
    /// It is in sync mode.
    pub sync_mode: bool,
    /// It is in freeze mode.
    pub freeze_mode: bool,
    /// It is fail-safe and its data were cleared: it takes an empty Data_Exchange until data come, a
    /// master locks it or sends a configuration of another number, or it is released.
    pub cleared: bool,
    /// The time that its watchdog has left, in units of 10 ms; `None` if it is off.
    pub left: Option<u32>,
    /// Its diagnosis.
    pub diag: Diag,
}

impl Slave {
    /// Returns all that is shown of the slave.
    pub fn view(&self) -> SlaveView
        ensures { result ≡ view_of self.now.slave }
    {
        SlaveView {
            address: self.description.address,
            state: self.points.state(),
            holder: self.points.holder(),
            since: self.since,
            min_tsdr: self.min_tsdr,
            prm: copied(&self.prm),
            cfg: self.cfg,
            shape: self.shape,
            inputs: self.inputs.copied(),
            shown: self.shown().copied(),
            outputs: self.outputs.copied(),
            latest: self.latest.copied(),
            sync_mode: self.sync_mode,
            freeze_mode: self.freeze_mode,
            cleared: self.points.empty(),
            left: self.left,
            diag: self.diag.clone().unwrap(),
        }
    }
}

pub(crate) fn copied(prm: &Option<Prm>) -> Option<Prm>
    ensures { result ≡ prm.now }
{
    match prm {
        Some(prm) => Some(prm.clone().unwrap()),
        None => None,
    }
}
