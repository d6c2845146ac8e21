//! The description of a slave.

use arrayvec::ArrayVec;
use dp_cfg::MOST_OCTETS;
use dp_sap::Lists;

/// How a slave's inputs are updated (own).
#[derive(Clone, Copy, Debug, PartialEq, Eq)]
pub enum Device {
    /// The inputs stay as they were set.
    Still,
    /// The inputs count up as one number.
    Counter,
    /// The inputs are the outputs.
    Mirror,
}

/// The largest number of configurations of a slave.
pub const MOST_CONFIGURATIONS: usize = 4;

/// The octets of a configuration, 0 to 244 of them (IEC 61158-6-3, configuration identifiers).
pub type Configuration = ArrayVec<u8, MOST_OCTETS>;

/// The description of one slave.
#[derive(Clone, Debug, Drop, PartialEq, Eq)]
pub struct SlaveSpec {
    /// Station address, 0 to 126.
    pub address: u8,
    /// Ident number.
    pub ident: u16,
    /// Its configurations, numbered from 0. A master chooses one by Chk_Cfg. Until then the first is
    /// in force.
    pub cfgs: ArrayVec<Configuration, MOST_CONFIGURATIONS>,
    /// The slave has a sync mode.
    pub sync: bool,
    /// The slave has a freeze mode.
    pub freeze: bool,
    /// The largest number of octets of user parameters that the slave takes, 0 to 237.
    pub user_max: u8,
    /// How its inputs are updated.
    pub device: Device,
    /// Which masters may set its parameters, and which may read its inputs and outputs.
    pub lists: Lists,
    /// The slave is fail-safe: once its data were cleared, it also takes an empty Data_Exchange,
    /// until data come, a master locks it or chooses another configuration, or it is released
    /// (IEC 61158-6-3, Global_Control request, Clear_Data; own in detail).
    pub failsafe: bool,
}
