//! The states of a DP slave.

ghost use Rattle.std.specs.Prelude.{◌≡◌};
ghost use Rattle.dp_sap.specs.Names.{state_name};

/// The state of a DP slave (IEC 61158-6-3, slave state machine).
#[derive(Clone, Copy, Debug, PartialEq, Eq)]
pub enum State {
    /// Wait_Prm: no master holds the slave, and it waits for its parameters.
    WaitPrm,
    /// Wait_Cfg: a master holds the slave, and it waits for its configuration.
    WaitCfg,
    /// Data_Exch: a master holds the slave and exchanges process data with it.
    DataExch,
}

impl State {
    /// Returns its name in texts (own).
    pub const fn name(self) -> &'static str
        ensures { result.now ≡ state_name self }
    {
        match self {
            State::WaitPrm => "WaitPrm",
            State::WaitCfg => "WaitCfg",
            State::DataExch => "DataExch",
        }
    }
}
