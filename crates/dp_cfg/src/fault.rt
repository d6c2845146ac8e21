//! Faults of octets that are no configuration.

ghost use Rattle.std.specs.Prelude.{◌≡◌};
ghost use Rattle.dp_cfg.specs.Names.{cfg_fault_name};
ghost use Rattle.dp_cfg.specs.Reading.{fault_code};

use thiserror::Error;

/// The reason why octets are no configuration. `Cut` comes first: octets that are cut have no sums.
#[derive(Clone, Copy, Debug, PartialEq, Eq, Error)]
#[error("{}", self.name())]
pub enum CfgFault {
    /// The octets end within an identifier (IEC 61158-6-3, configuration identifiers).
    Cut,
    /// The inputs or the outputs are more than 244 octets (IEC 61158-6-3, Data_Exchange).
    TooLong,
}

impl CfgFault {
    /// Returns the number of the fault, 1 or 2 (own).
    pub const fn code(self) -> u8
        ensures { result ≡ fault_code self }
    {
        match self {
            CfgFault::Cut => 1,
            CfgFault::TooLong => 2,
        }
    }

    /// Returns its name in texts (own).
    pub const fn name(self) -> &'static str
        ensures { result.now ≡ cfg_fault_name self }
    {
        match self {
            CfgFault::Cut => "Cut",
            CfgFault::TooLong => "TooLong",
        }
    }
}
