//! A service access point as a request finds it, and the points by their names.
//!
//! The default point, that of Data_Exchange, has no number: a request without DSAP names it.

ghost use Rattle.std.specs.Prelude.{◌≡◌};
ghost use Rattle.dp_sap.specs.AccessTable.{is_in_table};

/// The point RD_Inp: the inputs are read (IEC 61158-6-3, service access points).
pub const RD_INP: u8 = 56;

/// The point RD_Outp: the outputs are read (IEC 61158-6-3, service access points).
pub const RD_OUTP: u8 = 57;

/// The point Global_Control (IEC 61158-6-3, service access points).
pub const GLOBAL_CONTROL: u8 = 58;

/// The point Get_Cfg: the configuration is read (IEC 61158-6-3, service access points).
pub const GET_CFG: u8 = 59;

/// The point Slave_Diag: the diagnosis is read (IEC 61158-6-3, service access points).
pub const SLAVE_DIAG: u8 = 60;

/// The point Set_Prm: parameters are sent (IEC 61158-6-3, service access points).
pub const SET_PRM: u8 = 61;

/// The point Chk_Cfg: a configuration is sent (IEC 61158-6-3, service access points).
pub const CHK_CFG: u8 = 62;

/// The greatest number of data octets of a service (IEC 61158-6-3, data unit).
pub const MOST_DATA: usize = 244;

/// The masters whose requests a point takes (own).
#[derive(Clone, Copy, Debug, PartialEq, Eq)]
pub enum Access {
    /// Every master.
    All,
    /// Only the master with this address, 0 to 126.
    Only(u8),
}

/// The service by which a point is used (IEC 61158-4-3, data services).
#[derive(Clone, Copy, Debug, PartialEq, Eq)]
pub enum Service {
    /// SRD, send and request data with reply.
    Srd,
    /// SDN, send data with no acknowledge.
    Sdn,
}

/// A service access point as a request finds it.
#[derive(Clone, Copy, Debug, PartialEq, Eq)]
pub struct Point {
    /// The point is on.
    pub active: bool,
    /// The masters whose requests it takes.
    pub access: Access,
    /// The service by which it is used.
    pub service: Service,
    /// The least number of data octets of a request, 0 to 244.
    pub least: u8,
    /// The greatest number of data octets of a request, 0 to 244.
    pub most: u8,
    /// It also takes a request without data octets, whatever the least number is.
    pub empty: bool,
    /// The point is marked busy.
    pub busy: bool,
}

/// Returns whether the point is in the access table; `None` is the default point (own).
pub const fn is_point(number: Option<u8>) -> bool
    ensures { result ≡ is_in_table number }
{
    match number {
        None => true,
        Some(RD_INP | RD_OUTP | GLOBAL_CONTROL | GET_CFG | SLAVE_DIAG | SET_PRM | CHK_CFG) => true,
        Some(_) => false,
    }
}
