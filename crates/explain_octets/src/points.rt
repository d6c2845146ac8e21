//! Service access points in words.

ghost use Rattle.std.specs.Prelude.{◌≡◌, Some, option_map};
ghost use Rattle.explain_octets.specs.Points.{access_text, dsap_text, point_text, points, purpose_text, service_in, source_text, ssap_text, unsimulated_points};

use dp_sap::{CHK_CFG, GET_CFG, GLOBAL_CONTROL, RD_INP, RD_OUTP, SET_PRM, SLAVE_DIAG};
use std::fmt;

/// A service access point; None is the default point.
#[derive(Clone, Copy)]
pub(crate) struct Point(pub(crate) Option<u8>);

impl fmt::Display for Point {
    ghost output = { λ point. Some (point_text point.0) };

    fn fmt<W: fmt::Write>(&self, f: &mut fmt::Formatter<W>) -> fmt::Result {
        let Some(number) = self.0 else {
            return f.write_str("Data_Exchange");
        };
        match service(number) {
            Some(service) => write!(f, "{service} ({number})"),
            None => {
                let point = Dsap(number);
                write!(f, "{point}")
            }
        }
    }
}

/// A service access point that is not in the access table, by its number and by what it is for (IEC 61158-6-3, service
/// access points).
///
/// Contracts see the text that its `Display` writes: `DSAP 12`, or `DSAP 51 (MSAC_C1, DP-V1: not simulated)`.
#[derive(Clone, Copy)]
pub struct Dsap(pub u8);

impl fmt::Display for Dsap {
    ghost output = { λ point. Some (dsap_text point.0) };

    fn fmt<W: fmt::Write>(&self, f: &mut fmt::Formatter<W>) -> fmt::Result {
        let number = self.0;
        let purpose = Purpose(number);
        write!(f, "DSAP {number}{purpose}")
    }
}

/// What a point that no simulated slave has is for, after a space and in parentheses; writes nothing for any other point.
#[derive(Clone, Copy)]
struct Purpose(u8);

impl fmt::Display for Purpose {
    ghost output = { λ point. Some (purpose_text (service_in unsimulated_points point.0)) };

    fn fmt<W: fmt::Write>(&self, f: &mut fmt::Formatter<W>) -> fmt::Result {
        match unsimulated(self.0) {
            Some(purpose) => write!(f, " ({purpose})"),
            None => Ok(()),
        }
    }
}

/// The access points of a request and of its sender; None is the default point, and a sender without a point.
#[derive(Clone, Copy)]
pub(crate) struct AccessPoints {
    pub(crate) dsap: Option<u8>,
    pub(crate) ssap: Option<u8>,
}

impl fmt::Display for AccessPoints {
    ghost output = { λ points. Some (access_text points.dsap points.ssap) };

    fn fmt<W: fmt::Write>(&self, f: &mut fmt::Formatter<W>) -> fmt::Result {
        let source = Source(self.ssap);
        let Some(number) = self.dsap else {
            return write!(f, "Data_Exchange{source}");
        };
        match service(number) {
            Some(service) => write!(f, "{service} ({number}){source}"),
            None => {
                let ssap = Ssap(self.ssap);
                let purpose = Purpose(number);
                write!(f, "DSAP {number}{ssap}{purpose}")
            }
        }
    }
}

/// Returns the standard's name of the service at the point of this number; None if there is none.
pub fn service(number: u8) -> Option<&'static str>
    ensures { option_map (λ name. name.now) result ≡ service_in points number }
{
    match number {
        RD_INP => Some("RD_Inp"),
        RD_OUTP => Some("RD_Outp"),
        GLOBAL_CONTROL => Some("Global_Control"),
        GET_CFG => Some("Get_Cfg"),
        SLAVE_DIAG => Some("Slave_Diag"),
        SET_PRM => Some("Set_Prm"),
        CHK_CFG => Some("Chk_Cfg"),
        _ => None,
    }
}

/// Returns what the point of this number is for, if the standard has it and no simulated slave does (IEC 61158-6-3,
/// service access points); None for every other point.
pub fn unsimulated(number: u8) -> Option<&'static str>
    ensures { option_map (λ name. name.now) result ≡ service_in unsimulated_points number }
{
    match number {
        49 => Some("MSAC_C2, DP-V1: not simulated"),
        50 => Some("MSAL_C1, DP-V1: not simulated"),
        51 => Some("MSAC_C1, DP-V1: not simulated"),
        54 => Some("master to master: not simulated"),
        55 => Some("Set_Slave_Add: not simulated"),
        _ => None,
    }
}

/// The sender's access point after a point of the access table; writes nothing if it has none.
#[derive(Clone, Copy)]
struct Source(Option<u8>);

impl fmt::Display for Source {
    ghost output = { λ point. Some (source_text point.0) };

    fn fmt<W: fmt::Write>(&self, f: &mut fmt::Formatter<W>) -> fmt::Result {
        match self.0 {
            Some(number) => write!(f, " from {number}"),
            None => Ok(()),
        }
    }
}

/// The sender's access point after any other point; writes nothing if it has none.
#[derive(Clone, Copy)]
struct Ssap(Option<u8>);

impl fmt::Display for Ssap {
    ghost output = { λ point. Some (ssap_text point.0) };

    fn fmt<W: fmt::Write>(&self, f: &mut fmt::Formatter<W>) -> fmt::Result {
        match self.0 {
            Some(number) => write!(f, ", SSAP {number}"),
            None => Ok(()),
        }
    }
}
