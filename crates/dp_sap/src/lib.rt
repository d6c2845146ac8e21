//! The access table of a DP slave (IEC 61158-6-3, service access points): which point is open in which state, to whom, by
//! which service and with how many octets; it decides no request, which dp_responder does.
//!
//! [`Points`] holds what decides this: the slave's [`State`], its holder, its output length,
//! whether Data_Exchange may also be empty, the busy marks and the [`Lists`] of masters.
//! [`Points::find`] returns the [`Point`] of a number, such as [`SLAVE_DIAG`], and
//! [`Points::listed`] returns whether the lists let a master use it.
#![tactic(auto)]

mod busy;
mod fault;
pub mod laws;
mod lists;
mod point;
mod points;
mod state;

pub use busy::BusyMarks;
pub use fault::SapFault;
pub use lists::{Lists, MOST_LISTED};
pub use point::{
    Access, CHK_CFG, GET_CFG, GLOBAL_CONTROL, MOST_DATA, Point, RD_INP, RD_OUTP, SET_PRM,
    SLAVE_DIAG, Service, is_point,
};
pub use points::Points;
pub use state::State;
