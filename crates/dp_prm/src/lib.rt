//! The meaning of the octets of Set_Prm (IEC 61158-6-3, Set_Prm request) and whether a slave accepts them; it changes no
//! slave.
//!
//! [`read`] returns the [`PrmVerdict`] of the octets under the [`Limits`] of a slave. An accepted
//! locking request gives the parameters as a [`Prm`]. [`read_lent`] returns the same verdict as a
//! [`PrmVerdictLent`], which lends the user parameters from the octets.
#![tactic(auto)]

pub mod laws;
mod lent;
mod limits;
mod prm;
mod reading;

pub use lent::{PrmLent, PrmVerdictLent};
pub use limits::Limits;
pub use prm::{MOST_USER_PARAMETERS, Prm, PrmVerdict};
pub use reading::{
    FREEZE_REQ, LOCK_REQ, MOST_OCTETS, SYNC_REQ, UNLOCK_REQ, WD_ON, read, read_lent,
};
