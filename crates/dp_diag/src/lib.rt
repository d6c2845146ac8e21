//! The diagnosis that a slave stores, and the octets that report it (IEC 61158-6-3, Slave_Diag response); it doesn't read
//! the device's blocks in it.
//!
//! A [`Diag`] is the part of a slave's state that its application and its faults set. [`DiagFacts`]
//! is all that a diagnosis reports, and [`octets`] writes it. [`DiagFactsLent`] lends the [`Diag`],
//! and [`octets_lent_into`] writes it.
#![tactic(auto)]

mod diag;
mod facts;
pub mod laws;

pub use diag::{Diag, MOST_EXTENDED};
pub use dp_sap::State;
pub use facts::{DiagFacts, DiagFactsLent, NO_MASTER, octets, octets_into, octets_lent_into};
