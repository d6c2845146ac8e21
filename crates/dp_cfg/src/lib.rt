//! Configuration identifiers (IEC 61158-6-3): how many octets of inputs and of outputs a configuration has; it compares
//! no configuration with that of a slave.
//!
//! A configuration is a list of identifiers. Each has the general format of one octet, or the
//! special format with length octets and octets of the maker. [`CfgIds::parse`] reads a
//! configuration.
#![tactic(auto)]

mod choosing;
mod fault;
mod identifier;
mod ids;
pub mod laws;
mod sums;

pub use choosing::choose;
pub use fault::CfgFault;
pub use ids::CfgIds;
pub use sums::MOST_OCTETS;
