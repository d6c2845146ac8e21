//! Simulated devices: which slaves of a line they drive ([`driven_slaves`]), and the inputs that they set next
//! ([`next_inputs`]); it decides nothing about when they set them.
//!
//! Nothing here allocates memory.
#![tactic(auto)]

mod devices;
mod driven_slave;
pub mod laws;

pub use devices::next_inputs;
pub use driven_slave::{DrivenSlave, MOST_DRIVEN, driven_slaves};
