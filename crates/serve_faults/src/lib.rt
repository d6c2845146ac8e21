//! The faults for which a rack cannot be served or stops being served, with the port that a line lacks (own); it serves
//! nothing itself, which serve_rack does.
#![tactic(auto)]

mod missing_port;
mod serve_fault;

pub use missing_port::{MissingPort, PortKey, first_missing};
pub use serve_fault::{OutputFault, ServeFault};
