//! Finds which number, address or octet of a rack file keeps a line from being opened, and says it in words (own); it
//! refuses no rack file itself, which rack_file does.
//!
//! [`rack_file_fault_in`] reads the rack text again, after its fault: a fault is a small value that is copied.
#![tactic(auto)]

mod finding;
mod rack_file_fault;
mod stations;

pub use finding::rack_file_fault_in;
pub use rack_file_fault::{RackFileFault, Wrong};
