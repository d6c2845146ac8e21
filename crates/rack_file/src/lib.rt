//! Reads a rack file, the TOML text that describes a rack of lines with simulated DP slaves, and reports what is wrong
//! if one is refused; it opens no files and no lines.
//!
//! [`read_rack`] reads the [`Rack`] that a text describes, or returns the first [`RackFault`] that applies.
//! [`cause_in`] shows where and why a text is refused, and [`read_lines`] reads lines that may not be opened. The
//! definition `rack_in` of `specs/RackFile` is what a text describes, and `specs/Causes` defines the text that is shown
//! if it is refused.
#![tactic(auto)]

mod fault;
mod keys;
pub mod laws;
mod misread;
mod rack;
mod reading;
mod reporting;
mod slaves;
mod toml_keys;

pub use fault::{RackFault, RefusedRack};
pub use rack::{Rack, RackLine};
pub use reading::{MOST_LINES, MOST_WORKERS, read_lines, read_rack};
pub use reporting::cause_in;
