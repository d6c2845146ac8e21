//! Writes the text of a GSD file, the description of a device that PROFIBUS configuration tools read, and reads what
//! such a text says; it knows no rack files and opens no files.
//!
//! A GSD file is a text in memory here, and what it says is a value ([`Gsd`]).
#![tactic(auto)]

mod cause;
mod defaults;
mod facts;
mod gsd;
mod keys;
pub mod laws;
mod lines;
mod naming;
mod plugged;
mod rows;
mod sizes;
mod slots;
mod state;
mod user;
mod values;
mod writing;

pub use cause::{Cause, GsdReadFault, RowFault};
pub use facts::{Facts, LeftOut, Module, References, Slot};
pub use gsd::{Gsd, read_gsd};
pub use naming::{begins_with_words, module_named};
pub use plugged::{PlugFault, PluggedSlave, is_default, plugged_slave, slot_numbered, takes};
pub use rows::LONGEST_LINE;
pub use user::{MOST_PARAMETERS, UserParameters};
pub use values::{MOST_NAME, Name, Span};
pub use writing::gsd_text;
