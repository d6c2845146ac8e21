//! Writes the GSD file of a slave of a rack file, and a slave for a rack file from a GSD file; it opens no files and
//! does not read GSD files itself, which gsd_files does.
#![tactic(auto)]

mod fault;
mod gsd;
mod hints;
mod module_list;
mod names;
mod slave;
mod slave_text;

pub use fault::{GsdFault, NameFault, SlaveFault};
pub use gsd::run_gsd;
pub use module_list::list_modules;
pub use slave::run_slave;
